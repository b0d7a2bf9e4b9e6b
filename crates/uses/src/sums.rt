//! Sums of the numbers of columns; of texts, of their lengths; of lists, of their items.
ghost use Rattle.std.specs.Prelude.{◌≡◌, ◌+◌, ◌≤◌, true};
ghost use Rattle.view_types.specs.Spans.{has_spans};
ghost use Rattle.view_types.specs.Views.{has_bytes, layout_of, rows_of};

use arrow_ipc::array::{Array, ListArray, PrimitiveArray, Utf8Array, Utf8ViewArray};
use arrow_ipc::mmap::{ArrayView, Layout};

/// Of so many rows of a view from one on; of anything but numbers 0.
fn sum_of_numbers(view: &ArrayView<'_>, first: usize, count: usize) -> i128
    requires { first + count ≤ rows_of view.now }
{
    let _rows = view.len();
    let mut sum = 0_i128;
    if let Layout::Number(_) = view.layout() {
        for i in 0..count {
            if !view.is_null(first + i) {
                sum = sum.wrapping_add(view.number(first + i));
            }
        }
    }
    sum
}

/// The lengths of texts or byte strings.
fn sum_of_lengths(view: &ArrayView<'_>) -> i128
    requires { has_bytes (layout_of view.now) ≡ true }
{
    let mut sum = 0_i128;
    for row in 0..view.len() {
        if !view.is_null(row) {
            sum = sum.wrapping_add(view.bytes(row).len() as i128);
        }
    }
    sum
}

/// The items of lists.
fn sum_of_lists(view: &ArrayView<'_>) -> i128
    requires { has_spans (layout_of view.now) ≡ true }
{
    let mut sum = 0_i128;
    for row in 0..view.len() {
        if !view.is_null(row) {
            let (child, first, count) = view.child_rows(row);
            if count > 0 {
                sum = sum.wrapping_add(sum_of_numbers(view.child(child), first, count));
            }
        }
    }
    sum
}

/// Of all rows of a view that are not null.
pub(crate) fn sum_of_view(view: &ArrayView<'_>) -> i128 {
    match view.layout() {
        Layout::Number(_) => sum_of_numbers(view, 0, view.len()),
        Layout::Bytes { .. } | Layout::Views { .. } => sum_of_lengths(view),
        Layout::Lists { .. } => sum_of_lists(view),
        _ => 0,
    }
}

/// Of some rows of an array of 32-bit integers that are not null.
fn sum_of_small(numbers: &PrimitiveArray<i32>, from: usize, to: usize) -> i128 {
    let mut sum = 0_i128;
    for row in from..to {
        sum = sum.wrapping_add(i128::from(numbers.get(row).unwrap_or(0)));
    }
    sum
}

fn sum_of_large(numbers: &PrimitiveArray<i64>) -> i128 {
    let mut sum = 0_i128;
    for row in 0..numbers.len() {
        sum = sum.wrapping_add(i128::from(numbers.get(row).unwrap_or(0)));
    }
    sum
}

/// The length of a text, 0 where it is null.
fn length(text: Option<&[u8]>) -> i128 {
    match text {
        Some(bytes) => bytes.len() as i128,
        None => 0,
    }
}

fn sum_of_texts(texts: &Utf8Array<i32>) -> i128 {
    let mut sum = 0_i128;
    for row in 0..texts.len() {
        sum = sum.wrapping_add(length(texts.get(row)));
    }
    sum
}

fn sum_of_text_views(texts: &Utf8ViewArray) -> i128 {
    let mut sum = 0_i128;
    for row in 0..texts.len() {
        sum = sum.wrapping_add(length(texts.get(row)));
    }
    sum
}

fn sum_of_items(lists: &ListArray, items: &PrimitiveArray<i32>) -> i128 {
    let mut sum = 0_i128;
    for row in 0..lists.len() {
        let (from, to) = lists.range(row);
        sum = sum.wrapping_add(sum_of_small(items, from, to));
    }
    sum
}

fn sum_of_list_array(lists: &ListArray) -> i128 {
    match lists.values() {
        Array::Int32(items) => sum_of_items(lists, items),
        _ => 0,
    }
}

/// Of all rows of an array that are not null, of the kinds in `bench/views`; of another kind 0.
pub(crate) fn sum_of_array(array: &Array) -> i128 {
    match array {
        Array::Int32(numbers) => sum_of_small(numbers, 0, numbers.len()),
        Array::Int64(numbers) => sum_of_large(numbers),
        Array::Utf8(texts) => sum_of_texts(texts),
        Array::Utf8View(texts) => sum_of_text_views(texts),
        Array::List(lists) => sum_of_list_array(lists),
        _ => 0,
    }
}
