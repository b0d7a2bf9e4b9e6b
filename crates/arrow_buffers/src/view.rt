//! Views of byte strings (Arrow Columnar Format, "Variable-size Binary View Layout").
ghost use Rattle.std.specs.Prelude.{◌≡◌, ◌+◌, ◌^◌, ◌≤◌, ◌<◌, length, not, true, IfOk};
ghost use Rattle.std.specs.Str.{bytes_eq};
ghost use Rattle.arrow_spec.specs.Arrays.{u32_of};
ghost use Rattle.arrow_spec.specs.Faults.{all_zero};
ghost use Rattle.arrow_buffers.specs.Rows.{has_rows};
ghost use Rattle.arrow_buffers.specs.Views.{view_rows, view_at, view_bytes, leads_right, is_good_view, is_no_text_view, has_bad_view, has_bad_view_text};

use crate::offsets::bytes_from;
use crate::texts::is_text;
use crate::{Bitmap, Buffer, validity_at};
use arrow_types::NativeType;
use std::alloc::{AllocError, Global};

/// The bytes of a view.
pub(crate) const VIEW_SIZE: usize = 16;

/// The most bytes that stand in a view itself.
pub(crate) const SHORT: usize = 12;

/// The number at a place of a view.
pub(crate) fn number_at(view: &[u8], at: usize) -> usize
    requires { at + 4 ≤ length view.now }
    ensures number { result ≡ u32_of view.now at }
    ensures small { result < 2 ^ 32 }
{
    <u32 as NativeType>::from_le_bytes(&view[at..at + 4]) as usize
}

fn are_zeros(bytes: &[u8]) -> bool
    ensures { result ≡ all_zero bytes.now }
{
    for byte in bytes {
        if *byte != 0 {
            return false;
        }
    }
    true
}

fn are_same(a: &[u8], b: &[u8]) -> bool
    ensures { result ≡ bytes_eq a.now b.now }
{
    a == b
}

/// Whether a long view's range lies in its buffer, and its prefix agrees.
fn leads_right(buffers: &[Buffer<u8>], view: &[u8]) -> bool
    requires size { length view.now ≡ 16 }
    requires long { 12 < u32_of view.now 0 }
    ensures { result ≡ leads_right buffers.now view.now }
{
    let length = number_at(view, 0);
    let number = number_at(view, 8);
    let from = number_at(view, 12);
    if number >= buffers.len() {
        return false;
    }
    let buffer = buffers[number].as_slice();
    if buffer.len() < from + length {
        return false;
    }
    let bytes = bytes_from(buffer, from, length);
    are_same(&view[4..8], &bytes[..4])
}

/// Whether a view's padding is zero, or it leads to its bytes.
pub(crate) fn is_good_view(buffers: &[Buffer<u8>], view: &[u8]) -> bool
    requires { length view.now ≡ 16 }
    ensures { result ≡ is_good_view buffers.now view.now }
{
    let length = number_at(view, 0);
    if length <= SHORT {
        are_zeros(&view[4 + length..])
    } else {
        leads_right(buffers, view)
    }
}

/// The bytes of a good view.
pub(crate) fn bytes_in<'a>(buffers: &'a [Buffer<u8>], view: &'a [u8]) -> &'a [u8]
    requires size { length view.now ≡ 16 }
    requires good { is_good_view buffers.now view.now ≡ true }
    ensures { result.now ≡ view_bytes buffers.now view.now }
{
    let length = number_at(view, 0);
    if length <= SHORT {
        return bytes_from(view, 4, length);
    }
    let number = number_at(view, 8);
    let from = number_at(view, 12);
    let buffer = buffers[number].as_slice();
    bytes_from(buffer, from, length)
}

/// A row's view.
pub(crate) fn view_at(views: &[u8], row: usize) -> &[u8]
    requires { row < view_rows views.now }
    ensures view { result.now ≡ view_at views.now row }
    ensures size { length result.now ≡ 16 }
{
    &views[VIEW_SIZE * row..VIEW_SIZE * row + VIEW_SIZE]
}

/// Whether a view is good, and its bytes are not UTF-8.
fn is_no_text(buffers: &[Buffer<u8>], view: &[u8]) -> bool
    requires { length view.now ≡ 16 }
    ensures { result ≡ is_no_text_view buffers.now view.now }
{
    is_good_view(buffers, view) && !is_text(bytes_in(buffers, view))
}

/// Whether the view of each row that is not null is good.
pub(crate) fn are_good_views(
    views: &[u8],
    buffers: &[Buffer<u8>],
    validity: &Option<Bitmap>,
) -> bool
    requires { has_rows validity.now (view_rows views.now) ≡ true }
    ensures { result ≡ not (has_bad_view views.now buffers.now validity.now) }
{
    for row in 0..views.len() / VIEW_SIZE {
        if validity_at(validity, row) && !is_good_view(buffers, view_at(views, row)) {
            return false;
        }
    }
    true
}

/// Whether each good view of a row that is not null is UTF-8.
pub(crate) fn are_view_texts(
    views: &[u8],
    buffers: &[Buffer<u8>],
    validity: &Option<Bitmap>,
) -> bool
    requires { has_rows validity.now (view_rows views.now) ≡ true }
    ensures { result ≡ not (has_bad_view_text views.now buffers.now validity.now) }
{
    for row in 0..views.len() / VIEW_SIZE {
        if validity_at(validity, row) && is_no_text(buffers, view_at(views, row)) {
            return false;
        }
    }
    true
}

/// Second owners of the same buffers.
pub(crate) fn clone_buffers(
    alloc: Global,
    buffers: &[Buffer<u8>],
) -> Result<Vec<Buffer<u8>>, AllocError>
    ensures { IfOk result (λ copies. copies.items ≡ buffers.now) }
{
    let mut copies = Vec::new(alloc);
    for buffer in buffers {
        copies.push(buffer.try_clone()?)?;
    }
    Ok(copies)
}
