//! Tests of the rows of arrays that are lent (Arrow Columnar Format, "Variable-size Binary Layout").
ghost use Rattle.std.specs.Prelude.{◌≡◌, ℕ, suc, ◌+◌, ◌-◌, ◌*◌, ◌≤◌, ◌<◌, IfSome, IsTrue, false, length, not, true};
ghost use Rattle.std.specs.Option.{option_map};
ghost use Rattle.std.specs.Str.{is_utf8, IsCharBoundary};
ghost use Rattle.arrow_spec.specs.Arrays.{slice};
ghost use Rattle.arrow_spec.specs.Faults.{some_row};
ghost use Rattle.view_types.specs.Views.{is_set, offset_bytes, order_of};
ghost use Rattle.ipc_view.specs.Tests.{has_bad_offsets, has_fallen, is_below_zero, is_no_text, offset_place};

use view_types::{is_bit_set, is_offset_negative, offset_at};

/// Whether none of the offsets of so many rows is negative or below the one before it, and the last is within a limit.
pub(crate) fn offsets_fit(
    offsets: &[u8],
    rows: usize,
    is_large: bool,
    is_big_endian: bool,
    limit: usize,
) -> bool
    requires { offset_bytes is_large * (rows + 1) ≤ length offsets.now }
    ensures { result ≡ not (has_bad_offsets offsets.now is_large (order_of is_big_endian) rows limit) }
{
    if is_offset_negative(offsets, 0, is_large, is_big_endian) {
        return false;
    }
    let mut low = offset_at(offsets, 0, is_large, is_big_endian);
    for j in 0..rows {
        if is_offset_negative(offsets, j + 1, is_large, is_big_endian) {
            return false;
        }
        let place = offset_at(offsets, j + 1, is_large, is_big_endian);
        if place < low {
            return false;
        }
        low = place;
    }
    low <= limit
}

/// Whether the bytes are UTF-8.
#[tactic(auto, using(crate::proofs::Utf8Tests::texts))]
pub(crate) fn is_text(bytes: &[u8]) -> bool
    ensures { result ≡ is_utf8 bytes.now }
{
    simdutf8::basic::from_utf8(bytes).is_ok()
}

/// The bytes between two places.
fn bytes_between(values: &[u8], from: usize, to: usize) -> &[u8]
    requires rise { from ≤ to }
    requires within { to ≤ length values.now }
    ensures bytes { result.now ≡ slice values.now from to }
    ensures size { length result.now ≡ to - from }
{
    &values[from..to]
}

/// The bytes between two offsets.
fn row_bytes<'v>(
    offsets: &[u8],
    values: &'v [u8],
    row: usize,
    is_large: bool,
    is_big_endian: bool,
) -> &'v [u8]
    requires room { offset_bytes is_large * (row + 2) ≤ length offsets.now }
    requires rise { offset_place offsets.now is_large (order_of is_big_endian) row ≤ offset_place offsets.now is_large (order_of is_big_endian) (suc row) }
    requires within { offset_place offsets.now is_large (order_of is_big_endian) (suc row) ≤ length values.now }
    ensures { result.now ≡ slice values.now (offset_place offsets.now is_large (order_of is_big_endian) row) (offset_place offsets.now is_large (order_of is_big_endian) (suc row)) }
{
    let from = offset_at(offsets, row, is_large, is_big_endian);
    let to = offset_at(offsets, row + 1, is_large, is_big_endian);
    bytes_between(values, from, to)
}

/// Whether a row is not null.
fn is_row_set(bits: Option<&[u8]>, row: usize) -> bool
    requires { IfSome bits (λ b. row < 8 * length b.now) }
    ensures { result ≡ is_set (option_map (λ b. b.now) bits.entry) row }
{
    match bits {
        None => true,
        Some(bits) => is_bit_set(bits, row),
    }
}

/// Whether no character of a text passes over the place.
pub(crate) fn is_boundary(text: &[u8], at: usize) -> bool
    requires { at ≤ length text.now }
    ensures { IsTrue result → IsCharBoundary text.now at }
{
    at == text.len() || text[at] < 128 || text[at] >= 192
}

/// Whether the bytes that rows use are UTF-8 and each offset stands between two characters. Then every row is text.
fn are_one_text(
    offsets: &[u8],
    values: &[u8],
    rows: usize,
    is_large: bool,
    is_big_endian: bool,
) -> bool
    requires room { offset_bytes is_large * (rows + 1) ≤ length offsets.now }
    requires fit { has_bad_offsets offsets.now is_large (order_of is_big_endian) rows (length values.now) ≡ false }
    ensures { IsTrue result → (row : ℕ) → row < rows → is_utf8 (slice values.now (offset_place offsets.now is_large (order_of is_big_endian) row) (offset_place offsets.now is_large (order_of is_big_endian) (suc row))) ≡ true }
{
    let first = offset_at(offsets, 0, is_large, is_big_endian);
    let last = offset_at(offsets, rows, is_large, is_big_endian);
    let used = bytes_between(values, first, last);
    if !is_text(used) {
        return false;
    }
    for row in 0..rows {
        let place = offset_at(offsets, row, is_large, is_big_endian);
        if !is_boundary(used, place - first) {
            return false;
        }
    }
    true
}

/// Whether each row that is not null is UTF-8, told row by row.
fn are_row_texts(
    offsets: &[u8],
    values: &[u8],
    bits: Option<&[u8]>,
    rows: usize,
    is_large: bool,
    is_big_endian: bool,
) -> bool
    requires room { offset_bytes is_large * (rows + 1) ≤ length offsets.now }
    requires bits { IfSome bits (λ b. rows ≤ 8 * length b.now) }
    requires fit { has_bad_offsets offsets.now is_large (order_of is_big_endian) rows (length values.now) ≡ false }
    ensures { result ≡ not (some_row (is_no_text offsets.now values.now (option_map (λ b. b.now) bits.entry) is_large (order_of is_big_endian)) rows) }
{
    for row in 0..rows {
        if is_row_set(bits, row)
            && !is_text(row_bytes(offsets, values, row, is_large, is_big_endian))
        {
            return false;
        }
    }
    true
}

/// Whether each row that is not null is UTF-8.
pub(crate) fn texts_fit(
    offsets: &[u8],
    values: &[u8],
    bits: Option<&[u8]>,
    rows: usize,
    is_large: bool,
    is_big_endian: bool,
) -> bool
    requires room { offset_bytes is_large * (rows + 1) ≤ length offsets.now }
    requires bits { IfSome bits (λ b. rows ≤ 8 * length b.now) }
    requires fit { has_bad_offsets offsets.now is_large (order_of is_big_endian) rows (length values.now) ≡ false }
    ensures { result ≡ not (some_row (is_no_text offsets.now values.now (option_map (λ b. b.now) bits.entry) is_large (order_of is_big_endian)) rows) }
{
    if are_one_text(offsets, values, rows, is_large, is_big_endian) {
        return true;
    }
    are_row_texts(offsets, values, bits, rows, is_large, is_big_endian)
}
