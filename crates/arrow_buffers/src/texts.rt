//! Rows that are to be text (Arrow Columnar Format, "Variable-size Binary Layout").
ghost use Rattle.std.specs.Prelude.{◌≡◌, ◌≤◌, ◌<◌, ℕ, length, map, not, true, IsTrue};
ghost use Rattle.std.specs.Str.{is_utf8, IsCharBoundary};
ghost use Rattle.arrow_buffers.specs.Rows.{has_rows};
ghost use Rattle.arrow_buffers.specs.Variable.{are_offsets, row_bytes, variable_rows, has_bad_text};

use crate::offsets::{bytes_from, bytes_of, place_of};
use crate::{Bitmap, Buffer, nulls_in, validity_at};
use arrow_types::Offset;

/// Whether the bytes are UTF-8.
#[tactic(auto, using(crate::proofs::Utf8Tests::texts))]
pub(crate) fn is_text(bytes: &[u8]) -> bool
    ensures { result ≡ is_utf8 bytes.now }
{
    simdutf8::basic::from_utf8(bytes).is_ok()
}

/// Whether no character of a text passes over the place.
pub(crate) fn is_boundary(text: &[u8], at: usize) -> bool
    requires { at ≤ length text.now }
    ensures { IsTrue result → IsCharBoundary text.now at }
{
    at == text.len() || text[at] < 128 || text[at] >= 192
}

/// Whether the bytes that rows use are UTF-8 and each offset stands between two characters. Then every row is text.
fn are_one_text<O: Offset>(offsets: &Buffer<O>, values: &[u8]) -> bool
    requires { are_offsets (map O.number offsets.now) (length values.now) ≡ true }
    ensures { IsTrue result → (row : ℕ) → row < variable_rows (map O.number offsets.now) → is_utf8 (row_bytes (map O.number offsets.now) values.now row) ≡ true }
{
    let first = place_of(offsets, 0, values.len());
    let last = place_of(offsets, offsets.len() - 1, values.len());
    let used = bytes_from(values, first, last - first);
    if !is_text(used) {
        return false;
    }
    for i in 0..offsets.len() {
        let place = place_of(offsets, i, values.len());
        if !is_boundary(used, place - first) {
            return false;
        }
    }
    true
}

/// Whether each row that is not null is UTF-8, told row by row.
fn are_row_texts<O: Offset>(offsets: &Buffer<O>, values: &[u8], validity: &Option<Bitmap>) -> bool
    requires rise { are_offsets (map O.number offsets.now) (length values.now) ≡ true }
    requires rows { has_rows validity.now (variable_rows (map O.number offsets.now)) ≡ true }
    ensures { result ≡ not (has_bad_text (map O.number offsets.now) values.now validity.now) }
{
    for row in 0..offsets.len() - 1 {
        if validity_at(validity, row) && !is_text(bytes_of(offsets, values, row)) {
            return false;
        }
    }
    true
}

/// Whether each row that is not null is UTF-8.
pub(crate) fn are_texts<O: Offset>(
    offsets: &Buffer<O>,
    values: &[u8],
    validity: &Option<Bitmap>,
) -> bool
    requires rise { are_offsets (map O.number offsets.now) (length values.now) ≡ true }
    requires rows { has_rows validity.now (variable_rows (map O.number offsets.now)) ≡ true }
    ensures { result ≡ not (has_bad_text (map O.number offsets.now) values.now validity.now) }
{
    if nulls_in(validity) == 0 && are_one_text(offsets, values) {
        return true;
    }
    are_row_texts(offsets, values, validity)
}
