//! Rows of arrays of any kind.
ghost use Rattle.std.specs.Prelude.{◌≡◌, ◌↔◌, ◌+◌, ◌≤◌, IsTrue};
ghost use Rattle.arrow_buffers.specs.Rows.{part};
ghost use Rattle.arrow_arrays.specs.Parts.{rows_in, cells_in};
ghost use Rattle.arrow_arrays.specs.PartsOf.{parts_of};

use crate::variable::have_same_bytes;
use arrow_arrays::Array;

/// Whether two arrays are of one layout of texts or byte strings between offsets, and these rows have no nulls and the same bytes.
fn have_same_texts(a: &Array, from: usize, b: &Array, start: usize, count: usize) -> bool
    requires a { from + count ≤ rows_in (parts_of a.now) }
    requires b { start + count ≤ rows_in (parts_of b.now) }
    ensures { IsTrue result → part from count (cells_in (parts_of a.now)) ≡ part start count (cells_in (parts_of b.now)) }
{
    match a {
        Array::Utf8(x) => match b {
            Array::Utf8(y) => have_same_bytes(x, from, y, start, count),
            _ => false,
        },
        Array::LargeUtf8(x) => match b {
            Array::LargeUtf8(y) => have_same_bytes(x, from, y, start, count),
            _ => false,
        },
        Array::Binary(x) => match b {
            Array::Binary(y) => have_same_bytes(x, from, y, start, count),
            _ => false,
        },
        Array::LargeBinary(x) => match b {
            Array::LargeBinary(y) => have_same_bytes(x, from, y, start, count),
            _ => false,
        },
        _ => false,
    }
}

/// Whether `count` rows of one array from a row on hold the same as `length` rows of another, whatever their types. It takes
/// no memory, and goes as deep as the arrays' trees.
pub fn have_same_rows(
    a: &Array,
    from: usize,
    count: usize,
    b: &Array,
    start: usize,
    length: usize,
) -> bool
    requires a { from + count ≤ rows_in (parts_of a.now) }
    requires b { start + length ≤ rows_in (parts_of b.now) }
    ensures { IsTrue result ↔ (part from count (cells_in (parts_of a.now)) ≡ part start length (cells_in (parts_of b.now))) }
{
    if count == length && have_same_texts(a, from, b, start, count) {
        return true;
    }
    arrow_arrays::have_same_rows(a, from, count, b, start, length)
}
