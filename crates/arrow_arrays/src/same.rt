//! Equality: of arrays exactly where their kinds and their cells are equal, of batches where their rows, schemas, arrays and pairs are.
ghost use Rattle.std.specs.Prelude.{◌≡◌, ◌↔◌, ◌+◌, ◌≤◌, map, IsTrue};
ghost use Rattle.arrow_arrays.specs.Contents.{content_of};
ghost use Rattle.arrow_buffers.specs.Rows.{part};
ghost use Rattle.arrow_arrays.specs.Heads.{run, across, Reaches};
ghost use Rattle.arrow_arrays.specs.Parts.{kind_in, rows_in, cells_in, rows_each, cells_each};
ghost use Rattle.arrow_arrays.specs.PartsOf.{parts_of, forest_of};
ghost use Rattle.arrow_arrays.specs.RowCells.{cell_of, Inside};
ghost use Rattle.ipc_fields.specs.IpcFields.{metadata_in};
ghost use Rattle.arrow_arrays.specs.SameBatches.{SameBatch};

use crate::array::Array;
use crate::record_batch::{RecordBatch, RecordBatchT};
use crate::row_value::RowValue;
use arrow_types::{Metadata, is_same_metadata};

fn are_same_bytes(a: &[u8], b: &[u8]) -> bool
    ensures { IsTrue result ↔ (a.now ≡ b.now) }
{
    a == b
}

/// Whether two rows hold the same.
#[cycle(same)]
fn is_same_value(a: RowValue, b: RowValue) -> bool
    requires a { Inside a }
    requires b { Inside b }
    ensures { IsTrue result ↔ (cell_of a.entry ≡ cell_of b.entry) }
{
    match a {
        RowValue::Null => matches!(b, RowValue::Null),
        RowValue::Bit(x) => match b {
            RowValue::Bit(y) => x == y,
            _ => false,
        },
        RowValue::Number(x) => match b {
            RowValue::Number(y) => x == y,
            _ => false,
        },
        RowValue::Interval(x, y, z) => match b {
            RowValue::Interval(u, v, w) => x == u && y == v && z == w,
            _ => false,
        },
        RowValue::Text(x) => match b {
            RowValue::Text(y) => are_same_bytes(x, y),
            _ => false,
        },
        RowValue::Bytes(x) => match b {
            RowValue::Bytes(y) => are_same_bytes(x, y),
            _ => false,
        },
        RowValue::List(x, from, count) => match b {
            RowValue::List(y, start, length) => have_same_rows(x, from, count, y, start, length),
            _ => false,
        },
        RowValue::Struct(xs, row) => match b {
            RowValue::Struct(ys, place) => have_same_row(xs, row, ys, place),
            _ => false,
        },
        RowValue::Tagged(t, x, row) => match b {
            RowValue::Tagged(u, y, place) => t == u && is_same_value(x.row(row), y.row(place)),
            _ => false,
        },
    }
}

/// Whether `count` rows of one array from a row on hold the same as `length` rows of another, whatever their types. It takes
/// no memory, and goes as deep as the arrays' trees.
#[cycle(same)]
pub fn have_same_rows(
    a: &Array,
    from: usize,
    count: usize,
    b: &Array,
    start: usize,
    length: usize,
) -> bool
    requires a { from + count ≤ rows_in (parts_of a.now) }
    requires b { start + length ≤ rows_in (parts_of b.now) }
    ensures { IsTrue result ↔ (part from count (cells_in (parts_of a.now)) ≡ part start length (cells_in (parts_of b.now))) }
{
    let held = a.len();
    let others = b.len();
    prove!(count <= held && length <= others);
    if count != length {
        return false;
    }
    for row in 0..count {
        if !is_same_value(a.row(from + row), b.row(start + row)) {
            return false;
        }
    }
    true
}

/// Whether a row across some columns holds the same as one across others.
#[cycle(same)]
fn have_same_row(a: &[Array], row: usize, b: &[Array], place: usize) -> bool
    requires a { Reaches (run row 1) (rows_each (forest_of a.now)) }
    requires b { Reaches (run place 1) (rows_each (forest_of b.now)) }
    ensures { IsTrue result ↔ (across (cells_each (forest_of a.now)) row ≡ across (cells_each (forest_of b.now)) place) }
{
    if a.len() != b.len() {
        return false;
    }
    for i in 0..a.len() {
        if !is_same_value(a[i].row(row), b[i].row(place)) {
            return false;
        }
    }
    true
}

/// Whether the rows of two arrays hold the same.
fn have_same_cells(a: &Array, b: &Array) -> bool
    ensures { IsTrue result ↔ (cells_in (parts_of a.now) ≡ cells_in (parts_of b.now)) }
{
    have_same_rows(a, 0, a.len(), b, 0, b.len())
}

impl PartialEq for Array {
    ghost use Rattle.std.specs.Ordering.{on};
    ghost use Rattle.std.specs.Cmp.{on_per, partial_equiv_from_equiv};
    ghost use Rattle.std.specs.Prelude.{◌≡◌, ◌↔◌, IsTrue};
    ghost use Rattle.arrow_arrays.specs.Parts.{kind_in, cells_in};
    ghost use Rattle.arrow_arrays.specs.PartsOf.{parts_of};
    ghost use Rattle.arrow_arrays.specs.CellCode.{content_eq, content_eq_equiv};
    ghost use Rattle.arrow_arrays.specs.Contents.{content_of};

    ghost eq = { on content_of content_eq };

    ghost laws = { on_per content_of (partial_equiv_from_equiv content_eq_equiv) };

    fn eq(&self, other: &Array) -> bool
        ensures eq { result ≡ content_eq (content_of self.now) (content_of other.now) }
        ensures same { IsTrue result ↔ ((kind_in (parts_of self.now) ≡ kind_in (parts_of other.now)) × (cells_in (parts_of self.now) ≡ cells_in (parts_of other.now))) }
    {
        *self.dtype() == *other.dtype() && have_same_cells(self, other)
    }
}

fn are_same_arrays(a: &[Array], b: &[Array]) -> bool
    ensures { IsTrue result ↔ (map content_of a.now ≡ map content_of b.now) }
{
    a == b
}

/// Whether two batches have the same pairs, where there are any.
fn may_be_same_pairs(a: Option<&Metadata>, b: Option<&Metadata>) -> bool
    ensures { IsTrue result ↔ (metadata_in a.entry ≡ metadata_in b.entry) }
{
    match a {
        None => match b {
            None => true,
            Some(y) => y.is_empty(),
        },
        Some(x) => match b {
            None => x.is_empty(),
            Some(y) => is_same_metadata(x, y),
        },
    }
}

fn is_same_batch(a: &RecordBatch, b: &RecordBatch) -> bool
    ensures { IsTrue result ↔ SameBatch a.now b.now }
{
    if a.height() != b.height() {
        return false;
    }
    if !may_be_same_pairs(a.custom_metadata(), b.custom_metadata()) {
        return false;
    }
    **a.schema() == **b.schema() && are_same_arrays(a.arrays(), b.arrays())
}

impl PartialEq for RecordBatchT {
    ghost use Rattle.std.specs.Ordering.{on};
    ghost use Rattle.std.specs.Cmp.{on_per, partial_equiv_from_equiv};
    ghost use Rattle.std.specs.Prelude.{◌≡◌, ◌↔◌, IsTrue};
    ghost use Rattle.arrow_arrays.specs.BatchCode.{holding_eq, holding_eq_equiv};
    ghost use Rattle.arrow_arrays.specs.SameBatches.{SameBatch, holding_of};

    ghost eq = { on holding_of holding_eq };

    ghost laws = { on_per holding_of (partial_equiv_from_equiv holding_eq_equiv) };

    /// Whether the batches have as many rows, the same schema, columns that hold the same, and the same pairs.
    fn eq(&self, other: &RecordBatchT) -> bool
        ensures eq { result ≡ holding_eq (holding_of self.now) (holding_of other.now) }
        ensures same { IsTrue result ↔ SameBatch self.now other.now }
    {
        is_same_batch(self, other)
    }
}
