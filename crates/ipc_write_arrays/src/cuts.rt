//! The rows of the children that rows of an array hold (Arrow Columnar Format, "Fixed-Size List Layout", "Struct Layout", "Union Layout").
ghost use Rattle.std.specs.Prelude.{◌≡◌, ◌+◌, ◌*◌, ◌^◌, ◌<◌, ◌≤◌, IfOk};
ghost use Rattle.std.specs.Option.{option_map};
ghost use Rattle.arrow_arrays.specs.Heads.{tagged_cut};
ghost use Rattle.arrow_arrays.specs.Parts.{rows_in};
ghost use Rattle.arrow_arrays.specs.PartsOf.{parts_of};
ghost use Rattle.ipc_write_arrays.specs.Trims.{cut_from, cut_count};
ghost use Rattle.ipc_write_arrays.specs.CutsOf.{cut_in};

use arrow_arrays::Array;
use arrow_buffers::Buffer;
use std::alloc::AllocError;

/// The most rows that a node can say.
const MOST_ROWS: usize = 0x7fff_ffff_ffff_ffff;

/// Which rows of each child are meant: all, or so many from one on.
#[derive(Clone, Copy)]
pub(crate) enum Cut {
    Whole,
    Run(usize, usize),
}

/// Which rows of its children rows of a union hold; a dense one's children are held whole.
pub(crate) fn union_cut(places: Option<&Buffer<i32>>, offset: usize, rows: usize) -> Cut
    ensures { cut_in result ≡ tagged_cut offset rows (option_map (λ b. b.now) places.entry) }
{
    match places {
        None => Cut::Run(offset, rows),
        Some(_) => Cut::Whole,
    }
}

/// So many rows, where a node can say them.
fn sayable(rows: usize) -> Result<usize, AllocError>
    ensures rows { IfOk result (λ n. n ≡ rows) }
    ensures few { IfOk result (λ n. n < 2 ^ 63) }
{
    // Rows of nulls alone take no bytes: an array of more of them than a node can say is refused as if no memory held it.
    if rows > MOST_ROWS {
        return Err(AllocError);
    }
    Ok(rows)
}

/// Where the rows of a child begin, and how many they are.
///
/// # Errors
///
/// Want of memory, where they are more than a node can say.
pub(crate) fn cut_rows(array: &Array, cut: Cut) -> Result<(usize, usize), AllocError>
    ensures from { IfOk result (λ r. r.0 ≡ cut_from (cut_in cut)) }
    ensures count { IfOk result (λ r. r.1 ≡ cut_count (cut_in cut) (rows_in (parts_of array.now))) }
    ensures few { IfOk result (λ r. r.1 < 2 ^ 63) }
{
    match cut {
        Cut::Whole => Ok((0, sayable(array.len())?)),
        Cut::Run(offset, rows) => Ok((offset, sayable(rows)?)),
    }
}

/// Where the items of some rows begin among those of all lists of one size, and how many they are.
///
/// # Errors
///
/// Want of memory, where they are more than a node can say.
pub(crate) fn items_between(
    size: usize,
    offset: usize,
    rows: usize,
    held: usize,
    items: usize,
) -> Result<(usize, usize), AllocError>
    requires whole { items ≡ size * held }
    requires room { offset + rows ≤ held }
    ensures from { IfOk result (λ r. r.0 ≡ size * offset) }
    ensures count { IfOk result (λ r. r.1 ≡ size * rows) }
    ensures within { IfOk result (λ r. r.0 + r.1 ≤ items) }
    ensures few { IfOk result (λ r. r.1 < 2 ^ 63) }
{
    let from = size * offset;
    let count = size * rows;
    Ok((from, sayable(count)?))
}
