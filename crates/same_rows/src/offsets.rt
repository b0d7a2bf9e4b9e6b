//! The offsets between which rows stand.
ghost use Rattle.std.specs.Prelude.{◌≡◌, ◌+◌, ◌*◌, ◌≤◌, IsTrue, length};
ghost use Rattle.arrow_buffers.specs.Rows.{part};
ghost use Rattle.arrow_buffers.specs.Variable.{variable_rows};
ghost use Rattle.same_rows.specs.Lengths.{HaveSameLengths};

use crate::bytes::{are_same_bytes, bytes_of_items};
use arrow_buffers::{Buffer, VariableArray, ViewType, place_of};
use arrow_types::Offset;

/// From how many rows on the offsets' bytes are looked at first.
const MANY: usize = 16;

/// Whether so many offsets from two places on have the same bytes.
fn have_same_offsets<O: Offset>(
    a: &Buffer<O>,
    from: usize,
    b: &Buffer<O>,
    start: usize,
    count: usize,
) -> bool
    requires a { from + count ≤ length a.now }
    requires b { start + count ≤ length b.now }
    ensures { IsTrue result → part from count a.now ≡ part start count b.now }
{
    let Ok((held, order)) = a.held() else {
        return false;
    };
    let Ok((others, other)) = b.held() else {
        return false;
    };
    if order != other {
        return false;
    }
    are_same_bytes(
        bytes_of_items(held.as_slice(), O::WIDTH, from, count),
        bytes_of_items(others.as_slice(), O::WIDTH, start, count),
    )
}

/// Whether rows from two places on, so many of each, have as many bytes one by one.
fn have_same_lengths<O: Offset, V: ViewType>(
    a: &VariableArray<O, V>,
    from: usize,
    b: &VariableArray<O, V>,
    start: usize,
    count: usize,
) -> bool
    requires a { from + count ≤ variable_rows a.now.offsets }
    requires b { start + count ≤ variable_rows b.now.offsets }
    ensures { IsTrue result → HaveSameLengths a.now.offsets from b.now.offsets start count }
{
    let (_held, _others) = (a.len(), b.len());
    let (limit, end) = (a.values().len(), b.values().len());
    let (places, others) = (a.offsets(), b.offsets());
    let first = place_of(places, from, limit);
    let second = place_of(others, start, end);
    for i in 0..count {
        let place = place_of(places, from + i + 1, limit);
        let other = place_of(others, start + i + 1, end);
        if place - first != other - second {
            return false;
        }
    }
    true
}

/// Whether rows stand between the same offsets.
fn stand_at_same_places<O: Offset, V: ViewType>(
    a: &VariableArray<O, V>,
    from: usize,
    b: &VariableArray<O, V>,
    start: usize,
    count: usize,
) -> bool
    requires a { from + count ≤ variable_rows a.now.offsets }
    requires b { start + count ≤ variable_rows b.now.offsets }
    ensures { IsTrue result → HaveSameLengths a.now.offsets from b.now.offsets start count }
{
    let (_held, _others) = (a.len(), b.len());
    let (places, others) = (a.offsets(), b.offsets());
    prove!(places.len() > from + count && others.len() > start + count);
    have_same_offsets(places, from, others, start, count + 1)
}

/// Whether rows are as long as others, one by one.
pub(crate) fn are_as_long<O: Offset, V: ViewType>(
    a: &VariableArray<O, V>,
    from: usize,
    b: &VariableArray<O, V>,
    start: usize,
    count: usize,
) -> bool
    requires a { from + count ≤ variable_rows a.now.offsets }
    requires b { start + count ≤ variable_rows b.now.offsets }
    ensures { IsTrue result → HaveSameLengths a.now.offsets from b.now.offsets start count }
{
    if count >= MANY && stand_at_same_places(a, from, b, start, count) {
        return true;
    }
    have_same_lengths(a, from, b, start, count)
}
