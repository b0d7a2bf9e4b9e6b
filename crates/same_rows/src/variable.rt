//! Rows of texts and byte strings between offsets (Arrow Columnar Format, "Variable-size Binary Layout").
ghost use Rattle.std.specs.Prelude.{◌≡◌, ◌+◌, ◌≤◌, IsTrue, None};
ghost use Rattle.arrow_spec.specs.Arrays.{slice};
ghost use Rattle.arrow_buffers.specs.Rows.{part};
ghost use Rattle.arrow_buffers.specs.Variable.{place_at, variable_cells, variable_rows};

use crate::bytes::are_same_bytes;
use crate::offsets::are_as_long;
use arrow_buffers::{VariableArray, ViewType, place_of};
use arrow_types::Offset;

/// The bytes of rows that stand one behind another.
fn bytes_of_rows<O: Offset, V: ViewType>(
    array: &VariableArray<O, V>,
    from: usize,
    count: usize,
) -> &[u8]
    requires { from + count ≤ variable_rows array.now.offsets }
    ensures { result.now ≡ slice array.now.values (place_at array.now.offsets from) (place_at array.now.offsets (from + count)) }
{
    let _held = array.len();
    let bytes = array.values().as_slice();
    let first = place_of(array.offsets(), from, bytes.len());
    let last = place_of(array.offsets(), from + count, bytes.len());
    &bytes[first..last]
}

/// Whether no bitmap says of rows that they are null.
fn has_no_nulls<O: Offset, V: ViewType>(array: &VariableArray<O, V>) -> bool
    ensures { IsTrue result → array.now.validity ≡ None }
{
    array.validity().is_none()
}

/// Whether rows of arrays without nulls have as many bytes one by one, and the same ones.
pub(crate) fn have_same_bytes<O: Offset, V: ViewType>(
    a: &VariableArray<O, V>,
    from: usize,
    b: &VariableArray<O, V>,
    start: usize,
    count: usize,
) -> bool
    requires a { from + count ≤ variable_rows a.now.offsets }
    requires b { start + count ≤ variable_rows b.now.offsets }
    ensures { IsTrue result → part from count (variable_cells V.IS_TEXT a.now) ≡ part start count (variable_cells V.IS_TEXT b.now) }
{
    let (_held, _others) = (a.len(), b.len());
    if !has_no_nulls(a) || !has_no_nulls(b) {
        return false;
    }
    if !are_as_long(a, from, b, start, count) {
        return false;
    }
    are_same_bytes(
        bytes_of_rows(a, from, count),
        bytes_of_rows(b, start, count),
    )
}
