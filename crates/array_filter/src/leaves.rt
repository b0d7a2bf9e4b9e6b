//! Rows of arrays without children.
ghost use Rattle.std.specs.Prelude.{◌≡◌, length, false, IfOk};
ghost use Rattle.arrow_spec.specs.Flat.{little};
ghost use Rattle.arrow_buffers.specs.Leaf.{fixed_rows};
ghost use Rattle.arrow_buffers.specs.Variable.{variable_rows};
ghost use Rattle.arrow_buffers.specs.Views.{view_rows};
ghost use Rattle.arrow_arrays.specs.LeafParts.{numbers, as_bytes};
ghost use Rattle.arrow_arrays.specs.Parts.{has_children, rows_in};
ghost use Rattle.arrow_arrays.specs.PartsOf.{parts_of};
ghost use Rattle.array_filter.specs.Runs.{Climb, rows_in_runs};
ghost use Rattle.array_filter.specs.Taken.{fixed_taken, leaf_rows_taken, leaf_taken, rows_taken, variable_taken, views_taken};

use crate::bits::{take_bits, take_validity};
use crate::bytes::{take_items, take_rows};
use crate::offsets::{are_all, take_offsets};
use crate::runs::{Run, is_one, row_count};
use arrow_arrays::Array;
use arrow_buffers::{
    BinaryViewArrayGeneric, BooleanArray, Buffer, FixedSizeBinaryArray, NullArray, PrimitiveArray,
    VariableArray, ViewType,
};
use arrow_types::{NativeType, Offset};
use std::alloc::{AllocError, Global};

/// The bytes of a view.
const VIEW_SIZE: usize = 16;

/// Rows of an array of numbers.
pub(crate) fn take_primitive<T: NativeType>(
    alloc: Global,
    array: &PrimitiveArray<T>,
    runs: &[Run],
) -> Result<PrimitiveArray<T>, AllocError>
    requires { Climb 0 runs.now (length array.now.values) }
    ensures { IfOk result (λ a. a ≡ leaf_taken (rows_in_runs runs.now) array.now) }
{
    let values = take_items(alloc, array.values(), runs)?;
    let validity = take_validity(alloc, array.validity(), array.len(), runs)?;
    let dtype = array.dtype().try_clone(alloc)?;
    match PrimitiveArray::try_new(dtype, values, validity) {
        Ok(taken) => Ok(taken),
        Err(_) => unreachable!(),
    }
}

/// The same, its numbers seen as their bytes.
fn take_numbers<T: NativeType>(
    alloc: Global,
    array: &PrimitiveArray<T>,
    runs: &[Run],
) -> Result<PrimitiveArray<T>, AllocError>
    requires { Climb 0 runs.now (length array.now.values) }
    ensures { IfOk result (λ a. numbers (as_bytes (T.written little) a) ≡ leaf_rows_taken (rows_in_runs runs.now) (numbers (as_bytes (T.written little) array.now))) }
{
    take_primitive(alloc, array, runs)
}

/// Rows of an array of truth values.
fn take_boolean(
    alloc: Global,
    array: &BooleanArray,
    runs: &[Run],
) -> Result<BooleanArray, AllocError>
    requires { Climb 0 runs.now (length array.now.values) }
    ensures { IfOk result (λ a. a ≡ leaf_taken (rows_in_runs runs.now) array.now) }
{
    let values = take_bits(alloc, array.values(), runs)?;
    let validity = take_validity(alloc, array.validity(), array.len(), runs)?;
    let dtype = array.dtype().try_clone(alloc)?;
    match BooleanArray::try_new(dtype, values, validity) {
        Ok(taken) => Ok(taken),
        Err(_) => unreachable!(),
    }
}

/// Rows of an array of byte strings of one size.
fn take_fixed(
    alloc: Global,
    array: &FixedSizeBinaryArray,
    runs: &[Run],
) -> Result<FixedSizeBinaryArray, AllocError>
    requires { Climb 0 runs.now (fixed_rows array.now) }
    ensures { IfOk result (λ a. a ≡ fixed_taken (rows_in_runs runs.now) array.now) }
{
    let held = array.len();
    let values = take_rows(alloc, array.values(), array.size(), held, runs)?;
    let validity = take_validity(alloc, array.validity(), held, runs)?;
    let dtype = array.dtype().try_clone(alloc)?;
    match FixedSizeBinaryArray::try_new(dtype, values, validity) {
        Ok(taken) => Ok(taken),
        Err(_) => unreachable!(),
    }
}

/// Rows of an array of byte strings or texts between offsets. One that is kept whole is not looked at again.
fn take_variable<O: Offset, V: ViewType>(
    alloc: Global,
    array: &VariableArray<O, V>,
    runs: &[Run],
) -> Result<VariableArray<O, V>, AllocError>
    requires { Climb 0 runs.now (variable_rows array.now.offsets) }
    ensures { IfOk result (λ a. a ≡ variable_taken (rows_in_runs runs.now) array.now) }
{
    let held = array.len();
    let limit = array.values().len();
    if are_all(array.offsets(), limit, runs) {
        return array.try_clone(alloc);
    }
    let (offsets, items) = take_offsets(alloc, array.offsets(), limit, runs)?;
    let values = take_rows(alloc, array.values(), 1, limit, items.as_slice())?;
    let validity = take_validity(alloc, array.validity(), held, runs)?;
    let dtype = array.dtype().try_clone(alloc)?;
    match VariableArray::try_new(dtype, offsets, values, validity) {
        Ok(taken) => Ok(taken),
        Err(_) => unreachable!(),
    }
}

/// Second owners of the same buffers.
fn clone_buffers(alloc: Global, buffers: &[Buffer<u8>]) -> Result<Vec<Buffer<u8>>, AllocError>
    ensures { IfOk result (λ clones. clones.items ≡ buffers.now) }
{
    let mut clones = Vec::new(alloc);
    for buffer in buffers {
        clones.push(buffer.try_clone()?)?;
    }
    Ok(clones)
}

/// Rows of an array of views, which keep the buffers. One that is kept whole is not looked at again.
fn take_views<V: ViewType>(
    alloc: Global,
    array: &BinaryViewArrayGeneric<V>,
    runs: &[Run],
) -> Result<BinaryViewArrayGeneric<V>, AllocError>
    requires { Climb 0 runs.now (view_rows array.now.views) }
    ensures { IfOk result (λ a. a ≡ views_taken (rows_in_runs runs.now) array.now) }
{
    let held = array.len();
    if is_one(runs, held) {
        return array.try_clone(alloc);
    }
    let views = take_rows(alloc, array.views(), VIEW_SIZE, held, runs)?;
    let buffers = clone_buffers(alloc, array.data_buffers())?;
    let validity = take_validity(alloc, array.validity(), held, runs)?;
    let dtype = array.dtype().try_clone(alloc)?;
    match BinaryViewArrayGeneric::try_new(dtype, views, buffers, validity) {
        Ok(taken) => Ok(taken),
        Err(_) => unreachable!(),
    }
}

/// Rows of an array of nulls.
fn take_nulls(alloc: Global, array: &NullArray, runs: &[Run]) -> Result<NullArray, AllocError>
    requires { Climb 0 runs.now array.now.rows }
    ensures { IfOk result (λ a. a ≡ record { kind = array.now.kind; rows = length (rows_in_runs runs.now) }) }
{
    let count = row_count(runs, array.len());
    let dtype = array.dtype().try_clone(alloc)?;
    match NullArray::try_new(dtype, count) {
        Ok(taken) => Ok(taken),
        Err(_) => unreachable!(),
    }
}

/// The array of a kind over the rows of what it holds.
macro_rules! taken {
    ($kind:ident, $take:ident, $array:ident, $alloc:ident, $runs:ident) => {
        match $take($alloc, $array, $runs) {
            Ok(taken) => Ok(Array::$kind(taken)),
            Err(error) => Err(error),
        }
    };
}

/// Rows of an array in which no arrays stand.
pub(crate) fn take_leaf(alloc: Global, array: &Array, runs: &[Run]) -> Result<Array, AllocError>
    requires leaf { has_children (parts_of array.now) ≡ false }
    requires climb { Climb 0 runs.now (rows_in (parts_of array.now)) }
    ensures { IfOk result (λ a. parts_of a ≡ rows_taken (rows_in_runs runs.now) (parts_of array.now)) }
{
    match array {
        Array::Null(array) => taken!(Null, take_nulls, array, alloc, runs),
        Array::Boolean(array) => taken!(Boolean, take_boolean, array, alloc, runs),
        Array::Int8(array) => taken!(Int8, take_numbers, array, alloc, runs),
        Array::Int16(array) => taken!(Int16, take_numbers, array, alloc, runs),
        Array::Int32(array) => taken!(Int32, take_numbers, array, alloc, runs),
        Array::Int64(array) => taken!(Int64, take_numbers, array, alloc, runs),
        Array::Int128(array) => taken!(Int128, take_numbers, array, alloc, runs),
        Array::UInt8(array) => taken!(UInt8, take_numbers, array, alloc, runs),
        Array::UInt16(array) => taken!(UInt16, take_numbers, array, alloc, runs),
        Array::UInt32(array) => taken!(UInt32, take_numbers, array, alloc, runs),
        Array::UInt64(array) => taken!(UInt64, take_numbers, array, alloc, runs),
        Array::DaysMs(array) => taken!(DaysMs, take_numbers, array, alloc, runs),
        Array::MonthsDaysNs(array) => taken!(MonthsDaysNs, take_numbers, array, alloc, runs),
        Array::Binary(array) => taken!(Binary, take_variable, array, alloc, runs),
        Array::LargeBinary(array) => taken!(LargeBinary, take_variable, array, alloc, runs),
        Array::Utf8(array) => taken!(Utf8, take_variable, array, alloc, runs),
        Array::LargeUtf8(array) => taken!(LargeUtf8, take_variable, array, alloc, runs),
        Array::BinaryView(array) => taken!(BinaryView, take_views, array, alloc, runs),
        Array::Utf8View(array) => taken!(Utf8View, take_views, array, alloc, runs),
        Array::FixedSizeBinary(array) => taken!(FixedSizeBinary, take_fixed, array, alloc, runs),
        _ => unreachable!(),
    }
}
