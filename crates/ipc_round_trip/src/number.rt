//! The number that is read back.
ghost use Rattle.std.specs.Prelude.{◌≡◌, ℤ, Some, true, slice_get};
ghost use Rattle.arrow_spec.specs.Cells.{number};
ghost use Rattle.arrow_spec.specs.Kinds.{integer};
ghost use Rattle.arrow_spec.specs.declared.types.IntegerType.TheVariants.{Int64};
ghost use Rattle.arrow_types.specs.Physical.{physical_of};
ghost use Rattle.arrow_buffers.specs.Layouts.{is_primitive};
ghost use Rattle.arrow_buffers.specs.Leaf.{Leaf};
ghost use Rattle.arrow_arrays.specs.Parts.{cells_in, kind_in};
ghost use Rattle.arrow_arrays.specs.PartsOf.{parts_of};
ghost use Rattle.arrow_arrays.specs.declared.array.Array.TheVariants.{Int64 as Int64s};

use arrow_arrays::Array;
use arrow_buffers::PrimitiveArray;
use arrow_types::NativeType;

/// Reads how many rows there are, by which the layout is known.
fn know_layout<T: NativeType>(array: &PrimitiveArray<T>)
    ensures { is_primitive T.PRIMITIVE (physical_of array.now.kind) ≡ true }
{
    let _rows = array.len();
}

/// Reads how many rows there are, by which an array of integers of 64 bits is known.
fn know_numbers(array: &Array)
    ensures { kind_in (parts_of array.now) ≡ integer Int64 → (f : Leaf ℤ) × (array.now ≡ Int64s f) }
{
    let _rows = array.len();
    match array {
        Array::Int8(numbers) => know_layout(numbers),
        Array::Int16(numbers) => know_layout(numbers),
        Array::Int32(numbers) => know_layout(numbers),
        Array::Int64(numbers) => know_layout(numbers),
        Array::Int128(numbers) => know_layout(numbers),
        Array::UInt8(numbers) => know_layout(numbers),
        Array::UInt16(numbers) => know_layout(numbers),
        Array::UInt32(numbers) => know_layout(numbers),
        Array::UInt64(numbers) => know_layout(numbers),
        Array::DaysMs(numbers) => know_layout(numbers),
        Array::MonthsDaysNs(numbers) => know_layout(numbers),
        _ => (),
    }
}

/// The number in a row of integers of 64 bits.
fn number_at(array: &PrimitiveArray<i64>, row: usize) -> i64
    requires kind { array.now.kind ≡ integer Int64 }
    requires there { (z : ℤ) × (slice_get (cells_in (parts_of (Int64s array.now))) row ≡ Some (number z)) }
    ensures { slice_get (cells_in (parts_of (Int64s array.now))) row ≡ Some (number result) }
{
    let _validity = array.validity();
    match array.get(row) {
        Some(number) => number,
        None => unreachable!(),
    }
}

/// The number in a row of an array of integers of 64 bits.
pub(crate) fn number_in(array: &Array, row: usize) -> i64
    requires kind { kind_in (parts_of array.now) ≡ integer Int64 }
    requires there { (z : ℤ) × (slice_get (cells_in (parts_of array.now)) row ≡ Some (number z)) }
    ensures { slice_get (cells_in (parts_of array.now)) row ≡ Some (number result) }
{
    know_numbers(array);
    match array {
        Array::Int64(numbers) => number_at(numbers, row),
        _ => unreachable!(),
    }
}
