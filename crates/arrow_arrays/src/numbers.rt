//! What arrays of numbers answer, whatever their numbers are.
ghost use Rattle.std.specs.Prelude.{◌≡◌, ◌+◌, ◌≤◌, ◌<◌, length, None};
ghost use Rattle.arrow_spec.specs.Flat.{little};
ghost use Rattle.arrow_buffers.specs.Rows.{part};
ghost use Rattle.arrow_arrays.specs.LeafParts.{numbers, as_bytes, leaf_rows_in, leaf_cells_in, leaf_part_of, leaf_fault_in};
ghost use Rattle.arrow_types.specs.Physical.{primitive_size};

use arrow_buffers::PrimitiveArray;
use arrow_types::NativeType;

/// How many rows there are.
pub(crate) fn number_rows<T: NativeType>(array: &PrimitiveArray<T>) -> usize
    requires size { primitive_size T.PRIMITIVE ≡ T.WIDTH }
    requires above { 0 < T.WIDTH }
    ensures rows { result ≡ leaf_rows_in (numbers (as_bytes (T.written little) array.now)) }
    ensures cells { result ≡ length (leaf_cells_in (numbers (as_bytes (T.written little) array.now))) }
    ensures sound { leaf_fault_in (numbers (as_bytes (T.written little) array.now)) ≡ None }
{
    array.len()
}

/// Leaves only the part, and copies nothing.
pub(crate) fn narrow_numbers<T: NativeType>(
    array: &mut PrimitiveArray<T>,
    offset: usize,
    rows: usize,
)
    requires { offset + rows ≤ leaf_rows_in (numbers (as_bytes (T.written little) array.old)) }
    ensures parts { numbers (as_bytes (T.written little) array.new) ≡ leaf_part_of offset rows (numbers (as_bytes (T.written little) array.old)) }
    ensures cells { leaf_cells_in (numbers (as_bytes (T.written little) array.new)) ≡ part offset rows (leaf_cells_in (numbers (as_bytes (T.written little) array.old))) }
{
    array.narrow(offset, rows)
}
