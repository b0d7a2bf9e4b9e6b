//! The types of a batch's columns beside those of a stream's fields.
ghost use Rattle.std.specs.Prelude.{◌≡◌, ◌<◌, Some, length, map, slice_get};
ghost use Rattle.arrow_spec.specs.Kinds.{have_same_kinds, is_same_kind};
ghost use Rattle.arrow_types.specs.KindOf.{child_of};
ghost use Rattle.arrow_types.specs.Schemas.{fields_in};
ghost use Rattle.arrow_arrays.specs.Parts.{kind_in};
ghost use Rattle.arrow_arrays.specs.PartsOf.{forest_of, parts_of};
ghost use Rattle.arrow_arrays.specs.Columns.{columns_of};

use arrow_arrays::Array;
use arrow_types::{ArrowSchema, Field};
use ipc_fields::is_same_kind_of_values;

/// The field at a place.
pub(crate) fn field_at(schema: &ArrowSchema, index: usize) -> &Field
    requires { index < length schema.now }
    ensures { slice_get (map (λ p. p.1) schema.now) index ≡ Some (child_of result.now) }
{
    match schema.get_at_index(index) {
        Some((_, field)) => field,
        None => unreachable!(),
    }
}

/// Whether an array is of a field's type, names, nullability and metadata aside.
fn is_of_field(field: &Field, array: &Array) -> bool
    ensures { result ≡ is_same_kind (child_of field.now).kind (kind_in (parts_of array.now)) }
{
    is_same_kind_of_values(&field.dtype, array.dtype())
}

/// Whether there is an array for each field, of the field's type, names, nullability and metadata aside.
pub(crate) fn are_of_fields(schema: &ArrowSchema, arrays: &[Array]) -> bool
    ensures { result ≡ have_same_kinds (fields_in schema.now) (columns_of (forest_of arrays.now)) }
{
    if schema.len() != arrays.len() {
        return false;
    }
    for i in 0..arrays.len() {
        if !is_of_field(field_at(schema, i), &arrays[i]) {
            return false;
        }
    }
    true
}
