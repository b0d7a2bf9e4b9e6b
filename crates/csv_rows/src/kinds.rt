//! Columns whose cells have no text.
ghost use Rattle.std.specs.Prelude.{◌≡◌, ◌<◌, length, map, slice_get, Some};
ghost use Rattle.arrow_types.specs.KindOf.{child_of, kind_of};
ghost use Rattle.arrow_types.specs.Schemas.{fields_in};
ghost use Rattle.csv_texts.specs.Texts.{are_nested, is_nested};

use arrow_types::{ArrowDataType, ArrowSchema, Field};

/// Whether a type's cells have no text; of a dictionary its values' type counts.
fn is_nested(dtype: &ArrowDataType) -> bool
    ensures { result ≡ is_nested (kind_of dtype.now) }
{
    match dtype {
        ArrowDataType::List(_)
        | ArrowDataType::LargeList(_)
        | ArrowDataType::FixedSizeList(_, _)
        | ArrowDataType::Struct(_)
        | ArrowDataType::Map(_, _)
        | ArrowDataType::Union(_) => true,
        ArrowDataType::Dictionary(_, values, _) => is_nested(values),
        ArrowDataType::Extension(extension) => is_nested(&extension.inner),
        _ => false,
    }
}

/// The field of a number.
pub(crate) fn field_at(schema: &ArrowSchema, index: usize) -> &Field
    requires { index < length schema.now }
    ensures { slice_get (map (λ p. p.1) schema.now) index ≡ Some (child_of result.now) }
{
    match schema.get_at_index(index) {
        Some((_, field)) => field,
        None => unreachable!(),
    }
}

/// Whether a field of a schema is of such a type.
pub fn are_nested(schema: &ArrowSchema) -> bool
    ensures { result ≡ are_nested (fields_in schema.now) }
{
    for i in 0..schema.len() {
        if is_nested(&field_at(schema, i).dtype) {
            return true;
        }
    }
    false
}
