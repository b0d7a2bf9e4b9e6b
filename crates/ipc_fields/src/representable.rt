//! Whether the tables of a schema can say types (Schema.fbs, Type).
ghost use Rattle.std.specs.Prelude.{◌≡◌};
ghost use Rattle.arrow_spec.specs.Regular.{is_no_dictionary, is_size};
ghost use Rattle.arrow_types.specs.Child.{one_field};
ghost use Rattle.arrow_types.specs.KindOf.{kind_of, child_of, fields_of};
ghost use Rattle.ipc_fields.specs.Representable.{all_representable, are_representable_values, is_representable};

use arrow_types::{ArrowDataType, Field};

fn is_no_dictionary(dtype: &ArrowDataType) -> bool
    ensures { result ≡ is_no_dictionary (kind_of dtype.now) }
{
    !matches!(dtype, ArrowDataType::Dictionary(_, _, _))
}

/// A size, a precision or a scale of at most 2^31 - 1.
fn is_size(size: usize) -> bool
    ensures { result ≡ is_size size }
{
    size <= 0x7fff_ffff
}

/// Whether the tables of a schema can say a type, with all types below it: its sizes are small, and no dictionary stands directly in a
/// dictionary or in an extension of a type.
#[cycle(representable)]
pub fn is_representable(dtype: &ArrowDataType) -> bool
    ensures { result ≡ is_representable (kind_of dtype.now) }
{
    match dtype {
        ArrowDataType::Decimal(precision, scale) => is_size(*precision) && is_size(*scale),
        ArrowDataType::Decimal256(precision, scale) => is_size(*precision) && is_size(*scale),
        ArrowDataType::FixedSizeBinary(size) => is_size(*size),
        ArrowDataType::List(child) => is_field_representable(child),
        ArrowDataType::LargeList(child) => is_field_representable(child),
        ArrowDataType::FixedSizeList(child, size) => {
            is_size(*size) && is_field_representable(child)
        }
        ArrowDataType::Map(child, _) => is_field_representable(child),
        ArrowDataType::Struct(fields) => all_representable(fields.as_slice()),
        ArrowDataType::Union(union) => all_representable(union.fields.as_slice()),
        ArrowDataType::Dictionary(_, values, _) => {
            is_no_dictionary(values) && is_representable(values)
        }
        ArrowDataType::Extension(extension) => {
            is_no_dictionary(&extension.inner) && is_representable(&extension.inner)
        }
        _ => true,
    }
}

/// Whether the tables of a schema can say a type as that of a dictionary's values.
pub fn are_representable_values(dtype: &ArrowDataType) -> bool
    ensures { result ≡ are_representable_values (kind_of dtype.now) }
{
    is_no_dictionary(dtype) && is_representable(dtype)
}

#[cycle(representable)]
fn is_field_representable(field: &Field) -> bool
    ensures { result ≡ all_representable (one_field (child_of field.now)) }
{
    is_representable(&field.dtype)
}

/// Whether the tables of a schema can say the types of fields.
#[cycle(representable)]
pub fn all_representable(fields: &[Field]) -> bool
    ensures { result ≡ all_representable (fields_of fields.now) }
{
    for field in fields {
        if !is_field_representable(field) {
            return false;
        }
    }
    true
}
