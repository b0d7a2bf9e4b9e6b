//! Types that no array is of: floats and decimals of 256 bits, and types that hold them.
ghost use Rattle.arrow_spec.specs.Features.{float_faults, floats_in};
ghost use Rattle.arrow_types.specs.Child.{one_field};
ghost use Rattle.arrow_types.specs.KindOf.{kind_of, child_of, fields_of};
ghost use Rattle.arrow_types.specs.Schemas.{fields_in};
ghost use Rattle.ipc_messages.specs.Features.{IsOneOf};

use crate::types::field_at;
use arrow_spec::Feature;
use arrow_types::{ArrowDataType, ArrowSchema, Field};

/// A feature of a type that is not written, if there is one. The recursion is as deep as the type.
#[cycle(features)]
fn type_feature(dtype: &ArrowDataType) -> Option<Feature>
    ensures { IsOneOf result (float_faults (kind_of dtype.now)) }
{
    match dtype {
        ArrowDataType::Float16 | ArrowDataType::Float32 | ArrowDataType::Float64 => {
            Some(Feature::Float)
        }
        ArrowDataType::Decimal256(_, _) => Some(Feature::Decimal256),
        ArrowDataType::Dictionary(_, values, _) => type_feature(values),
        ArrowDataType::List(field) => field_feature(field),
        ArrowDataType::LargeList(field) => field_feature(field),
        ArrowDataType::FixedSizeList(field, _) => field_feature(field),
        ArrowDataType::Map(field, _) => field_feature(field),
        ArrowDataType::Struct(fields) => fields_feature(fields.as_slice()),
        ArrowDataType::Union(union) => fields_feature(union.fields.as_slice()),
        ArrowDataType::Extension(extension) => type_feature(&extension.inner),
        _ => None,
    }
}

/// The same of a field alone.
#[cycle(features)]
fn field_feature(field: &Field) -> Option<Feature>
    ensures { IsOneOf result (floats_in (one_field (child_of field.now))) }
{
    type_feature(&field.dtype)
}

/// The same of fields.
#[cycle(features)]
fn fields_feature(fields: &[Field]) -> Option<Feature>
    ensures { IsOneOf result (floats_in (fields_of fields.now)) }
{
    for field in fields {
        let found = field_feature(field);
        if found.is_some() {
            return found;
        }
    }
    None
}

/// The same of a schema.
pub(crate) fn unsent_feature(schema: &ArrowSchema) -> Option<Feature>
    ensures { IsOneOf result (floats_in (fields_in schema.now)) }
{
    for i in 0..schema.len() {
        let found = field_feature(field_at(schema, i));
        if found.is_some() {
            return found;
        }
    }
    None
}
