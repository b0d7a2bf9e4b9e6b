//! Which types arrays are read of (Arrow Columnar Format, "Physical Memory Layout").
ghost use Rattle.std.specs.Prelude.{◌≡◌, nat_lt};
ghost use Rattle.arrow_types.specs.KindOf.{kind_of, fields_of};
ghost use Rattle.arrow_types.specs.Physical.{primitive_size};
ghost use Rattle.arrow_buffers.specs.Layouts.{binary_size};
ghost use Rattle.arrow_arrays.specs.LeafKinds.{is_leaf_kind, is_leaf_layout};
ghost use Rattle.arrow_arrays.specs.Carried.{is_carried, are_carried};

use crate::map::is_entry;
use arrow_types::union_ids::has_right_ids;
use arrow_types::{ArrowDataType, Field, PhysicalType, PrimitiveType};

/// Whether numbers are read: floats and decimals of 256 bits are not.
fn are_read(primitive: PrimitiveType) -> bool
    ensures { result ≡ nat_lt 0 (primitive_size primitive) }
{
    match primitive {
        PrimitiveType::Float16
        | PrimitiveType::Float32
        | PrimitiveType::Float64
        | PrimitiveType::Int256 => false,
        _ => true,
    }
}

/// Whether a layout is one without children that is read; byte strings of one size have this size.
fn is_leaf_layout(layout: PhysicalType, size: usize) -> bool
    ensures { result ≡ is_leaf_layout layout size }
{
    match layout {
        PhysicalType::FixedSizeBinary => size > 0,
        PhysicalType::Primitive(primitive) => are_read(primitive),
        PhysicalType::Null
        | PhysicalType::Boolean
        | PhysicalType::Binary
        | PhysicalType::LargeBinary
        | PhysicalType::Utf8
        | PhysicalType::LargeUtf8
        | PhysicalType::BinaryView
        | PhysicalType::Utf8View => true,
        _ => false,
    }
}

/// The size of byte strings of one size; 0 for other types.
fn binary_size(dtype: &ArrowDataType) -> usize
    ensures { result ≡ binary_size (kind_of dtype.now) }
{
    match dtype {
        ArrowDataType::FixedSizeBinary(size) => *size,
        ArrowDataType::Extension(extension) => binary_size(&extension.inner),
        _ => 0,
    }
}

/// The same of a type.
fn is_leaf(dtype: &ArrowDataType) -> bool
    ensures { result ≡ is_leaf_kind (kind_of dtype.now) }
{
    is_leaf_layout(dtype.to_physical_type(), binary_size(dtype))
}

/// Whether arrays of a type are read: in it stand no floats and no decimals of 256 bits, no size is 0, maps are of
/// structs of two, and unions have right ids. The call goes as deep as the type's tree.
#[cycle(carried)]
pub fn is_carried(dtype: &ArrowDataType) -> bool
    ensures { result ≡ is_carried (kind_of dtype.now) }
{
    match dtype {
        ArrowDataType::List(field) => is_carried(&field.dtype),
        ArrowDataType::LargeList(field) => is_carried(&field.dtype),
        ArrowDataType::Map(field, _) => is_entry(&field.dtype) && is_carried(&field.dtype),
        ArrowDataType::FixedSizeList(field, size) => *size > 0 && is_carried(&field.dtype),
        ArrowDataType::Struct(fields) => are_carried(fields.as_slice()),
        ArrowDataType::Union(union) => {
            has_right_ids(&union.ids, union.fields.len()) && are_carried(union.fields.as_slice())
        }
        ArrowDataType::Dictionary(_, values, _) => is_carried(values),
        ArrowDataType::Extension(extension) => is_carried(&extension.inner),
        _ => is_leaf(dtype),
    }
}

/// The same of each field.
#[cycle(carried)]
fn are_carried(fields: &[Field]) -> bool
    ensures { result ≡ are_carried (fields_of fields.now) }
{
    for field in fields {
        if !is_carried(&field.dtype) {
            return false;
        }
    }
    true
}
