//! Which layout a type's columns have (Arrow Columnar Format, "Physical Memory Layout").
ghost use Rattle.std.specs.Prelude.{◌≡◌, nat_eq};
ghost use Rattle.arrow_types.specs.KindOf.{kind_of};
ghost use Rattle.arrow_types.specs.Physical.{physical_of};
ghost use Rattle.arrow_buffers.specs.Layouts.{is_primitive, is_boolean, is_null, is_variable, is_view, binary_size, primitive_number};

use arrow_types::{ArrowDataType, PhysicalType, PrimitiveType};

fn is_same_primitive(a: PrimitiveType, b: PrimitiveType) -> bool
    ensures { result ≡ nat_eq (primitive_number a) (primitive_number b) }
{
    a == b
}

pub(crate) fn is_primitive(dtype: &ArrowDataType, primitive: PrimitiveType) -> bool
    ensures { result ≡ is_primitive primitive (physical_of (kind_of dtype.now)) }
{
    match dtype.to_physical_type() {
        PhysicalType::Primitive(found) => is_same_primitive(found, primitive),
        _ => false,
    }
}

pub(crate) fn is_boolean(dtype: &ArrowDataType) -> bool
    ensures { result ≡ is_boolean (physical_of (kind_of dtype.now)) }
{
    matches!(dtype.to_physical_type(), PhysicalType::Boolean)
}

pub(crate) fn is_null(dtype: &ArrowDataType) -> bool
    ensures { result ≡ is_null (physical_of (kind_of dtype.now)) }
{
    matches!(dtype.to_physical_type(), PhysicalType::Null)
}

/// Whether the type is of texts, or of byte strings, with offsets of 64 bits where they are large.
pub(crate) fn is_variable(dtype: &ArrowDataType, texts: bool, large: bool) -> bool
    ensures { result ≡ is_variable texts large (physical_of (kind_of dtype.now)) }
{
    match dtype.to_physical_type() {
        PhysicalType::Binary => !texts && !large,
        PhysicalType::LargeBinary => !texts && large,
        PhysicalType::Utf8 => texts && !large,
        PhysicalType::LargeUtf8 => texts && large,
        _ => false,
    }
}

/// Whether the type is of views, of texts or of byte strings.
pub(crate) fn is_view(dtype: &ArrowDataType, texts: bool) -> bool
    ensures { result ≡ is_view texts (physical_of (kind_of dtype.now)) }
{
    match dtype.to_physical_type() {
        PhysicalType::BinaryView => !texts,
        PhysicalType::Utf8View => texts,
        _ => false,
    }
}

/// The size of byte strings of one size; 0 for other types.
pub(crate) fn binary_size(dtype: &ArrowDataType) -> usize
    ensures { result ≡ binary_size (kind_of dtype.now) }
{
    match dtype {
        ArrowDataType::FixedSizeBinary(size) => *size,
        ArrowDataType::Extension(extension) => binary_size(&extension.inner),
        _ => 0,
    }
}
