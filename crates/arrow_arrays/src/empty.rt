//! Arrays of no rows and without children.
ghost use Rattle.std.specs.Prelude.{◌≡◌, ◌∷◌, ◌<◌, [], map, pos, None, IfOk, true, false};
ghost use Rattle.arrow_types.specs.KindOf.{kind_of};
ghost use Rattle.arrow_types.specs.Physical.{primitive_size, physical_of};
ghost use Rattle.arrow_buffers.specs.Layouts.{is_null, is_boolean, is_primitive, is_variable, is_view, binary_size};
ghost use Rattle.arrow_arrays.specs.EmptyParts.{empty_leaf};
ghost use Rattle.arrow_arrays.specs.EmptyTops.{empty_variable};
ghost use Rattle.arrow_arrays.specs.LeafParts.{nulls, bits, numbers, fixed};
ghost use Rattle.arrow_arrays.specs.Parts.{leaf};
ghost use Rattle.arrow_arrays.specs.PartsOf.{parts_of};
ghost use Rattle.arrow_arrays.specs.LeafKinds.{is_leaf_layout};

use crate::array::Array;
use arrow_buffers::{
    BinaryViewArrayGeneric, Bitmap, BooleanArray, Buffer, FixedSizeBinaryArray, NullArray,
    PrimitiveArray, VariableArray, ViewType,
};
use arrow_types::{ArrowDataType, NativeType, Offset, PhysicalType, PrimitiveType};
use std::alloc::{AllocError, Global};

fn no_nulls(dtype: ArrowDataType) -> Array
    requires { is_null (physical_of (kind_of dtype)) ≡ true }
    ensures { parts_of result ≡ leaf (nulls (record { kind = kind_of dtype; rows = 0 })) }
{
    match NullArray::try_new(dtype, 0) {
        Ok(array) => Array::Null(array),
        Err(_) => unreachable!(),
    }
}

fn no_bits(alloc: Global, dtype: ArrowDataType) -> Result<Array, AllocError>
    requires { is_boolean (physical_of (kind_of dtype)) ≡ true }
    ensures { IfOk result (λ a. parts_of a ≡ leaf (bits (record { kind = kind_of dtype; values = []; validity = None }))) }
{
    match Bitmap::from_vec(Vec::new(alloc), 0) {
        Ok(values) => match BooleanArray::try_new(dtype, values, None) {
            Ok(array) => Ok(Array::Boolean(array)),
            Err(_) => unreachable!(),
        },
        Err(error) => {
            drop(dtype);
            Err(error)
        }
    }
}

fn no_fixed(alloc: Global, dtype: ArrowDataType) -> Result<Array, AllocError>
    requires { 0 < binary_size (kind_of dtype) }
    ensures { IfOk result (λ a. parts_of a ≡ leaf (fixed (record { kind = kind_of dtype; values = []; validity = None }))) }
{
    match Buffer::from_vec(Vec::new(alloc)) {
        Ok(values) => match FixedSizeBinaryArray::try_new(dtype, values, None) {
            Ok(array) => Ok(Array::FixedSizeBinary(array)),
            Err(_) => unreachable!(),
        },
        Err(error) => {
            drop(dtype);
            Err(error)
        }
    }
}

pub(crate) fn no_numbers<T: NativeType>(
    alloc: Global,
    dtype: ArrowDataType,
) -> Result<PrimitiveArray<T>, AllocError>
    requires { is_primitive T.PRIMITIVE (physical_of (kind_of dtype)) ≡ true }
    ensures { IfOk result (λ a. a ≡ record { kind = kind_of dtype; values = []; validity = None }) }
{
    match Buffer::from_vec(Vec::new(alloc)) {
        Ok(values) => match PrimitiveArray::try_new(dtype, values, None) {
            Ok(array) => Ok(array),
            Err(_) => unreachable!(),
        },
        Err(error) => {
            drop(dtype);
            Err(error)
        }
    }
}

/// An array of a type of numbers that has no rows.
fn empty_numbers(
    alloc: Global,
    dtype: ArrowDataType,
    number: PrimitiveType,
) -> Result<Array, AllocError>
    requires layout { is_primitive number (physical_of (kind_of dtype)) ≡ true }
    requires size { 0 < primitive_size number }
    ensures { IfOk result (λ a. parts_of a ≡ leaf (numbers (record { kind = kind_of dtype; values = []; validity = None }))) }
{
    match number {
        PrimitiveType::Int8 => Ok(Array::Int8(no_numbers(alloc, dtype)?)),
        PrimitiveType::Int16 => Ok(Array::Int16(no_numbers(alloc, dtype)?)),
        PrimitiveType::Int32 => Ok(Array::Int32(no_numbers(alloc, dtype)?)),
        PrimitiveType::Int64 => Ok(Array::Int64(no_numbers(alloc, dtype)?)),
        PrimitiveType::Int128 => Ok(Array::Int128(no_numbers(alloc, dtype)?)),
        PrimitiveType::UInt8 => Ok(Array::UInt8(no_numbers(alloc, dtype)?)),
        PrimitiveType::UInt16 => Ok(Array::UInt16(no_numbers(alloc, dtype)?)),
        PrimitiveType::UInt32 => Ok(Array::UInt32(no_numbers(alloc, dtype)?)),
        PrimitiveType::UInt64 => Ok(Array::UInt64(no_numbers(alloc, dtype)?)),
        PrimitiveType::DaysMs => Ok(Array::DaysMs(no_numbers(alloc, dtype)?)),
        PrimitiveType::MonthDayNano => Ok(Array::MonthsDaysNs(no_numbers(alloc, dtype)?)),
        PrimitiveType::Int256
        | PrimitiveType::Float16
        | PrimitiveType::Float32
        | PrimitiveType::Float64 => unreachable!(),
    }
}

/// The offset from which a first row would begin.
pub(crate) fn first_offset(alloc: Global) -> Result<Buffer<i32>, AllocError>
    ensures { IfOk result (λ b. b ≡ pos 0 ∷ []) }
{
    Buffer::from_vec(vec![in alloc; 0]?)
}

/// The same in 64 bits.
pub(crate) fn first_large_offset(alloc: Global) -> Result<Buffer<i64>, AllocError>
    ensures { IfOk result (λ b. b ≡ pos 0 ∷ []) }
{
    Buffer::from_vec(vec![in alloc; 0]?)
}

/// That offset, and no bytes.
fn first_place(alloc: Global) -> Result<(Buffer<i32>, Buffer<u8>), AllocError>
    ensures offsets { IfOk result (λ r. r.0 ≡ pos 0 ∷ []) }
    ensures values { IfOk result (λ r. r.1 ≡ []) }
{
    let offsets = first_offset(alloc)?;
    Ok((offsets, Buffer::from_vec(Vec::new(alloc))?))
}

/// The same in 64 bits.
fn first_large_place(alloc: Global) -> Result<(Buffer<i64>, Buffer<u8>), AllocError>
    ensures offsets { IfOk result (λ r. r.0 ≡ pos 0 ∷ []) }
    ensures values { IfOk result (λ r. r.1 ≡ []) }
{
    let offsets = first_large_offset(alloc)?;
    Ok((offsets, Buffer::from_vec(Vec::new(alloc))?))
}

fn no_variable<O: Offset, V: ViewType>(
    dtype: ArrowDataType,
    offsets: Buffer<O>,
    values: Buffer<u8>,
) -> VariableArray<O, V>
    requires layout { is_variable V.IS_TEXT O.IS_LARGE (physical_of (kind_of dtype)) ≡ true }
    requires start { map O.number offsets ≡ pos 0 ∷ [] }
    requires values { values ≡ [] }
    ensures { result ≡ record { kind = kind_of dtype; offsets = pos 0 ∷ []; values = []; validity = None } }
{
    match VariableArray::try_new(dtype, offsets, values, None) {
        Ok(array) => array,
        Err(_) => unreachable!(),
    }
}

fn no_small(alloc: Global, dtype: ArrowDataType, is_text: bool) -> Result<Array, AllocError>
    requires { is_variable is_text false (physical_of (kind_of dtype)) ≡ true }
    ensures { IfOk result (λ a. parts_of a ≡ leaf (empty_variable is_text (kind_of dtype))) }
{
    match first_place(alloc) {
        Ok((offsets, values)) => {
            if is_text {
                Ok(Array::Utf8(no_variable(dtype, offsets, values)))
            } else {
                Ok(Array::Binary(no_variable(dtype, offsets, values)))
            }
        }
        Err(error) => {
            drop(dtype);
            Err(error)
        }
    }
}

fn no_large(alloc: Global, dtype: ArrowDataType, is_text: bool) -> Result<Array, AllocError>
    requires { is_variable is_text true (physical_of (kind_of dtype)) ≡ true }
    ensures { IfOk result (λ a. parts_of a ≡ leaf (empty_variable is_text (kind_of dtype))) }
{
    match first_large_place(alloc) {
        Ok((offsets, values)) => {
            if is_text {
                Ok(Array::LargeUtf8(no_variable(dtype, offsets, values)))
            } else {
                Ok(Array::LargeBinary(no_variable(dtype, offsets, values)))
            }
        }
        Err(error) => {
            drop(dtype);
            Err(error)
        }
    }
}

fn no_views<V: ViewType>(
    alloc: Global,
    dtype: ArrowDataType,
) -> Result<BinaryViewArrayGeneric<V>, AllocError>
    requires { is_view V.IS_TEXT (physical_of (kind_of dtype)) ≡ true }
    ensures { IfOk result (λ a. a ≡ record { kind = kind_of dtype; views = []; buffers = []; validity = None }) }
{
    match Buffer::from_vec(Vec::new(alloc)) {
        Ok(views) => match BinaryViewArrayGeneric::try_new(dtype, views, Vec::new(alloc), None) {
            Ok(array) => Ok(array),
            Err(_) => unreachable!(),
        },
        Err(error) => {
            drop(dtype);
            Err(error)
        }
    }
}

/// An array without children of the type that has no rows.
pub(crate) fn empty_leaf(
    alloc: Global,
    dtype: ArrowDataType,
    layout: PhysicalType,
) -> Result<Array, AllocError>
    requires layout { layout ≡ physical_of (kind_of dtype) }
    requires leaf { is_leaf_layout layout (binary_size (kind_of dtype)) ≡ true }
    ensures { IfOk result (λ a. parts_of a ≡ leaf (empty_leaf layout (kind_of dtype))) }
{
    match layout {
        PhysicalType::Null => Ok(no_nulls(dtype)),
        PhysicalType::Boolean => no_bits(alloc, dtype),
        PhysicalType::Primitive(number) => empty_numbers(alloc, dtype, number),
        PhysicalType::Binary => no_small(alloc, dtype, false),
        PhysicalType::LargeBinary => no_large(alloc, dtype, false),
        PhysicalType::FixedSizeBinary => no_fixed(alloc, dtype),
        PhysicalType::Utf8 => no_small(alloc, dtype, true),
        PhysicalType::LargeUtf8 => no_large(alloc, dtype, true),
        PhysicalType::BinaryView => Ok(Array::BinaryView(no_views(alloc, dtype)?)),
        PhysicalType::Utf8View => Ok(Array::Utf8View(no_views(alloc, dtype)?)),
        PhysicalType::List
        | PhysicalType::LargeList
        | PhysicalType::FixedSizeList
        | PhysicalType::Struct
        | PhysicalType::Union
        | PhysicalType::Map
        | PhysicalType::Dictionary(_) => unreachable!(),
    }
}
