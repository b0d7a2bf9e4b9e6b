//! Arrays of parts that were read.
ghost use Rattle.std.specs.Prelude.{◌≡◌, ◌*◌, ◌<◌, length, true, IfOk, IfErr};
ghost use Rattle.arrow_spec.specs.declared.error.IpcError.TheVariants.{Memory};
ghost use Rattle.arrow_types.specs.KindOf.{kind_of};
ghost use Rattle.arrow_types.specs.Physical.{physical_of};
ghost use Rattle.arrow_buffers.specs.Rows.{has_rows};
ghost use Rattle.arrow_buffers.specs.Layouts.{is_null, is_boolean, is_primitive, binary_size};

use arrow_buffers::{
    Bitmap, BooleanArray, Buffer, FixedSizeBinaryArray, NullArray, PrimitiveArray,
};
use arrow_spec::IpcError;
use arrow_types::{ArrowDataType, NativeType};
use std::alloc::Global;

pub(crate) fn make_null(
    alloc: Global,
    dtype: &ArrowDataType,
    rows: usize,
) -> Result<NullArray, IpcError>
    requires kind { is_null (physical_of (kind_of dtype.now)) ≡ true }
    ensures parts { IfOk result (λ a. a ≡ record { kind = kind_of dtype.now; rows = rows }) }
    ensures memory { IfErr result (λ e. e ≡ Memory) }
{
    let dtype = dtype.try_clone(alloc)?;
    match NullArray::try_new(dtype, rows) {
        Ok(array) => Ok(array),
        Err(_) => unreachable!(),
    }
}

pub(crate) fn make_boolean(
    alloc: Global,
    dtype: &ArrowDataType,
    values: Bitmap,
    validity: Option<Bitmap>,
) -> Result<BooleanArray, IpcError>
    requires kind { is_boolean (physical_of (kind_of dtype.now)) ≡ true }
    requires rows { has_rows validity (length values) ≡ true }
    ensures parts { IfOk result (λ a. a ≡ record { kind = kind_of dtype.now; values = values; validity = validity }) }
    ensures memory { IfErr result (λ e. e ≡ Memory) }
{
    let dtype = dtype.try_clone(alloc)?;
    match BooleanArray::try_new(dtype, values, validity) {
        Ok(array) => Ok(array),
        Err(_) => unreachable!(),
    }
}

pub(crate) fn make_primitive<T: NativeType>(
    alloc: Global,
    dtype: &ArrowDataType,
    values: Buffer<T>,
    validity: Option<Bitmap>,
) -> Result<PrimitiveArray<T>, IpcError>
    requires kind { is_primitive T.PRIMITIVE (physical_of (kind_of dtype.now)) ≡ true }
    requires rows { has_rows validity (length values) ≡ true }
    ensures parts { IfOk result (λ a. a ≡ record { kind = kind_of dtype.now; values = values; validity = validity }) }
    ensures memory { IfErr result (λ e. e ≡ Memory) }
{
    let dtype = dtype.try_clone(alloc)?;
    match PrimitiveArray::try_new(dtype, values, validity) {
        Ok(array) => Ok(array),
        Err(_) => unreachable!(),
    }
}

pub(crate) fn make_fixed(
    alloc: Global,
    dtype: &ArrowDataType,
    rows: usize,
    values: Buffer<u8>,
    validity: Option<Bitmap>,
) -> Result<FixedSizeBinaryArray, IpcError>
    requires kind { 0 < binary_size (kind_of dtype.now) }
    requires count { length values ≡ binary_size (kind_of dtype.now) * rows }
    requires rows { has_rows validity rows ≡ true }
    ensures parts { IfOk result (λ a. a ≡ record { kind = kind_of dtype.now; values = values; validity = validity }) }
    ensures memory { IfErr result (λ e. e ≡ Memory) }
{
    let _ = rows;
    let dtype = dtype.try_clone(alloc)?;
    match FixedSizeBinaryArray::try_new(dtype, values, validity) {
        Ok(array) => Ok(array),
        Err(_) => unreachable!(),
    }
}

/// The size of byte strings of one size; 0 for other types.
pub(crate) fn binary_size(dtype: &ArrowDataType) -> usize
    ensures { result ≡ binary_size (kind_of dtype.now) }
{
    match dtype {
        ArrowDataType::FixedSizeBinary(size) => *size,
        ArrowDataType::Extension(extension) => binary_size(&extension.inner),
        _ => 0,
    }
}
