//! Arrays of rows that are given one by one.
ghost use Rattle.std.specs.Prelude.{◌≡◌, ◌^◌, ◌<◌, ◌≤◌, length, Some, None, IfOk, IfErr, true};
ghost use Rattle.arrow_spec.specs.Kinds.{boolean};
ghost use Rattle.arrow_types.specs.KindOf.{kind_of};
ghost use Rattle.arrow_types.specs.Physical.{physical_of};
ghost use Rattle.arrow_buffers.specs.Layouts.{is_primitive, number_kind};
ghost use Rattle.arrow_buffers.specs.declared.error.ArrayError.TheVariants.{Memory};
ghost use Rattle.arrow_spec.specs.Framing.{packed};
ghost use Rattle.arrow_buffers.specs.Bits.{with_bit};

use crate::{ArrayError, Bitmap, BooleanArray, Buffer, PrimitiveArray};
use arrow_types::{ArrowDataType, IntervalUnit, NativeType, PrimitiveType};
use std::alloc::{AllocError, Global};

/// A byte with one bit more, behind those below its weight.
fn with_bit(byte: u8, place: u8, bit: bool) -> u8
    requires few { place ≤ 7 }
    requires low { byte < 2 ^ place }
    ensures { result ≡ with_bit byte place bit }
{
    if bit { byte + (1 << place) } else { byte }
}

/// Eight bits a byte, the lowest first, and zero behind the last.
fn packed_bits(alloc: Global, bits: &[bool]) -> Result<Vec<u8>, AllocError>
    ensures { IfOk result (λ bytes. bytes.items ≡ packed bits.now) }
{
    let mut bytes = Vec::new(alloc);
    let mut byte = 0u8;
    let mut place = 0u8;
    for i in 0..bits.len() {
        byte = with_bit(byte, place, bits[i]);
        if place == 7 {
            bytes.push(byte)?;
            byte = 0;
            place = 0;
        } else {
            place += 1;
        }
    }
    if place > 0 {
        bytes.push(byte)?;
    }
    Ok(bytes)
}

impl Bitmap {
    /// These bits.
    #[tactic(auto, using(crate::proofs::Packer::packed_bits_back))]
    pub fn from_slice(alloc: Global, bits: &[bool]) -> Result<Bitmap, AllocError>
        ensures { IfOk result (λ b. b ≡ bits.now) }
    {
        let bytes = packed_bits(alloc, bits)?;
        Bitmap::from_vec(bytes, bits.len())
    }
}

/// The type of numbers that mean nothing else.
fn number_type(primitive: PrimitiveType) -> ArrowDataType
    ensures kind { kind_of result ≡ number_kind primitive }
    ensures suits { is_primitive primitive (physical_of (kind_of result)) ≡ true }
{
    match primitive {
        PrimitiveType::Int8 => ArrowDataType::Int8,
        PrimitiveType::Int16 => ArrowDataType::Int16,
        PrimitiveType::Int32 => ArrowDataType::Int32,
        PrimitiveType::Int64 => ArrowDataType::Int64,
        PrimitiveType::Int128 => ArrowDataType::Int128,
        PrimitiveType::Int256 => ArrowDataType::Decimal256(76, 0),
        PrimitiveType::UInt8 => ArrowDataType::UInt8,
        PrimitiveType::UInt16 => ArrowDataType::UInt16,
        PrimitiveType::UInt32 => ArrowDataType::UInt32,
        PrimitiveType::UInt64 => ArrowDataType::UInt64,
        PrimitiveType::Float16 => ArrowDataType::Float16,
        PrimitiveType::Float32 => ArrowDataType::Float32,
        PrimitiveType::Float64 => ArrowDataType::Float64,
        PrimitiveType::DaysMs => ArrowDataType::Interval(IntervalUnit::DayTime),
        PrimitiveType::MonthDayNano => ArrowDataType::Interval(IntervalUnit::MonthDayNano),
    }
}

impl<T: NativeType> PrimitiveArray<T> {
    /// The array of these numbers, none of them null.
    pub fn from_slice(alloc: Global, numbers: &[T]) -> Result<PrimitiveArray<T>, ArrayError>
        ensures ok { IfOk result (λ a. a ≡ record { kind = number_kind T.PRIMITIVE; values = numbers.now; validity = None }) }
        ensures err { IfErr result (λ e. e ≡ Memory) }
    {
        let numbers: Vec<T> = numbers.iter().copied().collect(alloc)?;
        let values = Buffer::from_vec(numbers)?;
        PrimitiveArray::try_new(number_type(T::PRIMITIVE), values, None)
    }
}

impl BooleanArray {
    /// The array of these bits, none of them null.
    pub fn from_slice(alloc: Global, bits: &[bool]) -> Result<BooleanArray, ArrayError>
        ensures ok { IfOk result (λ a. a ≡ record { kind = boolean; values = bits.now; validity = None }) }
        ensures err { IfErr result (λ e. e ≡ Memory) }
    {
        let values = Bitmap::from_slice(alloc, bits)?;
        BooleanArray::try_new(ArrowDataType::Boolean, values, None)
    }
}
