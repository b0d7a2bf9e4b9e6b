//! How a type's columns are laid out (Arrow Columnar Format, "Physical Memory Layout").
ghost use Rattle.std.specs.Prelude.{◌≡◌};
ghost use Rattle.arrow_types.specs.KindOf.{kind_of};
ghost use Rattle.arrow_types.specs.Physical.{physical_of, primitive_of_interval, under_extensions};

use crate::ArrowDataType;
use arrow_spec::{IntegerType, IntervalUnit};

/// The numbers of a column of fixed width.
#[derive(Clone, Copy, Debug, PartialEq, Eq)]
pub enum PrimitiveType {
    /// Signed integers of 1 byte.
    Int8,
    /// Signed integers of 2 bytes.
    Int16,
    /// Signed integers of 4 bytes.
    Int32,
    /// Signed integers of 8 bytes.
    Int64,
    /// Signed integers of 16 bytes.
    Int128,
    /// Signed integers of 32 bytes, of which there is no array.
    Int256,
    /// Unsigned integers of 1 byte.
    UInt8,
    /// Unsigned integers of 2 bytes.
    UInt16,
    /// Unsigned integers of 4 bytes.
    UInt32,
    /// Unsigned integers of 8 bytes.
    UInt64,
    /// Floats of 2 bytes, of which there is no array.
    Float16,
    /// Floats of 4 bytes, of which there is no array.
    Float32,
    /// Floats of 8 bytes, of which there is no array.
    Float64,
    /// Days and milliseconds, of 4 bytes each.
    DaysMs,
    /// Months and days of 4 bytes each, and nanoseconds of 8.
    MonthDayNano,
}

/// The layout of a column.
#[derive(Clone, Copy, Debug, PartialEq, Eq)]
pub enum PhysicalType {
    /// No memory.
    Null,
    /// A bit for each row.
    Boolean,
    /// A number of fixed width for each row.
    Primitive(PrimitiveType),
    /// Bytes between offsets of 32 bits.
    Binary,
    /// Bytes between offsets of 64 bits.
    LargeBinary,
    /// Bytes, as many for each row.
    FixedSizeBinary,
    /// UTF-8 bytes between offsets of 32 bits.
    Utf8,
    /// UTF-8 bytes between offsets of 64 bits.
    LargeUtf8,
    /// Views of 16 bytes, and bytes that they lead to.
    BinaryView,
    /// Views of 16 bytes, and UTF-8 bytes that they lead to.
    Utf8View,
    /// A child between offsets of 32 bits.
    List,
    /// A child between offsets of 64 bits.
    LargeList,
    /// A child, as many rows of it for each row.
    FixedSizeList,
    /// Children of as many rows.
    Struct,
    /// Children, the type of each row, and in a dense union its offset.
    Union,
    /// A child of keys and values between offsets of 32 bits.
    Map,
    /// Keys of this type into values that are sent apart.
    Dictionary(IntegerType),
}

impl From<IntegerType> for PrimitiveType {
    ghost use Rattle.std.specs.Prelude.{◌≡◌};
    ghost use Rattle.arrow_types.specs.Physical.{primitive_of_integer};

    ghost from_gives = { λ i p. p ≡ primitive_of_integer i };

    fn from(integer: IntegerType) -> PrimitiveType {
        match integer {
            IntegerType::Int8 => PrimitiveType::Int8,
            IntegerType::Int16 => PrimitiveType::Int16,
            IntegerType::Int32 => PrimitiveType::Int32,
            IntegerType::Int64 => PrimitiveType::Int64,
            IntegerType::Int128 => PrimitiveType::Int128,
            IntegerType::UInt8 => PrimitiveType::UInt8,
            IntegerType::UInt16 => PrimitiveType::UInt16,
            IntegerType::UInt32 => PrimitiveType::UInt32,
            IntegerType::UInt64 => PrimitiveType::UInt64,
        }
    }
}

impl ArrowDataType {
    /// The type below all extensions.
    pub fn to_logical_type(&self) -> &ArrowDataType
        ensures { kind_of result.now ≡ under_extensions (kind_of self.now) }
    {
        match self {
            ArrowDataType::Extension(e) => e.inner.to_logical_type(),
            _ => self,
        }
    }

    /// The layout of the type's columns; an extension's is that of the type below it.
    pub fn to_physical_type(&self) -> PhysicalType
        ensures { result ≡ physical_of (kind_of self.now) }
    {
        match self {
            ArrowDataType::Null => PhysicalType::Null,
            ArrowDataType::Boolean => PhysicalType::Boolean,
            ArrowDataType::Int8 => PhysicalType::Primitive(PrimitiveType::Int8),
            ArrowDataType::Int16 => PhysicalType::Primitive(PrimitiveType::Int16),
            ArrowDataType::Int32 => PhysicalType::Primitive(PrimitiveType::Int32),
            ArrowDataType::Int64 => PhysicalType::Primitive(PrimitiveType::Int64),
            ArrowDataType::Int128 => PhysicalType::Primitive(PrimitiveType::Int128),
            ArrowDataType::UInt8 => PhysicalType::Primitive(PrimitiveType::UInt8),
            ArrowDataType::UInt16 => PhysicalType::Primitive(PrimitiveType::UInt16),
            ArrowDataType::UInt32 => PhysicalType::Primitive(PrimitiveType::UInt32),
            ArrowDataType::UInt64 => PhysicalType::Primitive(PrimitiveType::UInt64),
            ArrowDataType::Float16 => PhysicalType::Primitive(PrimitiveType::Float16),
            ArrowDataType::Float32 => PhysicalType::Primitive(PrimitiveType::Float32),
            ArrowDataType::Float64 => PhysicalType::Primitive(PrimitiveType::Float64),
            ArrowDataType::Date32 => PhysicalType::Primitive(PrimitiveType::Int32),
            ArrowDataType::Date64 => PhysicalType::Primitive(PrimitiveType::Int64),
            ArrowDataType::Time32(_) => PhysicalType::Primitive(PrimitiveType::Int32),
            ArrowDataType::Time64(_) => PhysicalType::Primitive(PrimitiveType::Int64),
            ArrowDataType::Duration(_) => PhysicalType::Primitive(PrimitiveType::Int64),
            ArrowDataType::Timestamp(_, _) => PhysicalType::Primitive(PrimitiveType::Int64),
            ArrowDataType::Interval(unit) => PhysicalType::Primitive(interval_type(*unit)),
            ArrowDataType::Binary => PhysicalType::Binary,
            ArrowDataType::LargeBinary => PhysicalType::LargeBinary,
            ArrowDataType::Utf8 => PhysicalType::Utf8,
            ArrowDataType::LargeUtf8 => PhysicalType::LargeUtf8,
            ArrowDataType::BinaryView => PhysicalType::BinaryView,
            ArrowDataType::Utf8View => PhysicalType::Utf8View,
            ArrowDataType::FixedSizeBinary(_) => PhysicalType::FixedSizeBinary,
            ArrowDataType::Decimal(_, _) => PhysicalType::Primitive(PrimitiveType::Int128),
            ArrowDataType::Decimal256(_, _) => PhysicalType::Primitive(PrimitiveType::Int256),
            ArrowDataType::List(_) => PhysicalType::List,
            ArrowDataType::LargeList(_) => PhysicalType::LargeList,
            ArrowDataType::FixedSizeList(_, _) => PhysicalType::FixedSizeList,
            ArrowDataType::Map(_, _) => PhysicalType::Map,
            ArrowDataType::Struct(_) => PhysicalType::Struct,
            ArrowDataType::Union(_) => PhysicalType::Union,
            ArrowDataType::Dictionary(index, _, _) => PhysicalType::Dictionary(*index),
            ArrowDataType::Extension(e) => e.inner.to_physical_type(),
        }
    }
}

fn interval_type(unit: IntervalUnit) -> PrimitiveType
    ensures { result ≡ primitive_of_interval unit }
{
    match unit {
        IntervalUnit::YearMonth => PrimitiveType::Int32,
        IntervalUnit::DayTime => PrimitiveType::DaysMs,
        IntervalUnit::MonthDayNano => PrimitiveType::MonthDayNano,
    }
}
