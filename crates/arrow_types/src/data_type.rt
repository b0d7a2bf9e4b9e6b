//! The type tree.
ghost use Rattle.std.specs.Prelude.{◌≡◌, [], string_bytes};
ghost use Rattle.arrow_types.specs.KindOf.{kind_of, child_of};
ghost use Rattle.arrow_types.specs.Leaves.{is_leaf};

use arrow_spec::{IntegerType, IntervalUnit, TimeUnit, UnionMode};
use std::alloc::Global;
use std::collections::BTreeMap;

/// Pairs of texts, by key.
pub type Metadata = BTreeMap<String, String>;

/// The type of a column (Arrow Columnar Format, "Data Types").
#[cycle(datatype)]
pub enum ArrowDataType {
    /// Rows that are all null.
    Null,
    /// Truth values, a bit each.
    Boolean,
    /// Signed integers of 8 bits.
    Int8,
    /// Signed integers of 16 bits.
    Int16,
    /// Signed integers of 32 bits.
    Int32,
    /// Signed integers of 64 bits.
    Int64,
    /// Signed integers of 128 bits.
    Int128,
    /// Unsigned integers of 8 bits.
    UInt8,
    /// Unsigned integers of 16 bits.
    UInt16,
    /// Unsigned integers of 32 bits.
    UInt32,
    /// Unsigned integers of 64 bits.
    UInt64,
    /// Floats of 16 bits: a name only, of which no array is read or written.
    Float16,
    /// Floats of 32 bits: a name only, of which no array is read or written.
    Float32,
    /// Floats of 64 bits: a name only, of which no array is read or written.
    Float64,
    /// Days since the Unix epoch.
    Date32,
    /// Milliseconds since the Unix epoch.
    Date64,
    /// Seconds or milliseconds since midnight.
    Time32(TimeUnit),
    /// Microseconds or nanoseconds since midnight.
    Time64(TimeUnit),
    /// Lengths of time, in 64 bits.
    Duration(TimeUnit),
    /// Time since the Unix epoch, and the time zone.
    Timestamp(TimeUnit, Option<String>),
    /// Intervals of the calendar.
    Interval(IntervalUnit),
    /// Byte strings between offsets of 32 bits.
    Binary,
    /// Byte strings between offsets of 64 bits.
    LargeBinary,
    /// UTF-8 texts between offsets of 32 bits.
    Utf8,
    /// UTF-8 texts between offsets of 64 bits.
    LargeUtf8,
    /// Byte strings, each behind a view of 16 bytes.
    BinaryView,
    /// UTF-8 texts, each behind a view of 16 bytes.
    Utf8View,
    /// Byte strings of this length.
    FixedSizeBinary(usize),
    /// Decimals of 128 bits: their precision and scale.
    Decimal(usize, usize),
    /// Decimals of 256 bits, by precision and scale: a name only, of which no array is read or written.
    Decimal256(usize, usize),
    /// Lists between offsets of 32 bits.
    List(Box<Field>),
    /// Lists between offsets of 64 bits.
    LargeList(Box<Field>),
    /// Lists of this many items.
    FixedSizeList(Box<Field>, usize),
    /// Lists of entries, a struct of a key and a value, and whether the keys are sorted.
    Map(Box<Field>, bool),
    /// Rows across a child for each field.
    Struct(Vec<Field>),
    /// Rows of one of several children each.
    Union(Box<UnionType>),
    /// Keys of this type into values of that type, and whether the values are in order.
    Dictionary(IntegerType, Box<ArrowDataType>, bool),
    /// A type under a name of its own.
    Extension(Box<ExtensionType>),
}

/// A column's name and type, whether it may have nulls, and its metadata.
#[cycle(datatype)]
pub struct Field {
    /// Its name.
    pub name: String,
    /// Its type.
    pub dtype: ArrowDataType,
    /// Whether its rows may be null; no array is held to it.
    pub is_nullable: bool,
    /// Its pairs.
    pub metadata: Metadata,
}

/// A union's children, and the id of each; with no ids they count 0, 1, and so on.
#[cycle(datatype)]
pub struct UnionType {
    /// The children, in order.
    pub fields: Vec<Field>,
    /// The id of each child, in 0 to 127.
    pub ids: Option<Vec<i32>>,
    /// How a row finds its row of the child.
    pub mode: UnionMode,
}

/// A type under a name of its own, stored as another (Arrow Columnar Format, "Extension Types").
#[cycle(datatype)]
pub struct ExtensionType {
    /// Its name.
    pub name: String,
    /// The type as which it is stored.
    pub inner: ArrowDataType,
    /// What else is said of it, where anything is.
    pub metadata: Option<String>,
}

impl Drop for ArrowDataType {
    #[cycle(let_go)]
    fn drop(self) {
        match self {
            ArrowDataType::Timestamp(_, zone) => drop(zone),
            ArrowDataType::List(field) => drop(field),
            ArrowDataType::LargeList(field) => drop(field),
            ArrowDataType::FixedSizeList(field, _) => drop(field),
            ArrowDataType::Map(field, _) => drop(field),
            ArrowDataType::Struct(fields) => drop(fields),
            ArrowDataType::Union(union) => drop(union),
            ArrowDataType::Dictionary(_, values, _) => drop(values),
            ArrowDataType::Extension(extension) => drop(extension),
            ArrowDataType::Null => (),
            ArrowDataType::Boolean => (),
            ArrowDataType::Int8 => (),
            ArrowDataType::Int16 => (),
            ArrowDataType::Int32 => (),
            ArrowDataType::Int64 => (),
            ArrowDataType::Int128 => (),
            ArrowDataType::UInt8 => (),
            ArrowDataType::UInt16 => (),
            ArrowDataType::UInt32 => (),
            ArrowDataType::UInt64 => (),
            ArrowDataType::Float16 => (),
            ArrowDataType::Float32 => (),
            ArrowDataType::Float64 => (),
            ArrowDataType::Date32 => (),
            ArrowDataType::Date64 => (),
            ArrowDataType::Time32(_) => (),
            ArrowDataType::Time64(_) => (),
            ArrowDataType::Duration(_) => (),
            ArrowDataType::Interval(_) => (),
            ArrowDataType::Binary => (),
            ArrowDataType::LargeBinary => (),
            ArrowDataType::Utf8 => (),
            ArrowDataType::LargeUtf8 => (),
            ArrowDataType::BinaryView => (),
            ArrowDataType::Utf8View => (),
            ArrowDataType::FixedSizeBinary(_) => (),
            ArrowDataType::Decimal(_, _) => (),
            ArrowDataType::Decimal256(_, _) => (),
        }
    }
}

impl Drop for Field {
    #[cycle(let_go)]
    fn drop(self) {
        let Field {
            name,
            dtype,
            is_nullable: _,
            metadata,
        } = self;
        drop(name);
        drop(dtype);
        drop(metadata);
    }
}

impl Drop for UnionType {
    #[cycle(let_go)]
    fn drop(self) {
        let UnionType {
            fields,
            ids,
            mode: _,
        } = self;
        drop(fields);
        drop(ids);
    }
}

impl Drop for ExtensionType {
    #[cycle(let_go)]
    fn drop(self) {
        let ExtensionType {
            name,
            inner,
            metadata,
        } = self;
        drop(name);
        drop(inner);
        drop(metadata);
    }
}

/// Whether a type has neither children nor values nor a type below it.
pub fn is_leaf(dtype: &ArrowDataType) -> bool
    ensures { result ≡ is_leaf (kind_of dtype.now) }
{
    match dtype {
        ArrowDataType::List(_)
        | ArrowDataType::LargeList(_)
        | ArrowDataType::FixedSizeList(_, _)
        | ArrowDataType::Map(_, _)
        | ArrowDataType::Struct(_)
        | ArrowDataType::Union(_)
        | ArrowDataType::Dictionary(_, _, _)
        | ArrowDataType::Extension(_) => false,
        _ => true,
    }
}

impl Field {
    /// A field without metadata.
    pub fn new(alloc: Global, name: String, dtype: ArrowDataType, is_nullable: bool) -> Field
        ensures { child_of result ≡ record { name = string_bytes name; kind = kind_of dtype; nullable = is_nullable; metadata = [] } }
    {
        Field {
            name,
            dtype,
            is_nullable,
            metadata: Metadata::new(alloc),
        }
    }

    /// The type of the field.
    pub fn dtype(&self) -> &ArrowDataType
        ensures dtype { result.now ≡ self.now.dtype }
        ensures kind { kind_of result.now ≡ (child_of self.now).kind }
    {
        &self.dtype
    }
}

impl From<IntegerType> for ArrowDataType {
    ghost use Rattle.std.specs.Prelude.{◌≡◌};
    ghost use Rattle.arrow_spec.specs.Kinds.{integer};
    ghost use Rattle.arrow_types.specs.KindOf.{kind_of};

    ghost from_gives = { λ i t. kind_of t ≡ integer i };

    fn from(integer: IntegerType) -> ArrowDataType {
        match integer {
            IntegerType::Int8 => ArrowDataType::Int8,
            IntegerType::Int16 => ArrowDataType::Int16,
            IntegerType::Int32 => ArrowDataType::Int32,
            IntegerType::Int64 => ArrowDataType::Int64,
            IntegerType::Int128 => ArrowDataType::Int128,
            IntegerType::UInt8 => ArrowDataType::UInt8,
            IntegerType::UInt16 => ArrowDataType::UInt16,
            IntegerType::UInt32 => ArrowDataType::UInt32,
            IntegerType::UInt64 => ArrowDataType::UInt64,
        }
    }
}
