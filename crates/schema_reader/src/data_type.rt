//! Type tables (Schema.fbs, Type).
ghost use Rattle.std.specs.Prelude.{◌≡◌, ◌+◌, ◌*◌, ◌<◌, ◌≤◌, ◌++◌, ◌∷◌, Ok, IfOk, IfErr, OnErr, Err, true, false, drop, pos, IsTrue, string_bytes};
ghost use Rattle.std.specs.Int.{w32};
ghost use Rattle.arrow_spec.specs.declared.error.IpcError.TheVariants.{Memory};
ghost use Rattle.ipc_fields.specs.Causes.{Decodes};
ghost use Rattle.arrow_spec.specs.Flat.{signed_at, slot_bool};
ghost use Rattle.arrow_spec.specs.Schema.{is_nested, choice, natural_slot, schema_part, integer_of, integer_at, unit_of, time_of, time_at, timestamp_at, decimal_of, decimal_at, positive, type_at};
ghost use Rattle.arrow_types.specs.KindOf.{kind_of};
ghost use Rattle.schema_reader.specs.Parts.{tag_part, size_at, float_at, date_at, interval_at, duration_at};
ghost use Rattle.schema_reader.specs.ReadViews.{tag_in, shape_kind, Takes};
ghost use Rattle.arrow_types.specs.Leaves.{is_leaf};

use crate::pairs::read_text;
use arrow_flat::{ChoiceWidth, Table};
use arrow_spec::{
    Feature, FlatError, IntegerType, IntervalUnit, IpcError, OutOfSpecKind, TimeUnit, UnionMode,
};
use arrow_types::ArrowDataType;
use std::alloc::Global;

/// The type tables.
#[derive(Clone, Copy, Debug, PartialEq, Eq)]
pub(crate) enum TypeTag {
    Null,
    Int,
    FloatingPoint,
    Binary,
    Utf8,
    Bool,
    Decimal,
    Date,
    Time,
    Timestamp,
    Interval,
    List,
    Struct,
    Union,
    FixedSizeBinary,
    FixedSizeList,
    Map,
    Duration,
    LargeBinary,
    LargeUtf8,
    LargeList,
    RunEndEncoded,
    BinaryView,
    Utf8View,
    ListView,
    LargeListView,
}

/// A type before its children: a type without any, or what is made of the children.
#[derive(Drop)]
pub(crate) enum Shape {
    Flat(ArrowDataType),
    List,
    LargeList,
    FixedSizeList(usize),
    Map(bool),
    Struct,
    Union(UnionMode, Option<Vec<i32>>),
}

/// The type table of a tag.
#[tactic(auto, using(crate::proofs::Tags::tag_large, crate::proofs::Tags::tag_zero), unfolding(crate::specs::Parts::tag_part))]
pub(crate) fn tag_of(number: u8) -> Result<TypeTag, IpcError>
    ensures gives { Decodes tag_in result (tag_part number) }
{
    if number == 0 {
        return Err(IpcError::OutOfSpec(OutOfSpecKind::MissingType));
    }
    match number {
        1 => Ok(TypeTag::Null),
        2 => Ok(TypeTag::Int),
        3 => Ok(TypeTag::FloatingPoint),
        4 => Ok(TypeTag::Binary),
        5 => Ok(TypeTag::Utf8),
        6 => Ok(TypeTag::Bool),
        7 => Ok(TypeTag::Decimal),
        8 => Ok(TypeTag::Date),
        9 => Ok(TypeTag::Time),
        10 => Ok(TypeTag::Timestamp),
        11 => Ok(TypeTag::Interval),
        12 => Ok(TypeTag::List),
        13 => Ok(TypeTag::Struct),
        14 => Ok(TypeTag::Union),
        15 => Ok(TypeTag::FixedSizeBinary),
        16 => Ok(TypeTag::FixedSizeList),
        17 => Ok(TypeTag::Map),
        18 => Ok(TypeTag::Duration),
        19 => Ok(TypeTag::LargeBinary),
        20 => Ok(TypeTag::LargeUtf8),
        21 => Ok(TypeTag::LargeList),
        22 => Ok(TypeTag::RunEndEncoded),
        23 => Ok(TypeTag::BinaryView),
        24 => Ok(TypeTag::Utf8View),
        25 => Ok(TypeTag::ListView),
        26 => Ok(TypeTag::LargeListView),
        _ => Err(IpcError::OutOfSpec(OutOfSpecKind::InvalidFlatbufferSchema(FlatError::Number))),
    }
}

impl TypeTag {
    /// Whether the type's children are looked at.
    pub(crate) fn is_nested(self) -> bool
        ensures { result ≡ is_nested (tag_in self) }
    {
        match self {
            TypeTag::List
            | TypeTag::Struct
            | TypeTag::Union
            | TypeTag::FixedSizeList
            | TypeTag::Map
            | TypeTag::LargeList => true,
            _ => false,
        }
    }
}

/// One of `count` choices.
#[tactic(auto, unfolding(arrow_spec::specs::Readings::bind, arrow_spec::specs::Schema::choice))]
pub(crate) fn read_choice(
    table: &Table<'_>,
    slot: usize,
    default: u16,
    count: u16,
) -> Result<u16, IpcError>
    ensures gives { Decodes (λ n. n) result (choice count default table.now.bytes table.now.table slot) }
    ensures listed { IfOk result (λ n. n < count) }
{
    let number = table
        .slot_choice(slot, ChoiceWidth::Two, default, count)
        .map_err(|e| { IpcError::OutOfSpec(OutOfSpecKind::InvalidFlatbufferSchema(e)) })?;
    Ok(number)
}

/// A number that must not be negative.
#[tactic(auto, unfolding(arrow_spec::specs::Readings::bind))]
pub(crate) fn read_natural(table: &Table<'_>, slot: usize, default: u8) -> Result<usize, IpcError>
    ensures gives { Decodes (λ n. n) result (natural_slot default table.now.bytes table.now.table slot) }
{
    let number = table.slot_i32(slot, i32::from(default)).map_err(|e| IpcError::OutOfSpec(
        OutOfSpecKind::InvalidFlatbufferSchema(e),
    ))?;
    if number < 0 {
        return Err(IpcError::OutOfSpec(OutOfSpecKind::UnexpectedNegativeInteger));
    }
    Ok(number as usize)
}

/// A truth value, false where it is absent.
#[tactic(auto, using(ipc_fields::proofs::Steps::bool_slot), unfolding(arrow_spec::specs::Readings::bind))]
pub(crate) fn read_bool(table: &Table<'_>, slot: usize) -> Result<bool, IpcError>
    ensures gives { Decodes (λ b. b) result (schema_part (slot_bool table.now.bytes table.now.table slot)) }
{
    let flag = table.slot_bool(slot, false).map_err(|e| IpcError::OutOfSpec(
        OutOfSpecKind::InvalidFlatbufferSchema(e),
    ))?;
    Ok(flag)
}

/// An integer type by its bits and its sign.
fn integer_of(bits: usize, is_signed: bool) -> Result<IntegerType, IpcError>
    ensures gives { Decodes (λ i. i) result (integer_of bits is_signed) }
{
    match (bits, is_signed) {
        (8, true) => Ok(IntegerType::Int8),
        (16, true) => Ok(IntegerType::Int16),
        (32, true) => Ok(IntegerType::Int32),
        (64, true) => Ok(IntegerType::Int64),
        (128, true) => Ok(IntegerType::Int128),
        (8, false) => Ok(IntegerType::UInt8),
        (16, false) => Ok(IntegerType::UInt16),
        (32, false) => Ok(IntegerType::UInt32),
        (64, false) => Ok(IntegerType::UInt64),
        _ => Err(IpcError::OutOfSpec(OutOfSpecKind::InvalidDataType)),
    }
}

/// An integer type (Schema.fbs, Int).
#[tactic(auto, unfolding(arrow_spec::specs::Readings::bind, arrow_spec::specs::Schema::integer_at))]
pub(crate) fn read_integer(table: &Table<'_>) -> Result<IntegerType, IpcError>
    ensures gives { Decodes (λ i. i) result (integer_at table.now.bytes table.now.table) }
{
    let bits = read_natural(table, 0, 0)?;
    let is_signed = read_bool(table, 1)?;
    integer_of(bits, is_signed)
}

/// A unit by its number (Schema.fbs, TimeUnit).
fn unit_of(number: u16) -> TimeUnit
    ensures { result ≡ unit_of number }
{
    match number {
        0 => TimeUnit::Second,
        1 => TimeUnit::Millisecond,
        2 => TimeUnit::Microsecond,
        _ => TimeUnit::Nanosecond,
    }
}

/// A float, by its precision (Schema.fbs, FloatingPoint).
#[tactic(auto, unfolding(arrow_spec::specs::Readings::bind, crate::specs::Parts::float_at))]
pub(crate) fn read_float(table: &Table<'_>) -> Result<ArrowDataType, IpcError>
    ensures gives { Decodes kind_of result (float_at table.now.bytes table.now.table) }
    ensures leaf { IfOk result (λ t. is_leaf (kind_of t) ≡ true) }
{
    match read_choice(table, 0, 0, 3)? {
        0 => Ok(ArrowDataType::Float16),
        1 => Ok(ArrowDataType::Float32),
        _ => Ok(ArrowDataType::Float64),
    }
}

/// A decimal by its bits; those of 32 and 64 are not supported (Schema.fbs, Decimal).
#[tactic(auto, unfolding(arrow_spec::specs::Readings::bind))]
fn decimal_of(bits: usize, precision: usize, scale: usize) -> Result<ArrowDataType, IpcError>
    ensures gives { Decodes kind_of result (decimal_of bits precision scale) }
    ensures leaf { IfOk result (λ t. is_leaf (kind_of t) ≡ true) }
{
    match bits {
        128 => Ok(ArrowDataType::Decimal(precision, scale)),
        256 => Ok(ArrowDataType::Decimal256(precision, scale)),
        32 | 64 => Err(IpcError::Unsupported(Feature::DecimalWidth)),
        _ => Err(IpcError::OutOfSpec(OutOfSpecKind::InvalidDataType)),
    }
}

/// A decimal (Schema.fbs, Decimal).
#[tactic(auto, unfolding(arrow_spec::specs::Readings::bind, arrow_spec::specs::Schema::decimal_at))]
pub(crate) fn read_decimal(table: &Table<'_>) -> Result<ArrowDataType, IpcError>
    ensures gives { Decodes kind_of result (decimal_at table.now.bytes table.now.table) }
    ensures leaf { IfOk result (λ t. is_leaf (kind_of t) ≡ true) }
{
    let precision = read_natural(table, 0, 0)?;
    let scale = table.slot_i32(1, 0).map_err(|e| IpcError::OutOfSpec(
        OutOfSpecKind::InvalidFlatbufferSchema(e),
    ))?;
    if scale < 0 {
        return Err(IpcError::Unsupported(Feature::NegativeScale));
    }
    let bits = read_natural(table, 2, 128)?;
    decimal_of(bits, precision, scale as usize)
}

/// A date (Schema.fbs, Date).
#[tactic(auto, unfolding(arrow_spec::specs::Readings::bind, crate::specs::Parts::date_at))]
pub(crate) fn read_date(table: &Table<'_>) -> Result<ArrowDataType, IpcError>
    ensures gives { Decodes kind_of result (date_at table.now.bytes table.now.table) }
    ensures leaf { IfOk result (λ t. is_leaf (kind_of t) ≡ true) }
{
    match read_choice(table, 0, 1, 2)? {
        0 => Ok(ArrowDataType::Date32),
        _ => Ok(ArrowDataType::Date64),
    }
}

/// Seconds and milliseconds take 32 bits, the finer units 64 (Schema.fbs, Time).
fn time_of(bits: usize, unit: u16) -> Result<ArrowDataType, IpcError>
    ensures gives { Decodes kind_of result (time_of bits unit) }
    ensures leaf { IfOk result (λ t. is_leaf (kind_of t) ≡ true) }
{
    if bits == 32 && unit < 2 {
        return Ok(ArrowDataType::Time32(unit_of(unit)));
    }
    if bits == 64 && unit >= 2 {
        return Ok(ArrowDataType::Time64(unit_of(unit)));
    }
    Err(IpcError::OutOfSpec(OutOfSpecKind::InvalidDataType))
}

/// A time of day (Schema.fbs, Time).
#[tactic(auto, unfolding(arrow_spec::specs::Readings::bind, arrow_spec::specs::Schema::time_at))]
pub(crate) fn read_time(table: &Table<'_>) -> Result<ArrowDataType, IpcError>
    ensures gives { Decodes kind_of result (time_at table.now.bytes table.now.table) }
    ensures leaf { IfOk result (λ t. is_leaf (kind_of t) ≡ true) }
{
    let unit = read_choice(table, 0, 1, 4)?;
    let bits = read_natural(table, 1, 32)?;
    time_of(bits, unit)
}

/// A timestamp (Schema.fbs, Timestamp).
#[tactic(auto, unfolding(arrow_spec::specs::Readings::bind, arrow_spec::specs::Schema::timestamp_at))]
pub(crate) fn read_timestamp(alloc: Global, table: &Table<'_>) -> Result<ArrowDataType, IpcError>
    ensures gives { Decodes kind_of result (timestamp_at table.now.bytes table.now.table) }
    ensures leaf { IfOk result (λ t. is_leaf (kind_of t) ≡ true) }
{
    let unit = read_choice(table, 0, 0, 4)?;
    let zone = read_text(alloc, table, 1)?;
    Ok(ArrowDataType::Timestamp(unit_of(unit), zone))
}

/// An interval (Schema.fbs, Interval).
#[tactic(auto, unfolding(arrow_spec::specs::Readings::bind, crate::specs::Parts::interval_at))]
pub(crate) fn read_interval(table: &Table<'_>) -> Result<ArrowDataType, IpcError>
    ensures gives { Decodes kind_of result (interval_at table.now.bytes table.now.table) }
    ensures leaf { IfOk result (λ t. is_leaf (kind_of t) ≡ true) }
{
    match read_choice(table, 0, 0, 3)? {
        0 => Ok(ArrowDataType::Interval(IntervalUnit::YearMonth)),
        1 => Ok(ArrowDataType::Interval(IntervalUnit::DayTime)),
        _ => Ok(ArrowDataType::Interval(IntervalUnit::MonthDayNano)),
    }
}

/// A duration (Schema.fbs, Duration).
#[tactic(auto, unfolding(arrow_spec::specs::Readings::bind, crate::specs::Parts::duration_at))]
pub(crate) fn read_duration(table: &Table<'_>) -> Result<ArrowDataType, IpcError>
    ensures gives { Decodes kind_of result (duration_at table.now.bytes table.now.table) }
    ensures leaf { IfOk result (λ t. is_leaf (kind_of t) ≡ true) }
{
    let unit = read_choice(table, 0, 1, 4)?;
    Ok(ArrowDataType::Duration(unit_of(unit)))
}

/// A size above 0.
#[tactic(auto, unfolding(arrow_spec::specs::Readings::bind))]
pub(crate) fn read_size(table: &Table<'_>) -> Result<usize, IpcError>
    ensures gives { Decodes (λ n. n) result (size_at table.now.bytes table.now.table) }
{
    let size = read_natural(table, 0, 0)?;
    if size == 0 {
        return Err(IpcError::Unsupported(Feature::ZeroSize));
    }
    Ok(size)
}
