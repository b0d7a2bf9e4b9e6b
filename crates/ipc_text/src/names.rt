//! The names of what types are made of.
ghost use Rattle.std.specs.Prelude.{◌≡◌, if◌then◌else◌};
ghost use Rattle.arrow_spec.specs.Flat.{little, big};
ghost use Rattle.arrow_spec.specs.SchemaText as text;
ghost use Rattle.ipc_text.specs.Types as types;

use arrow_spec::{IntegerType, IntervalUnit, TimeUnit, UnionMode};

pub(crate) fn integer_name(integer: IntegerType) -> &'static str
    ensures { result.now ≡ text.integer_name integer }
{
    match integer {
        IntegerType::Int8 => "int8",
        IntegerType::Int16 => "int16",
        IntegerType::Int32 => "int32",
        IntegerType::Int64 => "int64",
        IntegerType::Int128 => "int128",
        IntegerType::UInt8 => "uint8",
        IntegerType::UInt16 => "uint16",
        IntegerType::UInt32 => "uint32",
        IntegerType::UInt64 => "uint64",
    }
}

pub(crate) fn unit_name(unit: TimeUnit) -> &'static str
    ensures { result.now ≡ text.unit_name unit }
{
    match unit {
        TimeUnit::Second => "s",
        TimeUnit::Millisecond => "ms",
        TimeUnit::Microsecond => "us",
        TimeUnit::Nanosecond => "ns",
    }
}

pub(crate) fn interval_name(unit: IntervalUnit) -> &'static str
    ensures { result.now ≡ text.interval_name unit }
{
    match unit {
        IntervalUnit::YearMonth => "ym",
        IntervalUnit::DayTime => "dt",
        IntervalUnit::MonthDayNano => "mdn",
    }
}

pub(crate) fn mode_name(mode: UnionMode) -> &'static str
    ensures { result.now ≡ text.mode_name mode }
{
    match mode {
        UnionMode::Dense => "dense",
        UnionMode::Sparse => "sparse",
    }
}

/// The end of a dictionary's part before the type of its values.
pub(crate) fn order_name(is_ordered: bool) -> &'static str
    ensures { result.now ≡ types.order_name is_ordered }
{
    if is_ordered { ",ordered) " } else { ") " }
}

pub(crate) fn nullable_text(is_nullable: bool) -> &'static str
    ensures { result.now ≡ text.nullable_text is_nullable }
{
    if is_nullable { " nullable" } else { "" }
}

/// The line of a byte order.
pub(crate) fn order_line(is_little_endian: bool) -> &'static str
    ensures { result.now ≡ text.order_line (if is_little_endian then little else big) }
{
    if is_little_endian {
        "little\n"
    } else {
        "big\n"
    }
}
