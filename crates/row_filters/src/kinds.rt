//! Columns whose rows hold numbers.
ghost use Rattle.std.specs.Prelude.{◌≡◌};
ghost use Rattle.arrow_types.specs.KindOf.{kind_of};
ghost use Rattle.row_filters.specs.Filters.{is_of_numbers};

use arrow_spec::IntervalUnit;
use arrow_types::ArrowDataType;

/// Whether the rows of a type hold numbers: integers, dates, times, timestamps, durations, months and decimals of 128 bits.
/// A dictionary counts by its values' type, and an extension by what it is stored as.
pub fn are_numbers(dtype: &ArrowDataType) -> bool
    ensures { result ≡ is_of_numbers (kind_of dtype.now) }
{
    match dtype {
        ArrowDataType::Int8
        | ArrowDataType::Int16
        | ArrowDataType::Int32
        | ArrowDataType::Int64
        | ArrowDataType::Int128
        | ArrowDataType::UInt8
        | ArrowDataType::UInt16
        | ArrowDataType::UInt32
        | ArrowDataType::UInt64
        | ArrowDataType::Date32
        | ArrowDataType::Date64
        | ArrowDataType::Time32(_)
        | ArrowDataType::Time64(_)
        | ArrowDataType::Duration(_)
        | ArrowDataType::Timestamp(_, _)
        | ArrowDataType::Interval(IntervalUnit::YearMonth)
        | ArrowDataType::Decimal(_, _) => true,
        ArrowDataType::Dictionary(_, values, _) => are_numbers(values),
        ArrowDataType::Extension(extension) => are_numbers(&extension.inner),
        _ => false,
    }
}
