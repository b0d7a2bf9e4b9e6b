//! The text of a value.
ghost use Rattle.std.specs.Prelude.{◌≡◌, ◌++◌, ◌∷◌, [], OnOk};
ghost use Rattle.std.specs.Fmt.{signed_decimal};
ghost use Rattle.hex.specs.Hex.{encode_lower};
ghost use Rattle.arrow_types.specs.KindOf.{kind_of};
ghost use Rattle.csv_texts.specs.Texts.{cell_text, interval_text, is_day_time, scale_in};
ghost use Rattle.csv_rows.specs.Values.{cell_of};

use crate::value::Value;
use arrow_spec::IntervalUnit;
use arrow_types::ArrowDataType;
use csv_texts::push_scaled;
use std::alloc::AllocError;

/// The scale of a type's numbers, of a dictionary's that of its values', and 0 where they are whole.
fn scale_of(dtype: &ArrowDataType) -> usize
    ensures { result ≡ scale_in (kind_of dtype.now) }
{
    match dtype {
        ArrowDataType::Decimal(_, scale) => *scale,
        ArrowDataType::Dictionary(_, values, _) => scale_of(values),
        ArrowDataType::Extension(extension) => scale_of(&extension.inner),
        _ => 0,
    }
}

/// Whether a type's intervals are days and milliseconds.
fn is_day_time(dtype: &ArrowDataType) -> bool
    ensures { result ≡ is_day_time (kind_of dtype.now) }
{
    match dtype {
        ArrowDataType::Interval(unit) => *unit == IntervalUnit::DayTime,
        ArrowDataType::Dictionary(_, values, _) => is_day_time(values),
        ArrowDataType::Extension(extension) => is_day_time(&extension.inner),
        _ => false,
    }
}

/// A space, and a number.
fn push_spaced(text: &mut Vec<u8>, number: i128) -> Result<(), AllocError>
    ensures { OnOk result (text.new.items ≡ text.old.items ++ 32 ∷ signed_decimal number) }
{
    text.push(b' ')?;
    push_scaled(text, number, 0)
}

fn push_interval(
    text: &mut Vec<u8>,
    is_day_time: bool,
    first: i128,
    second: i128,
    third: i128,
) -> Result<(), AllocError>
    ensures { OnOk result (text.new.items ≡ text.old.items ++ interval_text is_day_time first second third) }
{
    push_scaled(text, first, 0)?;
    push_spaced(text, second)?;
    if is_day_time {
        return Ok(());
    }
    push_spaced(text, third)
}

/// Makes a text of the hex digits of bytes.
fn set_digits(text: &mut Vec<u8>, bytes: &[u8]) -> Result<(), AllocError>
    ensures { OnOk result (text.new.items ≡ encode_lower bytes.now) }
{
    text.resize(2 * bytes.len(), 0)?;
    hex::encode_to_slice(bytes, text.as_mut_slice()).unwrap();
    Ok(())
}

/// Makes a text that of a value of a type.
pub(crate) fn set_value(
    text: &mut Vec<u8>,
    dtype: &ArrowDataType,
    value: Value<'_>,
) -> Result<(), AllocError>
    ensures { OnOk result (text.new.items ≡ cell_text (kind_of dtype.now) (cell_of value.entry)) }
{
    text.clear();
    match value {
        Value::Null => Ok(()),
        Value::Bit(true) => text.extend_from_slice(b"true"),
        Value::Bit(false) => text.extend_from_slice(b"false"),
        Value::Number(number) => push_scaled(text, number, scale_of(dtype)),
        Value::Interval(first, second, third) => push_interval(
            text,
            is_day_time(dtype),
            first as i128,
            second as i128,
            third as i128,
        ),
        Value::Text(bytes) => text.extend_from_slice(bytes),
        Value::Bytes(bytes) => set_digits(text, bytes),
    }
}
