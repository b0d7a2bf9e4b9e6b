//! Numbers with digits behind a point.
ghost use Rattle.std.specs.Prelude.{◌≡◌, ◌++◌, ◌≤◌, OnOk, decimal};
ghost use Rattle.std.specs.Fmt.{signed_decimal};
ghost use Rattle.csv_texts.specs.Texts.{last_digits, scaled, with_point, without_digits};

use itoa::Buffer;
use std::alloc::AllocError;

fn push_decimal(text: &mut Vec<u8>, number: u128) -> Result<(), AllocError>
    ensures { OnOk result (text.new.items ≡ text.old.items ++ decimal number) }
{
    let mut buffer = Buffer::new();
    text.extend_from_slice(buffer.format(number).as_bytes())
}

fn push_signed(text: &mut Vec<u8>, number: i128) -> Result<(), AllocError>
    ensures { OnOk result (text.new.items ≡ text.old.items ++ signed_decimal number) }
{
    let mut buffer = Buffer::new();
    text.extend_from_slice(buffer.format(number).as_bytes())
}

// A number without so many of its last digits.
fn without_digits(number: u128, count: usize) -> u128
    ensures { result ≡ without_digits count number }
{
    if count == 0 {
        number
    } else {
        without_digits(number / 10, count - 1)
    }
}

// So many of the last digits of a number.
fn push_last_digits(text: &mut Vec<u8>, number: u128, count: usize) -> Result<(), AllocError>
    ensures { OnOk result (text.new.items ≡ text.old.items ++ last_digits count number) }
{
    if count == 0 {
        return Ok(());
    }
    push_last_digits(text, number / 10, count - 1)?;
    text.push(b'0' + (number % 10) as u8)?;
    Ok(())
}

fn push_with_point(text: &mut Vec<u8>, number: u128, scale: usize) -> Result<(), AllocError>
    ensures { OnOk result (text.new.items ≡ text.old.items ++ with_point scale number) }
{
    push_decimal(text, without_digits(number, scale))?;
    text.push(b'.')?;
    push_last_digits(text, number, scale)
}

/// A decimal of a scale.
pub fn push_scaled(text: &mut Vec<u8>, number: i128, scale: usize) -> Result<(), AllocError>
    ensures { OnOk result (text.new.items ≡ text.old.items ++ scaled scale number) }
{
    if scale == 0 {
        return push_signed(text, number);
    }
    if scale > 38 {
        push_signed(text, number)?;
        text.extend_from_slice(b"E-")?;
        return push_decimal(text, scale as u128);
    }
    if number < 0 {
        text.push(b'-')?;
    }
    push_with_point(text, number.unsigned_abs(), scale)
}
