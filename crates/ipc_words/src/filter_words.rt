//! The word of a filter, read.
ghost use Rattle.std.specs.Prelude.{◌≡◌, ◌≤◌, IfSome, length};
ghost use Rattle.ipc_words.specs.Filters.{comparison_of, filter_of, filter_with, negative_of, sign_of, signed_of};
ghost use Rattle.ipc_words.specs.Numbers.{digits_of};

use crate::numbers::{read_decimal, read_digits};
use filter_types::{Filter, FilterOp};

// The number that stands below 0 by so much.
fn below_zero(digits: &[u8]) -> Option<i128>
    ensures { result ≡ negative_of (digits_of digits.now) }
{
    let number = read_digits(digits)?;
    if number > 0x8000_0000_0000_0000_0000_0000_0000_0000 {
        return None;
    }
    if number == 0x8000_0000_0000_0000_0000_0000_0000_0000 {
        return Some(i128::MIN);
    }
    Some(-(number as i128))
}

// Digits, with a hyphen before those of a number below 0.
fn read_signed(text: &[u8]) -> Option<i128>
    ensures { result ≡ signed_of text.now }
{
    if text.is_empty() {
        return None;
    }
    if text[0] == b'-' {
        return below_zero(&text[1..]);
    }
    let number = read_digits(text)?;
    if number > 0x7fff_ffff_ffff_ffff_ffff_ffff_ffff_ffff {
        return None;
    }
    Some(number as i128)
}

// The sign that two characters begin with, and its length.
fn read_sign(first: u8, second: u8) -> Option<(FilterOp, usize)>
    ensures sign { result ≡ sign_of first second }
    ensures short { IfSome result (λ p. p.1 ≤ 2) }
{
    if first == b'=' {
        return Some((FilterOp::Equal, 1));
    }
    if first == b'!' && second == b'=' {
        return Some((FilterOp::NotEqual, 2));
    }
    if first == b'<' && second == b'=' {
        return Some((FilterOp::LessOrEqual, 2));
    }
    if first == b'<' {
        return Some((FilterOp::Less, 1));
    }
    if first == b'>' && second == b'=' {
        return Some((FilterOp::GreaterOrEqual, 2));
    }
    if first == b'>' {
        return Some((FilterOp::Greater, 1));
    }
    None
}

// A sign and a number, of a text of two characters or more.
fn read_comparison(text: &[u8]) -> Option<(FilterOp, i128)>
    requires { 2 ≤ length text.now }
    ensures { result ≡ comparison_of text.now }
{
    let (op, length) = read_sign(text[0], text[1])?;
    let number = read_signed(&text[length..])?;
    Some((op, number))
}

fn read_parts(column: &[u8], rest: &[u8]) -> Option<Filter>
    requires { 2 ≤ length rest.now }
    ensures { result ≡ filter_with column.now rest.now }
{
    let column = read_decimal(column)?;
    let (op, number) = read_comparison(rest)?;
    Some(Filter {
        column: column as usize,
        op,
        number,
    })
}

/// A decimal column, a sign of comparison and a number.
pub(crate) fn read_filter(text: &[u8]) -> Option<Filter>
    ensures { result ≡ filter_of text.now }
{
    for i in 0..text.len() {
        if text[i] < b'0' || b'9' < text[i] {
            if text.len() - i < 2 {
                return None;
            }
            return read_parts(&text[..i], &text[i..]);
        }
    }
    None
}
