//! Numbers in words.
ghost use Rattle.std.specs.Prelude.{◌≡◌, ◌++◌, ◌∷◌, [], ℕ, IfOk, IfErr, OnOk, None, Some};
ghost use Rattle.ipc_words.specs.Numbers.{at_most, decimal_of, digits_of, numbers_of};
ghost use Rattle.ipc_words.specs.declared.words_error.WordsError.TheVariants.{NoRequest};

use crate::words_error::WordsError;
use std::alloc::Global;

/// One or more digits and nothing else, which stand for at most 2^128 - 1.
pub(crate) fn read_digits(text: &[u8]) -> Option<u128>
    ensures { result ≡ at_most 340282366920938463463374607431768211455 (digits_of text.now) }
{
    if text.is_empty() {
        return None;
    }
    let mut number = 0u128;
    for digit in text {
        if *digit < b'0' || b'9' < *digit {
            return None;
        }
        number = number
            .checked_mul(10)?
            .checked_add((*digit - b'0') as u128)?;
    }
    Some(number)
}

/// The same, at most 2^64 - 1.
pub(crate) fn read_decimal(text: &[u8]) -> Option<u64>
    ensures { result ≡ decimal_of text.now }
{
    let number = read_digits(text)?;
    if number > 0xffff_ffff_ffff_ffff {
        return None;
    }
    Some(number as u64)
}

fn push_number(numbers: &mut Vec<usize>, text: &[u8]) -> Result<(), WordsError>
    ensures asked { OnOk result ((n : ℕ) × (decimal_of text.now ≡ Some n) × (numbers.new.items ≡ numbers.old.items ++ n ∷ [])) }
    ensures refused { IfErr result (λ e. e ≡ NoRequest → decimal_of text.now ≡ None) }
{
    match read_decimal(text) {
        Some(number) => {
            numbers.push(number as usize)?;
            Ok(())
        }
        None => Err(WordsError::NoRequest),
    }
}

/// Numbers joined by commas; the empty text is no numbers.
pub(crate) fn read_numbers(alloc: Global, text: &[u8]) -> Result<Vec<usize>, WordsError>
    ensures asked { IfOk result (λ numbers. numbers_of text.now ≡ Some numbers.items) }
    ensures refused { IfErr result (λ e. e ≡ NoRequest → numbers_of text.now ≡ None) }
{
    let mut numbers = Vec::new(alloc);
    if text.is_empty() {
        return Ok(numbers);
    }
    let mut start = 0;
    for i in 0..text.len() {
        if text[i] == b',' {
            push_number(&mut numbers, &text[start..i])?;
            start = i + 1;
        }
    }
    push_number(&mut numbers, &text[start..])?;
    Ok(numbers)
}
