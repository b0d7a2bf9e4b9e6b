//! Hex digits that are decoded as they come.
ghost use Rattle.std.specs.Prelude.{◌≡◌, ◌+◌, ◌*◌, ◌/◌, ◌≤◌, ◌<◌, ℕ, List, [], ◌∷◌, ◌++◌, None, length, take, unwrap_or, option_map, OnOk, IfOk, IsOkAnd};
ghost use Rattle.std.specs.Vec.{vec_capacity, vec_len};
ghost use Rattle.hex.specs.Hex.{decode_of, hex_digit_value, pair_value};
ghost use Rattle.arrow_spec.specs.Readings.{meaning};
ghost use Rattle.arrow_spec.specs.Words.{is_white};
ghost use Rattle.hex_input.specs.Decoding.{Follows, Adds, no_white};

use std::alloc::{AllocError, Global};

// The value of each byte that is a digit, and 256 of the others: so a byte of two digits is at most 255, and of other bytes more.
#[rattlefmt::skip]
static VALUES: [u16; 256] = [
    256, 256, 256, 256, 256, 256, 256, 256, 256, 256, 256, 256, 256, 256, 256, 256,
    256, 256, 256, 256, 256, 256, 256, 256, 256, 256, 256, 256, 256, 256, 256, 256,
    256, 256, 256, 256, 256, 256, 256, 256, 256, 256, 256, 256, 256, 256, 256, 256,
      0,   1,   2,   3,   4,   5,   6,   7,   8,   9, 256, 256, 256, 256, 256, 256,
    256,  10,  11,  12,  13,  14,  15, 256, 256, 256, 256, 256, 256, 256, 256, 256,
    256, 256, 256, 256, 256, 256, 256, 256, 256, 256, 256, 256, 256, 256, 256, 256,
    256,  10,  11,  12,  13,  14,  15, 256, 256, 256, 256, 256, 256, 256, 256, 256,
    256, 256, 256, 256, 256, 256, 256, 256, 256, 256, 256, 256, 256, 256, 256, 256,
    256, 256, 256, 256, 256, 256, 256, 256, 256, 256, 256, 256, 256, 256, 256, 256,
    256, 256, 256, 256, 256, 256, 256, 256, 256, 256, 256, 256, 256, 256, 256, 256,
    256, 256, 256, 256, 256, 256, 256, 256, 256, 256, 256, 256, 256, 256, 256, 256,
    256, 256, 256, 256, 256, 256, 256, 256, 256, 256, 256, 256, 256, 256, 256, 256,
    256, 256, 256, 256, 256, 256, 256, 256, 256, 256, 256, 256, 256, 256, 256, 256,
    256, 256, 256, 256, 256, 256, 256, 256, 256, 256, 256, 256, 256, 256, 256, 256,
    256, 256, 256, 256, 256, 256, 256, 256, 256, 256, 256, 256, 256, 256, 256, 256,
    256, 256, 256, 256, 256, 256, 256, 256, 256, 256, 256, 256, 256, 256, 256, 256,
];

fn is_white_space(c: u8) -> bool
    ensures { result ≡ is_white c }
{
    matches!(c, b' ' | b'\t' | b'\n' | 12 | b'\r')
}

/// The value of a digit, or 256.
fn digit_value(c: u8) -> u16
    ensures { result ≡ unwrap_or (hex_digit_value c) 256 }
{
    VALUES[usize::from(c)]
}

/// The byte of two digits, if they are.
fn decode_pair(high: u8, low: u8) -> Option<u8>
    ensures { result ≡ meaning (pair_value high low 0) }
{
    let byte = digit_value(high) * 16 + digit_value(low);
    if byte > 255 { None } else { Some(byte as u8) }
}

/// Decodes the pairs of digits with which a text begins, behind bytes that have room for them. Answers how many they are.
fn decode_front(bytes: &mut Vec<u8>, text: &[u8]) -> usize
    requires { vec_len bytes.old + length text.now / 2 ≤ vec_capacity bytes.old }
    ensures within { result * 2 ≤ length text.now }
    ensures bytes { IsOkAnd (decode_of (take (result * 2) text.now)) (λ more. bytes.new.items ≡ bytes.old.items ++ more) }
{
    let pairs = text.len() / 2;
    for count in 0..pairs {
        let Some(byte) = decode_pair(text[count * 2], text[count * 2 + 1]) else {
            return count;
        };
        bytes.push_reserved(byte);
    }
    pairs
}

/// What digits are decoded to.
#[derive(Drop)]
pub struct Decoder {
    bytes: Vec<u8>,
    // A byte's first digit, whose second has not come.
    waiting: Option<u8>,
    // Something came that is no digit. Nothing more is kept.
    spoiled: bool,
}

impl Decoder {
    /// Takes no memory.
    pub fn new(alloc: Global) -> Self
        ensures { Follows result [] }
    {
        Decoder {
            bytes: Vec::new(alloc),
            waiting: None,
            spoiled: false,
        }
    }

    // Adds a pair of digits, while no digit waits.
    fn add_pair(&mut self, high: u8, low: u8) -> Result<(), AllocError>
        requires { self.old.waiting ≡ None }
        ensures { OnOk result (Adds self.old self.new (high ∷ low ∷ [])) }
    {
        if self.spoiled {
            return Ok(());
        }
        let Some(byte) = decode_pair(high, low) else {
            self.spoiled = true;
            return Ok(());
        };
        self.bytes.push(byte)?;
        Ok(())
    }

    // Adds what is no white space.
    fn add_digit(&mut self, digit: u8) -> Result<(), AllocError>
        ensures { OnOk result (Adds self.old self.new (digit ∷ [])) }
    {
        if self.spoiled {
            return Ok(());
        }
        let Some(high) = self.waiting else {
            self.waiting = Some(digit);
            return Ok(());
        };
        self.waiting = None;
        self.add_pair(high, digit)
    }

    // Adds a byte of a text.
    fn add_byte(&mut self, byte: u8) -> Result<(), AllocError>
        ensures { OnOk result (Adds self.old self.new (no_white (byte ∷ []))) }
    {
        if is_white_space(byte) {
            return Ok(());
        }
        self.add_digit(byte)
    }

    // Adds the pairs of digits with which a text begins, where no digit waits. Answers how many bytes they are.
    fn add_pairs(&mut self, text: &[u8]) -> Result<usize, AllocError>
        ensures within { IfOk result (λ count. count ≤ length text.now) }
        ensures adds { IfOk result (λ count. Adds self.old self.new (no_white (take count text.now))) }
    {
        if self.spoiled || self.waiting.is_some() {
            return Ok(0);
        }
        self.bytes.reserve(text.len() / 2)?;
        let pairs = decode_front(&mut self.bytes, text);
        Ok(pairs * 2)
    }

    // Adds the pairs of digits with which a text begins, and the byte behind them. Answers how many bytes these are.
    fn add_front(&mut self, text: &[u8]) -> Result<usize, AllocError>
        requires { 0 < length text.now }
        ensures some { IfOk result (λ count. 0 < count) }
        ensures within { IfOk result (λ count. count ≤ length text.now) }
        ensures adds { IfOk result (λ count. Adds self.old self.new (no_white (take count text.now))) }
    {
        let count = self.add_pairs(text)?;
        if count == text.len() {
            return Ok(count);
        }
        self.add_byte(text[count])?;
        Ok(count + 1)
    }

    /// Adds a text.
    pub fn add_text(&mut self, text: &[u8]) -> Result<(), AllocError>
        ensures { OnOk result (Adds self.old self.new (no_white text.now)) }
    {
        let mut at = 0;
        'fronts: while at < text.len() {
            at += self.add_front(&text[at..])?;
        }
        Ok(())
    }

    /// The bytes, if all that came is the hex text of some.
    pub fn finish(self) -> Option<Vec<u8>>
        ensures { (digits : List ℕ) → Follows self digits → option_map (λ v. v.items) result ≡ meaning (decode_of digits) }
    {
        let Decoder {
            bytes,
            waiting,
            spoiled,
        } = self;
        if spoiled {
            return None;
        }
        match waiting {
            Some(_) => None,
            None => Some(bytes),
        }
    }
}
