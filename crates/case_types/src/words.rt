//! Answers as they are made, and numbers, bits and bytes as words.
use crate::fault::Fault;
use hex::decode;
use std::alloc::{AllocError, Global};
use std::cell::{Cell, RefCell};

/// The answer of a call as it is made: its text, or the first fault that was met.
///
/// What is asked of words that do not say it is a fault of the answer, and 0 or nothing in its place, so that a call is read and made
/// without a way out at each word.
#[derive(Drop)]
pub struct Answer {
    alloc: Global,
    text: RefCell<String>,
    fault: Cell<Option<Fault>>,
}

impl Answer {
    /// No text, and no fault.
    pub fn new(alloc: Global) -> Answer {
        Answer {
            alloc,
            text: RefCell::new(String::new(alloc)),
            fault: Cell::new(None),
        }
    }

    /// The allocator of all that a call makes.
    pub fn alloc(&self) -> Global {
        self.alloc
    }

    /// Whether there is no fault.
    pub fn is_well(&self) -> bool {
        self.fault.get().is_none()
    }

    /// The text, or the fault in its place.
    pub fn into_text(self) -> Result<String, Fault> {
        match self.fault.get() {
            None => Ok(self.text.into_inner()),
            Some(fault) => Err(fault),
        }
    }

    /// There is a fault.
    pub fn fail(&self, fault: Fault) {
        if self.is_well() {
            self.fault.set(Some(fault));
        }
    }

    /// The words are none of a call.
    pub fn refuse(&self) {
        self.fail(Fault::Words);
    }

    /// Adds a text.
    pub fn say(&self, text: &str) {
        let is_said = match self.text.try_borrow_mut() {
            Ok(mut all) => all.push_str(text).is_ok(),
            Err(_) => false,
        };
        if !is_said {
            self.fail(Fault::Memory);
        }
    }

    /// Adds a text that was made.
    pub fn tell(&self, text: Result<String, AllocError>) {
        match text {
            Ok(text) => self.say(&text),
            Err(_) => self.fail(Fault::Memory),
        }
    }

    /// What is done gives nothing but a fault.
    pub fn done<E: Into<Fault>>(&self, done: Result<(), E>) {
        if let Err(error) = done {
            self.fail(error.into());
        }
    }

    /// A list that was made, or an empty one.
    pub fn list<T: Drop, E: Into<Fault>>(&self, list: Result<Vec<T>, E>) -> Vec<T> {
        match list {
            Ok(list) => list,
            Err(error) => {
                self.fail(error.into());
                Vec::new(self.alloc)
            }
        }
    }

    /// What was made, or none.
    pub fn value<T: Drop, E: Into<Fault>>(&self, made: Result<T, E>) -> Option<T> {
        match made {
            Ok(value) => Some(value),
            Err(error) => {
                self.fail(error.into());
                None
            }
        }
    }

    /// A word as a text of its own.
    pub fn text(&self, word: &str) -> String {
        match String::from_str(self.alloc, word) {
            Ok(text) => text,
            Err(_) => {
                self.fail(Fault::Memory);
                String::new(self.alloc)
            }
        }
    }

    /// A count, in decimal digits.
    pub fn count(&self, word: &str) -> usize {
        match word.parse::<usize>() {
            Ok(count) => count,
            Err(_) => {
                self.refuse();
                0
            }
        }
    }

    /// A number of 64 bits.
    pub fn long(&self, word: &str) -> i64 {
        match word.parse::<i64>() {
            Ok(number) => number,
            Err(_) => {
                self.refuse();
                0
            }
        }
    }

    fn plain_number(&self, word: &str) -> i128 {
        match word.parse::<i128>() {
            Ok(number) => number,
            Err(_) => {
                self.refuse();
                0
            }
        }
    }

    /// A number, in decimal digits; or numbers of 32, 32 and 64 bits joined by slashes, from the lowest bits up.
    pub fn number(&self, word: &str) -> i128 {
        let Some((first, rest)) = word.split_once('/') else {
            return self.plain_number(word);
        };
        let (second, third) = rest.split_once('/').unwrap_or((rest, "0"));
        let low = self.plain_number(first) & 0xffff_ffff;
        let middle = self.plain_number(second) & 0xffff_ffff;
        let high = self.plain_number(third);
        low | middle.wrapping_shl(32) | high.wrapping_shl(64)
    }
}

/// The word at a place, or no character.
pub fn word<'a>(words: &'a [&'a str], at: usize) -> &'a str {
    match words.get(at) {
        Some(word) => *word,
        None => "",
    }
}

/// The words from a place on.
pub fn rest<'a>(words: &'a [&'a str], from: usize) -> &'a [&'a str] {
    if words.len() < from {
        &[]
    } else {
        &words[from..]
    }
}

/// The words in front of a word, and those behind it.
pub fn halves<'a>(words: &'a [&'a str], between: &str) -> (&'a [&'a str], &'a [&'a str]) {
    match words.iter().position(|word| *word == between) {
        Some(at) if at < words.len() => (&words[..at], &words[at + 1..]),
        _ => (words, &[]),
    }
}

/// The name and what stands in parentheses behind it.
pub fn parts(word: &str) -> (&str, &str) {
    match word.split_once('(') {
        Some((name, rest)) => match rest.split_once(')') {
            Some((inner, _)) => (name, inner),
            None => (name, rest),
        },
        None => (word, ""),
    }
}

fn listed(answer: &Answer, word: &str) -> Vec<i128> {
    let mut numbers = Vec::new(answer.alloc());
    for part in word.split(',') {
        let number = answer.number(part);
        answer.done(numbers.push(number));
    }
    numbers
}

fn the_same(answer: &Answer, one: &str, times: &str) -> Vec<i128> {
    let (one, times) = (answer.number(one), answer.count(times));
    let numbers = vec![in answer.alloc(); one; times];
    answer.list(numbers)
}

/// Numbers joined by commas, or one so many times, as `7*128`; `-` is none.
pub fn numbers(answer: &Answer, word: &str) -> Vec<i128> {
    if word == "-" {
        return Vec::new(answer.alloc());
    }
    match word.split_once('*') {
        Some((one, times)) => the_same(answer, one, times),
        None => listed(answer, word),
    }
}

/// Counts joined by commas; no character is none.
pub fn counts(answer: &Answer, word: &str) -> Vec<usize> {
    let mut counts = Vec::new(answer.alloc());
    if word.is_empty() {
        return counts;
    }
    for part in word.split(',') {
        let count = answer.count(part);
        answer.done(counts.push(count));
    }
    counts
}

/// Two numbers joined by a sign.
pub fn pair(answer: &Answer, word: &str, sign: char) -> (i64, i64) {
    let (first, second) = word.split_once(sign).unwrap_or(("", ""));
    (answer.long(first), answer.long(second))
}

/// The bytes of hex digits.
pub fn hex_bytes(answer: &Answer, word: &str) -> Vec<u8> {
    match decode(answer.alloc(), word) {
        Ok(bytes) => bytes,
        Err(_) => {
            answer.refuse();
            Vec::new(answer.alloc())
        }
    }
}

/// The same bytes so many times.
pub fn repeat(answer: &Answer, all: &mut Vec<u8>, bytes: &[u8], times: usize) {
    for _ in 0..times {
        answer.done(all.extend_from_slice(bytes));
    }
}

/// Adds the bytes of hex digits, or so many times, as `00*64`, or behind an apostrophe as they stand; of `-` none.
pub fn add_bytes(answer: &Answer, all: &mut Vec<u8>, word: &str) {
    if let Some(text) = word.strip_prefix('\'') {
        return answer.done(all.extend_from_slice(text.as_bytes()));
    }
    if word != "-" {
        let (digits, times) = word.split_once('*').unwrap_or((word, "1"));
        let bytes = hex_bytes(answer, digits);
        let times = answer.count(times);
        repeat(answer, all, &bytes, times);
    }
}

/// The bytes of a word.
pub fn bytes(answer: &Answer, word: &str) -> Vec<u8> {
    let mut all = Vec::new(answer.alloc());
    add_bytes(answer, &mut all, word);
    all
}

/// The bytes of several words, one behind another.
pub fn bytes_of(answer: &Answer, words: &[&str]) -> Vec<u8> {
    let mut all = Vec::new(answer.alloc());
    for word in words {
        add_bytes(answer, &mut all, *word);
    }
    all
}

/// Bits from the first row on, packed from the lowest bit of a byte up.
pub fn bits(answer: &Answer, word: &str) -> Vec<u8> {
    let mut packed = Vec::new(answer.alloc());
    let mut byte = 0u8;
    let mut mask = 1u8;
    for digit in word.bytes() {
        if digit == b'1' {
            byte |= mask;
        }
        mask = mask.rotate_left(1);
        if mask == 1 {
            answer.done(packed.push(byte));
            byte = 0;
        }
    }
    answer.done(packed.push(byte));
    packed
}
