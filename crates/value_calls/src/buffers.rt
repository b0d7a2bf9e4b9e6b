//! Bitmaps, and buffers in shared bytes.
use arrow_buffers::{Bitmap, Buffer};
use case_words::{Answer, bitmap, bytes, say_bytes, word};
use std::rc::RcSlice;

/// `BITS FROM ROWS`: so many bits of these from one on.
pub(crate) fn some_bits(answer: &Answer, words: &[&str]) -> Option<Bitmap> {
    let (from, rows) = (answer.count(word(words, 1)), answer.count(word(words, 2)));
    let bits = bitmap(answer, word(words, 0))?;
    if bits.len() < from || bits.len() - from < rows {
        return None;
    }
    Some(bits.sliced(from, rows))
}

/// The bits, and how many of them are not set.
fn say_bits(answer: &Answer, bits: &Bitmap) {
    for i in 0..bits.len() {
        answer.say(if bits.get(i) { "1" } else { "0" });
    }
    let unset = bits.unset_bits();
    answer.tell(format!(in answer.alloc(); " {unset} unset"));
}

/// `shared ORDER HEX AT COUNT`: so many numbers of 16 bits.
fn shared(answer: &Answer, words: &[&str]) -> Option<Buffer<u16>> {
    let (at, count) = (answer.count(word(words, 2)), answer.count(word(words, 3)));
    let bytes = answer.value(RcSlice::from_vec(bytes(answer, word(words, 1))))?;
    if bytes.len() < at || (bytes.len() - at) / 2 < count {
        return None;
    }
    Some(Buffer::shared(bytes, at, count, word(words, 0) == "big"))
}

/// The bytes as they are held, where that is in this order.
fn say_held(answer: &Answer, numbers: &Buffer<u16>, is_big: bool) {
    match numbers.held_in(is_big) {
        Some(bytes) => say_bytes(answer, bytes),
        None => answer.say("otherwise"),
    }
}

/// The numbers, and how they are held in both orders.
fn say_numbers(answer: &Answer, numbers: &Buffer<u16>) {
    let listed = numbers.to_vec(answer.alloc());
    for number in &answer.list(listed) {
        answer.tell(format!(in answer.alloc(); "{number} "));
    }
    answer.say("little ");
    say_held(answer, numbers, false);
    answer.say(" big ");
    say_held(answer, numbers, true);
}

/// Makes a call of this part, or tells that there is none of the name.
pub fn call(answer: &Answer, name: &str, words: &[&str]) -> bool {
    match name {
        "bits" => match some_bits(answer, words) {
            Some(bits) => say_bits(answer, &bits),
            None => answer.refuse(),
        },
        "shared" => match shared(answer, words) {
            Some(numbers) => say_numbers(answer, &numbers),
            None => answer.refuse(),
        },
        _ => return false,
    }
    true
}
