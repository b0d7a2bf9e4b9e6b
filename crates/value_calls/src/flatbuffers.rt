//! Flatbuffers as they are read.
use arrow_flat::{ChoiceWidth, Flat, FlatError, Table};
use case_words::{Answer, bytes, bytes_of, repeat, rest, say_bytes, word};

/// `change AT HEX`: other bytes at a place.
fn change(answer: &Answer, held: &mut [u8], words: &[&str]) {
    let changed = bytes(answer, word(words, 1));
    match held.get_mut(answer.count(word(words, 0))..) {
        Some(held) => {
            for (old, new) in held.iter_mut().zip(changed.iter()) {
                *old = *new;
            }
        }
        None => answer.refuse(),
    }
}

/// `more TIMES HEX`: the same bytes so many times.
fn more(answer: &Answer, held: &mut Vec<u8>, words: &[&str]) {
    let bytes = bytes_of(answer, rest(words, 1));
    let times = answer.count(word(words, 0));
    repeat(answer, held, &bytes, times);
}

/// `falling COUNT LAST`: so many numbers of 32 bits, each 4 below the one before it, down to the last one.
fn falling(answer: &Answer, held: &mut Vec<u8>, words: &[&str]) {
    let last = answer.count(word(words, 1));
    for i in (0..answer.count(word(words, 0))).rev() {
        match u32::try_from(i.wrapping_mul(4).wrapping_add(last)) {
            Ok(number) => answer.done(held.extend_from_slice(&number.to_le_bytes())),
            Err(_) => answer.refuse(),
        }
    }
}

fn say_number<N: Copy + Into<i64>>(answer: &Answer, number: Result<N, FlatError>) {
    match number {
        Ok(number) => {
            let number: i64 = number.into();
            answer.tell(format!(in answer.alloc(); "{number}"));
        }
        Err(error) => answer.fail(error.into()),
    }
}

/// A number of a slot, of a kind, or the default.
fn scalar(answer: &Answer, table: &Table, kind: &str, slot: usize, words: &[&str]) {
    let default = answer.long(word(words, 0));
    let low = default.to_le_bytes();
    let two = [low[0], low[1]];
    let four = [low[0], low[1], low[2], low[3]];
    match kind {
        "u8" => say_number(answer, table.slot_u8(slot, low[0])),
        "i8" => say_number(answer, table.slot_i8(slot, low[0].cast_signed())),
        "i16" => say_number(answer, table.slot_i16(slot, i16::from_le_bytes(two))),
        "i32" => say_number(answer, table.slot_i32(slot, i32::from_le_bytes(four))),
        "i64" => say_number(answer, table.slot_i64(slot, default)),
        "bool" => say_number(answer, table.slot_bool(slot, default != 0)),
        _ => answer.refuse(),
    }
}

/// A listed number of a slot, behind its default and how many are listed.
fn choice(answer: &Answer, table: &Table, width: ChoiceWidth, slot: usize, words: &[&str]) {
    let (default, listed) = (answer.count(word(words, 0)), answer.count(word(words, 1)));
    match (u16::try_from(default), u16::try_from(listed)) {
        (Ok(default), Ok(listed)) => {
            say_number(answer, table.slot_choice(slot, width, default, listed))
        }
        _ => answer.refuse(),
    }
}

/// The number of 8 bits at a slot of the table at a slot, or 7.
fn inner(answer: &Answer, table: &Table, slot: usize, words: &[&str]) {
    let inner = answer.count(word(words, 0));
    match table.slot_table(slot) {
        Ok(Some(table)) => say_number(answer, table.slot_u8(inner, 7)),
        Ok(None) => answer.say("none"),
        Err(error) => answer.fail(error.into()),
    }
}

/// How many items of a width the vector at a slot has.
fn items(answer: &Answer, table: &Table, slot: usize, words: &[&str]) {
    match table.slot_vector(slot, answer.count(word(words, 0))) {
        Ok(Some(vector)) => {
            let count = vector.len();
            answer.tell(format!(in answer.alloc(); "{count}"));
        }
        Ok(None) => answer.say("none"),
        Err(error) => answer.fail(error.into()),
    }
}

/// The bytes of the first item of the vector at a slot.
fn item(answer: &Answer, table: &Table, slot: usize, words: &[&str]) {
    match table.slot_vector(slot, answer.count(word(words, 0))) {
        Ok(Some(vector)) if !vector.is_empty() => say_bytes(answer, vector.get(0)),
        Ok(_) => answer.say("none"),
        Err(error) => answer.fail(error.into()),
    }
}

/// The number of 8 bits at a slot of the first table of the vector at a slot, or 9.
fn first(answer: &Answer, table: &Table, slot: usize, words: &[&str]) {
    let inner = answer.count(word(words, 0));
    match table.slot_vector(slot, 4) {
        Ok(Some(vector)) if !vector.is_empty() => match vector.get_table(0) {
            Ok(table) => say_number(answer, table.slot_u8(inner, 9)),
            Err(error) => answer.fail(error.into()),
        },
        Ok(_) => answer.say("none"),
        Err(error) => answer.fail(error.into()),
    }
}

fn say_text(answer: &Answer, table: &Table, slot: usize) {
    match table.slot_text(slot) {
        Ok(text) => answer.say(text.unwrap_or("none")),
        Err(error) => answer.fail(error.into()),
    }
}

fn has(answer: &Answer, table: &Table, slot: usize) {
    match table.has_slot(slot) {
        Ok(has) => answer.say(if has { "true" } else { "false" }),
        Err(error) => answer.fail(error.into()),
    }
}

/// `slot KIND SLOT WORDS`.
fn slot(answer: &Answer, table: &Table, words: &[&str]) {
    let (kind, slot) = (word(words, 0), answer.count(word(words, 1)));
    let words = rest(words, 2);
    match kind {
        "text" => say_text(answer, table, slot),
        "has" => has(answer, table, slot),
        "choice" => choice(answer, table, ChoiceWidth::One, slot, words),
        "wide_choice" => choice(answer, table, ChoiceWidth::Two, slot, words),
        "table" => inner(answer, table, slot, words),
        "items" => items(answer, table, slot, words),
        "item" => item(answer, table, slot, words),
        "first" => first(answer, table, slot, words),
        _ => scalar(answer, table, kind, slot, words),
    }
}

/// `root`, and `slot` of it.
fn root(answer: &Answer, held: &[u8], words: &[&str]) {
    match Flat::root(held) {
        Ok(table) => {
            if !words.is_empty() {
                slot(answer, &table, words);
            }
        }
        Err(error) => answer.fail(error.into()),
    }
}

/// Makes a call of this part, or tells that there is none of the name. The bytes are those that were said last.
pub fn call(answer: &Answer, held: &mut Vec<u8>, name: &str, words: &[&str]) -> bool {
    match name {
        "bytes" => *held = bytes_of(answer, words),
        "more" => more(answer, held, words),
        "change" => change(answer, held, words),
        "falling" => falling(answer, held, words),
        "root" | "slot" => root(answer, held, words),
        _ => return false,
    }
    true
}
