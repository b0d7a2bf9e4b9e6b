//! Lists under names, and bytes as words say them.
use case_words::{Answer, add_bytes, hex_bytes, repeat, rest, word};
use hex::encode;
use std::alloc::Global;

#[derive(Drop)]
pub(crate) struct Named<T> {
    pub(crate) name: String,
    pub(crate) items: Vec<T>,
}

/// Lists under names.
pub struct Names<T> {
    pub(crate) held: Vec<Named<T>>,
}

impl<T: Drop> Drop for Names<T> {
    fn drop(self) {
        let Names { held } = self;
        drop(held);
    }
}

impl<T: Drop> Names<T> {
    /// No name has a list.
    pub fn new(alloc: Global) -> Names<T> {
        Names {
            held: Vec::new(alloc),
        }
    }

    /// The list under a name.
    pub(crate) fn get(&self, name: &str) -> Option<&[T]> {
        for named in &self.held {
            if named.name.as_str() == name {
                return Some(named.items.as_slice());
            }
        }
        None
    }

    /// Puts a list under a name, in front of one that stands there.
    pub(crate) fn put(&mut self, answer: &Answer, name: &str, items: Vec<T>) {
        let name = answer.text(name);
        answer.done(self.held.insert(0, Named { name, items }));
    }
}

/// A name's bytes, or those of hex digits.
fn plain(answer: &Answer, known: &Names<u8>, word: &str) -> Vec<u8> {
    match known.get(word) {
        Some(bytes) => answer.list(bytes.to_vec(answer.alloc())),
        None => hex_bytes(answer, word),
    }
}

/// Adds so many times the hex text of bytes.
fn add_text(answer: &Answer, bytes: &mut Vec<u8>, shown: &[u8], times: usize) {
    match encode(answer.alloc(), shown) {
        Ok(text) => repeat(answer, bytes, text.as_bytes(), times),
        Err(error) => answer.fail(error.into()),
    }
}

/// Adds what `WORD` or `WORD*N` says, or behind `@` its hex text.
fn add_piece(answer: &Answer, known: &Names<u8>, bytes: &mut Vec<u8>, word: &str) {
    let (word, times) = word.split_once('*').unwrap_or((word, "1"));
    let times = answer.count(times);
    match word.strip_prefix('@') {
        Some(word) => {
            let piece = plain(answer, known, word);
            add_text(answer, bytes, &piece, times);
        }
        None => {
            let piece = plain(answer, known, word);
            repeat(answer, bytes, &piece, times);
        }
    }
}

/// Other bytes from a place on; or as many bytes from the front as are said.
fn change(answer: &Answer, bytes: &mut Vec<u8>, place: &str, word: &str) {
    if place == "cut" {
        return bytes.truncate(answer.count(word));
    }
    let at = answer.count(place);
    let others = hex_bytes(answer, word);
    if at > bytes.len() || bytes.len() - at < others.len() {
        return answer.refuse();
    }
    let end = at + others.len();
    bytes[at..end].copy_from_slice(&others);
}

/// Adds what a word says: behind an apostrophe the text itself; `WORD*N` so many times the word; `AT=HEX` other bytes from a place on, in
/// what stands so far; `cut=N` so many bytes of it; or a piece.
pub fn add(answer: &Answer, known: &Names<u8>, bytes: &mut Vec<u8>, word: &str) {
    if word.starts_with('\'') {
        return add_bytes(answer, bytes, word);
    }
    match word.split_once('=') {
        Some((place, word)) => change(answer, bytes, place, word),
        None => add_piece(answer, known, bytes, word),
    }
}

/// The bytes that words say, one behind the other.
pub fn bytes_of(answer: &Answer, known: &Names<u8>, words: &[&str]) -> Vec<u8> {
    let mut bytes = Vec::new(answer.alloc());
    for word in words {
        add(answer, known, &mut bytes, *word);
    }
    bytes
}

impl Names<u8> {
    /// Whether a call is `bytes NAME WORD..`, which puts bytes under a name.
    pub fn know(&mut self, answer: &Answer, name: &str, words: &[&str]) -> bool {
        if name != "bytes" {
            return false;
        }
        let bytes = bytes_of(answer, self, rest(words, 1));
        self.put(answer, word(words, 0), bytes);
        true
    }
}
