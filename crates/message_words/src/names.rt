//! Bytes under names.
use case_words::{Answer, add_bytes, rest, word};
use std::alloc::Global;

#[derive(Drop)]
struct Named {
    name: String,
    bytes: Vec<u8>,
}

/// Bytes under names, for the rest of a case.
#[derive(Drop)]
pub struct Names {
    held: Vec<Named>,
}

impl Names {
    /// No name.
    pub fn new(alloc: Global) -> Names {
        Names {
            held: Vec::new(alloc),
        }
    }

    fn get(&self, name: &str) -> Option<&[u8]> {
        for named in &self.held {
            if named.name.as_str() == name {
                return Some(named.bytes.as_slice());
            }
        }
        None
    }

    /// The bytes of names and of hex digits, one behind the other.
    pub fn bytes_of(&self, answer: &Answer, words: &[&str]) -> Vec<u8> {
        let mut all = Vec::new(answer.alloc());
        for word in words {
            match self.get(*word) {
                Some(bytes) => answer.done(all.extend_from_slice(bytes)),
                None => add_bytes(answer, &mut all, *word),
            }
        }
        all
    }

    /// `name NAME PARTS`, and how many bytes they are.
    pub fn put(&mut self, answer: &Answer, words: &[&str]) {
        let bytes = self.bytes_of(answer, rest(words, 1));
        let length = bytes.len();
        answer.tell(format!(in answer.alloc(); "{length} bytes"));
        let name = answer.text(word(words, 0));
        answer.done(self.held.push(Named { name, bytes }));
    }
}
