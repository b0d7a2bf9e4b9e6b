//! IPC fields as words.
use crate::options::{behind, front, has};
use case_words::{Answer, parts};
use ipc_fields::IpcField;

/// So many fields that were read last.
fn lasts(answer: &Answer, fields: &mut Vec<IpcField>, count: usize) -> Vec<IpcField> {
    let mut lasts = Vec::new(answer.alloc());
    for _ in 0..count {
        match fields.pop() {
            Some(field) => answer.done(lasts.push(field)),
            None => answer.refuse(),
        }
    }
    lasts
}

/// An id, or `-`, and in parentheses how many of the words behind it are below it.
fn put_field(answer: &Answer, fields: &mut Vec<IpcField>, word: &str) {
    let (id, below) = parts(word);
    let below = if below.is_empty() {
        0
    } else {
        answer.count(below)
    };
    let dictionary_id = if id == "-" {
        None
    } else {
        Some(answer.long(id))
    };
    let field = IpcField {
        fields: lasts(answer, fields, below),
        dictionary_id,
    };
    answer.done(fields.push(field));
}

/// The IPC fields behind `ids`, each in front of what is below it: `0(1) 1`.
pub fn ids_of(answer: &Answer, words: &[&str]) -> Option<Vec<IpcField>> {
    if !has(words, "ids") {
        return None;
    }
    let mut fields = Vec::new(answer.alloc());
    for word in front(behind(words, "ids")).iter().rev() {
        put_field(answer, &mut fields, *word);
    }
    fields.reverse();
    Some(fields)
}
