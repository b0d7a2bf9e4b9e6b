//! What is asked of bytes: `columns=LIST`, `limit=N` and `from=BLOCK` among the words of the bytes.
use device_words::{Answer, Names, add, counts};

/// What stands behind a name and an equals sign.
fn option<'a>(words: &'a [&'a str], name: &str) -> Option<&'a str> {
    for word in words {
        if let Some((found, value)) = word.split_once('=') {
            if found == name {
                return Some(value);
            }
        }
    }
    None
}

pub(crate) fn columns(answer: &Answer, words: &[&str]) -> Option<Vec<usize>> {
    match option(words, "columns") {
        Some(list) => Some(counts(answer, list)),
        None => None,
    }
}

pub(crate) fn limit(answer: &Answer, words: &[&str]) -> Option<usize> {
    match option(words, "limit") {
        Some(rows) => Some(answer.count(rows)),
        None => None,
    }
}

pub(crate) fn from(answer: &Answer, words: &[&str]) -> usize {
    match option(words, "from") {
        Some(block) => answer.count(block),
        None => 0,
    }
}

fn is_option(word: &str) -> bool {
    word.starts_with("columns=") || word.starts_with("limit=") || word.starts_with("from=")
}

/// The bytes of the other words.
pub(crate) fn bytes(answer: &Answer, known: &Names<u8>, words: &[&str]) -> Vec<u8> {
    let mut bytes = Vec::new(answer.alloc());
    for word in words {
        if !is_option(*word) {
            add(answer, known, &mut bytes, *word);
        }
    }
    bytes
}
