//! Dictionaries of texts of one byte each, in one part or in several, and dictionaries of structs of them, as lines of words, each of an
//! array over those before it.
use case_words::{Answer, word};
use std::alloc::AllocError;

/// The offsets of so many texts of one byte each.
const OFFSETS: &[&str] = &["0", "0,1", "0,1,2", "0,1,2,3"];

fn add(answer: &Answer, lines: &mut Vec<String>, line: Result<String, AllocError>) {
    if let Some(line) = answer.value(line) {
        answer.done(lines.push(line));
    }
}

/// Texts of one byte each, up to three; `-` is none of them.
fn texts(answer: &Answer, lines: &mut Vec<String>, text: &str) {
    let text = if text == "-" { "" } else { text };
    let offsets = word(OFFSETS, text.len());
    let line = format!(in answer.alloc(); "utf8 | texts {offsets} '{text}");
    add(answer, lines, line);
}

/// So many rows of the first text, over a part for each word.
pub(crate) fn keyed(answer: &Answer, lines: &mut Vec<String>, rows: &str, parts: &[&str]) {
    for text in parts {
        texts(answer, lines, *text);
    }
    let count = parts.len();
    let line = format!(in answer.alloc(); "dictionary(int32) utf8 | keys int32 0*{rows} {count}");
    add(answer, lines, line);
}

/// Structs of one column of so many rows of the first of some texts: `TEXTS/ROWS`.
fn structs(answer: &Answer, lines: &mut Vec<String>, word: &str) {
    let (text, rows) = word.split_once('/').unwrap_or(("", ""));
    keyed(answer, lines, rows, &[text]);
    let line = format!(in answer.alloc(); "struct(1) dictionary(int32) utf8 | structs {rows} 1");
    add(answer, lines, line);
}

/// A dictionary without rows of structs, a part for each word.
pub(crate) fn nested(answer: &Answer, lines: &mut Vec<String>, words: &[&str]) {
    for word in words {
        structs(answer, lines, *word);
    }
    let count = words.len();
    let line = format!(in answer.alloc();
        "dictionary(int32) struct(1) dictionary(int32) utf8 | keys int32 - {count}"
    );
    add(answer, lines, line);
}
