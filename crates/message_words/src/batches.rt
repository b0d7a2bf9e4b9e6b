//! Arrays and batches as words.
use crate::keyed::{keyed, nested};
use crate::options::{behind, front};
use arrow_arrays::{Array, RecordBatch};
use case_words::{Answer, array_of, batch_of, halves, rest, word};
use std::mem;

/// The array of the last of some lines, over those of the lines before it.
fn array_of_lines(answer: &Answer, arrays: &mut Vec<Array>, lines: &[String]) -> Option<Array> {
    for line in lines {
        let words = answer.list(line.split_whitespace().collect(answer.alloc()));
        let array = array_of(answer, arrays, words.as_slice())?;
        answer.done(arrays.push(array));
    }
    arrays.pop()
}

/// The array of `TYPE | PARTS`, `| keyed ROWS TEXTS ..` or `| nested TEXTS/ROWS ..`, in front of `ids`, or none, of which the answer has
/// the reason.
pub fn any_array(answer: &Answer, arrays: &mut Vec<Array>, words: &[&str]) -> Option<Array> {
    let (words, _) = halves(words, "ids");
    let (_, parts) = halves(words, "|");
    let mut lines = Vec::new(answer.alloc());
    match word(parts, 0) {
        "keyed" => keyed(answer, &mut lines, word(parts, 1), rest(parts, 2)),
        "nested" => nested(answer, &mut lines, rest(parts, 1)),
        _ => return array_of(answer, arrays, words),
    }
    array_of_lines(answer, arrays, &lines)
}

/// The batch of `FIELDS | PARTS`, or of `FIELDS` over all arrays that were made, or none, of which the answer has the reason. No array
/// is left.
pub fn any_batch(answer: &Answer, arrays: &mut Vec<Array>, words: &[&str]) -> Option<RecordBatch> {
    if !behind(words, "|").is_empty() {
        let array = any_array(answer, arrays, words)?;
        arrays.clear();
        answer.done(arrays.push(array));
    }
    let rows = match arrays.first() {
        Some(column) => column.len(),
        None => 0,
    };
    let columns = mem::replace(arrays, Vec::new(answer.alloc()));
    batch_of(answer, rows, front(words), columns)
}
