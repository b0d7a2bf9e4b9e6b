//! Batches as text.
use arrow_arrays::{Array, DictionaryArray, RecordBatch};
use device_words::{Answer, is_valid_at};
use ipc_tool::IpcError;
use std::str::from_utf8;

/// The text of a row of a dictionary of texts.
fn text_of(array: &DictionaryArray, row: usize) -> Option<&[u8]> {
    if row >= array.len() || !is_valid_at(array.validity(), row) {
        return None;
    }
    let (part, place) = array.index(row);
    match array.parts().get(part) {
        Some(Array::Utf8(texts)) if place < texts.len() => Some(texts.value(place)),
        _ => None,
    }
}

/// The text of a row of a dictionary of structs of one dictionary of texts.
fn inner_text(array: &DictionaryArray, row: usize) -> Option<&[u8]> {
    if row >= array.len() || !is_valid_at(array.validity(), row) {
        return None;
    }
    let (part, place) = array.index(row);
    let Some(Array::Struct(values)) = array.parts().get(part) else {
        return None;
    };
    match values.values() {
        [Array::Dictionary(texts)] => text_of(texts, place),
        _ => None,
    }
}

fn say_text(answer: &Answer, bytes: Option<&[u8]>) {
    match bytes {
        Some(bytes) => answer.say(from_utf8(bytes).unwrap_or("?")),
        None => answer.say("null"),
    }
}

fn say_number(answer: &Answer, is_valid: bool, number: i64) {
    if is_valid {
        answer.tell(format!(in answer.alloc(); "{number}"));
    } else {
        answer.say("null");
    }
}

/// A row of numbers, of texts by key, or of texts by key by key.
fn say_row(answer: &Answer, column: &Array, row: usize) {
    match column {
        Array::Int32(numbers) if row < numbers.len() => {
            let is_valid = is_valid_at(numbers.validity(), row);
            say_number(answer, is_valid, i64::from(numbers.value(row)))
        }
        Array::Int64(numbers) if row < numbers.len() => {
            let is_valid = is_valid_at(numbers.validity(), row);
            say_number(answer, is_valid, numbers.value(row))
        }
        Array::Dictionary(keys) => match inner_text(keys, row) {
            Some(bytes) => say_text(answer, Some(bytes)),
            None => say_text(answer, text_of(keys, row)),
        },
        _ => answer.say("?"),
    }
}

/// How many rows a batch has, those of its first column, and how many pairs.
fn say_batch(answer: &Answer, batch: &RecordBatch) {
    let rows = batch.height();
    answer.tell(format!(in answer.alloc(); "{rows} rows"));
    if let Some(column) = batch.arrays().first() {
        for row in 0..column.len() {
            answer.say(" ");
            say_row(answer, column, row);
        }
    }
    if let Some(pairs) = batch.custom_metadata() {
        let count = pairs.len();
        answer.tell(format!(in answer.alloc(); ", {count} pairs"));
    }
}

/// What a reader's next call gave.
pub(crate) fn say_next(answer: &Answer, next: Option<Result<RecordBatch, IpcError>>) {
    match next {
        None => answer.say("end"),
        Some(Err(error)) => answer.tell(format!(in answer.alloc(); "{error}")),
        Some(Ok(batch)) => say_batch(answer, &batch),
    }
}
