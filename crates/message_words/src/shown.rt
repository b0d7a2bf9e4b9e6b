//! Rows as text, through dictionaries and structs of one column down to what they lead to.
use arrow_arrays::{Array, RecordBatch};
use arrow_types::Metadata;
use case_words::{Answer, is_valid_at, say_one};

/// What a row of a dictionary or of a struct of one column leads to.
fn below(array: &Array, row: usize) -> Option<(&Array, usize)> {
    match array {
        Array::Dictionary(array) if row < array.len() && is_valid_at(array.validity(), row) => {
            let (part, row) = array.index(row);
            match array.parts().get(part) {
                Some(part) => Some((part, row)),
                None => None,
            }
        }
        Array::Struct(array) => match array.values() {
            [column] => Some((column, row)),
            _ => None,
        },
        _ => None,
    }
}

/// What a row leads to in the end.
fn say_deepest(answer: &Answer, array: &Array, row: usize) {
    let mut place = (array, row);
    for _ in 0..64 {
        match below(place.0, place.1) {
            Some(next) => place = next,
            None => break,
        }
    }
    say_one(answer, place.0, place.1);
}

/// The rows of an array, in order.
pub fn say_values(answer: &Answer, array: &Array) {
    for row in 0..array.len() {
        answer.say(" ");
        say_deepest(answer, array, row);
    }
}

/// Pairs, or `none`.
pub fn say_pairs(answer: &Answer, pairs: Option<&Metadata>) {
    let Some(pairs) = pairs else {
        return answer.say("none");
    };
    let mut is_first = true;
    for (key, value) in pairs {
        if !is_first {
            answer.say(" ");
        }
        answer.tell(format!(in answer.alloc(); "{key}={value}"));
        is_first = false;
    }
}

/// The rows of a batch, the cells of each column, and the pairs of its message.
pub fn say_batch(answer: &Answer, batch: &RecordBatch) {
    let rows = batch.height();
    answer.tell(format!(in answer.alloc(); "{rows} rows"));
    for column in batch.arrays() {
        answer.say(":");
        say_values(answer, column);
    }
    if batch.custom_metadata().is_some() {
        answer.say(" with ");
        say_pairs(answer, batch.custom_metadata());
    }
}
