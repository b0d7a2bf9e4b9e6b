//! Arrays: their parts, their rows and their equality.
use arrow_arrays::{Array, is_carried, new_empty_array};
use case_words::{Answer, array_of, keep, part, say_cells, say_rows, say_same, type_of, word};

/// `empty TYPE`: the array of no rows, where there is one, and whether it has another type.
fn empty(answer: &Answer, arrays: &mut Vec<Array>, words: &[&str]) {
    let dtype = type_of(answer, words);
    if !is_carried(&dtype) {
        return answer.say("not carried");
    }
    let made = answer.value(new_empty_array(answer.alloc(), dtype));
    match &made {
        Some(array) if *array.dtype() != type_of(answer, words) => answer.say("another type"),
        _ => keep(answer, arrays, made),
    }
}

/// The child or the part of values at a place.
fn child_of(array: &Array, at: usize) -> Option<&Array> {
    match array {
        Array::List(array) => Some(array.values()),
        Array::FixedSizeList(array) => Some(array.values()),
        Array::Map(array) => Some(array.field()),
        Array::Struct(array) => array.values().get(at),
        Array::Union(array) => array.fields().get(at),
        Array::Dictionary(array) => array.parts().get(at),
        _ => None,
    }
}

/// A copy of the last array, or of the child `AT` of it.
fn copied(answer: &Answer, arrays: &[Array], words: &[&str]) -> Option<Array> {
    let last = arrays.last()?;
    let copied = match words.first() {
        Some(word) => child_of(last, answer.count(*word))?,
        None => last,
    };
    answer.value(copied.try_clone(answer.alloc()))
}

/// The last array is no more.
fn forget(answer: &Answer, arrays: &mut Vec<Array>) {
    if arrays.pop().is_none() {
        answer.refuse();
    }
}

/// `rows`, and `cells`, which has also what is held under nulls.
fn say_last(answer: &Answer, arrays: &[Array], name: &str) {
    answer.say(name);
    match arrays.last() {
        Some(array) if name == "rows" => say_rows(answer, array),
        Some(array) => say_cells(answer, array),
        None => answer.refuse(),
    }
}

/// Keeps an array that a call makes; `part FROM ROWS` makes one of the last one, in its place.
fn make(answer: &Answer, arrays: &mut Vec<Array>, name: &str, words: &[&str]) {
    let made = match name {
        "array" => array_of(answer, arrays, words),
        "part" => {
            let (from, rows) = (answer.count(word(words, 0)), answer.count(word(words, 1)));
            part(arrays, from, rows)
        }
        _ => copied(answer, arrays, words),
    };
    keep(answer, arrays, made);
}

/// Makes a call of this part, or tells that there is none of the name.
pub fn call(answer: &Answer, arrays: &mut Vec<Array>, name: &str, words: &[&str]) -> bool {
    match name {
        "array" | "part" | "copy" | "child" => make(answer, arrays, name, words),
        "empty" => empty(answer, arrays, words),
        "rows" | "cells" => say_last(answer, arrays, name),
        "same" => say_same(answer, arrays.as_slice()),
        "forget" => forget(answer, arrays),
        _ => return false,
    }
    true
}
