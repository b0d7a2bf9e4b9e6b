//! The arrays of a case, the last made last.
use crate::shown::say_counts;
use arrow_arrays::Array;
use case_types::Answer;

/// Keeps an array that was made, and tells its rows.
pub fn keep(answer: &Answer, arrays: &mut Vec<Array>, made: Option<Array>) {
    match made {
        Some(array) => {
            say_counts(answer, &array);
            answer.done(arrays.push(array));
        }
        None => answer.refuse(),
    }
}

/// So many rows of the last array from one on.
pub fn part(arrays: &mut Vec<Array>, from: usize, rows: usize) -> Option<Array> {
    let array = arrays.pop()?;
    if array.len() < from || array.len() - from < rows {
        return None;
    }
    Some(array.sliced(from, rows))
}

/// Tells whether the last two are equal.
pub fn say_same<T: PartialEq>(answer: &Answer, all: &[T]) {
    match all {
        [.., one, other] => answer.say(if one == other { "same" } else { "other" }),
        _ => answer.refuse(),
    }
}
