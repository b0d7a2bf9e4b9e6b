//! Batches, and columns in the order asked.
use crate::types::{pairs_of, say_names};
use arrow_arrays::{Array, RecordBatch};
use case_words::{Answer, batch_of, counts, rest, say_same, word};
use ipc_projection::{ProjectionInfo, apply_projection, prepare_projection};
use std::mem;

/// Tells a batch's rows, columns and fields, and how many pairs it has.
fn say_batch(answer: &Answer, batch: &RecordBatch) {
    let (rows, width) = (batch.len(), batch.width());
    let (columns, fields) = (batch.columns().len(), batch.schema().len());
    let pairs = batch.custom_metadata().map_or(0, |pairs| pairs.len());
    answer.say(if batch.is_empty() {
        "no row: "
    } else {
        "rows: "
    });
    answer.tell(format!(in answer.alloc();
        "{rows} x {width}, {columns} columns, {fields} fields, {pairs} pairs"
    ));
}

/// Keeps a batch that was made.
fn keep(answer: &Answer, batches: &mut Vec<RecordBatch>, made: Option<RecordBatch>) {
    match made {
        Some(batch) => {
            say_batch(answer, &batch);
            answer.done(batches.push(batch));
        }
        None => answer.refuse(),
    }
}

/// `batch ROWS FIELDS`: the batch of all arrays.
fn batch(answer: &Answer, arrays: &mut Vec<Array>, words: &[&str]) -> Option<RecordBatch> {
    let rows = answer.count(word(words, 0));
    let columns = mem::replace(arrays, Vec::new(answer.alloc()));
    batch_of(answer, rows, rest(words, 1), columns)
}

/// The columns of the last batch, as arrays.
fn columns(answer: &Answer, arrays: &mut Vec<Array>, batches: &mut Vec<RecordBatch>) {
    match batches.pop() {
        Some(batch) => {
            *arrays = batch.into_arrays();
            let count = arrays.len();
            answer.tell(format!(in answer.alloc(); "{count} arrays"));
        }
        None => answer.refuse(),
    }
}

fn copy(answer: &Answer, batches: &[RecordBatch]) -> Option<RecordBatch> {
    answer.value(batches.last()?.try_clone(answer.alloc()))
}

/// `pairs KEY=VALUE ..` are put on the last batch.
fn mark(answer: &Answer, batches: &mut Vec<RecordBatch>, words: &[&str]) -> Option<RecordBatch> {
    let batch = batches.pop()?;
    let pairs = pairs_of(answer, words);
    if pairs.len() > 1_048_576 {
        return None;
    }
    Some(batch.with_custom_metadata(pairs))
}

/// The columns of these numbers, or of `-` none.
fn columns_asked(answer: &Answer, words: &[&str]) -> Vec<usize> {
    match word(words, 0) {
        "-" => Vec::new(answer.alloc()),
        word => counts(answer, word),
    }
}

fn say_projection(answer: &Answer, projection: &ProjectionInfo) {
    answer.say("columns");
    for column in &projection.columns {
        answer.tell(format!(in answer.alloc(); " {column}"));
    }
    answer.say(", to");
    for (from, to) in projection.map.iter() {
        answer.tell(format!(in answer.alloc(); " {from}>{to}"));
    }
    answer.say(", ");
    say_names(answer, &projection.schema);
}

/// `project COLUMNS` of the last batch: what is prepared, by a copy of it.
fn project(answer: &Answer, batches: &[RecordBatch], words: &[&str]) {
    let asked = columns_asked(answer, words);
    let Some(batch) = batches.last() else {
        return answer.refuse();
    };
    let prepared = answer.value(prepare_projection(answer.alloc(), batch.schema(), asked));
    if let Some(projection) = prepared {
        if let Some(copy) = answer.value(projection.try_clone(answer.alloc())) {
            say_projection(answer, &copy);
        }
    }
}

/// `select COLUMNS`, which are all those of the last batch: it has them in this order.
fn select(answer: &Answer, batches: &mut Vec<RecordBatch>, words: &[&str]) -> Option<RecordBatch> {
    let asked = columns_asked(answer, words);
    let batch = batches.pop()?;
    if batch.schema().len() != asked.len() {
        return None;
    }
    match prepare_projection(answer.alloc(), batch.schema(), asked) {
        Ok(projection) => answer.value(apply_projection(answer.alloc(), batch, &projection.map)),
        Err(error) => {
            answer.fail(error.into());
            None
        }
    }
}

/// The calls that make no batch.
fn look(
    answer: &Answer,
    arrays: &mut Vec<Array>,
    batches: &mut Vec<RecordBatch>,
    name: &str,
    words: &[&str],
) -> bool {
    match name {
        "columns" => columns(answer, arrays, batches),
        "batch_same" => say_same(answer, batches.as_slice()),
        "project" => project(answer, batches, words),
        _ => return false,
    }
    true
}

/// Makes a call of this part, or tells that there is none of the name.
pub fn call(
    answer: &Answer,
    arrays: &mut Vec<Array>,
    batches: &mut Vec<RecordBatch>,
    name: &str,
    words: &[&str],
) -> bool {
    let made = match name {
        "batch" => batch(answer, arrays, words),
        "batch_copy" => copy(answer, batches),
        "pairs" => mark(answer, batches, words),
        "select" => select(answer, batches, words),
        _ => return look(answer, arrays, batches, name, words),
    };
    keep(answer, batches, made);
    true
}
