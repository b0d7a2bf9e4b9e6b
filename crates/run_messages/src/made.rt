//! Bytes under names, arrays and batches.
use arrow_arrays::{Array, RecordBatch};
use case_words::{Answer, keep};
use message_words::{Names, any_array, any_batch};
use std::alloc::Global;

#[derive(Drop)]
pub(crate) struct Made {
    /// Arrays, the last made last.
    pub(crate) arrays: Vec<Array>,
    /// The batch that was written or made last.
    pub(crate) batch: Option<RecordBatch>,
}

impl Made {
    pub(crate) fn new(alloc: Global) -> Made {
        Made {
            arrays: Vec::new(alloc),
            batch: None,
        }
    }
}

/// Makes the batch of `FIELDS | PARTS`, in the place of the one before.
pub(crate) fn make_batch(answer: &Answer, made: &mut Made, words: &[&str]) {
    if let Some(batch) = any_batch(answer, &mut made.arrays, words) {
        made.batch = Some(batch);
    }
}

fn say_batch_rows(answer: &Answer, batch: &Option<RecordBatch>) {
    if let Some(batch) = batch {
        let rows = batch.height();
        answer.tell(format!(in answer.alloc(); "{rows} rows"));
    }
}

fn make_array(answer: &Answer, arrays: &mut Vec<Array>, words: &[&str]) {
    let array = any_array(answer, arrays, words);
    keep(answer, arrays, array);
}

/// Makes the call of a name, if it is one of these.
pub(crate) fn call(
    answer: &Answer,
    names: &mut Names,
    made: &mut Made,
    name: &str,
    words: &[&str],
) -> bool {
    match name {
        "name" => names.put(answer, words),
        "array" => make_array(answer, &mut made.arrays, words),
        "batch" => {
            make_batch(answer, made, words);
            say_batch_rows(answer, &made.batch);
        }
        _ => return false,
    }
    true
}
