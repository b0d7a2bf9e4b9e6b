//! Batches.
use arrow_arrays::{Array, RecordBatch};
use case_types::{Answer, schema_of};
use std::rc::Rc;

/// The batch of so many rows of these fields and arrays, or none, of which the answer has the reason.
pub fn batch_of(
    answer: &Answer,
    rows: usize,
    words: &[&str],
    arrays: Vec<Array>,
) -> Option<RecordBatch> {
    let schema = Rc::new(answer.alloc(), schema_of(answer, words));
    match answer.value(schema) {
        Some(schema) => answer.value(RecordBatch::try_new(rows, schema, arrays)),
        None => None,
    }
}
