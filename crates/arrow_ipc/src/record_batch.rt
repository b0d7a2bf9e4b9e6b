//! Record batches: columns of one height under a schema.

pub use arrow_arrays::{BatchError, RecordBatch, RecordBatchT};
pub use arrow_columns::column;
