//! A record batch of a file, and a column of it.
use arrow_ipc::array::{Array, PrimitiveArray};
use arrow_ipc::io::MemorySource;
use arrow_ipc::io::ipc::IpcError;
use arrow_ipc::io::ipc::read::{Dictionaries, read_batch, read_file_metadata};
use arrow_ipc::record_batch::RecordBatch;
use std::alloc::Global;

/// The first record batch of a file, where it has one.
pub(crate) fn first_batch(
    alloc: Global,
    source: &mut MemorySource,
) -> Result<Option<RecordBatch>, IpcError> {
    let metadata = read_file_metadata(alloc, source)?;
    if metadata.blocks.is_empty() {
        return Ok(None);
    }
    let dictionaries = Dictionaries::new(alloc);
    let mut scratch = Vec::new(alloc);
    let batch = read_batch(
        alloc,
        source,
        &dictionaries,
        &metadata,
        None,
        None,
        0,
        &mut scratch,
    )?;
    Ok(Some(batch))
}

/// The rows of a column, of which some may be null.
fn rows_of(alloc: Global, numbers: &PrimitiveArray<i32>) -> Result<Vec<Option<i32>>, IpcError> {
    let mut rows = Vec::new(alloc);
    for row in 0..numbers.len() {
        rows.push(numbers.get(row))?;
    }
    Ok(rows)
}

/// The rows of a batch's first column, where that is one of 32-bit integers.
pub(crate) fn first_column(
    alloc: Global,
    batch: &RecordBatch,
) -> Result<Vec<Option<i32>>, IpcError> {
    match batch.arrays().first() {
        Some(Array::Int32(numbers)) => rows_of(alloc, numbers),
        _ => Ok(Vec::new(alloc)),
    }
}
