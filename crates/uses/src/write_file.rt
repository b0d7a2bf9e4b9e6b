//! A record batch that is written as a file.
use crate::write_batch::batch_of;
use arrow_ipc::io::MemorySink;
use arrow_ipc::io::ipc::IpcError;
use arrow_ipc::io::ipc::write::{FileWriter, WriteOptions};
use arrow_ipc::record_batch::RecordBatch;
use std::alloc::Global;

/// A file of one batch, in memory.
pub(crate) fn file_of(alloc: Global, batch: &RecordBatch) -> Result<MemorySink, IpcError> {
    let sink = MemorySink::new(alloc, None, Vec::new(alloc));
    let schema = batch.schema().clone()?;
    let mut writer = FileWriter::try_new(alloc, sink, schema, None, WriteOptions::default())?;
    writer.write(batch, None)?;
    writer.finish()?;
    Ok(writer.into_inner())
}

/// A file of one batch of numbers, in memory.
pub(crate) fn file_of_numbers(alloc: Global, numbers: &[i32]) -> Result<MemorySink, IpcError> {
    file_of(alloc, &batch_of(alloc, numbers)?)
}
