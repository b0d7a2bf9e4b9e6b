//! A stream of which some rows are kept, one record batch after another.
use crate::again::next_batch;
use crate::merge_streams::reader_of;
use crate::write_batch::batch_of;
use crate::write_stream::stream_writer;
use arrow_ipc::array::Array;
use arrow_ipc::io::MemorySink;
use arrow_ipc::io::ipc::IpcError;
use arrow_ipc::record_batch::{RecordBatch, column};
use std::alloc::Global;

fn at_least(alloc: Global, batch: &RecordBatch, limit: i32) -> Result<RecordBatch, IpcError> {
    let Some(Array::Int32(numbers)) = column(batch, "numbers") else {
        return Err(IpcError::SchemaMismatch);
    };
    let mut kept = Vec::new(alloc);
    for row in 0..numbers.len() {
        match numbers.get(row) {
            Some(number) if number >= limit => kept.push(number)?,
            _ => {}
        }
    }
    batch_of(alloc, kept.as_slice())
}

/// The stream of the rows whose number is at least a limit.
pub(crate) fn kept(alloc: Global, bytes: Vec<u8>, limit: i32) -> Result<MemorySink, IpcError> {
    let mut reader = reader_of(alloc, bytes)?;
    let mut writer = stream_writer(alloc, reader.schema())?;
    for _ in 0..u64::MAX {
        match next_batch(&mut reader)? {
            Some(batch) => writer.write(&at_least(alloc, &batch, limit)?, None)?,
            None => break,
        }
    }
    writer.finish()?;
    Ok(writer.into_inner())
}
