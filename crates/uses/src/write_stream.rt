//! A record batch that is written as a stream.
use crate::write_batch::batch_of;
use arrow_ipc::datatypes::ArrowSchema;
use arrow_ipc::io::MemorySink;
use arrow_ipc::io::ipc::IpcError;
use arrow_ipc::io::ipc::write::{StreamWriter, WriteOptions};
use std::alloc::Global;

/// A writer of a stream in memory that is begun with a schema.
pub(crate) fn stream_writer(
    alloc: Global,
    schema: &ArrowSchema,
) -> Result<StreamWriter<MemorySink>, IpcError> {
    let sink = MemorySink::new(alloc, None, Vec::new(alloc));
    let mut writer = StreamWriter::new(alloc, sink, WriteOptions::default())?;
    writer.start(schema, None)?;
    Ok(writer)
}

/// A stream of one batch of numbers, in memory.
pub(crate) fn stream_of_numbers(alloc: Global, numbers: &[i32]) -> Result<MemorySink, IpcError> {
    let batch = batch_of(alloc, numbers)?;
    let mut writer = stream_writer(alloc, batch.schema())?;
    writer.write(&batch, None)?;
    writer.finish()?;
    Ok(writer.into_inner())
}
