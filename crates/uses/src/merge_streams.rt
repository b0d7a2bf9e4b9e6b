//! Two streams of one schema that become one.
use crate::again::write_batches;
use crate::write_stream::stream_writer;
use arrow_ipc::io::ipc::IpcError;
use arrow_ipc::io::ipc::read::{StreamReader, read_stream_metadata};
use arrow_ipc::io::{MemoryFeed, MemorySink};
use std::alloc::Global;

/// A reader of a stream in memory.
pub(crate) fn reader_of(
    alloc: Global,
    bytes: Vec<u8>,
) -> Result<StreamReader<MemoryFeed>, IpcError> {
    let mut feed = MemoryFeed::new(bytes, 65_536, Vec::new(alloc));
    let metadata = read_stream_metadata(alloc, &mut feed)?;
    Ok(StreamReader::new(alloc, feed, metadata, None)?)
}

/// The stream of the batches of one and then of the other.
pub(crate) fn merged(alloc: Global, one: Vec<u8>, other: Vec<u8>) -> Result<MemorySink, IpcError> {
    let (mut one, mut other) = (reader_of(alloc, one)?, reader_of(alloc, other)?);
    if **one.schema() != **other.schema() {
        return Err(IpcError::SchemaMismatch);
    }
    let mut writer = stream_writer(alloc, one.schema())?;
    write_batches(&mut one, &mut writer)?;
    write_batches(&mut other, &mut writer)?;
    writer.finish()?;
    Ok(writer.into_inner())
}
