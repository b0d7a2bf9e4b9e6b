//! Streams that are read one record batch after another and written again.
use crate::again::writers::{Heading, HeadingPairs, stream_writer};
use arrow_ipc::io::ipc::IpcError;
use arrow_ipc::io::ipc::read::{StreamMetadata, StreamReader, StreamState, read_stream_metadata};
use arrow_ipc::io::ipc::write::StreamWriter;
use arrow_ipc::io::{MemoryFeed, MemorySink};
use arrow_ipc::record_batch::RecordBatch;
use std::alloc::Global;

fn heading_of(metadata: StreamMetadata) -> Heading {
    Heading {
        schema: metadata.schema,
        fields: metadata.ipc_schema.fields,
        pairs: HeadingPairs {
            schema: metadata.custom_schema_metadata,
            own: metadata.custom_metadata,
        },
    }
}

fn batch_in(state: StreamState) -> Option<RecordBatch> {
    match state {
        StreamState::Waiting => None,
        StreamState::Some(batch) => Some(batch),
    }
}

/// The next record batch, or none where the stream ends or has too few bytes for a message to begin.
pub(crate) fn next_batch(
    reader: &mut StreamReader<MemoryFeed>,
) -> Result<Option<RecordBatch>, IpcError> {
    match reader.next() {
        None => Ok(None),
        Some(answer) => {
            let state = answer?;
            Ok(batch_in(state))
        }
    }
}

/// Writes the record batches that a stream has left.
pub(crate) fn write_batches(
    reader: &mut StreamReader<MemoryFeed>,
    writer: &mut StreamWriter<MemorySink>,
) -> Result<(), IpcError> {
    for _ in 0..u64::MAX {
        match next_batch(reader)? {
            Some(batch) => writer.write(&batch, None)?,
            None => return Ok(()),
        }
    }
    Ok(())
}

/// A stream with the same batches, ids and pairs.
pub(crate) fn stream_again(alloc: Global, bytes: Vec<u8>) -> Result<MemorySink, IpcError> {
    let mut feed = MemoryFeed::new(bytes, 65_536, Vec::new(alloc));
    let metadata = read_stream_metadata(alloc, &mut feed)?;
    let heading = heading_of(metadata.try_clone(alloc)?);
    let mut reader = StreamReader::new(alloc, feed, metadata, None)?;
    let mut writer = stream_writer(alloc, heading, true)?;
    write_batches(&mut reader, &mut writer)?;
    writer.finish()?;
    Ok(writer.into_inner())
}
