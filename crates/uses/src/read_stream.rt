//! A stream that is read, one record batch after another.
use arrow_ipc::io::MemoryFeed;
use arrow_ipc::io::ipc::IpcError;
use arrow_ipc::io::ipc::read::{StreamReader, StreamState, read_stream_metadata};
use std::alloc::Global;

/// The rows of what was read: of a batch, or none where the stream has nothing more yet.
fn height_of(state: StreamState) -> usize {
    match state {
        StreamState::Waiting => 0,
        StreamState::Some(batch) => {
            let height = batch.height();
            drop(batch);
            height
        }
    }
}

/// The rows of the first record batch of a stream, where it has one.
pub(crate) fn first_height(alloc: Global, bytes: Vec<u8>) -> Result<Option<usize>, IpcError> {
    let mut feed = MemoryFeed::new(bytes, 65_536, Vec::new(alloc));
    let metadata = read_stream_metadata(alloc, &mut feed)?;
    let mut reader = StreamReader::new(alloc, feed, metadata, None)?;
    match reader.next() {
        Some(Ok(state)) => Ok(Some(height_of(state))),
        Some(Err(error)) => Err(error),
        None => Ok(None),
    }
}
