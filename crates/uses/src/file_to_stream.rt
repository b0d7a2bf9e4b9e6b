//! A file that is sent as a stream.
use arrow_ipc::io::ipc::{IpcError, transcode};
use arrow_ipc::io::{MemorySink, MemorySource};
use std::alloc::Global;

/// The stream that means what a file means, in memory.
pub(crate) fn stream_of(alloc: Global, source: &mut MemorySource) -> Result<MemorySink, IpcError> {
    let mut sink = MemorySink::new(alloc, None, Vec::new(alloc));
    transcode(alloc, source, &mut sink, None, None)?;
    Ok(sink)
}
