//! Two files of the same fields that become one stream.
use arrow_ipc::io::ipc::{IpcError, concat};
use arrow_ipc::io::{MemorySink, MemorySource};
use std::alloc::Global;

/// The stream of the batches of one file and then of the other, in memory.
pub(crate) fn joined(alloc: Global, one: Vec<u8>, other: Vec<u8>) -> Result<MemorySink, IpcError> {
    let mut files = [
        MemorySource::new(one, Vec::new(alloc), Vec::new(alloc)),
        MemorySource::new(other, Vec::new(alloc), Vec::new(alloc)),
    ];
    let mut sink = MemorySink::new(alloc, None, Vec::new(alloc));
    concat(alloc, &mut files, &mut sink)?;
    Ok(sink)
}
