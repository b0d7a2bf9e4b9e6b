//! The rows of a file in which a number is at least another, as a stream.
use arrow_ipc::io::ipc::{Filter, FilterOp, IpcError, scan};
use arrow_ipc::io::{MemorySink, MemorySource};
use std::alloc::Global;

/// The stream of the rows whose first column is at least a number, in memory.
pub(crate) fn rows_at_least(
    alloc: Global,
    source: &mut MemorySource,
    number: i128,
) -> Result<MemorySink, IpcError> {
    let filter = Filter {
        column: 0,
        op: FilterOp::GreaterOrEqual,
        number,
    };
    let mut sink = MemorySink::new(alloc, None, Vec::new(alloc));
    scan(alloc, source, &mut sink, filter, None)?;
    Ok(sink)
}
