//! A service's log of record batches: it is opened as the service starts, grows batch by batch, and is whole behind a crash.
use crate::write_batch::batch_of;
use arrow_ipc::io::MemoryDisk;
use arrow_ipc::io::ipc::IpcError;
use arrow_ipc::io::ipc::log::{MemoryLogDisk, TableLog};
use std::alloc::Global;

/// A log of numbers on a disk without bytes.
pub(crate) fn new_log(alloc: Global) -> Result<MemoryLogDisk, IpcError> {
    let disk = MemoryDisk::new(Vec::new(alloc), Vec::new(alloc), Vec::new(alloc));
    let disk = MemoryLogDisk::new(alloc, disk)?;
    let batch = batch_of(alloc, &[])?;
    let log = TableLog::create(alloc, disk, batch.schema())?;
    Ok(log.into_inner())
}

/// One run of the service, which adds a batch of each number that comes.
pub(crate) fn run_once(
    alloc: Global,
    disk: MemoryLogDisk,
    numbers: &[i32],
) -> Result<MemoryLogDisk, IpcError> {
    let mut log = TableLog::open(alloc, disk)?;
    for number in numbers {
        let batch = batch_of(alloc, &[*number])?;
        log.append(&batch)?;
    }
    Ok(log.into_inner())
}

/// How many batches the log has behind a crash that cut off the last call of its disk.
pub(crate) fn batches_behind_crash(alloc: Global, disk: MemoryLogDisk) -> Result<usize, IpcError> {
    let calls = disk.changes().saturating_sub(1);
    let size = disk.bytes().len();
    let left = disk.crashed(calls, 0, size)?;
    let log = TableLog::open(alloc, left)?;
    Ok(log.len())
}
