//! Record batches that are written behind those of a file, each by a call of its own.
use crate::append_batch::with_batch;
use arrow_ipc::io::MemoryDisk;
use arrow_ipc::io::ipc::IpcError;
use std::alloc::Global;

/// The file with a batch more for each number.
pub(crate) fn file_with_each(
    alloc: Global,
    file: Vec<u8>,
    numbers: &[i32],
) -> Result<Vec<u8>, IpcError> {
    let mut disk = MemoryDisk::new(file, Vec::new(alloc), Vec::new(alloc));
    for number in numbers {
        disk = with_batch(alloc, disk, &[*number])?;
    }
    Ok(disk.into_bytes())
}
