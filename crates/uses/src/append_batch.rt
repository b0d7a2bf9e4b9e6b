//! A record batch that is written behind those of a file.
use crate::write_batch::batch_of;
use arrow_ipc::io::MemoryDisk;
use arrow_ipc::io::ipc::IpcError;
use arrow_ipc::io::ipc::append::{finish_on_disk, try_from_file};
use arrow_ipc::io::ipc::read::read_file_metadata;
use arrow_ipc::io::ipc::write::WriteOptions;
use std::alloc::Global;

/// The disk of a file with a batch of numbers more.
pub(crate) fn with_batch(
    alloc: Global,
    mut disk: MemoryDisk,
    numbers: &[i32],
) -> Result<MemoryDisk, IpcError> {
    let metadata = read_file_metadata(alloc, &mut disk)?;
    let mut writer = try_from_file(alloc, disk, metadata, WriteOptions::default())?;
    writer.write(&batch_of(alloc, numbers)?, None)?;
    Ok(finish_on_disk(writer)?)
}

/// The file with a batch of numbers more, in memory.
pub(crate) fn file_with(
    alloc: Global,
    file: Vec<u8>,
    numbers: &[i32],
) -> Result<Vec<u8>, IpcError> {
    let disk = MemoryDisk::new(file, Vec::new(alloc), Vec::new(alloc));
    Ok(with_batch(alloc, disk, numbers)?.into_bytes())
}
