//! A file that is read one record batch after another.
use arrow_ipc::io::MemorySource;
use arrow_ipc::io::ipc::IpcError;
use arrow_ipc::io::ipc::read::{FileReader, read_file_metadata};
use std::alloc::Global;

/// The rows of each record batch of a file, up to a limit.
pub(crate) fn heights(
    alloc: Global,
    source: &mut MemorySource,
    limit: Option<usize>,
) -> Result<Vec<usize>, IpcError> {
    let metadata = read_file_metadata(alloc, source)?;
    let reader = FileReader::new(alloc, source, metadata, None, limit)?;
    let mut heights = Vec::new(alloc);
    for read in reader {
        let batch = read?;
        let height = batch.height();
        drop(batch);
        heights.push(height)?;
    }
    Ok(heights)
}
