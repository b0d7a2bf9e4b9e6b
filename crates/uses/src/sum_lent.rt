//! The sum of a column of a file in memory, none of whose buffers is copied.
use crate::sums::sum_of_view;
use arrow_ipc::io::ipc::IpcError;
use arrow_ipc::io::ipc::read::read_file_metadata;
use arrow_ipc::mmap::{ChunkView, LentSource, mmap_checked, mmap_dictionaries_checked};
use std::alloc::Global;

/// What is counted of each record batch: its rows, or the cells of its first column.
#[derive(Clone, Copy, PartialEq, Eq)]
pub(crate) enum Count {
    Rows,
    Cells,
}

fn count_chunk(chunk: &ChunkView<'_>, count: Count) -> i128 {
    if count == Count::Rows {
        return chunk.len() as i128;
    }
    if chunk.width() == 0 {
        return 0;
    }
    sum_of_view(chunk.column(0))
}

/// What is counted of all record batches of a file.
pub(crate) fn count_lent(alloc: Global, file: &[u8], count: Count) -> Result<i128, IpcError> {
    let metadata = read_file_metadata(alloc, &mut LentSource::new(file))?;
    let dictionaries = mmap_dictionaries_checked(alloc, &metadata, file)?;
    let mut found = 0_i128;
    for i in 0..metadata.blocks.len() {
        let chunk = mmap_checked(alloc, &metadata, &dictionaries, file, i)?;
        found = found.wrapping_add(count_chunk(&chunk, count));
    }
    Ok(found)
}
