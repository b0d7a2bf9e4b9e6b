//! The chunks of a file.
use crate::rows::show_rows;
use arrow_spec::IpcError;
use ipc_files::read_file_metadata;
use ipc_mmap::{ArrayView, ChunkView, LentSource, mmap_checked, mmap_dictionaries_checked};

/// The lines of a column.
fn show_column(rt: &HostRuntime, number: usize, column: &ArrayView<'_>) -> Result<(), IpcError> {
    let path = format!(in rt.alloc(); "{number}")?;
    show_rows(rt, &path, column, 0, column.len())
}

/// The lines of a chunk.
fn show_chunk(rt: &HostRuntime, number: usize, chunk: &ChunkView<'_>) -> Result<(), IpcError> {
    let rows = chunk.len();
    let width = chunk.width();
    let _ = println!(rt; "batch {number} {rows} {width}");
    for i in 0..width {
        show_column(rt, i, chunk.column(i))?;
    }
    Ok(())
}

/// The lines of the chunks of a file.
pub(crate) fn show_chunks(rt: &HostRuntime, file: &[u8]) -> Result<(), IpcError> {
    let metadata = read_file_metadata(rt.alloc(), &mut LentSource::new(file))?;
    let dictionaries = mmap_dictionaries_checked(rt.alloc(), &metadata, file)?;
    for i in 0..metadata.blocks.len() {
        let chunk = mmap_checked(rt.alloc(), &metadata, &dictionaries, file, i)?;
        show_chunk(rt, i, &chunk)?;
    }
    Ok(())
}
