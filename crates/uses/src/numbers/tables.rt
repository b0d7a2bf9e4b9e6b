//! Tables of one column of numbers, as they are written.
use crate::write_batch::batch_of_column;
use arrow_ipc::array::{Array, PrimitiveArray};
use arrow_ipc::io::ipc::IpcError;
use arrow_ipc::io::ipc::append::try_from_file;
use arrow_ipc::io::ipc::read::read_file_metadata;
use arrow_ipc::io::ipc::write::{FileWriter, StreamWriter, WriteOptions};
use arrow_ipc::io::{Disk, Sink};
use arrow_ipc::record_batch::RecordBatch;
use std::alloc::{AllocError, Global};

/// The numbers from 0 on.
fn numbers(alloc: Global, rows: u32) -> Result<Vec<i64>, AllocError> {
    let mut numbers = Vec::new(alloc);
    for number in 0..rows {
        numbers.push(i64::from(number))?;
    }
    Ok(numbers)
}

/// A batch of so many numbers.
fn batch_of(alloc: Global, rows: u32) -> Result<RecordBatch, IpcError> {
    let numbers = numbers(alloc, rows)?;
    let column = PrimitiveArray::from_slice(alloc, &numbers)?;
    drop(numbers);
    batch_of_column(alloc, "n", Array::Int64(column))
}

/// Writes a batch of so many rows, so many times, as a file.
pub(crate) fn write_file<W: Sink + Drop>(
    alloc: Global,
    sink: W,
    batches: u32,
    rows: u32,
) -> Result<(), IpcError> {
    let batch = batch_of(alloc, rows)?;
    let schema = batch.schema().clone()?;
    let mut writer = FileWriter::try_new(alloc, sink, schema, None, WriteOptions::default())?;
    for _ in 0..batches {
        writer.write(&batch, None)?;
    }
    writer.finish()
}

/// The same as a stream.
pub(crate) fn write_stream<W: Sink + Drop>(
    alloc: Global,
    sink: W,
    batches: u32,
    rows: u32,
) -> Result<(), IpcError> {
    let batch = batch_of(alloc, rows)?;
    let mut writer = StreamWriter::new(alloc, sink, WriteOptions::default())?;
    writer.start(batch.schema(), None)?;
    for _ in 0..batches {
        writer.write(&batch, None)?;
    }
    writer.finish()
}

/// Writes so many batches behind those of a file.
pub(crate) fn append<D: Disk + Drop>(
    alloc: Global,
    disk: D,
    batches: u32,
    rows: u32,
) -> Result<(), IpcError> {
    let mut disk = disk;
    let metadata = read_file_metadata(alloc, &mut disk)?;
    let mut writer = try_from_file(alloc, disk, metadata, WriteOptions::default())?;
    let batch = batch_of(alloc, rows)?;
    for _ in 0..batches {
        writer.write(&batch, None)?;
    }
    writer.finish()
}
