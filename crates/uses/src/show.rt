//! Ten uses of `arrow_ipc`. An Arrow file comes on standard input: the sum of its first column is printed, of bytes that are lent; the first column of its first record batch, the rows of each batch and those that come through a flight are printed, a batch of numbers is written, by itself, as a stream, which is read again, and as a file, to which another is appended, and the file is sent as a stream.
use crate::append_batch::file_with;
use crate::each_batch::heights;
use crate::file_to_stream::stream_of;
use crate::flight::rows_handed;
use crate::read_column::{first_batch, first_column};
use crate::read_stream::first_height;
use crate::sum_lent::{Count, count_lent};
use crate::write_batch::message_of;
use crate::write_file::file_of_numbers;
use crate::write_stream::stream_of_numbers;
use arrow_ipc::io::MemorySource;
use arrow_ipc::io::ipc::IpcError;
use std::alloc::Global;
use std::io::Read;

/// The column, where the file has a batch.
fn column_of(alloc: Global, source: &mut MemorySource) -> Result<Vec<Option<i32>>, IpcError> {
    match first_batch(alloc, source)? {
        Some(batch) => first_column(alloc, &batch),
        None => Ok(Vec::new(alloc)),
    }
}

/// The bytes of standard input.
fn input(rt: &HostRuntime) -> Result<Vec<u8>, &'static str> {
    let mut bytes = Vec::new(rt.alloc());
    match rt.stdin().read_to_end(&mut bytes) {
        Ok(_) => Ok(bytes),
        Err(_) => Err("the input fails"),
    }
}

/// How many bytes a stream and a file of two numbers have.
fn written(alloc: Global) -> Result<(usize, usize), IpcError> {
    let stream = stream_of_numbers(alloc, &[1, 3])?;
    let file = file_of_numbers(alloc, &[1, 3])?;
    Ok((stream.bytes().len(), file.bytes().len()))
}

/// How many rows are read of the first batch of a stream of two numbers.
fn read_again(alloc: Global) -> Result<Option<usize>, IpcError> {
    let stream = stream_of_numbers(alloc, &[1, 3])?;
    first_height(alloc, stream.bytes().to_vec(alloc)?)
}

/// How many bytes a file of two numbers has with a batch of two more.
fn appended(alloc: Global) -> Result<usize, IpcError> {
    let file = file_of_numbers(alloc, &[1, 3])?;
    let bytes = file.bytes().to_vec(alloc)?;
    Ok(file_with(alloc, bytes, &[5, 7])?.len())
}

/// The lengths of a message of two numbers, and of the stream of a file.
fn lengths(alloc: Global, source: &mut MemorySource) -> Result<(usize, usize), IpcError> {
    let message = message_of(alloc, &[1, 3])?;
    let stream = stream_of(alloc, source)?;
    Ok((message.len(), stream.bytes().len()))
}

/// The first column of the first record batch, and the rows of each.
fn show_batches(rt: &HostRuntime, source: &mut MemorySource) -> Result<(), IpcError> {
    for row in &column_of(rt.alloc(), source)? {
        let _ = match row {
            Some(number) => println!(rt; "{number}"),
            None => println!(rt; "null"),
        };
    }
    for height in &heights(rt.alloc(), source, None)? {
        let _ = println!(rt; "a batch of {height} rows");
    }
    let rows = rows_handed(rt.alloc(), source)?;
    let _ = println!(rt; "a flight of {rows} rows");
    Ok(())
}

/// The sum of the first column, whose bytes are lent.
fn show_sum(rt: &HostRuntime, file: &[u8]) -> Result<(), IpcError> {
    let sum = count_lent(rt.alloc(), file, Count::Cells)?;
    let _ = println!(rt; "a sum of {sum} over lent bytes");
    Ok(())
}

/// The lengths of a stream and a file that are written.
fn show_written(rt: &HostRuntime) -> Result<(), &'static str> {
    match written(rt.alloc()) {
        Ok((stream, file)) => {
            let _ = println!(rt; "a stream of {stream} bytes that was written, a file of {file}");
            show_read(rt)
        }
        Err(error) => Err(error.name()),
    }
}

/// The rows of a stream that is read.
fn show_read(rt: &HostRuntime) -> Result<(), &'static str> {
    match read_again(rt.alloc()) {
        Ok(Some(height)) => {
            let _ = println!(rt; "a stream with a batch of {height} rows that was read");
            show_appended(rt)
        }
        Ok(None) => Err("a stream without a batch"),
        Err(error) => Err(error.name()),
    }
}

/// The length of a file that goes on.
fn show_appended(rt: &HostRuntime) -> Result<(), &'static str> {
    match appended(rt.alloc()) {
        Ok(file) => {
            let _ = println!(rt; "a file of {file} bytes that went on");
            Ok(())
        }
        Err(error) => Err(error.name()),
    }
}

/// The uses, one after another.
pub(crate) fn show_uses(rt: &HostRuntime) -> Result<(), &'static str> {
    let bytes = input(rt)?;
    if let Err(error) = show_sum(rt, &bytes) {
        return Err(error.name());
    }
    let mut source = MemorySource::new(bytes, Vec::new(rt.alloc()), Vec::new(rt.alloc()));
    if let Err(error) = show_batches(rt, &mut source) {
        return Err(error.name());
    }
    match lengths(rt.alloc(), &mut source) {
        Ok((message, stream)) => {
            let _ = println!(rt; "a message of {message} bytes, a stream of {stream}");
            show_written(rt)
        }
        Err(error) => Err(error.name()),
    }
}
