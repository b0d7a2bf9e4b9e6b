//! Uses of arrays and batches that are made in memory, each by a word of its own.
use crate::append_each::file_with_each;
use crate::by_name::{cities, show_cities};
use crate::dictionary_file::file_of_colours;
use crate::each_batch::heights;
use crate::files_to_stream::joined;
use crate::filter_stream::kept;
use crate::log_service::{batches_behind_crash, new_log, run_once};
use crate::merge_streams::merged;
use crate::read_stream::first_height;
use crate::scan_file::rows_at_least;
use crate::write_file::file_of_numbers;
use crate::write_stream::stream_of_numbers;
use arrow_ipc::io::ipc::IpcError;
use arrow_ipc::io::{MemorySink, MemorySource};
use std::alloc::{AllocError, Global};

fn bytes_in(alloc: Global, sink: &MemorySink) -> Result<Vec<u8>, AllocError> {
    sink.bytes().to_vec(alloc)
}

fn show_colours(rt: &HostRuntime, alloc: Global) -> Result<(), IpcError> {
    let file = bytes_in(
        alloc,
        &file_of_colours(alloc, &["red", "blue", "red", "green"])?,
    )?;
    let mut source = MemorySource::new(file, Vec::new(alloc), Vec::new(alloc));
    for height in &heights(alloc, &mut source, None)? {
        let _ = println!(rt; "a file with a dictionary and a batch of {height} rows");
    }
    Ok(())
}

fn show_filtered(rt: &HostRuntime, alloc: Global) -> Result<(), IpcError> {
    let stream = bytes_in(alloc, &stream_of_numbers(alloc, &[1, 3, 5])?)?;
    let filtered = kept(alloc, stream, 3)?;
    let height = first_height(alloc, bytes_in(alloc, &filtered)?)?.unwrap_or(0);
    let _ = println!(rt; "{height} rows of 3 that are at least 3");
    Ok(())
}

fn show_grown(rt: &HostRuntime, alloc: Global) -> Result<(), IpcError> {
    let file = bytes_in(alloc, &file_of_numbers(alloc, &[1, 3])?)?;
    let grown = file_with_each(alloc, file, &[5, 7, 9])?;
    let mut source = MemorySource::new(grown, Vec::new(alloc), Vec::new(alloc));
    let batches = heights(alloc, &mut source, None)?.len();
    let _ = println!(rt; "a file of {batches} batches");
    Ok(())
}

fn show_log(rt: &HostRuntime, alloc: Global) -> Result<(), IpcError> {
    let disk = run_once(alloc, new_log(alloc)?, &[1, 3])?;
    let disk = run_once(alloc, disk, &[5])?;
    let batches = batches_behind_crash(alloc, disk)?;
    let _ = println!(rt; "a log of {batches} batches behind a crash");
    Ok(())
}

fn show_merged(rt: &HostRuntime, alloc: Global) -> Result<(), IpcError> {
    let one = bytes_in(alloc, &stream_of_numbers(alloc, &[1, 3])?)?;
    let other = bytes_in(alloc, &stream_of_numbers(alloc, &[5])?)?;
    let length = merged(alloc, one, other)?.bytes().len();
    let _ = println!(rt; "a stream of {length} bytes of two");
    Ok(())
}

fn show_joined(rt: &HostRuntime, alloc: Global) -> Result<(), IpcError> {
    let one = bytes_in(alloc, &file_of_numbers(alloc, &[1, 3])?)?;
    let other = bytes_in(alloc, &file_of_numbers(alloc, &[5])?)?;
    let length = joined(alloc, one, other)?.bytes().len();
    let _ = println!(rt; "a stream of {length} bytes of two files");
    Ok(())
}

fn show_scanned(rt: &HostRuntime, alloc: Global) -> Result<(), IpcError> {
    let file = bytes_in(alloc, &file_of_numbers(alloc, &[1, 3, 5])?)?;
    let mut source = MemorySource::new(file, Vec::new(alloc), Vec::new(alloc));
    let length = rows_at_least(alloc, &mut source, 3)?.bytes().len();
    let _ = println!(rt; "a stream of {length} bytes of the rows that are at least 3");
    Ok(())
}

fn show(rt: &HostRuntime, alloc: Global, word: &str) -> Result<(), IpcError> {
    match word {
        "columns" => show_cities(rt, &cities(alloc)?),
        "filter" => show_filtered(rt, alloc),
        "grow" => show_grown(rt, alloc),
        "join" => show_joined(rt, alloc),
        "log" => show_log(rt, alloc),
        "merge" => show_merged(rt, alloc),
        "scan" => show_scanned(rt, alloc),
        _ => show_colours(rt, alloc),
    }
}

/// The use that a word names.
pub(crate) fn show_use(rt: &HostRuntime, word: &str) -> Result<(), &'static str> {
    match show(rt, rt.alloc(), word) {
        Ok(()) => Ok(()),
        Err(error) => Err(error.name()),
    }
}
