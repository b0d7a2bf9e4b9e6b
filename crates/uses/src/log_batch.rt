//! A batch of a log on a disk, read by its number, for `bench/log`.
use arrow_ipc::io::ipc::IpcError;
use arrow_ipc::io::ipc::log::{FileLogDisk, TableLog};
use std::alloc::Global;
use std::fs::File;

/// The file of a log.
fn open(rt: &HostRuntime, name: &str) -> Result<FileLogDisk<File>, &'static str> {
    let Ok(file) = File::options().read(true).write(true).open(rt, name) else {
        return Err("no file can be opened");
    };
    match FileLogDisk::new(file) {
        Ok(disk) => Ok(disk),
        Err(_) => Err("no file can be opened twice"),
    }
}

/// The rows of a batch of a log, none where there is no such batch.
fn height_of(log: &mut TableLog<FileLogDisk<File>>, i: usize) -> Result<usize, IpcError> {
    if i >= log.len() {
        return Ok(0);
    }
    let batch = log.read(i)?;
    let height = batch.height();
    drop(batch);
    Ok(height)
}

/// The rows of a batch of a log that is opened once and read so many times.
fn rows_read(
    alloc: Global,
    disk: FileLogDisk<File>,
    i: usize,
    count: u32,
) -> Result<usize, IpcError> {
    let mut log = TableLog::open(alloc, disk)?;
    let mut rows = 0_usize;
    for _ in 0..count {
        rows = rows.wrapping_add(height_of(&mut log, i)?);
    }
    Ok(rows)
}

/// Reads a batch of a log so many times, and prints how many rows these are together.
pub(crate) fn read_log(
    rt: &HostRuntime,
    name: &str,
    i: u32,
    count: u32,
) -> Result<(), &'static str> {
    match rows_read(rt.alloc(), open(rt, name)?, i as usize, count) {
        Ok(rows) => {
            let _ = println!(rt; "{rows}");
            Ok(())
        }
        Err(error) => Err(error.name()),
    }
}
