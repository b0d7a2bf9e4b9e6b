//! Tables of one column of 64-bit integers on a disk, for `bench/files`.
mod tables;

use arrow_ipc::io::ipc::IpcError;
use arrow_ipc::io::{DiskTail, FileDisk};
use std::fs::{self, File};
use tables::{append, write_file, write_stream};

/// A file that is read and written, as it is or made anew.
fn open(rt: &HostRuntime, name: &str, is_new: bool) -> Result<FileDisk<File>, &'static str> {
    if is_new && fs::write(rt, name, b"").is_err() {
        return Err("no file can be made");
    }
    match File::options().read(true).write(true).open(rt, name) {
        Ok(file) => Ok(FileDisk::new(file)),
        Err(_) => Err("no file can be opened"),
    }
}

/// The end of a file that is made anew.
fn begin(rt: &HostRuntime, name: &str) -> Result<DiskTail<FileDisk<File>>, &'static str> {
    match DiskTail::new(open(rt, name, true)?) {
        Ok(tail) => Ok(tail),
        Err(refused) => Err(refused.error.name()),
    }
}

fn named(done: Result<(), IpcError>) -> Result<(), &'static str> {
    match done {
        Ok(()) => Ok(()),
        Err(error) => Err(error.name()),
    }
}

/// Writes so many batches of so many rows as a word asks for: as a file, as a stream, or behind the batches of a file.
pub(crate) fn write_numbers(
    rt: &HostRuntime,
    word: &str,
    name: &str,
    batches: u32,
    rows: u32,
) -> Result<(), &'static str> {
    match word {
        "write-file" => named(write_file(rt.alloc(), begin(rt, name)?, batches, rows)),
        "write-stream" => named(write_stream(rt.alloc(), begin(rt, name)?, batches, rows)),
        "append" => named(append(rt.alloc(), open(rt, name, false)?, batches, rows)),
        _ => Err("write-file, write-stream or append"),
    }
}
