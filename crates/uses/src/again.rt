//! Files and streams that are read by their names and written again, for `tests/model`.
mod files;
mod streams;
mod writers;

use arrow_ipc::io::ipc::IpcError;
use arrow_ipc::io::{MemorySink, MemorySource};
use files::{as_stream, file_again};
use std::alloc::Global;
use std::fs;
use streams::stream_again;
pub(crate) use streams::{next_batch, write_batches};

fn named(done: Result<MemorySink, IpcError>) -> Result<MemorySink, &'static str> {
    match done {
        Ok(sink) => Ok(sink),
        Err(error) => Err(error.name()),
    }
}

fn source_of(alloc: Global, bytes: Vec<u8>) -> MemorySource {
    MemorySource::new(bytes, Vec::new(alloc), Vec::new(alloc))
}

/// What a word asks for, of some bytes.
fn written(alloc: Global, word: &str, bytes: Vec<u8>) -> Result<MemorySink, &'static str> {
    match word {
        "file-again" => named(file_again(alloc, &mut source_of(alloc, bytes))),
        "stream-again" => named(stream_again(alloc, bytes)),
        "send" => named(as_stream(alloc, &mut source_of(alloc, bytes))),
        _ => Err("file-again, stream-again or send"),
    }
}

/// Writes what a word asks for, of the bytes of one file, to another: a file or a stream as it is, or a file as a stream.
pub(crate) fn write_again(
    rt: &HostRuntime,
    word: &str,
    from: &str,
    to: &str,
) -> Result<(), &'static str> {
    let Ok(bytes) = fs::read(rt, from) else {
        return Err("no file can be read");
    };
    let sink = written(rt.alloc(), word, bytes)?;
    match fs::write(rt, to, sink.bytes()) {
        Ok(()) => Ok(()),
        Err(_) => Err("no file can be written"),
    }
}
