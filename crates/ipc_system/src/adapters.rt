//! The outside over readers and writers. Standard streams tell no bytes.
ghost use Rattle.std.specs.Prelude.{◌≡◌};
ghost use Rattle.std.specs.Io.{ReadsAtMost, WritesAtMost};
ghost use Rattle.std.specs.Io.KnownBytes.{ReadConsumes, WriteAppends};
ghost use Rattle.ipc_io.specs.Outside.{PutsFront};

use ipc_io::{Failed, Feed, PutError, Sink};
use std::io::{ErrorKind, Read, Write};

/// A reader that is read to its end. It tells the bytes that its reader tells.
#[derive(Drop)]
pub struct InputFeed<R> {
    reader: R,
    faults: u64,
}

impl<R> InputFeed<R> {
    /// Takes no memory.
    pub fn new(reader: R) -> Self
        ensures reader { result.reader ≡ reader }
        ensures faults { result.faults ≡ 0 }
    {
        InputFeed { reader, faults: 0 }
    }
}

// Reads once. A read that was interrupted is begun again.
fn read_once<R: Read>(reader: &mut R, out: &mut [u8]) -> Result<usize, Failed>
    ensures count { ReadsAtMost result out.new }
    ensures bytes { ReadConsumes (R.remaining reader.old) (R.remaining reader.new) result out.new }
{
    for _ in 0..u64::MAX {
        match reader.read(out) {
            Ok(count) => return Ok(count),
            Err(error) if error.kind() == ErrorKind::Interrupted => {}
            Err(_) => return Err(Failed),
        }
    }
    Err(Failed)
}

impl<R: Read> Feed for InputFeed<R> {
    ghost rest = { λ s. R.remaining s.reader };

    ghost faults = { λ s. s.faults };

    /// One read.
    fn pull(&mut self, out: &mut [u8]) -> Result<usize, Failed> {
        let given = read_once(&mut self.reader, out);
        if given.is_err() {
            self.faults = self.faults.saturating_add(1);
        }
        given
    }
}

/// A writer that is written to. It tells the bytes that its writer tells, and never wants memory.
#[derive(Drop)]
pub struct OutputSink<W> {
    writer: W,
    faults: u64,
}

impl<W> OutputSink<W> {
    /// Takes no memory.
    pub fn new(writer: W) -> Self
        ensures writer { result.writer ≡ writer }
        ensures faults { result.faults ≡ 0 }
    {
        OutputSink { writer, faults: 0 }
    }
}

// Writes once. A write that was interrupted is begun again.
fn write_once<W: Write>(writer: &mut W, bytes: &[u8]) -> Result<usize, Failed>
    ensures count { WritesAtMost result bytes.now }
    ensures bytes { WriteAppends (W.contents writer.old) (W.contents writer.new) result bytes.now }
{
    for _ in 0..u64::MAX {
        match writer.write(bytes) {
            Ok(count) => return Ok(count),
            Err(error) if error.kind() == ErrorKind::Interrupted => {}
            Err(_) => return Err(Failed),
        }
    }
    Err(Failed)
}

// Writes all bytes, or those before a failure.
fn write_each<W: Write>(writer: &mut W, bytes: &[u8]) -> Result<(), Failed>
    ensures { PutsFront (W.contents writer.old) (W.contents writer.new) result bytes.now }
{
    let mut done = 0;
    while done < bytes.len() {
        let count = write_once(writer, &bytes[done..])?;
        if count == 0 {
            return Err(Failed);
        }
        done += count;
    }
    Ok(())
}

impl<W: Write> Sink for OutputSink<W> {
    ghost written = { λ s. W.contents s.writer };

    ghost faults = { λ s. s.faults };

    ghost wants = { λ s. 0 };

    /// As many writes as the writer needs.
    fn put(&mut self, bytes: &[u8]) -> Result<(), PutError> {
        if write_each(&mut self.writer, bytes).is_err() {
            self.faults = self.faults.saturating_add(1);
            return Err(PutError::Failed);
        }
        Ok(())
    }
}
