//! A file as a disk. It tells no content.
ghost use Rattle.std.specs.Prelude.{◌≡◌, ◌↔◌, ◌<◌, ◌^◌, ◌+◌, None, IfOk, IsTrue};

use crate::Disk;
use ipc_io::{Failed, Got, PutError, Source};
use std::fs::OpenFile;
use std::io::ErrorKind;
use std::os::unix::fs::FileExt;

/// A file that is read and written at places, and never whole. It tells no content, and has fetched what was asked of it.
///
/// No call wants memory.
#[derive(Drop)]
pub struct FileDisk<F> {
    file: F,
    faults: u64,
    fetched: u64,
}

impl<F> FileDisk<F> {
    /// Takes no memory.
    pub fn new(file: F) -> Self
        ensures file { result.file ≡ file }
        ensures faults { result.faults ≡ 0 }
        ensures fetched { result.fetched ≡ 0 }
    {
        FileDisk {
            file,
            faults: 0,
            fetched: 0,
        }
    }

    /// Whether a call has failed.
    pub fn has_failed(&self) -> bool
        ensures { IsTrue result ↔ (0 < self.now.faults) }
    {
        self.faults > 0
    }
}

// Whether so many bytes from a place on end below 2^63.
fn fits(at: u64, count: usize) -> bool
    ensures { IsTrue result → at + count < 2 ^ 63 }
{
    at.checked_add(count as u64)
        .is_some_and(|end| end < 1 << 63)
}

// The size that the system tells of a file.
fn size_of<F: OpenFile>(file: &F) -> Result<u64, Failed>
    ensures { IfOk result (λ n. n < 2 ^ 63) }
{
    match file.metadata() {
        Ok(metadata) if fits(metadata.len(), 0) => Ok(metadata.len()),
        _ => Err(Failed),
    }
}

// Fills `out` with the bytes from a place on, or finds the end before.
fn read<F: FileExt>(file: &F, at: u64, out: &mut [u8]) -> Result<Got, Failed> {
    match file.read_exact_at(out, at) {
        Ok(()) => Ok(Got::Full),
        Err(error) if error.kind() == ErrorKind::UnexpectedEof => Ok(Got::Short),
        Err(_) => Err(Failed),
    }
}

impl<F: FileExt + OpenFile> Source for FileDisk<F> {
    ghost content = { λ s. None };

    ghost faults = { λ s. s.faults };

    ghost fetched = { λ s. s.fetched };

    fn size(&mut self) -> Result<u64, Failed> {
        let size = size_of(&self.file);
        if size.is_err() {
            self.faults = self.faults.saturating_add(1);
        }
        size
    }

    /// One read at the place, and more where the system gives less than was asked for.
    fn read_at(&mut self, at: u64, out: &mut [u8]) -> Result<Got, Failed> {
        self.fetched = self.fetched.saturating_add(out.len() as u64);
        let got = read(&self.file, at, out);
        if got.is_err() {
            self.faults = self.faults.saturating_add(1);
        }
        got
    }
}

impl<F: FileExt + OpenFile> Disk for FileDisk<F> {
    ghost wants = { λ s. 0 };

    /// One write at the place, and more where the system takes less. It fails where the bytes would end past 2^63 - 1.
    fn write_at(&mut self, at: u64, bytes: &[u8]) -> Result<(), PutError> {
        if fits(at, bytes.len()) && self.file.write_all_at(bytes, at).is_ok() {
            return Ok(());
        }
        self.faults = self.faults.saturating_add(1);
        Err(PutError::Failed)
    }

    fn cut(&mut self, count: u64) -> Result<(), Failed> {
        if self.file.set_len(count).is_ok() {
            return Ok(());
        }
        self.faults = self.faults.saturating_add(1);
        Err(Failed)
    }
}
