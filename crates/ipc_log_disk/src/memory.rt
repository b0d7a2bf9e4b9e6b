//! A disk over memory.
ghost use Rattle.std.specs.Prelude.{◌≡◌, ◌↔◌, ◌+◌, ◌^◌, ◌<◌, ◌≤◌, ◌++◌, ◌∷◌, [], true, Some, length, drop, reverse, IfOk, IsOk, IsTrue, OnErr, OnOk};
ghost use Rattle.ipc_disk.specs.Disks.{WritesAt};
ghost use Rattle.ipc_io.specs.Outside.{LeavesFaults, Rose};
ghost use Rattle.ipc_log_disk.specs.Histories.{LogState, MayBeLeft, Notes, WasImage, content_after, crashed_after, front_by, images_after, is_history, is_wanted, new_disk, new_log_disk, now_image, now_only, oldest, told_image};

use crate::crash::crashed_bytes;
use crate::{Change, History, LogDisk};
use ipc_disk::{Disk, MemoryDisk};
use ipc_io::{Failed, Got, PutError, Source};
use std::alloc::{AllocError, Global};
use std::marker::Model;

/// A disk over memory with a record of each change, which tells what a crash may have left behind each of them.
///
/// `size`, `read_at`, `write_at` and `sync` are the calls that are counted, and fail as those of [`MemoryDisk`] do. A write that fails has
/// written over the bytes that stood in its range, up to the end, and has added none. A sync that fails has changed nothing.
#[derive(Drop)]
pub struct MemoryLogDisk {
    alloc: Global,
    first: Vec<u8>,
    changes: Vec<Change>,
    disk: MemoryDisk,
    wants: u64,
}

impl Model for MemoryLogDisk {
    ghost Value = { LogState };

    ghost view = { λ s. record { first = s.first.items; changes = reverse s.changes.items; places = s.disk.source.places; calls = s.disk.source.calls; fetched = s.disk.source.fetched; wants = s.wants } };

    ghost invariant = { λ s. (s.disk.source.bytes ≡ content_after s.first.items (reverse s.changes.items)) × (is_history s.first.items (reverse s.changes.items) ≡ true) };
}

impl MemoryLogDisk {
    /// A disk of the bytes of another, all of them on the disk.
    pub fn new(alloc: Global, disk: MemoryDisk) -> Result<MemoryLogDisk, AllocError>
        ensures { IfOk result (λ d. d ≡ new_log_disk disk) }
    {
        let first = disk.bytes().to_vec(alloc)?;
        Ok(MemoryLogDisk {
            alloc,
            first,
            changes: Vec::new(alloc),
            disk,
            wants: 0,
        })
    }

    /// The bytes as they stand.
    pub fn bytes(&self) -> &[u8]
        ensures { result.now ≡ content_after self.now.first self.now.changes }
    {
        self.disk.bytes()
    }

    /// How many changes there were: writes and syncs that did not want memory, and of syncs those that did not fail.
    pub fn changes(&self) -> usize
        ensures { result ≡ length self.now.changes }
    {
        self.changes.len()
    }

    /// Whether a call has failed.
    pub fn has_failed(&self) -> bool
        ensures { IsTrue result ↔ (0 < self.now.calls.faults) }
    {
        self.disk.has_failed()
    }

    /// The disk that a crash leaves behind so many of the changes: each byte that was not on the disk is `fill`, and there are `size` bytes,
    /// or the nearest number that a crash may leave. None of its calls fails. It takes memory for a few copies of the bytes.
    pub fn crashed(&self, count: usize, fill: u8, size: usize) -> Result<MemoryLogDisk, AllocError>
        requires { count ≤ length self.now.changes }
        ensures disk { IfOk result (λ d. d ≡ new_log_disk (new_disk (crashed_after fill size self.now.first (oldest count self.now.changes)))) }
        ensures image { IfOk result (λ d. images_after self.now.first (oldest count self.now.changes) d.first) }
        ensures length { IfOk result (λ d. MayBeLeft self.now.first (oldest count self.now.changes) size → length d.first ≡ size) }
    {
        let changes = &self.changes[..count];
        let left = crashed_bytes(self.alloc, &self.first, changes, fill, size)?;
        let disk = MemoryDisk::new(left, Vec::new(self.alloc), Vec::new(self.alloc));
        MemoryLogDisk::new(self.alloc, disk)
    }

    /// The disk without its record.
    pub fn into_disk(self) -> MemoryDisk
        ensures bytes { result.source.bytes ≡ content_after self.first self.changes }
        ensures calls { result.source.calls ≡ self.calls }
    {
        self.disk
    }

    /// The disk, and its record.
    pub fn into_parts(self) -> (MemoryDisk, History)
        ensures bytes { result.0.source.bytes ≡ content_after self.first self.changes }
        ensures calls { result.0.source.calls ≡ self.calls }
        ensures first { result.1.first.items ≡ self.first }
        ensures changes { reverse result.1.changes.items ≡ self.changes }
    {
        let MemoryLogDisk {
            alloc: _,
            first,
            changes,
            disk,
            wants: _,
        } = self;
        (disk, History { first, changes })
    }
}

// Whether a call wanted memory.
fn has_wanted(answer: Result<(), PutError>) -> bool
    ensures { result ≡ is_wanted answer }
{
    match answer {
        Err(PutError::Memory) => true,
        _ => false,
    }
}

// Leaves of the bytes of a write those that it has written, where so many bytes stood in its range.
fn cut_to_front(bytes: &mut Vec<u8>, answer: Result<(), PutError>, stood: usize)
    ensures { bytes.new.items ≡ front_by answer stood bytes.old.items }
{
    match answer {
        Err(PutError::Failed) => bytes.truncate(stood),
        _ => {}
    }
}

// Writes, and adds the write to the changes, the oldest first.
fn write_noted(
    alloc: Global,
    disk: &mut MemoryDisk,
    changes: &mut Vec<Change>,
    at: u64,
    bytes: &[u8],
) -> Result<(), PutError>
    requires within { at ≤ length disk.old.source.bytes }
    ensures bytes { WritesAt (Some disk.old.source.bytes) (Some disk.new.source.bytes) at result bytes.now }
    ensures noted { Notes disk.old.source.bytes disk.new.source.bytes changes.old.items changes.new.items at (length bytes.now) result }
    ensures bound { OnOk result (at + length bytes.now < 2 ^ 63) }
    ensures places { disk.new.source.places ≡ disk.old.source.places }
    ensures fetched { disk.new.source.fetched ≡ disk.old.source.fetched }
    ensures later { disk.old.source.calls.faults ≤ disk.new.source.calls.faults }
    ensures faults_stay { LeavesFaults disk.old.source.calls.faults disk.new.source.calls.faults result }
    ensures failed { result ≡ Err PutError.Failed → Rose disk.old.source.calls.faults disk.new.source.calls.faults }
{
    let Ok(mut written) = bytes.to_vec(alloc) else {
        return Err(PutError::Memory);
    };
    if changes.reserve(1).is_err() {
        return Err(PutError::Memory);
    }
    let stood = disk.bytes().len() - at as usize;
    let count = bytes.len() as u64;
    let result = disk.write_at(at, bytes);
    if has_wanted(result) {
        return result;
    }
    cut_to_front(&mut written, result, stood);
    match changes.push(Change::Written {
        at,
        bytes: written,
        count,
    }) {
        Ok(()) => result,
        Err(_) => unreachable!(),
    }
}

impl LogDisk for MemoryLogDisk {
    ghost content = { λ s. Some (content_after s.first s.changes) };

    ghost faults = { λ s. s.calls.faults };

    ghost wants = { λ s. s.wants };

    ghost fetched = { λ s. s.fetched };

    ghost moment = { λ s. length s.changes };

    ghost images = { λ s. images_after s.first s.changes };

    ghost images_since = { λ s. WasImage s.first s.changes };

    ghost content_is_image = { λ s b told. told_image s.first s.changes b told };

    ghost counts_now = { λ s t c le image. now_image s.first s.changes t c le image };

    ghost only_now = { λ s c was. now_only s.first s.changes c was };

    fn size(&mut self) -> Result<u64, Failed> {
        self.disk.size()
    }

    /// Copies the bytes.
    fn read_at(&mut self, at: u64, out: &mut [u8]) -> Result<Got, Failed> {
        self.disk.read_at(at, out)
    }

    /// Copies the bytes twice, once for the record.
    fn write_at(&mut self, at: u64, bytes: &[u8]) -> Result<(), PutError> {
        let result = write_noted(self.alloc, &mut self.disk, &mut self.changes, at, bytes);
        if result == Err(PutError::Memory) {
            self.wants = self.wants.saturating_add(1);
        }
        result
    }

    /// A call that the disk counts, and no byte is moved.
    fn sync(&mut self) -> Result<(), PutError> {
        if self.disk.size().is_err() {
            return Err(PutError::Failed);
        }
        if self.changes.push(Change::Synced).is_err() {
            self.wants = self.wants.saturating_add(1);
            return Err(PutError::Memory);
        }
        Ok(())
    }
}
