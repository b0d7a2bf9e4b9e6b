//! A shelf over memory.
ghost use Rattle.std.specs.Prelude.{◌≡◌, ◌↔◌, ◌<◌, ◌≤◌, ◌+◌, Some, None, IfOk, IsTrue, IsSome, MatchOption, length, option_copied, option_map};
ghost use Rattle.ipc_io.specs.Outside.{IsHeld, Lacks, OpenHasCause, Closes};
ghost use Rattle.ipc_io.specs.Memory.{SourceState, SourceNeverFails, no_calls, is_failing, after_call};
ghost use Rattle.ipc_disk.specs.Places.{IsReplaced};
ghost use Rattle.ipc_disk.specs.Shelves.{ShelfState, ShelfNeverFails, IsStored, after_close, entry_of, held_in, opened, opened_place, with_bytes};

use crate::{MemoryDisk, PlaceShelf};
use ipc_io::{FailingCalls, MemorySource, Shelf, ShelfError};
use std::alloc::{AllocError, Global};
use std::marker::Model;

/// A name, the bytes under it, and where reading or writing them fails.
#[derive(Drop)]
pub struct Entry {
    /// The name.
    pub name: String,
    /// What stands under it.
    pub bytes: Vec<u8>,
    /// The numbers of the calls that fail, counted from 0 at each opening.
    pub failing: Vec<u64>,
    /// The places that cannot be read.
    pub places: Vec<u64>,
}

/// Bytes in memory under names. Of two entries of one name the first counts.
///
/// `open_file` and `open_place` are the calls that are counted.
#[derive(Drop)]
pub struct MemoryShelf {
    alloc: Global,
    entries: Vec<Entry>,
    calls: FailingCalls,
}

impl Model for MemoryShelf {
    ghost Value = { ShelfState };

    ghost view = { λ s. record { entries = s.entries.items; calls = s.calls } };
}

impl MemoryShelf {
    /// Takes its parts as they are: no copy, no memory.
    pub fn new(alloc: Global, entries: Vec<Entry>, failing: Vec<u64>) -> Self
        ensures { result ≡ record { entries = entries.items; calls = no_calls failing.items } }
    {
        MemoryShelf {
            alloc,
            entries,
            calls: FailingCalls::new(failing),
        }
    }

    /// The bytes under a name.
    pub fn bytes(&self, name: &str) -> Option<&[u8]>
        ensures { option_map (λ b. b.now) result ≡ held_in self.now.entries name.now }
    {
        match find(&self.entries, name) {
            Some(entry) => Some(&entry.bytes),
            None => None,
        }
    }
}

// The first entry of a name.
fn find<'a>(entries: &'a [Entry], name: &str) -> Option<&'a Entry>
    ensures { MatchOption result (entry_of entries.now name.now ≡ None) (λ e. entry_of entries.now name.now ≡ Some e.now) }
{
    let mut rest = entries;
    while let [entry, after @ ..] = rest {
        if entry.name.as_str() == name {
            return Some(entry);
        }
        rest = after;
    }
    None
}

// Puts other bytes under a name.
fn store(entries: &mut [Entry], name: &str, bytes: Vec<u8>)
    ensures stored { entries.new ≡ with_bytes entries.old name.now bytes }
    ensures length { length entries.new ≡ length entries.old }
{
    let mut at = 0;
    while at < entries.len() {
        if entries[at].name.as_str() == name {
            entries[at].bytes = bytes;
            return;
        }
        at += 1;
    }
}

fn file_of(alloc: Global, entry: &Entry) -> Result<MemorySource, AllocError>
    ensures { IfOk result (λ f. f ≡ opened entry.now) }
{
    let bytes = entry.bytes.to_vec(alloc)?;
    let failing = entry.failing.to_vec(alloc)?;
    let places = entry.places.to_vec(alloc)?;
    Ok(MemorySource::new(bytes, failing, places))
}

fn place_of(alloc: Global, entry: &Entry) -> Result<MemoryDisk, AllocError>
    ensures { IfOk result (λ p. p ≡ opened_place entry.now) }
{
    let bytes = entry.bytes.to_vec(alloc)?;
    let failing = entry.failing.to_vec(alloc)?;
    let places = entry.places.to_vec(alloc)?;
    Ok(MemoryDisk::new(bytes, failing, places))
}

impl Shelf for MemoryShelf {
    type File = MemorySource;

    ghost held = { λ s. Some (held_in s.entries) };

    ghost faults = { λ s. s.calls.faults };

    /// Copies the entry, and looks through the list of failing calls and the entries.
    fn open_file(&mut self, name: &str) -> Result<MemorySource, ShelfError>
        ensures unknown { result ≡ Err ShelfError.Unknown → Lacks (Some (held_in self.old.entries)) name.now }
        ensures cause { OpenHasCause self.old.calls.faults self.new.calls.faults result }

        // It fails exactly where its number is listed, and else opens the first entry of the name.
        ensures failing { (result ≡ Err ShelfError.Failed) ↔ IsTrue (is_failing self.old.calls) }
        ensures opened { IfOk result (λ f. MatchOption (entry_of self.old.entries name.now) ⊥ (λ e. f ≡ opened e)) }
        ensures entries { self.new.entries ≡ self.old.entries }
        ensures calls { self.new.calls ≡ after_call self.old.calls (is_failing self.old.calls) }
        ensures never { ShelfNeverFails self.old → result ≡ Err ShelfError.Failed → ⊥ }
        ensures never_file { ShelfNeverFails self.old → IfOk result SourceNeverFails }
    {
        if self.calls.fails(false) {
            return Err(ShelfError::Failed);
        }
        let Some(entry) = find(&self.entries, name) else {
            return Err(ShelfError::Unknown);
        };
        file_of(self.alloc, entry).map_err(|_| ShelfError::Memory)
    }

    /// Takes no memory.
    fn close_file(&mut self, file: MemorySource)
        ensures cause { Closes file.calls.faults self.old.calls.faults self.new.calls.faults }
        ensures entries { self.new.entries ≡ self.old.entries }
        ensures calls { self.new.calls ≡ after_close self.old.calls file.calls }
    {
        if file.has_failed() {
            self.calls.add_fault();
        }
    }
}

impl PlaceShelf for MemoryShelf {
    type Place = MemoryDisk;

    /// Copies the entry, and looks through the list of failing calls and the entries.
    fn open_place(&mut self, name: &str) -> Result<MemoryDisk, ShelfError>
        ensures unknown { result ≡ Err ShelfError.Unknown → Lacks (Some (held_in self.old.entries)) name.now }
        ensures cause { OpenHasCause self.old.calls.faults self.new.calls.faults result }

        // It fails exactly where its number is listed, and else opens the first entry of the name.
        ensures failing { (result ≡ Err ShelfError.Failed) ↔ IsTrue (is_failing self.old.calls) }
        ensures opened { IfOk result (λ p. MatchOption (entry_of self.old.entries name.now) ⊥ (λ e. p ≡ opened_place e)) }
        ensures entries { self.new.entries ≡ self.old.entries }
        ensures calls { self.new.calls ≡ after_call self.old.calls (is_failing self.old.calls) }
        ensures never { ShelfNeverFails self.old → result ≡ Err ShelfError.Failed → ⊥ }
        ensures never_place { ShelfNeverFails self.old → IfOk result (λ p. SourceNeverFails p.source) }
    {
        if self.calls.fails(false) {
            return Err(ShelfError::Failed);
        }
        let Some(entry) = find(&self.entries, name) else {
            return Err(ShelfError::Unknown);
        };
        place_of(self.alloc, entry).map_err(|_| ShelfError::Memory)
    }

    /// Takes no memory.
    fn close_place(&mut self, name: &str, place: MemoryDisk)
        requires name { IsSome (held_in self.old.entries name.now) }
        ensures held { IsReplaced (Some (held_in self.old.entries)) (Some (held_in self.new.entries)) name.now (Some place.source.bytes) }
        ensures cause { Closes place.source.calls.faults self.old.calls.faults self.new.calls.faults }
        ensures entries { IsStored self.old.entries self.new.entries name.now place.source.bytes }
        ensures calls { self.new.calls ≡ after_close self.old.calls place.source.calls }
    {
        if place.has_failed() {
            self.calls.add_fault();
        }
        store(&mut self.entries, name, place.into_bytes());
    }
}
