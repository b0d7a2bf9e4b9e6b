//! A disk over memory.
ghost use Rattle.std.specs.Prelude.{◌≡◌, ◌↔◌, ◌+◌, ◌-◌, ◌^◌, ◌<◌, ◌≤◌, [], Some, length, take, IfOk, IsOk, IsTrue, OnErr, OnOk, is_err, Ok};
ghost use Rattle.ipc_io.specs.Outside.{HasCause, PutHasCause, IsSize, Reads};
ghost use Rattle.ipc_io.specs.Memory.{SourceNeverFails, new_source, counted, is_failing, is_read_failing, after_size, after_read};
ghost use Rattle.ipc_disk.specs.Disks.{WritesAt, Cuts, overwritten};
ghost use Rattle.ipc_disk.specs.Memory.{DiskState, written_in_place, after_change};

use crate::Disk;
use ipc_io::{Failed, FailingCalls, Got, PutError, Source, has_place};
use std::alloc::AllocError;
use std::marker::Model;

/// Bytes in memory, the calls that fail, and the places that cannot be read.
///
/// `size`, `read_at`, `write_at` and `cut` are the calls that are counted. A read whose range holds one of the places
/// fails. A write that fails has written over the bytes that stood in its range, up to the end, and has added none.
#[derive(Drop)]
pub struct MemoryDisk {
    bytes: Vec<u8>,
    places: Vec<u64>,
    calls: FailingCalls,
    fetched: u64,
    wants: u64,
}

impl Model for MemoryDisk {
    ghost Value = { DiskState };

    ghost view = { λ s. record { source = record { bytes = s.bytes.items; places = s.places.items; calls = s.calls; fetched = s.fetched }; wants = s.wants } };
}

impl MemoryDisk {
    /// Takes its parts as they are: no copy, no memory.
    pub fn new(bytes: Vec<u8>, failing: Vec<u64>, places: Vec<u64>) -> Self
        ensures { result ≡ record { source = new_source bytes.items failing.items places.items; wants = 0 } }
    {
        MemoryDisk {
            bytes,
            places,
            calls: FailingCalls::new(failing),
            fetched: 0,
            wants: 0,
        }
    }

    /// The bytes as they stand.
    pub fn bytes(&self) -> &[u8]
        ensures { result.now ≡ self.now.source.bytes }
    {
        &self.bytes
    }

    /// Whether a call has failed.
    pub fn has_failed(&self) -> bool
        ensures { IsTrue result ↔ (0 < self.now.source.calls.faults) }
    {
        self.calls.any_failed()
    }

    /// The bytes as they stand.
    pub fn into_bytes(self) -> Vec<u8>
        ensures { result.items ≡ self.source.bytes }
    {
        self.bytes
    }
}

// Writes over what stands from a place on, up to the end.
fn write_over(held: &mut [u8], at: usize, bytes: &[u8])
    requires { at ≤ length held.old }
    ensures { held.new ≡ written_in_place held.old at bytes.now }
{
    let count = bytes.len().min(held.len() - at);
    held[at..at + count].copy_from_slice(&bytes[..count]);
}

// Writes over what stands from a place on, and adds what passes the end. Where it wants memory it has changed nothing.
fn write_all(held: &mut Vec<u8>, at: usize, bytes: &[u8]) -> Result<(), AllocError>
    requires { at ≤ length held.old.items }
    ensures ok { OnOk result (held.new.items ≡ overwritten held.old.items at bytes.now) }
    ensures err { OnErr result (held.new.items ≡ held.old.items) }
{
    let over = bytes.len().min(held.len() - at);
    held.extend_from_slice(&bytes[over..])?;
    write_over(held, at, bytes);
    Ok(())
}

impl Source for MemoryDisk {
    ghost content = { λ s. Some s.source.bytes };

    ghost faults = { λ s. s.source.calls.faults };

    ghost fetched = { λ s. s.source.fetched };

    /// Looks through the list of failing calls.
    fn size(&mut self) -> Result<u64, Failed>
        ensures size { IfOk result (λ n. IsSize (Some self.old.source.bytes) n) }
        ensures bound { IfOk result (λ n. n < 2 ^ 63) }
        ensures cause { HasCause self.old.source.calls.faults self.new.source.calls.faults result }

        // It fails exactly where its number is listed.
        ensures failing { is_err result ≡ is_failing self.old.source.calls }
        ensures after { self.new.source ≡ after_size self.old.source (is_err result) }
        ensures wants { self.new.wants ≡ self.old.wants }
        ensures never { SourceNeverFails self.old.source → IsOk result }
    {
        if self.calls.fails(false) {
            return Err(Failed);
        }
        Ok(self.bytes.len() as u64)
    }

    /// Copies the bytes, and looks through both lists.
    fn read_at(&mut self, at: u64, out: &mut [u8]) -> Result<Got, Failed>
        ensures bytes { Reads (Some self.old.source.bytes) at result out.new }
        ensures cause { HasCause self.old.source.calls.faults self.new.source.calls.faults result }

        // It fails exactly where its number is listed or its range holds a place.
        ensures failing { is_err result ≡ is_read_failing self.old.source at (length out.new) }
        ensures after { self.new.source ≡ after_read self.old.source (length out.new) (is_err result) }
        ensures wants { self.new.wants ≡ self.old.wants }
        ensures never { SourceNeverFails self.old.source → IsOk result }
    {
        let wanted = out.len() as u64;
        self.fetched = self.fetched.saturating_add(wanted);
        let has_place = has_place(&self.places, at, wanted);
        if self.calls.fails(has_place) {
            return Err(Failed);
        }
        let size = self.bytes.len() as u64;
        if at > size || size - at < wanted {
            return Ok(Got::Short);
        }
        let start = at as usize;
        out.copy_from_slice(&self.bytes[start..start + out.len()]);
        Ok(Got::Full)
    }
}

impl Disk for MemoryDisk {
    ghost wants = { λ s. s.wants };

    /// Copies the bytes, and looks through the list of failing calls. It may want memory for twice the bytes so far.
    fn write_at(&mut self, at: u64, bytes: &[u8]) -> Result<(), PutError>
        requires within { at ≤ length self.old.source.bytes }
        ensures bytes { WritesAt (Some self.old.source.bytes) (Some self.new.source.bytes) at result bytes.now }
        ensures bound { OnOk result (at + length bytes.now < 2 ^ 63) }
        ensures cause { PutHasCause self.old.source.calls.faults self.new.source.calls.faults self.old.wants self.new.wants result }

        // It fails exactly where its number is listed, and has then written over what stood in its range.
        ensures failing { (result ≡ Err PutError.Failed) ↔ IsTrue (is_failing self.old.source.calls) }
        ensures in_vain { result ≡ Err PutError.Failed → self.new.source.bytes ≡ written_in_place self.old.source.bytes at bytes.now }
        ensures after { self.new.source ≡ after_change self.old.source self.new.source.bytes (is_failing self.old.source.calls) }
        ensures never { SourceNeverFails self.old.source → result ≡ Err PutError.Failed → ⊥ }
    {
        let start = at as usize;
        if self.calls.fails(false) {
            write_over(&mut self.bytes, start, bytes);
            return Err(PutError::Failed);
        }
        if write_all(&mut self.bytes, start, bytes).is_err() {
            self.wants = self.wants.saturating_add(1);
            return Err(PutError::Memory);
        }
        Ok(())
    }

    /// Looks through the list of failing calls.
    fn cut(&mut self, count: u64) -> Result<(), Failed>
        requires within { count ≤ length self.old.source.bytes }
        ensures bytes { Cuts (Some self.old.source.bytes) (Some self.new.source.bytes) count result }
        ensures cause { HasCause self.old.source.calls.faults self.new.source.calls.faults result }
        ensures wants { self.new.wants ≡ self.old.wants }

        // It fails exactly where its number is listed.
        ensures failing { is_err result ≡ is_failing self.old.source.calls }
        ensures after { self.new.source ≡ after_change self.old.source self.new.source.bytes (is_err result) }
        ensures never { SourceNeverFails self.old.source → IsOk result }
    {
        if self.calls.fails(false) {
            return Err(Failed);
        }
        self.bytes.truncate(count as usize);
        Ok(())
    }
}
