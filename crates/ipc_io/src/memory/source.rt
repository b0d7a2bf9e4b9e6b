//! A source over memory.
ghost use Rattle.std.specs.Prelude.{◌≡◌, ◌↔◌, ◌^◌, ◌+◌, ◌<◌, ◌≤◌, Some, length, IfOk, IsOk, IsErr, IsTrue, is_err};
ghost use Rattle.ipc_io.specs.Outside.{HasCause, IsSize, Reads};
ghost use Rattle.ipc_io.specs.Memory.{SourceState, SourceNeverFails, new_source, is_failing, holds_place, is_read_failing, after_size, after_read};

use super::calls::FailingCalls;
use crate::{Failed, Got, Source};
use std::marker::Model;

/// Bytes in memory, the calls that fail, and the places that cannot be read.
///
/// `size` and `read_at` are the calls that are counted. A read whose range holds one of the places fails.
#[derive(Drop)]
pub struct MemorySource {
    bytes: Vec<u8>,
    places: Vec<u64>,
    calls: FailingCalls,
    fetched: u64,
}

impl Model for MemorySource {
    ghost Value = { SourceState };

    ghost view = { λ s. record { bytes = s.bytes.items; places = s.places.items; calls = s.calls; fetched = s.fetched } };
}

impl MemorySource {
    /// Takes its parts as they are: no copy, no memory.
    pub fn new(bytes: Vec<u8>, failing: Vec<u64>, places: Vec<u64>) -> Self
        ensures { result ≡ new_source bytes.items failing.items places.items }
    {
        MemorySource {
            bytes,
            places,
            calls: FailingCalls::new(failing),
            fetched: 0,
        }
    }

    /// Whether a call has failed.
    pub fn has_failed(&self) -> bool
        ensures { IsTrue result ↔ (0 < self.now.calls.faults) }
    {
        self.calls.any_failed()
    }
}

/// Whether one of the places is among `count` bytes from `at` on.
pub fn has_place(places: &[u64], at: u64, count: u64) -> bool
    ensures { result ≡ holds_place places.now at count }
{
    places.iter().any(|p| *p >= at && *p - at < count)
}

impl Source for MemorySource {
    ghost content = { λ s. Some s.bytes };

    ghost faults = { λ s. s.calls.faults };

    ghost fetched = { λ s. s.fetched };

    /// Looks through the list of failing calls.
    fn size(&mut self) -> Result<u64, Failed>
        ensures size { IfOk result (λ n. IsSize (Some self.old.bytes) n) }
        ensures bound { IfOk result (λ n. n < 2 ^ 63) }
        ensures cause { HasCause self.old.calls.faults self.new.calls.faults result }

        // It fails exactly where its number is listed.
        ensures failing { is_err result ≡ is_failing self.old.calls }
        ensures after { self.new ≡ after_size self.old (is_err result) }
        ensures never { SourceNeverFails self.old → IsOk result }
    {
        if self.calls.fails(false) {
            return Err(Failed);
        }
        Ok(self.bytes.len() as u64)
    }

    /// Copies the bytes, and looks through both lists.
    fn read_at(&mut self, at: u64, out: &mut [u8]) -> Result<Got, Failed>
        ensures bytes { Reads (Some self.old.bytes) at result out.new }
        ensures cause { HasCause self.old.calls.faults self.new.calls.faults result }

        // It fails exactly where its number is listed or its range holds a place.
        ensures failing { is_err result ≡ is_read_failing self.old at (length out.new) }
        ensures after { self.new ≡ after_read self.old (length out.new) (is_err result) }
        ensures never { SourceNeverFails self.old → IsOk result }
    {
        let wanted = out.len() as u64;
        self.fetched = self.fetched.saturating_add(wanted);
        let has_place = has_place(&self.places, at, wanted);
        if self.calls.fails(has_place) {
            return Err(Failed);
        }
        let size = self.bytes.len() as u64;
        if at > size || size - at < wanted {
            return Ok(Got::Short);
        }
        let start = at as usize;
        out.copy_from_slice(&self.bytes[start..start + out.len()]);
        Ok(Got::Full)
    }
}
