//! A sink over memory.
ghost use Rattle.std.specs.Prelude.{◌≡◌, ◌⊎◌, ◌<◌, ◌≤◌, ◌++◌, [], Some, None, option_copied, length, take, OnOk, IsTrue, IsFalse};
ghost use Rattle.ipc_io.specs.Outside.{Puts, PutHasCause};
ghost use Rattle.ipc_io.specs.Memory.{SinkState, SinkNeverFails, no_calls, is_failing, after_call, fitting, put_in_vain, is_failed};

use super::calls::FailingCalls;
use crate::{PutError, Sink};
use std::alloc::Global;
use std::marker::Model;

/// Bytes in memory that are added up, with room for so many in all where `room` says so.
///
/// A put that passes the room adds what there is room for, and fails.
#[derive(Drop)]
pub struct MemorySink {
    bytes: Vec<u8>,
    room: Option<usize>,
    calls: FailingCalls,
    wants: u64,
}

impl Model for MemorySink {
    ghost Value = { SinkState };

    ghost view = { λ s. record { written = s.bytes.items; room = s.room; calls = s.calls; wants = s.wants } };
}

impl MemorySink {
    /// Has no bytes yet, and takes no memory.
    pub fn new(alloc: Global, room: Option<usize>, failing: Vec<u64>) -> Self
        ensures { result ≡ record { written = []; room = room; calls = no_calls failing.items; wants = 0 } }
    {
        MemorySink {
            bytes: Vec::new(alloc),
            room,
            calls: FailingCalls::new(failing),
            wants: 0,
        }
    }

    /// The bytes so far.
    pub fn bytes(&self) -> &[u8]
        ensures { result.now ≡ self.now.written }
    {
        &self.bytes
    }

    // How many of so many bytes there is room for.
    fn room_for(&self, count: usize) -> usize
        ensures fitting { result ≡ fitting self.now.room (length self.now.written) count }
        ensures at_most { result ≤ count }
    {
        match self.room {
            Some(room) => count.min(room.saturating_sub(self.bytes.len())),
            None => count,
        }
    }
}

impl Sink for MemorySink {
    ghost written = { λ s. Some s.written };

    ghost faults = { λ s. s.calls.faults };

    ghost wants = { λ s. s.wants };

    /// Copies the bytes, and looks through the list of failing calls. It may want memory for twice the bytes so far.
    fn put(&mut self, bytes: &[u8]) -> Result<(), PutError>
        ensures bytes { Puts (Some self.old.written) (Some self.new.written) result bytes.now }
        ensures cause { PutHasCause self.old.calls.faults self.new.calls.faults self.old.wants self.new.wants result }

        // It fails where its number is listed or the room ends, and then adds what fits, or nothing by its number.
        ensures failing { IsTrue (is_failing self.old.calls) → result ≡ Err PutError.Failed }
        ensures failed { result ≡ Err PutError.Failed → IsTrue (is_failing self.old.calls) ⊎ (fitting self.old.room (length self.old.written) (length bytes.now) < length bytes.now) }
        ensures fits { OnOk result (fitting self.old.room (length self.old.written) (length bytes.now) ≡ length bytes.now) }
        ensures in_vain { result ≡ Err PutError.Failed → self.new.written ≡ self.old.written ++ take (put_in_vain self.old (length bytes.now)) bytes.now }
        ensures calls { self.new.calls ≡ after_call self.old.calls (is_failed result) }
        ensures room { self.new.room ≡ self.old.room }
        ensures never { SinkNeverFails self.old → result ≡ Err PutError.Failed → ⊥ }
    {
        if self.calls.fails(false) {
            return Err(PutError::Failed);
        }
        let fits = self.room_for(bytes.len());
        if self.bytes.extend_from_slice(&bytes[..fits]).is_err() {
            self.wants = self.wants.saturating_add(1);
            return Err(PutError::Memory);
        }
        if fits < bytes.len() {
            self.calls.add_fault();
            return Err(PutError::Failed);
        }
        Ok(())
    }
}
