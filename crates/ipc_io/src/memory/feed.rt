//! A feed over memory.
ghost use Rattle.std.specs.Prelude.{◌≡◌, ◌<◌, ◌≤◌, List, ℕ, [], Some, length, drop, IsOk, IfOk, is_err};
ghost use Rattle.std.specs.Io.{ReadsAtMost};
ghost use Rattle.std.specs.Io.KnownBytes.{ReadConsumes};
ghost use Rattle.ipc_io.specs.Outside.{HasCause};
ghost use Rattle.ipc_io.specs.Memory.{FeedState, no_calls, is_failing, after_call, pulled};

use super::calls::FailingCalls;
use crate::{Failed, Feed};
use std::marker::Model;

/// Bytes in memory that are handed out in pieces of at most so many.
#[derive(Drop)]
pub struct MemoryFeed {
    bytes: Vec<u8>,
    at: usize,
    most: usize,
    calls: FailingCalls,
}

impl Model for MemoryFeed {
    ghost Value = { FeedState };

    ghost view = { λ s. record { rest = drop s.at s.bytes.items; most = s.most; calls = s.calls } };

    ghost invariant = { λ s. (s.at ≤ length s.bytes.items) × (0 < s.most) };
}

impl MemoryFeed {
    /// Takes its parts as they are: no copy, no memory. A pull gives at most `most` bytes.
    pub fn new(bytes: Vec<u8>, most: usize, failing: Vec<u64>) -> Self
        requires { 0 < most }
        ensures { result ≡ record { rest = bytes.items; most = most; calls = no_calls failing.items } }
    {
        MemoryFeed {
            bytes,
            at: 0,
            most,
            calls: FailingCalls::new(failing),
        }
    }
}

impl Feed for MemoryFeed {
    ghost rest = { λ s. Some s.rest };

    ghost faults = { λ s. s.calls.faults };

    /// Copies the bytes, and looks through the list of failing calls.
    fn pull(&mut self, out: &mut [u8]) -> Result<usize, Failed>
        ensures count { ReadsAtMost result out.new }
        ensures bytes { ReadConsumes (Some self.old.rest) (Some self.new.rest) result out.new }
        ensures cause { HasCause self.old.calls.faults self.new.calls.faults result }

        // It fails exactly where its number is listed.
        ensures failing { is_err result ≡ is_failing self.old.calls }
        ensures pulled { IfOk result (λ n. n ≡ pulled self.old (length out.new)) }
        ensures calls { self.new.calls ≡ after_call self.old.calls (is_err result) }
        ensures most { self.new.most ≡ self.old.most }
        ensures never { self.old.calls.failing ≡ [] → IsOk result }
    {
        if self.calls.fails(false) {
            return Err(Failed);
        }
        let count = out.len().min(self.most).min(self.bytes.len() - self.at);
        out[..count].copy_from_slice(&self.bytes[self.at..self.at + count]);
        self.at += count;
        Ok(count)
    }
}
