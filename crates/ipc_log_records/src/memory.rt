//! A sink and a feed over memory, of which no call fails but for want of memory.
ghost use Rattle.std.specs.Prelude.{◌≡◌, ◌≤◌, [], Some, drop, length};

use ipc_io::{Failed, Feed, PutError, Sink};
use std::alloc::Global;

/// Bytes that are added up.
#[derive(Drop)]
pub(crate) struct BytesSink {
    pub(crate) bytes: Vec<u8>,
    wants: u64,
}

impl BytesSink {
    /// No bytes yet. It takes no memory.
    pub(crate) fn new(alloc: Global) -> BytesSink
        ensures { result.bytes.items ≡ [] }
    {
        BytesSink {
            bytes: Vec::new(alloc),
            wants: 0,
        }
    }

    /// The bytes.
    pub(crate) fn into_bytes(self) -> Vec<u8>
        ensures { result ≡ self.bytes }
    {
        let BytesSink { bytes, wants: _ } = self;
        bytes
    }
}

impl Sink for BytesSink {
    ghost written = { λ s. Some s.bytes.items };

    ghost faults = { λ s. 0 };

    ghost wants = { λ s. s.wants };

    fn put(&mut self, bytes: &[u8]) -> Result<(), PutError> {
        if self.bytes.extend_from_slice(bytes).is_err() {
            self.wants = self.wants.saturating_add(1);
            return Err(PutError::Memory);
        }
        Ok(())
    }
}

/// Bytes that are handed out from the front.
#[derive(Drop)]
pub(crate) struct BytesFeed {
    pub(crate) bytes: Vec<u8>,
    pub(crate) at: usize,
    ghost within: { at ≤ length bytes.items },
}

impl Feed for BytesFeed {
    ghost rest = { λ s. Some (drop s.at s.bytes.items) };

    ghost faults = { λ s. 0 };

    fn pull(&mut self, out: &mut [u8]) -> Result<usize, Failed> {
        let count = out.len().min(self.bytes.len() - self.at);
        out[..count].copy_from_slice(&self.bytes[self.at..self.at + count]);
        self.at += count;
        Ok(count)
    }
}
