//! A sink over memory of which no call fails but for want of memory.
ghost use Rattle.std.specs.Prelude.{◌≡◌, [], Some};

use ipc_io::{PutError, Sink};
use std::alloc::Global;

/// Bytes that are added up in memory. A put may want memory for twice the bytes so far; it never fails otherwise.
#[derive(Drop)]
pub struct Collected {
    bytes: Vec<u8>,
    wants: u64,
}

impl Collected {
    /// No bytes yet. It takes no memory.
    pub fn new(alloc: Global) -> Collected
        ensures bytes { result.bytes.items ≡ [] }
        ensures wants { result.wants ≡ 0 }
    {
        Collected {
            bytes: Vec::new(alloc),
            wants: 0,
        }
    }

    /// The bytes.
    pub fn into_bytes(self) -> Vec<u8>
        ensures { result ≡ self.bytes }
    {
        let Collected { bytes, wants: _ } = self;
        bytes
    }
}

impl Sink for Collected {
    ghost written = { λ s. Some s.bytes.items };

    ghost faults = { λ s. 0 };

    ghost wants = { λ s. s.wants };

    fn put(&mut self, bytes: &[u8]) -> Result<(), PutError> {
        if self.bytes.extend_from_slice(bytes).is_err() {
            self.wants = self.wants.saturating_add(1);
            return Err(PutError::Memory);
        }
        Ok(())
    }
}
