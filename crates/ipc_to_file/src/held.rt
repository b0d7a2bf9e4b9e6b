//! A file in memory.
ghost use Rattle.std.specs.Prelude.{◌≡◌, [], Some};

use ipc_io::{PutError, Sink};
use std::alloc::Global;

/// The bytes of a file that are added up in memory. A put may want memory for twice the bytes so far; it never fails otherwise.
#[derive(Drop)]
pub(crate) struct HeldFile {
    bytes: Vec<u8>,
    wants: u64,
}

impl HeldFile {
    /// No bytes yet. It takes no memory.
    pub(crate) fn new(alloc: Global) -> HeldFile
        ensures { result.bytes.items ≡ [] }
    {
        HeldFile {
            bytes: Vec::new(alloc),
            wants: 0,
        }
    }

    /// The bytes.
    pub(crate) fn into_bytes(self) -> Vec<u8>
        ensures { result ≡ self.bytes }
    {
        self.bytes
    }
}

impl Sink for HeldFile {
    ghost written = { λ s. Some s.bytes.items };

    ghost faults = { λ s. 0 };

    ghost wants = { λ s. s.wants };

    fn put(&mut self, bytes: &[u8]) -> Result<(), PutError> {
        if self.bytes.extend_from_slice(bytes).is_err() {
            self.wants = self.wants.saturating_add(1);
            return Err(PutError::Memory);
        }
        Ok(())
    }
}
