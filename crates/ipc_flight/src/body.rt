//! The body of a message in memory.
ghost use Rattle.std.specs.Prelude.{◌≡◌, ◌^◌, ◌<◌, Some, length};

use ipc_files::{Body, Failed, Got, Source};

/// The bytes of a body, as a source that never fails.
#[derive(Drop)]
pub(crate) struct HeldBody {
    pub(crate) bytes: Vec<u8>,
}

impl HeldBody {
    /// Where the body stands: all of the bytes.
    pub(crate) fn place(&self) -> Body
        ensures place { result ≡ record { offset = 0; length = length self.now.bytes.items } }
        ensures small { length self.now.bytes.items < 2 ^ 63 }
    {
        Body {
            offset: 0,
            length: self.bytes.len() as u64,
        }
    }
}

impl Source for HeldBody {
    ghost content = { λ s. Some s.bytes.items };

    ghost faults = { λ _. 0 };

    ghost fetched = { λ _. 0 };

    fn size(&mut self) -> Result<u64, Failed> {
        Ok(self.bytes.len() as u64)
    }

    fn read_at(&mut self, at: u64, out: &mut [u8]) -> Result<Got, Failed> {
        let size = self.bytes.len() as u64;
        let wanted = out.len() as u64;
        if at > size || size - at < wanted {
            return Ok(Got::Short);
        }
        let start = at as usize;
        out.copy_from_slice(&self.bytes[start..start + out.len()]);
        Ok(Got::Full)
    }
}
