//! A file in memory whose bytes are lent, as a source.
ghost use Rattle.std.specs.Prelude.{◌≡◌, Some};

use ipc_files::{Failed, Got, Source};

/// Bytes that are lent and read where they stand, as of a file's metadata. No call fails.
#[derive(Drop)]
pub struct LentSource<'a> {
    bytes: &'a [u8],
}

impl<'a> LentSource<'a> {
    /// The bytes as they are.
    pub fn new(bytes: &'a [u8]) -> LentSource<'a>
        ensures { result.bytes.now ≡ bytes.now }
    {
        LentSource { bytes }
    }
}

impl<'a> Source for LentSource<'a> {
    ghost content = { λ s. Some s.bytes.now };

    ghost faults = { λ _. 0 };

    ghost fetched = { λ _. 0 };

    fn size(&mut self) -> Result<u64, Failed> {
        Ok(self.bytes.len() as u64)
    }

    fn read_at(&mut self, at: u64, out: &mut [u8]) -> Result<Got, Failed> {
        let size = self.bytes.len() as u64;
        if at > size || size - at < out.len() as u64 {
            return Ok(Got::Short);
        }
        let start = at as usize;
        out.copy_from_slice(&self.bytes[start..start + out.len()]);
        Ok(Got::Full)
    }
}
