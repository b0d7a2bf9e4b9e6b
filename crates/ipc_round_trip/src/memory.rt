//! A source and a feed over memory, of which no call fails.
ghost use Rattle.std.specs.Prelude.{◌≡◌, ◌≤◌, length, drop, Some};

use ipc_io::{Failed, Feed, Got, Source};

/// Bytes that are read at any place.
#[derive(Drop)]
pub(crate) struct BytesSource {
    pub(crate) bytes: Vec<u8>,
    pub(crate) fetched: u64,
}

impl Source for BytesSource {
    ghost content = { λ s. Some s.bytes.items };

    ghost faults = { λ s. 0 };

    ghost fetched = { λ s. s.fetched };

    fn size(&mut self) -> Result<u64, Failed> {
        Ok(self.bytes.len() as u64)
    }

    fn read_at(&mut self, at: u64, out: &mut [u8]) -> Result<Got, Failed> {
        self.fetched = self.fetched.saturating_add(out.len() as u64);
        let size = self.bytes.len() as u64;
        if at > size || size - at < out.len() as u64 {
            return Ok(Got::Short);
        }
        let start = at as usize;
        out.copy_from_slice(&self.bytes[start..start + out.len()]);
        Ok(Got::Full)
    }
}

/// Bytes that are handed out from the front.
#[derive(Drop)]
pub(crate) struct BytesFeed {
    pub(crate) bytes: Vec<u8>,
    pub(crate) at: usize,
    ghost within: { at ≤ length bytes.items },
}

impl Feed for BytesFeed {
    ghost rest = { λ s. Some (drop s.at s.bytes.items) };

    ghost faults = { λ s. 0 };

    fn pull(&mut self, out: &mut [u8]) -> Result<usize, Failed> {
        let count = out.len().min(self.bytes.len() - self.at);
        out[..count].copy_from_slice(&self.bytes[self.at..self.at + count]);
        self.at += count;
        Ok(count)
    }
}
