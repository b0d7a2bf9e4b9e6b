//! A feed without an end.
ghost use Rattle.std.specs.Prelude.{None};

use ipc_io::{Failed, Feed};

/// Bytes, and behind them one piece over and over without an end, which is held once. It does not tell the bytes that are left.
#[derive(Drop)]
pub struct LoopFeed {
    front: Vec<u8>,
    piece: Vec<u8>,
    /// How many bytes were handed out of what is handed out now: of the front, or of the piece.
    at: usize,
    begun: usize,
}

impl LoopFeed {
    /// Takes its parts as they are: no copy, no memory.
    pub fn new(front: Vec<u8>, piece: Vec<u8>) -> Self {
        LoopFeed {
            front,
            piece,
            at: 0,
            begun: 0,
        }
    }

    /// How often the piece was begun.
    pub fn begun(&self) -> usize {
        self.begun
    }

    fn left(&self) -> &[u8] {
        let bytes = if self.begun == 0 {
            self.front.as_slice()
        } else {
            self.piece.as_slice()
        };
        bytes.get(self.at..).unwrap_or(&[])
    }
}

impl Feed for LoopFeed {
    ghost rest = { λ _. None };

    ghost faults = { λ _. 0 };

    /// What is left of the front, or of the piece, at most.
    fn pull(&mut self, out: &mut [u8]) -> Result<usize, Failed> {
        if self.left().is_empty() {
            self.begun = self.begun.saturating_add(1);
            self.at = 0;
        }
        let left = self.left();
        let count = left.len().min(out.len());
        out[..count].copy_from_slice(&left[..count]);
        self.at = self.at.saturating_add(count);
        Ok(count)
    }
}
