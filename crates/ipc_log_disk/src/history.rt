//! What a disk had at first, and its changes.
ghost use Rattle.std.specs.Prelude.{◌≡◌, ◌≤◌, IfOk, length, reverse, take};
ghost use Rattle.ipc_log_disk.specs.Histories.{crashed_after};

use crate::Change;
use crate::crash::crashed_bytes;
use std::alloc::{AllocError, Global};

/// The bytes of a disk at first, all of them on the disk, and each change since, in order.
#[derive(Drop)]
pub struct History {
    pub(crate) first: Vec<u8>,
    pub(crate) changes: Vec<Change>,
}

impl History {
    /// How many changes there were.
    pub fn len(&self) -> usize
        ensures { result ≡ length self.now.changes.items }
    {
        self.changes.len()
    }

    /// The bytes that a crash leaves behind so many of the changes: each that was not on the disk is `fill`, and there are `size` of them,
    /// or the nearest number that a crash may leave.
    pub fn crashed(
        &self,
        alloc: Global,
        count: usize,
        fill: u8,
        size: usize,
    ) -> Result<Vec<u8>, AllocError>
        requires { count ≤ length self.now.changes.items }
        ensures { IfOk result (λ v. v.items ≡ crashed_after fill size self.now.first.items (reverse (take count self.now.changes.items))) }
    {
        crashed_bytes(alloc, &self.first, &self.changes[..count], fill, size)
    }
}
