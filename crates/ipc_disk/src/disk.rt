//! Bytes that are read and written at places.
ghost use Rattle.std.specs.Prelude.{◌≡◌, ℕ, ◌+◌, ◌^◌, ◌<◌, length, OnOk};
ghost use Rattle.ipc_io.specs.Outside.{HasCause, PutHasCause};
ghost use Rattle.ipc_disk.specs.Disks.{IsWithin, WritesAt, Cuts};

use ipc_io::{Failed, PutError, Source};

/// Bytes that are read at any place, and written at any place up to their end.
///
/// The calls of [`Source`] change no byte, as they say there. Those here do.
pub trait Disk: Source {
    /// How often a call has wanted memory.
    ghost wants: { Self → ℕ };

    /// Writes all bytes, from `at` on. Those that pass the end are added. A failed call may have changed what stands in the
    /// range that was to be written, and one that wants memory has changed nothing.
    fn write_at(&mut self, at: u64, bytes: &[u8]) -> Result<(), PutError>
        requires within { IsWithin (Self.content self.old) at }
        ensures bytes { WritesAt (Self.content self.old) (Self.content self.new) at result bytes.now }
        ensures bound { OnOk result (at + length bytes.now < 2 ^ 63) }
        ensures fetched { Self.fetched self.new ≡ Self.fetched self.old }
        ensures cause { PutHasCause (Self.faults self.old) (Self.faults self.new) (wants self.old) (wants self.new) result }
        ensures same_references { Self.references self.new ≡ Self.references self.old };

    /// Leaves so many bytes from the front.
    fn cut(&mut self, count: u64) -> Result<(), Failed>
        requires within { IsWithin (Self.content self.old) count }
        ensures bytes { Cuts (Self.content self.old) (Self.content self.new) count result }
        ensures fetched { Self.fetched self.new ≡ Self.fetched self.old }
        ensures cause { HasCause (Self.faults self.old) (Self.faults self.new) result }
        ensures wants { wants self.new ≡ wants self.old }
        ensures same_references { Self.references self.new ≡ Self.references self.old };
}
