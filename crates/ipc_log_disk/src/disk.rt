//! Bytes that are read and written at places, and what a crash may leave of them.
ghost use Rattle.std.specs.Prelude.{◌≡◌, ℕ, ◌+◌, ◌^◌, ◌<◌, ◌≤◌, List, [], Option, Some, length, IfOk, OnOk, is_some};
ghost use Rattle.ipc_io.specs.Outside.{HasCause, PutHasCause, IsSize, Reads};
ghost use Rattle.ipc_disk.specs.Disks.{IsWithin, WritesAt};
ghost use Rattle.ipc_log_disk.specs.Crashes.{Images, SameImages, Among, Only, IsTorn, Elapses};

use ipc_io::{Failed, Got, PutError};

/// Bytes that are read at any place and written at any place up to their end, and that outlive a crash once they are synced.
///
/// An image is what a crash may leave. Between two syncs each range that was written, and what passes the old end, may hold any bytes;
/// the bytes outside stay.
pub trait LogDisk {
    /// The bytes, where they are told.
    ghost content: { Self → Option (List ℕ) };

    /// How often a call has failed.
    ghost faults: { Self → ℕ };

    /// How often a call has wanted memory.
    ghost wants: { Self → ℕ };

    /// How many bytes have been asked for at most.
    ghost fetched: { Self → ℕ };

    /// The moment, as a number that does not fall.
    ghost moment: { Self → ℕ };

    /// The images that a crash now may leave.
    ghost images: { Self → Images };

    /// The images that a crash at some moment since that one might have left, during a call or between two.
    ghost images_since: { Self → ℕ → Images };

    /// The names of the references that it holds, outermost first. No call changes them.
    ghost references: { Self → List ℕ } = { λ _. [] };

    /// The number of bytes.
    fn size(&mut self) -> Result<u64, Failed>
        ensures size { IfOk result (λ n. IsSize (content self.old) n) }
        ensures bound { IfOk result (λ n. n < 2 ^ 63) }
        ensures content { content self.new ≡ content self.old }
        ensures images { SameImages (images self.old) (images self.new) }
        ensures since { Among (images self.old) (images_since self.new (moment self.old)) }
        ensures time { Elapses (moment self.old) (moment self.new) (images_since self.old) (images_since self.new) }
        ensures fetched { fetched self.new ≡ fetched self.old }
        ensures cause { HasCause (faults self.old) (faults self.new) result }
        ensures wants { wants self.new ≡ wants self.old }
        ensures same_references { references self.new ≡ references self.old };

    /// Fills `out` with the bytes from `at` on.
    fn read_at(&mut self, at: u64, out: &mut [u8]) -> Result<Got, Failed>
        ensures bytes { Reads (content self.old) at result out.new }
        ensures content { content self.new ≡ content self.old }
        ensures images { SameImages (images self.old) (images self.new) }
        ensures since { Among (images self.old) (images_since self.new (moment self.old)) }
        ensures time { Elapses (moment self.old) (moment self.new) (images_since self.old) (images_since self.new) }
        ensures fetched { fetched self.old ≤ fetched self.new }
        ensures fetched_at_most { fetched self.new ≤ fetched self.old + length out.new }
        ensures cause { HasCause (faults self.old) (faults self.new) result }
        ensures wants { wants self.new ≡ wants self.old }
        ensures same_references { references self.new ≡ references self.old };

    /// Writes all bytes, from `at` on. Those that pass the end are added. A failed call may have changed what stands in the
    /// range that was to be written, and one that wants memory has changed nothing. Until a sync, a crash may leave any bytes in the range.
    fn write_at(&mut self, at: u64, bytes: &[u8]) -> Result<(), PutError>
        requires within { IsWithin (content self.old) at }
        ensures bytes { WritesAt (content self.old) (content self.new) at result bytes.now }
        ensures bound { OnOk result (at + length bytes.now < 2 ^ 63) }
        ensures since { (c : List ℕ) → images_since self.new (moment self.old) c → IsTorn (images self.old) at (length bytes.now) c }
        ensures time { Elapses (moment self.old) (moment self.new) (images_since self.old) (images_since self.new) }
        ensures fetched { fetched self.new ≡ fetched self.old }
        ensures cause { PutHasCause (faults self.old) (faults self.new) (wants self.old) (wants self.new) result }
        ensures same_references { references self.new ≡ references self.old };

    /// After it, a crash leaves what a read gives. It adds no image, whatever it answers.
    fn sync(&mut self) -> Result<(), PutError>
        ensures durable { OnOk result (Only (content self.new) (images self.new)) }
        ensures content { OnOk result (content self.new ≡ content self.old) }
        ensures told { is_some (content self.new) ≡ is_some (content self.old) }
        ensures since { Among (images self.old) (images_since self.new (moment self.old)) }
        ensures time { Elapses (moment self.old) (moment self.new) (images_since self.old) (images_since self.new) }
        ensures fetched { fetched self.new ≡ fetched self.old }
        ensures cause { PutHasCause (faults self.old) (faults self.new) (wants self.old) (wants self.new) result }
        ensures same_references { references self.new ≡ references self.old };

    /// The bytes that are told are an image.
    ghost content_is_image: { (disk : Self) (b : List ℕ) → content disk ≡ Some b → images disk b };

    /// This moment is one of those since an earlier one.
    ghost counts_now: { (disk : Self) (t : ℕ) (c : List ℕ) → t ≤ moment disk → images disk c → images_since disk t c };

    /// Since this moment there is no other.
    ghost only_now: { (disk : Self) (c : List ℕ) → images_since disk (moment disk) c → images disk c };
}
