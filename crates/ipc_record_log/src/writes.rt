//! A write that is on the disk when it is done.
ghost use Rattle.std.specs.Prelude.{◌≡◌, ◌+◌, ◌^◌, ◌<◌, ◌≤◌, List, ℕ, length, OnOk, option_map};
ghost use Rattle.ipc_io.specs.Outside.{PutHasCause};
ghost use Rattle.ipc_log_disk.specs.Below.{IsWithin, overwritten};
ghost use Rattle.ipc_log_disk.specs.Crashes.{Only, IsTorn, Elapses};

use ipc_io::PutError;
use ipc_log_disk::LogDisk;

/// Writes all bytes from a place on, and syncs.
pub(crate) fn write_synced<D: LogDisk>(disk: &mut D, at: u64, bytes: &[u8]) -> Result<(), PutError>
    requires within { IsWithin (D.content disk.old) at }
    ensures bytes { OnOk result (D.content disk.new ≡ option_map (λ b. overwritten b at bytes.now) (D.content disk.old)) }
    ensures durable { OnOk result (Only (D.content disk.new) (D.images disk.new)) }
    ensures bound { OnOk result (at + length bytes.now < 2 ^ 63) }
    ensures since { (c : List ℕ) → D.images_since disk.new (D.moment disk.old) c → IsTorn (D.images disk.old) at (length bytes.now) c }
    ensures time { Elapses (D.moment disk.old) (D.moment disk.new) (D.images_since disk.old) (D.images_since disk.new) }
    ensures fetched { D.fetched disk.new ≡ D.fetched disk.old }
    ensures cause { PutHasCause (D.faults disk.old) (D.faults disk.new) (D.wants disk.old) (D.wants disk.new) result }
    ensures same_references { D.references disk.new ≡ D.references disk.old }
{
    disk.write_at(at, bytes)?;
    disk.sync()
}
