//! A log that is begun.
ghost use Rattle.std.specs.Prelude.{◌≡◌, ◌⊎◌, ◌+◌, ◌^◌, ◌<◌, ◌≤◌, ◌++◌, ◌∷◌, [], length, IfErr, IfOk, OnOk, option_map};
ghost use Rattle.ipc_io.specs.Outside.{IsSize};
ghost use Rattle.ipc_log_disk.specs.Below.{IsOfDisk, overwritten};
ghost use Rattle.ipc_log_disk.specs.Crashes.{Elapses, Only};
ghost use Rattle.ipc_record_log.specs.Records.{open_records};
ghost use Rattle.arrow_spec.specs.declared.error.IpcError.TheVariants.{Memory};

use crate::Span;
use crate::framing::push_record;
use crate::reads::MAGIC;
use crate::writes::write_synced;
use arrow_spec::IpcError;
use ipc_log_disk::LogDisk;
use std::alloc::{AllocError, Global};

/// The bytes of a log with one record.
fn first_bytes(alloc: Global, first: &[u8]) -> Result<Vec<u8>, AllocError>
    ensures { IfOk result (λ v. v.items ≡ open_records (first.now ∷ []) ++ 0 ∷ []) }
{
    let mut bytes = Vec::new(alloc);
    bytes.extend_from_slice(&MAGIC)?;
    bytes.push(1)?;
    push_record(&mut bytes, first)?;
    Ok(bytes)
}

/// Puts a log with one record on a disk without bytes, and says where the record stands. All memory is taken first.
pub(crate) fn begin<D: LogDisk>(
    alloc: Global,
    disk: &mut D,
    first: &[u8],
) -> Result<Vec<Span>, IpcError>
    requires empty { IsSize (D.content disk.old) 0 }
    ensures spans { IfOk result (λ v. v.items ≡ record { at = 24; length = length first.now } ∷ []) }
    ensures bound { OnOk result (24 + length first.now < 2 ^ 63) }
    ensures content { OnOk result (D.content disk.new ≡ option_map (λ b. overwritten b 0 (open_records (first.now ∷ []) ++ 0 ∷ [])) (D.content disk.old)) }
    ensures durable { OnOk result (Only (D.content disk.new) (D.images disk.new)) }
    ensures time { Elapses (D.moment disk.old) (D.moment disk.new) (D.images_since disk.old) (D.images_since disk.new) }
    ensures err { IfErr result (λ e. ((e ≡ Memory) × (disk.new ≡ disk.old)) ⊎ IsOfDisk e (D.faults disk.old) (D.faults disk.new) (D.wants disk.old) (D.wants disk.new)) }
    ensures later { D.faults disk.old ≤ D.faults disk.new }
    ensures same_references { D.references disk.new ≡ D.references disk.old }
{
    let bytes = first_bytes(alloc, first)?;
    let mut spans = Vec::new(alloc);
    spans.push(Span {
        at: 24,
        length: first.len() as u64,
    })?;
    write_synced(disk, 0, &bytes)?;
    Ok(spans)
}
