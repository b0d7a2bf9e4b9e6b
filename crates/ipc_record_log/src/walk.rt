//! A log's records from the first to the last.
ghost use Rattle.std.specs.Prelude.{◌≡◌, ◌⊎◌, ◌^◌, ◌<◌, ◌≤◌, List, ℕ, Some, None, IfErr, IfOk, OnOk};
ghost use Rattle.ipc_log_disk.specs.Below.{IsOfDisk};
ghost use Rattle.ipc_log_disk.specs.Crashes.{Among, Elapses, Only};
ghost use Rattle.ipc_io.specs.Outside.{Rose};
ghost use Rattle.ipc_record_log.specs.Logs.{IsLog, OnlyReads, invalid_log};
ghost use Rattle.ipc_record_log.specs.Records.{log_records};
ghost use Rattle.arrow_spec.specs.declared.error.IpcError.TheVariants.{Memory, ReadFault};

use crate::Span;
use crate::reads::{has_magic, record_at, size_of};
use arrow_spec::IpcError;
use ipc_log_disk::LogDisk;
use std::alloc::Global;

/// Where the records of a log stand, and the closed gate behind them.
#[derive(Drop)]
pub(crate) struct Walk {
    pub(crate) spans: Vec<Span>,
    pub(crate) end: u64,
}

/// Goes over a log's records up to the gate that is not open.
fn walk_records<D: LogDisk>(alloc: Global, disk: &mut D) -> Result<Walk, IpcError>
    ensures near { IfOk result (λ w. w.end < 2 ^ 63) }
    ensures walked { IfOk result (λ w. (b : List ℕ) → D.content disk.old ≡ Some b → IsLog b w.spans.items w.end) }
    ensures kept { OnlyReads D.content D.images D.moment D.images_since D.faults D.wants D.references disk.old disk.new }
    ensures err { IfErr result (λ e. (e ≡ Memory) ⊎ ((e ≡ ReadFault) × Rose (D.faults disk.old) (D.faults disk.new))
        ⊎ ((e ≡ invalid_log) × ((b : List ℕ) → D.content disk.old ≡ Some b → log_records b ≡ None))) }
{
    let size = size_of(disk)?;
    has_magic(disk, size)?;
    let mut spans = Vec::new(alloc);
    let mut at = 8;
    while let Some(length) = record_at(disk, at, size)? {
        spans.push(Span {
            at: at + 16,
            length,
        })?;
        at += 16 + length;
    }
    Ok(Walk { spans, end: at })
}

/// Syncs, so that what is read is what a crash leaves, and goes over the records.
pub(crate) fn synced_walk<D: LogDisk>(alloc: Global, disk: &mut D) -> Result<Walk, IpcError>
    ensures near { IfOk result (λ w. w.end < 2 ^ 63) }
    ensures walked { IfOk result (λ w. (b : List ℕ) → D.content disk.old ≡ Some b → IsLog b w.spans.items w.end) }
    ensures content { OnOk result (D.content disk.new ≡ D.content disk.old) }
    ensures durable { OnOk result (Only (D.content disk.new) (D.images disk.new)) }
    ensures since { Among (D.images disk.old) (D.images_since disk.new (D.moment disk.old)) }
    ensures time { Elapses (D.moment disk.old) (D.moment disk.new) (D.images_since disk.old) (D.images_since disk.new) }
    ensures err { IfErr result (λ e. (e ≡ Memory) ⊎ IsOfDisk e (D.faults disk.old) (D.faults disk.new) (D.wants disk.old) (D.wants disk.new)
        ⊎ ((e ≡ ReadFault) × Rose (D.faults disk.old) (D.faults disk.new))
        ⊎ ((e ≡ invalid_log) × ((b : List ℕ) → D.content disk.old ≡ Some b → log_records b ≡ None))) }
    ensures left { IfErr result (λ e. IsOfDisk e (D.faults disk.old) (D.faults disk.new) (D.wants disk.old) (D.wants disk.new) ⊎ (D.content disk.new ≡ D.content disk.old)) }
    ensures later { D.faults disk.old ≤ D.faults disk.new }
    ensures same_references { D.references disk.new ≡ D.references disk.old }
{
    disk.sync()?;
    walk_records(alloc, disk)
}
