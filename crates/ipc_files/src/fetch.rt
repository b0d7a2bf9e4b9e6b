//! Bytes of a source.
ghost use Rattle.std.specs.Prelude.{◌≡◌, ◌+◌, ◌≤◌, length, IfOk, IfErr};
ghost use Rattle.ipc_files.specs.FileBlocks.{Lies, Fetched, Faulted};
ghost use Rattle.ipc_files.specs.RowCounts.{CountCause};
ghost use Rattle.ipc_io.specs.Outside.{LeavesFaults, SourceKept};

use arrow_spec::{IpcError, OutOfSpecKind};
use ipc_schema::{Got, Source};
use std::alloc::Global;

/// So many bytes of the source from a place on, where they lie inside.
pub(crate) fn fetch<S: Source>(
    alloc: Global,
    source: &mut S,
    at: u64,
    count: usize,
) -> Result<Vec<u8>, IpcError>
    requires { Lies (S.content source.old) at count }
    ensures bytes { IfOk result (λ v. Fetched (S.content source.old) at count v.items) }
    ensures count { IfOk result (λ v. length v.items ≡ count) }
    ensures refused { IfErr result (λ e. Faulted (S.content source.old) e) }
    ensures cause { IfErr result (λ e. CountCause e (S.faults source.old) (S.faults source.new)) }
    ensures faults_stay { LeavesFaults (S.faults source.old) (S.faults source.new) result }
    ensures fetched { S.fetched source.new ≤ S.fetched source.old + count }
    ensures kept { SourceKept S.content S.faults S.references source.old source.new }
{
    let mut bytes = Vec::new(alloc);
    bytes.resize(count, 0)?;
    match source.read_at(at, &mut bytes)? {
        Got::Full => Ok(bytes),
        Got::Short => Err(IpcError::OutOfSpec(OutOfSpecKind::Truncated)),
    }
}
