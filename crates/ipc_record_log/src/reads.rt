//! What is read of a disk, piece by piece. No call changes a byte, or an image.
ghost use Rattle.std.specs.Prelude.{◌≡◌, ◌≢◌, ◌⊎◌, ◌+◌, ◌-◌, ◌^◌, ◌<◌, ◌≤◌, List, ℕ, suc, length, take, drop, get_or, Some, None, Ok, Err, IfErr, IfOk, IfSome, OnOk, MatchOption};
ghost use Rattle.std.specs.Int.{w64, from_le_bytes};
ghost use Rattle.ipc_io.specs.Outside.{IsSize, PassesEnd, Rose, StandsAt};
ghost use Rattle.ipc_record_log.specs.Logs.{OnlyReads, invalid_log, truncated};
ghost use Rattle.ipc_record_log.specs.Records.{length_bytes, log_records, magic, open_record, records_from};
ghost use Rattle.arrow_spec.specs.declared.error.IpcError.TheVariants.{Memory, ReadFault};

use crate::Span;
use arrow_spec::{IpcError, OutOfSpecKind};
use ipc_io::Got;
use ipc_log_disk::LogDisk;
use std::alloc::Global;

/// The first bytes of a log.
pub(crate) const MAGIC: [u8; 8] = [65, 82, 84, 66, 76, 79, 71, 49];

/// The number of bytes.
pub(crate) fn size_of<D: LogDisk>(disk: &mut D) -> Result<u64, IpcError>
    ensures size { IfOk result (λ n. IsSize (D.content disk.old) n) }
    ensures bound { IfOk result (λ n. n < 2 ^ 63) }
    ensures kept { OnlyReads D.content D.images D.moment D.images_since D.faults D.wants D.references disk.old disk.new }
    ensures err { IfErr result (λ e. (e ≡ ReadFault) × Rose (D.faults disk.old) (D.faults disk.new)) }
{
    Ok(disk.size()?)
}

/// Fills `out` with the bytes from a place on. Where they end before, they are no log's.
pub(crate) fn read_all<D: LogDisk>(disk: &mut D, at: u64, out: &mut [u8]) -> Result<(), IpcError>
    ensures bytes { OnOk result (StandsAt (D.content disk.old) at out.new) }
    ensures kept { OnlyReads D.content D.images D.moment D.images_since D.faults D.wants D.references disk.old disk.new }
    ensures err { IfErr result (λ e. ((e ≡ ReadFault) × Rose (D.faults disk.old) (D.faults disk.new)) ⊎ ((e ≡ invalid_log) × PassesEnd (D.content disk.old) at (length out.new))) }
{
    match disk.read_at(at, out)? {
        Got::Full => Ok(()),
        Got::Short => Err(IpcError::OutOfSpec(OutOfSpecKind::InvalidLog)),
    }
}

/// Whether a log's first bytes stand there.
pub(crate) fn has_magic<D: LogDisk>(disk: &mut D, size: u64) -> Result<(), IpcError>
    requires size { IsSize (D.content disk.old) size }
    ensures front { OnOk result ((b : List ℕ) → D.content disk.old ≡ Some b → (8 ≤ length b) × (take 8 b ≡ magic)) }
    ensures size_front { OnOk result (8 ≤ size) }
    ensures kept { OnlyReads D.content D.images D.moment D.images_since D.faults D.wants D.references disk.old disk.new }
    ensures err { IfErr result (λ e. ((e ≡ ReadFault) × Rose (D.faults disk.old) (D.faults disk.new))
        ⊎ ((e ≡ invalid_log) × ((b : List ℕ) → D.content disk.old ≡ Some b → log_records b ≡ None))) }
{
    if size < 8 {
        return Err(IpcError::OutOfSpec(OutOfSpecKind::InvalidLog));
    }
    let mut front = [0; 8];
    read_all(disk, 0, &mut front)?;
    if front != MAGIC {
        return Err(IpcError::OutOfSpec(OutOfSpecKind::InvalidLog));
    }
    Ok(())
}

/// A length as it is written.
#[tactic(auto, using(crate::proofs::Walking::eight_bytes))]
fn stated_length(stated: &[u8; 8]) -> u64
    ensures reads { result ≡ from_le_bytes w64 stated.now }
    ensures written { length_bytes result ≡ stated.now }
{
    u64::from_le_bytes(*stated)
}

/// The length of an open record whose gate stands at a place; none where the gate there is closed.
pub(crate) fn record_at<D: LogDisk>(
    disk: &mut D,
    at: u64,
    size: u64,
) -> Result<Option<u64>, IpcError>
    requires size { IsSize (D.content disk.old) size }
    requires near { size < 2 ^ 63 }
    ensures inside { IfOk result (λ found. IfSome found (λ n. at + (16 + n) ≤ size)) }
    ensures within { OnOk result (at < size) }
    ensures found { IfOk result (λ found. (b : List ℕ) → D.content disk.old ≡ Some b → MatchOption found
        (get_or b at 1 ≢ 1)
        (λ n. take (16 + n) (drop at b) ≡ open_record (take n (drop (at + 16) b)))) }
    ensures kept { OnlyReads D.content D.images D.moment D.images_since D.faults D.wants D.references disk.old disk.new }
    ensures err { IfErr result (λ e. ((e ≡ ReadFault) × Rose (D.faults disk.old) (D.faults disk.new))
        ⊎ ((e ≡ invalid_log) × ((b : List ℕ) → D.content disk.old ≡ Some b → (most : ℕ) → records_from (suc most) (drop at b) ≡ None))) }
{
    if at >= size {
        return Err(IpcError::OutOfSpec(OutOfSpecKind::InvalidLog));
    }
    let mut gate = [0; 1];
    read_all(disk, at, &mut gate)?;
    if gate[0] != 1 {
        return Ok(None);
    }
    if size - at < 16 {
        return Err(IpcError::OutOfSpec(OutOfSpecKind::InvalidLog));
    }
    let mut zeros = [0; 7];
    read_all(disk, at + 1, &mut zeros)?;
    let mut stated = [0; 8];
    read_all(disk, at + 8, &mut stated)?;
    let length = stated_length(&stated);
    if zeros != [0; 7] || length > size - at - 16 {
        return Err(IpcError::OutOfSpec(OutOfSpecKind::InvalidLog));
    }
    Ok(Some(length))
}

/// The bytes of a record.
pub(crate) fn read_span<D: LogDisk>(
    alloc: Global,
    disk: &mut D,
    span: Span,
) -> Result<Vec<u8>, IpcError>
    ensures bytes { IfOk result (λ v. (length v.items ≡ span.length) × StandsAt (D.content disk.old) span.at v.items) }
    ensures kept { OnlyReads D.content D.images D.moment D.images_since D.faults D.wants D.references disk.old disk.new }
    ensures err { IfErr result (λ e. (e ≡ Memory) ⊎ ((e ≡ ReadFault) × Rose (D.faults disk.old) (D.faults disk.new))
        ⊎ ((e ≡ truncated) × PassesEnd (D.content disk.old) span.at span.length)) }
{
    let mut bytes = vec![in alloc; 0; span.length as usize]?;
    match disk.read_at(span.at, &mut bytes)? {
        Got::Full => Ok(bytes),
        Got::Short => Err(IpcError::OutOfSpec(OutOfSpecKind::Truncated)),
    }
}
