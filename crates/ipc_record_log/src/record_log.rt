//! A log.
ghost use Rattle.std.specs.Prelude.{◌≡◌, ◌⊎◌, ◌+◌, ◌^◌, ◌<◌, ◌≤◌, ◌++◌, ◌∷◌, [], List, ℕ, length, map, None, Some, true, false, IfOk, IfErr, OnOk, MatchResult, slice_get};
ghost use Rattle.ipc_io.specs.Outside.{IsSize, Rose};
ghost use Rattle.ipc_log_disk.specs.Below.{IsOfDisk};
ghost use Rattle.ipc_log_disk.specs.Crashes.{Among, Elapses};
ghost use Rattle.ipc_record_log.specs.Logs.{Holds, IsReady, OnlyReads, invalid_log, truncated};
ghost use Rattle.ipc_record_log.specs.Records.{HasFront, IsBeforeOrAfter, log_records, records_in};
ghost use Rattle.arrow_spec.specs.declared.error.IpcError.TheVariants.{Memory, ReadFault, State};

use crate::Span;
use crate::begin::begin;
use crate::framing::push_record;
use crate::reads::read_span;
use crate::walk::synced_walk;
use crate::writes::write_synced;
use arrow_spec::IpcError;
use ipc_io::Refused;
use ipc_log_disk::LogDisk;
use std::alloc::Global;

/// A log of records on a disk. Where a call of the disk has failed it has failed too, and is to be opened again.
#[derive(Drop)]
pub struct RecordLog<D: LogDisk> {
    alloc: Global,
    disk: D,
    spans: Vec<Span>,
    end: u64,
    is_failed: bool,
    ghost near: { end < 2 ^ 63 },
    ghost ready: { IsReady is_failed (D.content disk) (D.images disk) spans.items end },
}

impl<D: LogDisk> RecordLog<D> {
    /// Begins a log on a disk without bytes, with one record.
    ///
    /// # Errors
    ///
    /// `WriteFault`, `Memory`. The disk is handed back.
    pub fn create(alloc: Global, disk: D, first: &[u8]) -> Result<RecordLog<D>, Refused<D>>
        requires empty { IsSize (D.content disk) 0 }
        ensures created { IfOk result (λ l. (b : List ℕ) → D.content disk ≡ Some b → Holds (D.content l.disk) (D.images l.disk) (first.now ∷ [])) }
        ensures ok { IfOk result (λ l. l.is_failed ≡ false) }
        ensures time { MatchResult result
            (λ l. Elapses (D.moment disk) (D.moment l.disk) (D.images_since disk) (D.images_since l.disk))
            (λ e. Elapses (D.moment disk) (D.moment e.object) (D.images_since disk) (D.images_since e.object)) }
        ensures err { IfErr result (λ e. ((e.error ≡ Memory) × (e.object ≡ disk))
            ⊎ IsOfDisk e.error (D.faults disk) (D.faults e.object) (D.wants disk) (D.wants e.object)) }
        ensures later { MatchResult result (λ l. D.faults disk ≤ D.faults l.disk) (λ e. D.faults disk ≤ D.faults e.object) }
        ensures same_references { MatchResult result (λ l. D.references l.disk ≡ D.references disk) (λ e. D.references e.object ≡ D.references disk) }
    {
        let mut disk = disk;
        match begin(alloc, &mut disk, first) {
            Ok(spans) => Ok(RecordLog {
                alloc,
                disk,
                spans,
                end: 24 + first.len() as u64,
                is_failed: false,
            }),
            Err(error) => Err(Refused {
                error,
                object: disk,
            }),
        }
    }

    /// Opens the log on a disk. It syncs first, so that what is read is what a crash leaves, and writes nothing.
    ///
    /// # Errors
    ///
    /// `OutOfSpec(InvalidLog)` where the bytes are not those of a log; `WriteFault` where the sync fails; `ReadFault`; `Memory`. The disk is handed back.
    pub fn open(alloc: Global, disk: D) -> Result<RecordLog<D>, Refused<D>>
        ensures opened { IfOk result (λ l. (b : List ℕ) → D.content disk ≡ Some b → Holds (D.content l.disk) (D.images l.disk) (records_in b)) }
        ensures content { IfOk result (λ l. D.content l.disk ≡ D.content disk) }
        ensures ok { IfOk result (λ l. l.is_failed ≡ false) }
        ensures since { MatchResult result
            (λ l. Among (D.images disk) (D.images_since l.disk (D.moment disk)))
            (λ e. Among (D.images disk) (D.images_since e.object (D.moment disk))) }
        ensures time { MatchResult result
            (λ l. Elapses (D.moment disk) (D.moment l.disk) (D.images_since disk) (D.images_since l.disk))
            (λ e. Elapses (D.moment disk) (D.moment e.object) (D.images_since disk) (D.images_since e.object)) }
        ensures err { IfErr result (λ e. (e.error ≡ Memory) ⊎ IsOfDisk e.error (D.faults disk) (D.faults e.object) (D.wants disk) (D.wants e.object)
            ⊎ ((e.error ≡ ReadFault) × Rose (D.faults disk) (D.faults e.object))
            ⊎ ((e.error ≡ invalid_log) × ((b : List ℕ) → D.content disk ≡ Some b → log_records b ≡ None))) }
        ensures left { IfErr result (λ e. IsOfDisk e.error (D.faults disk) (D.faults e.object) (D.wants disk) (D.wants e.object) ⊎ (D.content e.object ≡ D.content disk)) }
        ensures later { MatchResult result (λ l. D.faults disk ≤ D.faults l.disk) (λ e. D.faults disk ≤ D.faults e.object) }
        ensures same_references { MatchResult result (λ l. D.references l.disk ≡ D.references disk) (λ e. D.references e.object ≡ D.references disk) }
    {
        let mut disk = disk;
        match synced_walk(alloc, &mut disk) {
            Ok(walk) => Ok(RecordLog {
                alloc,
                disk,
                spans: walk.spans,
                end: walk.end,
                is_failed: false,
            }),
            Err(error) => Err(Refused {
                error,
                object: disk,
            }),
        }
    }

    /// Whether a call of the disk has failed.
    pub fn is_failed(&self) -> bool
        ensures { result ≡ self.now.is_failed }
    {
        self.is_failed
    }

    /// How many records there are.
    pub fn len(&self) -> usize
        ensures { result ≡ length self.now.spans.items }
    {
        self.spans.len()
    }

    /// A record, by its number.
    ///
    /// # Errors
    ///
    /// `State` where the log has failed; `ReadFault`; `Memory`; `OutOfSpec(Truncated)`, over a disk that does not tell its bytes. All is as before.
    pub fn read(&mut self, i: usize) -> Result<Vec<u8>, IpcError>
        requires { i < length self.old.spans.items }
        ensures bytes { IfOk result (λ v. (b : List ℕ) → D.content self.old.disk ≡ Some b → slice_get (records_in b) i ≡ Some v.items) }
        ensures kept { OnlyReads D.content D.images D.moment D.images_since D.faults D.wants D.references self.old.disk self.new.disk }
        ensures same { (self.new.spans.items ≡ self.old.spans.items) × (self.new.end ≡ self.old.end) × (self.new.is_failed ≡ self.old.is_failed) }
        ensures ok { OnOk result (self.old.is_failed ≡ false) }
        ensures err { IfErr result (λ e. ((e ≡ State) × (self.old.is_failed ≡ true)) ⊎ (e ≡ Memory)
            ⊎ ((e ≡ ReadFault) × Rose (D.faults self.old.disk) (D.faults self.new.disk))
            ⊎ ((e ≡ truncated) × (D.content self.old.disk ≡ None))) }
    {
        if self.is_failed {
            return Err(IpcError::State);
        }
        let span = self.spans[i];
        read_span(self.alloc, &mut self.disk, span)
    }

    /// The disk.
    pub fn into_inner(self) -> D
        ensures { result ≡ self.disk }
    {
        self.disk
    }

    /// Adds a record. Where it answers Ok, each crash from then on leaves a log that has it. A crash during the call leaves the
    /// records from before it, with the new one or without.
    ///
    /// # Errors
    ///
    /// `State` where the log has failed; `Memory`, with all as before. Behind `WriteFault`, and `Memory` of the disk, the log has failed.
    pub fn append(&mut self, bytes: &[u8]) -> Result<(), IpcError>
        ensures acknowledged { OnOk result ((b : List ℕ) → D.content self.old.disk ≡ Some b →
            Holds (D.content self.new.disk) (D.images self.new.disk) (records_in b ++ bytes.now ∷ [])) }
        ensures any_moment { self.old.is_failed ≡ false → (b c : List ℕ) → D.content self.old.disk ≡ Some b
            → D.images_since self.new.disk (D.moment self.old.disk) c → IsBeforeOrAfter (records_in b) bytes.now c }
        ensures time { Elapses (D.moment self.old.disk) (D.moment self.new.disk) (D.images_since self.old.disk) (D.images_since self.new.disk) }
        ensures ok { OnOk result ((self.old.is_failed ≡ false) × (self.new.is_failed ≡ false)) }
        ensures err { IfErr result (λ e.
            (((e ≡ State) × (self.old.is_failed ≡ true)) ⊎ ((e ≡ Memory) × (self.old.is_failed ≡ false)))
            × (self.new.disk ≡ self.old.disk) × (self.new.spans.items ≡ self.old.spans.items) × (self.new.end ≡ self.old.end) × (self.new.is_failed ≡ self.old.is_failed)
            ⊎ ((self.new.is_failed ≡ true) × IsOfDisk e (D.faults self.old.disk) (D.faults self.new.disk) (D.wants self.old.disk) (D.wants self.new.disk))) }
        ensures later { D.faults self.old.disk ≤ D.faults self.new.disk }
    {
        if self.is_failed {
            return Err(IpcError::State);
        }
        let mut behind = Vec::new(self.alloc);
        push_record(&mut behind, bytes)?;
        let length = bytes.len() as u64;
        self.spans.push(Span {
            at: self.end + 16,
            length,
        })?;
        // From here on what is on the disk is not known until all calls have succeeded.
        self.is_failed = true;
        write_synced(&mut self.disk, self.end + 1, &behind)?;
        write_synced(&mut self.disk, self.end, &[1])?;
        self.end += 16 + length;
        self.is_failed = false;
        Ok(())
    }
}

/// Adds records in turn. A crash at any moment leaves the records from before, and some of these, from the first on.
pub fn append_all<D: LogDisk>(log: &mut RecordLog<D>, records: &[Vec<u8>]) -> Result<(), IpcError>
    requires ready { log.old.is_failed ≡ false }
    ensures acknowledged { OnOk result ((b : List ℕ) → D.content log.old.disk ≡ Some b →
        Holds (D.content log.new.disk) (D.images log.new.disk) (records_in b ++ map (λ v. v.items) records.now)) }
    ensures any_moment { (b c : List ℕ) → D.content log.old.disk ≡ Some b
        → D.images_since log.new.disk (D.moment log.old.disk) c → HasFront (records_in b) (map (λ v. v.items) records.now) c }
{
    for bytes in records {
        log.append(bytes)?;
    }
    Ok(())
}
