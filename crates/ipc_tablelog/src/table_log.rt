//! A log of record batches.
ghost use Rattle.std.specs.Prelude.{◌≡◌, ◌⊎◌, ◌+◌, ◌-◌, ◌<◌, ◌≤◌, List, ℕ, [], IfErr, IfOk, MatchResult, None, OnOk, Some, false, length, slice_get, true};
ghost use Rattle.arrow_spec.specs.Files.{ArrowTable};
ghost use Rattle.arrow_spec.specs.Regular.{regular};
ghost use Rattle.arrow_spec.specs.declared.error.IpcError.TheVariants.{Memory, ReadFault, State};
ghost use Rattle.arrow_types.specs.Schemas.{fields_in};
ghost use Rattle.ipc_fields.specs.Causes.{IsOfBytes};
ghost use Rattle.ipc_io.specs.Outside.{IsSize, Rose};
ghost use Rattle.ipc_log_disk.specs.Below.{IsOfDisk};
ghost use Rattle.ipc_log_disk.specs.Crashes.{Among, Elapses};
ghost use Rattle.ipc_record_log.specs.Logs.{OnlyReads, invalid_log};
ghost use Rattle.ipc_log_records.specs.Below.{cells_of};
ghost use Rattle.laws_logs.specs.Tables.{MeansBeforeOrAfter, MeansLog, table_of, with_batch};
ghost use Rattle.ipc_log_records.specs.LogSchemas.{WasSaid, log_fields};
ghost use Rattle.ipc_log_records.specs.Below.{is_of};
ghost use Rattle.ipc_tablelog.specs.Opened.{IsNoLog};
ghost use Rattle.ipc_tablelog.specs.TableLogs.{IsTableOf, KeepsTable};
ghost use Rattle.ipc_log_records.specs.Written.{RecordCause};

use crate::open::schema_in;
use arrow_arrays::RecordBatch;
use arrow_spec::{IpcError, OutOfSpecKind};
use arrow_types::ArrowSchema;
use ipc_io::Refused;
use ipc_log_disk::LogDisk;
use ipc_log_records::{batch_in, first_record, is_of_schema, record_of, types_have_no_ids};
use ipc_record_log::RecordLog;
use std::alloc::Global;

/// A log of record batches on a disk.
///
/// Its bytes are `ARTBLOG1`, and then records: a gate byte, seven zeros, a length of eight bytes, and as many bytes, which are an Arrow
/// stream (Arrow Columnar Format, "IPC Streaming Format"). The first record's stream has the schema alone, each later one a batch more.
/// A record counts where its gate is 1, and a gate is written by itself behind a sync of its record.
///
/// Where a call of the disk has failed the log has failed too, and is to be opened again.
#[derive(Drop)]
pub struct TableLog<D: LogDisk> {
    alloc: Global,
    log: RecordLog<D>,
    schema: ArrowSchema,
}

impl<D: LogDisk> TableLog<D> {
    /// Begins a log of a schema on a disk without bytes. All memory but the disk's own is taken before the first write.
    ///
    /// # Errors
    ///
    /// As of a stream writer's `start`: `Unsupported(Float)`, `Unsupported(Decimal256)`, `SchemaMismatch`, `NotRepresentable`, `TooLarge`;
    /// `Memory`: each leaves the disk. `WriteFault`, and `Memory` of the disk. The disk is handed back.
    pub fn create(alloc: Global, disk: D, schema: &ArrowSchema) -> Result<TableLog<D>, Refused<D>>
        requires empty { IsSize (D.content disk) 0 }
        ensures created { IfOk result (λ l. regular (fields_in schema.now) [] ≡ true → (b : List ℕ) → D.content disk ≡ Some b
            → KeepsTable (D.content l.log.disk) (D.images l.log.disk) l.schema (table_of (log_fields l.schema) [])) }
        ensures schema { IfOk result (λ l. l.schema ≡ schema.now) }
        ensures ok { IfOk result (λ l. l.log.is_failed ≡ false) }
        ensures time { MatchResult result
            (λ l. Elapses (D.moment disk) (D.moment l.log.disk) (D.images_since disk) (D.images_since l.log.disk))
            (λ e. Elapses (D.moment disk) (D.moment e.object) (D.images_since disk) (D.images_since e.object)) }
        ensures err { IfErr result (λ e. (RecordCause e.error schema.now None × (e.object ≡ disk))
            ⊎ IsOfDisk e.error (D.faults disk) (D.faults e.object) (D.wants disk) (D.wants e.object)) }
        ensures later { MatchResult result (λ l. D.faults disk ≤ D.faults l.log.disk) (λ e. D.faults disk ≤ D.faults e.object) }
        ensures same_references { MatchResult result (λ l. D.references l.log.disk ≡ D.references disk) (λ e. D.references e.object ≡ D.references disk) }
    {
        match first_record(alloc, schema) {
            Ok((bytes, copy)) => {
                let log = RecordLog::create(alloc, disk, &bytes)?;
                Ok(TableLog {
                    alloc,
                    log,
                    schema: copy,
                })
            }
            Err(error) => Err(Refused {
                error,
                object: disk,
            }),
        }
    }

    /// Opens the log on a disk. It syncs first, so that what is read is what a crash leaves, and writes nothing. Each record is read once.
    ///
    /// # Errors
    ///
    /// `OutOfSpec(InvalidLog)` where the bytes are not those of a log up to the last open record; `WriteFault` where the sync fails;
    /// `ReadFault`; `Memory`. The disk is handed back.
    pub fn open(alloc: Global, disk: D) -> Result<TableLog<D>, Refused<D>>
        ensures opened { IfOk result (λ l. (b : List ℕ) → D.content disk ≡ Some b
            → (t : ArrowTable) × MeansLog b t × KeepsTable (D.content l.log.disk) (D.images l.log.disk) l.schema t) }
        ensures is_regular { IfOk result (λ l. regular (fields_in l.schema) [] ≡ true) }
        ensures said { IfOk result (λ l. WasSaid l.schema) }
        ensures content { IfOk result (λ l. D.content l.log.disk ≡ D.content disk) }
        ensures ok { IfOk result (λ l. l.log.is_failed ≡ false) }
        ensures since { MatchResult result
            (λ l. Among (D.images disk) (D.images_since l.log.disk (D.moment disk)))
            (λ e. Among (D.images disk) (D.images_since e.object (D.moment disk))) }
        ensures time { MatchResult result
            (λ l. Elapses (D.moment disk) (D.moment l.log.disk) (D.images_since disk) (D.images_since l.log.disk))
            (λ e. Elapses (D.moment disk) (D.moment e.object) (D.images_since disk) (D.images_since e.object)) }
        ensures err { IfErr result (λ e. (e.error ≡ Memory) ⊎ IsOfDisk e.error (D.faults disk) (D.faults e.object) (D.wants disk) (D.wants e.object)
            ⊎ ((e.error ≡ ReadFault) × Rose (D.faults disk) (D.faults e.object))
            ⊎ ((e.error ≡ invalid_log) × IsNoLog (D.content disk))) }
        ensures left { IfErr result (λ e. IsOfDisk e.error (D.faults disk) (D.faults e.object) (D.wants disk) (D.wants e.object) ⊎ (D.content e.object ≡ D.content disk)) }
        ensures later { MatchResult result (λ l. D.faults disk ≤ D.faults l.log.disk) (λ e. D.faults disk ≤ D.faults e.object) }
        ensures same_references { MatchResult result (λ l. D.references l.log.disk ≡ D.references disk) (λ e. D.references e.object ≡ D.references disk) }
    {
        let mut log = RecordLog::open(alloc, disk)?;
        match schema_in(alloc, &mut log) {
            Ok(schema) => Ok(TableLog { alloc, log, schema }),
            Err(error) => Err(Refused {
                error,
                object: log.into_inner(),
            }),
        }
    }

    /// How many batches there are.
    pub fn len(&self) -> usize
        ensures count { result ≡ length self.now.log.spans.items - 1 }
        ensures batches { self.now.log.is_failed ≡ false → (t : ArrowTable) → IsTableOf (D.content self.now.log.disk) self.now.schema t → result ≡ length t.batches }
    {
        self.log.len().saturating_sub(1)
    }

    /// The schema.
    pub fn schema(&self) -> &ArrowSchema
        ensures { result.now ≡ self.now.schema }
    {
        &self.schema
    }

    /// A batch, by its number, in time that does not grow with it.
    ///
    /// # Errors
    ///
    /// `State` where the log has failed; `ReadFault`; `Memory`; over a disk that does not tell its bytes as of `read_whole`, and
    /// `OutOfSpec(InvalidLog)` where the record is not one batch of the log's kinds. All is as before.
    pub fn read(&mut self, i: usize) -> Result<RecordBatch, IpcError>
        requires { i + 1 < length self.old.log.spans.items }
        ensures batch { IfOk result (λ x. (t : ArrowTable) → IsTableOf (D.content self.old.log.disk) self.old.schema t → slice_get t.batches i ≡ Some (cells_of x)) }
        ensures kinds { IfOk result (λ x. is_of (fields_in self.old.schema) x ≡ true) }
        ensures kept { OnlyReads D.content D.images D.moment D.images_since D.faults D.wants D.references self.old.log.disk self.new.log.disk }
        ensures same { (self.new.log.spans.items ≡ self.old.log.spans.items) × (self.new.log.end ≡ self.old.log.end) × (self.new.log.is_failed ≡ self.old.log.is_failed) }
        ensures schema { self.new.schema ≡ self.old.schema }
        ensures ok { OnOk result (self.old.log.is_failed ≡ false) }
        ensures err { IfErr result (λ e. ((e ≡ State) × (self.old.log.is_failed ≡ true)) ⊎ (e ≡ Memory)
            ⊎ ((e ≡ ReadFault) × Rose (D.faults self.old.log.disk) (D.faults self.new.log.disk))
            ⊎ (IsOfBytes e × ((t : ArrowTable) → IsTableOf (D.content self.old.log.disk) self.old.schema t → ⊥))) }
    {
        let bytes = self.log.read(i + 1)?;
        let batch = batch_in(self.alloc, bytes)?;
        types_have_no_ids(&self.schema);
        if !is_of_schema(&self.schema, &[], &batch, None) {
            return Err(IpcError::OutOfSpec(OutOfSpecKind::InvalidLog));
        }
        Ok(batch)
    }

    /// The disk.
    pub fn into_inner(self) -> D
        ensures { result ≡ self.log.disk }
    {
        self.log.into_inner()
    }

    /// Adds a batch. Where it answers Ok, each crash from then on leaves a log that has it. A crash during the call leaves the batches
    /// from before it, with the new one or without. All memory but the disk's own is taken before the first write.
    ///
    /// # Errors
    ///
    /// As of a stream writer's `write`: `Unsupported(Float)`, `Unsupported(Decimal256)`, `SchemaMismatch`, `NotRepresentable`, `TooLarge`;
    /// `TooMany(Dictionaries)` where its stream would have more than 2^20 dictionary messages; `State` where the log has failed; `Memory`:
    /// each leaves all as before. Behind `WriteFault`, and `Memory` of the disk, the log has failed.
    pub fn append(&mut self, batch: &RecordBatch) -> Result<(), IpcError>
        ensures acknowledged { OnOk result ((t : ArrowTable) → IsTableOf (D.content self.old.log.disk) self.old.schema t
            → KeepsTable (D.content self.new.log.disk) (D.images self.new.log.disk) self.new.schema (with_batch t (cells_of batch.now))) }
        ensures any_moment { self.old.log.is_failed ≡ false → (c : List ℕ) (t : ArrowTable) → IsTableOf (D.content self.old.log.disk) self.old.schema t
            → D.images_since self.new.log.disk (D.moment self.old.log.disk) c → MeansBeforeOrAfter t (cells_of batch.now) c }
        ensures time { Elapses (D.moment self.old.log.disk) (D.moment self.new.log.disk) (D.images_since self.old.log.disk) (D.images_since self.new.log.disk) }
        ensures schema { self.new.schema ≡ self.old.schema }
        ensures ok { OnOk result ((self.old.log.is_failed ≡ false) × (self.new.log.is_failed ≡ false)) }
        ensures err { IfErr result (λ e.
            (((e ≡ State) × (self.old.log.is_failed ≡ true)) ⊎ ((self.old.log.is_failed ≡ false) × RecordCause e self.old.schema (Some batch.now)))
            × (self.new.log.disk ≡ self.old.log.disk) × (self.new.log.spans.items ≡ self.old.log.spans.items) × (self.new.log.end ≡ self.old.log.end) × (self.new.log.is_failed ≡ self.old.log.is_failed)
            ⊎ ((self.new.log.is_failed ≡ true) × IsOfDisk e (D.faults self.old.log.disk) (D.faults self.new.log.disk) (D.wants self.old.log.disk) (D.wants self.new.log.disk))) }
        ensures later { D.faults self.old.log.disk ≤ D.faults self.new.log.disk }
    {
        if self.log.is_failed() {
            return Err(IpcError::State);
        }
        let bytes = record_of(self.alloc, &self.schema, Some(batch))?;
        self.log.append(&bytes)
    }
}
