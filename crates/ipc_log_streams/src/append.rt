//! A stream's batches at a log's end.
ghost use Rattle.std.specs.Prelude.{◌≡◌, ◌⊎◌, ◌≤◌, List, ℕ, [], IfErr, IfOk, IfSome, MatchResult, None, OnOk, Some, false, length, map, true};
ghost use Rattle.arrow_spec.specs.Files.{ArrowTable};
ghost use Rattle.arrow_types.specs.Schemas.{fields_in};
ghost use Rattle.ipc_tablelog.specs.Below.{are_of, WasSaid};
ghost use Rattle.ipc_io.specs.Outside.{HasCause, IsSize};
ghost use Rattle.ipc_log_disk.specs.Crashes.{Among, Elapses};
ghost use Rattle.ipc_record_log.specs.Logs.{OnlyReads};
ghost use Rattle.ipc_concat.specs.Below.{cells_of};
ghost use Rattle.laws_logs.specs.Tables.{MeansFront, MeansLog, with_batches};
ghost use Rattle.ipc_tablelog.specs.TableLogs.{IsTableOf, KeepsTable};
ghost use Rattle.ipc_log_streams.specs.Appends.{HasAppended, IsBegun, LogRefused, StopsAppend, StopsBatches, StopsEach, batches_of, fields_of, schema_of};

use crate::sound::is_sound;
use arrow_arrays::RecordBatch;
use arrow_spec::IpcError;
use arrow_types::ArrowSchema;
use ipc_concat::types_have_no_ids;
use ipc_io::{Failed, Refused};
use ipc_log_disk::LogDisk;
use ipc_tablelog::{TableLog, WholeStream};
use same_fields::have_same_fields;
use std::alloc::Global;

/// Whether a disk has no bytes.
fn has_no_bytes<D: LogDisk>(disk: &mut D) -> Result<bool, Failed>
    ensures empty { IfOk result (λ e. e ≡ true → IsSize (D.content disk.old) 0) }
    ensures some { IfOk result (λ e. e ≡ false → D.content disk.old ≡ Some [] → ⊥) }
    ensures cause { HasCause (D.faults disk.old) (D.faults disk.new) result }
    ensures kept { OnlyReads D.content D.images D.moment D.images_since D.faults D.wants D.references disk.old disk.new }
{
    let size = disk.size()?;
    Ok(size == 0)
}

/// The log on a disk, which is begun with a schema where the disk has no bytes.
fn log_of<D: LogDisk>(
    alloc: Global,
    disk: D,
    schema: &ArrowSchema,
) -> Result<TableLog<D>, Refused<D>>
    requires said { WasSaid schema.now }
    ensures begun { IfOk result (λ l. (b : List ℕ) → D.content disk ≡ Some b → (t : ArrowTable) × IsBegun b l.schema t × KeepsTable (D.content l.log.disk) (D.images l.log.disk) l.schema t) }
    ensures said { IfOk result (λ l. WasSaid l.schema) }
    ensures kept { IfOk result (λ l. (l.schema ≡ schema.now) ⊎ (D.content l.log.disk ≡ D.content disk)) }
    ensures ok { IfOk result (λ l. l.log.is_failed ≡ false) }
    ensures since { (b : List ℕ) (t : ArrowTable) → D.content disk ≡ Some b → MeansLog b t → MatchResult result
        (λ l. Among (D.images disk) (D.images_since l.log.disk (D.moment disk)))
        (λ e. Among (D.images disk) (D.images_since e.object (D.moment disk))) }
    ensures time { MatchResult result
        (λ l. Elapses (D.moment disk) (D.moment l.log.disk) (D.images_since disk) (D.images_since l.log.disk))
        (λ e. Elapses (D.moment disk) (D.moment e.object) (D.images_since disk) (D.images_since e.object)) }
    ensures refused { IfErr result (λ e. LogRefused e.error schema.now (D.content disk) (D.content e.object) (D.faults disk) (D.faults e.object)) }
    ensures later { MatchResult result (λ l. D.faults disk ≤ D.faults l.log.disk) (λ e. D.faults disk ≤ D.faults e.object) }
{
    let mut disk = disk;
    match has_no_bytes(&mut disk) {
        Err(_) => Err(Refused {
            error: IpcError::ReadFault,
            object: disk,
        }),
        Ok(is_empty) => {
            if is_empty {
                types_have_no_ids(schema);
                return TableLog::create(alloc, disk, schema);
            }
            TableLog::open(alloc, disk)
        }
    }
}

/// Appends batches to a log, one after another.
fn append_batches<D: LogDisk>(
    log: &mut TableLog<D>,
    batches: &[RecordBatch],
) -> Result<(), IpcError>
    requires ready { log.old.log.is_failed ≡ false }
    requires said { WasSaid log.old.schema }
    requires kinds { are_of (fields_in log.old.schema) batches.now ≡ true }
    ensures done { OnOk result ((t : ArrowTable) → IsTableOf (D.content log.old.log.disk) log.old.schema t → KeepsTable (D.content log.new.log.disk) (D.images log.new.log.disk) log.old.schema (with_batches t (map cells_of batches.now))) }
    ensures any_moment { (c : List ℕ) (t : ArrowTable) → IsTableOf (D.content log.old.log.disk) log.old.schema t → D.images_since log.new.log.disk (D.moment log.old.log.disk) c → MeansFront t (map cells_of batches.now) c }
    ensures time { Elapses (D.moment log.old.log.disk) (D.moment log.new.log.disk) (D.images_since log.old.log.disk) (D.images_since log.new.log.disk) }
    ensures refused { IfErr result (λ e. StopsBatches e log.old.schema batches.now (D.content log.old.log.disk) (D.content log.new.log.disk) (D.faults log.old.log.disk) (D.faults log.new.log.disk)) }
    ensures later { D.faults log.old.log.disk ≤ D.faults log.new.log.disk }
{
    types_have_no_ids(log.schema());
    for batch in batches {
        is_sound(batch);
        log.append(batch)?;
    }
    Ok(())
}

/// Appends the batches of a stream to a log of the same fields.
fn append_each<D: LogDisk>(log: &mut TableLog<D>, stream: &WholeStream) -> Result<(), IpcError>
    requires ready { log.old.log.is_failed ≡ false }
    requires said { WasSaid log.old.schema }
    requires stream { WasSaid (schema_of stream.now) }
    ensures done { OnOk result ((t : ArrowTable) → IsTableOf (D.content log.old.log.disk) log.old.schema t → (t.fields ≡ fields_of stream.now) × KeepsTable (D.content log.new.log.disk) (D.images log.new.log.disk) log.old.schema (with_batches t (batches_of stream.now))) }
    ensures any_moment { (c : List ℕ) (t : ArrowTable) → IsTableOf (D.content log.old.log.disk) log.old.schema t → D.images_since log.new.log.disk (D.moment log.old.log.disk) c → MeansFront t (batches_of stream.now) c }
    ensures time { Elapses (D.moment log.old.log.disk) (D.moment log.new.log.disk) (D.images_since log.old.log.disk) (D.images_since log.new.log.disk) }
    ensures refused { IfErr result (λ e. StopsEach e stream.now log.old.schema (D.content log.old.log.disk) (D.content log.new.log.disk) (D.faults log.old.log.disk) (D.faults log.new.log.disk)) }
    ensures later { D.faults log.old.log.disk ≤ D.faults log.new.log.disk }
{
    if !have_same_fields(log.schema(), &stream.metadata.schema) {
        return Err(IpcError::SchemaMismatch);
    }
    append_batches(log, &stream.batches)
}

/// Appends the batches of a stream to the log on a disk, which is begun with the stream's schema where the disk has no bytes. The disk
/// is handed back with the answer.
///
/// Each batch is acknowledged before the next one is written: a crash at any moment leaves the log from before and some of the batches,
/// from the first on, whole.
///
/// # Errors
///
/// `ReadFault` where the size is not told; as of `TableLog::create` or `TableLog::open`; `SchemaMismatch` where the log's fields are not
/// the stream's, ids of dictionaries aside; then as of `TableLog::append` for each batch.
pub fn append_to_log<D: LogDisk>(
    alloc: Global,
    disk: D,
    stream: &WholeStream,
) -> (D, Result<(), IpcError>)
    requires said { WasSaid (schema_of stream.now) }
    ensures done { OnOk result.1 (IfSome (D.content disk) (λ b. HasAppended b (fields_of stream.now) (batches_of stream.now) (D.content result.0) (D.images result.0))) }

    // Since the call began a crash leaves what it would have left then, or the log from before with some of the batches.
    ensures any_moment { (b c : List ℕ) (t : ArrowTable) → D.content disk ≡ Some b → MeansLog b t → D.images_since result.0 (D.moment disk) c → D.images disk c ⊎ MeansFront t (batches_of stream.now) c }
    ensures refused { IfErr result.1 (λ e. StopsAppend e stream.now (D.content disk) (D.content result.0) (D.faults disk) (D.faults result.0)) }
{
    match log_of(alloc, disk, &stream.metadata.schema) {
        Ok(mut log) => {
            let done = append_each(&mut log, stream);
            (log.into_inner(), done)
        }
        Err(refused) => (refused.object, Err(refused.error)),
    }
}
