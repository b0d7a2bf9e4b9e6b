//! A log's records, read one after another as it is opened.
ghost use Rattle.std.specs.Prelude.{◌≡◌, ◌⊎◌, ◌↔◌, ◌<◌, List, ℕ, [], IfErr, IfOk, IsTrue, OnOk, Some, false, length, slice_get, true};
ghost use Rattle.std.specs.Rc.{rc_value};
ghost use Rattle.arrow_spec.specs.Kinds.{bare};
ghost use Rattle.arrow_spec.specs.Regular.{regular};
ghost use Rattle.arrow_spec.specs.declared.error.IpcError.TheVariants.{Memory, ReadFault};
ghost use Rattle.arrow_types.specs.Schemas.{fields_in};
ghost use Rattle.ipc_log_records.specs.Below.{table_read};
ghost use Rattle.ipc_io.specs.Outside.{Rose};
ghost use Rattle.ipc_record_log.specs.Logs.{OnlyReads, invalid_log};
ghost use Rattle.ipc_record_log.specs.Records.{records_in};
ghost use Rattle.ipc_log_records.specs.Decoded.{IsNoRecord, IsRecordRead};
ghost use Rattle.ipc_log_records.specs.LogSchemas.{WasSaid, log_fields};
ghost use Rattle.ipc_tablelog.specs.Opened.{AreOnes, IsFirst, RefusesLog, of_log};

use arrow_spec::{IpcError, OutOfSpecKind};
use arrow_types::ArrowSchema;
use ipc_log_disk::LogDisk;
use ipc_log_records::{WholeStream, record_in};
use ipc_record_log::RecordLog;
use same_fields::have_same_fields;
use std::alloc::Global;

/// A record that passes the end is none of a log's.
fn of_log(error: IpcError) -> IpcError
    ensures { result ≡ of_log error }
{
    match error {
        IpcError::OutOfSpec(_) => IpcError::OutOfSpec(OutOfSpecKind::InvalidLog),
        _ => error,
    }
}

/// The bytes of a record. Where it passes the end, they are no log's.
fn bytes_at<D: LogDisk>(log: &mut RecordLog<D>, i: usize) -> Result<Vec<u8>, IpcError>
    requires ready { log.old.is_failed ≡ false }
    requires inside { i < length log.old.spans.items }
    ensures bytes { IfOk result (λ v. (b : List ℕ) → D.content log.old.disk ≡ Some b → slice_get (records_in b) i ≡ Some v.items) }
    ensures kept { OnlyReads D.content D.images D.moment D.images_since D.faults D.wants D.references log.old.disk log.new.disk }
    ensures same { (log.new.spans.items ≡ log.old.spans.items) × (log.new.end ≡ log.old.end) × (log.new.is_failed ≡ log.old.is_failed) }
    ensures err { IfErr result (λ e. RefusesLog e (D.content log.old.disk) (D.faults log.old.disk) (D.faults log.new.disk)) }
{
    match log.read(i) {
        Ok(bytes) => Ok(bytes),
        Err(error) => Err(of_log(error)),
    }
}

/// The stream of a record.
fn record_at<D: LogDisk>(
    alloc: Global,
    log: &mut RecordLog<D>,
    i: usize,
) -> Result<WholeStream, IpcError>
    requires ready { log.old.is_failed ≡ false }
    requires inside { i < length log.old.spans.items }
    ensures record { IfOk result (λ s. (b r : List ℕ) → D.content log.old.disk ≡ Some b → slice_get (records_in b) i ≡ Some r → IsRecordRead r s) }
    ensures fields { IfOk result (λ s. (table_read s).fields ≡ log_fields (rc_value s.metadata.schema)) }
    ensures is_regular { IfOk result (λ s. regular (fields_in (rc_value s.metadata.schema)) [] ≡ true) }
    ensures said { IfOk result (λ s. WasSaid (rc_value s.metadata.schema)) }
    ensures kept { OnlyReads D.content D.images D.moment D.images_since D.faults D.wants D.references log.old.disk log.new.disk }
    ensures same { (log.new.spans.items ≡ log.old.spans.items) × (log.new.end ≡ log.old.end) × (log.new.is_failed ≡ log.old.is_failed) }
    ensures err { IfErr result (λ e. RefusesLog e (D.content log.old.disk) (D.faults log.old.disk) (D.faults log.new.disk)) }
{
    let bytes = bytes_at(log, i)?;
    record_in(alloc, bytes)
}

/// Whether a stream has no batch.
fn has_no_batch(stream: &WholeStream) -> bool
    ensures { IsTrue result ↔ (length stream.now.batches.items ≡ 0) }
{
    stream.batches.len() == 0
}

/// The schema of the first record, which has no batch.
fn first_schema<D: LogDisk>(alloc: Global, log: &mut RecordLog<D>) -> Result<ArrowSchema, IpcError>
    requires ready { log.old.is_failed ≡ false }
    ensures some { OnOk result (0 < length log.old.spans.items) }
    ensures first { IfOk result (λ s. IsFirst (D.content log.old.disk) (log_fields s)) }
    ensures is_regular { IfOk result (λ s. regular (fields_in s) [] ≡ true) }
    ensures said { IfOk result WasSaid }
    ensures own { IfOk result (λ s. log_fields s ≡ bare (fields_in s)) }
    ensures kept { OnlyReads D.content D.images D.moment D.images_since D.faults D.wants D.references log.old.disk log.new.disk }
    ensures same { (log.new.spans.items ≡ log.old.spans.items) × (log.new.end ≡ log.old.end) × (log.new.is_failed ≡ log.old.is_failed) }
    ensures err { IfErr result (λ e. RefusesLog e (D.content log.old.disk) (D.faults log.old.disk) (D.faults log.new.disk)) }
{
    let records = log.len();
    if records == 0 {
        return Err(IpcError::OutOfSpec(OutOfSpecKind::InvalidLog));
    }
    let stream = record_at(alloc, log, 0)?;
    if !has_no_batch(&stream) {
        return Err(IpcError::OutOfSpec(OutOfSpecKind::InvalidLog));
    }
    let schema = stream.metadata.schema.try_clone(alloc)?;
    Ok(schema)
}

/// Whether a stream is one batch of a schema's fields.
fn is_batch_of(stream: &WholeStream, schema: &ArrowSchema) -> bool
    ensures { IsTrue result ↔ ((length stream.now.batches.items ≡ 1) × (bare (fields_in (rc_value stream.now.metadata.schema)) ≡ bare (fields_in schema.now))) }
{
    stream.batches.len() == 1 && have_same_fields(&stream.metadata.schema, schema)
}

/// Refuses a log of which a record behind the first is not one batch of a schema's fields.
fn check_records<D: LogDisk>(
    alloc: Global,
    log: &mut RecordLog<D>,
    schema: &ArrowSchema,
) -> Result<(), IpcError>
    requires ready { log.old.is_failed ≡ false }
    requires first { IsFirst (D.content log.old.disk) (log_fields schema.now) }
    requires own { log_fields schema.now ≡ bare (fields_in schema.now) }
    ensures ones { OnOk result (AreOnes (D.content log.old.disk) (log_fields schema.now) (length log.old.spans.items)) }
    ensures kept { OnlyReads D.content D.images D.moment D.images_since D.faults D.wants D.references log.old.disk log.new.disk }
    ensures same { (log.new.spans.items ≡ log.old.spans.items) × (log.new.end ≡ log.old.end) × (log.new.is_failed ≡ log.old.is_failed) }
    ensures err { IfErr result (λ e. RefusesLog e (D.content log.old.disk) (D.faults log.old.disk) (D.faults log.new.disk)) }
{
    let records = log.len();
    for i in 1..records {
        let stream = record_at(alloc, log, i)?;
        if !is_batch_of(&stream, schema) {
            return Err(IpcError::OutOfSpec(OutOfSpecKind::InvalidLog));
        }
    }
    Ok(())
}

/// The schema of a log, of which each record is read.
pub(crate) fn schema_in<D: LogDisk>(
    alloc: Global,
    log: &mut RecordLog<D>,
) -> Result<ArrowSchema, IpcError>
    requires ready { log.old.is_failed ≡ false }
    ensures some { OnOk result (0 < length log.old.spans.items) }
    ensures first { IfOk result (λ s. IsFirst (D.content log.old.disk) (log_fields s)) }
    ensures ones { IfOk result (λ s. AreOnes (D.content log.old.disk) (log_fields s) (length log.old.spans.items)) }
    ensures is_regular { IfOk result (λ s. regular (fields_in s) [] ≡ true) }
    ensures said { IfOk result WasSaid }
    ensures kept { OnlyReads D.content D.images D.moment D.images_since D.faults D.wants D.references log.old.disk log.new.disk }
    ensures same { (log.new.spans.items ≡ log.old.spans.items) × (log.new.end ≡ log.old.end) × (log.new.is_failed ≡ log.old.is_failed) }
    ensures err { IfErr result (λ e. RefusesLog e (D.content log.old.disk) (D.faults log.old.disk) (D.faults log.new.disk)) }
{
    let schema = first_schema(alloc, log)?;
    check_records(alloc, log, &schema)?;
    Ok(schema)
}
