//! The records of a log, as they are written (Arrow Columnar Format, "IPC Streaming Format").
ghost use Rattle.std.specs.Prelude.{◌≡◌, ◌⊎◌, ◌++◌, ◌≤◌, List, ℕ, [], IfErr, IfOk, OnOk, None, Ok, length, true};
ghost use Rattle.arrow_spec.specs.Regular.{regular};
ghost use Rattle.arrow_spec.specs.Streams.{end_mark};
ghost use Rattle.arrow_spec.specs.declared.error.IpcError.TheVariants.{Memory};
ghost use Rattle.arrow_types.specs.Schemas.{fields_in};
ghost use Rattle.ipc_stream_writer.specs.Below.{is_started};
ghost use Rattle.laws_logs.specs.Tables.{IsRecordOf, dictionaries_from};
ghost use Rattle.ipc_log_records.specs.LogSchemas.{log_fields};
ghost use Rattle.ipc_log_records.specs.Written.{AreTexts, BatchCause, HasBegunRecord, IsEndedBy, IsNotBegun, IsStreamOf, RecordCause, StreamCause, batches_of, lent, record_options};

use crate::closed::closed_dictionaries;
use crate::decode::MOST_DICTIONARIES;
use crate::memory::BytesSink;
use arrow_arrays::RecordBatch;
use arrow_spec::{Counted, IpcError};
use arrow_types::ArrowSchema;
use ipc_stream_writer::{StreamWriter, WriteOptions};
use std::alloc::Global;

/// Dictionaries of several parts go out as their first part and deltas.
fn record_options() -> WriteOptions
    ensures { result ≡ record_options }
{
    WriteOptions {
        compression: None,
        metadata_limit: 0x7fff_ffff,
        deltas: true,
    }
}

/// A writer that has begun the stream of a schema.
fn begun(alloc: Global, schema: &ArrowSchema) -> Result<StreamWriter<BytesSink>, IpcError>
    ensures started { IfOk result (λ w. is_started w.core.state ≡ true) }
    ensures begun { IfOk result (λ w. (h : HasBegunRecord schema.now w.core) × (w.sink.bytes.items ≡ h.begun.bytes)) }
    ensures err { IfErr result (λ e. (e ≡ Memory) ⊎ IsNotBegun e schema.now) }
{
    let sink = BytesSink::new(alloc);
    let options = record_options();
    let mut writer = StreamWriter::new(alloc, sink, options)?;
    writer.start(schema, None)?;
    Ok(writer)
}

/// Writes a batch, if there is one.
fn write_if_any(
    writer: &mut StreamWriter<BytesSink>,
    batch: Option<&RecordBatch>,
) -> Result<(), IpcError>
    requires started { is_started writer.old.core.state ≡ true }
    ensures started { OnOk result (is_started writer.new.core.state ≡ true) }
    ensures texts { OnOk result ((text : List ℕ) × AreTexts writer.old.core writer.new.core (lent batch.entry) text × (writer.new.sink.bytes.items ≡ writer.old.sink.bytes.items ++ text)) }
    ensures err { IfErr result (λ e. (e ≡ Memory) ⊎ BatchCause e writer.old.core (lent batch.entry)) }
{
    match batch {
        None => Ok(()),
        Some(batch) => writer.write(batch, None),
    }
}

/// The bytes of a stream that is ended.
fn ended(writer: StreamWriter<BytesSink>) -> Result<Vec<u8>, IpcError>
    requires started { is_started writer.core.state ≡ true }
    ensures ended { OnOk result (IsEndedBy writer.core) }
    ensures bytes { IfOk result (λ v. v.items ≡ writer.sink.bytes.items ++ end_mark) }
    ensures err { IfErr result (λ e. e ≡ Memory) }
{
    let mut writer = writer;
    writer.finish()?;
    Ok(writer.into_inner().into_bytes())
}

/// The stream of a schema, and of a batch if there is one.
fn stream_of(
    alloc: Global,
    schema: &ArrowSchema,
    batch: Option<&RecordBatch>,
) -> Result<Vec<u8>, IpcError>
    ensures stream { IfOk result (λ v. IsStreamOf schema.now (lent batch.entry) v.items) }
    ensures err { IfErr result (λ e. StreamCause e schema.now (lent batch.entry)) }
{
    let mut writer = begun(alloc, schema)?;
    write_if_any(&mut writer, batch)?;
    ended(writer)
}

/// The record of a schema, and of a batch if there is one.
///
/// # Errors
///
/// As of a stream writer's `start` and `write`; then `TooMany(Dictionaries)` where the stream has more than 2^20 dictionary messages.
pub fn record_of(
    alloc: Global,
    schema: &ArrowSchema,
    batch: Option<&RecordBatch>,
) -> Result<Vec<u8>, IpcError>
    ensures stream { IfOk result (λ v. IsStreamOf schema.now (lent batch.entry) v.items) }
    ensures is_record { IfOk result (λ v. regular (fields_in schema.now) [] ≡ true → IsRecordOf (log_fields schema.now) (batches_of (lent batch.entry)) v.items) }
    ensures err { IfErr result (λ e. RecordCause e schema.now (lent batch.entry)) }
{
    let bytes = stream_of(alloc, schema, batch)?;
    let dictionaries = closed_dictionaries(&bytes)?;
    if dictionaries > MOST_DICTIONARIES {
        return Err(IpcError::TooMany(Counted::Dictionaries));
    }
    Ok(bytes)
}

/// The record of a schema, and a copy of the schema.
pub fn first_record(alloc: Global, schema: &ArrowSchema) -> Result<(Vec<u8>, ArrowSchema), IpcError>
    ensures is_record { IfOk result (λ p. regular (fields_in schema.now) [] ≡ true → IsRecordOf (log_fields schema.now) [] p.0.items) }
    ensures copy { IfOk result (λ p. p.1 ≡ schema.now) }
    ensures err { IfErr result (λ e. RecordCause e schema.now None) }
{
    let bytes = record_of(alloc, schema, None)?;
    let copy = schema.try_clone(alloc)?;
    Ok((bytes, copy))
}
