//! The table of a log as a stream.
ghost use Rattle.std.specs.Prelude.{◌≡◌, ◌⊎◌, ◌+◌, ◌<◌, ◌≤◌, List, Option, ℕ, [], IfErr, IfOk, IfSome, OnOk, false, length, take};
ghost use Rattle.arrow_spec.specs.Files.{ArrowTable};
ghost use Rattle.arrow_spec.specs.declared.error.IpcError.TheVariants.{Memory};
ghost use Rattle.ipc_bodies.specs.Encodings.{text_of};
ghost use Rattle.ipc_bodies.specs.Puts.{moved};
ghost use Rattle.ipc_io.specs.Outside.{SinkKept, Stands};
ghost use Rattle.ipc_log_disk.specs.Crashes.{Among};
ghost use Rattle.ipc_record_log.specs.Logs.{OnlyReads};
ghost use Rattle.ipc_concat.specs.Below.{IsWriter, send_options};
ghost use Rattle.ipc_tablelog.specs.Below.{WasSaid};
ghost use Rattle.ipc_tablelog.specs.TableLogs.{IsTableOf};
ghost use Rattle.ipc_log_streams.specs.Streams.{AddsLog, AddsPart, EndsPut, HasPut, IsReadable, IsSmallRefusal, IsStreamOf, KeepsBytes, NotBegun, PutCause, StopsPut};

use crate::sound::is_sound;
use arrow_spec::IpcError;
use arrow_types::ArrowSchema;
use ipc_bodies::Encoding;
use ipc_concat::{StreamCore, WriteOptions, types_have_no_ids};
use ipc_io::Sink;
use ipc_log_disk::LogDisk;
use ipc_tablelog::TableLog;
use std::alloc::Global;

/// How the stream is written: what goes on of a dictionary is sent as a delta.
fn stream_options() -> WriteOptions
    ensures { result ≡ send_options }
{
    WriteOptions {
        compression: None,
        metadata_limit: 0x7fff_ffff,
        deltas: true,
    }
}

/// Begins the stream of a log's schema.
fn begin<W: Sink>(
    alloc: Global,
    sink: &mut W,
    schema: &ArrowSchema,
    encoding: Encoding,
) -> Result<StreamCore, IpcError>
    requires said { WasSaid schema.now }
    ensures writer { IfOk result (λ w. IsWriter schema.now encoding w) }
    ensures put { IfOk result (λ w. HasPut encoding (W.written sink.old) (W.written sink.new) w []) }
    ensures refused { IfErr result (λ e. NotBegun e schema.now encoding (moved (W.written sink.old) (W.written sink.new) (W.faults sink.old) (W.faults sink.new) (W.wants sink.old) (W.wants sink.new))) }
    ensures sink { SinkKept W.faults W.wants W.references sink.old sink.new }
{
    types_have_no_ids(schema);
    let mut writer = StreamCore::new_as(alloc, stream_options(), encoding)?;
    writer.start(sink, schema, None)?;
    Ok(writer)
}

/// Puts a batch of a log, by its number.
fn put_batch<D: LogDisk, W: Sink>(
    log: &mut TableLog<D>,
    sink: &mut W,
    writer: &mut StreamCore,
    i: usize,
) -> Result<(), IpcError>
    requires ready { log.old.log.is_failed ≡ false }
    requires inside { i + 1 < length log.old.log.spans.items }
    requires writer { IsWriter log.old.schema writer.old.encoding writer.old }
    ensures writer { OnOk result (IsWriter log.old.schema writer.old.encoding writer.new) }
    ensures encoding { OnOk result (writer.new.encoding ≡ writer.old.encoding) }
    ensures put { OnOk result ((t : ArrowTable) (before : Option (List ℕ)) → IsTableOf (D.content log.old.log.disk) log.old.schema t → HasPut writer.old.encoding before (W.written sink.old) writer.old (take i t.batches)
        → HasPut writer.old.encoding before (W.written sink.new) writer.new (take (i + 1) t.batches)) }
    ensures refused { IfErr result (λ e. (t : ArrowTable) (before : Option (List ℕ)) → IsTableOf (D.content log.old.log.disk) log.old.schema t → HasPut writer.old.encoding before (W.written sink.old) writer.old (take i t.batches)
        → StopsPut e t writer.old.encoding before (W.written sink.new) (W.wants sink.old) (W.wants sink.new)) }
    ensures cause { IfErr result (λ e. PutCause e (D.faults log.old.log.disk) (D.faults log.new.log.disk) (W.faults sink.old) (W.faults sink.new)) }
    ensures kept { OnlyReads D.content D.images D.moment D.images_since D.faults D.wants D.references log.old.log.disk log.new.log.disk }
    ensures same { (log.new.log.spans.items ≡ log.old.log.spans.items) × (log.new.log.end ≡ log.old.log.end) × (log.new.log.is_failed ≡ log.old.log.is_failed) }
    ensures schema { log.new.schema ≡ log.old.schema }
    ensures sink { SinkKept W.faults W.wants W.references sink.old sink.new }
{
    let batch = log.read(i)?;
    is_sound(&batch);
    writer.write(sink, &batch, None)?;
    Ok(())
}

/// Puts the batches of a log, one after another.
fn put_batches<D: LogDisk, W: Sink>(
    log: &mut TableLog<D>,
    sink: &mut W,
    writer: &mut StreamCore,
) -> Result<(), IpcError>
    requires ready { log.old.log.is_failed ≡ false }
    requires writer { IsWriter log.old.schema writer.old.encoding writer.old }
    ensures writer { OnOk result (IsWriter log.old.schema writer.old.encoding writer.new) }
    ensures put { OnOk result ((t : ArrowTable) (before : Option (List ℕ)) → IsTableOf (D.content log.old.log.disk) log.old.schema t → HasPut writer.old.encoding before (W.written sink.old) writer.old []
        → HasPut writer.old.encoding before (W.written sink.new) writer.new t.batches) }
    ensures refused { IfErr result (λ e. (t : ArrowTable) (before : Option (List ℕ)) → IsTableOf (D.content log.old.log.disk) log.old.schema t → HasPut writer.old.encoding before (W.written sink.old) writer.old []
        → StopsPut e t writer.old.encoding before (W.written sink.new) (W.wants sink.old) (W.wants sink.new)) }
    ensures cause { IfErr result (λ e. PutCause e (D.faults log.old.log.disk) (D.faults log.new.log.disk) (W.faults sink.old) (W.faults sink.new)) }
    ensures kept { OnlyReads D.content D.images D.moment D.images_since D.faults D.wants D.references log.old.log.disk log.new.log.disk }
    ensures sink { SinkKept W.faults W.wants W.references sink.old sink.new }
{
    let count = log.len();
    for i in 0..count {
        put_batch(log, sink, writer, i)?;
    }
    Ok(())
}

/// Ends the stream.
fn end<W: Sink>(sink: &mut W, writer: &mut StreamCore) -> Result<(), IpcError>
    requires writer { IsWriter writer.old.schema writer.old.encoding writer.old }
    ensures ended { OnOk result ((t : ArrowTable) (before : Option (List ℕ)) → IsStreamOf t writer.old → HasPut writer.old.encoding before (W.written sink.old) writer.old t.batches → EndsPut t writer.old.encoding before (W.written sink.new)) }
    ensures refused { IfErr result (λ e. (t : ArrowTable) (before : Option (List ℕ)) → IsStreamOf t writer.old → HasPut writer.old.encoding before (W.written sink.old) writer.old t.batches → StopsPut e t writer.old.encoding before (W.written sink.new) (W.wants sink.old) (W.wants sink.new)) }
    ensures cause { IfErr result (λ e. (reads reads' : ℕ) → PutCause e reads reads' (W.faults sink.old) (W.faults sink.new)) }
    ensures sink { SinkKept W.faults W.wants W.references sink.old sink.new }
{
    writer.finish(sink)
}

/// Puts the stream of a log's table.
fn put_stream<D: LogDisk, W: Sink>(
    alloc: Global,
    log: &mut TableLog<D>,
    sink: &mut W,
    encoding: Encoding,
) -> Result<(), IpcError>
    requires ready { log.old.log.is_failed ≡ false }
    requires said { WasSaid log.old.schema }
    ensures whole { OnOk result ((t : ArrowTable) (h : IsTableOf (D.content log.old.log.disk) log.old.schema t) → AddsLog h.b (text_of encoding) (W.written sink.old) (W.written sink.new)) }
    ensures part { IfErr result (λ e. (t : ArrowTable) (h : IsTableOf (D.content log.old.log.disk) log.old.schema t) → AddsPart e h.b (text_of encoding) (W.written sink.old) (W.written sink.new) (W.wants sink.old) (W.wants sink.new)) }
    ensures cause { IfErr result (λ e. PutCause e (D.faults log.old.log.disk) (D.faults log.new.log.disk) (W.faults sink.old) (W.faults sink.new)) }
    ensures kept { OnlyReads D.content D.images D.moment D.images_since D.faults D.wants D.references log.old.log.disk log.new.log.disk }
    ensures sink { SinkKept W.faults W.wants W.references sink.old sink.new }
{
    let mut writer = begin(alloc, sink, log.schema(), encoding)?;
    put_batches(log, sink, &mut writer)?;
    end(sink, &mut writer)
}

/// Opens the log on a disk and puts its table as one stream: the schema, each batch, and the end mark, with the bytes in an encoding. It
/// writes nothing on the disk, which is handed back with the answer. One batch is in memory at a time.
///
/// # Errors
///
/// As of `TableLog::open`; then `Unsupported(Float)` and `Unsupported(Decimal256)` by the kinds of the fields; `TooLarge` where the
/// metadata of a message of the stream would pass 2^31 - 1 bytes; `ReadFault`, `WriteFault` and `Memory`. Behind a refusal the sink has
/// nothing more than before, or whole messages from the stream's front without its end mark; behind `WriteFault`, and `Memory` of the
/// sink, a part of a message may stand behind them.
pub fn put_log_as<D: LogDisk, W: Sink>(
    alloc: Global,
    disk: D,
    sink: &mut W,
    encoding: Encoding,
) -> (D, Result<(), IpcError>)
    ensures whole { OnOk result.1 (IfSome (D.content disk) (λ b. AddsLog b (text_of encoding) (W.written sink.old) (W.written sink.new))) }

    // A refusal leaves nothing or whole messages, for its cause.
    ensures part { IfErr result.1 (λ e. IfSome (D.content disk) (λ b. AddsPart e b (text_of encoding) (W.written sink.old) (W.written sink.new) (W.wants sink.old) (W.wants sink.new))) }
    ensures cause { IfErr result.1 (λ e. PutCause e (D.faults disk) (D.faults result.0) (W.faults sink.old) (W.faults sink.new)) }

    // A log whose fields can be read is put where no device fails and memory is there, or a message of it is too large.
    ensures complete { IfSome (D.content disk) (λ b. IsReadable b → Stands (D.faults disk) (D.faults result.0) → Stands (W.faults sink.old) (W.faults sink.new) → IfErr result.1 IsSmallRefusal) }

    // The disk tells the same bytes, and has no image that it did not have.
    ensures bytes { KeepsBytes result.1 (D.content disk) (D.content result.0) (D.faults disk) (D.faults result.0) (D.wants disk) (D.wants result.0) }
    ensures since { Among (D.images disk) (D.images_since result.0 (D.moment disk)) }
    ensures sink { SinkKept W.faults W.wants W.references sink.old sink.new }
{
    match TableLog::open(alloc, disk) {
        Ok(mut log) => {
            let done = put_stream(alloc, &mut log, sink, encoding);
            (log.into_inner(), done)
        }
        Err(refused) => (refused.object, Err(refused.error)),
    }
}
