//! A file's record batches, read one after another and written to a stream.
ghost use Rattle.std.specs.Prelude.{◌≡◌, ◌≤◌, ◌<◌, ◌^◌, List, ℕ, Option, Some, Ok, IfErr, IfOk, IfSome, length};
ghost use Rattle.std.specs.Rc.{rc_value};
ghost use Rattle.arrow_spec.specs.Files.{TableBatch, columns_right};
ghost use Rattle.arrow_spec.specs.Kinds.{width};
ghost use Rattle.ipc_fields.specs.IpcFields.{metadata_of};
ghost use Rattle.ipc_io.specs.Outside.{IsSize, SinkKept, SourceKept};
ghost use Rattle.ipc_bodies.specs.Encodings.{text_of};
ghost use Rattle.laws_walk.specs.Below.{columns_of};
ghost use Rattle.ipc_reader.specs.Below.{WasRead, file_custom, meta_view, asked};
ghost use Rattle.ipc_stream_writer.specs.Calls.{IsFresh};
ghost use Rattle.laws_walk.specs.Fetching.{FetchesSome, FetchesTo, FileFetched};
ghost use Rattle.laws_walk.specs.Places.{IsUnread, Sending, schema_of_reader, walking};
ghost use Rattle.laws_walk.specs.Sends.{IsWriter, SendCause};
ghost use Rattle.ipc_transcode.specs.Sends.{BeginsStream, FileRows, FileSoFar, IsReader, IsSentBy, SendsAll, SendsFile, SendsNext};

use arrow_spec::IpcError;
use ipc_bodies::Encoding;
use ipc_io::{Sink, Source};
use ipc_reader::{FileCursor, read_file_metadata};
use ipc_stream_writer::StreamCore;
use laws_walk::{Summary, batch_count, numbers_asked, types_have_no_ids, writer_of};
use std::alloc::Global;

/// Puts the message of the schema of a file's columns.
fn begin_stream<W: Sink>(
    alloc: Global,
    sink: &mut W,
    reader: &FileCursor,
    encoding: Encoding,
) -> Result<StreamCore, IpcError>
    requires reader { IsReader reader.now }
    requires few { length (file_custom reader.now.metadata) ≤ 1048576 }
    ensures begins { (x : Sending) → x.encoding ≡ encoding → x.start ≡ W.written sink.old → IsUnread reader.now x → BeginsStream result x reader.now (W.written sink.new) (W.wants sink.old) (W.wants sink.new) }
    ensures writer { IfOk result (λ w. IsWriter (schema_of_reader reader.now) encoding w) }
    ensures cause { IfErr result (λ e. (reads reads' : ℕ) → SendCause e reads reads' (W.faults sink.old) (W.faults sink.new)) }
    ensures sink { SinkKept W.faults W.wants W.references sink.old sink.new }
{
    let mut writer = writer_of(alloc, reader.metadata(), encoding)?;
    types_have_no_ids(reader.schema());
    writer.start(sink, reader.schema(), None)?;
    Ok(writer)
}

/// Reads the next record batch, if there is one, and writes it. It answers how many rows the batch has.
fn send_next<S: Source, W: Sink>(
    alloc: Global,
    source: &mut S,
    sink: &mut W,
    reader: &mut FileCursor,
    writer: &mut StreamCore,
) -> Result<Option<usize>, IpcError>
    requires whole { IsSize (S.content source.old) reader.old.metadata.size }
    requires reader { IsReader reader.old }
    requires writer { IsWriter (schema_of_reader reader.old) writer.old.encoding writer.old }
    ensures sends { IfSome (S.content source.old) (λ b. (x : Sending) (bytes : List ℕ) (bs : List TableBatch) → x.bytes ≡ b → x.encoding ≡ writer.old.encoding → IsSentBy reader.old x → FileSoFar x reader.old writer.old (W.written sink.old) bytes bs → SendsNext result x reader.new writer.new (W.written sink.new) bytes bs (W.wants sink.old) (W.wants sink.new)) }
    ensures writer { IfOk result (λ _. IsWriter (schema_of_reader reader.new) writer.old.encoding writer.new) }
    ensures metadata { reader.new.metadata ≡ reader.old.metadata }
    ensures projection { reader.new.projection ≡ reader.old.projection }
    ensures few { IfOk result (λ o. IfSome o (λ rows. rows < 2 ^ 64)) }
    ensures cause { IfErr result (λ e. SendCause e (S.faults source.old) (S.faults source.new) (W.faults sink.old) (W.faults sink.new)) }
    ensures fetched { IfSome (S.content source.old) (λ b. (x : Sending) (bytes : List ℕ) (bs : List TableBatch) → x.bytes ≡ b → IsSentBy reader.old x → FileSoFar x reader.old writer.old (W.written sink.old) bytes bs → FetchesTo (walking x) reader.old.block reader.new.block (S.fetched source.old) (S.fetched source.new)) }
    ensures kept { SourceKept S.content S.faults S.references source.old source.new }
    ensures sink { SinkKept W.faults W.wants W.references sink.old sink.new }
{
    match reader.next(alloc, source) {
        None => Ok(None),
        Some(read) => {
            let batch = read?;
            let rows = batch.height();
            writer.write(sink, &batch, None)?;
            Ok(Some(rows))
        }
    }
}

/// Reads the record batches of a file, and writes each.
fn send_batches<S: Source, W: Sink>(
    alloc: Global,
    source: &mut S,
    sink: &mut W,
    reader: &mut FileCursor,
    writer: &mut StreamCore,
) -> Result<Summary, IpcError>
    requires whole { IsSize (S.content source.old) reader.old.metadata.size }
    requires reader { IsReader reader.old }
    requires writer { IsWriter (schema_of_reader reader.old) writer.old.encoding writer.old }
    ensures sends { IfSome (S.content source.old) (λ b. (x : Sending) → x.bytes ≡ b → x.encoding ≡ writer.old.encoding → IsSentBy reader.old x → FileRows x reader.old writer.old (W.written sink.old) 0 0 → SendsAll result x reader.new writer.new (W.written sink.new) (W.wants sink.old) (W.wants sink.new)) }
    ensures writer { IfOk result (λ _. IsWriter (schema_of_reader reader.new) writer.old.encoding writer.new) }
    ensures metadata { reader.new.metadata ≡ reader.old.metadata }
    ensures projection { reader.new.projection ≡ reader.old.projection }
    ensures few { length reader.old.metadata.blocks.items < 2 ^ 63 }
    ensures cause { IfErr result (λ e. SendCause e (S.faults source.old) (S.faults source.new) (W.faults sink.old) (W.faults sink.new)) }
    ensures fetched { IfSome (S.content source.old) (λ b. (x : Sending) → x.bytes ≡ b → x.encoding ≡ writer.old.encoding → IsSentBy reader.old x → FileRows x reader.old writer.old (W.written sink.old) 0 0 → FetchesTo (walking x) reader.old.block reader.new.block (S.fetched source.old) (S.fetched source.new)) }
    ensures kept { SourceKept S.content S.faults S.references source.old source.new }
    ensures sink { SinkKept W.faults W.wants W.references sink.old sink.new }
{
    let mut summary = Summary {
        batches: 0,
        rows: 0,
        bytes: 0,
    };
    for _ in 0..batch_count(reader.metadata()) {
        if let Some(rows) = send_next(alloc, source, sink, reader, writer)? {
            summary.batches += 1;
            summary.rows += rows as u128;
        }
    }
    Ok(summary)
}

/// Writes a stream of the record batches of a file, from its schema to its end mark.
fn send_stream<S: Source, W: Sink>(
    alloc: Global,
    source: &mut S,
    sink: &mut W,
    reader: &mut FileCursor,
    encoding: Encoding,
) -> Result<Summary, IpcError>
    requires whole { IsSize (S.content source.old) reader.old.metadata.size }
    requires reader { IsReader reader.old }
    requires few { length (file_custom reader.old.metadata) ≤ 1048576 }
    ensures sends { IfSome (S.content source.old) (λ b. (x : Sending) → x.bytes ≡ b → x.encoding ≡ encoding → x.start ≡ W.written sink.old → IsUnread reader.old x → SendsFile result b x.request encoding (W.written sink.old) (W.written sink.new) (W.wants sink.old) (W.wants sink.new)) }
    ensures cause { IfErr result (λ e. SendCause e (S.faults source.old) (S.faults source.new) (W.faults sink.old) (W.faults sink.new)) }
    ensures fetched { IfSome (S.content source.old) (λ b. (x : Sending) → x.bytes ≡ b → x.encoding ≡ encoding → x.start ≡ W.written sink.old → IsUnread reader.old x → FetchesSome (walking x) (S.fetched source.old) (S.fetched source.new)) }
    ensures kept { SourceKept S.content S.faults S.references source.old source.new }
    ensures sink { SinkKept W.faults W.wants W.references sink.old sink.new }
{
    let mut writer = begin_stream(alloc, sink, reader, encoding)?;
    let summary = send_batches(alloc, source, sink, reader, &mut writer)?;
    writer.finish(sink)?;
    Ok(Summary {
        bytes: writer.byte_count(),
        ..summary
    })
}

/// Reads a file, and writes its table, in the columns and the rows that are asked for, as one stream.
pub(crate) fn send_file<S: Source, W: Sink>(
    alloc: Global,
    source: &mut S,
    sink: &mut W,
    columns: Option<&[usize]>,
    limit: Option<usize>,
    encoding: Encoding,
) -> Result<Summary, IpcError>
    ensures sends { IfSome (S.content source.old) (λ b. SendsFile result b (asked (columns_of columns.entry) limit) encoding (W.written sink.old) (W.written sink.new) (W.wants sink.old) (W.wants sink.new)) }
    ensures cause { IfErr result (λ e. SendCause e (S.faults source.old) (S.faults source.new) (W.faults sink.old) (W.faults sink.new)) }
    ensures fetched { FileFetched (S.content source.old) (asked (columns_of columns.entry) limit) (S.fetched source.old) (S.fetched source.new) }
    ensures kept { SourceKept S.content S.faults S.references source.old source.new }
    ensures sink { SinkKept W.faults W.wants W.references sink.old sink.new }
{
    let file = read_file_metadata(alloc, source)?;
    let columns = numbers_asked(alloc, columns)?;
    let mut reader = FileCursor::new(alloc, file, columns, limit)?;
    send_stream(alloc, source, sink, &mut reader, encoding)
}
