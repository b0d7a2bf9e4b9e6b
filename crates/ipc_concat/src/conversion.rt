//! From several files to a stream (Arrow Columnar Format, IPC File Format and IPC Streaming Format).
ghost use Rattle.std.specs.Prelude.{◌≡◌, ◌<◌, List, ℕ, IfErr, IfOk, IfSome, length, map};
ghost use Rattle.ipc_io.specs.Outside.{SinkKept, Stands};
ghost use Rattle.ipc_bodies.specs.Encodings.{text_of};
ghost use Rattle.ipc_concat.specs.Concat.{AddsPart, AllStand, ConcatCause, Concatenates, EachKept, SourceCause, IsSmallRefusal};
ghost use Rattle.ipc_concat.specs.Begins.{Joins};
ghost use Rattle.ipc_concat.specs.Files.{AddsFiles, AreAlike, AreUnread, IsGoing, Start};
ghost use Rattle.ipc_concat.specs.Opening.{AreOpen};
ghost use Rattle.ipc_concat.specs.Tables.{MeanTables, told};

use crate::begin::begin_stream;
use crate::opening::open_files;
use crate::stream::{JoinedStream, add_files};
use arrow_spec::IpcError;
use ipc_bodies::Encoding;
use ipc_io::{Sink, Source};
use laws_walk::{FileCursor, Summary};
use std::alloc::Global;

/// Ends a stream. It answers what was written.
fn end_stream<W: Sink>(sink: &mut W, stream: &mut JoinedStream) -> Result<Summary, IpcError>
    requires going { IsGoing stream.old }
    ensures ends { (x : Start) (bs : List (List ℕ)) → x.encoding ≡ stream.old.writer.encoding → AddsFiles x bs stream.old (W.written sink.old) → AreOpen bs → 0 < length bs → Joins result bs x.encoding x.before (W.written sink.new) (W.wants sink.old) (W.wants sink.new) }
    ensures cause { IfErr result (λ e. (reads reads' : ℕ) → SourceCause e reads reads' (W.faults sink.old) (W.faults sink.new)) }
    ensures sink { SinkKept W.faults W.wants W.references sink.old sink.new }
{
    stream.writer.finish(sink)?;
    Ok(Summary {
        batches: stream.batches,
        rows: stream.rows,
        bytes: stream.writer.byte_count(),
    })
}

/// Writes a stream of the record batches of several files, from its schema to its end mark.
fn join_files<S: Source, W: Sink>(
    alloc: Global,
    sources: &mut [S],
    sink: &mut W,
    readers: &mut [FileCursor],
    encoding: Encoding,
) -> Result<Summary, IpcError>
    requires some { 0 < length readers.old }
    requires count { length readers.old ≡ length sources.old }
    requires unread { AreUnread (map S.content sources.old) readers.old }
    requires alike { AreAlike readers.old }
    ensures joins { IfSome (told (map S.content sources.old)) (λ bs. Joins result bs encoding (W.written sink.old) (W.written sink.new) (W.wants sink.old) (W.wants sink.new)) }
    ensures cause { IfErr result (λ e. ConcatCause e (map S.faults sources.old) (map S.faults sources.new) (W.faults sink.old) (W.faults sink.new)) }
    ensures kept { EachKept S.content S.faults S.references sources.old sources.new }
    ensures sink { SinkKept W.faults W.wants W.references sink.old sink.new }
{
    let mut stream = begin_stream(alloc, sink, &readers[0], encoding)?;
    add_files(alloc, sources, sink, readers, &mut stream)?;
    end_stream(sink, &mut stream)
}

/// As `concat`, with the bytes of the stream put in an encoding.
///
/// # Errors
///
/// Those of `concat`.
pub fn concat_as<S: Source, W: Sink>(
    alloc: Global,
    sources: &mut [S],
    sink: &mut W,
    encoding: Encoding,
) -> Result<Summary, IpcError>
    requires some { 0 < length sources.old }
    ensures whole { IfOk result (λ s. IfSome (told (map S.content sources.old)) (λ bs. Concatenates s bs (text_of encoding) (W.written sink.old) (W.written sink.new))) }

    // A refusal leaves nothing or a front, for its cause.
    ensures part { IfErr result (λ e. IfSome (told (map S.content sources.old)) (λ bs. AddsPart e bs (text_of encoding) (W.written sink.old) (W.written sink.new) (W.wants sink.old) (W.wants sink.new))) }
    ensures cause { IfErr result (λ e. ConcatCause e (map S.faults sources.old) (map S.faults sources.new) (W.faults sink.old) (W.faults sink.new)) }

    // Files that mean tables of the same fields are put into one stream where no device fails and memory is there, or a message of it is too large.
    ensures complete { IfSome (told (map S.content sources.old)) (λ bs. MeanTables bs → AllStand (map S.faults sources.old) (map S.faults sources.new) → Stands (W.faults sink.old) (W.faults sink.new) → IfErr result IsSmallRefusal) }
    ensures kept { EachKept S.content S.faults S.references sources.old sources.new }
    ensures sink { SinkKept W.faults W.wants W.references sink.old sink.new }
{
    let mut readers = open_files(alloc, sources)?;
    join_files(alloc, sources, sink, readers.as_mut_slice(), encoding)
}

/// Reads several files of the same fields and adds them to the sink as one stream, which has the first file's schema, with its pairs
/// and those of its footer, and then each file's record batches, in order.
///
/// All metadata is read before anything is put, and each source once. One batch is in memory at a time. The dictionaries of a later
/// file are sent as far as its batches need others than those that were sent: not at all, as deltas, or in their place.
///
/// # Errors
///
/// File by file, as of `read_file_metadata`, and `SchemaMismatch` where a file's fields are not the first's, ids of dictionaries aside;
/// then `Unsupported(Float)` and `Unsupported(Decimal256)` by the kinds of the fields; then file by file as of
/// `read_file_dictionaries`, and as of `read_batch` for each block; `TooLarge` where the metadata of a message of the stream would
/// pass 2^31 - 1 bytes; `ReadFault`, `WriteFault` and `Memory`. Behind a refusal the sink has nothing more than before, or whole
/// messages from the stream's front without its end mark; behind `WriteFault`, and `Memory` of the sink, a part of a message may stand
/// behind them.
pub fn concat<S: Source, W: Sink>(
    alloc: Global,
    sources: &mut [S],
    sink: &mut W,
) -> Result<Summary, IpcError>
    requires some { 0 < length sources.old }
    ensures whole { IfOk result (λ s. IfSome (told (map S.content sources.old)) (λ bs. Concatenates s bs (λ x. x) (W.written sink.old) (W.written sink.new))) }

    // A refusal leaves nothing or a front, for its cause.
    ensures part { IfErr result (λ e. IfSome (told (map S.content sources.old)) (λ bs. AddsPart e bs (λ x. x) (W.written sink.old) (W.written sink.new) (W.wants sink.old) (W.wants sink.new))) }
    ensures cause { IfErr result (λ e. ConcatCause e (map S.faults sources.old) (map S.faults sources.new) (W.faults sink.old) (W.faults sink.new)) }

    // Files that mean tables of the same fields are put into one stream where no device fails and memory is there, or a message of it is too large.
    ensures complete { IfSome (told (map S.content sources.old)) (λ bs. MeanTables bs → AllStand (map S.faults sources.old) (map S.faults sources.new) → Stands (W.faults sink.old) (W.faults sink.new) → IfErr result IsSmallRefusal) }
    ensures kept { EachKept S.content S.faults S.references sources.old sources.new }
    ensures sink { SinkKept W.faults W.wants W.references sink.old sink.new }
{
    concat_as(alloc, sources, sink, Encoding::Bytes)
}
