//! From a file to a stream (Arrow Columnar Format, IPC File Format and IPC Streaming Format).
ghost use Rattle.std.specs.Prelude.{◌≡◌, ◌≤◌, true, IfOk, IfErr, IfSome, IsSome};
ghost use Rattle.arrow_spec.specs.Meaning.{file_table};
ghost use Rattle.ipc_io.specs.Outside.{Stands, SourceKept, SinkKept};
ghost use Rattle.laws_walk.specs.Below.{columns_of};
ghost use Rattle.laws_walk.specs.Fetching.{FileFetched};
ghost use Rattle.ipc_reader.specs.Below.{asked};
ghost use Rattle.ipc_bodies.specs.Encodings.{text_of};
ghost use Rattle.ipc_transcode.specs.Transcode.{Transcodes, AddsPart, TranscodeCause, IsSmallRefusal};

use crate::send::send_file;
use arrow_spec::IpcError;
use ipc_bodies::Encoding;
use ipc_reader::{Sink, Source};
use laws_walk::Summary;
use std::alloc::Global;

/// As `transcode`, with the bytes of the stream put in an encoding.
///
/// # Errors
///
/// Those of `transcode`.
pub fn transcode_as<S: Source, W: Sink>(
    alloc: Global,
    source: &mut S,
    sink: &mut W,
    columns: Option<&[usize]>,
    limit: Option<usize>,
    encoding: Encoding,
) -> Result<Summary, IpcError>
    ensures whole { IfOk result (λ s. IfSome (S.content source.old) (λ b. Transcodes s b (asked (columns_of columns.entry) limit) (text_of encoding) (W.written sink.old) (W.written sink.new))) }

    // A refusal has its cause, and leaves nothing or a front.
    ensures cause { IfErr result (λ e. TranscodeCause e (S.content source.old) (asked (columns_of columns.entry) limit) (S.faults source.old) (S.faults source.new) (W.faults sink.old) (W.faults sink.new)) }
    ensures part { IfErr result (λ e. IfSome (S.content source.old) (λ b. AddsPart e (W.wants sink.old) (W.wants sink.new) b (asked (columns_of columns.entry) limit) (text_of encoding) (W.written sink.old) (W.written sink.new))) }

    // A file that means a table is sent where no device fails and memory is there, or a message of it is too large.
    ensures complete { let r = asked (columns_of columns.entry) limit in
        IfSome (S.content source.old) (λ b. IsSome (file_table b r) → Stands (S.faults source.old) (S.faults source.new) → Stands (W.faults sink.old) (W.faults sink.new) → IfErr result (IsSmallRefusal b r)) }

    // Of a file that means a table no more is fetched than the request needs, and no buffer of what is read for no rows.
    ensures fetched { FileFetched (S.content source.old) (asked (columns_of columns.entry) limit) (S.fetched source.old) (S.fetched source.new) }
    ensures kept { SourceKept S.content S.faults S.references source.old source.new }
    ensures sink { SinkKept W.faults W.wants W.references sink.old sink.new }
{
    send_file(alloc, source, sink, columns, limit, encoding)
}

/// Reads a file from the source and adds it to the sink as one stream that means the same.
///
/// `columns` are the numbers of the columns that are kept, in their order in the stream; without them all are. `limit`
/// is the greatest number of rows in all: each batch is cut to what those before it leave, and a batch behind it has
/// none. Of a column that is not kept, and of a batch of which no row is, no buffer is fetched.
///
/// # Errors
///
/// As of `read_file_metadata`; `Projection` by the first number that is no column's or that stood before; `Unsupported(Float)` and
/// `Unsupported(Decimal256)` by the kinds of the columns; as of `read_file_dictionaries`, and as of `read_batch` for each block;
/// `TooLarge` where the metadata of a message of the stream would pass 2^31 - 1 bytes; `ReadFault`, `WriteFault` and `Memory`.
/// Behind a refusal the sink has nothing more than before, or whole messages from the stream's front without its end mark; behind
/// `WriteFault`, and `Memory` of the sink, a part of a message may stand behind them.
pub fn transcode<S: Source, W: Sink>(
    alloc: Global,
    source: &mut S,
    sink: &mut W,
    columns: Option<&[usize]>,
    limit: Option<usize>,
) -> Result<Summary, IpcError>
    ensures whole { IfOk result (λ s. IfSome (S.content source.old) (λ b. Transcodes s b (asked (columns_of columns.entry) limit) (λ x. x) (W.written sink.old) (W.written sink.new))) }

    // A refusal has its cause, and leaves nothing or a front.
    ensures cause { IfErr result (λ e. TranscodeCause e (S.content source.old) (asked (columns_of columns.entry) limit) (S.faults source.old) (S.faults source.new) (W.faults sink.old) (W.faults sink.new)) }
    ensures part { IfErr result (λ e. IfSome (S.content source.old) (λ b. AddsPart e (W.wants sink.old) (W.wants sink.new) b (asked (columns_of columns.entry) limit) (λ x. x) (W.written sink.old) (W.written sink.new))) }

    // A file that means a table is sent where no device fails and memory is there, or a message of it is too large.
    ensures complete { let r = asked (columns_of columns.entry) limit in
        IfSome (S.content source.old) (λ b. IsSome (file_table b r) → Stands (S.faults source.old) (S.faults source.new) → Stands (W.faults sink.old) (W.faults sink.new) → IfErr result (IsSmallRefusal b r)) }

    // Of a file that means a table no more is fetched than the request needs, and no buffer of what is read for no rows.
    ensures fetched { FileFetched (S.content source.old) (asked (columns_of columns.entry) limit) (S.fetched source.old) (S.fetched source.new) }
    ensures kept { SourceKept S.content S.faults S.references source.old source.new }
    ensures sink { SinkKept W.faults W.wants W.references sink.old sink.new }
{
    transcode_as(alloc, source, sink, columns, limit, Encoding::Bytes)
}
