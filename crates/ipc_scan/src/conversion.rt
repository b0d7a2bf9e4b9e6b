//! From a file to the stream of the rows that meet a filter (Arrow Columnar Format, IPC File Format and IPC Streaming Format).
ghost use Rattle.std.specs.Prelude.{◌≡◌, IfErr, IfOk, IfSome, IsSome};
ghost use Rattle.ipc_bodies.specs.Encodings.{text_of};
ghost use Rattle.ipc_io.specs.Outside.{SinkKept, SourceKept, Stands};
ghost use Rattle.laws_scan.specs.Scan.{scan_table};
ghost use Rattle.laws_scan.specs.Scans.{AddsPart, IsSmallRefusal, ScanCause, ScanFetched, Scans, scanned};
ghost use Rattle.laws_walk.specs.Below.{columns_of};

use crate::send::scan_file;
use arrow_spec::IpcError;
use ipc_bodies::Encoding;
use ipc_io::{Sink, Source};
use laws_walk::Summary;
use row_filters::Filter;
use std::alloc::Global;

/// As `scan`, with the bytes of the stream put in an encoding.
///
/// # Errors
///
/// Those of `scan`.
pub fn scan_as<S: Source, W: Sink>(
    alloc: Global,
    source: &mut S,
    sink: &mut W,
    filter: Filter,
    columns: Option<&[usize]>,
    encoding: Encoding,
) -> Result<Summary, IpcError>
    ensures whole { IfOk result (λ s. IfSome (S.content source.old) (λ b. Scans s b (scanned filter (columns_of columns.entry)) (text_of encoding) (W.written sink.old) (W.written sink.new))) }

    // A refusal has its cause, and leaves nothing or a front.
    ensures cause { IfErr result (λ e. ScanCause e (S.content source.old) (scanned filter (columns_of columns.entry)) (S.faults source.old) (S.faults source.new) (W.faults sink.old) (W.faults sink.new)) }
    ensures part { IfErr result (λ e. IfSome (S.content source.old) (λ b. AddsPart e (W.wants sink.old) (W.wants sink.new) b (scanned filter (columns_of columns.entry)) (text_of encoding) (W.written sink.old) (W.written sink.new))) }

    // A file of which a scan means a table is sent where no device fails and memory is there, or a message of it is too large.
    ensures complete { let q = scanned filter (columns_of columns.entry) in
        IfSome (S.content source.old) (λ b. IsSome (scan_table b filter (columns_of columns.entry)) → Stands (S.faults source.old) (S.faults source.new) → Stands (W.faults sink.old) (W.faults sink.new) → IfErr result (IsSmallRefusal b q)) }

    // Of such a file no more is fetched than the filter's column of every block, and the columns asked for of the blocks with a marked row.
    ensures fetched { ScanFetched (S.content source.old) (scanned filter (columns_of columns.entry)) (S.fetched source.old) (S.fetched source.new) }
    ensures kept { SourceKept S.content S.faults S.references source.old source.new }
    ensures sink { SinkKept W.faults W.wants W.references sink.old sink.new }
{
    scan_file(alloc, source, sink, filter, columns, encoding)
}

/// Reads a file from the source for the rows in which a column's number meets the filter, and adds them to the sink as one stream.
///
/// `columns` are the numbers of the columns that are kept, in their order in the stream; without them all are. The filter's column
/// need not be among them. A record batch of the file gives one of the stream, with its pairs, where a row of it meets the filter, and
/// else none: of such a batch no buffer of another column is fetched than the filter's.
///
/// # Errors
///
/// As of `read_file_metadata`; `Projection` by the filter's column, where it is none, and by the first number that is no column's or that
/// stood before; `Unsupported(Predicate)` where the filter's column is not of numbers (a dictionary's values count);
/// `Unsupported(Float)` and `Unsupported(Decimal256)` by the kinds of the columns; as of `read_file_dictionaries`, and as of
/// `read_batch` for the filter's column of each block, and for the columns that are kept of the blocks with a row that meets it;
/// `TooLarge` where the metadata of a message of the stream would pass 2^31 - 1 bytes; `ReadFault`, `WriteFault` and `Memory`.
/// Behind a refusal the sink has nothing more than before, or whole messages from the stream's front without its end mark; behind
/// `WriteFault`, and `Memory` of the sink, a part of a message may stand behind them.
pub fn scan<S: Source, W: Sink>(
    alloc: Global,
    source: &mut S,
    sink: &mut W,
    filter: Filter,
    columns: Option<&[usize]>,
) -> Result<Summary, IpcError>
    ensures whole { IfOk result (λ s. IfSome (S.content source.old) (λ b. Scans s b (scanned filter (columns_of columns.entry)) (λ x. x) (W.written sink.old) (W.written sink.new))) }

    // A refusal has its cause, and leaves nothing or a front.
    ensures cause { IfErr result (λ e. ScanCause e (S.content source.old) (scanned filter (columns_of columns.entry)) (S.faults source.old) (S.faults source.new) (W.faults sink.old) (W.faults sink.new)) }
    ensures part { IfErr result (λ e. IfSome (S.content source.old) (λ b. AddsPart e (W.wants sink.old) (W.wants sink.new) b (scanned filter (columns_of columns.entry)) (λ x. x) (W.written sink.old) (W.written sink.new))) }

    // A file of which a scan means a table is sent where no device fails and memory is there, or a message of it is too large.
    ensures complete { let q = scanned filter (columns_of columns.entry) in
        IfSome (S.content source.old) (λ b. IsSome (scan_table b filter (columns_of columns.entry)) → Stands (S.faults source.old) (S.faults source.new) → Stands (W.faults sink.old) (W.faults sink.new) → IfErr result (IsSmallRefusal b q)) }

    // Of such a file no more is fetched than the filter's column of every block, and the columns asked for of the blocks with a marked row.
    ensures fetched { ScanFetched (S.content source.old) (scanned filter (columns_of columns.entry)) (S.fetched source.old) (S.fetched source.new) }
    ensures kept { SourceKept S.content S.faults S.references source.old source.new }
    ensures sink { SinkKept W.faults W.wants W.references sink.old sink.new }
{
    scan_as(alloc, source, sink, filter, columns, Encoding::Bytes)
}
