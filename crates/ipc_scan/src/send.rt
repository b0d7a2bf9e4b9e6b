//! A file's blocks, read one after another for the rows that meet a filter, and these written to a stream.
ghost use Rattle.std.specs.Prelude.{◌≡◌, ◌≤◌, ◌<◌, ◌^◌, List, ℕ, IfErr, IfOk, IfSome, length};
ghost use Rattle.arrow_spec.specs.Files.{TableBatch};
ghost use Rattle.ipc_files.specs.FileDictionaries.{HoldsUses};
ghost use Rattle.ipc_io.specs.Outside.{IsSize, SinkKept, SourceKept};
ghost use Rattle.ipc_files.specs.FileViews.{file_custom, meta_view};
ghost use Rattle.ipc_files.specs.Below.{held_in};
ghost use Rattle.laws_scan.specs.Below.{HoldsFile};
ghost use Rattle.laws_scan.specs.Scans.{ScanFetched, scanned};
ghost use Rattle.laws_walk.specs.Below.{columns_of};
ghost use Rattle.laws_walk.specs.Fetching.{FetchesSome};
ghost use Rattle.laws_walk.specs.Places.{Sending, schema_of_reader};
ghost use Rattle.laws_walk.specs.Sends.{IsWriter, SendCause, SentRows, SentSoFar};
ghost use Rattle.ipc_scan.specs.Sends.{BeginsScan, BlocksFetched, IsReady, IsScannedBy, IsUnscanned, ScansAll, ScansFile, ScansNext, first_block, place_at, scanning};

use crate::scanner::Scanner;
use arrow_spec::IpcError;
use ipc_bodies::Encoding;
use ipc_files::{Dictionaries, read_file_dictionaries, read_file_metadata};
use ipc_io::{Sink, Source};
use laws_walk::{StreamCore, Summary, numbers_asked, types_have_no_ids, writer_of};
use row_filters::Filter;
use std::alloc::Global;

/// Puts the message of the schema of the columns asked for.
fn begin_stream<W: Sink>(
    alloc: Global,
    sink: &mut W,
    scanner: &Scanner,
    encoding: Encoding,
) -> Result<StreamCore, IpcError>
    requires scanner { IsReady scanner.now }
    requires few { length (file_custom scanner.now.reader.metadata) ≤ 1048576 }
    ensures begins { (x : Sending) → x.encoding ≡ encoding → x.start ≡ W.written sink.old → IsUnscanned scanner.now x → BeginsScan result x scanner.now (W.written sink.new) (W.wants sink.old) (W.wants sink.new) }
    ensures writer { IfOk result (λ w. IsWriter (schema_of_reader scanner.now.reader) encoding w) }
    ensures cause { IfErr result (λ e. (reads reads' : ℕ) → SendCause e reads reads' (W.faults sink.old) (W.faults sink.new)) }
    ensures sink { SinkKept W.faults W.wants W.references sink.old sink.new }
{
    let mut writer = writer_of(alloc, scanner.reader.metadata(), encoding)?;
    types_have_no_ids(scanner.reader.schema());
    writer.start(sink, scanner.reader.schema(), None)?;
    Ok(writer)
}

/// Reads a block for the rows that meet the filter, and writes them, if there are any. It answers how many there are.
fn scan_next<S: Source, W: Sink>(
    alloc: Global,
    source: &mut S,
    sink: &mut W,
    scanner: &Scanner,
    dictionaries: &Dictionaries,
    number: usize,
    writer: &mut StreamCore,
    scratch: &mut Vec<u8>,
) -> Result<Option<usize>, IpcError>
    requires whole { IsSize (S.content source.old) scanner.now.reader.metadata.size }
    requires scanner { IsReady scanner.now }
    requires within { number < length scanner.now.reader.metadata.blocks.items }
    requires uses { HoldsUses (meta_view scanner.now.reader.metadata) (held_in dictionaries.now) }
    requires writer { IsWriter (schema_of_reader scanner.now.reader) writer.old.encoding writer.old }
    ensures sends { IfSome (S.content source.old) (λ b. (x : Sending) (bytes : List ℕ) (bs : List TableBatch) → x.bytes ≡ b → x.encoding ≡ writer.old.encoding → IsScannedBy scanner.now x → HoldsFile b (meta_view x.file) dictionaries.now → SentSoFar (scanning scanner.now.filter x) (place_at number dictionaries.now) writer.old (W.written sink.old) bytes bs → ScansNext result (scanning scanner.now.filter x) number dictionaries.now writer.new (W.written sink.new) bytes bs (W.wants sink.old) (W.wants sink.new)) }
    ensures writer { IfOk result (λ _. IsWriter (schema_of_reader scanner.now.reader) writer.old.encoding writer.new) }
    ensures few { IfOk result (λ o. IfSome o (λ rows. rows < 2 ^ 64)) }
    ensures cause { IfErr result (λ e. SendCause e (S.faults source.old) (S.faults source.new) (W.faults sink.old) (W.faults sink.new)) }
    ensures fetched { IfSome (S.content source.old) (λ b. (x : Sending) → x.bytes ≡ b → IsScannedBy scanner.now x → HoldsFile b (meta_view x.file) dictionaries.now → BlocksFetched (scanning scanner.now.filter x) number (S.fetched source.old) (S.fetched source.new)) }
    ensures kept { SourceKept S.content S.faults S.references source.old source.new }
    ensures sink { SinkKept W.faults W.wants W.references sink.old sink.new }
{
    match scanner.read_block(alloc, source, dictionaries, number, scratch)? {
        None => Ok(None),
        Some(batch) => {
            let rows = batch.height();
            writer.write(sink, &batch, None)?;
            Ok(Some(rows))
        }
    }
}

/// Reads the dictionaries of a file, where it has a block, and then each block, and writes the rows that meet the filter.
fn scan_blocks<S: Source, W: Sink>(
    alloc: Global,
    source: &mut S,
    sink: &mut W,
    scanner: &Scanner,
    writer: &mut StreamCore,
) -> Result<Summary, IpcError>
    requires whole { IsSize (S.content source.old) scanner.now.reader.metadata.size }
    requires scanner { IsReady scanner.now }
    requires writer { IsWriter (schema_of_reader scanner.now.reader) writer.old.encoding writer.old }
    ensures sends { IfSome (S.content source.old) (λ b. (x : Sending) → x.bytes ≡ b → x.encoding ≡ writer.old.encoding → IsScannedBy scanner.now x → SentRows (scanning scanner.now.filter x) first_block writer.old (W.written sink.old) 0 0 → ScansAll result (scanning scanner.now.filter x) writer.new (W.written sink.new) (W.wants sink.old) (W.wants sink.new)) }
    ensures writer { IfOk result (λ _. IsWriter (schema_of_reader scanner.now.reader) writer.old.encoding writer.new) }
    ensures few { length scanner.now.reader.metadata.blocks.items < 2 ^ 63 }
    ensures cause { IfErr result (λ e. SendCause e (S.faults source.old) (S.faults source.new) (W.faults sink.old) (W.faults sink.new)) }
    ensures fetched { IfSome (S.content source.old) (λ b. (x : Sending) → x.bytes ≡ b → IsScannedBy scanner.now x → FetchesSome (scanning scanner.now.filter x) (S.fetched source.old) (S.fetched source.new)) }
    ensures kept { SourceKept S.content S.faults S.references source.old source.new }
    ensures sink { SinkKept W.faults W.wants W.references sink.old sink.new }
{
    let mut summary = Summary {
        batches: 0,
        rows: 0,
        bytes: 0,
    };
    let file = scanner.reader.metadata();
    if file.blocks.is_empty() {
        return Ok(summary);
    }
    let mut scratch = Vec::new(alloc);
    let dictionaries = read_file_dictionaries(alloc, source, file, &mut scratch)?;
    for number in 0..file.blocks.len() {
        let rows = scan_next(
            alloc,
            source,
            sink,
            scanner,
            &dictionaries,
            number,
            writer,
            &mut scratch,
        )?;
        if let Some(rows) = rows {
            summary.batches += 1;
            summary.rows += rows as u128;
        }
    }
    Ok(summary)
}

/// Writes a stream of the rows of a file that meet the filter, from its schema to its end mark.
fn scan_stream<S: Source, W: Sink>(
    alloc: Global,
    source: &mut S,
    sink: &mut W,
    scanner: &Scanner,
    encoding: Encoding,
) -> Result<Summary, IpcError>
    requires whole { IsSize (S.content source.old) scanner.now.reader.metadata.size }
    requires scanner { IsReady scanner.now }
    requires few { length (file_custom scanner.now.reader.metadata) ≤ 1048576 }
    ensures sends { IfSome (S.content source.old) (λ b. (x : Sending) → x.bytes ≡ b → x.encoding ≡ encoding → x.start ≡ W.written sink.old → IsUnscanned scanner.now x → ScansFile result b (scanned scanner.now.filter x.request.columns) encoding (W.written sink.old) (W.written sink.new) (W.wants sink.old) (W.wants sink.new)) }
    ensures cause { IfErr result (λ e. SendCause e (S.faults source.old) (S.faults source.new) (W.faults sink.old) (W.faults sink.new)) }
    ensures fetched { IfSome (S.content source.old) (λ b. (x : Sending) → x.bytes ≡ b → x.encoding ≡ encoding → x.start ≡ W.written sink.old → IsUnscanned scanner.now x → FetchesSome (scanning scanner.now.filter x) (S.fetched source.old) (S.fetched source.new)) }
    ensures kept { SourceKept S.content S.faults S.references source.old source.new }
    ensures sink { SinkKept W.faults W.wants W.references sink.old sink.new }
{
    let mut writer = begin_stream(alloc, sink, scanner, encoding)?;
    let summary = scan_blocks(alloc, source, sink, scanner, &mut writer)?;
    writer.finish(sink)?;
    Ok(Summary {
        bytes: writer.byte_count(),
        ..summary
    })
}

/// Reads a file, and writes the rows that meet the filter, in the columns that are asked for, as one stream.
pub(crate) fn scan_file<S: Source, W: Sink>(
    alloc: Global,
    source: &mut S,
    sink: &mut W,
    filter: Filter,
    columns: Option<&[usize]>,
    encoding: Encoding,
) -> Result<Summary, IpcError>
    ensures sends { IfSome (S.content source.old) (λ b. ScansFile result b (scanned filter (columns_of columns.entry)) encoding (W.written sink.old) (W.written sink.new) (W.wants sink.old) (W.wants sink.new)) }
    ensures cause { IfErr result (λ e. SendCause e (S.faults source.old) (S.faults source.new) (W.faults sink.old) (W.faults sink.new)) }
    ensures fetched { ScanFetched (S.content source.old) (scanned filter (columns_of columns.entry)) (S.fetched source.old) (S.fetched source.new) }
    ensures kept { SourceKept S.content S.faults S.references source.old source.new }
    ensures sink { SinkKept W.faults W.wants W.references sink.old sink.new }
{
    let file = read_file_metadata(alloc, source)?;
    let columns = numbers_asked(alloc, columns)?;
    let scanner = Scanner::new(alloc, file, filter, columns)?;
    scan_stream(alloc, source, sink, &scanner, encoding)
}
