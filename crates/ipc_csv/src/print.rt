//! A file's record batches, read one after another and printed.
ghost use Rattle.std.specs.Prelude.{◌≡◌, ◌≤◌, ◌<◌, ◌^◌, List, ℕ, Option, Some, Ok, IfErr, IfOk, IfSome, OnOk, [], length, max};
ghost use Rattle.std.specs.Rc.{rc_value};
ghost use Rattle.arrow_spec.specs.Files.{TableBatch};
ghost use Rattle.csv_rows.specs.Writers.{text_of};
ghost use Rattle.ipc_io.specs.Outside.{IsSize, SinkKept, SourceKept};
ghost use Rattle.laws_walk.specs.Fetching.{FetchesSome, FetchesTo};
ghost use Rattle.laws_walk.specs.Places.{Sending, walking};
ghost use Rattle.csv_rows.specs.Output.{IsReady};
ghost use Rattle.ipc_csv.specs.Printing.{CallCause, IsPrintedBy, IsUnprinted, PrintedRows, PrintedSoFar, PrintsAll, PrintsFile, PrintsNext};

use arrow_spec::IpcError;
use csv_rows::TextOut;
use ipc_io::{Sink, Source};
use laws_walk::{FileCursor, Summary, batch_count};
use std::alloc::Global;

/// Reads the next record batch, if there is one, and prints it. It answers how many rows the batch has.
fn print_next<S: Source, W: Sink>(
    alloc: Global,
    source: &mut S,
    sink: &mut W,
    reader: &mut FileCursor,
    out: &mut TextOut,
) -> Result<Option<usize>, IpcError>
    requires whole { IsSize (S.content source.old) reader.old.metadata.size }
    requires ready { IsReady out.old }
    ensures prints { IfSome (S.content source.old) (λ b. (x : Sending) (bs : List TableBatch) → x.bytes ≡ b → IsPrintedBy reader.old x → PrintedSoFar x reader.old out.old (W.written sink.old) bs → PrintsNext result x reader.new out.new (W.written sink.new) bs) }
    ensures ready { OnOk result (IsReady out.new) }
    ensures metadata { reader.new.metadata ≡ reader.old.metadata }
    ensures projection { reader.new.projection ≡ reader.old.projection }
    ensures few { IfOk result (λ o. IfSome o (λ rows. rows < 2 ^ 64)) }
    ensures cause { IfErr result (λ e. CallCause e (S.faults source.old) (S.faults source.new) (W.faults sink.old) (W.faults sink.new)) }
    ensures fetched { IfSome (S.content source.old) (λ b. (x : Sending) (bs : List TableBatch) → x.bytes ≡ b → IsPrintedBy reader.old x → PrintedSoFar x reader.old out.old (W.written sink.old) bs → FetchesTo (walking x) reader.old.block reader.new.block (S.fetched source.old) (S.fetched source.new)) }
    ensures kept { SourceKept S.content S.faults S.references source.old source.new }
    ensures longest { W.longest sink.new ≤ max (W.longest sink.old) 65536 }
    ensures sink { SinkKept W.faults W.wants W.references sink.old sink.new }
{
    match reader.next(alloc, source) {
        None => Ok(None),
        Some(read) => {
            let batch = read?;
            let rows = batch.height();
            out.put_batch(alloc, sink, &batch)?;
            Ok(Some(rows))
        }
    }
}

/// Reads the record batches of a file, and prints each.
fn print_batches<S: Source, W: Sink>(
    alloc: Global,
    source: &mut S,
    sink: &mut W,
    reader: &mut FileCursor,
    out: &mut TextOut,
) -> Result<Summary, IpcError>
    requires whole { IsSize (S.content source.old) reader.old.metadata.size }
    requires ready { IsReady out.old }
    ensures prints { IfSome (S.content source.old) (λ b. (x : Sending) → x.bytes ≡ b → IsPrintedBy reader.old x → PrintedRows x reader.old out.old (W.written sink.old) 0 0 → PrintsAll result x reader.new out.new (W.written sink.new)) }
    ensures metadata { reader.new.metadata ≡ reader.old.metadata }
    ensures projection { reader.new.projection ≡ reader.old.projection }
    ensures cause { IfErr result (λ e. CallCause e (S.faults source.old) (S.faults source.new) (W.faults sink.old) (W.faults sink.new)) }
    ensures fetched { IfSome (S.content source.old) (λ b. (x : Sending) → x.bytes ≡ b → IsPrintedBy reader.old x → PrintedRows x reader.old out.old (W.written sink.old) 0 0 → FetchesTo (walking x) reader.old.block reader.new.block (S.fetched source.old) (S.fetched source.new)) }
    ensures kept { SourceKept S.content S.faults S.references source.old source.new }
    ensures longest { W.longest sink.new ≤ max (W.longest sink.old) 65536 }
    ensures sink { SinkKept W.faults W.wants W.references sink.old sink.new }
{
    let mut summary = Summary {
        batches: 0,
        rows: 0,
        bytes: 0,
    };
    for _ in 0..batch_count(reader.metadata()) {
        if let Some(rows) = print_next(alloc, source, sink, reader, out)? {
            summary.batches += 1;
            summary.rows += rows as u128;
        }
    }
    Ok(summary)
}

/// Prints the table of a file, from its header to its last row.
pub(crate) fn print_table<S: Source, W: Sink>(
    alloc: Global,
    source: &mut S,
    sink: &mut W,
    reader: &mut FileCursor,
) -> Result<Summary, IpcError>
    requires whole { IsSize (S.content source.old) reader.old.metadata.size }
    ensures prints { IfSome (S.content source.old) (λ b. (x : Sending) → x.bytes ≡ b → x.start ≡ W.written sink.old → IsUnprinted reader.old x → PrintsFile result b x.request (W.written sink.old) (W.written sink.new)) }
    ensures cause { IfErr result (λ e. CallCause e (S.faults source.old) (S.faults source.new) (W.faults sink.old) (W.faults sink.new)) }
    ensures fetched { IfSome (S.content source.old) (λ b. (x : Sending) → x.bytes ≡ b → x.start ≡ W.written sink.old → IsUnprinted reader.old x → FetchesSome (walking x) (S.fetched source.old) (S.fetched source.new)) }
    ensures kept { SourceKept S.content S.faults S.references source.old source.new }
    ensures longest { W.longest sink.new ≤ max (W.longest sink.old) 65536 }
    ensures sink { SinkKept W.faults W.wants W.references sink.old sink.new }
{
    let mut out = TextOut::new(alloc)?;
    out.put_header(alloc, sink, reader.schema())?;
    let summary = print_batches(alloc, source, sink, reader, &mut out)?;
    Ok(Summary {
        bytes: out.byte_count(),
        ..summary
    })
}
