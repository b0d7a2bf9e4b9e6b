//! A stream to which the record batches of files are added, one file after another.
ghost use Rattle.std.specs.Prelude.{◌≡◌, ◌+◌, ◌++◌, [], List, ℕ, None, IfErr, IfOk, IfSome, length, map};
ghost use Rattle.std.specs.List.{AllByRecursion};
ghost use Rattle.arrow_spec.specs.Files.{TableBatch};
ghost use Rattle.arrow_arrays.specs.Parts.{fault_each, forest};
ghost use Rattle.ipc_io.specs.Outside.{IsSize, SinkKept, SourceKept};
ghost use Rattle.ipc_bodies.specs.Encodings.{text_of};
ghost use Rattle.ipc_bodies.specs.Puts.{moved};
ghost use Rattle.laws_walk.specs.Below.{counted, Writes};
ghost use Rattle.ipc_concat.specs.Concat.{ConcatCause, EachKept, SourceCause};
ghost use Rattle.ipc_concat.specs.Files.{AreUnread, BeginsWith, FileAdded, FilesAdded, HasFieldsOf, HasReadBlocks, Holds, IsGoing, IsReaderOf, IsStartOf, NextAdded, Start};
ghost use Rattle.ipc_concat.specs.Opening.{AreOpen};
ghost use Rattle.ipc_concat.specs.Tables.{told};

use arrow_arrays::RecordBatch;
use arrow_spec::IpcError;
use ipc_io::{Sink, Source};
use laws_walk::{FileCursor, StreamCore, batch_count};
use std::alloc::Global;

/// A stream to which batches are added: its writer, and how many batches and rows were written, each up to 2^128 - 1.
#[derive(Drop)]
pub(crate) struct JoinedStream {
    pub(crate) writer: StreamCore,
    pub(crate) batches: u128,
    pub(crate) rows: u128,
}

impl JoinedStream {
    /// Writes a batch, and counts it.
    fn write<W: Sink>(&mut self, sink: &mut W, batch: &RecordBatch) -> Result<(), IpcError>
        ensures writes { Writes (text_of self.old.writer.encoding) (moved (W.written sink.old) (W.written sink.new) (W.faults sink.old) (W.faults sink.new) (W.wants sink.old) (W.wants sink.new)) result self.old.writer self.new.writer batch.now None }
        ensures batches { IfOk result (λ u. self.new.batches ≡ counted (self.old.batches + 1)) }
        ensures rows { IfOk result (λ u. self.new.rows ≡ counted (self.old.rows + batch.now.height)) }
        ensures sound { fault_each (forest batch.now.arrays) ≡ None }
        ensures same_references { W.references sink.new ≡ W.references sink.old }
    {
        let rows = batch.height() as u128;
        self.writer.write(sink, batch, None)?;
        self.batches = self.batches.saturating_add(1);
        self.rows = self.rows.saturating_add(rows);
        Ok(())
    }
}

/// Reads the next record batch of a file, if there is one, and writes it.
fn add_next<S: Source, W: Sink>(
    alloc: Global,
    source: &mut S,
    sink: &mut W,
    reader: &mut FileCursor,
    stream: &mut JoinedStream,
) -> Result<(), IpcError>
    requires whole { IsSize (S.content source.old) reader.old.metadata.size }
    requires reader { IsReaderOf stream.old.writer.schema reader.old }
    requires going { IsGoing stream.old }
    ensures adds { IfSome (S.content source.old) (λ b. (x : Start) (before xs : List TableBatch) → x.encoding ≡ stream.old.writer.encoding → HasReadBlocks b reader.old xs → Holds x stream.old (W.written sink.old) (before ++ xs) → NextAdded result x b reader.old reader.new stream.new before (W.written sink.new) (W.wants sink.old) (W.wants sink.new)) }
    ensures going { IfOk result (λ u. IsGoing stream.new) }
    ensures schema { stream.new.writer.schema ≡ stream.old.writer.schema }
    ensures encoding { stream.new.writer.encoding ≡ stream.old.writer.encoding }
    ensures metadata { reader.new.metadata ≡ reader.old.metadata }
    ensures projection { reader.new.projection ≡ reader.old.projection }
    ensures cause { IfErr result (λ e. SourceCause e (S.faults source.old) (S.faults source.new) (W.faults sink.old) (W.faults sink.new)) }
    ensures kept { SourceKept S.content S.faults S.references source.old source.new }
    ensures sink { SinkKept W.faults W.wants W.references sink.old sink.new }
{
    match reader.next(alloc, source) {
        None => Ok(()),
        Some(read) => {
            let batch = read?;
            stream.write(sink, &batch)
        }
    }
}

/// Adds all record batches of a file.
fn add_file<S: Source, W: Sink>(
    alloc: Global,
    source: &mut S,
    sink: &mut W,
    reader: &mut FileCursor,
    stream: &mut JoinedStream,
) -> Result<(), IpcError>
    requires whole { IsSize (S.content source.old) reader.old.metadata.size }
    requires reader { IsReaderOf stream.old.writer.schema reader.old }
    requires going { IsGoing stream.old }
    ensures adds { IfSome (S.content source.old) (λ b. (x : Start) (before : List TableBatch) → x.encoding ≡ stream.old.writer.encoding → HasReadBlocks b reader.old [] → Holds x stream.old (W.written sink.old) before → FileAdded result x b reader.old stream.new before (W.written sink.new) (W.wants sink.old) (W.wants sink.new)) }
    ensures going { IfOk result (λ u. IsGoing stream.new) }
    ensures schema { stream.new.writer.schema ≡ stream.old.writer.schema }
    ensures encoding { stream.new.writer.encoding ≡ stream.old.writer.encoding }
    ensures cause { IfErr result (λ e. SourceCause e (S.faults source.old) (S.faults source.new) (W.faults sink.old) (W.faults sink.new)) }
    ensures kept { SourceKept S.content S.faults S.references source.old source.new }
    ensures sink { SinkKept W.faults W.wants W.references sink.old sink.new }
{
    for _ in 0..batch_count(reader.metadata()) {
        add_next(alloc, source, sink, reader, stream)?;
    }
    Ok(())
}

/// Adds all record batches of several files, one file after another.
pub(crate) fn add_files<S: Source, W: Sink>(
    alloc: Global,
    sources: &mut [S],
    sink: &mut W,
    readers: &mut [FileCursor],
    stream: &mut JoinedStream,
) -> Result<(), IpcError>
    requires count { length readers.old ≡ length sources.old }
    requires unread { AreUnread (map S.content sources.old) readers.old }
    requires fields { AllByRecursion (HasFieldsOf stream.old.writer.schema) readers.old }
    requires going { IsGoing stream.old }
    ensures adds { IfSome (told (map S.content sources.old)) (λ bs. (x : Start) → x.encoding ≡ stream.old.writer.encoding → AreOpen bs → BeginsWith x readers.old → IsStartOf x stream.old.writer.schema → Holds x stream.old (W.written sink.old) [] → FilesAdded result x bs stream.new (W.written sink.new) (W.wants sink.old) (W.wants sink.new)) }
    ensures going { IfOk result (λ u. IsGoing stream.new) }
    ensures encoding { stream.new.writer.encoding ≡ stream.old.writer.encoding }
    ensures cause { IfErr result (λ e. ConcatCause e (map S.faults sources.old) (map S.faults sources.new) (W.faults sink.old) (W.faults sink.new)) }
    ensures kept { EachKept S.content S.faults S.references sources.old sources.new }
    ensures sink { SinkKept W.faults W.wants W.references sink.old sink.new }
{
    for i in 0..sources.len() {
        let source = &mut sources[i];
        let reader = &mut readers[i];
        add_file(alloc, source, sink, reader, stream)?;
    }
    Ok(())
}
