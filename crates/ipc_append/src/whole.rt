//! Streams that are read to their end (Arrow Columnar Format, "IPC Streaming Format").
ghost use Rattle.std.specs.Prelude.{◌≡◌, All, IfErr, IfOk, IfSome, false};
ghost use Rattle.std.specs.Rc.{rc_value};
ghost use Rattle.arrow_spec.specs.Kinds.{bare};
ghost use Rattle.arrow_types.specs.Schemas.{fields_in};
ghost use Rattle.ipc_io.specs.Outside.{LeavesFaults};
ghost use Rattle.ipc_streams.specs.Below.{FileCause};
ghost use Rattle.ipc_streams.specs.Feeds.{FeedKept};
ghost use Rattle.ipc_streams.specs.Readers.{IsReader};
ghost use Rattle.ipc_streams.specs.Starts.{IsReadable, stream_schema};
ghost use Rattle.ipc_append.specs.Wholes.{AllOf, FailsBehind, GivesEach, GivesMore, IsWhole, RefusesStream, all_columns, batch_found};

use crate::stream::WholeStream;
use arrow_arrays::RecordBatch;
use arrow_spec::IpcError;
use ipc_io::Feed;
use ipc_streams::{StreamMetadata, StreamReader, StreamState, read_stream_metadata};
use std::alloc::Global;

/// The record batch, where there is one.
fn batch_in(state: StreamState) -> Option<RecordBatch>
    ensures { result ≡ batch_found state }
{
    match state {
        StreamState::Waiting => None,
        StreamState::Some(batch) => Some(batch),
    }
}

/// The next record batch of a stream, or none where the stream ends or has too few bytes for a message to begin.
fn next_batch<F: Feed + Drop>(reader: &mut StreamReader<F>) -> Result<Option<RecordBatch>, IpcError>
    requires more { reader.old.cursor.is_finished ≡ false }
    requires all { IsReader reader.old.cursor.columns (all_columns reader.old.cursor.columns) }
    ensures gives { GivesMore (F.rest reader.old.feed) (F.rest reader.new.feed) reader.old.cursor reader.new.cursor result }
    ensures cause { IfErr result (λ e. FileCause e (F.faults reader.old.feed) (F.faults reader.new.feed)) }
    ensures faults_stay { LeavesFaults (F.faults reader.old.feed) (F.faults reader.new.feed) result }
    ensures kept { FeedKept F.faults F.references reader.old.feed reader.new.feed }
{
    match reader.next() {
        None => Ok(None),
        Some(answer) => {
            let state = answer?;
            Ok(batch_in(state))
        }
    }
}

/// The record batches that a stream has left, all columns of them.
///
/// # Errors
///
/// As of the reader of its record batches; `Memory`.
pub fn read_rest<F: Feed + Drop>(
    alloc: Global,
    reader: &mut StreamReader<F>,
) -> Result<Vec<RecordBatch>, IpcError>
    requires more { reader.old.cursor.is_finished ≡ false }
    requires all { IsReader reader.old.cursor.columns (all_columns reader.old.cursor.columns) }
    ensures gives { GivesEach (F.rest reader.old.feed) reader.old.cursor result }
    ensures cause { IfErr result (λ e. FileCause e (F.faults reader.old.feed) (F.faults reader.new.feed)) }
    ensures faults_stay { LeavesFaults (F.faults reader.old.feed) (F.faults reader.new.feed) result }
    ensures kept { FeedKept F.faults F.references reader.old.feed reader.new.feed }
{
    let mut batches = Vec::new(alloc);
    for _ in 0..u64::MAX {
        match next_batch(reader)? {
            Some(batch) => batches.push(batch)?,
            None => return Ok(batches),
        }
    }
    Err(IpcError::Memory)
}

/// The record batches behind a schema message.
fn read_behind<F: Feed + Drop>(
    alloc: Global,
    feed: F,
    metadata: StreamMetadata,
) -> Result<Vec<RecordBatch>, IpcError>
    requires readable { IsReadable metadata }
    ensures gives { AllOf (F.rest feed) (stream_schema metadata) (rc_value metadata.schema) result }
    ensures cause { IfErr result (λ e. FailsBehind F.faults F.references feed e) }
{
    match StreamReader::new(alloc, feed, metadata, None) {
        Ok(opened) => {
            let mut reader = opened;
            read_rest(alloc, &mut reader)
        }
        Err(refused) => Err(refused.error),
    }
}

/// Reads a stream to its end: to its end mark, or to where fewer than four bytes are left.
///
/// # Errors
///
/// As of [`read_stream_metadata`] and of the reader of its record batches: `OutOfSpec` and `Unsupported` with the kind of what is
/// not as the format says or is not supported, `TooDeep`, `TooMany`, `ReadFault`, `Memory`.
pub fn read_whole<F: Feed + Drop>(alloc: Global, feed: F) -> Result<WholeStream, IpcError>
    // The batches are those of the table that the stream means.
    ensures whole { IfOk result (λ s. IfSome (F.rest feed) (λ b. IsWhole b s)) }
    ensures readable { IfOk result (λ s. IsReadable s.metadata) }
    ensures fields { IfOk result (λ s. All (λ x. bare (fields_in x.schema) ≡ bare (stream_schema s.metadata).fields) s.batches.items) }
    ensures refused { IfErr result (λ e. IfSome (F.rest feed) (λ b. RefusesStream e b)) }
    ensures cause { IfErr result (λ e. FailsBehind F.faults F.references feed e) }
{
    let mut feed = feed;
    let metadata = read_stream_metadata(alloc, &mut feed)?;
    let copy = metadata.try_clone(alloc)?;
    let batches = read_behind(alloc, feed, copy)?;
    Ok(WholeStream { metadata, batches })
}
