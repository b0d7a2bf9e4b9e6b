//! A stream that is read to its end, from a feed that is lent.
ghost use Rattle.std.specs.Prelude.{IfErr, IfOk, IfSome};
ghost use Rattle.std.specs.Rc.{rc_value};
ghost use Rattle.ipc_append.specs.Wholes.{AllOf, IsWhole, RefusesStream};
ghost use Rattle.laws_walk.specs.Below.{FileCause};
ghost use Rattle.ipc_append.specs.Below.{FeedKept, IsReadable, MayBeWritten, stream_schema};

use arrow_arrays::RecordBatch;
use arrow_spec::IpcError;
use ipc_append::{StreamMetadata, StreamReader, WholeStream, read_rest, read_stream_metadata};
use ipc_io::Feed;
use std::alloc::Global;

/// The record batches behind a schema message.
fn read_batches<F: Feed>(
    alloc: Global,
    feed: &mut F,
    metadata: StreamMetadata,
) -> Result<Vec<RecordBatch>, IpcError>
    requires readable { IsReadable metadata }
    ensures gives { AllOf (F.rest feed.old) (stream_schema metadata) (rc_value metadata.schema) result }
    ensures cause { IfErr result (λ e. FileCause e (F.faults feed.old) (F.faults feed.new)) }
    ensures kept { FeedKept F.faults F.references feed.old feed.new }
{
    match StreamReader::new(alloc, feed, metadata, None) {
        Ok(opened) => {
            let mut reader = opened;
            let batches = read_rest(alloc, &mut reader);
            let _ = reader.into_inner();
            batches
        }
        Err(refused) => Err(refused.error),
    }
}

/// Reads a stream to its end: to its end mark, or to where fewer than four bytes are left.
pub(crate) fn read_stream<F: Feed>(alloc: Global, feed: &mut F) -> Result<WholeStream, IpcError>
    // The batches are those of the table that the stream means.
    ensures whole { IfOk result (λ s. IfSome (F.rest feed.old) (λ b. IsWhole b s)) }
    ensures readable { IfOk result (λ s. IsReadable s.metadata) }
    ensures may { IfOk result (λ s. MayBeWritten s.metadata) }
    ensures refused { IfErr result (λ e. IfSome (F.rest feed.old) (λ b. RefusesStream e b)) }
    ensures cause { IfErr result (λ e. FileCause e (F.faults feed.old) (F.faults feed.new)) }
    ensures kept { FeedKept F.faults F.references feed.old feed.new }
{
    let metadata = read_stream_metadata(alloc, feed)?;
    let copy = metadata.try_clone(alloc)?;
    let batches = read_batches(alloc, feed, copy)?;
    Ok(WholeStream { metadata, batches })
}
