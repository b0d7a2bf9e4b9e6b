//! A stream that is read whole, and whose dictionaries are made one list each.
ghost use Rattle.std.specs.Prelude.{◌≡◌, ◌⊎◌, IfErr, IfOk, IfSome};
ghost use Rattle.arrow_spec.specs.declared.error.IpcError.TheVariants.{Memory, NotRepresentable};
ghost use Rattle.ipc_append.specs.Below.{FeedKept};
ghost use Rattle.ipc_to_file.specs.Streams.{IsMadeOf, IsUnited, RefusesUnited, UnitedCause, has_large};

use crate::read::read_stream;
use arrow_spec::IpcError;
use ipc_append::WholeStream;
use ipc_io::Feed;
use ipc_unify::unify;
use std::alloc::Global;

/// A stream over one list of values for each dictionary of its schema.
fn united(alloc: Global, stream: WholeStream) -> Result<WholeStream, IpcError>
    ensures made { IfOk result (λ u. IsMadeOf stream u) }
    ensures refused { IfErr result (λ e. (e ≡ Memory) ⊎ ((e ≡ NotRepresentable) × has_large stream)) }
{
    let WholeStream { metadata, batches } = stream;
    let batches = unify(alloc, &metadata.schema, batches)?;
    Ok(WholeStream { metadata, batches })
}

/// Reads a stream to its end, and makes the dictionaries that stand at one place of its schema one list.
pub(crate) fn read_united<F: Feed>(alloc: Global, feed: &mut F) -> Result<WholeStream, IpcError>
    ensures united { IfOk result (λ u. IsUnited (F.rest feed.old) u) }
    ensures refused { IfErr result (λ e. IfSome (F.rest feed.old) (λ b. RefusesUnited e b)) }
    ensures cause { IfErr result (λ e. UnitedCause e (F.faults feed.old) (F.faults feed.new)) }
    ensures kept { FeedKept F.faults F.references feed.old feed.new }
{
    let stream = read_stream(alloc, feed)?;
    united(alloc, stream)
}
