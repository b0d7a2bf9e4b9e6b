//! Bytes of a feed.
ghost use Rattle.std.specs.Prelude.{◌≡◌, ◌+◌, ◌^◌, ◌<◌, ◌≤◌, length, max, take, drop, IfOk, IfErr};
ghost use Rattle.std.specs.Io.KnownBytes.{Consumes, IsAtEnd};
ghost use Rattle.ipc_io.specs.Outside.{LeavesFaults};
ghost use Rattle.ipc_streams.specs.Feeds.{FeedKept, PullCause, Pulls, Takes};

use arrow_spec::IpcError;
use ipc_io::Feed;
use std::alloc::Global;

/// The length of a first piece.
const FIRST_PIECE: usize = 4096;

/// Puts the next bytes of a feed into those from a place on. None are put only at its end, where there is room.
fn pull_at<F: Feed>(feed: &mut F, bytes: &mut [u8], at: usize) -> Result<usize, IpcError>
    requires { at ≤ length bytes.old }
    ensures front { take at bytes.new ≡ take at bytes.old }
    ensures fits { IfOk result (λ n. at + n ≤ length bytes.new) }
    ensures put { IfOk result (λ n. Consumes (F.rest feed.old) (F.rest feed.new) (take n (drop at bytes.new))) }
    ensures at_end { IfOk result (λ n. n ≡ 0 → at < length bytes.new → IsAtEnd (F.rest feed.new)) }
    ensures cause { IfErr result (λ e. PullCause e (F.faults feed.old) (F.faults feed.new)) }
    ensures faults_stay { LeavesFaults (F.faults feed.old) (F.faults feed.new) result }
    ensures kept { FeedKept F.faults F.references feed.old feed.new }
{
    let count = feed.pull(&mut bytes[at..])?;
    Ok(count)
}

/// Adds the next bytes of a feed, at most so many. None are added only at its end. It is the one place where room for bytes of
/// a feed is taken, and takes no more than have come, but for a first piece.
fn pull_piece<F: Feed>(feed: &mut F, bytes: &mut Vec<u8>, most: usize) -> Result<usize, IpcError>
    requires room { length bytes.old.items + most < 2 ^ 64 }
    requires grows { most ≤ max 4096 (length bytes.old.items) }
    ensures pulls { IfOk result (λ n. Pulls (F.rest feed.old) (F.rest feed.new) bytes.old.items bytes.new.items most n) }
    ensures cause { IfErr result (λ e. PullCause e (F.faults feed.old) (F.faults feed.new)) }
    ensures faults_stay { LeavesFaults (F.faults feed.old) (F.faults feed.new) result }
    ensures kept { FeedKept F.faults F.references feed.old feed.new }
{
    let start = bytes.len();
    bytes.resize(start + most, 0)?;
    let count = pull_at(feed, bytes.as_mut_slice(), start)?;
    bytes.truncate(start + count);
    Ok(count)
}

/// The next bytes of a feed: so many, or all that are left. They are pulled in pieces that grow, each as long as the bytes
/// before it at most, so that no more memory is asked for than bytes have come.
pub(crate) fn pull_up_to<F: Feed>(
    alloc: Global,
    feed: &mut F,
    count: usize,
) -> Result<Vec<u8>, IpcError>
    ensures taken { IfOk result (λ v. Takes (F.rest feed.old) (F.rest feed.new) count v.items) }
    ensures short { IfOk result (λ v. length v.items ≤ count) }
    ensures cause { IfErr result (λ e. PullCause e (F.faults feed.old) (F.faults feed.new)) }
    ensures faults_stay { LeavesFaults (F.faults feed.old) (F.faults feed.new) result }
    ensures kept { FeedKept F.faults F.references feed.old feed.new }
{
    let mut bytes = Vec::new(alloc);
    'pieces: while bytes.len() < count {
        let most = (count - bytes.len()).min(bytes.len().max(FIRST_PIECE));
        let got = pull_piece(feed, &mut bytes, most)?;
        if got == 0 {
            return Ok(bytes);
        }
    }
    Ok(bytes)
}
