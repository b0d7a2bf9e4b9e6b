//! The next message of a stream (Arrow Columnar Format, "Encapsulated message format").
ghost use Rattle.std.specs.Prelude.{IfErr};
ghost use Rattle.ipc_io.specs.Outside.{LeavesFaults};
ghost use Rattle.ipc_fields.specs.Causes.{Decodes};
ghost use Rattle.ipc_files.specs.FileViews.{FileCause};
ghost use Rattle.ipc_streams.specs.Feeds.{FeedKept};
ghost use Rattle.ipc_streams.specs.Frames.{GivesFront, GivesLength, stated_length};

use crate::pull::pull_up_to;
use arrow_spec::{IpcError, OutOfSpecKind};
use ipc_files::is_continuation;
use ipc_io::Feed;
use std::alloc::Global;

/// What stands next in a stream: fewer than four bytes, the end mark, or a message, by its metadata.
#[derive(Drop)]
pub(crate) enum Frame {
    Waiting,
    Ended,
    Message(Vec<u8>),
}

/// The length of a message's metadata, as four bytes state it.
#[tactic(auto, unfolding(arrow_spec::specs::Readings::bind, crate::specs::Frames::stated_length))]
fn length_in(four: &[u8]) -> Result<usize, IpcError>
    ensures gives { Decodes (λ n. n) result (stated_length four.now) }
{
    if four.len() < 4 {
        return Err(IpcError::OutOfSpec(OutOfSpecKind::Truncated));
    }
    let (x, _) = four.split_at(4);
    let length = u32::from_le_bytes([x[0], x[1], x[2], x[3]]).cast_signed();
    if length < 0 {
        return Err(IpcError::OutOfSpec(OutOfSpecKind::UnexpectedNegativeInteger));
    }
    Ok(length as usize)
}

/// The length of a message's metadata, behind the first four bytes of its prefix.
fn read_length<F: Feed>(alloc: Global, feed: &mut F, front: &[u8]) -> Result<usize, IpcError>
    ensures gives { GivesLength front.now (F.rest feed.old) (F.rest feed.new) result }
    ensures cause { IfErr result (λ e. FileCause e (F.faults feed.old) (F.faults feed.new)) }
    ensures faults_stay { LeavesFaults (F.faults feed.old) (F.faults feed.new) result }
    ensures kept { FeedKept F.faults F.references feed.old feed.new }
{
    if !is_continuation(front) {
        return length_in(front);
    }
    let four = pull_up_to(alloc, feed, 4)?;
    length_in(&four)
}

/// Pulls the prefix and the metadata of the next message.
pub(crate) fn read_frame<F: Feed>(alloc: Global, feed: &mut F) -> Result<Frame, IpcError>
    ensures gives { GivesFront (F.rest feed.old) (F.rest feed.new) result }
    ensures cause { IfErr result (λ e. FileCause e (F.faults feed.old) (F.faults feed.new)) }
    ensures faults_stay { LeavesFaults (F.faults feed.old) (F.faults feed.new) result }
    ensures kept { FeedKept F.faults F.references feed.old feed.new }
{
    let front = pull_up_to(alloc, feed, 4)?;
    if front.len() < 4 {
        return Ok(Frame::Waiting);
    }
    let length = read_length(alloc, feed, &front)?;
    if length == 0 {
        return Ok(Frame::Ended);
    }
    let metadata = pull_up_to(alloc, feed, length)?;
    if metadata.len() < length {
        return Err(IpcError::OutOfSpec(OutOfSpecKind::Truncated));
    }
    Ok(Frame::Message(metadata))
}
