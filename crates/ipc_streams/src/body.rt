//! The body of a message in memory.
ghost use Rattle.std.specs.Prelude.{◌≡◌, ◌^◌, ◌<◌, Some, length, IfOk, IfErr};
ghost use Rattle.ipc_io.specs.Outside.{LeavesFaults};
ghost use Rattle.ipc_files.specs.FileViews.{FileCause};
ghost use Rattle.ipc_streams.specs.Feeds.{FeedKept};
ghost use Rattle.ipc_streams.specs.Bodies.{GivesBody};

use crate::pull::pull_up_to;
use arrow_spec::{IpcError, OutOfSpecKind};
use ipc_files::Body;
use ipc_io::{Failed, Feed, Got, Source};
use std::alloc::Global;

/// The bytes of a body, as a source that never fails.
#[derive(Drop)]
pub(crate) struct HeldBody {
    pub(crate) bytes: Vec<u8>,
}

impl HeldBody {
    /// Where the body stands: all of the bytes.
    pub(crate) fn place(&self) -> Body
        ensures place { result ≡ record { offset = 0; length = length self.now.bytes.items } }
        ensures small { length self.now.bytes.items < 2 ^ 63 }
    {
        Body {
            offset: 0,
            length: self.bytes.len() as u64,
        }
    }
}

impl Source for HeldBody {
    ghost content = { λ s. Some s.bytes.items };

    ghost faults = { λ _. 0 };

    ghost fetched = { λ _. 0 };

    fn size(&mut self) -> Result<u64, Failed> {
        Ok(self.bytes.len() as u64)
    }

    fn read_at(&mut self, at: u64, out: &mut [u8]) -> Result<Got, Failed> {
        let size = self.bytes.len() as u64;
        let wanted = out.len() as u64;
        if at > size || size - at < wanted {
            return Ok(Got::Short);
        }
        let start = at as usize;
        out.copy_from_slice(&self.bytes[start..start + out.len()]);
        Ok(Got::Full)
    }
}

/// Pulls a message's body, which has so many bytes.
pub(crate) fn read_body<F: Feed>(
    alloc: Global,
    feed: &mut F,
    count: u64,
) -> Result<HeldBody, IpcError>
    ensures gives { GivesBody (F.rest feed.old) (F.rest feed.new) count result }
    ensures whole { IfOk result (λ body. length body.bytes.items ≡ count) }
    ensures cause { IfErr result (λ e. FileCause e (F.faults feed.old) (F.faults feed.new)) }
    ensures faults_stay { LeavesFaults (F.faults feed.old) (F.faults feed.new) result }
    ensures kept { FeedKept F.faults F.references feed.old feed.new }
{
    let bytes = pull_up_to(alloc, feed, count as usize)?;
    if (bytes.len() as u64) < count {
        return Err(IpcError::OutOfSpec(OutOfSpecKind::Truncated));
    }
    Ok(HeldBody { bytes })
}
