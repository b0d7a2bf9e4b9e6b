//! Commands on one file: what stands under a name, or what the input's hex text stands for.
ghost use Rattle.std.specs.Prelude.{◌≡◌, ◌⊎◌, ◌≤◌, IsNone, IsSome, IfErr, IfSome, OnOk, Some, option_map};
ghost use Rattle.arrow_spec.specs.declared.error.IpcError.TheVariants.{Memory};
ghost use Rattle.ipc_io.specs.Outside.{SinkKept, Stands};
ghost use Rattle.ipc_to_file.specs.Below.{FeedKept};
ghost use Rattle.ipc_tool.specs.FileTasks.{FileJob, IsStatusOf, PutCause, file_task};
ghost use Rattle.ipc_tool.specs.Outside.{outside_of};
ghost use Rattle.ipc_tool.specs.Refusal.{error_status};
ghost use Rattle.ipc_tool.specs.Tasks.{Does};
ghost use Rattle.ipc_words.specs.Views.{text};

use crate::input::read_hex;
use crate::refusal::Refusal;
use arrow_spec::IpcError;
use ipc_io::{Failed, Feed, Got, Shelf, Sink, Source};
use std::alloc::Global;

/// Something that is put of a file's bytes.
pub(crate) trait PutsFile {
    ghost job: { Self → FileJob };

    fn put<S: Source, W: Sink>(
        &self,
        alloc: Global,
        source: &mut S,
        sink: &mut W,
    ) -> Result<(), IpcError>
        ensures done { OnOk result (IfSome (S.content source.old) (λ b. (job self.now).done b (W.written sink.old) (W.written sink.new))) }
        ensures cause { IfErr result (λ e. PutCause (job self.now) e (S.content source.old) (S.faults source.old) (S.faults source.new) (W.faults sink.old) (W.faults sink.new)) }
        ensures left { IfErr result (λ e. (job self.now).left e (S.content source.old) (W.written sink.old) (W.written sink.new) (W.wants sink.old) (W.wants sink.new)) }
        ensures complete { IfSome (S.content source.old) (λ b. (job self.now).must b → Stands (S.faults source.old) (S.faults source.new) → Stands (W.faults sink.old) (W.faults sink.new) → IfErr result (λ e. (e ≡ Memory) ⊎ (job self.now).still e b)) }
        ensures statuses { IfErr result (λ e. IsStatusOf (job self.now) (error_status e)) }
        ensures kept { FeedKept S.faults S.references source.old source.new }
        ensures sink { SinkKept W.faults W.wants W.references sink.old sink.new };
}

// Bytes in memory that never fail.
#[derive(Drop)]
struct Bytes {
    bytes: Vec<u8>,
}

impl Source for Bytes {
    ghost content = { λ s. Some s.bytes.items };

    ghost faults = { λ s. 0 };

    ghost fetched = { λ s. 0 };

    fn size(&mut self) -> Result<u64, Failed> {
        Ok(self.bytes.len() as u64)
    }

    fn read_at(&mut self, at: u64, out: &mut [u8]) -> Result<Got, Failed> {
        let size = self.bytes.len() as u64;
        if at > size || size - at < out.len() as u64 {
            return Ok(Got::Short);
        }
        let start = at as usize;
        out.copy_from_slice(&self.bytes[start..start + out.len()]);
        Ok(Got::Full)
    }
}

/// Puts something of the file under a name, which is opened, and closed before the answer; without one, of the file that the input's hex text stands for.
pub(crate) fn of_file<J: PutsFile, H: Shelf, I: Feed, W: Sink>(
    alloc: Global,
    shelf: &mut H,
    input: &mut I,
    output: &mut W,
    job: &J,
    name: Option<&str>,
) -> Result<(), Refusal>
    ensures does { Does (file_task (J.job job.now) (option_map text name.entry)) result
        (outside_of H.held H.faults I.rest I.faults W.written W.faults W.wants shelf.old input.old output.old)
        (outside_of H.held H.faults I.rest I.faults W.written W.faults W.wants shelf.new input.new output.new) }
    ensures unread { IsSome name.entry → input.new ≡ input.old }
    ensures unopened { IsNone name.entry → shelf.new ≡ shelf.old }
{
    match name {
        None => {
            let bytes = read_hex(alloc, input)?;
            job.put(alloc, &mut Bytes { bytes }, output)?;
            Ok(())
        }
        Some(name) => {
            let mut file = shelf.open_file(name)?;
            let done = job.put(alloc, &mut file, output);
            shelf.close_file(file);
            done?;
            Ok(())
        }
    }
}
