//! A file that is ended on its disk.
ghost use Rattle.std.specs.Prelude.{◌≡◌, ◌≤◌, IfErr, IfOk, MatchResult};
ghost use Rattle.arrow_spec.specs.declared.error.IpcError.TheVariants.{WriteFault};
ghost use Rattle.ipc_append.specs.Endings.{IsEndedOnDisk, NotEndedOnDisk};
ghost use Rattle.ipc_disk.specs.Disks.{below};
ghost use Rattle.ipc_io.specs.Outside.{Rose};

use arrow_spec::IpcError;
use ipc_disk::{Disk, DiskTail};
use ipc_file_writer::FileWriter;
use ipc_io::Refused;

/// Cuts a disk off at the end of its tail.
pub(crate) fn cut_behind<D: Disk>(tail: DiskTail<D>) -> Result<D, Refused<D>>
    ensures content { IfOk result (λ d. D.content d ≡ below tail.end (D.content tail.disk)) }
    ensures kept { IfErr result (λ e. D.content e.object ≡ D.content tail.disk) }
    ensures error { IfErr result (λ e. e.error ≡ WriteFault) }
    ensures faults { MatchResult result (λ d. D.faults tail.disk ≤ D.faults d) (λ e. D.faults tail.disk ≤ D.faults e.object) }
    ensures rose { IfErr result (λ e. Rose (D.faults tail.disk) (D.faults e.object)) }
    ensures same_references { MatchResult result (λ d. D.references d ≡ D.references tail.disk) (λ e. D.references e.object ≡ D.references tail.disk) }
{
    match tail.cut_off() {
        Ok(disk) => Ok(disk),
        Err(refused) => Err(Refused {
            error: refused.error,
            object: refused.disk,
        }),
    }
}

/// Ends the file of a writer whose sink is the tail of a disk, and cuts the disk off behind it: the disk then has what stood below
/// the tail's end, the file's end, and nothing more.
///
/// # Errors
///
/// As of [`FileWriter::finish`], and `WriteFault` where the disk cannot be cut behind the file's end. The disk is handed back, with
/// the bytes below the tail's end as they were.
pub fn finish_on_disk<D: Disk>(writer: FileWriter<DiskTail<D>>) -> Result<D, Refused<D>>
    ensures ends { IfOk result (λ d. IsEndedOnDisk (D.content writer.sink.disk) (D.content d) writer.sink.end writer.core) }
    ensures stops { IfErr result (λ e. NotEndedOnDisk (D.content writer.sink.disk) (D.content e.object) writer.sink.end e.error writer.core (D.faults writer.sink.disk) (D.faults e.object)) }
    ensures faults { MatchResult result (λ d. D.faults writer.sink.disk ≤ D.faults d) (λ e. D.faults writer.sink.disk ≤ D.faults e.object) }
    ensures same_references { MatchResult result (λ d. D.references d ≡ D.references writer.sink.disk) (λ e. D.references e.object ≡ D.references writer.sink.disk) }
{
    let mut writer = writer;
    let finished = writer.finish();
    let tail = writer.into_inner();
    match finished {
        Ok(()) => cut_behind(tail),
        Err(error) => Err(Refused {
            error,
            object: tail.into_inner(),
        }),
    }
}
