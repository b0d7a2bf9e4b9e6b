//! A file on a disk that goes on behind its last block (Arrow Columnar Format, "IPC File Format").
ghost use Rattle.std.specs.Prelude.{◌≡◌, ◌⊎◌, ◌≤◌, IfErr, IfOk, MatchResult, Ok, option_map};
ghost use Rattle.arrow_spec.specs.declared.error.IpcError.TheVariants.{Memory, WriteFault};
ghost use Rattle.arrow_spec.specs.Layout.{up_to};
ghost use Rattle.ipc_append.specs.Appends.{Continues, DoesNotAppend, IsAppending, IsContinued, StopsBefore, cut_place};
ghost use Rattle.ipc_disk.specs.Disks.{IsWithin, below};
ghost use Rattle.ipc_disk.specs.Tails.{cut_and_padded};
ghost use Rattle.ipc_streams.specs.Below.{IsReadable};
ghost use Rattle.ipc_io.specs.Outside.{IsSize, Rose, SourceKept};

use crate::checks::cut_place;
use crate::ends::have_widths;
use arrow_spec::IpcError;
use ipc_disk::{Disk, DiskTail};
use ipc_file_writer::{BegunFile, FileCore, FileWriter, WriteOptions};
use ipc_io::Refused;
use ipc_streams::{Dictionaries, FileMetadata, read_file_dictionaries};
use std::alloc::Global;

/// The writer of a file, and the place where the file is cut.
#[derive(Drop)]
struct Appending {
    core: FileCore,
    place: u64,
}

/// The writer that goes on behind a place.
fn core_behind(
    alloc: Global,
    metadata: FileMetadata,
    dictionaries: Dictionaries,
    place: u64,
    options: WriteOptions,
) -> Result<FileCore, IpcError>
    requires { cut_place options metadata ≡ Ok place }
    ensures continues { IfOk result (λ c. Continues options metadata place c) }
    ensures held { IfOk result (λ c. c.tracker.dictionaries ≡ dictionaries) }
    ensures err { IfErr result (λ e. e ≡ Memory) }
{
    let file = BegunFile {
        schema: metadata.schema,
        ipc_fields: metadata.ipc_schema.fields,
        custom_schema_metadata: metadata.custom_schema_metadata,
        custom_metadata: metadata.custom_metadata,
        dictionaries,
        dictionary_blocks: metadata.dictionaries,
        record_blocks: metadata.blocks,
    };
    FileCore::of_begun(alloc, file, place.next_multiple_of(8), options)
}

/// The writer of a file that goes on, whose dictionaries are read.
fn continued<D: Disk>(
    alloc: Global,
    disk: &mut D,
    metadata: FileMetadata,
    options: WriteOptions,
) -> Result<Appending, IpcError>
    requires readable { IsReadable metadata }
    requires whole { IsSize (D.content disk.old) metadata.size }
    ensures continued { IfOk result (λ f. IsContinued (D.content disk.old) options metadata f.place f.core) }
    ensures err { IfErr result (λ e. StopsBefore (D.content disk.old) e options metadata (D.faults disk.old) (D.faults disk.new)) }
    ensures kept { SourceKept D.content D.faults D.references disk.old disk.new }
{
    let place = cut_place(&options, &metadata)?;
    let mut scratch = Vec::new(alloc);
    let dictionaries = read_file_dictionaries(alloc, disk, &metadata, &mut scratch)?;
    let core = core_behind(alloc, metadata, dictionaries, place, options)?;
    core.check_end()?;
    Ok(Appending { core, place })
}

/// Cuts the disk, and puts the writer behind what is left.
fn cut_behind<D: Disk>(disk: D, file: Appending) -> Result<FileWriter<DiskTail<D>>, Refused<D>>
    requires { IsWithin (D.content disk) file.place }
    ensures core { IfOk result (λ w. w.core ≡ file.core) }
    ensures content { IfOk result (λ w. D.content w.sink.disk ≡ option_map (cut_and_padded file.place) (D.content disk)) }
    ensures end { IfOk result (λ w. w.sink.end ≡ up_to 8 file.place) }
    ensures kept { IfErr result (λ e. below file.place (D.content e.object) ≡ below file.place (D.content disk)) }
    ensures error { IfErr result (λ e. ((e.error ≡ WriteFault) × Rose (D.faults disk) (D.faults e.object)) ⊎ (e.error ≡ Memory)) }
    ensures faults { MatchResult result (λ w. D.faults disk ≤ D.faults w.sink.disk) (λ e. D.faults disk ≤ D.faults e.object) }
    ensures same_references { MatchResult result (λ w. D.references w.sink.disk ≡ D.references disk) (λ e. D.references e.object ≡ D.references disk) }
{
    match DiskTail::cut_to(disk, file.place) {
        Ok(tail) => Ok(FileWriter::with_core(tail, file.core)),
        Err(refused) => Err(Refused {
            error: refused.error,
            object: refused.disk,
        }),
    }
}

/// A writer that goes on with a file on a disk, whose footer was read: with its schema, its ids and its pairs, behind its farthest
/// block, a record batch's or a dictionary's. What stands behind that block is cut off, and zeros are put up to a multiple of 8. `finish`
/// puts a footer with the file's blocks and those of what was written. What is written is what stands on the disk below the tail's end:
/// `cut_off` of the tail, which `into_inner` gives behind `finish`, ends the disk there.
///
/// # Errors
///
/// `Unsupported(BigEndianAppend)`; `Unsupported(Compression)` where it is asked for; `Unsupported(Float)` and
/// `Unsupported(Decimal256)` for columns of such types, at any depth; `OutOfSpec(MissingRecordBatches)` where the file has no record
/// batch; `OutOfSpec(UnexpectedNegativeInteger)` and `OutOfSpec(BlockRange)` for any of its blocks; `TooMany(Pairs)` where its footer
/// has more than 1,048,576; as of `read_file_dictionaries`; as of `FileWriter::finish`, where the file could not be ended as it stands;
/// `Memory`. Each hands back the disk as it was. Behind `WriteFault`, and `Memory` of the disk, the disk may have been cut, and the
/// bytes below the cut are as they were.
pub fn try_from_file<D: Disk>(
    alloc: Global,
    disk: D,
    metadata: FileMetadata,
    options: WriteOptions,
) -> Result<FileWriter<DiskTail<D>>, Refused<D>>
    requires readable { IsReadable metadata }
    requires whole { IsSize (D.content disk) metadata.size }
    ensures ok { IfOk result (λ w. IsAppending (D.content disk) (D.content w.sink.disk) w.sink.end options metadata w.core) }
    ensures err { IfErr result (λ e. DoesNotAppend (D.content disk) (D.content e.object) e.error options metadata (D.faults disk) (D.faults e.object)) }
    ensures faults { MatchResult result (λ w. D.faults disk ≤ D.faults w.sink.disk) (λ e. D.faults disk ≤ D.faults e.object) }
    ensures same_references { MatchResult result (λ w. D.references w.sink.disk ≡ D.references disk) (λ e. D.references e.object ≡ D.references disk) }
{
    have_widths(metadata.dictionaries.as_slice());
    have_widths(metadata.blocks.as_slice());
    let mut disk = disk;
    match continued(alloc, &mut disk, metadata, options) {
        Ok(file) => cut_behind(disk, file),
        Err(error) => Err(Refused {
            error,
            object: disk,
        }),
    }
}
