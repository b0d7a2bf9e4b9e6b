//! A stream's record batches, appended to a file on a disk.
ghost use Rattle.std.specs.Prelude.{◌≡◌, ◌≤◌, IfErr, IfOk, MatchResult, Ok, length, true};
ghost use Rattle.ipc_append.specs.Appended.{EndsDisk, IsAppended, IsNotAppended, IsWritten, RefusalSays, StopsOnDisk, WritesNot};
ghost use Rattle.ipc_file_writer.specs.Begun.{MayEnd};
ghost use Rattle.ipc_streams.specs.Below.{IsReadable};
ghost use Rattle.ipc_io.specs.Outside.{IsSize};
ghost use Rattle.ipc_file_writer.specs.Below.{is_started};

use crate::encode::EncodedChunk;
use crate::ending::cut_behind;
use crate::prepare::{Prepared, prepare};
use crate::put::write_file;
use crate::stream::WholeStream;
use crate::try_from_file;
use arrow_spec::IpcError;
use ipc_disk::{Disk, DiskTail};
use ipc_file_writer::{FileWriter, WriteOptions};
use ipc_io::Refused;
use std::alloc::Global;

/// Writes messages behind what a disk has, and ends the file there.
fn end_file<D: Disk>(
    writer: FileWriter<DiskTail<D>>,
    chunks: &[EncodedChunk],
) -> Result<D, Refused<D>>
    requires started { is_started writer.core.state ≡ true }
    requires may_end { MayEnd (Ok tt) writer.core }
    requires whole { IsSize (D.content writer.sink.disk) writer.sink.end }
    ensures ends { IfOk result (λ d. EndsDisk (D.content writer.sink.disk) (D.content d) writer.core chunks.now) }
    ensures stops { IfErr result (λ e. StopsOnDisk (D.content writer.sink.disk) (D.content e.object) e.error writer.core chunks.now (D.faults writer.sink.disk) (D.faults e.object)) }
    ensures faults { MatchResult result (λ d. D.faults writer.sink.disk ≤ D.faults d) (λ e. D.faults writer.sink.disk ≤ D.faults e.object) }
    ensures same_references { MatchResult result (λ d. D.references d ≡ D.references writer.sink.disk) (λ e. D.references e.object ≡ D.references writer.sink.disk) }
{
    let mut writer = writer;
    let written = write_file(&mut writer, chunks);
    let tail = writer.into_inner();
    match written {
        Ok(()) => cut_behind(tail),
        Err(error) => Err(Refused {
            error,
            object: tail.into_inner(),
        }),
    }
}

/// Goes on with a file, and writes what is prepared.
fn write_behind<D: Disk>(
    alloc: Global,
    disk: D,
    prepared: Prepared,
    options: WriteOptions,
) -> Result<D, Refused<D>>
    requires readable { IsReadable prepared.file }
    requires whole { IsSize (D.content disk) prepared.file.size }
    ensures written { IfOk result (λ d. IsWritten (D.content disk) (D.content d) options prepared.file prepared.chunks.items) }
    ensures stops { IfErr result (λ e. WritesNot (D.content disk) (D.content e.object) e.error options prepared.file prepared.chunks.items (D.faults disk) (D.faults e.object)) }
    ensures faults { MatchResult result (λ d. D.faults disk ≤ D.faults d) (λ e. D.faults disk ≤ D.faults e.object) }
    ensures same_references { MatchResult result (λ d. D.references d ≡ D.references disk) (λ e. D.references e.object ≡ D.references disk) }
{
    let writer = try_from_file(alloc, disk, prepared.file, options)?;
    end_file(writer, prepared.chunks.as_slice())
}

/// Appends a stream's record batches to the file on a disk, and answers how many they are. The batches are encoded under the
/// dictionary ids of the file, and what of their dictionaries the file does not have stands before each. They stand behind the
/// farthest of the file's blocks, and the file ends behind them, with the blocks that it had and with theirs.
///
/// # Errors
///
/// In this order: as of `read_file_metadata`; `SchemaMismatch` where the fields of the file and of the stream differ, dictionary ids
/// aside; as of `read_file_dictionaries`; as of `encode_chunk`, where dictionaries are never replaced: `DictionaryReplaced` where the
/// file has other values under an id, `TooLarge`; as of `try_from_file`. Each leaves the disk as it was. Once the disk is cut
/// `TooLarge`, `WriteFault` and `Memory` come alone, and the bytes below the cut are as they were.
pub fn append_stream<D: Disk>(
    alloc: Global,
    disk: &mut D,
    stream: &WholeStream,
    options: WriteOptions,
) -> Result<u64, IpcError>
    ensures appended { IfOk result (λ n. (n ≡ length stream.now.batches.items) × IsAppended (D.content disk.old) (D.content disk.new) options stream.now) }
    ensures refused { IfErr result (λ e. IsNotAppended (D.content disk.old) (D.content disk.new) e options stream.now (D.faults disk.old) (D.faults disk.new)) }
    ensures says { IfErr result (λ e. RefusalSays e (D.content disk.old) options stream.now (D.faults disk.old) (D.faults disk.new)) }
    ensures faults { D.faults disk.old ≤ D.faults disk.new }
    ensures same_references { D.references disk.new ≡ D.references disk.old }
{
    let prepared = prepare(alloc, disk, stream, &options)?;
    match write_behind(alloc, disk, prepared, options) {
        Ok(_) => Ok(stream.batches.len() as u64),
        Err(refused) => Err(refused.error),
    }
}
