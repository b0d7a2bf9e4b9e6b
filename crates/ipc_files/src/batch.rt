//! The record batches of a file, one by one.
ghost use Rattle.std.specs.Prelude.{◌≡◌, ◌+◌, ◌^◌, ◌<◌, [], length, map, slice_get, true, IfOk, IfErr, IfSome, Some};
ghost use Rattle.std.specs.Rc.{rc_value};
ghost use Rattle.arrow_spec.specs.Arrays.{Dictionaries as History};
ghost use Rattle.arrow_spec.specs.Features.{chosen_floats};
ghost use Rattle.arrow_spec.specs.Files.{FileBlock};
ghost use Rattle.arrow_spec.specs.declared.message.Block.{Block};
ghost use Rattle.arrow_spec.specs.Readings.{Gives};
ghost use Rattle.arrow_arrays.specs.Parts.{kind_in};
ghost use Rattle.ipc_io.specs.Outside.{LeavesFaults, IsSize, SourceKept};
ghost use Rattle.ipc_read.specs.Batches.{kinds_of, table_of};
ghost use Rattle.ipc_read.specs.Held.{held_in};
ghost use Rattle.ipc_projection.specs.Below.{are_columns, are_rising, chosen, columns_of, HoldsCells};
ghost use Rattle.ipc_files.specs.Blocks.{asked_under, batch_in, BatchRead, body_place, ReadsBlock};
ghost use Rattle.ipc_files.specs.FileBlocks.{file_block};
ghost use Rattle.ipc_files.specs.FileDictionaries.{HoldsUses};
ghost use Rattle.ipc_files.specs.FileViews.{meta_view, FileCause, IsReadable};
ghost use Rattle.ipc_files.specs.Fetching.{BlockFetched};
ghost use Rattle.ipc_files.specs.Requests.{asked};

use crate::block::read_block_message;
use crate::integers::magnitude;
use crate::metadata::FileMetadata;
use arrow_arrays::RecordBatch;
use arrow_spec::{Block, IpcError};
use ipc_read::{Body, Dictionaries, check_kinds, read_record_batch};
use ipc_schema::Source;
use std::alloc::Global;

/// Where the body of a block's message stands.
pub(crate) fn place_of_body(block: &Block) -> Body
    ensures { result ≡ body_place (file_block block.now) }
{
    Body {
        offset: magnitude(block.offset) + magnitude(block.meta_data_length as i64),
        length: magnitude(block.body_length),
    }
}

/// The record batch of a block under the dictionaries that are held, of columns whose numbers rise, or of all, and as far
/// as rows are left to be read, with the pairs of its message.
pub fn read_block<S: Source>(
    alloc: Global,
    source: &mut S,
    block: &Block,
    file: &FileMetadata,
    dictionaries: &Dictionaries,
    projection: Option<&[usize]>,
    left: Option<usize>,
    scratch: &mut Vec<u8>,
) -> Result<RecordBatch, IpcError>
    requires floats { chosen_floats (columns_of projection) (meta_view file.now).schema.fields 0 ≡ [] }
    requires uses { HoldsUses (meta_view file.now) (held_in dictionaries.now) }
    requires read { IsReadable file.now }
    requires rising { are_rising (columns_of projection) ≡ true }
    requires range { are_columns (columns_of projection) (length (rc_value file.now.schema)) ≡ true }
    requires whole { IsSize (S.content source.old) file.now.size }
    ensures gives { IfSome (S.content source.old) (λ b. (d : History) → HoldsCells d (held_in dictionaries.now) → ReadsBlock b (held_in dictionaries.now) (asked_under b (meta_view file.now) d (asked (columns_of projection.entry) left)) block.now left result) }
    ensures few { IfOk result (λ x. x.height < 2 ^ 63) }
    ensures schema { IfOk result (λ x. x.schema ≡ chosen (columns_of projection.entry) 0 (rc_value file.now.schema)) }
    ensures kinds { IfOk result (λ x. map kind_in x.arrays ≡ chosen (columns_of projection.entry) 0 (kinds_of (rc_value file.now.schema))) }
    ensures cause { IfErr result (λ e. FileCause e (S.faults source.old) (S.faults source.new)) }
    ensures faults_stay { LeavesFaults (S.faults source.old) (S.faults source.new) result }
    ensures fetched { BlockFetched (S.content source.old) (meta_view file.now) (asked (columns_of projection.entry) left) (file_block block.now) left (S.fetched source.old) (S.fetched source.new) }
    ensures kept { SourceKept S.content S.faults S.references source.old source.new }
{
    let read = read_block_message(alloc, source, block, file.size)?;
    let batch = read_record_batch(
        alloc,
        &read.message.header,
        &file.schema,
        &file.ipc_schema,
        projection,
        left,
        dictionaries,
        read.message.version,
        source,
        place_of_body(block),
        file.size,
        scratch,
    )?;
    Ok(batch.with_optional_metadata(read.custom_metadata))
}

/// Reads the record batch of the block `index` under the dictionaries that are held: the columns whose numbers are asked
/// for, which rise, or all, and as far as their first `limit` rows go, or whole, in either byte order. Of the block, its
/// prefix, its metadata and the buffers that are needed are read; of a column that is not asked for, no buffer is. The batch
/// has the pairs of the block's message. One
/// batch is in memory. The parts that are held under an id are of the kind of the values of the columns that have it.
///
/// # Errors
///
/// `Unsupported(Float)` and `Unsupported(Decimal256)` by the columns' kinds, before the block is looked at; `OutOfSpec`
/// with the kind of the part of the block that is not as the format says; `InvalidId` and `InvalidKey` for keys whose
/// values are not held; `Unsupported(Version)`, `Unsupported(Compression)`, `Unsupported(ViewBigEndian)`,
/// `TooMany(Pairs)` for over 1,048,576 pairs of the block's message; `ReadFault`, `Memory`.
pub fn read_batch<S: Source>(
    alloc: Global,
    source: &mut S,
    dictionaries: &Dictionaries,
    metadata: &FileMetadata,
    projection: Option<&[usize]>,
    limit: Option<usize>,
    index: usize,
    scratch: &mut Vec<u8>,
) -> Result<RecordBatch, IpcError>
    requires in_range { index < length metadata.now.blocks.items }
    requires rising { are_rising (columns_of projection) ≡ true }
    requires range { are_columns (columns_of projection) (length (rc_value metadata.now.schema)) ≡ true }
    requires uses { HoldsUses (meta_view metadata.now) (held_in dictionaries.now) }
    requires readable { IsReadable metadata.now }
    requires whole { IsSize (S.content source.old) metadata.now.size }

    // The batch is what the block means under the dictionaries whose cells are held, the columns and the limit, or a refusal of its.
    ensures gives { (block : Block) → slice_get metadata.now.blocks.items index ≡ Some block → IfSome (S.content source.old) (λ b. (d : History) → HoldsCells d (held_in dictionaries.now) → Gives table_of result (batch_in (asked (columns_of projection.entry) limit) b (meta_view metadata.now) d block)) }
    ensures read { (block : FileBlock) → slice_get (meta_view metadata.now).blocks index ≡ Some block → IfOk result (λ x. IfSome (S.content source.old) (λ b. BatchRead b (held_in dictionaries.now) (meta_view metadata.now) (asked (columns_of projection.entry) limit) block x)) }
    ensures schema { IfOk result (λ x. x.schema ≡ chosen (columns_of projection.entry) 0 (rc_value metadata.now.schema)) }
    ensures kinds { IfOk result (λ x. map kind_in x.arrays ≡ chosen (columns_of projection.entry) 0 (kinds_of (rc_value metadata.now.schema))) }
    ensures cause { IfErr result (λ e. FileCause e (S.faults source.old) (S.faults source.new)) }
    ensures faults_stay { LeavesFaults (S.faults source.old) (S.faults source.new) result }

    // Of a block that means a batch, its prefix, its metadata and the buffers that are looked at are fetched, of columns that are asked for alone, and no buffer where there are no rows.
    ensures fetched { (block : FileBlock) → slice_get (meta_view metadata.now).blocks index ≡ Some block → BlockFetched (S.content source.old) (meta_view metadata.now) (asked (columns_of projection.entry) limit) block limit (S.fetched source.old) (S.fetched source.new) }
    ensures kept { SourceKept S.content S.faults S.references source.old source.new }
{
    check_kinds(&metadata.schema, projection)?;
    read_block(
        alloc,
        source,
        &metadata.blocks[index],
        metadata,
        dictionaries,
        projection,
        limit,
        scratch,
    )
}
