//! The record batches of a file in the columns of a projection, in the order in which these were asked for.
ghost use Rattle.std.specs.Prelude.{◌≡◌, ◌<◌, List, Option, length, option_copied, slice_get, IfOk, IfErr, IfSome, Some, ℕ};
ghost use Rattle.std.specs.Rc.{rc_value};
ghost use Rattle.arrow_spec.specs.Arrays.{Dictionaries as History};
ghost use Rattle.arrow_spec.specs.Features.{chosen_floats};
ghost use Rattle.arrow_spec.specs.Files.{FileBlock};
ghost use Rattle.arrow_spec.specs.declared.message.Block.{Block};
ghost use Rattle.arrow_spec.specs.Readings.{Gives};
ghost use Rattle.ipc_io.specs.Outside.{LeavesFaults, IsSize, SourceKept};
ghost use Rattle.ipc_read.specs.Batches.{table_of};
ghost use Rattle.ipc_read.specs.Held.{held_in};
ghost use Rattle.ipc_projection.specs.Below.{columns_of, HoldsCells};
ghost use Rattle.ipc_read.specs.Sources.{Answers, IsRefusal};
ghost use Rattle.ipc_files.specs.Blocks.{batch_in, BatchRead};
ghost use Rattle.ipc_files.specs.Fetching.{BlockFetched};
ghost use Rattle.ipc_files.specs.FileDictionaries.{HoldsUses};
ghost use Rattle.ipc_files.specs.FileViews.{meta_view, FileCause, IsReadable};
ghost use Rattle.ipc_files.specs.Selections.{HasFields, IsMade, numbers_read, schema_shown};
ghost use Rattle.ipc_projection.specs.Projections.{MayProject};
ghost use Rattle.ipc_files.specs.Requests.{asked};

use crate::batch::read_batch;
use crate::metadata::FileMetadata;
use arrow_arrays::RecordBatch;
use arrow_spec::IpcError;
use ipc_projection::{ProjectionInfo, apply_projection};
use ipc_read::{Dictionaries, check_kinds};
use ipc_schema::Source;
use std::alloc::Global;

/// The numbers that are read for a projection, which rise, or all.
fn rising_numbers(projection: Option<&ProjectionInfo>) -> Option<&[usize]>
    ensures { columns_of result ≡ numbers_read (option_copied projection.entry) }
{
    match projection {
        None => None,
        Some(projection) => Some(projection.columns.as_slice()),
    }
}

/// Refuses columns that are never read, of those of a projection of the file's schema, or of all.
///
/// # Errors
///
/// `Unsupported(Float)` for floats at any depth, `Unsupported(Decimal256)` for decimals of 256 bits.
pub fn check_columns(
    metadata: &FileMetadata,
    projection: Option<&ProjectionInfo>,
) -> Result<(), IpcError>
    requires made { IsMade (rc_value metadata.now.schema) (option_copied projection) }
    requires readable { IsReadable metadata.now }
    ensures exact { (columns : Option (List ℕ)) → MayProject (rc_value metadata.now.schema) columns (option_copied projection.entry) → Answers (λ u. u) result (chosen_floats columns (meta_view metadata.now).schema.fields 0) tt }
    ensures cause { IfErr result IsRefusal }
{
    check_kinds(&metadata.schema, rising_numbers(projection))
}

/// Reads the record batch of the block `index` as `read_batch` does, in the columns of a projection of the file's
/// schema, in the order in which they were asked for, or in all of them.
///
/// # Errors
///
/// As of `read_batch`.
pub fn read_projected_batch<S: Source>(
    alloc: Global,
    source: &mut S,
    dictionaries: &Dictionaries,
    metadata: &FileMetadata,
    projection: Option<&ProjectionInfo>,
    limit: Option<usize>,
    index: usize,
    scratch: &mut Vec<u8>,
) -> Result<RecordBatch, IpcError>
    requires in_range { index < length metadata.now.blocks.items }
    requires made { IsMade (rc_value metadata.now.schema) (option_copied projection) }
    requires uses { HoldsUses (meta_view metadata.now) (held_in dictionaries.now) }
    requires readable { IsReadable metadata.now }
    requires whole { IsSize (S.content source.old) metadata.now.size }

    // The batch is what the block means under the dictionaries whose cells are held, the columns that were asked for and the limit, or a refusal of its.
    ensures gives { (columns : Option (List ℕ)) (block : Block) → MayProject (rc_value metadata.now.schema) columns (option_copied projection.entry) → slice_get metadata.now.blocks.items index ≡ Some block → IfSome (S.content source.old) (λ b. (d : History) → HoldsCells d (held_in dictionaries.now) → Gives table_of result (batch_in (asked columns limit) b (meta_view metadata.now) d block)) }
    ensures read { (columns : Option (List ℕ)) (block : FileBlock) → MayProject (rc_value metadata.now.schema) columns (option_copied projection.entry) → slice_get (meta_view metadata.now).blocks index ≡ Some block → IfOk result (λ x. IfSome (S.content source.old) (λ b. BatchRead b (held_in dictionaries.now) (meta_view metadata.now) (asked columns limit) block x)) }
    ensures schema { (columns : Option (List ℕ)) → MayProject (rc_value metadata.now.schema) columns (option_copied projection.entry) → IfOk result (λ x. HasFields x (schema_shown (rc_value metadata.now.schema) (option_copied projection.entry))) }
    ensures cause { IfErr result (λ e. FileCause e (S.faults source.old) (S.faults source.new)) }
    ensures faults_stay { LeavesFaults (S.faults source.old) (S.faults source.new) result }

    // No more is fetched than these columns of the block cost.
    ensures fetched { (columns : Option (List ℕ)) (block : FileBlock) → MayProject (rc_value metadata.now.schema) columns (option_copied projection.entry) → slice_get (meta_view metadata.now).blocks index ≡ Some block → BlockFetched (S.content source.old) (meta_view metadata.now) (asked columns limit) block limit (S.fetched source.old) (S.fetched source.new) }
    ensures kept { SourceKept S.content S.faults S.references source.old source.new }
{
    let numbers = rising_numbers(projection);
    let batch = read_batch(
        alloc,
        source,
        dictionaries,
        metadata,
        numbers,
        limit,
        index,
        scratch,
    )?;
    match projection {
        None => Ok(batch),
        Some(projection) => apply_projection(alloc, batch, &projection.map),
    }
}
