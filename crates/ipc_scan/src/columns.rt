//! Columns of a block, under the message that was read of it.
ghost use Rattle.std.specs.Prelude.{◌≡◌, ◌+◌, ◌≤◌, ◌<◌, ◌^◌, [], ℕ, List, Option, None, length, map, option_copied, true, IfOk, IfErr, IfSome};
ghost use Rattle.std.specs.Rc.{rc_value};
ghost use Rattle.arrow_spec.specs.Arrays.{Dictionaries as History};
ghost use Rattle.arrow_spec.specs.Counts.{magnitude};
ghost use Rattle.arrow_spec.specs.Features.{chosen_floats};
ghost use Rattle.arrow_spec.specs.WrittenSchemas.{CustomMayBeWritten};
ghost use Rattle.arrow_arrays.specs.Parts.{kind_in};
ghost use Rattle.ipc_files.specs.Blocks.{asked_under, body_place};
ghost use Rattle.ipc_files.specs.FileBlocks.{file_block, paired_of};
ghost use Rattle.ipc_files.specs.FileDictionaries.{HoldsUses};
ghost use Rattle.ipc_files.specs.FileViews.{FileCause, IsReadable, meta_view};
ghost use Rattle.ipc_files.specs.Requests.{asked};
ghost use Rattle.ipc_files.specs.Selections.{HasFields, IsMade, numbers_read, schema_shown};
ghost use Rattle.ipc_io.specs.Outside.{LeavesFaults, IsSize, SourceKept};
ghost use Rattle.ipc_projection.specs.Below.{HoldsCells, are_columns, are_rising, chosen, columns_of};
ghost use Rattle.ipc_projection.specs.Projections.{MayProject};
ghost use Rattle.ipc_read.specs.Batches.{kinds_of};
ghost use Rattle.ipc_read.specs.Held.{held_in};
ghost use Rattle.laws_transcode.specs.Files.{HeaderFits};
ghost use Rattle.laws_scan.specs.Scan.{filter_alone};
ghost use Rattle.row_filters.specs.Filters.{is_tested};
ghost use Rattle.ipc_scan.specs.Columns.{BuffersFetched, ReadsChosen, ReadsColumns, ReadsTested, message_rows};
ghost use Rattle.ipc_scan.specs.Messages.{IsMessage};

use arrow_arrays::RecordBatch;
use arrow_spec::{Block, IpcError};
use ipc_fields::copy_if_any;
use ipc_files::{
    BlockMessage, Body, Dictionaries, FileMetadata, ProjectionInfo, Source, apply_projection,
    read_record_batch,
};
use row_filters::{Filter, row_marks};
use std::alloc::Global;

/// A block of a file, and its message.
#[derive(Clone, Copy)]
pub(crate) struct MessageAt<'b> {
    pub(crate) block: &'b Block,
    pub(crate) read: &'b BlockMessage,
}

/// A number, 0 where it is negative.
fn magnitude(x: i64) -> u64
    ensures value { result ≡ magnitude x }
    ensures small { result < 2 ^ 63 }
{
    if x < 0 { 0 } else { x as u64 }
}

/// Where the body of a block's message stands.
fn place_of_body(block: &Block) -> Body
    ensures { result ≡ body_place (file_block block.now) }
{
    Body {
        offset: magnitude(block.offset) + magnitude(block.meta_data_length as i64),
        length: magnitude(block.body_length),
    }
}

/// The numbers that are read for a projection, which rise, or all.
fn rising_numbers(projection: Option<&ProjectionInfo>) -> Option<&[usize]>
    ensures { columns_of result ≡ numbers_read (option_copied projection.entry) }
{
    match projection {
        None => None,
        Some(projection) => Some(projection.columns.as_slice()),
    }
}

/// The columns of a block whose numbers rise, or all, without the pairs of its message.
pub(crate) fn read_columns<S: Source>(
    alloc: Global,
    source: &mut S,
    file: &FileMetadata,
    at: MessageAt<'_>,
    dictionaries: &Dictionaries,
    projection: Option<&[usize]>,
    scratch: &mut Vec<u8>,
) -> Result<RecordBatch, IpcError>
    requires message { IsMessage (S.content source.old) at.block.now (paired_of at.read.now) }
    requires within { (file_block at.block.now).offset + (file_block at.block.now).metadata + (file_block at.block.now).body ≤ file.now.size }
    requires fits { HeaderFits (paired_of at.read.now).tables }
    requires floats { chosen_floats (columns_of projection) (meta_view file.now).schema.fields 0 ≡ [] }
    requires uses { HoldsUses (meta_view file.now) (held_in dictionaries.now) }
    requires read { IsReadable file.now }
    requires rising { are_rising (columns_of projection) ≡ true }
    requires range { are_columns (columns_of projection) (length (rc_value file.now.schema)) ≡ true }
    requires whole { IsSize (S.content source.old) file.now.size }
    ensures gives { IfSome (S.content source.old) (λ b. (d : History) → HoldsCells d (held_in dictionaries.now) → ReadsColumns b (held_in dictionaries.now) (asked_under b (meta_view file.now) d (asked (columns_of projection.entry) None)) (file_block at.entry.block.now) (paired_of at.entry.read.now) result) }
    ensures height { IfOk result (λ x. x.height ≡ message_rows (paired_of at.entry.read.now)) }
    ensures schema { IfOk result (λ x. x.schema ≡ chosen (columns_of projection.entry) 0 (rc_value file.now.schema)) }
    ensures kinds { IfOk result (λ x. map kind_in x.arrays ≡ chosen (columns_of projection.entry) 0 (kinds_of (rc_value file.now.schema))) }
    ensures custom { IfOk result (λ x. x.custom ≡ []) }
    ensures cause { IfErr result (λ e. FileCause e (S.faults source.old) (S.faults source.new)) }
    ensures faults_stay { LeavesFaults (S.faults source.old) (S.faults source.new) result }
    ensures fetched { BuffersFetched (S.content source.old) (meta_view file.now) (paired_of at.entry.read.now) (columns_of projection.entry) (file_block at.entry.block.now) (S.fetched source.old) (S.fetched source.new) }
    ensures kept { SourceKept S.content S.faults S.references source.old source.new }
{
    read_record_batch(
        alloc,
        &at.read.message.header,
        &file.schema,
        &file.ipc_schema,
        projection,
        None,
        dictionaries,
        at.read.message.version,
        source,
        place_of_body(at.block),
        file.size,
        scratch,
    )
}

/// The marks of a block's rows, for which the filter's column alone is read.
pub(crate) fn read_marks<S: Source>(
    alloc: Global,
    source: &mut S,
    file: &FileMetadata,
    at: MessageAt<'_>,
    dictionaries: &Dictionaries,
    filter: Filter,
    scratch: &mut Vec<u8>,
) -> Result<Vec<bool>, IpcError>
    requires message { IsMessage (S.content source.old) at.block.now (paired_of at.read.now) }
    requires within { (file_block at.block.now).offset + (file_block at.block.now).metadata + (file_block at.block.now).body ≤ file.now.size }
    requires fits { HeaderFits (paired_of at.read.now).tables }
    requires ordered { CustomMayBeWritten (paired_of at.read.now).custom }
    requires tested { is_tested (meta_view file.now).schema.fields filter.column ≡ true }
    requires uses { HoldsUses (meta_view file.now) (held_in dictionaries.now) }
    requires read { IsReadable file.now }
    requires below { filter.column < length (rc_value file.now.schema) }
    requires whole { IsSize (S.content source.old) file.now.size }
    ensures gives { IfSome (S.content source.old) (λ b. (d : History) (columns : Option (List ℕ)) → HoldsCells d (held_in dictionaries.now) → ReadsTested filter b (asked_under b (meta_view file.now) d (asked columns None)) (file_block at.entry.block.now) result) }
    ensures rows { IfOk result (λ v. length v.items ≡ message_rows (paired_of at.entry.read.now)) }
    ensures cause { IfErr result (λ e. FileCause e (S.faults source.old) (S.faults source.new)) }
    ensures faults_stay { LeavesFaults (S.faults source.old) (S.faults source.new) result }
    ensures fetched { BuffersFetched (S.content source.old) (meta_view file.now) (paired_of at.entry.read.now) (filter_alone filter) (file_block at.entry.block.now) (S.fetched source.old) (S.fetched source.new) }
    ensures kept { SourceKept S.content S.faults S.references source.old source.new }
{
    let numbers = [filter.column];
    let tested = read_columns(
        alloc,
        source,
        file,
        at,
        dictionaries,
        Some(&numbers),
        scratch,
    )?;
    let _rows = tested.height();
    let columns = tested.arrays();
    prove!(columns.len() == 1);
    Ok(row_marks(alloc, &columns[0], filter)?)
}

/// The columns asked for of a block, in the order asked, with the pairs of its message.
pub(crate) fn read_chosen<S: Source>(
    alloc: Global,
    source: &mut S,
    file: &FileMetadata,
    at: MessageAt<'_>,
    dictionaries: &Dictionaries,
    projection: Option<&ProjectionInfo>,
    scratch: &mut Vec<u8>,
) -> Result<RecordBatch, IpcError>
    requires message { IsMessage (S.content source.old) at.block.now (paired_of at.read.now) }
    requires within { (file_block at.block.now).offset + (file_block at.block.now).metadata + (file_block at.block.now).body ≤ file.now.size }
    requires fits { HeaderFits (paired_of at.read.now).tables }
    requires ordered { CustomMayBeWritten (paired_of at.read.now).custom }
    requires made { IsMade (rc_value file.now.schema) (option_copied projection) }
    requires floats { chosen_floats (numbers_read (option_copied projection)) (meta_view file.now).schema.fields 0 ≡ [] }
    requires uses { HoldsUses (meta_view file.now) (held_in dictionaries.now) }
    requires read { IsReadable file.now }
    requires whole { IsSize (S.content source.old) file.now.size }
    ensures gives { IfSome (S.content source.old) (λ b. (d : History) (columns : Option (List ℕ)) → HoldsCells d (held_in dictionaries.now) → MayProject (rc_value file.now.schema) columns (option_copied projection.entry) → ReadsChosen b (held_in dictionaries.now) (asked_under b (meta_view file.now) d (asked columns None)) (file_block at.entry.block.now) result) }
    ensures height { IfOk result (λ x. x.height ≡ message_rows (paired_of at.entry.read.now)) }
    ensures schema { (columns : Option (List ℕ)) → MayProject (rc_value file.now.schema) columns (option_copied projection.entry) → IfOk result (λ x. HasFields x (schema_shown (rc_value file.now.schema) (option_copied projection.entry))) }
    ensures cause { IfErr result (λ e. FileCause e (S.faults source.old) (S.faults source.new)) }
    ensures faults_stay { LeavesFaults (S.faults source.old) (S.faults source.new) result }
    ensures fetched { (columns : Option (List ℕ)) → MayProject (rc_value file.now.schema) columns (option_copied projection.entry) → BuffersFetched (S.content source.old) (meta_view file.now) (paired_of at.entry.read.now) columns (file_block at.entry.block.now) (S.fetched source.old) (S.fetched source.new) }
    ensures kept { SourceKept S.content S.faults S.references source.old source.new }
{
    let numbers = rising_numbers(projection);
    let batch = read_columns(alloc, source, file, at, dictionaries, numbers, scratch)?;
    let pairs = copy_if_any(alloc, &at.read.custom_metadata)?;
    let paired = batch.with_optional_metadata(pairs);
    match projection {
        None => Ok(paired),
        Some(projection) => apply_projection(alloc, paired, &projection.map),
    }
}
