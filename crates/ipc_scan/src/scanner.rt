//! A file that is read block by block for the rows that meet a filter.
ghost use Rattle.std.specs.Prelude.{◌≡◌, ◌<◌, List, ℕ, Option, length, IfErr, IfOk, IfSome};
ghost use Rattle.arrow_spec.specs.declared.error.IpcError.TheVariants.{Memory};
ghost use Rattle.arrow_types.specs.Schemas.{fields_in};
ghost use Rattle.ipc_files.specs.FileDictionaries.{HoldsUses};
ghost use Rattle.ipc_files.specs.FileViews.{FileCause, WasRead, meta_view};
ghost use Rattle.ipc_files.specs.Selections.{HasFields};
ghost use Rattle.ipc_io.specs.Outside.{LeavesFaults, IsSize, SourceKept};
ghost use Rattle.ipc_projection.specs.Projections.{numbers_in};
ghost use Rattle.ipc_read.specs.Held.{held_in};
ghost use Rattle.laws_walk.specs.Places.{schema_of_reader};
ghost use Rattle.row_filters.specs.Filters.{is_tested};
ghost use Rattle.ipc_scan.specs.Sends.{BlockFetchedBy, BlockScanned, IsScanner, NotScanned};

use crate::columns::{MessageAt, read_chosen, read_marks};
use crate::keep::{any_marked, keep_rows};
use arrow_arrays::RecordBatch;
use arrow_spec::{Feature, IpcError};
use arrow_types::ArrowSchema;
use ipc_files::{
    Dictionaries, FileMetadata, ProjectionInfo, Source, check_columns, projection_of,
    read_block_message,
};
use laws_walk::FileCursor;
use row_filters::{Filter, are_numbers};
use std::alloc::Global;

/// What a file is read for: the columns of a reader that reads nothing itself, how these are read, and the rows.
#[derive(Drop)]
pub(crate) struct Scanner {
    pub(crate) reader: FileCursor,
    pub(crate) chosen: Option<ProjectionInfo>,
    pub(crate) filter: Filter,
}

/// Whether the field at a place is of numbers.
fn is_tested(schema: &ArrowSchema, index: usize) -> bool
    requires { index < length schema.now }
    ensures { result ≡ is_tested (fields_in schema.now) index }
{
    match schema.get_at_index(index) {
        Some((_, field)) => are_numbers(&field.dtype),
        None => unreachable!(),
    }
}

/// A second list of numbers.
fn copied(alloc: Global, numbers: &Option<Vec<usize>>) -> Result<Option<Vec<usize>>, IpcError>
    ensures same { IfOk result (λ n. numbers_in n ≡ numbers_in numbers.now) }
    ensures err { IfErr result (λ e. e ≡ Memory) }
{
    match numbers {
        None => Ok(None),
        Some(numbers) => Ok(Some(numbers.as_slice().to_vec(alloc)?)),
    }
}

impl Scanner {
    /// The rows of a file that meet a filter, in these columns, in their order, or in all.
    ///
    /// # Errors
    ///
    /// `Projection` by the filter's column, where it is none, and then by the first number that is no column's or that stood before;
    /// `Unsupported(Predicate)` where the filter's column is not of numbers; `Unsupported(Float)` and `Unsupported(Decimal256)` by the
    /// kinds of the columns; `Memory`.
    pub(crate) fn new(
        alloc: Global,
        file: FileMetadata,
        filter: Filter,
        columns: Option<Vec<usize>>,
    ) -> Result<Scanner, IpcError>
        requires { WasRead file }
        ensures scanner { IfOk result (λ s. IsScanner s file filter (numbers_in columns)) }
        ensures err { IfErr result (λ e. NotScanned e (meta_view file).schema.fields filter (numbers_in columns)) }
    {
        if filter.column >= file.schema.len() {
            return Err(IpcError::Projection {
                index: filter.column,
            });
        }
        let chosen = projection_of(alloc, &file.schema, copied(alloc, &columns)?)?;
        if !is_tested(&file.schema, filter.column) {
            return Err(IpcError::Unsupported(Feature::Predicate));
        }
        check_columns(&file, chosen.as_ref())?;
        Ok(Scanner {
            reader: FileCursor::new(alloc, file, columns, None)?,
            chosen,
            filter,
        })
    }

    /// The rows of a block that meet the filter, in the columns asked for, which are read only where there is one.
    pub(crate) fn read_block<S: Source>(
        &self,
        alloc: Global,
        source: &mut S,
        dictionaries: &Dictionaries,
        number: usize,
        scratch: &mut Vec<u8>,
    ) -> Result<Option<RecordBatch>, IpcError>
        requires scanner { (columns : Option (List ℕ)) × IsScanner self.now self.now.reader.metadata self.now.filter columns }
        requires within { number < length self.now.reader.metadata.blocks.items }
        requires uses { HoldsUses (meta_view self.now.reader.metadata) (held_in dictionaries.now) }
        requires whole { IsSize (S.content source.old) self.now.reader.metadata.size }
        ensures reads { BlockScanned (S.content source.old) self.now (held_in dictionaries.now) number result }
        ensures schema { IfOk result (λ o. IfSome o (λ y. HasFields y (schema_of_reader self.now.reader))) }
        ensures cause { IfErr result (λ e. FileCause e (S.faults source.old) (S.faults source.new)) }
        ensures faults_stay { LeavesFaults (S.faults source.old) (S.faults source.new) result }
        ensures fetched { BlockFetchedBy (S.content source.old) self.now (held_in dictionaries.now) number (S.fetched source.old) (S.fetched source.new) }
        ensures kept { SourceKept S.content S.faults S.references source.old source.new }
    {
        let file = self.reader.metadata();
        let block = &file.blocks[number];
        let read = read_block_message(alloc, source, block, file.size)?;
        let at = MessageAt { block, read: &read };
        let marks = read_marks(alloc, source, file, at, dictionaries, self.filter, scratch)?;
        if !any_marked(&marks) {
            return Ok(None);
        }
        let chosen = self.chosen.as_ref();
        let batch = read_chosen(alloc, source, file, at, dictionaries, chosen, scratch)?;
        Ok(Some(keep_rows(alloc, batch, &marks)?))
    }
}
