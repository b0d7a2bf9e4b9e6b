//! A file that is read one record batch after another.
ghost use Rattle.std.specs.Prelude.{◌≡◌, ◌-◌, ◌∷◌, ◌⊎◌, [], length, Err, Ok, IfErr, IfOk, MatchResult};
ghost use Rattle.std.specs.Iterator.{at_most};
ghost use Rattle.std.specs.Rc.{rc_value};
ghost use Rattle.arrow_spec.specs.declared.error.IpcError.TheVariants.{Memory};
ghost use Rattle.arrow_spec.specs.Files.{columns_right};
ghost use Rattle.ipc_io.specs.Outside.{IsSize};
ghost use Rattle.ipc_files.specs.FileViews.{IsReadable};
ghost use Rattle.ipc_files.specs.Selections.{IsMade, schema_shown};
ghost use Rattle.ipc_files.specs.Below.{MayProject, numbers_in};
ghost use Rattle.ipc_reader.specs.Reads.{NextBatch, NextMessage, SkipsBlocks};
ghost use Rattle.ipc_reader.specs.declared.kept.KeptDictionaries.TheVariants.{NotRead};

use crate::cursor::FileCursor;
use arrow_arrays::RecordBatch;
use arrow_spec::IpcError;
use arrow_types::ArrowSchemaRef;
use ipc_files::{FileMetadata, ProjectionInfo, RecordMessage};
use ipc_io::{Refused, Source};
use std::alloc::Global;

/// A cursor over a file's record batches with the file's source.
#[derive(Drop)]
pub struct FileReader<S: Source> {
    source: S,
    cursor: FileCursor,
    alloc: Global,
}

impl<S: Source> FileReader<S> {
    /// A reader at the first block, for the columns of these numbers, in their order, or for all, and for as many rows as
    /// the limit says, or for all.
    ///
    /// # Errors
    ///
    /// `Projection` by the first number that is no column's or that stood before; `Memory`. The source is handed back.
    pub fn new(
        alloc: Global,
        source: S,
        metadata: FileMetadata,
        projection: Option<Vec<usize>>,
        limit: Option<usize>,
    ) -> Result<FileReader<S>, Refused<S>>
        requires readable { IsReadable metadata }
        ensures projected { IfOk result (λ r. MayProject (rc_value metadata.schema) (numbers_in projection) r.cursor.projection) }
        ensures right { IfOk result (λ _. columns_right (numbers_in projection) (length (rc_value metadata.schema)) ≡ Ok tt) }
        ensures err { IfErr result (λ e. (e.error ≡ Memory) ⊎ (columns_right (numbers_in projection) (length (rc_value metadata.schema)) ≡ Err (e.error ∷ []))) }
        ensures source { MatchResult result (λ r. r.source ≡ source) (λ e. e.object ≡ source) }
        ensures metadata { IfOk result (λ r. r.cursor.metadata ≡ metadata) }
        ensures left { IfOk result (λ r. r.cursor.left ≡ limit) }
        ensures block { IfOk result (λ r. r.cursor.block ≡ 0) }
        ensures dictionaries { IfOk result (λ r. r.cursor.dictionaries ≡ NotRead) }
    {
        match FileCursor::new(alloc, metadata, projection, limit) {
            Ok(cursor) => Ok(FileReader {
                source,
                cursor,
                alloc,
            }),
            Err(error) => Err(Refused {
                error,
                object: source,
            }),
        }
    }

    /// A reader at the first block, for the columns of a projection that was made for the file's schema, or for all, and for
    /// as many rows as the limit says, or for all.
    pub fn new_with_projection_info(
        alloc: Global,
        source: S,
        metadata: FileMetadata,
        projection: Option<ProjectionInfo>,
        limit: Option<usize>,
    ) -> FileReader<S>
        requires readable { IsReadable metadata }
        requires made { IsMade (rc_value metadata.schema) projection }
        ensures source { result.source ≡ source }
        ensures projection { result.cursor.projection ≡ projection }
        ensures metadata { result.cursor.metadata ≡ metadata }
        ensures left { result.cursor.left ≡ limit }
        ensures block { result.cursor.block ≡ 0 }
        ensures dictionaries { result.cursor.dictionaries ≡ NotRead }
    {
        FileReader {
            source,
            cursor: FileCursor::new_with_projection_info(alloc, metadata, projection, limit),
            alloc,
        }
    }

    /// What the file's footer says.
    pub fn metadata(&self) -> &FileMetadata
        ensures { result.now ≡ self.now.cursor.metadata }
    {
        self.cursor.metadata()
    }

    /// The schema of the columns asked for, in their order.
    pub fn schema(&self) -> &ArrowSchemaRef
        ensures { rc_value result.now ≡ schema_shown (rc_value self.now.cursor.metadata.schema) self.now.cursor.projection }
    {
        self.cursor.schema()
    }

    /// The source.
    pub fn into_inner(self) -> S
        ensures { result ≡ self.source }
    {
        self.source
    }

    /// The number of the block that is read next.
    pub fn get_current_block(&self) -> usize
        ensures { result ≡ self.now.cursor.block }
    {
        self.cursor.get_current_block()
    }

    /// Goes to a block. What is left of the limit stays, and so do the dictionaries.
    pub fn set_current_block(&mut self, block: usize)
        ensures block { self.new.cursor.block ≡ block }
        ensures left { self.new.cursor.left ≡ self.old.cursor.left }
        ensures projection { self.new.cursor.projection ≡ self.old.cursor.projection }
        ensures metadata { self.new.cursor.metadata ≡ self.old.cursor.metadata }
        ensures dictionaries { self.new.cursor.dictionaries ≡ self.old.cursor.dictionaries }
        ensures source { self.new.source ≡ self.old.source }
    {
        self.cursor.set_current_block(block);
    }

    /// Takes what is read for the columns asked for. From then on all columns are read.
    pub fn take_projection_info(&mut self) -> Option<ProjectionInfo>
        ensures taken { result ≡ self.old.cursor.projection }
        ensures all { self.new.cursor.projection ≡ None }
        ensures block { self.new.cursor.block ≡ self.old.cursor.block }
        ensures left { self.new.cursor.left ≡ self.old.cursor.left }
        ensures metadata { self.new.cursor.metadata ≡ self.old.cursor.metadata }
        ensures dictionaries { self.new.cursor.dictionaries ≡ self.old.cursor.dictionaries }
        ensures source { self.new.source ≡ self.old.source }
    {
        self.cursor.take_projection_info()
    }

    /// Takes the memory that is used again. Its bytes are of no meaning.
    pub fn take_scratch(&mut self) -> Vec<u8>
        ensures taken { result ≡ self.old.cursor.scratch }
        ensures block { self.new.cursor.block ≡ self.old.cursor.block }
        ensures left { self.new.cursor.left ≡ self.old.cursor.left }
        ensures projection { self.new.cursor.projection ≡ self.old.cursor.projection }
        ensures metadata { self.new.cursor.metadata ≡ self.old.cursor.metadata }
        ensures dictionaries { self.new.cursor.dictionaries ≡ self.old.cursor.dictionaries }
        ensures source { self.new.source ≡ self.old.source }
    {
        self.cursor.take_scratch(self.alloc)
    }

    /// Gives memory to be used again.
    pub fn set_scratch(&mut self, scratch: Vec<u8>)
        ensures given { self.new.cursor.scratch ≡ scratch }
        ensures block { self.new.cursor.block ≡ self.old.cursor.block }
        ensures left { self.new.cursor.left ≡ self.old.cursor.left }
        ensures projection { self.new.cursor.projection ≡ self.old.cursor.projection }
        ensures metadata { self.new.cursor.metadata ≡ self.old.cursor.metadata }
        ensures dictionaries { self.new.cursor.dictionaries ≡ self.old.cursor.dictionaries }
        ensures source { self.new.source ≡ self.old.source }
    {
        self.cursor.set_scratch(scratch);
    }

    /// Reads the message of the record batch of the current block, whatever pairs it has, and goes to the next block, also
    /// behind a refusal. None at or past the last block. What is left of the limit stays.
    ///
    /// # Errors
    ///
    /// As of `read_block_header` of `ipc_files`.
    pub fn next_record_batch(&mut self) -> Option<Result<RecordMessage, IpcError>>
        requires whole { IsSize (S.content self.old.source) self.old.cursor.metadata.size }
        ensures { NextMessage S.content S.faults S.fetched S.references self.old.source self.new.source self.old.cursor self.new.cursor result }
    {
        self.cursor.next_record_batch(self.alloc, &mut self.source)
    }

    /// Goes to the block at which so many rows end, counted from the first block on, and answers how many of them remain
    /// there: fewer than the block has, or what is left behind the last one. A refusal leaves the reader where it was.
    ///
    /// # Errors
    ///
    /// As of `read_block_rows` of `ipc_files`.
    pub fn skip_blocks_till_limit(&mut self, offset: u64) -> Result<u64, IpcError>
        requires whole { IsSize (S.content self.old.source) self.old.cursor.metadata.size }
        ensures { SkipsBlocks S.content S.faults S.fetched S.references self.old.source self.new.source self.old.cursor self.new.cursor offset result }
    {
        self.cursor
            .skip_blocks_till_limit(self.alloc, &mut self.source, offset)
    }
}

/// The record batches from the current block on, in the columns asked for, in their order, and as far as rows are left of
/// the limit, each of them read or refused. At the first one the dictionaries are read; where they are refused there is
/// no other.
impl<S: Source + Drop> Iterator for FileReader<S> {
    type Item = Result<RecordBatch, IpcError>;

    ghost can_next = { λ r. IsSize (S.content r.source) r.cursor.metadata.size };

    ghost next_gives = { λ old r new. NextBatch S.content S.faults S.fetched S.references old.source new.source old.cursor new.cursor r };

    ghost remaining = { λ r. at_most (length r.cursor.metadata.blocks.items - r.cursor.block) };

    #[tactic(auto, using(crate::proofs::Progress::progress))]
    fn next(&mut self) -> Option<Result<RecordBatch, IpcError>> {
        self.cursor.next(self.alloc, &mut self.source)
    }
}
