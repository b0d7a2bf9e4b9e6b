//! A place among the record batches of a file.
ghost use Rattle.std.specs.Prelude.{◌≡◌, ◌∷◌, ◌⊎◌, [], length, Option, None, Ok, Err, IfOk, IfErr};
ghost use Rattle.std.specs.Rc.{rc_value};
ghost use Rattle.arrow_spec.specs.declared.error.IpcError.TheVariants.{Memory};
ghost use Rattle.arrow_spec.specs.Files.{columns_right};
ghost use Rattle.ipc_files.specs.FileViews.{IsReadable, meta_view};
ghost use Rattle.ipc_files.specs.Selections.{IsMade, schema_shown};
ghost use Rattle.ipc_files.specs.Below.{MayProject, numbers_in};
ghost use Rattle.ipc_reader.specs.Kept.{KeepsUses};
ghost use Rattle.ipc_reader.specs.declared.kept.KeptDictionaries.TheVariants.{NotRead};

use crate::kept::KeptDictionaries;
use arrow_spec::IpcError;
use arrow_types::ArrowSchemaRef;
use ipc_files::{FileMetadata, ProjectionInfo, projection_of};
use std::alloc::Global;
use std::mem;

/// A reader of a file without its source, which each call that reads is lent: the file's metadata, the columns asked
/// for, how many rows are left of a limit, the current block, the dictionaries that were read, and memory that is used
/// again.
pub struct FileCursor {
    pub(crate) metadata: FileMetadata,
    pub(crate) projection: Option<ProjectionInfo>,
    pub(crate) left: Option<usize>,
    pub(crate) block: usize,
    pub(crate) dictionaries: KeptDictionaries,
    pub(crate) scratch: Vec<u8>,
    ghost readable: { IsReadable metadata },
    ghost made: { IsMade (rc_value metadata.schema) projection },
    ghost uses: { ∥ KeepsUses (meta_view metadata) dictionaries ∥₁ },
}

impl Drop for FileCursor {
    fn drop(self) {
        let FileCursor {
            metadata,
            projection,
            left: _,
            block: _,
            dictionaries,
            scratch,
        } = self;
        drop(metadata);
        drop(projection);
        drop(dictionaries);
        drop(scratch);
    }
}

impl FileCursor {
    /// A cursor at the first block, for the columns of these numbers, in their order, or for all, and for as many rows as
    /// the limit says, or for all.
    ///
    /// # Errors
    ///
    /// `Projection` by the first number that is no column's or that stood before; `Memory`.
    pub fn new(
        alloc: Global,
        metadata: FileMetadata,
        projection: Option<Vec<usize>>,
        limit: Option<usize>,
    ) -> Result<FileCursor, IpcError>
        requires readable { IsReadable metadata }
        ensures projected { IfOk result (λ c. MayProject (rc_value metadata.schema) (numbers_in projection) c.projection) }
        ensures right { IfOk result (λ _. columns_right (numbers_in projection) (length (rc_value metadata.schema)) ≡ Ok tt) }
        ensures err { IfErr result (λ e. (e ≡ Memory) ⊎ (columns_right (numbers_in projection) (length (rc_value metadata.schema)) ≡ Err (e ∷ []))) }
        ensures metadata { IfOk result (λ c. c.metadata ≡ metadata) }
        ensures left { IfOk result (λ c. c.left ≡ limit) }
        ensures block { IfOk result (λ c. c.block ≡ 0) }
        ensures dictionaries { IfOk result (λ c. c.dictionaries ≡ NotRead) }
    {
        let projection = projection_of(alloc, &metadata.schema, projection)?;
        Ok(FileCursor::new_with_projection_info(alloc, metadata, projection, limit))
    }

    /// A cursor at the first block, for the columns of a projection that was made for the file's schema, or for all, and for
    /// as many rows as the limit says, or for all.
    pub fn new_with_projection_info(
        alloc: Global,
        metadata: FileMetadata,
        projection: Option<ProjectionInfo>,
        limit: Option<usize>,
    ) -> FileCursor
        requires readable { IsReadable metadata }
        requires made { IsMade (rc_value metadata.schema) projection }
        ensures projection { result.projection ≡ projection }
        ensures metadata { result.metadata ≡ metadata }
        ensures left { result.left ≡ limit }
        ensures block { result.block ≡ 0 }
        ensures dictionaries { result.dictionaries ≡ NotRead }
    {
        FileCursor {
            metadata,
            projection,
            left: limit,
            block: 0,
            dictionaries: KeptDictionaries::NotRead,
            scratch: Vec::new(alloc),
        }
    }

    /// What the file's footer says.
    pub fn metadata(&self) -> &FileMetadata
        ensures { result.now ≡ self.now.metadata }
    {
        &self.metadata
    }

    /// The schema of the columns asked for, in their order.
    pub fn schema(&self) -> &ArrowSchemaRef
        ensures { rc_value result.now ≡ schema_shown (rc_value self.now.metadata.schema) self.now.projection }
    {
        match &self.projection {
            None => &self.metadata.schema,
            Some(projection) => &projection.schema,
        }
    }

    /// The number of the block that is read next.
    pub fn get_current_block(&self) -> usize
        ensures { result ≡ self.now.block }
    {
        self.block
    }

    /// Goes to a block. What is left of the limit stays, and so do the dictionaries.
    pub fn set_current_block(&mut self, block: usize)
        ensures block { self.new.block ≡ block }
        ensures left { self.new.left ≡ self.old.left }
        ensures projection { self.new.projection ≡ self.old.projection }
        ensures metadata { self.new.metadata ≡ self.old.metadata }
        ensures dictionaries { self.new.dictionaries ≡ self.old.dictionaries }
    {
        self.block = block;
    }

    /// Takes what is read for the columns asked for. From then on all columns are read.
    pub fn take_projection_info(&mut self) -> Option<ProjectionInfo>
        ensures taken { result ≡ self.old.projection }
        ensures all { self.new.projection ≡ None }
        ensures block { self.new.block ≡ self.old.block }
        ensures left { self.new.left ≡ self.old.left }
        ensures metadata { self.new.metadata ≡ self.old.metadata }
        ensures dictionaries { self.new.dictionaries ≡ self.old.dictionaries }
    {
        mem::replace(&mut self.projection, None)
    }

    /// Takes the memory that is used again. Its bytes are of no meaning.
    pub fn take_scratch(&mut self, alloc: Global) -> Vec<u8>
        ensures taken { result ≡ self.old.scratch }
        ensures block { self.new.block ≡ self.old.block }
        ensures left { self.new.left ≡ self.old.left }
        ensures projection { self.new.projection ≡ self.old.projection }
        ensures metadata { self.new.metadata ≡ self.old.metadata }
        ensures dictionaries { self.new.dictionaries ≡ self.old.dictionaries }
    {
        mem::replace(&mut self.scratch, Vec::new(alloc))
    }

    /// Gives memory to be used again.
    pub fn set_scratch(&mut self, scratch: Vec<u8>)
        ensures given { self.new.scratch ≡ scratch }
        ensures block { self.new.block ≡ self.old.block }
        ensures left { self.new.left ≡ self.old.left }
        ensures projection { self.new.projection ≡ self.old.projection }
        ensures metadata { self.new.metadata ≡ self.old.metadata }
        ensures dictionaries { self.new.dictionaries ≡ self.old.dictionaries }
    {
        self.scratch = scratch;
    }
}
