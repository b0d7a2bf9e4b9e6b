//! The columns of a stream that are asked for.
ghost use Rattle.std.specs.Prelude.{◌≡◌, ◌∷◌, ◌⊎◌, [], length, Ok, Err, IfOk, IfErr};
ghost use Rattle.std.specs.Rc.{rc_value};
ghost use Rattle.arrow_spec.specs.Files.{columns_right};
ghost use Rattle.arrow_spec.specs.declared.error.IpcError.TheVariants.{Memory};
ghost use Rattle.ipc_files.specs.Selections.{IsMade};
ghost use Rattle.ipc_files.specs.Below.{MayProject, numbers_in};
ghost use Rattle.ipc_streams.specs.Starts.{IsReadable};

use crate::metadata::StreamMetadata;
use arrow_spec::IpcError;
use ipc_files::{ProjectionInfo, projection_of};
use std::alloc::Global;

/// The metadata of a stream, and what is read for the columns that are asked for; without a projection all are.
#[derive(Drop)]
pub(crate) struct StreamColumns {
    pub(crate) metadata: StreamMetadata,
    pub(crate) projection: Option<ProjectionInfo>,
    ghost readable: { IsReadable metadata },
    ghost made: { IsMade (rc_value metadata.schema) projection },
}

impl StreamColumns {
    /// The columns of these numbers, in their order, or all.
    pub(crate) fn new(
        alloc: Global,
        metadata: StreamMetadata,
        columns: Option<Vec<usize>>,
    ) -> Result<StreamColumns, IpcError>
        requires readable { IsReadable metadata }
        ensures projected { IfOk result (λ c. MayProject (rc_value metadata.schema) (numbers_in columns) c.projection) }
        ensures right { IfOk result (λ _. columns_right (numbers_in columns) (length (rc_value metadata.schema)) ≡ Ok tt) }
        ensures err { IfErr result (λ e. (e ≡ Memory) ⊎ (columns_right (numbers_in columns) (length (rc_value metadata.schema)) ≡ Err (e ∷ []))) }
        ensures metadata { IfOk result (λ c. c.metadata ≡ metadata) }
    {
        let projection = projection_of(alloc, &metadata.schema, columns)?;
        Ok(StreamColumns {
            metadata,
            projection,
        })
    }
}
