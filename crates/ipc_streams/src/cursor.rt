//! A place in a stream, behind some of its messages.
ghost use Rattle.std.specs.Prelude.{◌≡◌, ◌∷◌, ◌⊎◌, [], length, false, IfOk, IfErr, Ok, Err};
ghost use Rattle.std.specs.Rc.{rc_value};
ghost use Rattle.arrow_spec.specs.declared.error.IpcError.TheVariants.{Memory};
ghost use Rattle.arrow_spec.specs.Files.{columns_right};
ghost use Rattle.ipc_files.specs.Below.{MayProject, numbers_in, held_in, none_held};
ghost use Rattle.ipc_streams.specs.Starts.{HoldsValues, IsReadable, stream_schema};

use crate::columns::StreamColumns;
use crate::metadata::StreamMetadata;
use arrow_spec::IpcError;
use ipc_files::Dictionaries;
use std::alloc::Global;

/// A reader of a stream without its feed: the columns, the dictionaries of the messages that were taken, whether there is
/// nothing left, and memory that is used again.
pub(crate) struct StreamCursor {
    pub(crate) columns: StreamColumns,
    pub(crate) dictionaries: Dictionaries,
    pub(crate) is_finished: bool,
    pub(crate) scratch: Vec<u8>,
    ghost values: { ∥ HoldsValues (stream_schema columns.metadata) (held_in dictionaries) ∥₁ },
}

impl Drop for StreamCursor {
    fn drop(self) {
        let StreamCursor {
            columns,
            dictionaries,
            is_finished: _,
            scratch,
        } = self;
        drop(columns);
        drop(dictionaries);
        drop(scratch);
    }
}

impl StreamCursor {
    /// A cursor behind the schema message.
    pub(crate) fn new(
        alloc: Global,
        metadata: StreamMetadata,
        projection: Option<Vec<usize>>,
    ) -> Result<StreamCursor, IpcError>
        requires readable { IsReadable metadata }
        ensures projected { IfOk result (λ c. MayProject (rc_value metadata.schema) (numbers_in projection) c.columns.projection) }
        ensures right { IfOk result (λ _. columns_right (numbers_in projection) (length (rc_value metadata.schema)) ≡ Ok tt) }
        ensures err { IfErr result (λ e. (e ≡ Memory) ⊎ (columns_right (numbers_in projection) (length (rc_value metadata.schema)) ≡ Err (e ∷ []))) }
        ensures metadata { IfOk result (λ c. c.columns.metadata ≡ metadata) }
        ensures dictionaries { IfOk result (λ c. held_in c.dictionaries ≡ none_held) }
        ensures is_finished { IfOk result (λ c. c.is_finished ≡ false) }
    {
        let columns = StreamColumns::new(alloc, metadata, projection)?;
        Ok(StreamCursor {
            columns,
            dictionaries: Dictionaries::new(alloc),
            is_finished: false,
            scratch: Vec::new(alloc),
        })
    }
}
