//! A stream that was read to its end (Arrow Columnar Format, "IPC Streaming Format").
ghost use Rattle.std.specs.Prelude.{◌≡◌, true};
ghost use Rattle.std.specs.Rc.{rc_value};
ghost use Rattle.arrow_types.specs.Schemas.{fields_in};
ghost use Rattle.ipc_append.specs.Columns.{are_of};

use arrow_arrays::RecordBatch;
use ipc_streams::StreamMetadata;

/// A stream that was read to its end. The columns of its batches are of the kinds of its fields.
#[derive(Drop)]
pub struct WholeStream {
    /// What the schema message says.
    pub metadata: StreamMetadata,
    /// The record batches, in their order.
    pub batches: Vec<RecordBatch>,
    ghost kinds: { are_of (fields_in (rc_value metadata.schema)) batches.items ≡ true },
}
