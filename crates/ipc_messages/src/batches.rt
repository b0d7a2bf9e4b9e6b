//! The batches that a writer takes.
ghost use Rattle.std.specs.Prelude.{◌↔◌, IsTrue};
ghost use Rattle.ipc_fields.specs.IpcFields.{ids_of};
ghost use Rattle.ipc_messages.specs.Batches.{Suits};
ghost use Rattle.ipc_messages.specs.Fields.{given_ids};

use crate::fields::are_own;
use crate::types::are_of_fields;
use arrow_arrays::RecordBatch;
use arrow_types::ArrowSchema;
use ipc_fields::IpcField;

/// Whether a batch is one of a schema's: its columns are of the fields' types, and the IPC fields that are given are the writer's
/// own.
pub fn is_of_schema(
    schema: &ArrowSchema,
    own: &[IpcField],
    batch: &RecordBatch,
    given: Option<&[IpcField]>,
) -> bool
    ensures { IsTrue result ↔ Suits schema.now (ids_of own.now) batch.now (given_ids given.entry) }
{
    if !are_of_fields(schema, batch.arrays()) {
        return false;
    }
    are_own(given, own)
}
