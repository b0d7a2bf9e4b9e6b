//! The lines of a schema's fields and of its pairs.
ghost use Rattle.std.specs.Prelude.{◌≡◌, ◌++◌, ◌<◌, Some, OnOk, length, map, slice_get};
ghost use Rattle.arrow_spec.specs.SchemaText.{pair_lines, field_lines};
ghost use Rattle.arrow_types.specs.KindOf.{child_of};
ghost use Rattle.arrow_types.specs.Schemas.{fields_in};
ghost use Rattle.ipc_fields.specs.IpcFields.{ids_of, fields_with, metadata_in};

use crate::lines::push_field;
use crate::pairs::push_pairs;
use arrow_types::{ArrowSchema, Field, Metadata};
use ipc_fields::IpcField;
use std::alloc::{AllocError, Global};

fn field_at(schema: &ArrowSchema, index: usize) -> &Field
    requires { index < length schema.now }
    ensures { slice_get (map (λ p. p.1) schema.now) index ≡ Some (child_of result.now) }
{
    match schema.get_at_index(index) {
        Some((_, field)) => field,
        None => unreachable!(),
    }
}

/// The lines of a schema's fields, with the ids of their IPC fields.
pub(crate) fn push_schema_fields(
    alloc: Global,
    out: &mut Vec<u8>,
    schema: &ArrowSchema,
    ipc_fields: &[IpcField],
) -> Result<(), AllocError>
    ensures { OnOk result (out.new.items ≡ out.old.items ++ field_lines 0 (fields_with (fields_in schema.now) (ids_of ipc_fields.now))) }
{
    for i in 0..schema.len() {
        push_field(alloc, out, 0, field_at(schema, i), ipc_fields, i)?;
    }
    Ok(())
}

/// The lines of a schema's pairs.
pub(crate) fn push_schema_pairs(
    alloc: Global,
    out: &mut Vec<u8>,
    metadata: Option<&Metadata>,
) -> Result<(), AllocError>
    ensures { OnOk result (out.new.items ≡ out.old.items ++ pair_lines 0 (metadata_in metadata.entry)) }
{
    match metadata {
        None => Ok(()),
        Some(metadata) => push_pairs(alloc, out, 0, metadata),
    }
}
