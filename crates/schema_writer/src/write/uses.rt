//! The values under the ids of a schema's dictionaries (Schema.fbs, DictionaryEncoding).
ghost use Rattle.std.specs.Prelude.{◌≡◌, [], IfOk, OnErr, Err, map};
ghost use Rattle.arrow_spec.specs.declared.error.IpcError.TheVariants.{Memory};
ghost use Rattle.arrow_spec.specs.Kinds.{uses_in};
ghost use Rattle.arrow_spec.specs.Schema.{uses_agree};
ghost use Rattle.arrow_types.specs.Schemas.{fields_in};
ghost use Rattle.ipc_fields.specs.IpcFields.{ids_of, fields_with};
ghost use Rattle.ipc_fields.specs.Uses.{use_in};
ghost use Rattle.schema_writer.specs.Serialized.{has_meaning};

use super::schema::field_at;
use arrow_spec::IpcError;
use arrow_types::ArrowSchema;
use ipc_fields::IpcField;
use ipc_fields::agree::check_uses;
use ipc_fields::uses::{Use, push_child};
use std::alloc::{AllocError, Global};

// The uses of dictionaries in a schema, in preorder.
fn uses_of(
    alloc: Global,
    schema: &ArrowSchema,
    ipc_fields: &[IpcField],
) -> Result<Vec<Use>, IpcError>
    ensures ok { IfOk result (λ v. map use_in v.items ≡ uses_in (fields_with (fields_in schema.now) (ids_of ipc_fields.now))) }
    ensures memory { OnErr result (result ≡ Err Memory) }
{
    let mut uses = Vec::new(alloc);
    for i in 0..schema.len() {
        push_child(alloc, &mut uses, field_at(schema, i), ipc_fields, i)?;
    }
    Ok(uses)
}

/// Whether the values under each id are of one kind.
pub fn agree(
    alloc: Global,
    schema: &ArrowSchema,
    ipc_fields: &[IpcField],
) -> Result<bool, AllocError>
    ensures { IfOk result (λ b. b ≡ has_meaning (uses_agree [] (uses_in (fields_with (fields_in schema.now) (ids_of ipc_fields.now))))) }
{
    let Ok(uses) = uses_of(alloc, schema, ipc_fields) else {
        return Err(AllocError);
    };
    match check_uses(alloc, uses) {
        Ok(()) => Ok(true),
        Err(IpcError::Memory) => Err(AllocError),
        Err(_) => Ok(false),
    }
}
