//! The IPC fields of a stream's schema.
ghost use Rattle.std.specs.Prelude.{◌≡◌, ◌↔◌, IfOk, IsTrue};
ghost use Rattle.arrow_types.specs.Schemas.{fields_in};
ghost use Rattle.ipc_fields.specs.IpcFields.{ids_of};
ghost use Rattle.ipc_messages.specs.Fields.{AreIdsFor, IsOwn, given_ids};

use arrow_types::ArrowSchema;
use ipc_fields::IpcField;
use ipc_write::default_ipc_fields;
use std::alloc::{AllocError, Global};

/// Copies of IPC fields.
fn copies(alloc: Global, fields: &[IpcField]) -> Result<Vec<IpcField>, AllocError>
    ensures { IfOk result (λ v. ids_of v.items ≡ ids_of fields.now) }
{
    let mut copies = Vec::new(alloc);
    for field in fields {
        copies.push(field.try_clone(alloc)?)?;
    }
    Ok(copies)
}

/// The IPC fields that are given, or those whose ids count from 0 in preorder.
pub fn fields_for(
    alloc: Global,
    schema: &ArrowSchema,
    given: Option<&[IpcField]>,
) -> Result<Vec<IpcField>, AllocError>
    ensures { IfOk result (λ v. AreIdsFor (fields_in schema.now) (given_ids given.entry) (ids_of v.items)) }
{
    match given {
        Some(fields) => copies(alloc, fields),
        None => default_ipc_fields(alloc, schema),
    }
}

fn are_same(a: &[IpcField], b: &[IpcField]) -> bool
    ensures { IsTrue result ↔ (ids_of a.now ≡ ids_of b.now) }
{
    a == b
}

/// Whether IPC fields are a writer's own, where any are given.
pub(crate) fn are_own(given: Option<&[IpcField]>, own: &[IpcField]) -> bool
    ensures { IsTrue result ↔ IsOwn (given_ids given.entry) (ids_of own.now) }
{
    match given {
        Some(fields) => are_same(fields, own),
        None => true,
    }
}
