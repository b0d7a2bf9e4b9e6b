//! Whether the values under each id are of one kind.
ghost use Rattle.std.specs.Prelude.{◌≡◌, IfOk};
ghost use Rattle.arrow_spec.specs.Kinds.{uses_in};
ghost use Rattle.arrow_types.specs.KindOf.{fields_of};
ghost use Rattle.ipc_fields.specs.IpcFields.{ids_of, fields_with};
ghost use Rattle.ipc_dictionaries.specs.Shapes.{agree};

use arrow_spec::IpcError;
use arrow_types::Field;
use ipc_fields::IpcField;
use ipc_fields::agree::check_uses;
use ipc_fields::uses::push_children;
use std::alloc::{AllocError, Global};

/// Whether the values under each id are of one kind.
pub(crate) fn agree(
    alloc: Global,
    columns: &[Field],
    fields: &[IpcField],
) -> Result<bool, AllocError>
    ensures { IfOk result (λ b. b ≡ agree (uses_in (fields_with (fields_of columns.now) (ids_of fields.now)))) }
{
    let mut uses = Vec::new(alloc);
    if push_children(alloc, &mut uses, columns, fields).is_err() {
        return Err(AllocError);
    }
    match check_uses(alloc, uses) {
        Ok(()) => Ok(true),
        Err(IpcError::Memory) => Err(AllocError),
        Err(_) => Ok(false),
    }
}
