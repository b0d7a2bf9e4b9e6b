//! A batch's columns, and whether their dictionaries can be sent.
ghost use Rattle.std.specs.Prelude.{◌≡◌, ◌&&◌, IfOk};
ghost use Rattle.arrow_spec.specs.Kinds.{uses_in};
ghost use Rattle.arrow_types.specs.KindOf.{fields_of};
ghost use Rattle.arrow_arrays.specs.PartsOf.{forest_of};
ghost use Rattle.ipc_fields.specs.IpcFields.{ids_of, fields_with, have_shapes};
ghost use Rattle.arrow_arrays.specs.Columns.{columns_of};
ghost use Rattle.ipc_dictionaries.specs.Columns.{ChecksColumns};
ghost use Rattle.ipc_fields.specs.Representable.{all_representable};
ghost use Rattle.ipc_dictionaries.specs.Shapes.{agree};

use crate::shapes::agree;
use arrow_arrays::Array;
use arrow_spec::IpcError;
use arrow_types::Field;
use ipc_fields::IpcField;
use ipc_fields::representable::all_representable;
use ipc_fields::shapes::have_shapes;
use std::alloc::{AllocError, Global};

/// A column without a name for each array.
fn columns_of(alloc: Global, arrays: &[Array]) -> Result<Vec<Field>, AllocError>
    ensures { IfOk result (λ v. fields_of v.items ≡ columns_of (forest_of arrays.now)) }
{
    let mut columns = Vec::new(alloc);
    for array in arrays {
        let dtype = array.dtype().try_clone(alloc)?;
        columns.push(Field::new(alloc, String::new(alloc), dtype, true))?;
    }
    Ok(columns)
}

/// Whether IPC fields have the shape of columns, and the values under each id are of one kind.
fn suit(alloc: Global, fields: &[IpcField], columns: &[Field]) -> Result<bool, AllocError>
    ensures { IfOk result (λ b. b ≡ (have_shapes (fields_of columns.now) (ids_of fields.now) && agree (uses_in (fields_with (fields_of columns.now) (ids_of fields.now))))) }
{
    if !have_shapes(columns, fields) {
        return Ok(false);
    }
    agree(alloc, columns, fields)
}

/// Refuses columns whose IPC fields are not theirs, and dictionaries that cannot be sent.
pub(crate) fn check_columns(
    alloc: Global,
    fields: &[IpcField],
    arrays: &[Array],
) -> Result<(), IpcError>
    ensures { ChecksColumns result (columns_of (forest_of arrays.now)) (ids_of fields.now) }
{
    let columns = columns_of(alloc, arrays)?;
    let columns = columns.as_slice();
    if !suit(alloc, fields, columns)? {
        return Err(IpcError::SchemaMismatch);
    }
    if !all_representable(columns) {
        return Err(IpcError::NotRepresentable);
    }
    Ok(())
}
