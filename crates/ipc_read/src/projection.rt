//! Columns that are asked for by their numbers.
ghost use Rattle.std.specs.Prelude.{◌≡◌, true, IfOk, IfErr};
ghost use Rattle.std.specs.Rc.{rc_value};
ghost use Rattle.arrow_spec.specs.Columns.{is_chosen};
ghost use Rattle.arrow_spec.specs.declared.error.IpcError.TheVariants.{Memory};
ghost use Rattle.ipc_read_laws.specs.Projection.{columns_of, are_rising, chosen};

use crate::tables::field_at;
use arrow_spec::IpcError;
use arrow_types::{ArrowSchema, ArrowSchemaRef};
use std::alloc::Global;
use std::rc::Rc;

/// Whether a column is asked for. The numbers rise; with none all are.
pub(crate) fn is_chosen(projection: Option<&[usize]>, column: usize) -> bool
    requires rising { are_rising (columns_of projection) ≡ true }
    ensures { result ≡ is_chosen (columns_of projection.entry) column }
{
    match projection {
        None => true,
        Some(columns) => columns.binary_search(&column).is_ok(),
    }
}

/// The schema of the columns that are asked for, in their order.
pub(crate) fn chosen_schema(
    alloc: Global,
    schema: &ArrowSchemaRef,
    projection: Option<&[usize]>,
) -> Result<ArrowSchemaRef, IpcError>
    requires rising { are_rising (columns_of projection) ≡ true }
    ensures schema { IfOk result (λ s. rc_value s ≡ chosen (columns_of projection.entry) 0 (rc_value schema.now)) }
    ensures memory { IfErr result (λ e. e ≡ Memory) }
{
    match projection {
        None => Ok(schema.clone()?),
        Some(_) => {
            let columns = chosen_fields(alloc, schema, projection)?;
            Ok(Rc::new(alloc, columns)?)
        }
    }
}

/// A copy of the columns that are asked for.
fn chosen_fields(
    alloc: Global,
    schema: &ArrowSchema,
    projection: Option<&[usize]>,
) -> Result<ArrowSchema, IpcError>
    requires rising { are_rising (columns_of projection) ≡ true }
    ensures schema { IfOk result (λ s. s ≡ chosen (columns_of projection.entry) 0 schema.now) }
    ensures memory { IfErr result (λ e. e ≡ Memory) }
{
    let mut columns = ArrowSchema::new(alloc);
    for i in 0..schema.len() {
        if !is_chosen(projection, i) {
            continue;
        }
        let Some((key, field)) = schema.get_at_index(i) else {
            unreachable!()
        };
        let key = key.clone()?;
        let field = field.try_clone(alloc)?;
        drop(columns.insert(key, field)?);
    }
    Ok(columns)
}
