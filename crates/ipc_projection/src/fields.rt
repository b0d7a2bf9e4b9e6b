//! The fields of columns that are asked for.
ghost use Rattle.std.specs.Prelude.{◌≡◌, length, IfOk, IfErr};
ghost use Rattle.std.specs.Rc.{rc_value};
ghost use Rattle.std.specs.List.{IsDistinct};
ghost use Rattle.std.specs.Str.{bytes_eq};
ghost use Rattle.arrow_types.specs.Schemas.{keys_in};
ghost use Rattle.arrow_spec.specs.declared.error.IpcError.TheVariants.{Memory};
ghost use Rattle.ipc_projection.specs.Places.{ArePlaces, StandAt};

use arrow_spec::IpcError;
use arrow_types::{ArrowSchema, ArrowSchemaRef};
use std::alloc::Global;
use std::rc::Rc;

/// The fields at places of a schema, each place once, in the order of the places.
pub(crate) fn schema_at(
    alloc: Global,
    schema: &ArrowSchema,
    places: &[usize],
) -> Result<ArrowSchemaRef, IpcError>
    requires keys { IsDistinct bytes_eq (keys_in schema.now) }
    requires places { ArePlaces places.now (length schema.now) }
    ensures fields { IfOk result (λ s. StandAt schema.now places.now (rc_value s)) }
    ensures memory { IfErr result (λ e. e ≡ Memory) }
{
    let fields = fields_at(alloc, schema, places)?;
    Ok(Rc::new(alloc, fields)?)
}

fn fields_at(alloc: Global, schema: &ArrowSchema, places: &[usize]) -> Result<ArrowSchema, IpcError>
    requires keys { IsDistinct bytes_eq (keys_in schema.now) }
    requires places { ArePlaces places.now (length schema.now) }
    ensures fields { IfOk result (λ s. StandAt schema.now places.now s) }
    ensures memory { IfErr result (λ e. e ≡ Memory) }
{
    let mut fields = ArrowSchema::new(alloc);
    for i in 0..places.len() {
        let Some((key, field)) = schema.get_at_index(places[i]) else {
            unreachable!()
        };
        let key = key.clone()?;
        let field = field.try_clone(alloc)?;
        drop(fields.insert(key, field)?);
    }
    Ok(fields)
}
