//! A generated batch.
ghost use Rattle.std.specs.Prelude.{◌≡◌, ◌≤◌, length, IfOk, IfErr};
ghost use Rattle.std.specs.Rc.{rc_value};
ghost use Rattle.arrow_spec.specs.declared.error.IpcError.TheVariants.{Memory};
ghost use Rattle.arrow_arrays.specs.PartsOf.{parts_of};
ghost use Rattle.ipc_generate.specs.Arrays.{batch_of, dictionary_values, generated_schema};

use crate::columns::{digits, keys, lists, numbers};
use arrow_arrays::{Array, RecordBatch};
use arrow_spec::IpcError;
use arrow_types::ArrowSchemaRef;
use std::alloc::Global;

/// The batch whose rows have these states.
pub(crate) fn batch_of(
    alloc: Global,
    schema: &ArrowSchemaRef,
    values: &Array,
    states: &[u64],
) -> Result<RecordBatch, IpcError>
    requires schema { rc_value schema.now ≡ generated_schema }
    requires values { parts_of values.now ≡ dictionary_values }
    requires few { length states.now ≤ 65536 }
    ensures batch { IfOk result (λ b. b ≡ batch_of states.now) }
    ensures err { IfErr result (λ e. e ≡ Memory) }
{
    let n = numbers(alloc, states)?;
    let t = digits(alloc, states)?;
    let d = keys(alloc, states, values.try_clone(alloc)?)?;
    let p = lists(alloc, states)?;
    let columns = vec![in alloc; n, t, d, p]?;
    Ok(RecordBatch::new(states.len(), schema.clone()?, columns))
}
