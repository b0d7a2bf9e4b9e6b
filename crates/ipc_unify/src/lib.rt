//! The dictionaries of a stream's record batches made one list each, as a file holds them (Arrow Columnar Format, "IPC File Format").
#![tactic(auto)]

mod batches;
mod finished;
mod over;
mod taken;
mod types;

ghost use Rattle.std.specs.Prelude.{◌≡◌, ◌⊎◌, All, IfErr, IfOk, false, map, true};
ghost use Rattle.arrow_spec.specs.declared.error.IpcError.TheVariants.{Memory, NotRepresentable};
ghost use Rattle.arrow_types.specs.Schemas.{fields_in};
ghost use Rattle.arrow_arrays.specs.Parts.{forest};
ghost use Rattle.arrow_arrays.specs.SameBatches.{holding_of};
ghost use Rattle.ipc_unify.specs.Below.{AreOver, are_of, has_large_keys, unified, united};

use crate::batches::{batches_over, know_each_single, take_batches};
use crate::finished::finish_lists;
use crate::types::values_types;
use arrow_arrays::RecordBatch;
use arrow_spec::IpcError;
use arrow_types::ArrowSchema;
use std::alloc::Global;

/// The same batches over one list a dictionary of the schema, which holds the values of all dictionaries that stand there, one after
/// another: a dictionary that begins where the list ends, or stands in it, adds only what it has beyond that. Keys are moved by
/// the dictionary's place in the list.
///
/// # Errors
///
/// `NotRepresentable` where a key that is not null would pass the type of the keys, and `Memory`.
pub fn unify(
    alloc: Global,
    schema: &ArrowSchema,
    batches: Vec<RecordBatch>,
) -> Result<Vec<RecordBatch>, IpcError>
    requires kinds { are_of (fields_in schema.now) batches.items ≡ true }
    ensures unified { IfOk result (λ v. v.items ≡ unified schema.now batches.items) }
    // Rows, cells and maps stay.
    ensures same { IfOk result (λ v. map holding_of v.items ≡ map holding_of batches.items) }
    ensures over { IfOk result (λ v. All (λ b. AreOver (united schema.now batches.items) (forest b.arrays) 0) v.items) }
    ensures fits { IfOk result (λ _. has_large_keys schema.now batches.items ≡ false) }
    ensures refused { IfErr result (λ e. (e ≡ Memory) ⊎ ((e ≡ NotRepresentable) × (has_large_keys schema.now batches.items ≡ true))) }
{
    if batches.is_empty() {
        return Ok(batches);
    }
    know_each_single(batches[0].columns());
    let types = values_types(alloc, schema)?;
    let mut lists = Vec::new(alloc);
    take_batches(alloc, batches.as_slice(), &mut lists)?;
    finish_lists(alloc, types.as_slice(), &mut lists)?;
    batches_over(alloc, batches, &mut lists)
}
