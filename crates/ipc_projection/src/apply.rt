//! A batch's columns in the order asked.
ghost use Rattle.std.specs.Prelude.{◌≡◌, length, IfOk, IfErr};
ghost use Rattle.arrow_spec.specs.declared.error.IpcError.TheVariants.{Memory};
ghost use Rattle.ipc_projection.specs.Places.{IsPermutation};
ghost use Rattle.ipc_projection.specs.Projections.{IsReordered};

use crate::fields::schema_at;
use crate::items::items_at;
use crate::places::sources;
use arrow_arrays::RecordBatch;
use arrow_spec::IpcError;
use std::alloc::Global;
use std::collections::BTreeMap;

/// The batch with each column, and its field, where the map leads it: one place of the batch to each. Its pairs stay. The columns are moved; only want of memory is refused.
pub fn apply_projection(
    alloc: Global,
    batch: RecordBatch,
    map: &BTreeMap<usize, usize>,
) -> Result<RecordBatch, IpcError>
    requires permutes { IsPermutation map.now (length batch.schema) }
    ensures reordered { IfOk result (λ b. IsReordered map.now batch b) }
    ensures memory { IfErr result (λ e. e ≡ Memory) }
{
    let height = batch.len();
    let schema = batch.schema();
    let places = sources(alloc, map, schema.len())?;
    let schema = schema_at(alloc, schema, places.as_slice())?;
    let parts = batch.into_arrays_and_metadata();
    let arrays = items_at(alloc, parts.0, places.as_slice())?;
    let ordered = RecordBatch::new(height, schema, arrays);
    Ok(ordered.with_optional_metadata(parts.1))
}
