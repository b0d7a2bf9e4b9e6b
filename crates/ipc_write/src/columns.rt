//! Columns to nodes, buffers and view counts (Arrow Columnar Format, "RecordBatch message").
ghost use Rattle.std.specs.Prelude.{◌≡◌, ◌^◌, ◌<◌, true, IfOk};
ghost use Rattle.std.specs.Option.{option_map};
ghost use Rattle.arrow_spec.specs.Flat.{little};
ghost use Rattle.arrow_arrays.specs.Batches.{have_rows};
ghost use Rattle.arrow_arrays.specs.Parts.{rows_in};
ghost use Rattle.arrow_arrays.specs.PartsOf.{parts_of, all_parts_of};
ghost use Rattle.ipc_write_arrays.specs.Outputs.{written_behind};
ghost use Rattle.ipc_write_arrays.specs.OutputsOf.{outputs_of};
ghost use Rattle.ipc_write.specs.Compaction.{top};
ghost use Rattle.ipc_write.specs.Laying.{ColumnFits};
ghost use Rattle.ipc_write.specs.Encoding.{all_outputs, AllMean, IsTop, TopMeans};

use crate::compaction::compact;
use arrow_arrays::Array;
use ipc_write_arrays::{Outputs, plan};
use std::alloc::{AllocError, Global};

/// The array that stands for a top column, where it is another.
fn top_array(alloc: Global, array: &Array) -> Result<Option<Array>, AllocError>
    ensures top { IfOk result (λ o. IsTop (parts_of array.now) (option_map parts_of o)) }
    ensures fits { IfOk result (λ _. ColumnFits (parts_of array.now)) }
{
    match array {
        Array::BinaryView(views) => match compact(alloc, views)? {
            Some(compacted) => {
                let _bytes = compacted.views().len();
                Ok(Some(Array::BinaryView(compacted)))
            }
            None => Ok(None),
        },
        Array::Utf8View(views) => match compact(alloc, views)? {
            Some(compacted) => {
                let _bytes = compacted.views().len();
                Ok(Some(Array::Utf8View(compacted)))
            }
            None => Ok(None),
        },
        _ => Ok(None),
    }
}

/// Adds a top column.
fn add_column(alloc: Global, array: &Array, columns: &mut Outputs) -> Result<(), AllocError>
    requires { rows_in (parts_of array.now) < 2 ^ 63 }
    ensures adds { IfOk result (λ _. outputs_of columns.new ≡ written_behind little (top (parts_of array.now)) (outputs_of columns.old)) }
    ensures means { IfOk result (λ _. TopMeans (rows_in (parts_of array.now)) (parts_of array.now)) }
{
    let _rows = array.len();
    let Some(compacted) = top_array(alloc, array)? else {
        return plan(array, columns, true);
    };
    let added = plan(&compacted, columns, true);
    drop(compacted);
    added
}

/// The top columns of a batch of so many rows.
pub(crate) fn plan_columns(
    alloc: Global,
    arrays: &[Array],
    height: usize,
) -> Result<Outputs, AllocError>
    requires few { height < 2 ^ 63 }
    requires heights { have_rows height (all_parts_of arrays.now) ≡ true }
    ensures planned { IfOk result (λ c. outputs_of c ≡ all_outputs (all_parts_of arrays.now)) }
    ensures means { IfOk result (λ _. AllMean height (all_parts_of arrays.now)) }
{
    let mut columns = Outputs::new(alloc);
    for array in arrays {
        add_column(alloc, array, &mut columns)?;
    }
    Ok(columns)
}
