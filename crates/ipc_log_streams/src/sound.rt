//! What every record batch keeps.
ghost use Rattle.std.specs.Prelude.{◌≡◌, None};
ghost use Rattle.arrow_arrays.specs.Parts.{fault_each, forest};

use arrow_arrays::RecordBatch;

/// The columns of a batch have no fault.
pub(crate) fn is_sound(batch: &RecordBatch)
    ensures { fault_each (forest batch.now.arrays) ≡ None }
{
    let _ = batch.height();
}
