//! Rows that are kept of an array.
ghost use Rattle.std.specs.Prelude.{◌≡◌, length, IfOk};
ghost use Rattle.arrow_arrays.specs.Parts.{rows_in, cells_in, kind_in};
ghost use Rattle.arrow_arrays.specs.PartsOf.{parts_of};
ghost use Rattle.array_filter.specs.Rows.{Rise, marked, marked_from, taken};
ghost use Rattle.array_filter.specs.Taken.{rows_taken};

use crate::runs::{runs_of_marks, runs_of_rows};
use crate::trees::take_runs;
use arrow_arrays::Array;
use std::alloc::{AllocError, Global};

/// The rows of an array that are marked, in order, null rows with what they hold (Arrow Columnar Format, "Physical Memory Layout").
/// There is a mark for each row. The buffers of views, the children of dense unions and the parts of dictionaries are shared with the
/// array, and so is each buffer all of whose items are kept; all else is copied, rows that stand one behind another together. It takes
/// the memory of the rows that are kept, and for each run of them two numbers at each level of the array's tree. The call goes as deep as
/// that tree.
pub fn filter(alloc: Global, array: &Array, marks: &[bool]) -> Result<Array, AllocError>
    requires { length marks.now ≡ rows_in (parts_of array.now) }
    ensures parts { IfOk result (λ a. parts_of a ≡ rows_taken (marked_from 0 marks.now) (parts_of array.now)) }
    ensures cells { IfOk result (λ a. cells_in (parts_of a) ≡ marked marks.now (cells_in (parts_of array.now))) }
    ensures kind { IfOk result (λ a. kind_in (parts_of a) ≡ kind_in (parts_of array.now)) }
{
    let _held = array.len();
    let runs = runs_of_marks(alloc, marks)?;
    take_runs(alloc, array, runs.as_slice())
}

/// The rows of these numbers, which are counted from 0 and rise, each as `filter` keeps it.
pub fn take(alloc: Global, array: &Array, rows: &[usize]) -> Result<Array, AllocError>
    requires { Rise 0 rows.now (rows_in (parts_of array.now)) }
    ensures parts { IfOk result (λ a. parts_of a ≡ rows_taken rows.now (parts_of array.now)) }
    ensures cells { IfOk result (λ a. cells_in (parts_of a) ≡ taken rows.now (cells_in (parts_of array.now))) }
    ensures kind { IfOk result (λ a. kind_in (parts_of a) ≡ kind_in (parts_of array.now)) }
{
    let runs = runs_of_rows(alloc, rows, array.len())?;
    take_runs(alloc, array, runs.as_slice())
}
