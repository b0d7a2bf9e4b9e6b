//! The marked rows of record batches.
ghost use Rattle.std.specs.Prelude.{◌≡◌, length, map, true, IfOk};
ghost use Rattle.arrow_arrays.specs.Batches.{have_rows};
ghost use Rattle.arrow_arrays.specs.Parts.{kind_in};
ghost use Rattle.arrow_arrays.specs.PartsOf.{all_parts_of};
ghost use Rattle.array_filter.specs.Rows.{marked_from};
ghost use Rattle.array_filter.specs.Taken.{rows_taken};
ghost use Rattle.laws_scan.specs.Filtered.{any_marked, marked_count};
ghost use Rattle.laws_scan.specs.Reads.{KeepsRows};

use array_filter::{runs_of_marks, take_runs};
use arrow_arrays::{Array, RecordBatch};
use std::alloc::{AllocError, Global};

/// Whether a row is marked.
pub(crate) fn any_marked(marks: &[bool]) -> bool
    ensures { result ≡ any_marked marks.now }
{
    for i in 0..marks.len() {
        if marks[i] {
            return true;
        }
    }
    false
}

/// How many rows are marked.
fn marked_count(marks: &[bool]) -> usize
    ensures { result ≡ marked_count marks.now }
{
    let mut count = 0;
    for i in 0..marks.len() {
        if marks[i] {
            count += 1;
        }
    }
    count
}

/// The marked rows of some arrays, whose runs are made once.
fn keep_each(alloc: Global, arrays: &[Array], marks: &[bool]) -> Result<Vec<Array>, AllocError>
    requires { have_rows (length marks.now) (all_parts_of arrays.now) ≡ true }
    ensures { IfOk result (λ v. all_parts_of v.items ≡ map (rows_taken (marked_from 0 marks.now)) (all_parts_of arrays.now)) }
{
    let runs = runs_of_marks(alloc, marks)?;
    let mut kept = Vec::new(alloc);
    for array in arrays {
        kept.push(take_runs(alloc, array, runs.as_slice())?)?;
    }
    Ok(kept)
}

/// The marked rows of a batch, with its pairs.
pub(crate) fn keep_rows(
    alloc: Global,
    batch: RecordBatch,
    marks: &[bool],
) -> Result<RecordBatch, AllocError>
    requires { length marks.now ≡ batch.height }
    ensures keeps { IfOk result (λ y. KeepsRows marks.now batch y) }
    ensures schema { IfOk result (λ y. y.schema ≡ batch.schema) }
    ensures kinds { IfOk result (λ y. map kind_in y.arrays ≡ map kind_in batch.arrays) }
{
    let _height = batch.height();
    let _width = batch.width();
    let schema = batch.schema().clone()?;
    let (arrays, pairs) = batch.into_arrays_and_metadata();
    let kept = keep_each(alloc, arrays.as_slice(), marks)?;
    Ok(RecordBatch::new(marked_count(marks), schema, kept).with_optional_metadata(pairs))
}
