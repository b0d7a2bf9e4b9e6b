//! Record batches over lists of their dictionaries' values.
ghost use Rattle.std.specs.Prelude.{◌≡◌, [], ◌∷◌, map, IfErr, IfOk, None, false, true};
ghost use Rattle.arrow_spec.specs.declared.error.IpcError.TheVariants.{Memory};
ghost use Rattle.arrow_arrays.specs.Parts.{fault_each, forest};
ghost use Rattle.arrow_arrays.specs.PartsOf.{forest_of, parts_of};
ghost use Rattle.laws_unify.specs.Over.{are_large, over_each};
ghost use Rattle.laws_unify.specs.Single.{AreSingle, IsSingle};
ghost use Rattle.laws_unify.specs.Stands.{AreSound, StandsInEach};
ghost use Rattle.laws_unify.specs.United.{batch_over, batches_large, taken_batches};
ghost use Rattle.ipc_unify.specs.Steps.{AreKept, IsRefused, MayGoOver, Same, lists_of};

use crate::over::arrays_over;
use crate::taken::take_arrays;
use arrow_arrays::{Array, RecordBatch};
use arrow_spec::IpcError;
use dictionary_places::DictionaryList;
use std::alloc::Global;

/// Each list of one size has one child, in an array.
#[cycle(single)]
fn know_single(array: &Array)
    ensures { IsSingle (parts_of array.now) }
{
    match array {
        Array::List(list) => know_single(list.values()),
        Array::FixedSizeList(list) => know_single(list.values()),
        Array::Map(map) => know_single(map.field()),
        Array::Struct(columns) => know_each_single(columns.values()),
        Array::Union(union) => know_each_single(union.fields()),
        Array::Dictionary(dictionary) => know_each_single(dictionary.parts()),
        _ => (),
    }
}

/// And in several.
#[cycle(single)]
pub(crate) fn know_each_single(arrays: &[Array])
    ensures { AreSingle (forest_of arrays.now) }
{
    for array in arrays {
        know_single(array);
    }
}

/// Takes the dictionaries of batches, in order.
pub(crate) fn take_batches(
    alloc: Global,
    batches: &[RecordBatch],
    lists: &mut Vec<DictionaryList>,
) -> Result<(), IpcError>
    requires { AreKept lists.old.items }
    ensures lists { IfOk result (λ _. lists_of lists.new.items ≡ taken_batches batches.now (lists_of lists.old.items)) }
    ensures kept { IfOk result (λ _. AreKept lists.new.items) }
    ensures sound { IfOk result (λ _. AreSound batches.now) }
    ensures memory { IfErr result (λ e. e ≡ Memory) }
{
    for batch in batches {
        let _rows = batch.height();
        take_arrays(alloc, batch.columns(), 0, lists)?;
    }
    Ok(())
}

/// A batch over lists.
fn over_lists(
    alloc: Global,
    batch: RecordBatch,
    lists: &mut Vec<DictionaryList>,
) -> Result<RecordBatch, IpcError>
    requires kept { AreKept lists.old.items }
    requires stands { StandsInEach (lists_of lists.old.items) (forest batch.arrays) 0 }
    requires sound { fault_each (over_each (lists_of lists.old.items) (forest batch.arrays) 0) ≡ None }
    ensures batch { IfOk result (λ b. b ≡ batch_over (lists_of lists.old.items) batch) }
    ensures fits { IfOk result (λ _. are_large (lists_of lists.old.items) (forest batch.arrays) 0 ≡ false) }
    ensures same { IfOk result (λ _. Same lists.old.items lists.new.items) }
    ensures refused { IfErr result (IsRefused (are_large (lists_of lists.old.items) (forest batch.arrays) 0)) }
{
    let arrays = arrays_over(alloc, batch.columns(), 0, lists)?;
    let height = batch.len();
    let schema = batch.schema().clone()?;
    let (_, custom_metadata) = batch.into_arrays_and_metadata();
    Ok(RecordBatch::new(height, schema, arrays).with_optional_metadata(custom_metadata))
}

/// Batches over lists, in order.
pub(crate) fn batches_over(
    alloc: Global,
    batches: Vec<RecordBatch>,
    lists: &mut Vec<DictionaryList>,
) -> Result<Vec<RecordBatch>, IpcError>
    requires kept { AreKept lists.old.items }
    requires may { MayGoOver (lists_of lists.old.items) batches.items }
    ensures batches { IfOk result (λ v. v.items ≡ map (batch_over (lists_of lists.old.items)) batches.items) }
    ensures fits { IfOk result (λ _. batches_large (lists_of lists.old.items) batches.items ≡ false) }
    ensures refused { IfErr result (IsRefused (batches_large (lists_of lists.old.items) batches.items)) }
{
    let mut over = Vec::new(alloc);
    for batch in batches {
        over.push(over_lists(alloc, batch, lists)?)?;
    }
    Ok(over)
}
