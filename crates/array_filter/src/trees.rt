//! Rows of arrays of any kind (Arrow Columnar Format, "Physical Memory Layout").
ghost use Rattle.std.specs.Prelude.{◌≡◌, ◌*◌, length, true, None, IfOk};
ghost use Rattle.std.specs.Option.{option_map};
ghost use Rattle.arrow_spec.specs.Kinds.{small};
ghost use Rattle.arrow_types.specs.KindOf.{kind_of};
ghost use Rattle.arrow_buffers.specs.Variable.{are_offsets, variable_rows};
ghost use Rattle.arrow_arrays.specs.Heads.{listed, mapped, sized, structured, tagged, indexed, are_all, list_size, tagged_rows};
ghost use Rattle.arrow_arrays.specs.OffsetsOf.{offsets_in, width_in};
ghost use Rattle.arrow_arrays.specs.Parts.{fault_in, nested, rows_in, rows_each};
ghost use Rattle.arrow_arrays.specs.PartsOf.{parts_of, forest_of, only};
ghost use Rattle.array_filter.specs.Rows.{taken};
ghost use Rattle.array_filter.specs.Runs.{Climb, rows_in_runs};
ghost use Rattle.array_filter.specs.Offsets.{items_taken, offsets_taken, sized_items_taken};
ghost use Rattle.array_filter.specs.Taken.{each_taken, rows_taken, tagged_left, these_rows};

use crate::bits::take_validity;
use crate::bytes::take_items;
use crate::keys::take_keys;
use crate::leaves::take_leaf;
use crate::offsets::take_offsets;
use crate::runs::{Run, row_count};
use arrow_arrays::{
    Array, DictionaryArray, FixedSizeListArray, ListArray, ListOffsets, MapArray, StructArray,
    UnionArray, clone_each, list_of,
};
use arrow_buffers::{ArrayError, Bitmap, Buffer};
use arrow_types::ArrowDataType;
use std::alloc::{AllocError, Global};

/// The rows of runs, each as `filter` keeps it. Runs that were made once of marks (`runs_of_marks`) serve each array of as many rows.
#[cycle(take)]
pub fn take_runs(alloc: Global, array: &Array, runs: &[Run]) -> Result<Array, AllocError>
    requires { Climb 0 runs.now (rows_in (parts_of array.now)) }
    ensures { IfOk result (λ a. parts_of a ≡ rows_taken (rows_in_runs runs.now) (parts_of array.now)) }
{
    match array {
        Array::List(lists) => take_list(alloc, lists, runs),
        Array::Map(maps) => take_map(alloc, maps, runs),
        Array::FixedSizeList(lists) => take_sized(alloc, lists, runs),
        Array::Struct(columns) => take_struct(alloc, columns, runs),
        Array::Union(union) => take_union(alloc, union, runs),
        Array::Dictionary(dictionary) => take_dictionary(alloc, dictionary, runs),
        leaf => take_leaf(alloc, leaf, runs),
    }
}

/// The offsets of lists, and the runs of the items between them.
fn take_list_offsets(
    alloc: Global,
    offsets: &ListOffsets,
    limit: usize,
    runs: &[Run],
) -> Result<(ListOffsets, Vec<Run>), AllocError>
    requires rise { are_offsets (offsets_in offsets.now) limit ≡ true }
    requires climb { Climb 0 runs.now (variable_rows (offsets_in offsets.now)) }
    ensures offsets { IfOk result (λ r. offsets_in r.0 ≡ offsets_taken (rows_in_runs runs.now) (offsets_in offsets.now)) }
    ensures width { IfOk result (λ r. width_in r.0 ≡ width_in offsets.now) }
    ensures items { IfOk result (λ r. rows_in_runs r.1.items ≡ items_taken (rows_in_runs runs.now) (offsets_in offsets.now)) }
    ensures climb { IfOk result (λ r. Climb 0 r.1.items limit) }
{
    match offsets {
        ListOffsets::Small(places) => match take_offsets(alloc, places, limit, runs) {
            Ok((taken, items)) => Ok((ListOffsets::Small(taken), items)),
            Err(error) => Err(error),
        },
        ListOffsets::Large(places) => match take_offsets(alloc, places, limit, runs) {
            Ok((taken, items)) => Ok((ListOffsets::Large(taken), items)),
            Err(error) => Err(error),
        },
    }
}

/// Rows of lists.
#[cycle(take)]
fn take_list(alloc: Global, lists: &ListArray, runs: &[Run]) -> Result<Array, AllocError>
    requires { Climb 0 runs.now (variable_rows lists.now.head.offsets) }
    ensures { IfOk result (λ a. parts_of a ≡ rows_taken (rows_in_runs runs.now) (nested (listed lists.now.head) lists.now.children)) }
{
    let held = lists.len();
    let child = lists.values();
    let limit = child.len();
    let (offsets, items) = take_list_offsets(alloc, lists.offsets(), limit, runs)?;
    let validity = take_validity(alloc, lists.validity(), held, runs)?;
    let dtype = lists.dtype().try_clone(alloc)?;
    let values = take_runs(alloc, child, items.as_slice())?;
    Ok(Array::List(list_of(alloc, dtype, offsets, values, validity)?))
}

/// The offsets of maps, and the runs of the entries between them.
fn take_small_offsets(
    alloc: Global,
    offsets: &Buffer<i32>,
    limit: usize,
    runs: &[Run],
) -> Result<(Buffer<i32>, Vec<Run>), AllocError>
    requires rise { are_offsets offsets.now limit ≡ true }
    requires climb { Climb 0 runs.now (variable_rows offsets.now) }
    ensures offsets { IfOk result (λ r. r.0 ≡ offsets_taken (rows_in_runs runs.now) offsets.now) }
    ensures items { IfOk result (λ r. rows_in_runs r.1.items ≡ items_taken (rows_in_runs runs.now) offsets.now) }
    ensures climb { IfOk result (λ r. Climb 0 r.1.items limit) }
{
    let (taken, items) = take_offsets(alloc, offsets, limit, runs)?;
    Ok((taken, items))
}

/// The array of maps of parts that are known to be one.
fn map_over(
    alloc: Global,
    dtype: ArrowDataType,
    offsets: Buffer<i32>,
    entries: Array,
    validity: Option<Bitmap>,
) -> Result<Array, AllocError>
    requires { fault_in (nested (mapped (record { kind = kind_of dtype; width = small; offsets = offsets; validity = validity })) (only entries)) ≡ None }
    ensures { IfOk result (λ a. parts_of a ≡ nested (mapped (record { kind = kind_of dtype; width = small; offsets = offsets; validity = validity })) (only entries)) }
{
    match MapArray::try_new(alloc, dtype, offsets, entries, validity) {
        Ok(array) => Ok(Array::Map(array)),
        Err(ArrayError::Memory) => Err(AllocError),
        Err(_) => unreachable!(),
    }
}

/// Rows of maps, which are lists of entries.
#[cycle(take)]
fn take_map(alloc: Global, maps: &MapArray, runs: &[Run]) -> Result<Array, AllocError>
    requires { Climb 0 runs.now (variable_rows maps.now.head.offsets) }
    ensures { IfOk result (λ a. parts_of a ≡ rows_taken (rows_in_runs runs.now) (nested (mapped maps.now.head) maps.now.children)) }
{
    let held = maps.len();
    let child = maps.field();
    let limit = child.len();
    let (offsets, items) = take_small_offsets(alloc, maps.offsets(), limit, runs)?;
    let validity = take_validity(alloc, maps.validity(), held, runs)?;
    let dtype = maps.dtype().try_clone(alloc)?;
    let entries = take_runs(alloc, child, items.as_slice())?;
    map_over(alloc, dtype, offsets, entries, validity)
}

/// The runs of the items of lists of one size.
fn sized_items(
    alloc: Global,
    runs: &[Run],
    size: usize,
    held: usize,
    items: usize,
) -> Result<Vec<Run>, AllocError>
    requires climb { Climb 0 runs.now held }
    requires whole { items ≡ size * held }
    ensures items { IfOk result (λ v. rows_in_runs v.items ≡ sized_items_taken (rows_in_runs runs.now) size) }
    ensures climb { IfOk result (λ v. Climb 0 v.items items) }
{
    let mut spans = Vec::new(alloc);
    for run in runs {
        spans.push(Run {
            from: size * run.from,
            count: size * run.count,
        })?;
    }
    Ok(spans)
}

/// The array of lists of one size of parts that are known to be one.
fn sized_over(
    alloc: Global,
    dtype: ArrowDataType,
    count: usize,
    values: Array,
    validity: Option<Bitmap>,
) -> Result<Array, AllocError>
    requires { fault_in (nested (sized (record { kind = kind_of dtype; rows = count; validity = validity })) (only values)) ≡ None }
    ensures { IfOk result (λ a. parts_of a ≡ nested (sized (record { kind = kind_of dtype; rows = count; validity = validity })) (only values)) }
{
    match FixedSizeListArray::try_new(alloc, dtype, count, values, validity) {
        Ok(array) => Ok(Array::FixedSizeList(array)),
        Err(ArrayError::Memory) => Err(AllocError),
        Err(_) => unreachable!(),
    }
}

/// Rows of lists of one size.
#[cycle(take)]
fn take_sized(alloc: Global, lists: &FixedSizeListArray, runs: &[Run]) -> Result<Array, AllocError>
    requires { Climb 0 runs.now lists.now.head.rows }
    ensures { IfOk result (λ a. parts_of a ≡ rows_taken (rows_in_runs runs.now) (nested (sized lists.now.head) lists.now.children)) }
{
    let held = lists.len();
    let child = lists.values();
    let items = sized_items(alloc, runs, lists.size(), held, child.len())?;
    let count = row_count(runs, held);
    let validity = take_validity(alloc, lists.validity(), held, runs)?;
    let dtype = lists.dtype().try_clone(alloc)?;
    let values = take_runs(alloc, child, items.as_slice())?;
    sized_over(alloc, dtype, count, values, validity)
}

/// Rows of each of some arrays.
#[cycle(take)]
fn take_each(
    alloc: Global,
    arrays: &[Array],
    held: usize,
    runs: &[Run],
) -> Result<Vec<Array>, AllocError>
    requires all { are_all held (rows_each (forest_of arrays.now)) ≡ true }
    requires climb { Climb 0 runs.now held }
    ensures { IfOk result (λ v. forest_of v.items ≡ each_taken (these_rows (rows_in_runs runs.now)) (forest_of arrays.now)) }
{
    let mut taken = Vec::new(alloc);
    for array in arrays {
        taken.push(take_runs(alloc, array, runs)?)?;
    }
    Ok(taken)
}

/// Rows of structs.
#[cycle(take)]
fn take_struct(alloc: Global, columns: &StructArray, runs: &[Run]) -> Result<Array, AllocError>
    requires { Climb 0 runs.now columns.now.head.rows }
    ensures { IfOk result (λ a. parts_of a ≡ rows_taken (rows_in_runs runs.now) (nested (structured columns.now.head) columns.now.children)) }
{
    let held = columns.len();
    let count = row_count(runs, held);
    let validity = take_validity(alloc, columns.validity(), held, runs)?;
    let dtype = columns.dtype().try_clone(alloc)?;
    let values = take_each(alloc, columns.values(), held, runs)?;
    match StructArray::try_new(dtype, count, values, validity) {
        Ok(taken) => Ok(Array::Struct(taken)),
        Err(_) => unreachable!(),
    }
}

/// The offsets of a dense union's rows, and its children as they are; without offsets the rows of the children.
#[cycle(take)]
fn take_places(
    alloc: Global,
    offsets: Option<&Buffer<i32>>,
    fields: &[Array],
    held: usize,
    runs: &[Run],
) -> Result<(Option<Buffer<i32>>, Vec<Array>), AllocError>
    requires fits { tagged_rows (option_map (λ b. b.now) offsets) held (rows_each (forest_of fields.now)) ≡ true }
    requires climb { Climb 0 runs.now held }
    ensures offsets { IfOk result (λ r. r.0 ≡ option_map (taken (rows_in_runs runs.now)) (option_map (λ b. b.now) offsets.entry)) }
    ensures children { IfOk result (λ r. forest_of r.1.items ≡ each_taken (tagged_left (rows_in_runs runs.now) (option_map (λ b. b.now) offsets.entry)) (forest_of fields.now)) }
{
    match offsets {
        None => Ok((None, take_each(alloc, fields, held, runs)?)),
        Some(places) => {
            let taken = take_items(alloc, places, runs)?;
            Ok((Some(taken), clone_each(alloc, fields)?))
        }
    }
}

/// Rows of unions.
#[cycle(take)]
fn take_union(alloc: Global, union: &UnionArray, runs: &[Run]) -> Result<Array, AllocError>
    requires { Climb 0 runs.now (length union.now.head.types) }
    ensures { IfOk result (λ a. parts_of a ≡ rows_taken (rows_in_runs runs.now) (nested (tagged union.now.head) union.now.children)) }
{
    let held = union.len();
    let types = take_items(alloc, union.types(), runs)?;
    let dtype = union.dtype().try_clone(alloc)?;
    let (offsets, fields) = take_places(alloc, union.offsets(), union.fields(), held, runs)?;
    match UnionArray::try_new(dtype, types, fields, offsets) {
        Ok(taken) => Ok(Array::Union(taken)),
        Err(_) => unreachable!(),
    }
}

/// Rows of a dictionary, whose parts stay as they are.
fn take_dictionary(
    alloc: Global,
    dictionary: &DictionaryArray,
    runs: &[Run],
) -> Result<Array, AllocError>
    requires { Climb 0 runs.now (length dictionary.now.head.keys) }
    ensures { IfOk result (λ a. parts_of a ≡ rows_taken (rows_in_runs runs.now) (nested (indexed dictionary.now.head) dictionary.now.children)) }
{
    let _held = dictionary.len();
    let keys = take_keys(alloc, dictionary.keys(), runs)?;
    let parts = clone_each(alloc, dictionary.parts())?;
    let dtype = dictionary.dtype().try_clone(alloc)?;
    match DictionaryArray::try_from_parts(dtype, keys, parts) {
        Ok(taken) => Ok(Array::Dictionary(taken)),
        Err(_) => unreachable!(),
    }
}
