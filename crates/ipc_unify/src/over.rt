//! Arrays over lists of their dictionaries' values.
ghost use Rattle.std.specs.Prelude.{◌≡◌, IfErr, IfOk, None, false};
ghost use Rattle.std.specs.Option.{option_map};
ghost use Rattle.arrow_spec.specs.declared.error.IpcError.TheVariants.{Memory};
ghost use Rattle.arrow_arrays.specs.Heads.{indexed, listed, mapped, sized, structured, tagged};
ghost use Rattle.arrow_arrays.specs.Parts.{fault_each, fault_in, nested};
ghost use Rattle.arrow_arrays.specs.KeysOf.{indexed_by};
ghost use Rattle.arrow_arrays.specs.PartsOf.{forest_of, only, parts_of};
ghost use Rattle.laws_unify.specs.Over.{are_large, is_large, over, over_each, over_parts, parts_large};
ghost use Rattle.laws_unify.specs.Stands.{StandInParts, StandsIn, StandsInEach};
ghost use Rattle.ipc_unify.specs.Steps.{AreKept, IsRefused, Same, lists_of};

use crate::types::number_behind;
use arrow_arrays::{
    Array, DictionaryArray, DictionaryKeys, FixedSizeListArray, ListArray, MapArray, StructArray,
    UnionArray, clone_each, list_of,
};
use arrow_buffers::{ArrayError, Bitmap, Buffer};
use arrow_spec::IpcError;
use dictionary_keys::moved_keys;
use dictionary_places::DictionaryList;
use std::alloc::{AllocError, Global};

/// A second owner of a validity.
fn copy_of(validity: Option<&Bitmap>) -> Result<Option<Bitmap>, AllocError>
    ensures { IfOk result (λ v. v ≡ option_map (λ bits. bits.now) validity.entry) }
{
    match validity {
        None => Ok(None),
        Some(bits) => Ok(Some(bits.try_clone()?)),
    }
}

/// Lists of other items.
fn list_over(alloc: Global, list: &ListArray, values: Array) -> Result<Array, IpcError>
    requires { fault_in (nested (listed list.now.head) (only values)) ≡ None }
    ensures parts { IfOk result (λ a. parts_of a ≡ nested (listed list.now.head) (only values)) }
    ensures memory { IfErr result (λ e. e ≡ Memory) }
{
    let dtype = list.dtype().try_clone(alloc)?;
    let offsets = list.offsets().try_clone()?;
    let validity = copy_of(list.validity())?;
    Ok(Array::List(list_of(alloc, dtype, offsets, values, validity)?))
}

/// Lists of one size of other items.
fn sized_over(alloc: Global, list: &FixedSizeListArray, values: Array) -> Result<Array, IpcError>
    requires { fault_in (nested (sized list.now.head) (only values)) ≡ None }
    ensures parts { IfOk result (λ a. parts_of a ≡ nested (sized list.now.head) (only values)) }
    ensures memory { IfErr result (λ e. e ≡ Memory) }
{
    let dtype = list.dtype().try_clone(alloc)?;
    let validity = copy_of(list.validity())?;
    match FixedSizeListArray::try_new(alloc, dtype, list.len(), values, validity) {
        Ok(array) => Ok(Array::FixedSizeList(array)),
        Err(ArrayError::Memory) => Err(IpcError::Memory),
        Err(_) => unreachable!(),
    }
}

/// Maps of other entries.
fn map_over(alloc: Global, map: &MapArray, field: Array) -> Result<Array, IpcError>
    requires { fault_in (nested (mapped map.now.head) (only field)) ≡ None }
    ensures parts { IfOk result (λ a. parts_of a ≡ nested (mapped map.now.head) (only field)) }
    ensures memory { IfErr result (λ e. e ≡ Memory) }
{
    let dtype = map.dtype().try_clone(alloc)?;
    let offsets = map.offsets().try_clone()?;
    let validity = copy_of(map.validity())?;
    match MapArray::try_new(alloc, dtype, offsets, field, validity) {
        Ok(array) => Ok(Array::Map(array)),
        Err(ArrayError::Memory) => Err(IpcError::Memory),
        Err(_) => unreachable!(),
    }
}

/// Rows across other columns.
fn struct_over(alloc: Global, columns: &StructArray, values: Vec<Array>) -> Result<Array, IpcError>
    requires { fault_in (nested (structured columns.now.head) (forest_of values.items)) ≡ None }
    ensures parts { IfOk result (λ a. parts_of a ≡ nested (structured columns.now.head) (forest_of values.items)) }
    ensures memory { IfErr result (λ e. e ≡ Memory) }
{
    let dtype = columns.dtype().try_clone(alloc)?;
    let validity = copy_of(columns.validity())?;
    match StructArray::try_new(dtype, columns.len(), values, validity) {
        Ok(array) => Ok(Array::Struct(array)),
        Err(_) => unreachable!(),
    }
}

/// A second owner of a dense union's offsets.
fn offsets_of(offsets: Option<&Buffer<i32>>) -> Result<Option<Buffer<i32>>, AllocError>
    ensures { IfOk result (λ v. v ≡ option_map (λ b. b.now) offsets.entry) }
{
    match offsets {
        None => Ok(None),
        Some(offsets) => Ok(Some(offsets.try_clone()?)),
    }
}

/// Rows of other columns each.
fn union_over(alloc: Global, union: &UnionArray, fields: Vec<Array>) -> Result<Array, IpcError>
    requires { fault_in (nested (tagged union.now.head) (forest_of fields.items)) ≡ None }
    ensures parts { IfOk result (λ a. parts_of a ≡ nested (tagged union.now.head) (forest_of fields.items)) }
    ensures memory { IfErr result (λ e. e ≡ Memory) }
{
    let dtype = union.dtype().try_clone(alloc)?;
    let types = union.types().try_clone()?;
    let offsets = offsets_of(union.offsets())?;
    match UnionArray::try_new(dtype, types, fields, offsets) {
        Ok(array) => Ok(Array::Union(array)),
        Err(_) => unreachable!(),
    }
}

/// Rows of other parts by other keys.
fn keyed_over(
    alloc: Global,
    dictionary: &DictionaryArray,
    keys: DictionaryKeys,
    parts: Vec<Array>,
) -> Result<Array, IpcError>
    requires { fault_in (nested (indexed (indexed_by dictionary.now.head.kind keys)) (forest_of parts.items)) ≡ None }
    ensures parts { IfOk result (λ a. parts_of a ≡ nested (indexed (indexed_by dictionary.now.head.kind keys)) (forest_of parts.items)) }
    ensures memory { IfErr result (λ e. e ≡ Memory) }
{
    let dtype = dictionary.dtype().try_clone(alloc)?;
    match DictionaryArray::try_from_parts(dtype, keys, parts) {
        Ok(array) => Ok(Array::Dictionary(array)),
        Err(_) => unreachable!(),
    }
}

/// Rows of the list of a number, by keys that are moved by the dictionary's place there.
fn dictionary_over(
    alloc: Global,
    dictionary: &DictionaryArray,
    number: usize,
    lists: &mut Vec<DictionaryList>,
) -> Result<Array, IpcError>
    requires kept { AreKept lists.old.items }
    requires stands { StandsIn (lists_of lists.old.items) (nested (indexed dictionary.now.head) dictionary.now.children) number }
    requires sound { fault_in (over (lists_of lists.old.items) (nested (indexed dictionary.now.head) dictionary.now.children) number) ≡ None }
    ensures parts { IfOk result (λ a. parts_of a ≡ over (lists_of lists.old.items) (nested (indexed dictionary.now.head) dictionary.now.children) number) }
    ensures fits { IfOk result (λ _. is_large (lists_of lists.old.items) (nested (indexed dictionary.now.head) dictionary.now.children) number ≡ false) }
    ensures same { IfOk result (λ _. Same lists.old.items lists.new.items) }
    ensures refused { IfErr result (IsRefused (is_large (lists_of lists.old.items) (nested (indexed dictionary.now.head) dictionary.now.children) number)) }
{
    let _rows = dictionary.len();
    let place = lists[number].place_of(alloc, dictionary.parts())?;
    match moved_keys(alloc, dictionary.keys(), place)? {
        Some(keys) => {
            let parts = clone_each(alloc, lists[number].parts())?;
            keyed_over(alloc, dictionary, keys, parts)
        }
        None => Err(IpcError::NotRepresentable),
    }
}

/// An array over lists, the first of whose dictionaries has a number.
#[cycle(over)]
fn array_over(
    alloc: Global,
    array: &Array,
    number: usize,
    lists: &mut Vec<DictionaryList>,
) -> Result<Array, IpcError>
    requires kept { AreKept lists.old.items }
    requires stands { StandsIn (lists_of lists.old.items) (parts_of array.now) number }
    requires sound { fault_in (over (lists_of lists.old.items) (parts_of array.now) number) ≡ None }
    ensures parts { IfOk result (λ a. parts_of a ≡ over (lists_of lists.old.items) (parts_of array.now) number) }
    ensures fits { IfOk result (λ _. is_large (lists_of lists.old.items) (parts_of array.now) number ≡ false) }
    ensures same { IfOk result (λ _. Same lists.old.items lists.new.items) }
    ensures refused { IfErr result (IsRefused (is_large (lists_of lists.old.items) (parts_of array.now) number)) }
{
    match array {
        Array::List(list) => {
            let values = array_over(alloc, list.values(), number, lists)?;
            list_over(alloc, list, values)
        }
        Array::FixedSizeList(list) => {
            let values = array_over(alloc, list.values(), number, lists)?;
            sized_over(alloc, list, values)
        }
        Array::Map(map) => {
            let field = array_over(alloc, map.field(), number, lists)?;
            map_over(alloc, map, field)
        }
        Array::Struct(columns) => {
            let values = arrays_over(alloc, columns.values(), number, lists)?;
            struct_over(alloc, columns, values)
        }
        Array::Union(union) => {
            let fields = arrays_over(alloc, union.fields(), number, lists)?;
            union_over(alloc, union, fields)
        }
        Array::Dictionary(dictionary) => dictionary_over(alloc, dictionary, number, lists),
        leaf => Ok(leaf.try_clone(alloc)?),
    }
}

/// Several arrays, one behind another.
#[cycle(over)]
pub(crate) fn arrays_over(
    alloc: Global,
    arrays: &[Array],
    number: usize,
    lists: &mut Vec<DictionaryList>,
) -> Result<Vec<Array>, IpcError>
    requires kept { AreKept lists.old.items }
    requires stands { StandsInEach (lists_of lists.old.items) (forest_of arrays.now) number }
    requires sound { fault_each (over_each (lists_of lists.old.items) (forest_of arrays.now) number) ≡ None }
    ensures parts { IfOk result (λ v. forest_of v.items ≡ over_each (lists_of lists.old.items) (forest_of arrays.now) number) }
    ensures fits { IfOk result (λ _. are_large (lists_of lists.old.items) (forest_of arrays.now) number ≡ false) }
    ensures same { IfOk result (λ _. Same lists.old.items lists.new.items) }
    ensures refused { IfErr result (IsRefused (are_large (lists_of lists.old.items) (forest_of arrays.now) number)) }
{
    let mut over = Vec::new(alloc);
    let mut next = number;
    for array in arrays {
        over.push(array_over(alloc, array, next, lists)?)?;
        next = number_behind(next, array.dtype())?;
    }
    Ok(over)
}

/// The parts of one dictionary, whose own dictionaries have the same numbers.
pub(crate) fn parts_over(
    alloc: Global,
    parts: &[Array],
    number: usize,
    lists: &mut Vec<DictionaryList>,
) -> Result<Vec<Array>, IpcError>
    requires kept { AreKept lists.old.items }
    requires stands { StandInParts (lists_of lists.old.items) (forest_of parts.now) number }
    requires sound { fault_each (over_parts (lists_of lists.old.items) (forest_of parts.now) number) ≡ None }
    ensures parts { IfOk result (λ v. forest_of v.items ≡ over_parts (lists_of lists.old.items) (forest_of parts.now) number) }
    ensures fits { IfOk result (λ _. parts_large (lists_of lists.old.items) (forest_of parts.now) number ≡ false) }
    ensures same { IfOk result (λ _. Same lists.old.items lists.new.items) }
    ensures refused { IfErr result (IsRefused (parts_large (lists_of lists.old.items) (forest_of parts.now) number)) }
{
    let mut over = Vec::new(alloc);
    for part in parts {
        over.push(array_over(alloc, part, number, lists)?)?;
    }
    Ok(over)
}
