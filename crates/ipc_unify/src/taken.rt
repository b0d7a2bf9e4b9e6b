//! The lists behind the dictionaries of arrays.
ghost use Rattle.std.specs.Prelude.{◌≡◌, ◌<◌, ◌+◌, suc, length, IfErr, IfOk};
ghost use Rattle.arrow_spec.specs.declared.error.IpcError.TheVariants.{Memory};
ghost use Rattle.arrow_arrays.specs.Heads.{indexed};
ghost use Rattle.arrow_arrays.specs.Parts.{nested};
ghost use Rattle.arrow_arrays.specs.PartsOf.{forest_of, parts_of};
ghost use Rattle.laws_unify.specs.United.{held_in, put, taken, taken_each, taken_parts, with_parts};
ghost use Rattle.ipc_unify.specs.Steps.{AreKept, lists_of};

use crate::types::number_behind;
use arrow_arrays::{Array, DictionaryArray};
use arrow_spec::IpcError;
use dictionary_places::DictionaryList;
use std::alloc::{AllocError, Global};
use std::slice;

/// Puts lists without parts behind others, until there is one of a number.
pub(crate) fn grow(
    alloc: Global,
    lists: &mut Vec<DictionaryList>,
    number: usize,
) -> Result<(), AllocError>
    requires { AreKept lists.old.items }
    ensures same { IfOk result (λ _. lists_of lists.new.items ≡ lists_of lists.old.items) }
    ensures kept { IfOk result (λ _. AreKept lists.new.items) }
    ensures there { IfOk result (λ _. number < length lists.new.items) }
{
    while lists.len() <= number {
        lists.push(DictionaryList::new(alloc))?;
    }
    Ok(())
}

/// Takes a dictionary's parts into the list of its number, and says how many of its values the list held.
fn take_values(
    alloc: Global,
    parts: &[Array],
    number: usize,
    lists: &mut Vec<DictionaryList>,
) -> Result<usize, IpcError>
    requires { AreKept lists.old.items }
    ensures held { IfOk result (λ n. n ≡ held_in (lists_of lists.old.items number) (forest_of parts.now)) }
    ensures lists { IfOk result (λ _. lists_of lists.new.items ≡ put number (with_parts (lists_of lists.old.items number) (forest_of parts.now)) (lists_of lists.old.items)) }
    ensures kept { IfOk result (λ _. AreKept lists.new.items) }
    ensures memory { IfErr result (λ e. e ≡ Memory) }
{
    grow(alloc, lists, number)?;
    Ok(lists[number].take(alloc, parts)?)
}

/// Takes the dictionaries of an array, the first of which has a number.
#[cycle(take)]
fn take_array(
    alloc: Global,
    array: &Array,
    number: usize,
    lists: &mut Vec<DictionaryList>,
) -> Result<(), IpcError>
    requires { AreKept lists.old.items }
    ensures lists { IfOk result (λ _. lists_of lists.new.items ≡ taken (parts_of array.now) number (lists_of lists.old.items)) }
    ensures kept { IfOk result (λ _. AreKept lists.new.items) }
    ensures memory { IfErr result (λ e. e ≡ Memory) }
{
    match array {
        Array::List(list) => take_arrays(alloc, slice::from_ref(list.values()), number, lists),
        Array::FixedSizeList(list) => {
            take_arrays(alloc, slice::from_ref(list.values()), number, lists)
        }
        Array::Map(map) => take_arrays(alloc, slice::from_ref(map.field()), number, lists),
        Array::Struct(columns) => take_arrays(alloc, columns.values(), number, lists),
        Array::Union(union) => take_arrays(alloc, union.fields(), number, lists),
        Array::Dictionary(dictionary) => take_dictionary(alloc, dictionary, number, lists),
        _ => Ok(()),
    }
}

/// Those of several arrays, one behind another.
#[cycle(take)]
pub(crate) fn take_arrays(
    alloc: Global,
    arrays: &[Array],
    number: usize,
    lists: &mut Vec<DictionaryList>,
) -> Result<(), IpcError>
    requires { AreKept lists.old.items }
    ensures lists { IfOk result (λ _. lists_of lists.new.items ≡ taken_each (forest_of arrays.now) number (lists_of lists.old.items)) }
    ensures kept { IfOk result (λ _. AreKept lists.new.items) }
    ensures memory { IfErr result (λ e. e ≡ Memory) }
{
    let mut next = number;
    for array in arrays {
        take_array(alloc, array, next, lists)?;
        next = number_behind(next, array.dtype())?;
    }
    Ok(())
}

/// A dictionary, and those that stand in the parts of which something is appended.
#[cycle(take)]
fn take_dictionary(
    alloc: Global,
    dictionary: &DictionaryArray,
    number: usize,
    lists: &mut Vec<DictionaryList>,
) -> Result<(), IpcError>
    requires { AreKept lists.old.items }
    ensures lists { IfOk result (λ _. lists_of lists.new.items ≡ taken (nested (indexed dictionary.now.head) dictionary.now.children) number (lists_of lists.old.items)) }
    ensures kept { IfOk result (λ _. AreKept lists.new.items) }
    ensures memory { IfErr result (λ e. e ≡ Memory) }
{
    let held = take_values(alloc, dictionary.parts(), number, lists)?;
    match number.checked_add(1) {
        Some(inner) => take_parts(alloc, dictionary.parts(), held, inner, lists),
        None => Err(IpcError::Memory),
    }
}

/// Those that stand in the parts of one dictionary that have rows from a row of them on.
#[cycle(take)]
fn take_parts(
    alloc: Global,
    parts: &[Array],
    held: usize,
    number: usize,
    lists: &mut Vec<DictionaryList>,
) -> Result<(), IpcError>
    requires { AreKept lists.old.items }
    ensures lists { IfOk result (λ _. lists_of lists.new.items ≡ taken_parts held (forest_of parts.now) number (lists_of lists.old.items)) }
    ensures kept { IfOk result (λ _. AreKept lists.new.items) }
    ensures memory { IfErr result (λ e. e ≡ Memory) }
{
    let mut rest = held;
    for part in parts {
        let rows = part.len();
        if rows <= rest {
            rest -= rows;
            continue;
        }
        take_array(alloc, part, number, lists)?;
        rest = 0;
    }
    Ok(())
}
