//! The columns of a generated batch, by the states of its rows.
ghost use Rattle.std.specs.Prelude.{◌≡◌, ◌+◌, ◌/◌, ◌%◌, ◌<◌, ◌≤◌, ◌^◌, ◌++◌, ◌∷◌, [], map, length, pos, None, IfOk, IfErr, OnOk, true, false};
ghost use Rattle.std.specs.Str.{is_utf8};
ghost use Rattle.arrow_spec.specs.Kinds.{small};
ghost use Rattle.arrow_buffers.specs.declared.error.ArrayError.TheVariants.{Memory};
ghost use Rattle.arrow_buffers.specs.Variable.{are_offsets, has_bad_text};
ghost use Rattle.arrow_arrays.specs.Heads.{have_keys, listed};
ghost use Rattle.arrow_arrays.specs.LeafParts.{text};
ghost use Rattle.arrow_arrays.specs.Parts.{leaf, nested, none, also};
ghost use Rattle.arrow_arrays.specs.PartsOf.{parts_of};
ghost use Rattle.ipc_generate.specs.Arrays.{by_rows, number_of, numbers_array, digits_of, texts_array, dictionary_values, key_of, keys_array, items_of, lists_array, numbers_of};
ghost use Rattle.ipc_generate.specs.Table.{kind_of_p, kind_of_t};

use crate::schema::{dictionary_type, list_type};
use arrow_arrays::{Array, DictionaryArray, DictionaryKeys, ListOffsets, list_of};
use arrow_buffers::{ArrayError, Buffer, PrimitiveArray, Utf8Array};
use arrow_columns::{optional_numbers, texts};
use arrow_types::ArrowDataType;
use std::alloc::{AllocError, Global};

/// The number of a row: none in each seventh.
fn number_of(row: usize, x: u64) -> Option<i64>
    ensures { result ≡ number_of row x }
{
    if row % 7 == 0 {
        None
    } else {
        Some((x / 2) as i64)
    }
}

/// Half of each state, null in each seventh row from the first on.
#[tactic(auto, unfolding(crate::specs::Arrays::numbers_array))]
pub(crate) fn numbers(alloc: Global, states: &[u64]) -> Result<Array, ArrayError>
    ensures parts { IfOk result (λ a. parts_of a ≡ numbers_array (by_rows number_of 0 states.now)) }
    ensures err { IfErr result (λ e. e ≡ Memory) }
{
    let mut rows: Vec<Option<i64>> = Vec::new(alloc);
    rows.reserve(states.len())?;
    for i in 0..states.len() {
        rows.push(number_of(i, states[i]))?;
    }
    let array = optional_numbers(alloc, rows.as_slice())?;
    Ok(Array::Int64(array))
}

/// The last decimal digit.
fn digit(n: u64) -> u8
    ensures { result ≡ 48 + n % 10 }
{
    b'0' + (n % 10) as u8
}

/// The digits of the text of a row.
fn digits_of(x: u64) -> [u8; 4]
    ensures digits { result ≡ digits_of x }
    ensures text { is_utf8 (digits_of x) ≡ true }
{
    let ones = x >> 32;
    let tens = ones / 10;
    let hundreds = tens / 10;
    let thousands = hundreds / 10;
    [digit(thousands), digit(hundreds), digit(tens), digit(ones)]
}

/// The array of texts of these offsets and bytes.
fn texts_of(offsets: Vec<i32>, values: Vec<u8>) -> Result<Array, ArrayError>
    requires rise { are_offsets (map (λ z. z) offsets.items) (length values.items) ≡ true }
    requires texts { has_bad_text (map (λ z. z) offsets.items) values.items None ≡ false }
    ensures parts { IfOk result (λ a. parts_of a ≡ leaf (text (record { kind = kind_of_t; offsets = map (λ z. z) offsets.items; values = values.items; validity = None }))) }
    ensures err { IfErr result (λ e. e ≡ Memory) }
{
    let offsets = Buffer::from_vec(offsets)?;
    let values = Buffer::from_bytes(values)?;
    let array = Utf8Array::try_new(ArrowDataType::Utf8, offsets, values, None)?;
    Ok(Array::Utf8(array))
}

/// Four digits of each state.
pub(crate) fn digits(alloc: Global, states: &[u64]) -> Result<Array, ArrayError>
    requires few { length states.now ≤ 65536 }
    ensures parts { IfOk result (λ a. parts_of a ≡ texts_array (map digits_of states.now)) }
    ensures err { IfErr result (λ e. e ≡ Memory) }
{
    let mut offsets: Vec<i32> = vec![in alloc; 0]?;
    let mut values: Vec<u8> = Vec::new(alloc);
    for x in states {
        values.extend_from_slice(&digits_of(*x))?;
        offsets.push(values.len() as i32)?;
    }
    texts_of(offsets, values)
}

/// The texts `v0` to `v7`.
#[tactic(auto, unfolding(crate::specs::Arrays::dictionary_values, crate::specs::Arrays::texts_array))]
pub(crate) fn dictionary_values(alloc: Global) -> Result<Array, ArrayError>
    ensures parts { IfOk result (λ a. parts_of a ≡ dictionary_values) }
    ensures err { IfErr result (λ e. e ≡ Memory) }
{
    let values = texts::<i32>(alloc, &["v0", "v1", "v2", "v3", "v4", "v5", "v6", "v7"])?;
    Ok(Array::Utf8(values))
}

/// The array of these keys into the eight texts.
#[tactic(auto, unfolding(crate::specs::Arrays::keys_array, crate::specs::Arrays::dictionary_values, crate::specs::Arrays::texts_array))]
fn keyed(alloc: Global, keys: &[i16], values: Array) -> Result<Array, ArrayError>
    requires values { parts_of values ≡ dictionary_values }
    requires keys { have_keys 8 keys.now None ≡ true }
    ensures parts { IfOk result (λ a. parts_of a ≡ keys_array keys.now) }
    ensures err { IfErr result (λ e. e ≡ Memory) }
{
    let keys = DictionaryKeys::Int16(PrimitiveArray::from_slice(alloc, keys)?);
    let dtype = dictionary_type(alloc)?;
    let _held = values.len();
    let array = DictionaryArray::try_new(alloc, dtype, keys, values)?;
    Ok(Array::Dictionary(array))
}

/// One of eight values by three bits of each state.
pub(crate) fn keys(alloc: Global, states: &[u64], values: Array) -> Result<Array, ArrayError>
    requires { parts_of values ≡ dictionary_values }
    ensures parts { IfOk result (λ a. parts_of a ≡ keys_array (map key_of states.now)) }
    ensures err { IfErr result (λ e. e ≡ Memory) }
{
    let mut keys: Vec<i16> = Vec::new(alloc);
    keys.reserve(states.len())?;
    for x in states {
        keys.push(((x >> 40) % 8) as i16)?;
    }
    keyed(alloc, keys.as_slice(), values)
}

/// Puts the items of a row behind others.
fn push_items(items: &mut Vec<i32>, row: usize, x: u64) -> Result<(), AllocError>
    requires { x < 2 ^ 64 }
    ensures { OnOk result (items.new.items ≡ items.old.items ++ map pos (items_of row x)) }
{
    let first = (x >> 48) as i32;
    for j in 0..row % 3 {
        items.push(first + j as i32)?;
    }
    Ok(())
}

/// The array of lists of these offsets and items.
fn lists_of(alloc: Global, offsets: Vec<i32>, items: &[i32]) -> Result<Array, ArrayError>
    requires { are_offsets offsets.items (length items.now) ≡ true }
    ensures parts { IfOk result (λ a. parts_of a ≡ nested (listed (record { kind = kind_of_p; width = small; offsets = offsets.items; validity = None })) (also (numbers_of items.now) none)) }
    ensures err { IfErr result (λ e. e ≡ Memory) }
{
    let offsets = ListOffsets::Small(Buffer::from_vec(offsets)?);
    let items = Array::Int32(PrimitiveArray::from_slice(alloc, items)?);
    let dtype = list_type(alloc)?;
    let _held = items.len();
    Ok(Array::List(list_of(alloc, dtype, offsets, items, None)?))
}

/// None, one or two numbers in each row.
pub(crate) fn lists(alloc: Global, states: &[u64]) -> Result<Array, ArrayError>
    requires few { length states.now ≤ 65536 }
    ensures parts { IfOk result (λ a. parts_of a ≡ lists_array (by_rows items_of 0 states.now)) }
    ensures err { IfErr result (λ e. e ≡ Memory) }
{
    let mut offsets: Vec<i32> = vec![in alloc; 0]?;
    let mut items: Vec<i32> = Vec::new(alloc);
    for i in 0..states.len() {
        push_items(&mut items, i, states[i])?;
        offsets.push(items.len() as i32)?;
    }
    lists_of(alloc, offsets, items.as_slice())
}
