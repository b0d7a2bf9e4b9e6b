//! Keys moved by a place.
ghost use Rattle.std.specs.Prelude.{◌≡◌, ◌+◌, ◌<◌, ◌^◌, length, map, IfOk, IfSome, false};
ghost use Rattle.std.specs.Option.{ForSome, option_map};
ghost use Rattle.arrow_spec.specs.Counts.{is_negative, magnitude};
ghost use Rattle.arrow_types.specs.Numbers.{below_limit};
ghost use Rattle.arrow_buffers.specs.Rows.{is_valid};
ghost use Rattle.arrow_arrays.specs.KeysOf.{index_in, key_validity_in, keys_in};
ghost use Rattle.dictionary_keys.specs.Keys.{EndsAt, HaveRoom, Moves, RowMoves};

use arrow_arrays::DictionaryKeys;
use arrow_buffers::{Bitmap, Buffer, PrimitiveArray};
use arrow_types::DictionaryKey;
use std::alloc::{AllocError, Global};

/// Whether a row is valid: every row, where no validity is given.
fn is_valid_in(validity: Option<&Bitmap>, row: usize) -> bool
    requires { ForSome validity (λ bits. row < length bits.now) }
    ensures { result ≡ is_valid (option_map (λ bits. bits.now) validity.entry) row }
{
    match validity {
        None => true,
        Some(bits) => bits.get(row),
    }
}

/// A key moved by a place; none where it passes its type.
fn moved_key<K: DictionaryKey>(key: K, place: usize) -> Option<K>
    requires natural { is_negative (K.number key) ≡ false }
    requires room { place + magnitude (K.number key) < 2 ^ 64 }
    ensures { option_map K.number result ≡ below_limit K.limit (place + magnitude (K.number key)) }
{
    match key.to_usize() {
        Some(index) => K::from_usize(place + index),
        None => unreachable!(),
    }
}

/// A row's key moved by a place, 0 where the row is null; none where it passes its type.
fn moved_row<K: DictionaryKey>(keys: &PrimitiveArray<K>, place: usize, row: usize) -> Option<K>
    requires below { row < length keys.now.values }
    requires room { HaveRoom place (map K.number keys.now.values) keys.now.validity }
    requires ends { EndsAt K.KEY_TYPE K.limit }
    ensures { RowMoves K.KEY_TYPE place (map K.number keys.now.values) keys.now.validity row (option_map K.number result) }
{
    if is_valid_in(keys.validity(), row) {
        moved_key(keys.value(row), place)
    } else {
        K::from_usize(0)
    }
}

/// The keys of all rows, moved.
fn moved_values<K: DictionaryKey>(
    alloc: Global,
    keys: &PrimitiveArray<K>,
    place: usize,
) -> Result<Option<Vec<K>>, AllocError>
    requires room { HaveRoom place (map K.number keys.now.values) keys.now.validity }
    requires ends { EndsAt K.KEY_TYPE K.limit }
    ensures moves { IfOk result (λ r. Moves K.KEY_TYPE place (map K.number keys.now.values) keys.now.validity (option_map (λ v. map K.number v.items) r)) }
    ensures rows { IfOk result (λ r. IfSome r (λ v. length v.items ≡ length keys.now.values)) }
{
    let mut values = Vec::new(alloc);
    values.reserve(keys.len())?;
    for row in 0..keys.len() {
        match moved_row(keys, place, row) {
            Some(key) => values.push(key)?,
            None => return Ok(None),
        }
    }
    Ok(Some(values))
}

/// A second owner of a validity.
fn copy_of(validity: Option<&Bitmap>) -> Result<Option<Bitmap>, AllocError>
    ensures { IfOk result (λ v. v ≡ option_map (λ bits. bits.now) validity.entry) }
{
    match validity {
        None => Ok(None),
        Some(bits) => Ok(Some(bits.try_clone()?)),
    }
}

/// Other numbers in the place of an array's.
fn with_values<K: DictionaryKey>(
    alloc: Global,
    array: &PrimitiveArray<K>,
    values: Vec<K>,
) -> Result<PrimitiveArray<K>, AllocError>
    requires { length values.items ≡ length array.now.values }
    ensures values { IfOk result (λ a. a.values ≡ values.items) }
    ensures validity { IfOk result (λ a. a.validity ≡ array.now.validity) }
{
    let _rows = array.len();
    let dtype = array.dtype().try_clone(alloc)?;
    let validity = copy_of(array.validity())?;
    match PrimitiveArray::try_new(dtype, Buffer::from_vec(values)?, validity) {
        Ok(array) => Ok(array),
        Err(_) => unreachable!(),
    }
}

/// An array of keys, moved.
fn moved_array<K: DictionaryKey>(
    alloc: Global,
    keys: &PrimitiveArray<K>,
    place: usize,
) -> Result<Option<PrimitiveArray<K>>, AllocError>
    requires room { HaveRoom place (map K.number keys.now.values) keys.now.validity }
    requires ends { EndsAt K.KEY_TYPE K.limit }
    ensures moves { IfOk result (λ r. Moves K.KEY_TYPE place (map K.number keys.now.values) keys.now.validity (option_map (λ a. map K.number a.values) r)) }
    ensures validity { IfOk result (λ r. IfSome r (λ a. a.validity ≡ keys.now.validity)) }
{
    match moved_values(alloc, keys, place)? {
        None => Ok(None),
        Some(values) => Ok(Some(with_values(alloc, keys, values)?)),
    }
}

macro_rules! moved_as {
    ($kind:ident, $keys:ident, $place:ident, $alloc:ident) => {
        match moved_array($alloc, $keys, $place)? {
            None => Ok(None),
            Some(array) => Ok(Some(DictionaryKeys::$kind(array))),
        }
    };
}

/// The keys moved by a place, and 0 in each row that is null; none where the key of a row that is not null passes the type of the keys.
pub fn moved_keys(
    alloc: Global,
    keys: &DictionaryKeys,
    place: usize,
) -> Result<Option<DictionaryKeys>, AllocError>
    requires { HaveRoom place (keys_in keys.now) (key_validity_in keys.now) }
    ensures moves { IfOk result (λ r. Moves (index_in keys.now) place (keys_in keys.now) (key_validity_in keys.now) (option_map keys_in r)) }
    ensures index { IfOk result (λ r. IfSome r (λ k. index_in k ≡ index_in keys.now)) }
    ensures validity { IfOk result (λ r. IfSome r (λ k. key_validity_in k ≡ key_validity_in keys.now)) }
{
    match keys {
        DictionaryKeys::Int8(keys) => moved_as!(Int8, keys, place, alloc),
        DictionaryKeys::Int16(keys) => moved_as!(Int16, keys, place, alloc),
        DictionaryKeys::Int32(keys) => moved_as!(Int32, keys, place, alloc),
        DictionaryKeys::Int64(keys) => moved_as!(Int64, keys, place, alloc),
        DictionaryKeys::Int128(keys) => moved_as!(Int128, keys, place, alloc),
        DictionaryKeys::UInt8(keys) => moved_as!(UInt8, keys, place, alloc),
        DictionaryKeys::UInt16(keys) => moved_as!(UInt16, keys, place, alloc),
        DictionaryKeys::UInt32(keys) => moved_as!(UInt32, keys, place, alloc),
        DictionaryKeys::UInt64(keys) => moved_as!(UInt64, keys, place, alloc),
    }
}
