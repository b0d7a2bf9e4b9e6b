//! Arrays of dictionaries, whose values are in one or several parts (Arrow Columnar Format, "Dictionary-encoded Layout").
ghost use Rattle.std.specs.Prelude.{◌≡◌, ◌≢◌, ◌+◌, ◌≤◌, ◌<◌, length, take, Some, None, IfOk, IfErr, true, ◌&&◌, slice_index_or};
ghost use Rattle.std.specs.List.{sum};
ghost use Rattle.std.specs.Option.{option_map};
ghost use Rattle.arrow_spec.specs.Counts.{magnitude};
ghost use Rattle.arrow_types.specs.KindOf.{kind_of};
ghost use Rattle.arrow_buffers.specs.declared.error.ArrayError.TheVariants.{Memory};
ghost use Rattle.arrow_buffers.specs.Rows.{part, has_rows, is_valid, null_rows};
ghost use Rattle.arrow_arrays.specs.Heads.{indexed, indexed_part, is_dictionary, values_kind, each_of, is_bad_key, have_keys, number_at};
ghost use Rattle.arrow_arrays.specs.KeysOf.{keys_in, index_in, key_validity_in, indexed_by};
ghost use Rattle.arrow_arrays.specs.Parts.{nested, kinds_each, rows_each, cells_in, fault_in};
ghost use Rattle.arrow_arrays.specs.PartsOf.{forest_of, only};

use crate::array::{Array, DictionaryArray};
use crate::keys::DictionaryKeys;
use crate::rows::is_valid_in;
use crate::structs::clone_each;
use crate::union::know_sound;
use arrow_buffers::{ArrayError, Bitmap};
use arrow_spec::IntegerType;
use arrow_types::ArrowDataType;
use ipc_fields::is_same_kind_of_values;
use std::alloc::{AllocError, Global};

/// Whether there is a part, and each is of this type, names, nullability and metadata aside.
pub fn are_of_type(dtype: &ArrowDataType, parts: &[Array]) -> bool
    ensures { result ≡ each_of (kind_of dtype.now) (kinds_each (forest_of parts.now)) }
{
    if parts.is_empty() {
        return false;
    }
    for part in parts {
        if !is_same_kind_of_values(dtype, part.dtype()) {
            return false;
        }
    }
    true
}

/// Whether a type is of dictionaries with keys of this type and values in these parts.
fn fits(dtype: &ArrowDataType, index: IntegerType, parts: &[Array]) -> bool
    ensures { result ≡ (is_dictionary index (kind_of dtype.now) && each_of (values_kind (kind_of dtype.now)) (kinds_each (forest_of parts.now))) }
{
    match dtype {
        ArrowDataType::Dictionary(keys, values, _) => *keys == index && are_of_type(values, parts),
        ArrowDataType::Extension(extension) => fits(&extension.inner, index, parts),
        _ => false,
    }
}

/// How many rows the parts have.
fn rows_of(parts: &[Array]) -> u128
    ensures { result ≡ sum (rows_each (forest_of parts.now)) }
{
    let mut rows: u128 = 0;
    for part in parts {
        rows += part.len() as u128;
    }
    rows
}

/// Whether a key is none of so many rows.
fn is_bad_key(held: u128, key: i128) -> bool
    ensures { result ≡ is_bad_key held key }
{
    key < 0 || held <= key as u128
}

/// Whether a row is not null and its key is none of so many rows.
fn is_bad_row(held: u128, keys: &DictionaryKeys, row: usize) -> bool
    requires { row < length (keys_in keys.now) }
    ensures { result ≡ (is_valid (key_validity_in keys.now) row && is_bad_key held (number_at (keys_in keys.now) row)) }
{
    if is_valid_in(keys.validity(), row) {
        is_bad_key(held, keys.number(row))
    } else {
        false
    }
}

/// Whether the key of each row that is not null is one of so many rows.
fn have_keys(held: u128, keys: &DictionaryKeys) -> bool
    ensures { result ≡ have_keys held (keys_in keys.now) (key_validity_in keys.now) }
{
    for row in 0..keys.len() {
        if is_bad_row(held, keys, row) {
            return false;
        }
    }
    true
}

/// Why there is no array of these parts.
fn fault_of(dtype: &ArrowDataType, keys: &DictionaryKeys, parts: &[Array]) -> Option<ArrayError>
    ensures { result ≡ fault_in (nested (indexed (indexed_by (kind_of dtype.now) keys.now)) (forest_of parts.now)) }
{
    if !fits(dtype, keys.index_type(), parts) {
        return Some(ArrayError::DataType);
    }
    let _validity = keys.validity();
    if !have_keys(rows_of(parts), keys) {
        return Some(ArrayError::Key);
    }
    know_sound(parts);
    None
}

/// The part that a row of all parts lies in, and the row there.
fn place_in(parts: &[Array], at: u128) -> (usize, usize)
    requires { at < sum (rows_each (forest_of parts.now)) }
    ensures there { result.0 < length (rows_each (forest_of parts.now)) }
    ensures within { result.1 < slice_index_or (rows_each (forest_of parts.now)) result.0 0 }
    ensures place { sum (take result.0 (rows_each (forest_of parts.now))) + result.1 ≡ at }
{
    let mut rest = at;
    for i in 0..parts.len() {
        let held = parts[i].len() as u128;
        if rest < held {
            return (i, rest as usize);
        }
        rest -= held;
    }
    unreachable!()
}

/// The row that a key says, 0 where it is negative.
fn row_at(key: i128) -> u128
    ensures { result ≡ magnitude key }
{
    if key < 0 { 0 } else { key as u128 }
}

impl DictionaryArray {
    /// The array whose values stand in these parts, one after another. Where there is no part it is none of its type.
    pub fn try_from_parts(
        dtype: ArrowDataType,
        keys: DictionaryKeys,
        parts: Vec<Array>,
    ) -> Result<DictionaryArray, ArrayError>
        ensures ok { IfOk result (λ a. a ≡ record { head = indexed_by (kind_of dtype) keys; children = forest_of parts.items }) }
        ensures sound { IfOk result (λ _. fault_in (nested (indexed (indexed_by (kind_of dtype) keys)) (forest_of parts.items)) ≡ None) }
        ensures err { IfErr result (λ e. fault_in (nested (indexed (indexed_by (kind_of dtype) keys)) (forest_of parts.items)) ≡ Some e) }
    {
        match fault_of(&dtype, &keys, parts.as_slice()) {
            None => Ok(DictionaryArray { dtype, keys, parts }),
            Some(fault) => {
                drop(dtype);
                drop(keys);
                drop(parts);
                Err(fault)
            }
        }
    }

    /// The array whose values stand in one part.
    pub fn try_new(
        alloc: Global,
        dtype: ArrowDataType,
        keys: DictionaryKeys,
        values: Array,
    ) -> Result<DictionaryArray, ArrayError>
        ensures ok { IfOk result (λ a. a ≡ record { head = indexed_by (kind_of dtype) keys; children = only values }) }
        ensures sound { IfOk result (λ _. fault_in (nested (indexed (indexed_by (kind_of dtype) keys)) (only values)) ≡ None) }
        ensures err { IfErr result (λ e. e ≢ Memory → fault_in (nested (indexed (indexed_by (kind_of dtype) keys)) (only values)) ≡ Some e) }
    {
        match vec![in alloc; values] {
            Ok(parts) => DictionaryArray::try_from_parts(dtype, keys, parts),
            Err(_) => {
                drop(dtype);
                drop(keys);
                Err(ArrayError::Memory)
            }
        }
    }

    /// How many rows there are.
    pub fn len(&self) -> usize
        ensures rows { result ≡ length self.now.head.keys }
        ensures cells { result ≡ length (cells_in (nested (indexed self.now.head) self.now.children)) }
        ensures sound { fault_in (nested (indexed self.now.head) self.now.children) ≡ None }
    {
        self.keys.len()
    }

    /// The type.
    pub fn dtype(&self) -> &ArrowDataType
        ensures { kind_of result.now ≡ self.now.head.kind }
    {
        &self.dtype
    }

    /// The key of each row, which counts the rows of all parts.
    pub fn keys(&self) -> &DictionaryKeys
        ensures keys { keys_in result.now ≡ self.now.head.keys }
        ensures index { index_in result.now ≡ self.now.head.index }
        ensures validity { key_validity_in result.now ≡ self.now.head.validity }
    {
        &self.keys
    }

    /// The parts that have the values, in order.
    pub fn parts(&self) -> &[Array]
        ensures { forest_of result.now ≡ self.now.children }
    {
        self.parts.as_slice()
    }

    /// The number of a row's key, which means nothing where the row is null.
    pub fn key_value(&self, row: usize) -> i128
        requires { row < length self.now.head.keys }
        ensures { result ≡ number_at self.now.head.keys row }
    {
        self.keys.number(row)
    }

    /// The part that has the value of a row that is not null, and the row there.
    pub fn index(&self, row: usize) -> (usize, usize)
        requires below { row < length self.now.head.keys }
        requires valid { is_valid self.now.head.validity row ≡ true }
        ensures there { result.0 < length (rows_each self.now.children) }
        ensures within { result.1 < slice_index_or (rows_each self.now.children) result.0 0 }
        ensures place { sum (take result.0 (rows_each self.now.children)) + result.1 ≡ magnitude (number_at self.now.head.keys row) }
    {
        place_in(self.parts.as_slice(), row_at(self.keys.number(row)))
    }

    /// Which rows are not null; all, where there is no bitmap.
    pub fn validity(&self) -> Option<&Bitmap>
        ensures bits { option_map (λ b. b.now) result ≡ self.now.head.validity }
        ensures rows { has_rows self.now.head.validity (length self.now.head.keys) ≡ true }
    {
        self.keys.validity()
    }

    /// How many rows are null.
    pub fn null_count(&self) -> usize
        ensures { result ≡ null_rows self.now.head.validity }
    {
        self.keys.null_count()
    }

    /// Leaves only the part, and copies nothing. The dictionary stays whole.
    pub fn narrow(&mut self, offset: usize, rows: usize)
        requires { offset + rows ≤ length self.old.head.keys }
        ensures parts { self.new ≡ record { head = indexed_part offset rows self.old.head; children = self.old.children } }
        ensures cells { cells_in (nested (indexed self.new.head) self.new.children) ≡ part offset rows (cells_in (nested (indexed self.old.head) self.old.children)) }
    {
        self.keys.narrow(offset, rows);
    }

    /// The part, which shares the memory.
    pub fn sliced(self, offset: usize, rows: usize) -> DictionaryArray
        requires { offset + rows ≤ length self.head.keys }
        ensures parts { result ≡ record { head = indexed_part offset rows self.head; children = self.children } }
        ensures cells { cells_in (nested (indexed result.head) result.children) ≡ part offset rows (cells_in (nested (indexed self.head) self.children)) }
    {
        let mut part = self;
        part.narrow(offset, rows);
        part
    }

    /// A second owner of the same parts.
    #[cycle(copy)]
    pub fn try_clone(&self, alloc: Global) -> Result<DictionaryArray, AllocError>
        ensures { IfOk result (λ a. a ≡ self.now) }
    {
        let dtype = self.dtype.try_clone(alloc)?;
        let keys = self.keys.try_clone(alloc)?;
        Ok(DictionaryArray {
            dtype,
            keys,
            parts: clone_each(alloc, self.parts.as_slice())?,
        })
    }
}
