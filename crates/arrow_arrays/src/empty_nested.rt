//! Arrays without rows, of any type that arrays are read of.
ghost use Rattle.std.specs.Prelude.{◌≡◌, ◌∷◌, [], length, pos, None, IfOk, true};
ghost use Rattle.std.specs.Option.{option_map};
ghost use Rattle.arrow_types.specs.KindOf.{kind_of, fields_of};
ghost use Rattle.arrow_types.specs.Numbers.{offsets_by};
ghost use Rattle.arrow_spec.specs.Kinds.{small};
ghost use Rattle.arrow_arrays.specs.Carried.{is_carried, are_carried};
ghost use Rattle.arrow_arrays.specs.EmptyParts.{empty_listed, empty_counted, empty_forest, empty_parts};
ghost use Rattle.arrow_arrays.specs.EmptyTops.{EmptyUnder, ValuesUnder, is_dense, no_places, empty_indexed, values_in, empty_below};
ghost use Rattle.arrow_arrays.specs.Heads.{listed, mapped, sized, structured, tagged, indexed, is_list, is_map, is_sized, is_struct, is_union, is_dictionary, child_fields};
ghost use Rattle.arrow_arrays.specs.KeysOf.{keys_in, index_in, key_validity_in};
ghost use Rattle.arrow_arrays.specs.OffsetsOf.{offsets_in, width_in};
ghost use Rattle.arrow_arrays.specs.Parts.{nested, kind_in, rows_in};
ghost use Rattle.arrow_arrays.specs.PartsOf.{parts_of, forest_of, only};

use crate::array::{
    Array, DictionaryArray, FixedSizeListArray, ListArray, MapArray, StructArray, UnionArray,
};
use crate::empty::{empty_leaf, first_large_offset, first_offset, no_numbers};
use crate::keys::DictionaryKeys;
use crate::offsets::ListOffsets;
use arrow_buffers::{ArrayError, Buffer};
use arrow_spec::IntegerType;
use arrow_types::{ArrowDataType, Field, PhysicalType, UnionMode};
use std::alloc::{AllocError, Global};
use std::slice::from_ref;

/// The fields of a type, extensions looked through; none where it has no children.
fn fields_under(dtype: &ArrowDataType) -> &[Field]
    ensures { fields_of result.now ≡ child_fields (kind_of dtype.now) }
{
    match dtype {
        ArrowDataType::List(field) => from_ref(field),
        ArrowDataType::LargeList(field) => from_ref(field),
        ArrowDataType::FixedSizeList(field, _) => from_ref(field),
        ArrowDataType::Map(field, _) => from_ref(field),
        ArrowDataType::Struct(fields) => fields.as_slice(),
        ArrowDataType::Union(union) => union.fields.as_slice(),
        ArrowDataType::Extension(extension) => fields_under(&extension.inner),
        _ => &[],
    }
}

/// Whether a type is of dense unions, extensions looked through.
fn is_dense(dtype: &ArrowDataType) -> bool
    ensures { result ≡ is_dense (kind_of dtype.now) }
{
    match dtype {
        ArrowDataType::Union(union) => matches!(union.mode, UnionMode::Dense),
        ArrowDataType::Extension(extension) => is_dense(&extension.inner),
        _ => false,
    }
}

/// The only child.
fn only_of(children: Vec<Array>) -> Array
    requires { length children.items ≡ 1 }
    ensures { only result ≡ forest_of children.items }
{
    let mut children = children;
    let Some(child) = children.pop() else {
        unreachable!()
    };
    child
}

/// The offset from which a first list would begin, in 64 bits or in 32.
fn first_list_offset(alloc: Global, is_large: bool) -> Result<ListOffsets, AllocError>
    ensures width { IfOk result (λ o. width_in o ≡ offsets_by is_large) }
    ensures start { IfOk result (λ o. offsets_in o ≡ pos 0 ∷ []) }
{
    if is_large {
        Ok(ListOffsets::Large(first_large_offset(alloc)?))
    } else {
        Ok(ListOffsets::Small(first_offset(alloc)?))
    }
}

/// Lists without rows over a child without rows.
fn list_over(
    alloc: Global,
    dtype: ArrowDataType,
    offsets: ListOffsets,
    child: Array,
) -> Result<Array, AllocError>
    requires layout { is_list (width_in offsets) (kind_of dtype) ≡ true }
    requires start { offsets_in offsets ≡ pos 0 ∷ [] }
    requires child { EmptyUnder (child_fields (kind_of dtype)) (only child) }
    ensures { IfOk result (λ a. parts_of a ≡ nested (listed (empty_listed (kind_of dtype) (width_in offsets))) (only child)) }
{
    match ListArray::try_new(alloc, dtype, offsets, child, None) {
        Ok(array) => Ok(Array::List(array)),
        Err(ArrayError::Memory) => Err(AllocError),
        Err(_) => unreachable!(),
    }
}

/// The same with offsets of 64 bits or of 32.
fn empty_list(
    alloc: Global,
    dtype: ArrowDataType,
    is_large: bool,
    child: Array,
) -> Result<Array, AllocError>
    requires layout { is_list (offsets_by is_large) (kind_of dtype) ≡ true }
    requires child { EmptyUnder (child_fields (kind_of dtype)) (only child) }
    ensures { IfOk result (λ a. parts_of a ≡ nested (listed (empty_listed (kind_of dtype) (offsets_by is_large))) (only child)) }
{
    match first_list_offset(alloc, is_large) {
        Ok(offsets) => list_over(alloc, dtype, offsets, child),
        Err(error) => {
            drop(dtype);
            drop(child);
            Err(error)
        }
    }
}

/// Maps without rows over entries without rows.
fn map_over(
    alloc: Global,
    dtype: ArrowDataType,
    offsets: Buffer<i32>,
    entries: Array,
) -> Result<Array, AllocError>
    requires layout { is_map small (kind_of dtype) ≡ true }
    requires start { offsets ≡ pos 0 ∷ [] }
    requires child { EmptyUnder (child_fields (kind_of dtype)) (only entries) }
    ensures { IfOk result (λ a. parts_of a ≡ nested (mapped (empty_listed (kind_of dtype) small)) (only entries)) }
{
    match MapArray::try_new(alloc, dtype, offsets, entries, None) {
        Ok(array) => Ok(Array::Map(array)),
        Err(ArrayError::Memory) => Err(AllocError),
        Err(_) => unreachable!(),
    }
}

/// The same with an offset of their own.
fn empty_map(alloc: Global, dtype: ArrowDataType, entries: Array) -> Result<Array, AllocError>
    requires layout { is_map small (kind_of dtype) ≡ true }
    requires child { EmptyUnder (child_fields (kind_of dtype)) (only entries) }
    ensures { IfOk result (λ a. parts_of a ≡ nested (mapped (empty_listed (kind_of dtype) small)) (only entries)) }
{
    match first_offset(alloc) {
        Ok(offsets) => map_over(alloc, dtype, offsets, entries),
        Err(error) => {
            drop(dtype);
            drop(entries);
            Err(error)
        }
    }
}

/// Lists of one size without rows over a child without rows.
fn empty_sized(alloc: Global, dtype: ArrowDataType, child: Array) -> Result<Array, AllocError>
    requires layout { is_sized (kind_of dtype) ≡ true }
    requires child { EmptyUnder (child_fields (kind_of dtype)) (only child) }
    ensures { IfOk result (λ a. parts_of a ≡ nested (sized (empty_counted (kind_of dtype))) (only child)) }
{
    match FixedSizeListArray::try_new(alloc, dtype, 0, child, None) {
        Ok(array) => Ok(Array::FixedSizeList(array)),
        Err(ArrayError::Memory) => Err(AllocError),
        Err(_) => unreachable!(),
    }
}

/// Structs without rows over columns without rows.
fn empty_struct(dtype: ArrowDataType, columns: Vec<Array>) -> Array
    requires layout { is_struct (kind_of dtype) ≡ true }
    requires children { EmptyUnder (child_fields (kind_of dtype)) (forest_of columns.items) }
    ensures { parts_of result ≡ nested (structured (empty_counted (kind_of dtype))) (forest_of columns.items) }
{
    match StructArray::try_new(dtype, 0, columns, None) {
        Ok(array) => Array::Struct(array),
        Err(_) => unreachable!(),
    }
}

/// The types of no rows, and where unions are dense their offsets.
fn no_places(alloc: Global, is_dense: bool) -> Result<(Buffer<i8>, Option<Buffer<i32>>), AllocError>
    ensures types { IfOk result (λ r. r.0 ≡ []) }
    ensures offsets { IfOk result (λ r. r.1 ≡ no_places is_dense) }
{
    let types = Buffer::from_vec(Vec::new(alloc))?;
    if is_dense {
        let offsets = Buffer::from_vec(Vec::new(alloc))?;
        return Ok((types, Some(offsets)));
    }
    Ok((types, None))
}

/// Unions without rows over children without rows.
fn union_over(
    dtype: ArrowDataType,
    types: Buffer<i8>,
    children: Vec<Array>,
    offsets: Option<Buffer<i32>>,
) -> Array
    requires layout { is_union (is_dense (kind_of dtype)) (kind_of dtype) ≡ true }
    requires types { types ≡ [] }
    requires offsets { offsets ≡ no_places (is_dense (kind_of dtype)) }
    requires children { EmptyUnder (child_fields (kind_of dtype)) (forest_of children.items) }
    ensures { parts_of result ≡ nested (tagged (record { kind = kind_of dtype; types = []; offsets = offsets })) (forest_of children.items) }
{
    match UnionArray::try_new(dtype, types, children, offsets) {
        Ok(array) => Array::Union(array),
        Err(_) => unreachable!(),
    }
}

/// The same with types and offsets of their own.
fn empty_union(
    alloc: Global,
    dtype: ArrowDataType,
    children: Vec<Array>,
) -> Result<Array, AllocError>
    requires layout { is_union (is_dense (kind_of dtype)) (kind_of dtype) ≡ true }
    requires children { EmptyUnder (child_fields (kind_of dtype)) (forest_of children.items) }
    ensures { IfOk result (λ a. parts_of a ≡ nested (tagged (record { kind = kind_of dtype; types = []; offsets = no_places (is_dense (kind_of dtype)) })) (forest_of children.items)) }
{
    match no_places(alloc, is_dense(&dtype)) {
        Ok((types, offsets)) => Ok(union_over(dtype, types, children, offsets)),
        Err(error) => {
            drop(dtype);
            drop(children);
            Err(error)
        }
    }
}

/// Keys of no rows.
fn no_keys(alloc: Global, index: IntegerType) -> Result<DictionaryKeys, AllocError>
    ensures keys { IfOk result (λ k. keys_in k ≡ []) }
    ensures index { IfOk result (λ k. index_in k ≡ index) }
    ensures validity { IfOk result (λ k. key_validity_in k ≡ None) }
{
    match index {
        IntegerType::Int8 => Ok(DictionaryKeys::Int8(no_numbers(alloc, ArrowDataType::Int8)?)),
        IntegerType::Int16 => Ok(DictionaryKeys::Int16(no_numbers(alloc, ArrowDataType::Int16)?)),
        IntegerType::Int32 => Ok(DictionaryKeys::Int32(no_numbers(alloc, ArrowDataType::Int32)?)),
        IntegerType::Int64 => Ok(DictionaryKeys::Int64(no_numbers(alloc, ArrowDataType::Int64)?)),
        IntegerType::Int128 => Ok(DictionaryKeys::Int128(no_numbers(
            alloc,
            ArrowDataType::Int128,
        )?)),
        IntegerType::UInt8 => Ok(DictionaryKeys::UInt8(no_numbers(alloc, ArrowDataType::UInt8)?)),
        IntegerType::UInt16 => Ok(DictionaryKeys::UInt16(no_numbers(
            alloc,
            ArrowDataType::UInt16,
        )?)),
        IntegerType::UInt32 => Ok(DictionaryKeys::UInt32(no_numbers(
            alloc,
            ArrowDataType::UInt32,
        )?)),
        IntegerType::UInt64 => Ok(DictionaryKeys::UInt64(no_numbers(
            alloc,
            ArrowDataType::UInt64,
        )?)),
    }
}

/// A dictionary array without rows over these parts.
fn dictionary_over(dtype: ArrowDataType, keys: DictionaryKeys, parts: Vec<Array>) -> Array
    requires layout { is_dictionary (index_in keys) (kind_of dtype) ≡ true }
    requires keys { keys_in keys ≡ [] }
    requires validity { key_validity_in keys ≡ None }
    requires parts { ValuesUnder (kind_of dtype) (forest_of parts.items) }
    ensures { parts_of result ≡ nested (indexed (empty_indexed (kind_of dtype) (index_in keys))) (forest_of parts.items) }
{
    match DictionaryArray::try_from_parts(dtype, keys, parts) {
        Ok(array) => Array::Dictionary(array),
        Err(_) => unreachable!(),
    }
}

/// The same with keys of their own.
fn empty_dictionary(
    alloc: Global,
    dtype: ArrowDataType,
    index: IntegerType,
    parts: Vec<Array>,
) -> Result<Array, AllocError>
    requires layout { is_dictionary index (kind_of dtype) ≡ true }
    requires parts { ValuesUnder (kind_of dtype) (forest_of parts.items) }
    ensures { IfOk result (λ a. parts_of a ≡ nested (indexed (empty_indexed (kind_of dtype) index)) (forest_of parts.items)) }
{
    match no_keys(alloc, index) {
        Ok(keys) => Ok(dictionary_over(dtype, keys, parts)),
        Err(error) => {
            drop(dtype);
            drop(parts);
            Err(error)
        }
    }
}

/// The array without rows over what stands under it.
fn empty_over(
    alloc: Global,
    dtype: ArrowDataType,
    children: Vec<Array>,
) -> Result<Array, AllocError>
    requires carried { is_carried (kind_of dtype) ≡ true }
    requires children { forest_of children.items ≡ empty_below (kind_of dtype) }
    ensures { IfOk result (λ a. parts_of a ≡ empty_parts (kind_of dtype)) }
{
    match dtype.to_physical_type() {
        PhysicalType::List => empty_list(alloc, dtype, false, only_of(children)),
        PhysicalType::LargeList => empty_list(alloc, dtype, true, only_of(children)),
        PhysicalType::FixedSizeList => empty_sized(alloc, dtype, only_of(children)),
        PhysicalType::Map => empty_map(alloc, dtype, only_of(children)),
        PhysicalType::Struct => Ok(empty_struct(dtype, children)),
        PhysicalType::Union => empty_union(alloc, dtype, children),
        PhysicalType::Dictionary(index) => empty_dictionary(alloc, dtype, index, children),
        layout => {
            drop(children);
            empty_leaf(alloc, dtype, layout)
        }
    }
}

/// The type of a dictionary's values, extensions looked through; none for other types.
fn values_in(dtype: &ArrowDataType) -> Option<&ArrowDataType>
    ensures { option_map (λ t. kind_of t.now) result ≡ values_in (kind_of dtype.now) }
{
    match dtype {
        ArrowDataType::Dictionary(_, values, _) => Some(&**values),
        ArrowDataType::Extension(extension) => values_in(&extension.inner),
        _ => None,
    }
}

/// An array of the type that has no rows; the dictionary of a dictionary type is one part without rows. The call goes
/// as deep as the type's tree.
#[cycle(empty)]
pub fn new_empty_array(alloc: Global, dtype: ArrowDataType) -> Result<Array, AllocError>
    requires { is_carried (kind_of dtype) ≡ true }
    ensures parts { IfOk result (λ a. parts_of a ≡ empty_parts (kind_of dtype)) }
    ensures kind { IfOk result (λ a. kind_in (parts_of a) ≡ kind_of dtype) }
    ensures rows { IfOk result (λ a. rows_in (parts_of a) ≡ 0) }
{
    match empty_under(alloc, &dtype) {
        Ok(children) => empty_over(alloc, dtype, children),
        Err(error) => {
            drop(dtype);
            Err(error)
        }
    }
}

/// What stands under an array of the type that has no rows.
#[cycle(empty)]
fn empty_under(alloc: Global, dtype: &ArrowDataType) -> Result<Vec<Array>, AllocError>
    requires { is_carried (kind_of dtype.now) ≡ true }
    ensures { IfOk result (λ v. forest_of v.items ≡ empty_below (kind_of dtype.now)) }
{
    match values_in(dtype) {
        Some(values) => {
            let mut parts = Vec::new(alloc);
            parts.push(new_empty_array(alloc, values.try_clone(alloc)?)?)?;
            Ok(parts)
        }
        None => empty_children(alloc, fields_under(dtype)),
    }
}

/// Such arrays of fields.
#[cycle(empty)]
fn empty_children(alloc: Global, fields: &[Field]) -> Result<Vec<Array>, AllocError>
    requires { are_carried (fields_of fields.now) ≡ true }
    ensures { IfOk result (λ v. forest_of v.items ≡ empty_forest (fields_of fields.now)) }
{
    let mut children = Vec::new(alloc);
    for field in fields {
        let dtype = field.dtype.try_clone(alloc)?;
        children.push(new_empty_array(alloc, dtype)?)?;
    }
    Ok(children)
}
