//! Arrays with children, by their parts.
use crate::arrays::{items, leaf, of_numbers};
use crate::made::Made;
use arrow_arrays::{
    Array, DictionaryArray, DictionaryKeys, FixedSizeListArray, ListArray, ListOffsets, MapArray,
    StructArray, UnionArray,
};
use arrow_buffers::Buffer;
use case_types::{Answer, rest};

/// So many arrays that were made last, in order.
fn take_each(answer: &Answer, arrays: &mut Vec<Array>, count: usize) -> Vec<Array> {
    if arrays.len() < count {
        answer.refuse();
        return Vec::new(answer.alloc());
    }
    let from = arrays.len() - count;
    answer.list(arrays.split_off(from))
}

/// Offsets of 32 bits, or of 64.
fn offsets(answer: &Answer, word: &str, is_large: bool) -> Option<ListOffsets> {
    if is_large {
        Some(ListOffsets::Large(items(answer, word)?))
    } else {
        Some(ListOffsets::Small(items(answer, word)?))
    }
}

fn lists(answer: &Answer, made: Made, is_large: bool, items: Array) -> Option<Array> {
    let offsets = offsets(answer, made.word(0), is_large)?;
    let (dtype, validity) = (made.dtype(answer), made.validity(answer));
    let array = ListArray::try_new(answer.alloc(), dtype, offsets, items, validity);
    Some(Array::List(answer.value(array)?))
}

/// How many rows.
fn fixed_lists(answer: &Answer, made: Made, items: Array) -> Option<Array> {
    let rows = answer.count(made.word(0));
    let (dtype, validity) = (made.dtype(answer), made.validity(answer));
    let array = FixedSizeListArray::try_new(answer.alloc(), dtype, rows, items, validity);
    Some(Array::FixedSizeList(answer.value(array)?))
}

fn maps(answer: &Answer, made: Made, entries: Array) -> Option<Array> {
    let offsets = items(answer, made.word(0))?;
    let (dtype, validity) = (made.dtype(answer), made.validity(answer));
    let array = MapArray::try_new(answer.alloc(), dtype, offsets, entries, validity);
    Some(Array::Map(answer.value(array)?))
}

/// How many rows, and how many children.
fn structs(answer: &Answer, made: Made, arrays: &mut Vec<Array>) -> Option<Array> {
    let (rows, wanted) = (answer.count(made.word(0)), answer.count(made.word(1)));
    let columns = take_each(answer, arrays, wanted);
    let (dtype, validity) = (made.dtype(answer), made.validity(answer));
    Some(Array::Struct(answer.value(StructArray::try_new(dtype, rows, columns, validity))?))
}

/// Places of rows, or `none`.
fn places(answer: &Answer, word: &str) -> Option<Buffer<i32>> {
    match word {
        "none" => None,
        places => items(answer, places),
    }
}

/// Types, places or `none`, and how many children.
fn unions(answer: &Answer, made: Made, arrays: &mut Vec<Array>) -> Option<Array> {
    let types = items(answer, made.word(0))?;
    let places = places(answer, made.word(1));
    let children = take_each(answer, arrays, answer.count(made.word(2)));
    let array = UnionArray::try_new(made.dtype(answer), types, children, places);
    Some(Array::Union(answer.value(array)?))
}

/// Keys of a width, under a type of their own.
fn keys(answer: &Answer, made: Made) -> Option<DictionaryKeys> {
    let name = made.word(0);
    let made = Made {
        types: &[name],
        words: rest(made.words, 1),
        valid: made.valid,
    };
    match name {
        "int8" => Some(DictionaryKeys::Int8(of_numbers(answer, made)?)),
        "int16" => Some(DictionaryKeys::Int16(of_numbers(answer, made)?)),
        "int32" => Some(DictionaryKeys::Int32(of_numbers(answer, made)?)),
        "int64" => Some(DictionaryKeys::Int64(of_numbers(answer, made)?)),
        "uint8" => Some(DictionaryKeys::UInt8(of_numbers(answer, made)?)),
        "uint16" => Some(DictionaryKeys::UInt16(of_numbers(answer, made)?)),
        "uint32" => Some(DictionaryKeys::UInt32(of_numbers(answer, made)?)),
        "uint64" => Some(DictionaryKeys::UInt64(of_numbers(answer, made)?)),
        _ => None,
    }
}

/// Keys into values by themselves.
fn in_one_part(
    answer: &Answer,
    made: Made,
    keys: DictionaryKeys,
    arrays: &mut Vec<Array>,
) -> Option<Array> {
    let values = arrays.pop()?;
    let array = DictionaryArray::try_new(answer.alloc(), made.dtype(answer), keys, values);
    Some(Array::Dictionary(answer.value(array)?))
}

/// The type of the keys, the keys, and how many parts of values; `one` are values by themselves.
fn dictionary(answer: &Answer, made: Made, arrays: &mut Vec<Array>) -> Option<Array> {
    let keys = keys(answer, made)?;
    if made.word(2) == "one" {
        return in_one_part(answer, made, keys, arrays);
    }
    let parts = take_each(answer, arrays, answer.count(made.word(2)));
    let array = DictionaryArray::try_from_parts(made.dtype(answer), keys, parts);
    Some(Array::Dictionary(answer.value(array)?))
}

/// The array of a name's parts, over those that were made last.
pub(crate) fn nested(
    answer: &Answer,
    name: &str,
    made: Made,
    arrays: &mut Vec<Array>,
) -> Option<Array> {
    match name {
        "lists" => lists(answer, made, false, arrays.pop()?),
        "large_lists" => lists(answer, made, true, arrays.pop()?),
        "fixed_lists" => fixed_lists(answer, made, arrays.pop()?),
        "maps" => maps(answer, made, arrays.pop()?),
        "structs" => structs(answer, made, arrays),
        "unions" => unions(answer, made, arrays),
        "keys" => dictionary(answer, made, arrays),
        _ => leaf(answer, name, made),
    }
}
