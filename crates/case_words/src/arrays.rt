//! Arrays without children, by their parts.
use crate::made::Made;
use crate::nested::nested;
use arrow_arrays::Array;
use arrow_buffers::{
    BinaryViewArrayGeneric, Bitmap, BooleanArray, Buffer, ByteRows, FixedSizeBinaryArray,
    NullArray, PrimitiveArray, TextRows, VariableArray, ViewType,
};
use arrow_types::{NativeType, Offset};
use case_types::{Answer, bits, bytes, halves, numbers, rest, word};

/// Numbers of a width, each in its lowest bytes.
pub fn items<T: NativeType>(answer: &Answer, word: &str) -> Option<Buffer<T>> {
    let mut items = Vec::new(answer.alloc());
    for number in &numbers(answer, word) {
        let bytes = number.to_le_bytes();
        match bytes.get(..T::WIDTH) {
            Some(bytes) => answer.done(items.push(T::from_le_bytes(bytes))),
            None => answer.refuse(),
        }
    }
    answer.value(Buffer::from_vec(items))
}

/// As many bits as there are digits.
pub fn bitmap(answer: &Answer, word: &str) -> Option<Bitmap> {
    let packed = bits(answer, word);
    let count = word.len();
    if packed.len() < count / 8 + 1 {
        answer.refuse();
        return None;
    }
    answer.value(Bitmap::from_vec(packed, count))
}

/// The bytes of a word as a buffer.
pub fn bytes_buffer(answer: &Answer, word: &str) -> Option<Buffer<u8>> {
    answer.value(Buffer::from_bytes(bytes(answer, word)))
}

pub(crate) fn of_numbers<T: NativeType>(answer: &Answer, made: Made) -> Option<PrimitiveArray<T>> {
    let values = items(answer, made.word(0))?;
    let (dtype, validity) = (made.dtype(answer), made.validity(answer));
    answer.value(PrimitiveArray::try_new(dtype, values, validity))
}

fn of_bits(answer: &Answer, made: Made) -> Option<Array> {
    let values = bitmap(answer, made.word(0))?;
    let (dtype, validity) = (made.dtype(answer), made.validity(answer));
    Some(Array::Boolean(answer.value(BooleanArray::try_new(dtype, values, validity))?))
}

fn of_bytes(answer: &Answer, made: Made) -> Option<Array> {
    let values = bytes_buffer(answer, made.word(0))?;
    let (dtype, validity) = (made.dtype(answer), made.validity(answer));
    let array = answer.value(FixedSizeBinaryArray::try_new(dtype, values, validity))?;
    Some(Array::FixedSizeBinary(array))
}

/// Offsets, and the bytes that they lead into.
fn between<O: Offset, V: ViewType>(answer: &Answer, made: Made) -> Option<VariableArray<O, V>> {
    let offsets = items(answer, made.word(0))?;
    let values = bytes_buffer(answer, made.word(1))?;
    let (dtype, validity) = (made.dtype(answer), made.validity(answer));
    answer.value(VariableArray::try_new(dtype, offsets, values, validity))
}

/// The buffers that views lead into.
fn held(answer: &Answer, words: &[&str]) -> Vec<Buffer<u8>> {
    let mut buffers = Vec::new(answer.alloc());
    for word in words {
        match bytes_buffer(answer, *word) {
            Some(buffer) => answer.done(buffers.push(buffer)),
            None => break,
        }
    }
    buffers
}

fn views<V: ViewType>(answer: &Answer, made: Made) -> Option<BinaryViewArrayGeneric<V>> {
    let views = bytes_buffer(answer, made.word(0))?;
    let buffers = held(answer, rest(made.words, 1));
    let (dtype, validity) = (made.dtype(answer), made.validity(answer));
    answer.value(BinaryViewArrayGeneric::try_new(dtype, views, buffers, validity))
}

fn nulls(answer: &Answer, made: Made) -> Option<Array> {
    let rows = answer.count(made.word(0));
    Some(Array::Null(answer.value(NullArray::try_new(made.dtype(answer), rows))?))
}

/// An array of numbers, where the word names their width.
fn of_width(answer: &Answer, name: &str, made: Made) -> Option<Array> {
    match name {
        "i8" => Some(Array::Int8(of_numbers(answer, made)?)),
        "i16" => Some(Array::Int16(of_numbers(answer, made)?)),
        "i32" => Some(Array::Int32(of_numbers(answer, made)?)),
        "i64" => Some(Array::Int64(of_numbers(answer, made)?)),
        "i128" => Some(Array::Int128(of_numbers(answer, made)?)),
        "u8" => Some(Array::UInt8(of_numbers(answer, made)?)),
        "u16" => Some(Array::UInt16(of_numbers(answer, made)?)),
        "u32" => Some(Array::UInt32(of_numbers(answer, made)?)),
        "u64" => Some(Array::UInt64(of_numbers(answer, made)?)),
        "days" => Some(Array::DaysMs(of_numbers(answer, made)?)),
        "months" => Some(Array::MonthsDaysNs(of_numbers(answer, made)?)),
        _ => None,
    }
}

/// An array without children.
pub(crate) fn leaf(answer: &Answer, name: &str, made: Made) -> Option<Array> {
    match name {
        "nulls" => nulls(answer, made),
        "bits" => of_bits(answer, made),
        "bytes" => of_bytes(answer, made),
        "strings" => Some(Array::Binary(between::<i32, ByteRows>(answer, made)?)),
        "large_strings" => Some(Array::LargeBinary(between::<i64, ByteRows>(answer, made)?)),
        "texts" => Some(Array::Utf8(between::<i32, TextRows>(answer, made)?)),
        "large_texts" => Some(Array::LargeUtf8(between::<i64, TextRows>(answer, made)?)),
        "string_views" => Some(Array::BinaryView(views::<ByteRows>(answer, made)?)),
        "text_views" => Some(Array::Utf8View(views::<TextRows>(answer, made)?)),
        _ => of_width(answer, name, made),
    }
}

/// The array of `TYPE | PARTS`, with `valid BITS` behind them where it has a validity, or none, of which the answer has the reason.
/// Children are those that were made last, which it takes.
pub fn array_of(answer: &Answer, arrays: &mut Vec<Array>, words: &[&str]) -> Option<Array> {
    let (types, parts) = halves(words, "|");
    let (parts, valid) = halves(parts, "valid");
    let made = Made {
        types,
        words: rest(parts, 1),
        valid: valid.first().copied(),
    };
    let array = nested(answer, word(parts, 0), made, arrays);
    if array.is_none() {
        answer.refuse();
    }
    array
}
