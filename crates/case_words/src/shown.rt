//! Answers as text.
ghost use Rattle.std.specs.Prelude.{◌≡◌};
ghost use Rattle.std.specs.Option.{option_map};
ghost use Rattle.arrow_buffers.specs.Rows.{is_valid};

use arrow_arrays::{Array, DictionaryArray};
use arrow_buffers::{Bitmap, PrimitiveArray};
use arrow_types::NativeType;
use case_types::Answer;
use hex::encode;
use std::convert::AsSlice;

/// How many rows there are, and how many of them are null.
pub fn say_counts(answer: &Answer, array: &Array) {
    let (rows, nulls) = (array.len(), array.null_count());
    answer.tell(format!(in answer.alloc(); "{rows} rows, {nulls} null"));
}

/// Bytes as hex digits; `-` where there are none.
pub fn say_bytes(answer: &Answer, bytes: &[u8]) {
    if bytes.is_empty() {
        answer.say("-");
    } else {
        answer.tell(encode(answer.alloc(), bytes));
    }
}

/// The bytes up to the last that is not zero.
pub(crate) fn front(bytes: &[u8]) -> &[u8] {
    match bytes.iter().rposition(|byte| *byte != 0) {
        Some(last) if last < bytes.len() => &bytes[..last + 1],
        _ => &[],
    }
}

/// Whether a row is valid: every row where there is no validity, or none of that row.
pub fn is_valid_at(validity: Option<&Bitmap>, row: usize) -> bool
    ensures { result ≡ is_valid (option_map (λ bits. bits.now) validity.entry) row }
{
    match validity {
        Some(bits) => row >= bits.len() || bits.get(row),
        None => true,
    }
}

fn say_number<T: NativeType>(answer: &Answer, array: &PrimitiveArray<T>, row: usize) {
    if row < array.len() {
        say_bytes(answer, array.value(row).to_be_bytes().as_slice());
    }
}

fn say_optional(answer: &Answer, bytes: Option<&[u8]>) {
    match bytes {
        Some(bytes) => say_bytes(answer, bytes),
        None => answer.say("none"),
    }
}

/// A row of bytes.
fn say_string(answer: &Answer, array: &Array, row: usize) {
    match array {
        Array::Binary(array) if row < array.len() => say_bytes(answer, array.value(row)),
        Array::LargeBinary(array) if row < array.len() => say_bytes(answer, array.value(row)),
        Array::Utf8(array) if row < array.len() => say_bytes(answer, array.value(row)),
        Array::LargeUtf8(array) if row < array.len() => say_bytes(answer, array.value(row)),
        Array::FixedSizeBinary(array) if row < array.len() => say_bytes(answer, array.value(row)),
        Array::BinaryView(array) if row < array.len() => say_optional(answer, array.value(row)),
        Array::Utf8View(array) if row < array.len() => say_optional(answer, array.value(row)),
        _ => {}
    }
}

/// The items between which a row stands, or the child and the row of it.
fn range_of(array: &Array, row: usize) -> Option<(usize, usize)> {
    match array {
        Array::List(array) if row < array.len() => Some(array.range(row)),
        Array::FixedSizeList(array) if row < array.len() => {
            let (from, count) = array.range(row);
            Some((from, from.wrapping_add(count)))
        }
        Array::Map(array) if row < array.len() => Some(array.range(row)),
        Array::Union(array) if row < array.len() => Some(array.index(row)),
        _ => None,
    }
}

/// A key, and the part and the row that it leads to.
fn say_key(answer: &Answer, array: &DictionaryArray, row: usize) {
    if row < array.len() && is_valid_at(array.validity(), row) {
        let (part, place) = array.index(row);
        let key = array.key_value(row);
        answer.tell(format!(in answer.alloc(); "{key}={part}:{place}"));
    }
}

/// A row of numbers of one width.
fn say_value(answer: &Answer, array: &Array, row: usize) {
    match array {
        Array::Boolean(array) if row < array.len() => {
            answer.say(if array.value(row) { "1" } else { "0" })
        }
        Array::Int8(array) => say_number(answer, array, row),
        Array::Int16(array) => say_number(answer, array, row),
        Array::Int32(array) => say_number(answer, array, row),
        Array::Int64(array) => say_number(answer, array, row),
        Array::Int128(array) => say_number(answer, array, row),
        Array::UInt8(array) => say_number(answer, array, row),
        Array::UInt16(array) => say_number(answer, array, row),
        Array::UInt32(array) => say_number(answer, array, row),
        Array::UInt64(array) => say_number(answer, array, row),
        Array::DaysMs(array) => say_number(answer, array, row),
        Array::MonthsDaysNs(array) => say_number(answer, array, row),
        _ => {}
    }
}

fn say_row(answer: &Answer, array: &Array, row: usize) {
    say_value(answer, array, row);
    say_string(answer, array, row);
    if let Array::Dictionary(array) = array {
        say_key(answer, array, row);
    }
    if let Some((from, to)) = range_of(array, row) {
        answer.tell(format!(in answer.alloc(); "{from}:{to}"));
    }
}

/// A row of an array by what its kind tells of it, or `null`.
pub fn say_one(answer: &Answer, array: &Array, row: usize) {
    if is_valid_at(array.validity(), row) {
        say_row(answer, array, row);
    } else {
        answer.say("null");
    }
}

/// The rows of an array, in order.
pub fn say_rows(answer: &Answer, array: &Array) {
    for row in 0..array.len() {
        answer.say(" ");
        say_one(answer, array, row);
    }
}

/// The same, also of what is held under rows that are null.
pub fn say_cells(answer: &Answer, array: &Array) {
    for row in 0..array.len() {
        answer.say(" ");
        say_row(answer, array, row);
    }
}

/// Bytes as hex digits, 64 bytes a line.
pub fn say_lines(answer: &Answer, bytes: &[u8]) {
    for (line, chunk) in bytes.chunks(64).enumerate() {
        if line > 0 {
            answer.say("\n");
        }
        say_bytes(answer, chunk);
    }
}
