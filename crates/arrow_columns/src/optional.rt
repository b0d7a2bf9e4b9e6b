//! Arrays made of rows of which some are null (Arrow Columnar Format, "Validity bitmaps").
ghost use Rattle.std.specs.Prelude.{◌≡◌, ℕ, ◌<◌, [], length, map, get_or, is_some, Some, IfOk, IfErr, true};
ghost use Rattle.std.specs.List.{concat};
ghost use Rattle.std.specs.Str.{is_utf8};
ghost use Rattle.arrow_buffers.specs.Layouts.{number_kind};
ghost use Rattle.arrow_buffers.specs.Variable.{row_bytes};
ghost use Rattle.arrow_buffers.specs.declared.error.ArrayError.TheVariants.{Memory};
ghost use Rattle.arrow_columns.specs.Strings.{strings, held_bytes, RefusesBytes};
ghost use Rattle.arrow_columns.specs.Optional.{zero_of, held_or};

use crate::strings::{bytes_of, push_end, push_row, strings_of};
use arrow_buffers::{ArrayError, Bitmap, PrimitiveArray, TextRows, Utf8Array};
use arrow_types::{NativeType, Offset};
use std::alloc::{AllocError, Global};

/// A bit for each row, 1 where the row is not null.
fn valid_rows<T: Copy>(alloc: Global, rows: &[Option<T>]) -> Result<Bitmap, AllocError>
    ensures { IfOk result (λ b. b ≡ map is_some rows.now) }
{
    let mut valid = Vec::new(alloc);
    for row in rows {
        valid.push(row.is_some())?;
    }
    Bitmap::from_slice(alloc, valid.as_slice())
}

/// The number whose bytes are all 0.
fn zero<T: NativeType>(alloc: Global) -> Result<T, AllocError>
    ensures { IfOk result (λ z. z ≡ zero_of T.read T.WIDTH) }
{
    let bytes: Vec<u8> = vec![in alloc; 0; T::WIDTH]?;
    Ok(T::from_le_bytes(bytes.as_slice()))
}

/// The number of a row, and another where the row is null.
fn number_or<T: NativeType>(row: Option<T>, other: T) -> T
    ensures { result ≡ held_or other row }
{
    match row {
        None => other,
        Some(number) => number,
    }
}

/// A number for each row, 0 where the row is null.
fn filled<T: NativeType>(alloc: Global, rows: &[Option<T>]) -> Result<Vec<T>, AllocError>
    ensures { IfOk result (λ v. v.items ≡ map (held_or (zero_of T.read T.WIDTH)) rows.now) }
{
    let other = zero::<T>(alloc)?;
    let mut numbers = Vec::new(alloc);
    for row in rows {
        numbers.push(number_or(*row, other))?;
    }
    Ok(numbers)
}

/// The array of these numbers, null where there is none; a null row holds 0.
pub fn optional_numbers<T: NativeType>(
    alloc: Global,
    rows: &[Option<T>],
) -> Result<PrimitiveArray<T>, ArrayError>
    ensures ok { IfOk result (λ a. a ≡ record { kind = number_kind T.PRIMITIVE; values = map (held_or (zero_of T.read T.WIDTH)) rows.now; validity = Some (map is_some rows.now) }) }
    ensures err { IfErr result (λ e. e ≡ Memory) }
{
    let validity = valid_rows(alloc, rows)?;
    let numbers = filled(alloc, rows)?;
    let array = PrimitiveArray::from_slice(alloc, numbers.as_slice())?;
    array.with_validity(Some(validity))
}

/// The bytes of a text, none where there is no text.
fn held(row: Option<&str>) -> &[u8]
    ensures bytes { result.now ≡ held_bytes row.entry }
    ensures text { is_utf8 (held_bytes row.entry) ≡ true }
{
    match row {
        None => bytes_of(""),
        Some(text) => bytes_of(text),
    }
}

/// The array of these texts, null where there is none; a null row holds no bytes. `Offsets` where they have as many bytes in all
/// as no offset says, which are 2 GiB for offsets of 32 bits; no other error but `Memory`.
pub fn optional_texts<O: Offset>(
    alloc: Global,
    rows: &[Option<&str>],
) -> Result<Utf8Array<O>, ArrayError>
    ensures ok { IfOk result (λ a. a ≡ strings true O.IS_LARGE (map held_bytes rows.now) (Some (map is_some rows.now))) }
    ensures each { IfOk result (λ a. (i : ℕ) → i < length rows.now → row_bytes a.offsets a.values i ≡ get_or (map held_bytes rows.now) i []) }
    ensures fits { IfOk result (λ _. length (concat (map held_bytes rows.now)) < O.limit) }
    ensures err { IfErr result (λ e. RefusesBytes O.limit (length (concat (map held_bytes rows.now))) e) }
{
    let validity = valid_rows(alloc, rows)?;
    let mut offsets: Vec<O> = Vec::new(alloc);
    let mut values = Vec::new(alloc);
    push_end(&mut offsets, 0)?;
    for row in rows {
        push_row(&mut offsets, &mut values, held(*row))?;
    }
    strings_of::<O, TextRows>(offsets, values, Some(validity))
}
