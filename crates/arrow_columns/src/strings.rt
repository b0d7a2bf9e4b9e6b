//! Arrays of byte strings and of texts, made of their rows (Arrow Columnar Format, "Variable-size Binary Layout").
ghost use Rattle.std.specs.Prelude.{◌≡◌, ℕ, ◌++◌, ◌<◌, ◌&&◌, [], ◌∷◌, length, map, get_or, pos, None, IfOk, IfErr, true, false};
ghost use Rattle.std.specs.List.{concat};
ghost use Rattle.std.specs.Str.{is_utf8};
ghost use Rattle.arrow_types.specs.KindOf.{kind_of};
ghost use Rattle.arrow_types.specs.Physical.{physical_of};
ghost use Rattle.arrow_buffers.specs.Rows.{has_rows};
ghost use Rattle.arrow_buffers.specs.Layouts.{is_variable};
ghost use Rattle.arrow_buffers.specs.Variable.{are_offsets, has_bad_text, row_bytes, variable_rows};
ghost use Rattle.arrow_buffers.specs.declared.error.ArrayError.TheVariants.{Memory};
ghost use Rattle.arrow_columns.specs.Strings.{bytes_each, strings_kind, strings, RefusesBytes};

use arrow_buffers::{
    ArrayError, BinaryArray, Bitmap, Buffer, ByteRows, TextRows, Utf8Array, VariableArray, ViewType,
};
use arrow_types::{ArrowDataType, Offset};
use std::alloc::Global;

/// The type of byte strings or of texts between offsets.
fn type_of(is_text: bool, is_large: bool) -> ArrowDataType
    ensures kind { kind_of result ≡ strings_kind is_text is_large }
    ensures suits { is_variable is_text is_large (physical_of (kind_of result)) ≡ true }
{
    match (is_text, is_large) {
        (false, false) => ArrowDataType::Binary,
        (false, true) => ArrowDataType::LargeBinary,
        (true, false) => ArrowDataType::Utf8,
        (true, true) => ArrowDataType::LargeUtf8,
    }
}

/// Puts the place where a row ends behind the others.
pub(crate) fn push_end<O: Offset>(offsets: &mut Vec<O>, end: usize) -> Result<(), ArrayError>
    ensures pushed { IfOk result (λ _. map O.number offsets.new.items ≡ map O.number offsets.old.items ++ pos end ∷ []) }
    ensures fits { IfOk result (λ _. end < O.limit) }
    ensures err { IfErr result (λ e. RefusesBytes O.limit end e) }
{
    let Some(offset) = O::from_usize(end) else {
        return Err(ArrayError::Offsets);
    };
    offsets.push(offset)?;
    Ok(())
}

/// Puts a row behind the others.
pub(crate) fn push_row<O: Offset>(
    offsets: &mut Vec<O>,
    values: &mut Vec<u8>,
    row: &[u8],
) -> Result<(), ArrayError>
    ensures bytes { IfOk result (λ _. values.new.items ≡ values.old.items ++ row.now) }
    ensures pushed { IfOk result (λ _. map O.number offsets.new.items ≡ map O.number offsets.old.items ++ pos (length (values.old.items ++ row.now)) ∷ []) }
    ensures fits { IfOk result (λ _. length (values.old.items ++ row.now) < O.limit) }
    ensures err { IfErr result (λ e. RefusesBytes O.limit (length (values.old.items ++ row.now)) e) }
{
    values.extend_from_slice(row)?;
    push_end(offsets, values.len())
}

/// The array of these offsets, bytes and bits.
pub(crate) fn strings_of<O: Offset, V: ViewType>(
    offsets: Vec<O>,
    values: Vec<u8>,
    validity: Option<Bitmap>,
) -> Result<VariableArray<O, V>, ArrayError>
    requires rows { has_rows validity (variable_rows (map O.number offsets.items)) ≡ true }
    requires rise { are_offsets (map O.number offsets.items) (length values.items) ≡ true }
    requires texts { (V.IS_TEXT && has_bad_text (map O.number offsets.items) values.items validity) ≡ false }
    ensures ok { IfOk result (λ a. a ≡ record { kind = strings_kind V.IS_TEXT O.IS_LARGE; offsets = map O.number offsets.items; values = values.items; validity = validity }) }
    ensures err { IfErr result (λ e. e ≡ Memory) }
{
    let offsets = Buffer::from_vec(offsets)?;
    let values = Buffer::from_bytes(values)?;
    VariableArray::try_new(type_of(V::IS_TEXT, O::IS_LARGE), offsets, values, validity)
}

/// The array of these byte strings, none of them null. `Offsets` where they have as many bytes in all as no offset says,
/// which are 2 GiB for offsets of 32 bits; no other error but `Memory`.
pub fn byte_strings<O: Offset>(alloc: Global, rows: &[&[u8]]) -> Result<BinaryArray<O>, ArrayError>
    ensures ok { IfOk result (λ a. a ≡ strings false O.IS_LARGE (bytes_each rows.now) None) }
    ensures each { IfOk result (λ a. (i : ℕ) → i < length rows.now → row_bytes a.offsets a.values i ≡ get_or (bytes_each rows.now) i []) }
    ensures fits { IfOk result (λ _. length (concat (bytes_each rows.now)) < O.limit) }
    ensures err { IfErr result (λ e. RefusesBytes O.limit (length (concat (bytes_each rows.now))) e) }
{
    let mut offsets: Vec<O> = Vec::new(alloc);
    let mut values = Vec::new(alloc);
    push_end(&mut offsets, 0)?;
    for row in rows {
        push_row(&mut offsets, &mut values, row)?;
    }
    strings_of::<O, ByteRows>(offsets, values, None)
}

/// The bytes of a text.
pub(crate) fn bytes_of(text: &str) -> &[u8]
    ensures bytes { result.now ≡ text.now }
    ensures text { is_utf8 text.now ≡ true }
{
    text.as_bytes()
}

/// The array of these texts, none of them null. `Offsets` where they have as many bytes in all as no offset says,
/// which are 2 GiB for offsets of 32 bits; no other error but `Memory`.
pub fn texts<O: Offset>(alloc: Global, rows: &[&str]) -> Result<Utf8Array<O>, ArrayError>
    ensures ok { IfOk result (λ a. a ≡ strings true O.IS_LARGE (bytes_each rows.now) None) }
    ensures each { IfOk result (λ a. (i : ℕ) → i < length rows.now → row_bytes a.offsets a.values i ≡ get_or (bytes_each rows.now) i []) }
    ensures fits { IfOk result (λ _. length (concat (bytes_each rows.now)) < O.limit) }
    ensures err { IfErr result (λ e. RefusesBytes O.limit (length (concat (bytes_each rows.now))) e) }
{
    let mut offsets: Vec<O> = Vec::new(alloc);
    let mut values = Vec::new(alloc);
    push_end(&mut offsets, 0)?;
    for row in rows {
        push_row(&mut offsets, &mut values, bytes_of(row))?;
    }
    strings_of::<O, TextRows>(offsets, values, None)
}
