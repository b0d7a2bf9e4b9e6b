//! Dictionaries of texts, made of their rows (Arrow Columnar Format, "Dictionary-encoded Layout").
ghost use Rattle.std.specs.Prelude.{◌≡◌, ℕ, ◌<◌, length, pos, get_or, [], None, IfOk, IfErr, true, false};
ghost use Rattle.arrow_spec.specs.Kinds.{utf8, small};
ghost use Rattle.arrow_types.specs.KindOf.{kind_of};
ghost use Rattle.arrow_buffers.specs.declared.error.ArrayError.TheVariants.{Memory};
ghost use Rattle.arrow_buffers.specs.Variable.{variable_rows};
ghost use Rattle.arrow_arrays.specs.Heads.{have_keys};
ghost use Rattle.arrow_arrays.specs.LeafParts.{text};
ghost use Rattle.arrow_arrays.specs.Parts.{leaf, none, also};
ghost use Rattle.arrow_columns.specs.Strings.{strings, bytes_each};
ghost use Rattle.arrow_columns.specs.Dictionary.{with_text, distinct_texts, texts_kind, keyed_by, SaysText, RefusesKey, RefusesTexts};

use crate::strings::texts;
use arrow_arrays::{Array, DictionaryArray, DictionaryKeys};
use arrow_buffers::{ArrayError, PrimitiveArray, Utf8Array};
use arrow_spec::IntegerType;
use arrow_types::{ArrowDataType, Offset};
use indexmap::IndexSet;
use std::alloc::{AllocError, Global};

/// The key of a text: its place among those that came, which it takes behind them where it is none of them.
fn key_of<'a>(came: &mut IndexSet<&'a str>, row: &'a str) -> Result<i32, ArrayError>
    ensures came { IfOk result (λ _. came.new.keys ≡ with_text came.old.keys row.entry) }
    ensures key { IfOk result (λ k. SaysText came.new.keys k row.now) }
    ensures err { IfErr result (λ e. RefusesKey (length (with_text came.old.keys row.entry)) e) }
{
    let (place, _) = came.insert_full(row)?;
    match i32::from_usize(place) {
        Some(key) => Ok(key),
        None => Err(ArrayError::Key),
    }
}

/// The type of dictionaries of texts.
fn type_of_texts(alloc: Global) -> Result<ArrowDataType, AllocError>
    ensures { IfOk result (λ t. kind_of t ≡ texts_kind) }
{
    let values = Box::new(alloc, ArrowDataType::Utf8)?;
    Ok(ArrowDataType::Dictionary(IntegerType::Int32, values, false))
}

/// The array of these keys into these texts.
fn keyed(alloc: Global, keys: &[i32], values: Utf8Array<i32>) -> Result<DictionaryArray, ArrayError>
    requires kind { values.kind ≡ utf8 small }
    requires keys { have_keys (variable_rows values.offsets) keys.now None ≡ true }
    ensures ok { IfOk result (λ a. a ≡ record { head = keyed_by keys.now; children = also (leaf (text values)) none }) }
    ensures err { IfErr result (λ e. e ≡ Memory) }
{
    let rows = DictionaryKeys::Int32(PrimitiveArray::from_slice(alloc, keys)?);
    let dtype = type_of_texts(alloc)?;
    let values = Array::Utf8(values);
    let _held = values.len();
    DictionaryArray::try_new(alloc, dtype, rows, values)
}

/// The array of these texts by keys of 32 bits, none of them null: its values are the distinct texts, in the order in which they
/// first come. Each row costs one look-up by its hash. `Offsets` where the distinct texts have 2 GiB or more in all, `Key` where
/// they are 2^31 or more; no other error but `Memory`.
pub fn dictionary_of_texts(alloc: Global, rows: &[&str]) -> Result<DictionaryArray, ArrayError>
    ensures parts { IfOk result (λ a. a ≡ record { head = keyed_by a.head.keys; children = also (leaf (text (strings true false (bytes_each (distinct_texts rows.now)) None))) none }) }
    ensures rows { IfOk result (λ a. length a.head.keys ≡ length rows.now) }
    ensures each { IfOk result (λ a. (i : ℕ) → i < length rows.now → SaysText (distinct_texts rows.now) (get_or a.head.keys i (pos 0)) (get_or (bytes_each rows.now) i [])) }
    ensures err { IfErr result (λ e. RefusesTexts (distinct_texts rows.now) e) }
{
    let mut came: IndexSet<&str> = IndexSet::new(alloc);
    let mut keys: Vec<i32> = Vec::new(alloc);
    for row in rows {
        let key = key_of(&mut came, row)?;
        keys.push(key)?;
    }
    let values = texts::<i32>(alloc, came.as_slice())?;
    keyed(alloc, keys.as_slice(), values)
}
