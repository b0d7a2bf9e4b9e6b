//! Vectors and texts.
ghost use Rattle.std.specs.Prelude.{◌≡◌, ℕ, ◌+◌, ◌*◌, ◌^◌, ◌<◌, ◌≤◌, length, IfOk, OnOk, IsTrue, ◌↔◌, ◌==◌, if◌then◌else◌, Ok, Err};
ghost use Rattle.std.specs.Str.{is_utf8};
ghost use Rattle.arrow_spec.specs.Flat.{items, text, target};
ghost use Rattle.arrow_spec.specs.declared.error.FlatError.TheVariants.{Utf8};
ghost use Rattle.arrow_flat.specs.Read.{Gives, item, item_table};

use crate::number::u32_at;
use crate::table::{Table, table_at};
use arrow_spec::FlatError;
use std::marker::Model;

/// Items of one width, side by side.
#[derive(Drop)]
pub struct Vector<'a> {
    bytes: &'a [u8],
    first: usize,
    count: usize,
    width: usize,
}

impl<'a> Model for Vector<'a> {
    ghost use Rattle.std.specs.Prelude.{◌+◌, ◌*◌, ◌≤◌, ◌<◌, ◌^◌, length};
    ghost use Rattle.arrow_flat.specs.Read.{VectorIn};

    ghost Value = { VectorIn };

    ghost view = { λ v. record { bytes = v.bytes.now; vector = record { first = v.first; count = v.count }; width = v.width } };

    ghost invariant = { λ v. v.first + v.count * v.width ≤ length v.bytes.now };
}

/// Where an offset leads.
#[tactic(auto, unfolding(arrow_spec::specs::Readings::bind))]
pub fn target(bytes: &[u8], at: usize) -> Result<usize, FlatError>
    ensures value { result ≡ target bytes.now at }
    ensures within { OnOk result (at + 4 ≤ length bytes.now) }
{
    Ok(at + u32_at(bytes, at)? as usize)
}

/// The vector to which the offset at a place leads.
#[tactic(auto, unfolding(arrow_spec::specs::Readings::bind, arrow_spec::specs::Flat::items))]
pub fn vector_at(bytes: &[u8], at: usize, width: usize) -> Result<Vector<'_>, FlatError>
    ensures vector { Gives (λ v. v.vector) result (items bytes.now at width) }
    ensures bytes { IfOk result (λ v. (v.bytes ≡ bytes.now) × (v.width ≡ width)) }
{
    let place = target(bytes, at)?;
    let count = u32_at(bytes, place)? as usize;
    let first = place + 4;
    match count.checked_mul(width) {
        Some(size) if size <= bytes.len() - first => Ok(Vector {
            bytes,
            first,
            count,
            width,
        }),
        _ => Err(FlatError::Range),
    }
}

#[tactic(auto, using(crate::proofs::Texts::texts))]
fn checked_text(bytes: &[u8]) -> Result<&str, FlatError>
    ensures { Gives (λ s. s.now) result (if is_utf8 bytes.now then Ok bytes.now else Err Utf8) }
{
    match simdutf8::basic::from_utf8(bytes) {
        Ok(text) => Ok(text),
        Err(_) => Err(FlatError::Utf8),
    }
}

/// The text to which the offset at a place leads.
#[tactic(auto, unfolding(arrow_spec::specs::Readings::bind, arrow_spec::specs::Flat::items, arrow_spec::specs::Flat::text))]
pub fn text_at(bytes: &[u8], at: usize) -> Result<&str, FlatError>
    ensures { Gives (λ s. s.now) result (text bytes.now at) }
{
    let vector = vector_at(bytes, at, 1)?;
    let (found, _) = bytes[vector.first..].split_at(vector.count);
    checked_text(found)
}

impl<'a> Vector<'a> {
    /// How many items there are.
    pub fn len(&self) -> usize
        ensures { result ≡ self.now.vector.count }
    {
        self.count
    }

    /// Whether there are no items.
    pub fn is_empty(&self) -> bool
        ensures { result ≡ (self.now.vector.count == 0) }
    {
        self.count == 0
    }

    /// The bytes of an item.
    pub fn get(&self, i: usize) -> &'a [u8]
        requires { i < self.now.vector.count }
        ensures bytes { result.now ≡ item self.now i }
        ensures len { length result.now ≡ self.now.width }
        ensures within { self.now.vector.first + i * self.now.width + self.now.width ≤ length self.now.bytes }
    {
        let (found, _) = self.bytes[self.first + i * self.width..].split_at(self.width);
        found
    }

    /// The table to which an item leads, as an offset from the item's own place.
    #[tactic(auto, unfolding(arrow_spec::specs::Readings::bind))]
    pub fn get_table(&self, i: usize) -> Result<Table<'a>, FlatError>
        requires { i < self.now.vector.count }
        ensures table { Gives (λ t. t.table) result (item_table self.now i) }
        ensures bytes { IfOk result (λ t. t.bytes ≡ self.now.bytes) }
    {
        let place = target(self.bytes, self.first + i * self.width)?;
        table_at(self.bytes, place)
    }
}
