//! Tables and their slots.
ghost use Rattle.std.specs.Prelude.{◌≡◌, ℕ, ◌+◌, ◌*◌, ◌^◌, ◌<◌, ◌≤◌, length, IfOk, OnOk, IfSome};
ghost use Rattle.std.specs.Option.{option_copied};
ghost use Rattle.std.specs.Int.{w8, w16, w32, w64};
ghost use Rattle.arrow_spec.specs.Flat.{Table as TableParts, table_at, root, slot, slot_unsigned, slot_signed, slot_table, slot_text, slot_vector};
ghost use Rattle.arrow_flat.specs.Read.{Gives, table_of, vector_of, slot_bool_or, slot_is_present, width_of, slot_choice};

use crate::number::{u8_at, u16_at, u32_at, u64_at};
use crate::vector::{Vector, target, text_at, vector_at};
use arrow_spec::FlatError;
use std::marker::Model;

/// A flatbuffer, whose first four bytes lead to its root table.
pub struct Flat;

impl Flat {
    /// The root table of the bytes.
    ///
    /// # Errors
    ///
    /// `Range` where the root's place, the table's first four bytes or its vtable's size pass the end of the bytes,
    /// or where the vtable's size is below 4.
    #[tactic(auto, unfolding(arrow_spec::specs::Readings::bind, arrow_spec::specs::Flat::root))]
    pub fn root(bytes: &[u8]) -> Result<Table<'_>, FlatError>
        ensures table { Gives (λ t. t.table) result (root bytes.now) }
        ensures bytes { IfOk result (λ t. t.bytes ≡ bytes.now) }
    {
        let place = u32_at(bytes, 0)? as usize;
        table_at(bytes, place)
    }
}

/// A table, by its place and that of its vtable among all the bytes.
#[derive(Drop)]
pub struct Table<'a> {
    bytes: &'a [u8],
    place: usize,
    vtable: usize,
    size: usize,
}

impl<'a> Model for Table<'a> {
    ghost use Rattle.std.specs.Prelude.{◌+◌, ◌≤◌, ◌<◌, ◌^◌, length};
    ghost use Rattle.arrow_flat.specs.Read.{TableIn};

    ghost Value = { TableIn };

    ghost view = { λ t. record { bytes = t.bytes.now; table = record { place = t.place; vtable = t.vtable; size = t.size } } };

    ghost invariant = { λ t. (t.place + 4 ≤ length t.bytes.now) × (t.vtable + 2 ≤ length t.bytes.now) × (4 ≤ t.size) × (t.size < 2 ^ 16) };
}

/// The table at a place.
#[tactic(auto, unfolding(arrow_spec::specs::Readings::bind, arrow_spec::specs::Flat::table_at))]
pub fn table_at(bytes: &[u8], place: usize) -> Result<Table<'_>, FlatError>
    ensures table { Gives (λ t. t.table) result (table_at bytes.now place) }
    ensures bytes { IfOk result (λ t. t.bytes ≡ bytes.now) }
{
    let back = u32_at(bytes, place)?.cast_signed();
    let vtable = if back < 0 {
        place + back.unsigned_abs() as usize
    } else if place < back as usize {
        return Err(FlatError::Range);
    } else {
        place - back as usize
    };
    let size = usize::from(u16_at(bytes, vtable)?);
    if size < 4 {
        return Err(FlatError::Range);
    }
    Ok(Table {
        bytes,
        place,
        vtable,
        size,
    })
}

impl<'a> Table<'a> {
    /// Where the value of a slot stands, if it is present.
    #[tactic(auto, unfolding(arrow_spec::specs::Readings::bind, arrow_spec::specs::Flat::slot))]
    fn place_of_slot(&self, i: usize) -> Result<Option<usize>, FlatError>
        ensures { result ≡ slot self.now.bytes self.now.table i }
    {
        if (self.size - 4) / 2 <= i {
            return Ok(None);
        }
        let offset = usize::from(u16_at(self.bytes, self.vtable + 4 + 2 * i)?);
        if offset == 0 {
            return Ok(None);
        }
        Ok(Some(self.place + offset))
    }

    /// Whether a slot is present.
    ///
    /// # Errors
    ///
    /// `Range` where the slot's entry in the vtable passes the end of the bytes.
    #[tactic(auto, unfolding(arrow_spec::specs::Readings::bind))]
    pub fn has_slot(&self, slot: usize) -> Result<bool, FlatError>
        ensures { result ≡ slot_is_present self.now.bytes self.now.table slot }
    {
        Ok(self.place_of_slot(slot)?.is_some())
    }

    /// An unsigned 8 bit slot, or the default where it is absent.
    #[tactic(auto, unfolding(arrow_spec::specs::Readings::bind))]
    pub fn slot_u8(&self, slot: usize, default: u8) -> Result<u8, FlatError>
        ensures { result ≡ slot_unsigned w8 default self.now.bytes self.now.table slot }
    {
        match self.place_of_slot(slot)? {
            None => Ok(default),
            Some(at) => u8_at(self.bytes, at),
        }
    }

    /// A signed 8 bit slot, or the default where it is absent.
    #[tactic(auto, unfolding(arrow_spec::specs::Readings::bind))]
    pub fn slot_i8(&self, slot: usize, default: i8) -> Result<i8, FlatError>
        ensures { result ≡ slot_signed w8 default self.now.bytes self.now.table slot }
    {
        match self.place_of_slot(slot)? {
            None => Ok(default),
            Some(at) => Ok(u8_at(self.bytes, at)?.cast_signed()),
        }
    }

    /// A signed 16 bit slot, or the default where it is absent.
    #[tactic(auto, unfolding(arrow_spec::specs::Readings::bind))]
    pub fn slot_i16(&self, slot: usize, default: i16) -> Result<i16, FlatError>
        ensures { result ≡ slot_signed w16 default self.now.bytes self.now.table slot }
    {
        match self.place_of_slot(slot)? {
            None => Ok(default),
            Some(at) => Ok(u16_at(self.bytes, at)?.cast_signed()),
        }
    }

    /// A signed 32 bit slot, or the default where it is absent.
    #[tactic(auto, unfolding(arrow_spec::specs::Readings::bind))]
    pub fn slot_i32(&self, slot: usize, default: i32) -> Result<i32, FlatError>
        ensures { result ≡ slot_signed w32 default self.now.bytes self.now.table slot }
    {
        match self.place_of_slot(slot)? {
            None => Ok(default),
            Some(at) => Ok(u32_at(self.bytes, at)?.cast_signed()),
        }
    }

    /// A signed 64 bit slot, or the default where it is absent.
    #[tactic(auto, unfolding(arrow_spec::specs::Readings::bind))]
    pub fn slot_i64(&self, slot: usize, default: i64) -> Result<i64, FlatError>
        ensures { result ≡ slot_signed w64 default self.now.bytes self.now.table slot }
    {
        match self.place_of_slot(slot)? {
            None => Ok(default),
            Some(at) => Ok(u64_at(self.bytes, at)?.cast_signed()),
        }
    }

    /// A truth value, or the default where the slot is absent. Any byte but 0 is true.
    #[tactic(auto, unfolding(arrow_spec::specs::Readings::bind))]
    pub fn slot_bool(&self, slot: usize, default: bool) -> Result<bool, FlatError>
        ensures { result ≡ slot_bool_or default self.now.bytes self.now.table slot }
    {
        match self.place_of_slot(slot)? {
            None => Ok(default),
            Some(at) => Ok(u8_at(self.bytes, at)? != 0),
        }
    }

    #[tactic(auto, unfolding(arrow_spec::specs::Readings::bind))]
    fn slot_choice_number(
        &self,
        slot: usize,
        width: ChoiceWidth,
        default: u16,
    ) -> Result<u16, FlatError>
        ensures { result ≡ slot_unsigned (width_of width) default self.now.bytes self.now.table slot }
    {
        match self.place_of_slot(slot)? {
            None => Ok(default),
            Some(at) => match width {
                ChoiceWidth::One => Ok(u16::from(u8_at(self.bytes, at)?)),
                ChoiceWidth::Two => u16_at(self.bytes, at),
            },
        }
    }

    /// One of `count` choices: their numbers begin at 0, and take one byte or two.
    ///
    /// # Errors
    ///
    /// `Number` where the number is not below the count, `Range` where it passes the end of the bytes.
    #[tactic(auto, unfolding(arrow_spec::specs::Readings::bind))]
    pub fn slot_choice(
        &self,
        slot: usize,
        width: ChoiceWidth,
        default: u16,
        count: u16,
    ) -> Result<u16, FlatError>
        ensures { result ≡ slot_choice (width_of width) default count self.now.bytes self.now.table slot }
    {
        let number = self.slot_choice_number(slot, width, default)?;
        if number >= count {
            return Err(FlatError::Number);
        }
        Ok(number)
    }

    /// A text: a byte vector that has to be UTF-8.
    #[tactic(auto, unfolding(arrow_spec::specs::Readings::bind))]
    pub fn slot_text(&self, slot: usize) -> Result<Option<&'a str>, FlatError>
        ensures { Gives option_copied result (slot_text self.now.bytes self.now.table slot) }
    {
        match self.place_of_slot(slot)? {
            None => Ok(None),
            Some(at) => Ok(Some(text_at(self.bytes, at)?)),
        }
    }

    /// The table to which a slot leads.
    #[tactic(auto, unfolding(arrow_spec::specs::Readings::bind))]
    pub fn slot_table(&self, slot: usize) -> Result<Option<Table<'a>>, FlatError>
        ensures table { Gives table_of result (slot_table self.now.bytes self.now.table slot) }
        ensures bytes { IfOk result (λ o. IfSome o (λ t. t.bytes ≡ self.now.bytes)) }
    {
        match self.place_of_slot(slot)? {
            None => Ok(None),
            Some(at) => {
                let place = target(self.bytes, at)?;
                Ok(Some(table_at(self.bytes, place)?))
            }
        }
    }

    /// The vector to which a slot leads, of items of so many bytes.
    #[tactic(auto, unfolding(arrow_spec::specs::Readings::bind))]
    pub fn slot_vector(&self, slot: usize, width: usize) -> Result<Option<Vector<'a>>, FlatError>
        ensures vector { Gives vector_of result (slot_vector width self.now.bytes self.now.table slot) }
        ensures bytes { IfOk result (λ o. IfSome o (λ v. (v.bytes ≡ self.now.bytes) × (v.width ≡ width))) }
    {
        match self.place_of_slot(slot)? {
            None => Ok(None),
            Some(at) => Ok(Some(vector_at(self.bytes, at, width)?)),
        }
    }
}

/// How many bytes a choice takes.
#[derive(Clone, Copy, Debug, PartialEq, Eq)]
pub enum ChoiceWidth {
    /// One byte.
    One,
    /// Two bytes.
    Two,
}
