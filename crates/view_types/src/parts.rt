//! What a view is made of, its children aside.
ghost use Rattle.std.specs.Prelude.{◌≡◌, ◌+◌, ◌*◌, ◌/◌, ◌≤◌, ◌<◌, IfOk, IfSome, drop, length, not, pos, suc, take};
ghost use Rattle.std.specs.Int.{w32, w64};
ghost use Rattle.view_types.specs.Ranges.{Lies};
ghost use Rattle.view_types.specs.Sound.{AreRanges, Between, HasBits, LeadsIn, Values};
ghost use Rattle.view_types.specs.Tops.{top_in};
ghost use Rattle.view_types.specs.Views.{part_in, is_set, bits_in, offset_bytes, offset_in, part_of_row, row_of, view_in, viewed, viewed_place};

use crate::layout::{Layout, Range};
use crate::numbers::{i32_at, i64_at, is_bit_set, offset_at, u32_at};
use std::alloc::{AllocError, Global};

/// The ranges of an array in the input, its children aside.
#[derive(Drop)]
pub struct ViewParts<'a> {
    /// The whole input: places are places in it.
    pub input: &'a [u8],
    /// Whether numbers stand with their highest byte first.
    pub is_big_endian: bool,
    /// How the rows stand in the ranges.
    pub layout: Layout,
    /// How many rows there are.
    pub rows: usize,
    /// The ids of a union's children.
    pub ids: Vec<i32>,
    /// A bit for each row, where rows may be null.
    pub validity: Option<Range>,
    /// Bits, numbers, offsets, views, types or keys.
    pub first: Range,
    /// The bytes between offsets, or the offsets of a dense union.
    pub second: Range,
    /// The bytes to which views lead.
    pub buffers: Vec<Range>,
}

/// The bytes of a range.
pub fn part_of<'a>(input: &'a [u8], range: Range) -> &'a [u8]
    requires { range.at + range.length ≤ length input.now }
    ensures part { result.now ≡ part_in input.now range }
    ensures size { length result.now ≡ range.length }
{
    &input[range.at..range.at + range.length]
}

impl<'a> ViewParts<'a> {
    /// The same ranges once more.
    pub(crate) fn try_clone(&self, alloc: Global) -> Result<ViewParts<'a>, AllocError>
        ensures { IfOk result (λ p. top_in p ≡ top_in self.now) }
    {
        let mut ids = Vec::new(alloc);
        ids.extend_from_slice(self.ids.as_slice())?;
        let mut buffers = Vec::new(alloc);
        buffers.extend_from_slice(self.buffers.as_slice())?;
        Ok(ViewParts {
            input: self.input,
            is_big_endian: self.is_big_endian,
            layout: self.layout,
            rows: self.rows,
            ids,
            validity: self.validity,
            first: self.first,
            second: self.second,
            buffers,
        })
    }

    /// The bytes of the first range.
    pub fn first_part(&self) -> &'a [u8]
        requires { Lies self.now.input.now self.now.first }
        ensures part { result.now ≡ part_in self.now.input.now self.now.first }
        ensures size { length result.now ≡ self.now.first.length }
    {
        part_of(self.input, self.first)
    }

    /// Whether a row is null by the validity.
    pub fn is_unset(&self, row: usize) -> bool
        requires { IfSome self.now.validity (λ r. Lies self.now.input.now r × (row < 8 * r.length)) }
        ensures { result ≡ not (is_set (bits_in self.now.input.now self.now.validity) row) }
    {
        match self.validity {
            None => false,
            Some(range) => !is_bit_set(part_of(self.input, range), row),
        }
    }

    /// The place of the byte that holds a row's bit.
    pub(crate) fn bit_place(&self, row: usize) -> usize
        requires bits { HasBits (top_in self.now) self.now.first }
        requires row { row < self.now.rows }
        ensures { result ≡ self.now.first.at + row / 8 }
    {
        let _end = self.input.len();
        self.first.at + row / 8
    }

    /// The offsets between which a row stands.
    pub(crate) fn offsets(&self, row: usize, is_large: bool) -> (usize, usize)
        requires lies { Lies self.now.input.now self.now.first }
        requires room { offset_bytes is_large * (row + 2) ≤ self.now.first.length }
        ensures from { result.0 ≡ offset_in (top_in self.now) is_large row }
        ensures to { result.1 ≡ offset_in (top_in self.now) is_large (suc row) }
    {
        let offsets = self.first_part();
        let from = offset_at(offsets, row, is_large, self.is_big_endian);
        (
            from,
            offset_at(offsets, row + 1, is_large, self.is_big_endian),
        )
    }

    /// Where the bytes of a row between two offsets stand.
    pub(crate) fn between(&self, row: usize, is_large: bool) -> Range
        requires offsets { Lies self.now.input.now self.now.first }
        requires values { Lies self.now.input.now self.now.second }
        requires row { Between (top_in self.now) is_large self.now.second.length row }
        ensures lies { Lies self.now.input.now result }
        ensures bytes { part_in self.now.input.now result ≡ row_of (top_in self.now) is_large row }
        ensures place { result.at ≡ self.now.second.at + offset_in (top_in self.now) is_large row }
    {
        let (from, to) = self.offsets(row, is_large);
        Range {
            at: self.second.at + from,
            length: to - from,
        }
    }

    /// Where the bytes of a row stand that has so many, as each row has.
    pub(crate) fn fixed(&self, row: usize, size: usize) -> Range
        requires values { Values (top_in self.now) size }
        requires row { row < self.now.rows }
        ensures lies { Lies self.now.input.now result }
        ensures bytes { part_in self.now.input.now result ≡ take size (drop (size * row) (part_in self.now.input.now self.now.first)) }
        ensures place { result.at ≡ self.now.first.at + size * row }
    {
        let _end = self.input.len();
        Range {
            at: self.first.at + size * row,
            length: size,
        }
    }

    /// The view of a row.
    pub fn view(&self, row: usize) -> &'a [u8]
        requires views { Values (top_in self.now) 16 }
        requires row { row < self.now.rows }
        ensures view { result.now ≡ view_in (top_in self.now) row }
        ensures size { length result.now ≡ 16 }
    {
        &self.first_part()[16 * row..16 * row + 16]
    }

    /// Where the bytes of a row behind a view stand: in the view itself up to 12, else in a buffer.
    pub(crate) fn viewed(&self, row: usize) -> Range
        requires views { Values (top_in self.now) 16 }
        requires row { row < self.now.rows }
        requires buffers { AreRanges self.now.input.now self.now.buffers.items }
        requires leads { LeadsIn (top_in self.now) row }
        ensures lies { Lies self.now.input.now result }
        ensures bytes { part_in self.now.input.now result ≡ viewed (top_in self.now) (view_in (top_in self.now) row) }
        ensures place { result.at ≡ viewed_place (top_in self.now) row }
    {
        let view = self.view(row);
        let length = u32_at(view, 0, false) as usize;
        if length <= 12 {
            return Range {
                at: self.first.at + 16 * row + 4,
                length,
            };
        }
        let buffer = self.buffers[u32_at(view, 8, false) as usize];
        Range {
            at: buffer.at + u32_at(view, 12, false) as usize,
            length,
        }
    }

    /// The days and milliseconds of a row, and 0.
    pub(crate) fn day_time(&self, row: usize) -> (i32, i32, i64)
        requires values { Values (top_in self.now) 8 }
        requires row { row < self.now.rows }
        ensures days { result.0 ≡ part_of_row (top_in self.now) 8 0 w32 row }
        ensures milliseconds { result.1 ≡ part_of_row (top_in self.now) 8 4 w32 row }
        ensures none { result.2 ≡ pos 0 }
    {
        let bytes = self.first_part();
        let days = i32_at(bytes, 8 * row, self.is_big_endian);
        (days, i32_at(bytes, 8 * row + 4, self.is_big_endian), 0)
    }

    /// The months, days and nanoseconds of a row.
    pub(crate) fn month_day_nano(&self, row: usize) -> (i32, i32, i64)
        requires values { Values (top_in self.now) 16 }
        requires row { row < self.now.rows }
        ensures months { result.0 ≡ part_of_row (top_in self.now) 16 0 w32 row }
        ensures days { result.1 ≡ part_of_row (top_in self.now) 16 4 w32 row }
        ensures nanoseconds { result.2 ≡ part_of_row (top_in self.now) 16 8 w64 row }
    {
        let bytes = self.first_part();
        let months = i32_at(bytes, 16 * row, self.is_big_endian);
        let days = i32_at(bytes, 16 * row + 4, self.is_big_endian);
        (
            months,
            days,
            i64_at(bytes, 16 * row + 8, self.is_big_endian),
        )
    }
}
