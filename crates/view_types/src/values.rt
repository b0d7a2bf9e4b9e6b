//! What stands in the rows of arrays without children.
ghost use Rattle.std.specs.Prelude.{◌≡◌, true, length, take, drop};
ghost use Rattle.std.specs.Str.{is_utf8};
ghost use Rattle.arrow_spec.specs.Cells as cells;
ghost use Rattle.view_types.specs.Ranges.{Lies};
ghost use Rattle.view_types.specs.declared.layout.Layout.TheVariants.{Boolean};
ghost use Rattle.view_types.specs.Views.{top_of, part_in, cell_of, layout_of, is_number, is_interval, has_bytes, has_text, has_place, bytes_cell, place_of, input_of, number_there, interval_there, IsRow};

use crate::layout::{Layout, Range};
use crate::numbers::{integer_at, is_bit_set, width_of};
use crate::parts::part_of;
use crate::view::ArrayView;
use std::str::from_utf8_unchecked;

impl<'a> ArrayView<'a> {
    /// The truth value of a row.
    pub fn boolean(&self, row: usize) -> bool
        requires layout { layout_of self.now ≡ Boolean }
        requires row { IsRow self.now row }
        ensures { cell_of self.now row ≡ cells.bool result }
    {
        is_bit_set(self.parts.first_part(), row)
    }

    /// The number of a row.
    pub fn number(&self, row: usize) -> i128
        requires layout { is_number (layout_of self.now) ≡ true }
        requires row { IsRow self.now row }
        ensures cell { cell_of self.now row ≡ cells.number result }
        ensures stands { result ≡ number_there (layout_of self.now) (top_of self.now) (place_of self.now row) }
    {
        match self.parts.layout {
            Layout::Number(integer) => integer_at(
                self.parts.first_part(),
                integer,
                row,
                self.parts.is_big_endian,
            ),
            _ => unreachable!(),
        }
    }

    /// The interval of a row: its months, days and nanoseconds; or its days, its milliseconds and 0.
    pub fn interval(&self, row: usize) -> (i32, i32, i64)
        requires layout { is_interval (layout_of self.now) ≡ true }
        requires row { IsRow self.now row }
        ensures cell { cell_of self.now row ≡ cells.interval result.0 result.1 result.2 }
        ensures stands { record { first = result.0; second = result.1; nanoseconds = result.2 } ≡ interval_there (layout_of self.now) (top_of self.now) (place_of self.now row) }
    {
        match self.parts.layout {
            Layout::DayTime => self.parts.day_time(row),
            Layout::MonthDayNano => self.parts.month_day_nano(row),
            _ => unreachable!(),
        }
    }

    /// Where the bytes of a row of byte strings or of texts stand.
    fn bytes_range(&self, row: usize) -> Range
        requires layout { has_bytes (layout_of self.now) ≡ true }
        requires row { IsRow self.now row }
        ensures lies { Lies (input_of self.now) result }
        ensures cell { cell_of self.now row ≡ bytes_cell (has_text (layout_of self.now)) (part_in (input_of self.now) result) }
        ensures place { result.at ≡ place_of self.now row }
        ensures utf8 { has_text (layout_of self.now) ≡ true → is_utf8 (part_in (input_of self.now) result) ≡ true }
    {
        match self.parts.layout {
            Layout::Bytes { is_large, .. } => self.parts.between(row, is_large),
            Layout::Views { .. } => self.parts.viewed(row),
            Layout::FixedBytes { size } => self.parts.fixed(row, size),
            _ => unreachable!(),
        }
    }

    /// The bytes of a row of byte strings or of texts.
    pub fn bytes(&self, row: usize) -> &'a [u8]
        requires layout { has_bytes (layout_of self.now) ≡ true }
        requires row { IsRow self.now row }
        ensures cell { cell_of self.now row ≡ bytes_cell (has_text (layout_of self.now)) result.now }
        ensures stands { result.now ≡ take (length result.now) (drop (place_of self.now row) (input_of self.now)) }
        ensures utf8 { has_text (layout_of self.now) ≡ true → is_utf8 result.now ≡ true }
    {
        let range = self.bytes_range(row);
        part_of(self.parts.input, range)
    }

    /// The text of a row of texts. Its bytes were looked at when the view was made, and are not again.
    #[tactic(auto, using(crate::proofs::Utf8::texts))]
    pub fn text(&self, row: usize) -> &'a str
        requires layout { has_text (layout_of self.now) ≡ true }
        requires row { IsRow self.now row }
        ensures cell { cell_of self.now row ≡ cells.text result.now }
        ensures stands { result.now ≡ take (length result.now) (drop (place_of self.now row) (input_of self.now)) }
    {
        let bytes = self.bytes(row);
        unsafe { from_utf8_unchecked(bytes) }
    }

    /// Where the bytes of a row's value stand in the input: of a truth value the byte that holds its bit, of a short view inside the view.
    pub fn place(&self, row: usize) -> usize
        requires layout { has_place (layout_of self.now) ≡ true }
        requires row { IsRow self.now row }
        ensures { result ≡ place_of self.now row }
    {
        match self.parts.layout {
            Layout::Boolean => self.parts.bit_place(row),
            Layout::Number(integer) => self.parts.fixed(row, width_of(integer)).at,
            Layout::DayTime => self.parts.fixed(row, 8).at,
            Layout::MonthDayNano => self.parts.fixed(row, 16).at,
            _ => self.bytes_range(row).at,
        }
    }
}
