//! The rows of children to which rows lead.
ghost use Rattle.std.specs.Prelude.{◌≡◌, ◌<◌, ◌≤◌, ◌+◌, ◌*◌, ℕ, List, true, Some, length, get_or};
ghost use Rattle.std.specs.Int.{byte_len};
ghost use Rattle.arrow_spec.specs.Arrays.{id_place, integer_width, or_0};
ghost use Rattle.arrow_spec.specs.Counts.{magnitude};
ghost use Rattle.view_types.specs.Ranges.{Lies};
ghost use Rattle.view_types.specs.Sound.{HasPlaces, Values, ends_after};
ghost use Rattle.view_types.specs.Spans.{IsInOrder, SpansAreCells, has_spans, is_union, part_among, span_of, start_of, tag_of};
ghost use Rattle.view_types.specs.Tops.{top_in};
ghost use Rattle.view_types.specs.Views.{View, top_of, layout_of, child_at, children_of, count_of, rows_of, rows_each, number_in, type_in, child_row, IsRow};
ghost use Rattle.view_types.specs.declared.layout.Layout.TheVariants.{Dictionary};

use crate::layout::Layout;
use crate::numbers::{i8_at, integer_at, offset_at};
use crate::parts::{ViewParts, part_of};
use crate::view::ArrayView;
use arrow_spec::{IntegerType, UnionMode};

/// How many of some rising numbers are at most this one.
fn count_up_to(ends: &[u128], key: u128) -> usize
    requires order { IsInOrder ends.now }
    ensures within { result ≤ length ends.now }
    ensures below { (i : ℕ) → i < result → get_or ends.now i 0 ≤ key }
    ensures above { result < length ends.now → key < get_or ends.now result 0 }
{
    let (mut low, mut high) = (0, ends.len());
    while low < high {
        let middle = low + (high - low) / 2;
        if ends[middle] <= key {
            low = middle + 1;
        } else {
            high = middle;
        }
    }
    low
}

/// Where a part starts among the rows of all: where the one before it ends.
fn start_of(ends: &[u128], part: usize) -> u128
    requires { part ≤ length ends.now }
    ensures { result ≡ start_of 0 ends.now part }
{
    if part == 0 { 0 } else { ends[part - 1] }
}

/// The part in which a row among those of all stands, and its row there.
fn part_at(ends: &[u128], key: u128) -> (usize, u128)
    requires order { IsInOrder ends.now }
    ensures part { (rows : List ℕ) → ends.now ≡ ends_after 0 rows → result.0 ≡ (part_among rows key).0 }
    ensures row { (rows : List ℕ) → ends.now ≡ ends_after 0 rows → result.1 ≡ (part_among rows key).1 }
{
    let part = count_up_to(ends, key);
    let start = start_of(ends, part);
    (part, key - start)
}

/// Where an id stands among a union's ids.
pub fn place_of_id(ids: &[i32], id: i8) -> Option<usize>
    ensures { result ≡ id_place ids.now id }
{
    for i in 0..ids.len() {
        if ids[i] == i32::from(id) {
            return Some(i);
        }
    }
    None
}

/// The same, 0 where it does not.
fn place_or_first(ids: &[i32], id: i8) -> usize
    ensures { result ≡ or_0 (id_place ids.now id) }
{
    match place_of_id(ids, id) {
        None => 0,
        Some(i) => i,
    }
}

impl<'a> ViewParts<'a> {
    /// The id of a union's row.
    pub fn tag(&self, row: usize) -> i8
        requires lies { Lies self.now.input.now self.now.first }
        requires room { row < self.now.first.length }
        ensures { type_in (top_in self.now) row ≡ result }
    {
        i8_at(self.first_part(), row, self.is_big_endian)
    }

    /// The child of a union's row, and its row there.
    fn tagged(&self, row: usize, mode: UnionMode) -> (usize, usize)
        requires types { Values (top_in self.now) 1 }
        requires places { HasPlaces (top_in self.now) mode }
        requires row { row < self.now.rows }
        ensures child { result.0 ≡ or_0 (id_place self.now.ids.items (type_in (top_in self.now) row)) }
        ensures row { result.1 ≡ child_row (top_in self.now) mode row }
    {
        let child = place_or_first(self.ids.as_slice(), self.tag(row));
        let row = match mode {
            UnionMode::Sparse => row,
            UnionMode::Dense => offset_at(
                part_of(self.input, self.second),
                row,
                false,
                self.is_big_endian,
            ),
        };
        (child, row)
    }

    /// The key of a row.
    fn key(&self, row: usize, keys: IntegerType) -> u128
        requires keys { Values (top_in self.now) (byte_len (integer_width keys)) }
        requires row { row < self.now.rows }
        ensures { result ≡ magnitude (number_in (top_in self.now) keys row) }
    {
        let key = integer_at(self.first_part(), keys, row, self.is_big_endian);
        if key < 0 { 0 } else { key as u128 }
    }
}

impl<'a> ArrayView<'a> {
    /// The id of a union's row.
    pub fn tag(&self, row: usize) -> i8
        requires layout { is_union (layout_of self.now) ≡ true }
        requires row { IsRow self.now row }
        ensures { tag_of self.now row ≡ result }
    {
        self.parts.tag(row)
    }

    /// The part of a dictionary in which the row under a row's key stands, and its row there.
    fn keyed_row(&self, row: usize, keys: IntegerType) -> (usize, usize)
        requires layout { layout_of self.now ≡ Dictionary keys }
        requires row { IsRow self.now row }
        ensures part { result.0 ≡ (part_among (rows_each (children_of self.now)) (magnitude (number_in (top_of self.now) keys row))).0 }
        ensures row { result.1 ≡ (part_among (rows_each (children_of self.now)) (magnitude (number_in (top_of self.now) keys row))).1 }
    {
        let key = self.parts.key(row, keys);
        let (part, first) = part_at(self.ends.as_slice(), key);
        let rows = self.children[part].len();
        prove!(first < rows as u128);
        (part, first as usize)
    }

    /// The child to which a row leads, the first row there, and how many.
    fn span(&self, row: usize) -> (usize, usize, usize)
        requires layout { has_spans (layout_of self.now) ≡ true }
        requires row { IsRow self.now row }
        ensures { span_of self.now row ≡ record { child = result.0; first = result.1; count = result.2 } }
    {
        match self.parts.layout {
            Layout::Lists { is_large } => {
                let (from, to) = self.parts.offsets(row, is_large);
                (0, from, to - from)
            }
            Layout::FixedLists { size } => (0, size * row, size),
            Layout::Union(mode) => {
                let (child, first) = self.parts.tagged(row, mode);
                (child, first, 1)
            }
            Layout::Dictionary(keys) => {
                let (part, first) = self.keyed_row(row, keys);
                (part, first, 1)
            }
            _ => unreachable!(),
        }
    }

    /// The rows of a child to which a row of lists, of maps, of a union or of a dictionary leads: the child's number, the first row in it, and how many.
    pub fn child_rows(&self, row: usize) -> (usize, usize, usize)
        requires layout { has_spans (layout_of self.now) ≡ true }
        requires row { IsRow self.now row }
        ensures span { span_of self.now row ≡ record { child = result.0; first = result.1; count = result.2 } }
        ensures within { (v : View) → child_at (children_of self.now) result.0 ≡ Some v → result.1 + result.2 ≤ rows_of v }
        ensures there { 0 < result.2 → result.0 < count_of (children_of self.now) }
    {
        let _layout = self.parts.layout;
        self.span(row)
    }
}

/// The rows of children to which a row leads are what its cell holds: of lists, maps and lists of one size these rows' cells, of a union or a dictionary the one cell.
pub fn spans_are_cells()
    ensures { SpansAreCells }
{}
