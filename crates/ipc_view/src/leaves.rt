//! The parts of views of arrays without children.
ghost use Rattle.std.specs.Prelude.{◌≡◌, ◌+◌, ◌*◌, ◌^◌, ◌≤◌, ◌<◌, IfErr, IfOk, IfSome, Some, length, map, true, slice_get};
ghost use Rattle.arrow_spec.specs.Arrays.{Dictionaries, buf, from_on};
ghost use Rattle.arrow_spec.specs.Counts.{count_at};
ghost use Rattle.arrow_spec.specs.Faults.{array_faults, data_faults, view_count_faults, view_parts_faults};
ghost use Rattle.arrow_spec.specs.Kinds.{Kind, binary_view};
ghost use Rattle.view_types.specs.Ranges.{Lies};
ghost use Rattle.view_types.specs.Sound.{AreBytes, AreRanges};
ghost use Rattle.view_types.specs.Tops.{top_in};
ghost use Rattle.view_types.specs.Views.{offset_bytes, part_in};
ghost use Rattle.view_types.specs.declared.layout.Layout.TheVariants.{Boolean, Bytes, Views as Viewed};
ghost use Rattle.ipc_fields.specs.Causes.{IsOfBytes};
ghost use Rattle.ipc_view.specs.Answers.{Answers};
ghost use Rattle.ipc_view.specs.Built.{batch_of, place_of, HasBitsIn, IsViewOf};
ghost use Rattle.ipc_view.specs.Lent.{IsLentOf};
ghost use Rattle.ipc_view.specs.Layouts.{contents_faults, empty_top, fixed_width, is_leaf, is_leaf_layout, kind_layout, string_buffers_faults, string_causes, IsLeafOf, ShowsData, ShowsStrings};

use crate::batch::{ArrayPlace, BatchTables};
use crate::tables::{bits_of, is_negative, magnitude};
use crate::tests::{offsets_fit, texts_fit};
use crate::views::check_views;
use arrow_spec::{Feature, FieldNode, IpcError, OutOfSpecKind};
use view_types::{ArrayView, Layout, Range, ViewParts, part_of, width_of};

pub(crate) const NOTHING: Range = Range { at: 0, length: 0 };

/// How many bytes an offset has.
pub(crate) fn offset_size(is_large: bool) -> usize
    ensures { result ≡ offset_bytes is_large }
{
    if is_large { 8 } else { 4 }
}

/// Whether strings stand between their offsets, and are texts where they have to be.
fn check_strings(parts: &ViewParts<'_>, is_large: bool, is_text: bool) -> Result<(), IpcError>
    requires offsets { Lies parts.now.input.now parts.now.first }
    requires room { offset_bytes is_large * (parts.now.rows + 1) ≤ parts.now.first.length }
    requires values { Lies parts.now.input.now parts.now.second }
    requires bits { IfSome parts.now.validity (HasBitsIn parts.now.input.now parts.now.rows) }
    ensures gives { Answers result (string_causes (top_in parts.now) is_large is_text) (λ _. AreBytes (top_in parts.now) is_large is_text) }
    ensures cause { IfErr result IsOfBytes }
{
    let offsets = part_of(parts.input, parts.first);
    let order = parts.is_big_endian;
    if !offsets_fit(offsets, parts.rows, is_large, order, parts.second.length) {
        return Err(IpcError::OutOfSpec(OutOfSpecKind::InvalidOffsets));
    }
    if !is_text {
        return Ok(());
    }
    let values = part_of(parts.input, parts.second);
    let bits = bits_of(parts.input, parts.validity);
    if !texts_fit(offsets, values, bits, parts.rows, is_large, order) {
        return Err(IpcError::OutOfSpec(OutOfSpecKind::InvalidUtf8));
    }
    Ok(())
}

impl<'h, 'a> BatchTables<'h, 'a> {
    /// The parts of an array whose rows have one number of bytes each.
    pub(crate) fn fixed(
        &self,
        place: ArrayPlace,
        node: FieldNode,
        layout: Layout,
        width: usize,
        rows: usize,
    ) -> Result<ViewParts<'a>, IpcError>
        requires node { slice_get self.now.nodes.now place.node ≡ Some node }
        requires bound { place.buffer ≤ 2 ^ 64 * place.node }
        requires width { fixed_width layout ≡ Some width }
        ensures gives { Answers result (contents_faults (batch_of self.now) layout (place_of place) rows) (λ v. IsLeafOf (batch_of self.now) layout (place_of place) rows (top_in v)) }
        ensures input { IfOk result (λ v. v.input.now ≡ self.now.input.now) }
        ensures cause { IfErr result IsOfBytes }
    {
        let validity = self.validity(place, node, rows)?;
        let first = self.numbers(place.buffer + 1, width, rows)?;
        Ok(ViewParts {
            input: self.input,
            is_big_endian: self.is_big_endian,
            layout,
            rows,
            ids: Vec::new(self.alloc),
            validity,
            first,
            second: NOTHING,
            buffers: Vec::new(self.alloc),
        })
    }

    /// The parts of an array of truth values.
    fn truths(
        &self,
        place: ArrayPlace,
        node: FieldNode,
        rows: usize,
    ) -> Result<ViewParts<'a>, IpcError>
        requires node { slice_get self.now.nodes.now place.node ≡ Some node }
        requires bound { place.buffer ≤ 2 ^ 64 * place.node }
        ensures gives { Answers result (contents_faults (batch_of self.now) Boolean (place_of place) rows) (λ v. IsLeafOf (batch_of self.now) Boolean (place_of place) rows (top_in v)) }
        ensures input { IfOk result (λ v. v.input.now ≡ self.now.input.now) }
        ensures cause { IfErr result IsOfBytes }
    {
        let validity = self.validity(place, node, rows)?;
        let first = self.bits(place.buffer + 1, rows)?;
        Ok(ViewParts {
            input: self.input,
            is_big_endian: self.is_big_endian,
            layout: Layout::Boolean,
            rows,
            ids: Vec::new(self.alloc),
            validity,
            first,
            second: NOTHING,
            buffers: Vec::new(self.alloc),
        })
    }

    /// The ranges of byte strings or texts between offsets.
    fn string_parts(
        &self,
        place: ArrayPlace,
        node: FieldNode,
        layout: Layout,
        is_large: bool,
        rows: usize,
    ) -> Result<ViewParts<'a>, IpcError>
        requires node { slice_get self.now.nodes.now place.node ≡ Some node }
        requires bound { place.buffer ≤ 2 ^ 64 * place.node }
        requires more { rows < 2 ^ 63 }
        ensures gives { Answers result (string_buffers_faults (batch_of self.now) is_large (place_of place) rows) (λ v. ShowsStrings (batch_of self.now) layout is_large (place_of place) rows (top_in v)) }
        ensures input { IfOk result (λ v. v.input.now ≡ self.now.input.now) }
        ensures cause { IfErr result IsOfBytes }
    {
        let validity = self.validity(place, node, rows)?;
        let first = self.numbers(place.buffer + 1, offset_size(is_large), rows + 1)?;
        let second = self.range(place.buffer + 2)?;
        Ok(ViewParts {
            input: self.input,
            is_big_endian: self.is_big_endian,
            layout,
            rows,
            ids: Vec::new(self.alloc),
            validity,
            first,
            second,
            buffers: Vec::new(self.alloc),
        })
    }

    /// The parts of an array of byte strings or texts between offsets.
    fn strings(
        &self,
        place: ArrayPlace,
        node: FieldNode,
        is_large: bool,
        is_text: bool,
        rows: usize,
    ) -> Result<ViewParts<'a>, IpcError>
        requires node { slice_get self.now.nodes.now place.node ≡ Some node }
        requires bound { place.buffer ≤ 2 ^ 64 * place.node }
        requires more { rows < 2 ^ 63 }
        ensures gives { Answers result (contents_faults (batch_of self.now) (Bytes is_large is_text) (place_of place) rows) (λ v. IsLeafOf (batch_of self.now) (Bytes is_large is_text) (place_of place) rows (top_in v)) }
        ensures input { IfOk result (λ v. v.input.now ≡ self.now.input.now) }
        ensures cause { IfErr result IsOfBytes }
    {
        let layout = Layout::Bytes { is_large, is_text };
        let parts = self.string_parts(place, node, layout, is_large, rows)?;
        check_strings(&parts, is_large, is_text)?;
        Ok(parts)
    }

    /// The i-th view count.
    fn count_at(&self, i: usize) -> Option<i64>
        ensures { result ≡ slice_get self.now.variadic.now i }
    {
        if i < self.variadic.len() {
            Some(self.variadic[i])
        } else {
            None
        }
    }

    /// How many buffers the views of an array lead to.
    pub(crate) fn view_count(&self, place: ArrayPlace) -> Result<usize, IpcError>
        ensures gives { Answers result (view_count_faults (batch_of self.now) binary_view (place_of place)) (λ n. n ≡ count_at (batch_of self.now) place.view) }
        ensures bound { IfOk result (λ n. (n < 2 ^ 63) × (place.view < length self.now.variadic.now)) }
        ensures cause { IfErr result IsOfBytes }
    {
        let Some(count) = self.count_at(place.view) else {
            return Err(IpcError::OutOfSpec(OutOfSpecKind::MissingVariadicCount));
        };
        if is_negative(count) {
            return Err(IpcError::OutOfSpec(OutOfSpecKind::UnexpectedNegativeInteger));
        }
        Ok(magnitude(count))
    }

    /// Where so many buffers stand, to which the views of an array lead.
    fn data(&self, place: ArrayPlace, count: usize) -> Result<Vec<Range>, IpcError>
        requires node { place.node < length self.now.nodes.now }
        requires bound { place.buffer ≤ 2 ^ 64 * place.node }
        ensures gives { Answers result (data_faults (batch_of self.now) (place_of place) count) (λ v. (map (part_in self.now.input.now) v.items ≡ from_on (buf (batch_of self.now)) (place.buffer + 2) count) × AreRanges self.now.input.now v.items) }
        ensures cause { IfErr result IsOfBytes }
    {
        let first = place.buffer + 2;
        if first + count as u128 > self.buffers.len() as u128 {
            return Err(IpcError::OutOfSpec(OutOfSpecKind::ExpectedBuffer));
        }
        let mut ranges = Vec::new(self.alloc);
        for i in 0..count {
            let range = self.range(first + i as u128)?;
            ranges.push(range)?;
        }
        Ok(ranges)
    }

    /// The ranges of views and of the buffers to which they lead.
    fn view_parts(
        &self,
        place: ArrayPlace,
        node: FieldNode,
        layout: Layout,
        rows: usize,
    ) -> Result<ViewParts<'a>, IpcError>
        requires node { slice_get self.now.nodes.now place.node ≡ Some node }
        requires bound { place.buffer ≤ 2 ^ 64 * place.node }
        ensures gives { Answers result (view_parts_faults (batch_of self.now) (place_of place) rows) (λ v. ShowsData (batch_of self.now) layout (place_of place) rows (top_in v)) }
        ensures input { IfOk result (λ v. v.input.now ≡ self.now.input.now) }
        ensures cause { IfErr result IsOfBytes }
    {
        if self.is_big_endian {
            return Err(IpcError::Unsupported(Feature::ViewBigEndian));
        }
        let validity = self.validity(place, node, rows)?;
        let first = self.numbers(place.buffer + 1, 16, rows)?;
        let count = self.view_count(place)?;
        let buffers = self.data(place, count)?;
        Ok(ViewParts {
            input: self.input,
            is_big_endian: self.is_big_endian,
            layout,
            rows,
            ids: Vec::new(self.alloc),
            validity,
            first,
            second: NOTHING,
            buffers,
        })
    }

    /// The parts of an array of views.
    fn viewed(
        &self,
        place: ArrayPlace,
        node: FieldNode,
        is_text: bool,
        rows: usize,
    ) -> Result<ViewParts<'a>, IpcError>
        requires node { slice_get self.now.nodes.now place.node ≡ Some node }
        requires bound { place.buffer ≤ 2 ^ 64 * place.node }
        ensures gives { Answers result (contents_faults (batch_of self.now) (Viewed is_text) (place_of place) rows) (λ v. IsLeafOf (batch_of self.now) (Viewed is_text) (place_of place) rows (top_in v)) }
        ensures input { IfOk result (λ v. v.input.now ≡ self.now.input.now) }
        ensures cause { IfErr result IsOfBytes }
    {
        let parts = self.view_parts(place, node, Layout::Views { is_text }, rows)?;
        check_views(&parts, is_text)?;
        Ok(parts)
    }

    /// The parts of nulls alone, or of an array without children that has no row.
    pub(crate) fn nothing(&self, layout: Layout, rows: usize) -> ViewParts<'a>
        ensures { top_in result ≡ empty_top self.now.input.now self.now.is_big_endian layout rows }
    {
        ViewParts {
            input: self.input,
            is_big_endian: self.is_big_endian,
            layout,
            rows,
            ids: Vec::new(self.alloc),
            validity: None,
            first: NOTHING,
            second: NOTHING,
            buffers: Vec::new(self.alloc),
        }
    }

    /// The parts of an array without children that has rows, its node aside.
    fn leaf_parts(
        &self,
        place: ArrayPlace,
        node: FieldNode,
        layout: Layout,
        rows: usize,
    ) -> Result<ViewParts<'a>, IpcError>
        requires node { slice_get self.now.nodes.now place.node ≡ Some node }
        requires bound { place.buffer ≤ 2 ^ 64 * place.node }
        requires more { rows < 2 ^ 63 }
        requires leaf { is_leaf_layout layout ≡ true }
        ensures gives { Answers result (contents_faults (batch_of self.now) layout (place_of place) rows) (λ v. IsLeafOf (batch_of self.now) layout (place_of place) rows (top_in v)) }
        ensures input { IfOk result (λ v. v.input.now ≡ self.now.input.now) }
        ensures cause { IfErr result IsOfBytes }
    {
        match layout {
            Layout::Null => Ok(self.nothing(layout, rows)),
            Layout::Boolean => self.truths(place, node, rows),
            Layout::Number(integer) => { self.fixed(place, node, layout, width_of(integer), rows) }
            Layout::DayTime => self.fixed(place, node, layout, 8, rows),
            Layout::MonthDayNano => self.fixed(place, node, layout, 16, rows),
            Layout::FixedBytes { size } => self.fixed(place, node, layout, size, rows),
            Layout::Bytes { is_large, is_text } => {
                self.strings(place, node, is_large, is_text, rows)
            }
            Layout::Views { is_text } => self.viewed(place, node, is_text, rows),
            _ => unreachable!(),
        }
    }

    /// The view of an array without children, as far as its first rows go.
    pub(crate) fn leaf(
        &self,
        place: ArrayPlace,
        layout: Layout,
        rows: usize,
    ) -> Result<ArrayView<'a>, IpcError>
        requires bound { place.buffer ≤ 2 ^ 64 * place.node }
        requires leaf { is_leaf_layout layout ≡ true }
        ensures gives { (d : Dictionaries) → (k : Kind) → is_leaf k ≡ true → kind_layout k ≡ layout → Answers result (array_faults (batch_of self.now) d k (place_of place) rows) (IsViewOf (batch_of self.now) d k (place_of place) rows) }
        ensures below { IfOk result (λ _. place.node < length self.now.nodes.now) }
        ensures lent { IfOk result (IsLentOf self.now.input.now) }
        ensures cause { IfErr result IsOfBytes }
    {
        let node = self.node(place, rows)?;
        if rows == 0 {
            return Ok(ArrayView::new(self.alloc, self.nothing(layout, 0), Vec::new(self.alloc)));
        }
        let parts = self.leaf_parts(place, node, layout, rows)?;
        Ok(ArrayView::new(self.alloc, parts, Vec::new(self.alloc)))
    }
}
