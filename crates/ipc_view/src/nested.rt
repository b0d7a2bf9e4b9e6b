//! Views of arrays of every kind, their children before what leads to them.
ghost use Rattle.std.specs.Prelude.{◌≡◌, ℕ, ◌+◌, ◌^◌, ◌≤◌, ◌<◌, List, IfNone, IfErr, IfOk, IfSome, false, length, slice_get, true};
ghost use Rattle.arrow_spec.specs.Counts.{count_at};
ghost use Rattle.arrow_spec.specs.Faults.{end_of, node_causes};
ghost use Rattle.arrow_spec.specs.Kinds.{Kind, «list», width};
ghost use Rattle.arrow_spec.specs.Readings.{Refuses};
ghost use Rattle.arrow_types.specs.KindOf.{kind_of, fields_of};
ghost use Rattle.ipc_fields.specs.declared.ipc_field.IpcField.{IpcField};
ghost use Rattle.arrow_types.specs.Physical.{under_extensions};
ghost use Rattle.ipc_read.specs.CountedArrays.{counted_kind, counted_rows, is_any_counted};
ghost use Rattle.ipc_read.specs.Held.{column_fields, column_kind};
ghost use Rattle.ipc_read.specs.Lists.{as_lists, is_any_list};
ghost use Rattle.ipc_read.specs.Unions.{is_any_union};
ghost use Rattle.view_types.specs.Tops.{top_in};
ghost use Rattle.view_types.specs.Views.{offsets_by, views};
ghost use Rattle.view_types.specs.declared.layout.Layout.TheVariants.{Bytes};
ghost use Rattle.ipc_fields.specs.Causes.{IsOfBytes};
ghost use Rattle.ipc_view.specs.Answers.{Answers};
ghost use Rattle.ipc_view.specs.Built.{batch_of, place_of};
ghost use Rattle.ipc_view.specs.Dictionaries.{shown_in};
ghost use Rattle.ipc_view.specs.Lent.{AreLentOf, HoldsLent, IsLentOf};
ghost use Rattle.ipc_view.specs.Layouts.{flat_layout, is_leaf, is_leaf_layout, kind_layout};
ghost use Rattle.ipc_view.specs.Nested.{ChildrenSeen, IsPlace, Seen, are_shown, counted_layout, is_shown, layout_count_faults, nested_top, own_buffers, own_views, rows_by};
ghost use Rattle.ipc_view.specs.Unions.{UnionShown, union_of};

use crate::batch::{ArrayPlace, BatchTables, ChildRows};
use crate::dictionaries::{id_or_zero, key_type};
use crate::leaves::NOTHING;
use crate::tables::{inside, magnitude};
use crate::unions::{
    UnionFields, check_unions, child_rows, union_buffers, union_fields, union_ids,
};
use arrow_spec::{IntegerType, IntervalUnit, IpcError, OutOfSpecKind};
use arrow_types::{ArrowDataType, Field};
use ipc_fields::IpcField;
use ipc_fields::uses::{fields_at, id_at};
use std::slice::from_ref;
use view_types::{ArrayView, Layout, Range, ViewParts};

/// The layout of a type without children, extensions looked through; nulls alone of others.
fn flat_layout(dtype: &ArrowDataType) -> Layout
    ensures { result ≡ flat_layout (kind_of dtype.now) }
{
    match dtype {
        ArrowDataType::Boolean => Layout::Boolean,
        ArrowDataType::Int8 => Layout::Number(IntegerType::Int8),
        ArrowDataType::Int16 => Layout::Number(IntegerType::Int16),
        ArrowDataType::Int32 => Layout::Number(IntegerType::Int32),
        ArrowDataType::Int64 => Layout::Number(IntegerType::Int64),
        ArrowDataType::Int128 => Layout::Number(IntegerType::Int128),
        ArrowDataType::UInt8 => Layout::Number(IntegerType::UInt8),
        ArrowDataType::UInt16 => Layout::Number(IntegerType::UInt16),
        ArrowDataType::UInt32 => Layout::Number(IntegerType::UInt32),
        ArrowDataType::UInt64 => Layout::Number(IntegerType::UInt64),
        ArrowDataType::Date32 => Layout::Number(IntegerType::Int32),
        ArrowDataType::Time32(_) => Layout::Number(IntegerType::Int32),
        ArrowDataType::Date64 => Layout::Number(IntegerType::Int64),
        ArrowDataType::Time64(_) => Layout::Number(IntegerType::Int64),
        ArrowDataType::Duration(_) => Layout::Number(IntegerType::Int64),
        ArrowDataType::Timestamp(_, _) => Layout::Number(IntegerType::Int64),
        ArrowDataType::Decimal(_, _) => Layout::Number(IntegerType::Int128),
        ArrowDataType::Interval(IntervalUnit::YearMonth) => Layout::Number(IntegerType::Int32),
        ArrowDataType::Interval(IntervalUnit::DayTime) => Layout::DayTime,
        ArrowDataType::Interval(IntervalUnit::MonthDayNano) => Layout::MonthDayNano,
        ArrowDataType::Binary => strings(false, false),
        ArrowDataType::LargeBinary => strings(true, false),
        ArrowDataType::Utf8 => strings(false, true),
        ArrowDataType::LargeUtf8 => strings(true, true),
        ArrowDataType::BinaryView => Layout::Views { is_text: false },
        ArrowDataType::Utf8View => Layout::Views { is_text: true },
        ArrowDataType::FixedSizeBinary(size) => Layout::FixedBytes { size: *size },
        ArrowDataType::Extension(extension) => flat_layout(&extension.inner),
        _ => Layout::Null,
    }
}

/// Byte strings or texts between offsets.
fn strings(is_large: bool, is_text: bool) -> Layout
    ensures { result ≡ Bytes is_large is_text }
{
    Layout::Bytes { is_large, is_text }
}

/// The fields of structs, or the field of lists of one size with that size, extensions looked through; none of other types.
fn counted_fields(dtype: &ArrowDataType) -> Option<(&[Field], Option<usize>)>
    ensures columns { IfSome result (λ r. under_extensions (kind_of dtype.now) ≡ counted_kind r.1 (fields_of r.0.now)) }
    ensures none { IfNone result (is_any_counted (kind_of dtype.now) ≡ false) }
{
    match dtype {
        ArrowDataType::Struct(fields) => Some((fields.as_slice(), None)),
        ArrowDataType::FixedSizeList(field, size) => Some((from_ref(field), Some(*size))),
        ArrowDataType::Extension(extension) => counted_fields(&extension.inner),
        _ => None,
    }
}

/// The child of lists or of maps, and whether their offsets have 64 bits, extensions looked through; none of other types.
fn list_child(dtype: &ArrowDataType) -> Option<(&[Field], bool)>
    ensures child { IfSome result (λ r. as_lists (kind_of dtype.now) ≡ «list» (offsets_by r.1) (fields_of r.0.now)) }
    ensures none { IfNone result (is_any_list (kind_of dtype.now) ≡ false) }
{
    match dtype {
        ArrowDataType::List(child) => Some((from_ref(child), false)),
        ArrowDataType::LargeList(child) => Some((from_ref(child), true)),
        ArrowDataType::Map(child, _) => Some((from_ref(child), false)),
        ArrowDataType::Extension(extension) => list_child(&extension.inner),
        _ => None,
    }
}

/// How many rows the children of structs have, or the items of lists of one size; none where these are more than can be counted.
fn rows_under(size: Option<usize>, rows: usize) -> Option<usize>
    ensures some { IfSome result (λ n. n ≡ counted_rows size rows) }
    ensures few { IfSome result (λ n. n < 2 ^ 64) }
    ensures none { IfNone result (2 ^ 63 ≤ counted_rows size rows) }
{
    match size {
        None => Some(rows),
        Some(size) => size.checked_mul(rows),
    }
}

/// The layout of structs, or of lists of one size.
fn counted_layout(size: Option<usize>) -> Layout
    ensures { result ≡ counted_layout size }
{
    match size {
        None => Layout::Struct,
        Some(size) => Layout::FixedLists { size },
    }
}

impl<'h, 'a> BatchTables<'h, 'a> {
    /// How many rows a node has for the offsets of its parent: a number that no offset passes where it is missing or negative, which is told when it is read.
    pub(crate) fn end_of(&self, i: usize) -> usize
        ensures { result ≡ end_of (batch_of self.now) i }
    {
        match self.nodes.get(i) {
            Some(node) if node.length >= 0 => magnitude(node.length),
            _ => 9_223_372_036_854_775_807,
        }
    }

    /// Why an array of more rows than can be counted is refused: its node is missing or below 0, or has fewer.
    fn refuse_rows(&self, i: usize) -> IpcError
        ensures refuses { (rows : ℕ) → 2 ^ 63 ≤ rows → Refuses result (node_causes (slice_get self.now.nodes.now i) rows) }
        ensures cause { IsOfBytes result }
    {
        match self.nodes.get(i) {
            Some(node) => {
                if node.length < 0 {
                    return IpcError::OutOfSpec(OutOfSpecKind::UnexpectedNegativeInteger);
                }
                IpcError::OutOfSpec(OutOfSpecKind::NodeLength)
            }
            None => IpcError::OutOfSpec(OutOfSpecKind::ExpectedBuffer),
        }
    }

    /// How many rows the child at a place is read for.
    fn child_count(&self, place: ArrayPlace, rows: ChildRows) -> usize
        ensures { result ≡ rows_by rows (batch_of self.now) (place_of place) }
    {
        match rows {
            ChildRows::Same(rows) => rows,
            ChildRows::Stated => match self.nodes.get(place.node) {
                Some(node) => magnitude(node.length),
                None => 0,
            },
        }
    }

    /// How many buffers and view counts an array without children has.
    fn own_counts(&self, place: ArrayPlace, layout: Layout) -> Result<(u128, usize), IpcError>
        requires place { IsPlace self.now place }
        requires leaf { is_leaf_layout layout ≡ true }
        ensures gives { Answers result (layout_count_faults (batch_of self.now) layout (place_of place)) (λ r. (r.0 ≡ own_buffers layout (count_at (batch_of self.now) place.view)) × (r.1 ≡ own_views layout)) }
        ensures few { IfOk result (λ r. (r.0 < 2 ^ 63 + 2) × (place.view + r.1 ≤ length self.now.variadic.now)) }
        ensures cause { IfErr result IsOfBytes }
    {
        match layout {
            Layout::Null => Ok((0, 0)),
            Layout::Bytes { .. } => Ok((3, 0)),
            Layout::Views { .. } => {
                let count = self.view_count(place)?;
                Ok((2 + count as u128, 1))
            }
            _ => Ok((2, 0)),
        }
    }

    /// The view of an array without children, and the place behind it.
    fn flat(
        &self,
        place: ArrayPlace,
        layout: Layout,
        rows: usize,
    ) -> Result<(ArrayView<'a>, ArrayPlace), IpcError>
        requires place { IsPlace self.now place }
        requires leaf { is_leaf_layout layout ≡ true }
        ensures seen { (k : Kind) → is_leaf k ≡ true → kind_layout k ≡ layout → Seen self.now result k place rows }
        ensures place { IfOk result (λ x. IsPlace self.now x.1) }
        ensures lent { IfOk result (λ x. IsLentOf self.now.input.now x.0) }
        ensures cause { IfErr result IsOfBytes }
    {
        let view = self.leaf(place, layout, rows)?;
        let (buffers, views) = self.own_counts(place, layout)?;
        let next = ArrayPlace {
            node: place.node + 1,
            buffer: place.buffer + buffers,
            view: place.view + views,
        };
        Ok((view, next))
    }

    /// The view of an array that has no children in its own batch, and the place behind it.
    fn childless(
        &self,
        place: ArrayPlace,
        dtype: &ArrowDataType,
        id: Option<i64>,
        rows: usize,
    ) -> Result<(ArrayView<'a>, ArrayPlace), IpcError>
        requires place { IsPlace self.now place }
        requires counted { is_any_counted (kind_of dtype.now) ≡ false }
        requires lists { is_any_list (kind_of dtype.now) ≡ false }
        requires unions { is_any_union (kind_of dtype.now) ≡ false }
        requires shown { is_shown (kind_of dtype.now) ≡ true }
        ensures seen { (fields : List IpcField) → Seen self.now result (column_kind dtype.now id fields) place rows }
        ensures place { IfOk result (λ x. IsPlace self.now x.1) }
        ensures lent { HoldsLent self.now.input.now (shown_in self.now.dictionaries.now) → IfOk result (λ x. IsLentOf self.now.input.now x.0) }
        ensures cause { IfErr result IsOfBytes }
    {
        match key_type(dtype) {
            Some(keys) => self.keyed(place, keys, id_or_zero(id), rows),
            None => self.flat(place, flat_layout(dtype), rows),
        }
    }

    /// The parts of an array with children, its children aside.
    pub(crate) fn nested_parts(
        &self,
        layout: Layout,
        rows: usize,
        validity: Option<Range>,
        first: Range,
    ) -> ViewParts<'a>
        ensures { top_in result ≡ nested_top self.now.input.now self.now.is_big_endian layout rows validity first }
    {
        ViewParts {
            input: self.input,
            is_big_endian: self.is_big_endian,
            layout,
            rows,
            ids: Vec::new(self.alloc),
            validity,
            first,
            second: NOTHING,
            buffers: Vec::new(self.alloc),
        }
    }

    /// The view of an array of any kind, as far as its first rows go, and the place behind it.
    #[cycle(views)]
    pub(crate) fn view(
        &self,
        place: ArrayPlace,
        dtype: &ArrowDataType,
        id: Option<i64>,
        fields: &[IpcField],
        rows: usize,
    ) -> Result<(ArrayView<'a>, ArrayPlace), IpcError>
        requires place { IsPlace self.now place }
        requires shown { is_shown (kind_of dtype.now) ≡ true }
        ensures seen { Seen self.now result (column_kind dtype.now id fields.now) place rows }
        ensures place { IfOk result (λ x. IsPlace self.now x.1) }
        ensures lent { HoldsLent self.now.input.now (shown_in self.now.dictionaries.now) → IfOk result (λ x. IsLentOf self.now.input.now x.0) }
        ensures cause { IfErr result IsOfBytes }
    {
        match counted_fields(dtype) {
            Some((children, size)) => self.counted(place, children, size, fields, rows),
            None => match list_child(dtype) {
                Some((child, is_large)) => self.lists(place, child, is_large, fields, rows),
                None => match union_fields(dtype) {
                    Some(union) => self.unions(place, &union, fields, rows),
                    None => self.childless(place, dtype, id, rows),
                },
            },
        }
    }

    /// The same of structs, or of lists of one size.
    #[cycle(views)]
    fn counted(
        &self,
        place: ArrayPlace,
        children: &[Field],
        size: Option<usize>,
        fields: &[IpcField],
        rows: usize,
    ) -> Result<(ArrayView<'a>, ArrayPlace), IpcError>
        requires place { IsPlace self.now place }
        requires shown { are_shown (fields_of children.now) ≡ true }
        requires one { IfSome size (λ n. width (fields_of children.now) ≡ 1) }
        ensures seen { Seen self.now result (counted_kind size (column_fields children.now fields.now)) place rows }
        ensures place { IfOk result (λ x. IsPlace self.now x.1) }
        ensures lent { HoldsLent self.now.input.now (shown_in self.now.dictionaries.now) → IfOk result (λ x. IsLentOf self.now.input.now x.0) }
        ensures cause { IfErr result IsOfBytes }
    {
        let node = self.node(place, rows)?;
        let validity = self.validity(place, node, rows)?;
        let first = inside(place, 1);
        let Some(under) = rows_under(size, rows) else {
            return Err(self.refuse_rows(first.node));
        };
        let (views, next) = self.children(first, children, fields, ChildRows::Same(under))?;
        let parts = self.nested_parts(counted_layout(size), rows, validity, NOTHING);
        Ok((ArrayView::new(self.alloc, parts, views), next))
    }

    /// The same of lists or of maps.
    #[cycle(views)]
    fn lists(
        &self,
        place: ArrayPlace,
        child: &[Field],
        is_large: bool,
        fields: &[IpcField],
        rows: usize,
    ) -> Result<(ArrayView<'a>, ArrayPlace), IpcError>
        requires place { IsPlace self.now place }
        requires shown { are_shown (fields_of child.now) ≡ true }
        requires one { width (fields_of child.now) ≡ 1 }
        ensures seen { Seen self.now result («list» (offsets_by is_large) (column_fields child.now fields.now)) place rows }
        ensures place { IfOk result (λ x. IsPlace self.now x.1) }
        ensures lent { HoldsLent self.now.input.now (shown_in self.now.dictionaries.now) → IfOk result (λ x. IsLentOf self.now.input.now x.0) }
        ensures cause { IfErr result IsOfBytes }
    {
        let node = self.node(place, rows)?;
        let (parts, last) = self.list_parts(place, node, is_large, rows)?;
        let (views, next) = self.children(inside(place, 2), child, fields, ChildRows::Same(last))?;
        Ok((ArrayView::new(self.alloc, parts, views), next))
    }

    /// The same of unions.
    #[cycle(views)]
    fn unions(
        &self,
        place: ArrayPlace,
        union: &UnionFields<'_>,
        fields: &[IpcField],
        rows: usize,
    ) -> Result<(ArrayView<'a>, ArrayPlace), IpcError>
        requires place { IsPlace self.now place }
        requires shown { UnionShown union.now }
        ensures seen { Seen self.now result (union_of union.now (column_fields union.now.children.now fields.now)) place rows }
        ensures place { IfOk result (λ x. IsPlace self.now x.1) }
        ensures lent { HoldsLent self.now.input.now (shown_in self.now.dictionaries.now) → IfOk result (λ x. IsLentOf self.now.input.now x.0) }
        ensures cause { IfErr result IsOfBytes }
    {
        let node = self.node(place, rows)?;
        let ids = union_ids(self.alloc, union)?;
        let parts = self.union_parts(place, node, union.mode, ids, rows)?;
        let first = inside(place, union_buffers(self.version, union.mode));
        let under = child_rows(union.mode, rows);
        let (views, next) = self.children(first, union.children, fields, under)?;
        check_unions(&parts, union.mode, views.as_slice())?;
        Ok((ArrayView::new(self.alloc, parts, views), next))
    }

    /// Views of the arrays of some fields, one behind another, and the place behind them.
    #[cycle(views)]
    fn children(
        &self,
        place: ArrayPlace,
        children: &[Field],
        fields: &[IpcField],
        rows: ChildRows,
    ) -> Result<(Vec<ArrayView<'a>>, ArrayPlace), IpcError>
        requires place { IsPlace self.now place }
        requires shown { are_shown (fields_of children.now) ≡ true }
        ensures seen { ChildrenSeen self.now result (column_fields children.now fields.now) place rows }
        ensures place { IfOk result (λ x. IsPlace self.now x.1) }
        ensures lent { HoldsLent self.now.input.now (shown_in self.now.dictionaries.now) → IfOk result (λ x. AreLentOf self.now.input.now (views x.0.items)) }
        ensures cause { IfErr result IsOfBytes }
    {
        let mut views = Vec::new(self.alloc);
        let mut next = place;
        for i in 0..children.len() {
            let asked = self.child_count(next, rows);
            let (view, behind) = self.view(
                next,
                &children[i].dtype,
                id_at(fields, i),
                fields_at(fields, i),
                asked,
            )?;
            views.push(view)?;
            next = behind;
        }
        Ok((views, next))
    }
}
