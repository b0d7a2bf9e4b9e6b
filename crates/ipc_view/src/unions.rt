//! The parts of views of unions (Arrow Columnar Format, "Union Layout").
ghost use Rattle.std.specs.Prelude.{◌≡◌, ◌+◌, ◌*◌, ◌^◌, ◌≤◌, ◌<◌, IfErr, IfNone, IfOk, IfSome, Some, false, length, nat_lt, slice_get, slice_index_or, true, ◌&&◌};
ghost use Rattle.arrow_spec.specs.Arrays.{types_buffer};
ghost use Rattle.arrow_spec.specs.Counts.{has_union_validity, magnitude, union_buffers, union_parts};
ghost use Rattle.arrow_spec.specs.Schema.{counted_ids};
ghost use Rattle.arrow_types.specs.KindOf.{kind_of, fields_of, ids_of};
ghost use Rattle.arrow_types.specs.Physical.{under_extensions};
ghost use Rattle.arrow_types.specs.UnionIds.{are_right};
ghost use Rattle.ipc_fields.specs.Causes.{IsOfBytes};
ghost use Rattle.ipc_read.specs.Unions.{is_any_union};
ghost use Rattle.view_types.specs.Ranges.{Lies};
ghost use Rattle.view_types.specs.Sound.{HasPlaces, Values};
ghost use Rattle.view_types.specs.Tops.{top_in};
ghost use Rattle.view_types.specs.Views.{rows_each, views};
ghost use Rattle.ipc_view.specs.Answers.{Answers};
ghost use Rattle.ipc_view.specs.Built.{batch_of, place_of};
ghost use Rattle.ipc_view.specs.Unions.{AreTyped, IsTyped, IsUnionTop, ShowsPlaces, child_rows, is_bad_offset, is_placed_wrong, place_number, places_faults, row_causes, union_buffers_faults, union_causes, union_of, union_part, union_top_faults};

use crate::batch::{ArrayPlace, BatchTables, ChildRows};
use crate::leaves::NOTHING;
use crate::tables::{counts_nulls, is_negative, magnitude};
use arrow_spec::{Feature, FieldNode, IpcError, MetadataVersion, OutOfSpecKind, UnionMode};
use arrow_types::{ArrowDataType, Field};
use std::alloc::{AllocError, Global};
use view_types::{ArrayView, Layout, Range, ViewParts, i32_at, part_of, place_of_id};

/// What a type of unions says of them.
#[derive(Clone, Copy)]
pub(crate) struct UnionFields<'t> {
    pub children: &'t [Field],
    pub ids: &'t Option<Vec<i32>>,
    pub mode: UnionMode,
}

/// What a type says of unions, extensions looked through; none of other types.
pub(crate) fn union_fields(dtype: &ArrowDataType) -> Option<UnionFields<'_>>
    ensures union { IfSome result (λ u. under_extensions (kind_of dtype.now) ≡ union_of u (fields_of u.children.now)) }
    ensures none { IfNone result (is_any_union (kind_of dtype.now) ≡ false) }
{
    match dtype {
        ArrowDataType::Union(union) => Some(UnionFields {
            children: union.fields.as_slice(),
            ids: &union.ids,
            mode: union.mode,
        }),
        ArrowDataType::Extension(extension) => union_fields(&extension.inner),
        _ => None,
    }
}

/// The numbers from 0 on.
fn counted_ids(alloc: Global, children: usize) -> Result<Vec<i32>, AllocError>
    requires { children ≤ 128 }
    ensures { IfOk result (λ v. v.items ≡ counted_ids 0 children) }
{
    let mut ids = Vec::new(alloc);
    for i in 0..children {
        ids.push(i as i32)?;
    }
    Ok(ids)
}

/// Some ids once more.
fn copy_ids(alloc: Global, ids: &[i32]) -> Result<Vec<i32>, AllocError>
    ensures { IfOk result (λ v. v.items ≡ ids.now) }
{
    let mut copy = Vec::new(alloc);
    copy.extend_from_slice(ids)?;
    Ok(copy)
}

/// The id of each child: its number where none are stated.
pub(crate) fn union_ids(alloc: Global, union: &UnionFields<'_>) -> Result<Vec<i32>, AllocError>
    requires { are_right (ids_of union.now.ids.now (length union.now.children.now)) (length union.now.children.now) ≡ true }
    ensures { IfOk result (λ v. v.items ≡ ids_of union.now.ids.now (length union.now.children.now)) }
{
    match union.ids {
        None => counted_ids(alloc, union.children.len()),
        Some(ids) => copy_ids(alloc, ids.as_slice()),
    }
}

/// Whether a validity stands before a union's types.
fn has_union_validity(version: MetadataVersion) -> bool
    ensures { result ≡ has_union_validity version }
{
    match version {
        MetadataVersion::V5 => false,
        _ => true,
    }
}

/// How many buffers a union has of its own, a validity aside: its types, and where it is dense its offsets.
fn union_parts(mode: UnionMode) -> u128
    ensures count { result ≡ union_parts mode }
    ensures few { result ≤ 2 }
{
    match mode {
        UnionMode::Sparse => 1,
        UnionMode::Dense => 2,
    }
}

/// How many buffers a union has of its own.
pub(crate) fn union_buffers(version: MetadataVersion, mode: UnionMode) -> u128
    ensures count { result ≡ union_buffers version mode }
    ensures few { result ≤ 3 }
{
    let parts = union_parts(mode);
    if has_union_validity(version) {
        parts + 1
    } else {
        parts
    }
}

/// The rows that the children of unions are read for: those of the dense are read whole, where there are rows.
pub(crate) fn child_rows(mode: UnionMode, rows: usize) -> ChildRows
    ensures { result ≡ child_rows mode rows }
{
    match mode {
        UnionMode::Sparse => ChildRows::Same(rows),
        UnionMode::Dense => {
            if rows == 0 {
                ChildRows::Same(0)
            } else {
                ChildRows::Stated
            }
        }
    }
}

/// Whether the offset of a row is none of so many rows.
fn is_bad_offset(parts: &ViewParts<'_>, row: usize, rows: usize) -> bool
    requires lies { Lies parts.now.input.now parts.now.second }
    requires room { 4 * (row + 1) ≤ parts.now.second.length }
    ensures { result ≡ is_bad_offset rows (place_number (top_in parts.now) row) }
{
    let bytes = part_of(parts.input, parts.second);
    let offset = i64::from(i32_at(bytes, 4 * row, parts.is_big_endian));
    is_negative(offset) || rows <= magnitude(offset)
}

/// Whether a row of a dense union has an offset that is none of so many rows.
fn is_misplaced(parts: &ViewParts<'_>, mode: UnionMode, row: usize, rows: usize) -> bool
    requires places { HasPlaces (top_in parts.now) mode }
    requires row { row < parts.now.rows }
    ensures { result ≡ is_placed_wrong (top_in parts.now) mode rows row }
{
    match mode {
        UnionMode::Sparse => false,
        UnionMode::Dense => is_bad_offset(parts, row, rows),
    }
}

/// How many rows a child has.
fn child_len(children: &[ArrayView<'_>], i: usize) -> usize
    requires { i < length children.now }
    ensures { result ≡ slice_index_or (rows_each (views children.now)) i 0 }
{
    children[i].len()
}

/// Whether a row's type is an id, and of a dense union its offset a row of the child.
fn check_row(
    parts: &ViewParts<'_>,
    mode: UnionMode,
    children: &[ArrayView<'_>],
    row: usize,
) -> Result<(), IpcError>
    requires types { Values (top_in parts.now) 1 }
    requires places { HasPlaces (top_in parts.now) mode }
    requires many { length parts.now.ids.items ≡ length children.now }
    requires row { row < parts.now.rows }
    ensures gives { Answers result (row_causes (top_in parts.now) mode (rows_each (views children.now)) row) (λ _. IsTyped (top_in parts.now) mode (rows_each (views children.now)) row) }
    ensures cause { IfErr result IsOfBytes }
{
    let Some(child) = place_of_id(parts.ids.as_slice(), parts.tag(row)) else {
        return Err(IpcError::OutOfSpec(OutOfSpecKind::InvalidUnion));
    };
    if is_misplaced(parts, mode, row, child_len(children, child)) {
        return Err(IpcError::OutOfSpec(OutOfSpecKind::InvalidOffsets));
    }
    Ok(())
}

/// Whether each type is an id, and of a dense union each offset a row of the child.
pub(crate) fn check_unions(
    parts: &ViewParts<'_>,
    mode: UnionMode,
    children: &[ArrayView<'_>],
) -> Result<(), IpcError>
    requires types { Values (top_in parts.now) 1 }
    requires places { HasPlaces (top_in parts.now) mode }
    requires many { length parts.now.ids.items ≡ length children.now }
    ensures gives { Answers result (union_causes (top_in parts.now) mode (rows_each (views children.now))) (λ _. AreTyped (top_in parts.now) mode (rows_each (views children.now))) }
    ensures cause { IfErr result IsOfBytes }
{
    for row in 0..parts.rows {
        check_row(parts, mode, children, row)?;
    }
    Ok(())
}

/// Whether a validity stands before a union's types, and its node counts nulls.
fn counts_union_nulls(first: u128, types: u128, node: FieldNode) -> bool
    ensures { result ≡ (nat_lt first types && nat_lt 0 (magnitude node.null_count)) }
{
    first < types && counts_nulls(node)
}

impl<'h, 'a> BatchTables<'h, 'a> {
    /// The number of a union's types buffer: a validity stands before it in older versions.
    fn types_place(&self, place: ArrayPlace) -> u128
        requires bound { place.buffer ≤ 2 ^ 64 * place.node }
        ensures number { result ≡ types_buffer (batch_of self.now) (place_of place) }
        ensures bound { result ≤ place.buffer + 1 }
    {
        if has_union_validity(self.version) {
            place.buffer + 1
        } else {
            place.buffer
        }
    }

    /// Where the offsets stand, if a union is dense.
    fn places(&self, i: u128, mode: UnionMode, rows: usize) -> Result<Range, IpcError>
        ensures gives { Answers result (places_faults (batch_of self.now) mode i rows) (λ r. ShowsPlaces self.now.input.now (batch_of self.now) mode i rows r) }
        ensures cause { IfErr result IsOfBytes }
    {
        match mode {
            UnionMode::Sparse => Ok(NOTHING),
            UnionMode::Dense => self.numbers(i, 4, rows),
        }
    }

    /// The parts of a union in ranges that its buffers gave.
    fn tagged_parts(
        &self,
        mode: UnionMode,
        ids: Vec<i32>,
        rows: usize,
        types: Range,
        places: Range,
    ) -> ViewParts<'a>
        ensures { top_in result ≡ union_part self.now.input.now self.now.is_big_endian mode ids.items rows types places }
    {
        ViewParts {
            input: self.input,
            is_big_endian: self.is_big_endian,
            layout: Layout::Union(mode),
            rows,
            ids,
            validity: None,
            first: types,
            second: places,
            buffers: Vec::new(self.alloc),
        }
    }

    /// The parts of a union that has rows, its children aside.
    fn union_ranges(
        &self,
        place: ArrayPlace,
        node: FieldNode,
        mode: UnionMode,
        ids: Vec<i32>,
        rows: usize,
    ) -> Result<ViewParts<'a>, IpcError>
        requires node { slice_get self.now.nodes.now place.node ≡ Some node }
        requires bound { place.buffer ≤ 2 ^ 64 * place.node }
        ensures gives { Answers result (union_buffers_faults (batch_of self.now) mode (place_of place) rows) (λ v. IsUnionTop (batch_of self.now) mode ids.items (place_of place) rows (top_in v)) }
        ensures input { IfOk result (λ v. v.input.now ≡ self.now.input.now) }
        ensures cause { IfErr result IsOfBytes }
    {
        let number = self.types_place(place);
        if counts_union_nulls(place.buffer, number, node) {
            return Err(IpcError::Unsupported(Feature::UnionNulls));
        }
        let types = self.numbers(number, 1, rows)?;
        let places = self.places(number + 1, mode, rows)?;
        Ok(self.tagged_parts(mode, ids, rows, types, places))
    }

    /// The parts of a union, its children aside.
    pub(crate) fn union_parts(
        &self,
        place: ArrayPlace,
        node: FieldNode,
        mode: UnionMode,
        ids: Vec<i32>,
        rows: usize,
    ) -> Result<ViewParts<'a>, IpcError>
        requires node { slice_get self.now.nodes.now place.node ≡ Some node }
        requires bound { place.buffer ≤ 2 ^ 64 * place.node }
        ensures gives { Answers result (union_top_faults (batch_of self.now) mode (place_of place) rows) (λ v. IsUnionTop (batch_of self.now) mode ids.items (place_of place) rows (top_in v)) }
        ensures input { IfOk result (λ v. v.input.now ≡ self.now.input.now) }
        ensures cause { IfErr result IsOfBytes }
    {
        if rows == 0 {
            return Ok(self.tagged_parts(mode, ids, 0, NOTHING, NOTHING));
        }
        self.union_ranges(place, node, mode, ids, rows)
    }
}
