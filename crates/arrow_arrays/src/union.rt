//! Arrays of unions (Arrow Columnar Format, "Union Layout").
ghost use Rattle.std.specs.Prelude.{◌≡◌, ◌+◌, ◌≤◌, ◌<◌, length, map, Some, None, IfOk, IfErr, true, not, ◌&&◌, slice_index_or};
ghost use Rattle.std.specs.Option.{ForSome, option_map};
ghost use Rattle.arrow_spec.specs.Arrays.{id_place, or_0};
ghost use Rattle.arrow_spec.specs.Counts.{magnitude, is_negative};
ghost use Rattle.arrow_spec.specs.Faults.{is_no_id};
ghost use Rattle.arrow_types.specs.KindOf.{kind_of, union_kind_of};
ghost use Rattle.arrow_buffers.specs.Rows.{part};
ghost use Rattle.arrow_arrays.specs.Heads.{tagged, tagged_part, tagged_cut, tagged_rows, has_offsets, is_union, is_mode, is_bad_place, fits_places, have_ids, ids_in, number_at, child_place, child_fields, are_of};
ghost use Rattle.arrow_arrays.specs.Parts.{nested, kinds_each, rows_each, cells_in, cut, fault_in, fault_each};
ghost use Rattle.arrow_arrays.specs.PartsOf.{parts_of, forest_of};

use crate::array::{Array, UnionArray};
use crate::structs::{are_of_rows, are_under, clone_each, narrow_each};
use crate::union_types::{child_of_type, child_or_first};
use arrow_buffers::{ArrayError, Bitmap, Buffer};
use arrow_types::union_ids::has_right_ids;
use arrow_types::{ArrowDataType, UnionMode, UnionType};
use std::alloc::{AllocError, Global};

fn is_mode(mode: UnionMode, is_dense: bool) -> bool
    ensures { result ≡ is_mode is_dense mode }
{
    match mode {
        UnionMode::Dense => is_dense,
        UnionMode::Sparse => !is_dense,
    }
}

fn is_union_of(union: &UnionType, is_dense: bool, fields: &[Array]) -> bool
    ensures { result ≡ (is_union is_dense (union_kind_of union.now) && are_of (child_fields (union_kind_of union.now)) (kinds_each (forest_of fields.now))) }
{
    if !is_mode(union.mode, is_dense) {
        return false;
    }
    if !has_right_ids(&union.ids, union.fields.len()) {
        return false;
    }
    are_under(union.fields.as_slice(), fields)
}

/// Whether a type is of unions of these columns, dense or sparse.
fn fits(dtype: &ArrowDataType, is_dense: bool, fields: &[Array]) -> bool
    ensures { result ≡ (is_union is_dense (kind_of dtype.now) && are_of (child_fields (kind_of dtype.now)) (kinds_each (forest_of fields.now))) }
{
    match dtype {
        ArrowDataType::Union(union) => is_union_of(union, is_dense, fields),
        ArrowDataType::Extension(extension) => fits(&extension.inner, is_dense, fields),
        _ => false,
    }
}

/// Whether there are as many offsets as rows, or without offsets each column has as many rows.
fn are_rows(offsets: &Option<Buffer<i32>>, rows: usize, fields: &[Array]) -> bool
    ensures { result ≡ tagged_rows offsets.now rows (rows_each (forest_of fields.now)) }
{
    match offsets {
        None => are_of_rows(fields, rows),
        Some(offsets) => offsets.len() == rows,
    }
}

/// Reads how many rows each column has, by which each is known to be sound.
pub(crate) fn know_sound(fields: &[Array])
    ensures { fault_each (forest_of fields.now) ≡ None }
{
    for field in fields {
        let _rows = field.len();
    }
}

/// The row that an offset says, 0 where it is negative.
fn row_at(at: i32) -> usize
    ensures { result ≡ magnitude at }
{
    if at < 0 { 0 } else { at as usize }
}

fn is_below(at: i32) -> bool
    ensures { result ≡ is_negative at }
{
    at < 0
}

/// How many rows a column has, 0 where there is none.
fn rows_under(fields: &[Array], i: usize) -> usize
    ensures { result ≡ slice_index_or (rows_each (forest_of fields.now)) i 0 }
{
    if i < fields.len() { fields[i].len() } else { 0 }
}

/// Whether an offset is none of the rows of the column under a type.
fn is_bad_place(fields: &[Array], child: Option<usize>, at: i32) -> bool
    ensures { result ≡ is_bad_place (rows_each (forest_of fields.now)) child at }
{
    match child {
        None => false,
        Some(i) => is_below(at) || rows_under(fields, i) <= row_at(at),
    }
}

fn are_dense_places(
    dtype: &ArrowDataType,
    types: &Buffer<i8>,
    offsets: &Buffer<i32>,
    fields: &[Array],
) -> bool
    requires { length offsets.now ≡ length types.now }
    ensures { result ≡ fits_places (ids_in (kind_of dtype.now)) types.now (Some offsets.now) (rows_each (forest_of fields.now)) }
{
    for row in 0..types.len() {
        let child = child_of_type(dtype, types.get(row));
        if is_bad_place(fields, child, offsets.get(row)) {
            return false;
        }
    }
    true
}

/// Whether each offset, where there are offsets, is a row of its column.
fn are_places(
    dtype: &ArrowDataType,
    types: &Buffer<i8>,
    offsets: &Option<Buffer<i32>>,
    fields: &[Array],
) -> bool
    requires { tagged_rows offsets.now (length types.now) (rows_each (forest_of fields.now)) ≡ true }
    ensures { result ≡ fits_places (ids_in (kind_of dtype.now)) types.now offsets.now (rows_each (forest_of fields.now)) }
{
    match offsets {
        None => true,
        Some(offsets) => are_dense_places(dtype, types, offsets, fields),
    }
}

fn is_no_id(child: Option<usize>) -> bool
    ensures { result ≡ is_no_id child }
{
    child.is_none()
}

/// Whether each type is an id.
fn are_types(dtype: &ArrowDataType, types: &Buffer<i8>) -> bool
    ensures { result ≡ have_ids (ids_in (kind_of dtype.now)) types.now }
{
    for row in 0..types.len() {
        if is_no_id(child_of_type(dtype, types.get(row))) {
            return false;
        }
    }
    true
}

fn clone_offsets(offsets: &Option<Buffer<i32>>) -> Result<Option<Buffer<i32>>, AllocError>
    ensures { IfOk result (λ o. o ≡ offsets.now) }
{
    match offsets {
        None => Ok(None),
        Some(offsets) => Ok(Some(offsets.try_clone()?)),
    }
}

/// The child's row of a row: the same, or the one in the offsets.
fn place_of(offsets: &Option<Buffer<i32>>, row: usize) -> usize
    requires { ForSome offsets.now (λ o. row < length o) }
    ensures { result ≡ child_place offsets.now row }
{
    match offsets {
        None => row,
        Some(offsets) => row_at(offsets.get(row)),
    }
}

/// Leaves only the part of the offsets, or without offsets of each column.
#[cycle(narrow)]
fn narrow_places(
    offsets: &mut Option<Buffer<i32>>,
    fields: &mut Vec<Array>,
    held: usize,
    offset: usize,
    rows: usize,
)
    requires fits { tagged_rows offsets.old held (rows_each (forest_of fields.old.items)) ≡ true }
    requires room { offset + rows ≤ held }
    ensures offsets { offsets.new ≡ option_map (part offset rows) offsets.old }
    ensures children { forest_of fields.new.items ≡ cut (tagged_cut offset rows offsets.old) (forest_of fields.old.items) }
{
    match offsets {
        None => narrow_each(fields, held, offset, rows),
        Some(offsets) => offsets.narrow(offset, rows),
    }
}

impl UnionArray {
    /// The array of these parts.
    pub fn try_new(
        dtype: ArrowDataType,
        types: Buffer<i8>,
        fields: Vec<Array>,
        offsets: Option<Buffer<i32>>,
    ) -> Result<UnionArray, ArrayError>
        ensures ok { IfOk result (λ a. a ≡ record { head = record { kind = kind_of dtype; types = types; offsets = offsets }; children = forest_of fields.items }) }
        ensures sound { IfOk result (λ _. fault_in (nested (tagged (record { kind = kind_of dtype; types = types; offsets = offsets })) (forest_of fields.items)) ≡ None) }
        ensures err { IfErr result (λ e. fault_in (nested (tagged (record { kind = kind_of dtype; types = types; offsets = offsets })) (forest_of fields.items)) ≡ Some e) }
    {
        if !fits(&dtype, offsets.is_some(), fields.as_slice()) {
            return Err(ArrayError::DataType);
        }
        if !are_rows(&offsets, types.len(), fields.as_slice()) {
            return Err(ArrayError::Length);
        }
        if !are_places(&dtype, &types, &offsets, fields.as_slice()) {
            return Err(ArrayError::Offsets);
        }
        if !are_types(&dtype, &types) {
            return Err(ArrayError::UnionType);
        }
        know_sound(fields.as_slice());
        Ok(UnionArray {
            dtype,
            types,
            fields,
            offsets,
        })
    }

    /// How many rows there are.
    pub fn len(&self) -> usize
        ensures rows { result ≡ length self.now.head.types }
        ensures cells { result ≡ length (cells_in (nested (tagged self.now.head) self.now.children)) }
        ensures sound { fault_in (nested (tagged self.now.head) self.now.children) ≡ None }
    {
        self.types.len()
    }

    /// The type.
    pub fn dtype(&self) -> &ArrowDataType
        ensures { kind_of result.now ≡ self.now.head.kind }
    {
        &self.dtype
    }

    /// The type of each row.
    pub fn types(&self) -> &Buffer<i8>
        ensures { result.now ≡ self.now.head.types }
    {
        &self.types
    }

    /// The children, in order.
    pub fn fields(&self) -> &[Array]
        ensures { forest_of result.now ≡ self.now.children }
    {
        self.fields.as_slice()
    }

    /// The row of its child that each row is, where the union is dense.
    pub fn offsets(&self) -> Option<&Buffer<i32>>
        ensures { option_map (λ b. b.now) result ≡ self.now.head.offsets }
    {
        self.offsets.as_ref()
    }

    /// The number of a row's child, and its row there.
    pub fn index(&self, row: usize) -> (usize, usize)
        requires { row < length self.now.head.types }
        ensures child { result.0 ≡ or_0 (id_place (ids_in self.now.head.kind) (number_at self.now.head.types row)) }
        ensures place { result.1 ≡ child_place self.now.head.offsets row }
        ensures there { result.0 < length (rows_each self.now.children) }
        ensures within { result.1 < slice_index_or (rows_each self.now.children) result.0 0 }
    {
        let child = child_or_first(&self.dtype, self.types.get(row));
        let place = place_of(&self.offsets, row);
        (child, place)
    }

    /// A union has no validity: a row is null where it is in its child.
    pub fn validity(&self) -> Option<&Bitmap>
        ensures { option_map (λ b. b.now) result ≡ None }
    {
        None
    }

    /// How many rows are null by a validity of the union's own: none.
    pub fn null_count(&self) -> usize
        ensures { result ≡ 0 }
    {
        0
    }

    /// Leaves only the part, and copies nothing.
    #[cycle(narrow)]
    pub fn narrow(&mut self, offset: usize, rows: usize)
        requires { offset + rows ≤ length self.old.head.types }
        ensures parts { self.new ≡ record { head = tagged_part offset rows self.old.head; children = cut (tagged_cut offset rows self.old.head.offsets) self.old.children } }
        ensures cells { cells_in (nested (tagged self.new.head) self.new.children) ≡ part offset rows (cells_in (nested (tagged self.old.head) self.old.children)) }
    {
        let held = self.types.len();
        narrow_places(&mut self.offsets, &mut self.fields, held, offset, rows);
        self.types.narrow(offset, rows);
    }

    /// The part, which shares the memory.
    pub fn sliced(self, offset: usize, rows: usize) -> UnionArray
        requires { offset + rows ≤ length self.head.types }
        ensures parts { result ≡ record { head = tagged_part offset rows self.head; children = cut (tagged_cut offset rows self.head.offsets) self.children } }
        ensures cells { cells_in (nested (tagged result.head) result.children) ≡ part offset rows (cells_in (nested (tagged self.head) self.children)) }
    {
        let mut part = self;
        part.narrow(offset, rows);
        part
    }

    /// A second owner of the same parts.
    #[cycle(copy)]
    pub fn try_clone(&self, alloc: Global) -> Result<UnionArray, AllocError>
        ensures { IfOk result (λ a. a ≡ self.now) }
    {
        let dtype = self.dtype.try_clone(alloc)?;
        let types = self.types.try_clone()?;
        let offsets = clone_offsets(&self.offsets)?;
        Ok(UnionArray {
            dtype,
            types,
            fields: clone_each(alloc, self.fields.as_slice())?,
            offsets,
        })
    }
}
