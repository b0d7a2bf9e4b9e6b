//! Some rows of an array, laid anew: offsets begin at 0, and of the children only what these rows hold is written
//! (Arrow Columnar Format, "Variable-size List Layout", "Struct Layout").
ghost use Rattle.std.specs.Prelude.{◌≡◌, ◌+◌, ◌^◌, ◌<◌, ◌≤◌, [], ◌∷◌, length, map, pos, true, IfOk, IfErr};
ghost use Rattle.std.specs.Option.{ForSome, option_map};
ghost use Rattle.std.specs.Int.{w8};
ghost use Rattle.std.specs.List.{flat_map};
ghost use Rattle.arrow_spec.specs.Flat.{order_by};
ghost use Rattle.arrow_spec.specs.Framing.{validity_bytes};
ghost use Rattle.arrow_types.specs.Numbers.{offsets_by, signed_to_bytes};
ghost use Rattle.arrow_buffers.specs.Rows.{part, has_rows, null_rows};
ghost use Rattle.arrow_buffers.specs.Variable.{place_at, are_offsets, variable_rows};
ghost use Rattle.arrow_arrays.specs.Heads.{listed, mapped, sized, structured, tagged, Reaches};
ghost use Rattle.arrow_arrays.specs.Parts.{nested, rows_in, rows_each};
ghost use Rattle.arrow_arrays.specs.PartsOf.{parts_of, forest_of, only};
ghost use Rattle.arrow_arrays.specs.OffsetsOf.{offsets_in, width_in};
ghost use Rattle.ipc_bodies.specs.Adding.{Appends};
ghost use Rattle.ipc_bodies.specs.Fitting.{offset_limit, AllBelow};
ghost use Rattle.ipc_bodies.specs.Pieces.{offset_bytes};
ghost use Rattle.ipc_write_arrays.specs.Trims.{has_no_children, lists_of, listed_trim, trim, trim_each};
ghost use Rattle.ipc_write_arrays.specs.CutsOf.{cut_in};
ghost use Rattle.ipc_write_arrays.specs.Pieces.{Fit, FitEach, TagsFit, place_pieces};
ghost use Rattle.ipc_write_arrays.specs.OutputsOf.{outputs_of};
ghost use Rattle.ipc_write_arrays.specs.Outputs.{each_behind, laid_behind, put_behind, top_behind, KeptAll};

use crate::Outputs;
use crate::cuts::{Cut, cut_rows, items_between, union_cut};
use crate::dictionaries::add_dictionary;
use crate::layouts::{add_offsets, add_part, add_validity};
use crate::leaves::{add_leaf, push_node};
use arrow_arrays::{
    Array, FixedSizeListArray, ListArray, ListOffsets, MapArray, StructArray, UnionArray,
};
use arrow_buffers::{Bitmap, Buffer, nulls_in, place_of};
use arrow_types::Offset;
use ipc_bodies::BodyBuffer;
use std::alloc::AllocError;

/// Adds the rows of an array from one on, so many of them. What stands behind after a failure is more than was there.
#[cycle(add)]
pub(crate) fn add_rows(
    array: &Array,
    offset: usize,
    rows: usize,
    out: &mut Outputs,
    is_little_endian: bool,
) -> Result<(), AllocError>
    requires within { offset + rows ≤ rows_in (parts_of array.now) }
    requires few { rows < 2 ^ 63 }
    ensures ok { IfOk result (λ _. outputs_of out.new ≡ laid_behind (order_by is_little_endian) (trim offset rows (parts_of array.now)) (outputs_of out.old)) }
    ensures err { IfErr result (λ _. KeptAll (outputs_of out.old) (outputs_of out.new)) }
    ensures fit { IfOk result (λ _. Fit (trim offset rows (parts_of array.now))) }
{
    match array {
        Array::List(list) => add_list(list, offset, rows, out, is_little_endian),
        Array::Map(maps) => add_map(maps, offset, rows, out, is_little_endian),
        Array::Struct(columns) => add_struct(columns, offset, rows, out, is_little_endian),
        Array::FixedSizeList(lists) => add_sized(lists, offset, rows, out, is_little_endian),
        Array::Union(union) => add_union(union, offset, rows, out, is_little_endian),
        Array::Dictionary(array) => add_dictionary(array, offset, rows, out, is_little_endian),
        _ => add_slice(array, offset, rows, out, is_little_endian),
    }
}

/// Adds rows of an array without children.
fn add_slice(
    array: &Array,
    offset: usize,
    rows: usize,
    out: &mut Outputs,
    is_little_endian: bool,
) -> Result<(), AllocError>
    requires leaf { has_no_children (parts_of array.now) ≡ true }
    requires within { offset + rows ≤ rows_in (parts_of array.now) }
    requires few { rows < 2 ^ 63 }
    ensures ok { IfOk result (λ _. outputs_of out.new ≡ laid_behind (order_by is_little_endian) (trim offset rows (parts_of array.now)) (outputs_of out.old)) }
    ensures err { IfErr result (λ _. KeptAll (outputs_of out.old) (outputs_of out.new)) }
    ensures fit { IfOk result (λ _. Fit (trim offset rows (parts_of array.now))) }
{
    let _rows = array.len();
    let clone = array.try_clone(*out.nodes.allocator())?;
    let part = clone.sliced(offset, rows);
    let _part_rows = part.len();
    add_leaf(&part, out, is_little_endian)
}

/// Adds rows of lists.
#[cycle(add)]
fn add_list(
    list: &ListArray,
    offset: usize,
    rows: usize,
    out: &mut Outputs,
    is_little_endian: bool,
) -> Result<(), AllocError>
    requires within { offset + rows ≤ variable_rows list.now.head.offsets }
    requires few { rows < 2 ^ 63 }
    ensures ok { IfOk result (λ _. outputs_of out.new ≡ laid_behind (order_by is_little_endian) (trim offset rows (nested (listed list.now.head) list.now.children)) (outputs_of out.old)) }
    ensures err { IfErr result (λ _. KeptAll (outputs_of out.old) (outputs_of out.new)) }
    ensures fit { IfOk result (λ _. Fit (trim offset rows (nested (listed list.now.head) list.now.children))) }
{
    let _rows = list.len();
    let held = list.validity();
    add_listed(
        list.offsets(),
        held,
        list.values(),
        offset,
        rows,
        out,
        is_little_endian,
    )
}

/// Adds rows of maps, which are lists of entries.
#[cycle(add)]
fn add_map(
    maps: &MapArray,
    offset: usize,
    rows: usize,
    out: &mut Outputs,
    is_little_endian: bool,
) -> Result<(), AllocError>
    requires within { offset + rows ≤ variable_rows maps.now.head.offsets }
    requires few { rows < 2 ^ 63 }
    ensures ok { IfOk result (λ _. outputs_of out.new ≡ laid_behind (order_by is_little_endian) (trim offset rows (nested (mapped maps.now.head) maps.now.children)) (outputs_of out.old)) }
    ensures err { IfErr result (λ _. KeptAll (outputs_of out.old) (outputs_of out.new)) }
    ensures fit { IfOk result (λ _. Fit (trim offset rows (nested (mapped maps.now.head) maps.now.children))) }
{
    let _rows = maps.len();
    let held = maps.validity();
    let offsets = ListOffsets::Small(maps.offsets().try_clone()?);
    add_listed(
        &offsets,
        held,
        maps.field(),
        offset,
        rows,
        out,
        is_little_endian,
    )
}

/// Adds rows of lists or maps between these offsets.
#[cycle(add)]
fn add_listed(
    offsets: &ListOffsets,
    held: Option<&Bitmap>,
    values: &Array,
    offset: usize,
    rows: usize,
    out: &mut Outputs,
    is_little_endian: bool,
) -> Result<(), AllocError>
    requires rise { are_offsets (offsets_in offsets.now) (rows_in (parts_of values.now)) ≡ true }
    requires bits { has_rows (option_map (λ b. b.now) held) (variable_rows (offsets_in offsets.now)) ≡ true }
    requires within { offset + rows ≤ variable_rows (offsets_in offsets.now) }
    requires few { rows < 2 ^ 63 }
    ensures ok { IfOk result (λ _. outputs_of out.new ≡ laid_behind (order_by is_little_endian) (trim offset rows (nested (listed (lists_of offsets.now (option_map (λ b. b.now) held.entry))) (only values.now))) (outputs_of out.old)) }
    ensures err { IfErr result (λ _. KeptAll (outputs_of out.old) (outputs_of out.new)) }
    ensures fit { IfOk result (λ _. Fit (trim offset rows (nested (listed (lists_of offsets.now (option_map (λ b. b.now) held.entry))) (only values.now)))) }
{
    let limit = values.len();
    let (first, last) = add_listed_top(offsets, held, limit, offset, rows, out, is_little_endian)?;
    add_rows(values, first, last - first, out, is_little_endian)
}

/// Adds the node, the validity and the offsets of lists; the rows of the values between which they stand.
fn add_listed_top(
    offsets: &ListOffsets,
    held: Option<&Bitmap>,
    limit: usize,
    offset: usize,
    rows: usize,
    out: &mut Outputs,
    is_little_endian: bool,
) -> Result<(usize, usize), AllocError>
    requires rise { are_offsets (offsets_in offsets.now) limit ≡ true }
    requires bits { has_rows (option_map (λ b. b.now) held) (variable_rows (offsets_in offsets.now)) ≡ true }
    requires within { offset + rows ≤ variable_rows (offsets_in offsets.now) }
    requires few { rows < 2 ^ 63 }
    ensures ok { IfOk result (λ _. outputs_of out.new ≡ top_behind (order_by is_little_endian) (listed (listed_trim offset rows (lists_of offsets.now (option_map (λ b. b.now) held.entry)))) (outputs_of out.old)) }
    ensures err { IfErr result (λ _. KeptAll (outputs_of out.old) (outputs_of out.new)) }
    ensures fit { IfOk result (λ _. AllBelow (offset_limit (width_in offsets.now)) (listed_trim offset rows (lists_of offsets.now (option_map (λ b. b.now) held.entry))).offsets) }
    ensures first { IfOk result (λ r. r.0 ≡ place_at (offsets_in offsets.now) offset) }
    ensures last { IfOk result (λ r. r.1 ≡ place_at (offsets_in offsets.now) (offset + rows)) }
    ensures ordered { IfOk result (λ r. r.0 ≤ r.1) }
    ensures within { IfOk result (λ r. r.1 ≤ limit) }
    ensures small { IfOk result (λ r. r.1 < 2 ^ 63) }
{
    let _count = offsets.len();
    let ends = ends_between(offsets, offset, rows, limit);
    let validity = validity_part(held, offset, rows)?;
    add_top(rows, &validity, out)?;
    add_list_offsets(
        offsets,
        offset,
        rows,
        limit,
        &mut out.buffers,
        is_little_endian,
    )?;
    Ok(ends)
}

/// The rows of a validity from one on, so many of them.
pub(crate) fn validity_part(
    validity: Option<&Bitmap>,
    offset: usize,
    rows: usize,
) -> Result<Option<Bitmap>, AllocError>
    requires { ForSome (option_map (λ b. b.now) validity) (λ bits. offset + rows ≤ length bits) }
    ensures { IfOk result (λ v. v ≡ option_map (part offset rows) (option_map (λ b. b.now) validity.entry)) }
{
    match validity {
        Some(bits) => Ok(Some(bits.try_clone()?.sliced(offset, rows))),
        None => Ok(None),
    }
}

/// Adds a node and a validity.
pub(crate) fn add_top(
    rows: usize,
    validity: &Option<Bitmap>,
    out: &mut Outputs,
) -> Result<(), AllocError>
    requires few { rows < 2 ^ 63 }
    requires bits { has_rows validity.now rows ≡ true }
    ensures ok { IfOk result (λ _. outputs_of out.new ≡ put_behind (record { length = pos rows; null_count = pos (null_rows validity.now) } ∷ []) (validity_bytes validity.now ∷ []) [] (outputs_of out.old)) }
    ensures err { IfErr result (λ _. KeptAll (outputs_of out.old) (outputs_of out.new)) }
{
    push_node(rows, nulls_in(validity), &mut out.nodes)?;
    add_validity(validity.as_ref(), &mut out.buffers)
}

/// The offset of a row and that of the row behind the last of so many.
fn ends_between(offsets: &ListOffsets, offset: usize, rows: usize, limit: usize) -> (usize, usize)
    requires rise { are_offsets (offsets_in offsets.now) limit ≡ true }
    requires below { offset + rows < length (offsets_in offsets.now) }
    ensures first { result.0 ≡ place_at (offsets_in offsets.now) offset }
    ensures last { result.1 ≡ place_at (offsets_in offsets.now) (offset + rows) }
    ensures within { result.1 ≤ limit }
{
    let _count = offsets.len();
    match offsets {
        ListOffsets::Small(places) => (
            place_of(places, offset, limit),
            place_of(places, offset + rows, limit),
        ),
        ListOffsets::Large(places) => (
            place_of(places, offset, limit),
            place_of(places, offset + rows, limit),
        ),
    }
}

/// Adds the offsets of rows, counted from the first.
fn add_list_offsets(
    offsets: &ListOffsets,
    offset: usize,
    rows: usize,
    limit: usize,
    buffers: &mut Vec<BodyBuffer>,
    is_little: bool,
) -> Result<(), AllocError>
    requires rise { are_offsets (offsets_in offsets.now) limit ≡ true }
    requires below { offset + rows < length (offsets_in offsets.now) }
    ensures bytes { Appends result buffers.old.items buffers.new.items (offset_bytes (order_by is_little) (width_in offsets.now) (part offset (rows + 1) (offsets_in offsets.now)) ∷ []) }
    ensures below { IfOk result (λ _. AllBelow (offset_limit (width_in offsets.now)) (part offset (rows + 1) (offsets_in offsets.now))) }
{
    match offsets {
        ListOffsets::Small(places) => add_places(places, offset, rows, limit, buffers, is_little),
        ListOffsets::Large(places) => add_places(places, offset, rows, limit, buffers, is_little),
    }
}

fn add_places<O: Offset>(
    places: &Buffer<O>,
    offset: usize,
    rows: usize,
    limit: usize,
    buffers: &mut Vec<BodyBuffer>,
    is_little: bool,
) -> Result<(), AllocError>
    requires rise { are_offsets (map O.number places.now) limit ≡ true }
    requires below { offset + rows < length places.now }
    ensures bytes { Appends result buffers.old.items buffers.new.items (offset_bytes (order_by is_little) (offsets_by O.IS_LARGE) (part offset (rows + 1) (map O.number places.now)) ∷ []) }
    ensures below { IfOk result (λ _. AllBelow (offset_limit (offsets_by O.IS_LARGE)) (part offset (rows + 1) (map O.number places.now))) }
{
    let _count = places.len();
    let clone = places.try_clone()?;
    let part = clone.sliced(offset, rows + 1);
    add_offsets(&part, limit, buffers, is_little)
}

/// Adds rows of lists of one size.
#[cycle(add)]
fn add_sized(
    lists: &FixedSizeListArray,
    offset: usize,
    rows: usize,
    out: &mut Outputs,
    is_little_endian: bool,
) -> Result<(), AllocError>
    requires within { offset + rows ≤ lists.now.head.rows }
    requires few { rows < 2 ^ 63 }
    ensures ok { IfOk result (λ _. outputs_of out.new ≡ laid_behind (order_by is_little_endian) (trim offset rows (nested (sized lists.now.head) lists.now.children)) (outputs_of out.old)) }
    ensures err { IfErr result (λ _. KeptAll (outputs_of out.old) (outputs_of out.new)) }
    ensures fit { IfOk result (λ _. Fit (trim offset rows (nested (sized lists.now.head) lists.now.children))) }
{
    let held = lists.len();
    let values = lists.values();
    let items = values.len();
    let (from, count) = items_between(lists.size(), offset, rows, held, items)?;
    let bits = lists.validity();
    let validity = validity_part(bits, offset, rows)?;
    add_top(rows, &validity, out)?;
    add_rows(values, from, count, out, is_little_endian)
}

/// Adds rows of structs.
#[cycle(add)]
fn add_struct(
    columns: &StructArray,
    offset: usize,
    rows: usize,
    out: &mut Outputs,
    is_little_endian: bool,
) -> Result<(), AllocError>
    requires within { offset + rows ≤ columns.now.head.rows }
    requires few { rows < 2 ^ 63 }
    ensures ok { IfOk result (λ _. outputs_of out.new ≡ laid_behind (order_by is_little_endian) (trim offset rows (nested (structured columns.now.head) columns.now.children)) (outputs_of out.old)) }
    ensures err { IfErr result (λ _. KeptAll (outputs_of out.old) (outputs_of out.new)) }
    ensures fit { IfOk result (λ _. Fit (trim offset rows (nested (structured columns.now.head) columns.now.children))) }
{
    let _rows = columns.len();
    let bits = columns.validity();
    let validity = validity_part(bits, offset, rows)?;
    add_top(rows, &validity, out)?;
    add_each(
        columns.values(),
        Cut::Run(offset, rows),
        out,
        is_little_endian,
    )
}

/// Adds rows of unions: of a sparse one the same rows of each child, of a dense one each child as it is held.
#[cycle(add)]
fn add_union(
    union: &UnionArray,
    offset: usize,
    rows: usize,
    out: &mut Outputs,
    is_little_endian: bool,
) -> Result<(), AllocError>
    requires within { offset + rows ≤ length union.now.head.types }
    requires few { rows < 2 ^ 63 }
    ensures ok { IfOk result (λ _. outputs_of out.new ≡ laid_behind (order_by is_little_endian) (trim offset rows (nested (tagged union.now.head) union.now.children)) (outputs_of out.old)) }
    ensures err { IfErr result (λ _. KeptAll (outputs_of out.old) (outputs_of out.new)) }
    ensures fit { IfOk result (λ _. Fit (trim offset rows (nested (tagged union.now.head) union.now.children))) }
{
    let _rows = union.len();
    let places = union.offsets();
    add_union_top(union.types(), places, offset, rows, out, is_little_endian)?;
    add_each(
        union.fields(),
        union_cut(places, offset, rows),
        out,
        is_little_endian,
    )
}

/// Adds the node, the types and, of a dense union, the places of rows.
fn add_union_top(
    types: &Buffer<i8>,
    places: Option<&Buffer<i32>>,
    offset: usize,
    rows: usize,
    out: &mut Outputs,
    is_little_endian: bool,
) -> Result<(), AllocError>
    requires types { offset + rows ≤ length types.now }
    requires places { ForSome (option_map (λ b. b.now) places) (λ os. offset + rows ≤ length os) }
    requires few { rows < 2 ^ 63 }
    ensures ok { IfOk result (λ _. outputs_of out.new ≡ put_behind (record { length = pos rows; null_count = pos 0 } ∷ []) (flat_map (signed_to_bytes w8 (order_by is_little_endian)) (part offset rows types.now) ∷ place_pieces (order_by is_little_endian) (option_map (part offset rows) (option_map (λ b. b.now) places.entry))) [] (outputs_of out.old)) }
    ensures err { IfErr result (λ _. KeptAll (outputs_of out.old) (outputs_of out.new)) }
    ensures fit { IfOk result (λ _. TagsFit (option_map (part offset rows) (option_map (λ b. b.now) places.entry)) (part offset rows types.now)) }
{
    push_node(rows, 0, &mut out.nodes)?;
    add_part(types, offset, rows, &mut out.buffers, is_little_endian)?;
    match places {
        None => Ok(()),
        Some(places) => add_part(places, offset, rows, &mut out.buffers, is_little_endian),
    }
}

/// Adds rows of several arrays, one after another.
#[cycle(add)]
fn add_each(
    arrays: &[Array],
    cut: Cut,
    out: &mut Outputs,
    is_little_endian: bool,
) -> Result<(), AllocError>
    requires reaches { Reaches (cut_in cut) (rows_each (forest_of arrays.now)) }
    ensures ok { IfOk result (λ _. outputs_of out.new ≡ each_behind (order_by is_little_endian) (trim_each (cut_in cut) (forest_of arrays.now)) (outputs_of out.old)) }
    ensures err { IfErr result (λ _. KeptAll (outputs_of out.old) (outputs_of out.new)) }
    ensures fit { IfOk result (λ _. FitEach (trim_each (cut_in cut) (forest_of arrays.now))) }
{
    for array in arrays {
        let (from, count) = cut_rows(array, cut)?;
        let _rows = array.len();
        add_rows(array, from, count, out, is_little_endian)?;
    }
    Ok(())
}
