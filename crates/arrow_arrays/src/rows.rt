//! The rows of an array, one by one.
ghost use Rattle.std.specs.Prelude.{false, suc, ◌≡◌, ◌*◌, ◌≤◌, ◌<◌, length, Some, slice_get};
ghost use Rattle.std.specs.Option.{ForSome, option_map};
ghost use Rattle.arrow_spec.specs.Cells as cells;
ghost use Rattle.arrow_spec.specs.Flat.{little};
ghost use Rattle.arrow_buffers.specs.Rows.{is_valid, bytes_cell};
ghost use Rattle.arrow_buffers.specs.Leaf.{leaf_cells, fixed_cells, fixed_rows};
ghost use Rattle.arrow_buffers.specs.Variable.{variable_cells, variable_rows};
ghost use Rattle.arrow_buffers.specs.Views.{view_cells, view_rows};
ghost use Rattle.arrow_arrays.specs.LeafParts.{numbers, as_bytes, leaf_cells_in};
ghost use Rattle.arrow_arrays.specs.Heads.{listed, mapped, sized, structured, tagged, indexed};
ghost use Rattle.arrow_arrays.specs.Parts.{has_children, nested, rows_in, cells_in, tree_size, trees_size};
ghost use Rattle.arrow_arrays.specs.PartsOf.{parts_of};
ghost use Rattle.arrow_arrays.specs.RowCells.{cell_of, Inside, value_size};

use crate::array::{
    Array, DictionaryArray, FixedSizeListArray, ListArray, MapArray, StructArray, UnionArray,
};
use crate::row_value::{RowNumber, RowValue};
use arrow_buffers::{
    BinaryViewArrayGeneric, Bitmap, BooleanArray, FixedSizeBinaryArray, PrimitiveArray,
    VariableArray, ViewType,
};
use arrow_types::Offset;

/// Whether a row is valid: every row, where no validity is given.
pub(crate) fn is_valid_in(validity: Option<&Bitmap>, row: usize) -> bool
    requires { ForSome validity (λ bits. row < length bits.now) }
    ensures { result ≡ is_valid (option_map (λ bits. bits.now) validity.entry) row }
{
    match validity {
        None => true,
        Some(bits) => bits.get(row),
    }
}

fn bit_in(array: &BooleanArray, row: usize) -> RowValue<'_>
    requires { row < length array.now.values }
    ensures cell { slice_get (leaf_cells cells.bool array.now) row ≡ Some (cell_of result) }
    ensures inside { Inside result }
    ensures plain { value_size result ≡ 0 }
{
    if is_valid_in(array.validity(), row) {
        RowValue::Bit(array.value(row))
    } else {
        RowValue::Null
    }
}

fn number_in<T: RowNumber>(array: &PrimitiveArray<T>, row: usize) -> RowValue<'_>
    requires { row < length array.now.values }
    ensures cell { slice_get (leaf_cells_in (numbers (as_bytes (T.written little) array.now))) row ≡ Some (cell_of result) }
    ensures inside { Inside result }
    ensures plain { value_size result ≡ 0 }
{
    prove!(array.len() > row);
    if is_valid_in(array.validity(), row) {
        array.value(row).row_value()
    } else {
        RowValue::Null
    }
}

fn fixed_in(array: &FixedSizeBinaryArray, row: usize) -> RowValue<'_>
    requires { row < fixed_rows array.now }
    ensures cell { slice_get (fixed_cells array.now) row ≡ Some (cell_of result) }
    ensures inside { Inside result }
    ensures plain { value_size result ≡ 0 }
{
    if is_valid_in(array.validity(), row) {
        RowValue::Bytes(array.value(row))
    } else {
        RowValue::Null
    }
}

/// A row's bytes: a text, or a byte string.
fn bytes_value<V: ViewType>(bytes: &[u8]) -> RowValue<'_>
    ensures cell { cell_of result ≡ bytes_cell V.IS_TEXT bytes.now }
    ensures inside { Inside result }
    ensures plain { value_size result ≡ 0 }
{
    if V::IS_TEXT {
        RowValue::Text(bytes)
    } else {
        RowValue::Bytes(bytes)
    }
}

fn variable_in<O: Offset, V: ViewType>(array: &VariableArray<O, V>, row: usize) -> RowValue<'_>
    requires { row < variable_rows array.now.offsets }
    ensures cell { slice_get (variable_cells V.IS_TEXT array.now) row ≡ Some (cell_of result) }
    ensures inside { Inside result }
    ensures plain { value_size result ≡ 0 }
{
    if is_valid_in(array.validity(), row) {
        bytes_value::<V>(array.value(row))
    } else {
        RowValue::Null
    }
}

fn view_in<V: ViewType>(array: &BinaryViewArrayGeneric<V>, row: usize) -> RowValue<'_>
    requires { row < view_rows array.now.views }
    ensures cell { slice_get (view_cells V.IS_TEXT array.now) row ≡ Some (cell_of result) }
    ensures inside { Inside result }
    ensures plain { value_size result ≡ 0 }
{
    prove!(array.len() > row);
    match array.value(row) {
        None => RowValue::Null,
        Some(bytes) => bytes_value::<V>(bytes),
    }
}

fn list_in(array: &ListArray, row: usize) -> RowValue<'_>
    requires { row < variable_rows array.now.head.offsets }
    ensures cell { slice_get (cells_in (nested (listed array.now.head) array.now.children)) row ≡ Some (cell_of result) }
    ensures inside { Inside result }
    ensures smaller { value_size result ≤ 3 * suc (trees_size array.now.children) }
{
    if is_valid_in(array.validity(), row) {
        let (from, to) = array.range(row);
        RowValue::List(array.values(), from, to - from)
    } else {
        RowValue::Null
    }
}

fn sized_in(array: &FixedSizeListArray, row: usize) -> RowValue<'_>
    requires { row < array.now.head.rows }
    ensures cell { slice_get (cells_in (nested (sized array.now.head) array.now.children)) row ≡ Some (cell_of result) }
    ensures inside { Inside result }
    ensures smaller { value_size result ≤ 3 * suc (trees_size array.now.children) }
{
    if is_valid_in(array.validity(), row) {
        let (from, count) = array.range(row);
        RowValue::List(array.values(), from, count)
    } else {
        RowValue::Null
    }
}

fn map_in(array: &MapArray, row: usize) -> RowValue<'_>
    requires { row < variable_rows array.now.head.offsets }
    ensures cell { slice_get (cells_in (nested (mapped array.now.head) array.now.children)) row ≡ Some (cell_of result) }
    ensures inside { Inside result }
    ensures smaller { value_size result ≤ 3 * suc (trees_size array.now.children) }
{
    if is_valid_in(array.validity(), row) {
        let (from, to) = array.range(row);
        RowValue::List(array.field(), from, to - from)
    } else {
        RowValue::Null
    }
}

fn struct_in(array: &StructArray, row: usize) -> RowValue<'_>
    requires { row < array.now.head.rows }
    ensures cell { slice_get (cells_in (nested (structured array.now.head) array.now.children)) row ≡ Some (cell_of result) }
    ensures inside { Inside result }
    ensures smaller { value_size result ≤ 3 * suc (trees_size array.now.children) }
{
    prove!(array.len() > row);
    if is_valid_in(array.validity(), row) {
        RowValue::Struct(array.values(), row)
    } else {
        RowValue::Null
    }
}

fn union_in(array: &UnionArray, row: usize) -> RowValue<'_>
    requires { row < length array.now.head.types }
    ensures cell { slice_get (cells_in (nested (tagged array.now.head) array.now.children)) row ≡ Some (cell_of result) }
    ensures inside { Inside result }
    ensures smaller { value_size result ≤ 3 * suc (trees_size array.now.children) }
{
    let (child, place) = array.index(row);
    let fields = array.fields();
    prove!(child < fields.len());
    RowValue::Tagged(array.types().get(row), &fields[child], place)
}

#[cycle(row)]
fn dictionary_in(array: &DictionaryArray, row: usize) -> RowValue<'_>
    requires { row < length array.now.head.keys }
    ensures cell { slice_get (cells_in (nested (indexed array.now.head) array.now.children)) row ≡ Some (cell_of result) }
    ensures inside { Inside result }
    ensures smaller { value_size result ≤ 3 * suc (trees_size array.now.children) }
{
    prove!(array.len() > row);
    if is_valid_in(array.validity(), row) {
        let (part, place) = array.index(row);
        let parts = array.parts();
        prove!(part < parts.len());
        parts[part].row(place)
    } else {
        RowValue::Null
    }
}

/// What stands in a row of an array in which no arrays stand.
fn leaf_row(array: &Array, row: usize) -> RowValue<'_>
    requires leaf { has_children (parts_of array.now) ≡ false }
    requires below { row < rows_in (parts_of array.now) }
    ensures cell { slice_get (cells_in (parts_of array.now)) row ≡ Some (cell_of result) }
    ensures inside { Inside result }
    ensures smaller { value_size result ≤ 3 * tree_size (parts_of array.now) }
{
    match array {
        Array::Null(_) => RowValue::Null,
        Array::Boolean(array) => bit_in(array, row),
        Array::Int8(array) => number_in(array, row),
        Array::Int16(array) => number_in(array, row),
        Array::Int32(array) => number_in(array, row),
        Array::Int64(array) => number_in(array, row),
        Array::Int128(array) => number_in(array, row),
        Array::UInt8(array) => number_in(array, row),
        Array::UInt16(array) => number_in(array, row),
        Array::UInt32(array) => number_in(array, row),
        Array::UInt64(array) => number_in(array, row),
        Array::DaysMs(array) => number_in(array, row),
        Array::MonthsDaysNs(array) => number_in(array, row),
        Array::Binary(array) => variable_in(array, row),
        Array::LargeBinary(array) => variable_in(array, row),
        Array::Utf8(array) => variable_in(array, row),
        Array::LargeUtf8(array) => variable_in(array, row),
        Array::BinaryView(array) => view_in(array, row),
        Array::Utf8View(array) => view_in(array, row),
        Array::FixedSizeBinary(array) => fixed_in(array, row),
        _ => unreachable!(),
    }
}

impl Array {
    /// What stands in a row. The call goes as deep as dictionaries stand in one another.
    #[cycle(row)]
    pub(crate) fn row(&self, row: usize) -> RowValue<'_>
        requires { row < rows_in (parts_of self.now) }
        ensures cell { slice_get (cells_in (parts_of self.now)) row ≡ Some (cell_of result) }
        ensures inside { Inside result }
        ensures smaller { value_size result ≤ 3 * tree_size (parts_of self.now) }
    {
        match self {
            Array::List(array) => list_in(array, row),
            Array::FixedSizeList(array) => sized_in(array, row),
            Array::Map(array) => map_in(array, row),
            Array::Struct(array) => struct_in(array, row),
            Array::Union(array) => union_in(array, row),
            Array::Dictionary(array) => dictionary_in(array, row),
            leaf => leaf_row(leaf, row),
        }
    }
}
