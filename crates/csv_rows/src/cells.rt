//! The cells of an array, one by one.
ghost use Rattle.std.specs.Prelude.{false, ◌≡◌, ◌<◌, length, Some, slice_get};
ghost use Rattle.std.specs.Option.{ForSome, option_map};
ghost use Rattle.arrow_spec.specs.Cells as cells;
ghost use Rattle.arrow_spec.specs.Flat.{little};
ghost use Rattle.arrow_buffers.specs.Rows.{is_valid, bytes_cell};
ghost use Rattle.arrow_buffers.specs.Leaf.{leaf_cells, fixed_cells, fixed_rows};
ghost use Rattle.arrow_buffers.specs.Variable.{variable_cells, variable_rows};
ghost use Rattle.arrow_buffers.specs.Views.{view_cells, view_rows};
ghost use Rattle.arrow_arrays.specs.LeafParts.{numbers, as_bytes, leaf_cells_in};
ghost use Rattle.arrow_arrays.specs.Heads.{indexed};
ghost use Rattle.arrow_arrays.specs.Parts.{has_children, nested, rows_in, cells_in};
ghost use Rattle.arrow_arrays.specs.PartsOf.{parts_of};
ghost use Rattle.csv_rows.specs.Values.{Shows, cell_at, cell_of};

use crate::value::{RowNumber, Value};
use arrow_arrays::{Array, DictionaryArray};
use arrow_buffers::{
    BinaryViewArrayGeneric, Bitmap, BooleanArray, FixedSizeBinaryArray, PrimitiveArray,
    VariableArray, ViewType,
};
use arrow_types::Offset;

/// Whether a row is valid: every row, where no validity is given.
fn is_valid_in(validity: Option<&Bitmap>, row: usize) -> bool
    requires { ForSome validity (λ bits. row < length bits.now) }
    ensures { result ≡ is_valid (option_map (λ bits. bits.now) validity.entry) row }
{
    match validity {
        None => true,
        Some(bits) => bits.get(row),
    }
}

fn bit_in(array: &BooleanArray, row: usize) -> Value<'_>
    requires { row < length array.now.values }
    ensures { slice_get (leaf_cells cells.bool array.now) row ≡ Some (cell_of result) }
{
    if is_valid_in(array.validity(), row) {
        Value::Bit(array.value(row))
    } else {
        Value::Null
    }
}

fn number_in<T: RowNumber>(array: &PrimitiveArray<T>, row: usize) -> Value<'_>
    requires { row < length array.now.values }
    ensures { slice_get (leaf_cells_in (numbers (as_bytes (T.written little) array.now))) row ≡ Some (cell_of result) }
{
    prove!(array.len() > row);
    if is_valid_in(array.validity(), row) {
        array.value(row).row_value()
    } else {
        Value::Null
    }
}

fn fixed_in(array: &FixedSizeBinaryArray, row: usize) -> Value<'_>
    requires { row < fixed_rows array.now }
    ensures { slice_get (fixed_cells array.now) row ≡ Some (cell_of result) }
{
    if is_valid_in(array.validity(), row) {
        Value::Bytes(array.value(row))
    } else {
        Value::Null
    }
}

/// A row's bytes: a text, or a byte string.
fn bytes_value<V: ViewType>(bytes: &[u8]) -> Value<'_>
    ensures { cell_of result ≡ bytes_cell V.IS_TEXT bytes.now }
{
    if V::IS_TEXT {
        Value::Text(bytes)
    } else {
        Value::Bytes(bytes)
    }
}

fn variable_in<O: Offset, V: ViewType>(array: &VariableArray<O, V>, row: usize) -> Value<'_>
    requires { row < variable_rows array.now.offsets }
    ensures { slice_get (variable_cells V.IS_TEXT array.now) row ≡ Some (cell_of result) }
{
    if is_valid_in(array.validity(), row) {
        bytes_value::<V>(array.value(row))
    } else {
        Value::Null
    }
}

fn view_in<V: ViewType>(array: &BinaryViewArrayGeneric<V>, row: usize) -> Value<'_>
    requires { row < view_rows array.now.views }
    ensures { slice_get (view_cells V.IS_TEXT array.now) row ≡ Some (cell_of result) }
{
    prove!(array.len() > row);
    match array.value(row) {
        None => Value::Null,
        Some(bytes) => bytes_value::<V>(bytes),
    }
}

#[cycle(value)]
fn dictionary_in(array: &DictionaryArray, row: usize) -> Value<'_>
    requires { row < length array.now.head.keys }
    ensures { Shows result (cell_at (nested (indexed array.now.head) array.now.children) row) }
{
    prove!(array.len() > row);
    if is_valid_in(array.validity(), row) {
        let (part, place) = array.index(row);
        let parts = array.parts();
        prove!(part < parts.len());
        value_in(&parts[part], place)
    } else {
        Value::Null
    }
}

/// What stands in a row of an array in which no arrays stand.
fn leaf_in(array: &Array, row: usize) -> Value<'_>
    requires leaf { has_children (parts_of array.now) ≡ false }
    requires below { row < rows_in (parts_of array.now) }
    ensures { slice_get (cells_in (parts_of array.now)) row ≡ Some (cell_of result) }
{
    match array {
        Array::Null(_) => Value::Null,
        Array::Boolean(array) => bit_in(array, row),
        Array::Int8(array) => number_in(array, row),
        Array::Int16(array) => number_in(array, row),
        Array::Int32(array) => number_in(array, row),
        Array::Int64(array) => number_in(array, row),
        Array::Int128(array) => number_in(array, row),
        Array::UInt8(array) => number_in(array, row),
        Array::UInt16(array) => number_in(array, row),
        Array::UInt32(array) => number_in(array, row),
        Array::UInt64(array) => number_in(array, row),
        Array::DaysMs(array) => number_in(array, row),
        Array::MonthsDaysNs(array) => number_in(array, row),
        Array::Binary(array) => variable_in(array, row),
        Array::LargeBinary(array) => variable_in(array, row),
        Array::Utf8(array) => variable_in(array, row),
        Array::LargeUtf8(array) => variable_in(array, row),
        Array::BinaryView(array) => view_in(array, row),
        Array::Utf8View(array) => view_in(array, row),
        Array::FixedSizeBinary(array) => fixed_in(array, row),
        _ => unreachable!(),
    }
}

/// What stands in a row of an array, and of a dictionary its value. The call goes as deep as dictionaries stand in one another.
#[cycle(value)]
pub(crate) fn value_in(array: &Array, row: usize) -> Value<'_>
    requires { row < rows_in (parts_of array.now) }
    ensures { Shows result (cell_at (parts_of array.now) row) }
{
    match array {
        Array::List(_) => Value::Null,
        Array::FixedSizeList(_) => Value::Null,
        Array::Map(_) => Value::Null,
        Array::Struct(_) => Value::Null,
        Array::Union(_) => Value::Null,
        Array::Dictionary(array) => dictionary_in(array, row),
        leaf => leaf_in(leaf, row),
    }
}
