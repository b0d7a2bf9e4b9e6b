//! Rows of arrays, and the row of the names.
ghost use Rattle.std.specs.Prelude.{◌≡◌, ◌++◌, ◌∷◌, ◌<◌, ◌-◌, ◌^◌, [], ℕ, List, Option, Some, length, map, slice_get, OnOk, IfErr, true};
ghost use Rattle.std.specs.Io.KnownBytes.{Appends};
ghost use Rattle.arrow_spec.specs.declared.error.IpcError.TheVariants.{Memory};
ghost use Rattle.arrow_types.specs.KindOf.{child_of};
ghost use Rattle.arrow_arrays.specs.Batches.{have_rows};
ghost use Rattle.arrow_arrays.specs.Parts.{kind_in, rows_in};
ghost use Rattle.arrow_arrays.specs.PartsOf.{all_parts_of, parts_of};
ghost use Rattle.csv.specs.Writing.{default_writer, row_text};
ghost use Rattle.csv_texts.specs.Texts.{cell_text};
ghost use Rattle.csv_rows.specs.Shown.{shown_cells, shown_names};
ghost use Rattle.csv_rows.specs.Values.{cell_at};
ghost use Rattle.csv_rows.specs.Writers.{IsAtRow, IsInRow, text_of};

use crate::cells::value_in;
use crate::fields::{end_row, put_field};
use crate::kinds::field_at;
use crate::text::set_value;
use crate::value::Value;
use arrow_arrays::Array;
use arrow_spec::IpcError;
use arrow_types::ArrowSchema;
use csv::Writer;

/// Writes what stands in a row of an array. The scratch is used again from call to call.
fn put_cell(
    writer: &mut Writer<Vec<u8>>,
    scratch: &mut Vec<u8>,
    array: &Array,
    row: usize,
) -> Result<(), IpcError>
    requires { row < rows_in (parts_of array.now) }
    ensures goes_on { (start : Option (List ℕ)) (cells : List (List ℕ)) → IsInRow start writer.old cells → length cells < 2 ^ 64 - 1 → OnOk result (IsInRow start writer.new (cells ++ cell_text (kind_in (parts_of array.now)) (cell_at (parts_of array.now) row) ∷ [])) }
    ensures err { IfErr result (λ e. e ≡ Memory) }
{
    match value_in(array, row) {
        Value::Text(text) => put_field(writer, text),
        value => {
            set_value(scratch, array.dtype(), value)?;
            put_field(writer, scratch.as_slice())
        }
    }
}

/// Writes a row of arrays: of each its cell. The scratch is used again from call to call.
pub(crate) fn write_row(
    writer: &mut Writer<Vec<u8>>,
    scratch: &mut Vec<u8>,
    arrays: &[Array],
    height: usize,
    row: usize,
) -> Result<(), IpcError>
    requires at { IsAtRow writer.old }
    requires rows { have_rows height (all_parts_of arrays.now) ≡ true }
    requires below { row < height }
    ensures text { OnOk result (Appends (text_of writer.old) (text_of writer.new) (row_text default_writer (shown_cells (all_parts_of arrays.now) row))) }
    ensures ended { OnOk result (IsAtRow writer.new) }
    ensures err { IfErr result (λ e. e ≡ Memory) }
{
    for i in 0..arrays.len() {
        put_cell(writer, scratch, &arrays[i], row)?;
    }
    end_row(writer)
}

/// Writes the row of the names of a schema's fields.
pub(crate) fn write_names(
    writer: &mut Writer<Vec<u8>>,
    schema: &ArrowSchema,
) -> Result<(), IpcError>
    requires { IsAtRow writer.old }
    ensures text { OnOk result (Appends (text_of writer.old) (text_of writer.new) (row_text default_writer (shown_names schema.now))) }
    ensures ended { OnOk result (IsAtRow writer.new) }
    ensures err { IfErr result (λ e. e ≡ Memory) }
{
    for i in 0..schema.len() {
        put_field(writer, field_at(schema, i).name.as_bytes())?;
    }
    end_row(writer)
}
