//! The fields of a row, one after another.
ghost use Rattle.std.specs.Prelude.{◌≡◌, ◌++◌, ◌∷◌, ◌<◌, ◌-◌, ◌^◌, [], ℕ, List, Option, length, OnOk, IfErr};
ghost use Rattle.std.specs.Io.KnownBytes.{Appends};
ghost use Rattle.arrow_spec.specs.declared.error.IpcError.TheVariants.{Memory};
ghost use Rattle.csv.specs.Writing.{default_writer, row_text};
ghost use Rattle.csv_rows.specs.Writers.{IsAtRow, IsInRow, text_of};

use arrow_spec::IpcError;
use csv::Writer;

/// Writes a field. Whatever fails is want of memory, since the bytes are held.
pub(crate) fn put_field(writer: &mut Writer<Vec<u8>>, field: &[u8]) -> Result<(), IpcError>
    ensures goes_on { (start : Option (List ℕ)) (cells : List (List ℕ)) → IsInRow start writer.old cells → length cells < 2 ^ 64 - 1 → OnOk result (IsInRow start writer.new (cells ++ field.now ∷ [])) }
    ensures err { IfErr result (λ e. e ≡ Memory) }
{
    match writer.write_field(field) {
        Ok(()) => Ok(()),
        Err(_) => Err(IpcError::Memory),
    }
}

/// Ends a row.
pub(crate) fn end_row(writer: &mut Writer<Vec<u8>>) -> Result<(), IpcError>
    ensures text { (start : Option (List ℕ)) (cells : List (List ℕ)) → IsInRow start writer.old cells → OnOk result (Appends start (text_of writer.new) (row_text default_writer cells)) }
    ensures ended { (start : Option (List ℕ)) (cells : List (List ℕ)) → IsInRow start writer.old cells → OnOk result (IsAtRow writer.new) }
    ensures err { IfErr result (λ e. e ≡ Memory) }
{
    match writer.end_record() {
        Ok(()) => Ok(()),
        Err(_) => Err(IpcError::Memory),
    }
}
