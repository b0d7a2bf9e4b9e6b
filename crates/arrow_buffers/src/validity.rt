//! Which rows of an array are valid (Arrow Columnar Format, "Validity bitmaps").
ghost use Rattle.std.specs.Prelude.{◌≡◌, ◌+◌, ◌/◌, ◌%◌, ◌≤◌, ◌<◌, ◌&&◌, length, nat_eq, IfOk};
ghost use Rattle.std.specs.Option.{ForSome, option_map};
ghost use Rattle.arrow_buffers.specs.Rows.{part, has_rows, null_rows, is_valid};

use crate::Bitmap;
use std::alloc::AllocError;

/// Whether the validity, where there is one, has so many bits.
pub fn validity_has(validity: &Option<Bitmap>, rows: usize) -> bool
    ensures { result ≡ has_rows validity.now rows }
{
    match validity {
        None => true,
        Some(bits) => bits.len() == rows,
    }
}

/// Whether a row is valid: every row, where no validity is given.
pub fn validity_at(validity: &Option<Bitmap>, row: usize) -> bool
    requires { ForSome validity.now (λ v. row < length v) }
    ensures { result ≡ is_valid validity.now row }
{
    match validity {
        None => true,
        Some(bits) => bits.get(row),
    }
}

/// How many rows are null.
pub fn nulls_in(validity: &Option<Bitmap>) -> usize
    ensures { result ≡ null_rows validity.now }
{
    match validity {
        None => 0,
        Some(bits) => bits.unset_bits(),
    }
}

/// Leaves only the part.
pub fn narrow_validity(validity: &mut Option<Bitmap>, offset: usize, rows: usize)
    requires { ForSome validity.old (λ v. offset + rows ≤ length v) }
    ensures { validity.new ≡ option_map (part offset rows) validity.old }
{
    if let Some(bits) = validity {
        bits.narrow(offset, rows);
    }
}

/// A second owner of the same bits.
pub fn clone_validity(validity: &Option<Bitmap>) -> Result<Option<Bitmap>, AllocError>
    ensures { IfOk result (λ v. v ≡ validity.now) }
{
    match validity {
        None => Ok(None),
        Some(bits) => Ok(Some(bits.try_clone()?)),
    }
}

/// Whether the bytes are whole rows, and the validity of as many.
pub(crate) fn are_whole_rows(size: usize, bytes: usize, validity: &Option<Bitmap>) -> bool
    requires { 0 < size }
    ensures { result ≡ (nat_eq (bytes % size) 0 && has_rows validity.now (bytes / size)) }
{
    bytes % size == 0 && validity_has(validity, bytes / size)
}
