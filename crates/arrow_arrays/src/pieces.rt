//! Arrays of views of pieces of bytes (Arrow Columnar Format, "Variable-size Binary View Layout").
ghost use Rattle.std.specs.Prelude.{◌≡◌, ◌+◌, ◌*◌, ◌/◌, ◌^◌, ◌≤◌, ◌<◌, ◌++◌, length, map, sum, min, All, IfOk, OnOk};
ghost use Rattle.arrow_spec.specs.Kinds.{binary_view};
ghost use Rattle.arrow_spec.specs.Cells as cells;
ghost use Rattle.arrow_arrays.specs.Parts.{kind_in, cells_in};
ghost use Rattle.arrow_arrays.specs.PartsOf.{parts_of};
ghost use Rattle.arrow_arrays.specs.PieceViews.{pieces, shares, short_view_of, long_view_of, view_of, views_from};

use crate::array::Array;
use arrow_buffers::{BinaryViewArray, Buffer};
use arrow_types::ArrowDataType;
use std::alloc::{AllocError, Global};

/// The most bytes that stand in a view itself.
const SHORT: usize = 12;

/// How far apart the buffers begin, so that 32 bits say where in one a piece begins.
const STRIDE: usize = 0x1_0000_0000;

fn push_short(views: &mut Vec<u8>, piece: &[u8]) -> Result<(), AllocError>
    requires { length piece.now ≤ 12 }
    ensures { OnOk result (views.new.items ≡ views.old.items ++ short_view_of piece.now) }
{
    let zeros = [0; SHORT];
    views.extend_from_slice(&(piece.len() as u32).to_le_bytes())?;
    views.extend_from_slice(piece)?;
    views.extend_from_slice(&zeros[piece.len()..])?;
    Ok(())
}

fn push_long(views: &mut Vec<u8>, piece: &[u8], at: usize) -> Result<(), AllocError>
    requires long { 12 < length piece.now }
    requires fits { length piece.now < 2 ^ 32 }
    ensures { OnOk result (views.new.items ≡ views.old.items ++ long_view_of piece.now at) }
{
    views.extend_from_slice(&(piece.len() as u32).to_le_bytes())?;
    views.extend_from_slice(&piece[..4])?;
    views.extend_from_slice(&((at / STRIDE) as u32).to_le_bytes())?;
    views.extend_from_slice(&((at % STRIDE) as u32).to_le_bytes())?;
    Ok(())
}

fn push_view(views: &mut Vec<u8>, piece: &[u8], at: usize) -> Result<(), AllocError>
    requires { length piece.now < 2 ^ 32 }
    ensures { OnOk result (views.new.items ≡ views.old.items ++ view_of piece.now at) }
{
    if piece.len() <= SHORT {
        push_short(views, piece)
    } else {
        push_long(views, piece, at)
    }
}

/// The views of the pieces of these lengths.
fn views_of(alloc: Global, bytes: &[u8], lengths: &[usize]) -> Result<Vec<u8>, AllocError>
    requires each { All (λ n. n < 2 ^ 32) lengths.now }
    requires all { sum lengths.now ≤ length bytes.now }
    ensures { IfOk result (λ v. v.items ≡ views_from bytes.now 0 lengths.now) }
{
    let mut views = Vec::new(alloc);
    let mut at = 0;
    for length in lengths {
        push_view(&mut views, &bytes[at..at + *length], at)?;
        at += *length;
    }
    Ok(views)
}

/// The bytes as buffers that share their memory.
fn shares_of(alloc: Global, bytes: &Buffer<u8>) -> Result<Vec<Buffer<u8>>, AllocError>
    ensures buffers { IfOk result (λ v. v.items ≡ shares bytes.now) }
    ensures small { length bytes.now < 2 ^ 64 }
{
    let mut buffers = Vec::new(alloc);
    let held = bytes.len();
    for number in 0..held / STRIDE + 1 {
        let from = STRIDE * number;
        let count = (held - from).min(2 * STRIDE);
        buffers.push(bytes.try_clone()?.sliced(from, count))?;
    }
    Ok(buffers)
}

/// An array of views of the pieces of these lengths, which stand in the bytes one after another.
pub fn extend_from_lengths(
    alloc: Global,
    bytes: Buffer<u8>,
    lengths: &[usize],
) -> Result<Array, AllocError>
    requires each { All (λ n. n < 2 ^ 32) lengths.now }
    requires all { sum lengths.now ≤ length bytes }
    ensures kind { IfOk result (λ a. kind_in (parts_of a) ≡ binary_view) }
    ensures cells { IfOk result (λ a. cells_in (parts_of a) ≡ map cells.bytes (pieces lengths.now bytes)) }
{
    let views = Buffer::from_bytes(views_of(alloc, bytes.as_slice(), lengths)?)?;
    let buffers = shares_of(alloc, &bytes)?;
    match BinaryViewArray::try_new(ArrowDataType::BinaryView, views, buffers, None) {
        Ok(array) => Ok(Array::BinaryView(array)),
        Err(_) => unreachable!(),
    }
}
