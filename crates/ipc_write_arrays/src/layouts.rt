//! The buffers of each layout (Arrow Columnar Format, "Buffer Listing for Each Layout").
ghost use Rattle.std.specs.Prelude.{◌≡◌, ◌+◌, ◌≤◌, [], ◌∷◌, length, map, true, IfOk};
ghost use Rattle.std.specs.Option.{option_map};
ghost use Rattle.std.specs.List.{flat_map};
ghost use Rattle.arrow_spec.specs.Flat.{Order, little, order_by};
ghost use Rattle.arrow_spec.specs.Framing.{validity_bytes};
ghost use Rattle.arrow_types.specs.Numbers.{offsets_by};
ghost use Rattle.arrow_buffers.specs.Rows.{part};
ghost use Rattle.arrow_buffers.specs.Variable.{place_at, variable_rows, are_offsets};
ghost use Rattle.arrow_arrays.specs.LeafParts.{bits, numbers, fixed, as_bytes};
ghost use Rattle.ipc_bodies.specs.Adding.{Appends};
ghost use Rattle.ipc_bodies.specs.Fitting.{offset_limit, AllBelow, AllFit, ReadsFit};
ghost use Rattle.ipc_bodies.specs.Pieces.{in_order, offset_bytes};
ghost use Rattle.ipc_write_arrays.specs.Pieces.{OffsetsFit, leaf_pieces, variable_pieces, view_pieces, bytes_between};

use arrow_buffers::{
    BinaryViewArrayGeneric, Bitmap, BooleanArray, Buffer, FixedSizeBinaryArray, PrimitiveArray,
    VariableArray, ViewType, place_of,
};
use arrow_types::{NativeType, Offset};
use ipc_bodies::BodyBuffer;
use std::alloc::AllocError;

/// Adds a buffer.
fn add_buffer(buffer: BodyBuffer, buffers: &mut Vec<BodyBuffer>) -> Result<(), AllocError>
    ensures { Appends result buffers.old.items buffers.new.items (buffer ∷ []) }
{
    buffers.push(buffer)?;
    Ok(())
}

/// Adds a validity; where none is held, a buffer of no bytes.
pub(crate) fn add_validity(
    validity: Option<&Bitmap>,
    buffers: &mut Vec<BodyBuffer>,
) -> Result<(), AllocError>
    ensures { Appends result buffers.old.items buffers.new.items (validity_bytes (option_map (λ b. b.now) validity.entry) ∷ []) }
{
    add_buffer(BodyBuffer::of_validity(validity)?, buffers)
}

/// Adds bytes.
fn add_bytes(bytes: &Buffer<u8>, buffers: &mut Vec<BodyBuffer>) -> Result<(), AllocError>
    ensures { Appends result buffers.old.items buffers.new.items (bytes.now ∷ []) }
{
    add_buffer(BodyBuffer::of_bytes(bytes)?, buffers)
}

/// Adds buffers, each as it is held.
fn add_held(held: &[Buffer<u8>], buffers: &mut Vec<BodyBuffer>) -> Result<(), AllocError>
    ensures { Appends result buffers.old.items buffers.new.items held.now }
{
    for buffer in held {
        add_bytes(buffer, buffers)?;
    }
    Ok(())
}

/// Adds numbers in the order that is asked for.
fn add_numbers<T: NativeType>(
    numbers: &Buffer<T>,
    buffers: &mut Vec<BodyBuffer>,
    is_little_endian: bool,
) -> Result<(), AllocError>
    requires turned { (order : Order) (x : T) → in_order order T.PRIMITIVE (T.written little x) ≡ T.written order x }
    ensures bytes { Appends result buffers.old.items buffers.new.items (flat_map (T.written (order_by is_little_endian)) numbers.now ∷ []) }
    ensures fit { IfOk result (λ _. ReadsFit T.read T.fits → AllFit T.fits numbers.now) }
{
    add_buffer(BodyBuffer::of_numbers(numbers, is_little_endian)?, buffers)
}

/// Adds the numbers from one on, so many of them.
pub(crate) fn add_part<T: NativeType>(
    numbers: &Buffer<T>,
    offset: usize,
    count: usize,
    buffers: &mut Vec<BodyBuffer>,
    is_little_endian: bool,
) -> Result<(), AllocError>
    requires within { offset + count ≤ length numbers.now }
    requires turned { (order : Order) (x : T) → in_order order T.PRIMITIVE (T.written little x) ≡ T.written order x }
    ensures bytes { Appends result buffers.old.items buffers.new.items (flat_map (T.written (order_by is_little_endian)) (part offset count numbers.now) ∷ []) }
    ensures fit { IfOk result (λ _. ReadsFit T.read T.fits → AllFit T.fits (part offset count numbers.now)) }
{
    let part = numbers.try_clone()?.sliced(offset, count);
    add_numbers(&part, buffers, is_little_endian)
}

/// Adds offsets, counted from the first.
pub(crate) fn add_offsets<O: Offset>(
    offsets: &Buffer<O>,
    limit: usize,
    buffers: &mut Vec<BodyBuffer>,
    is_little_endian: bool,
) -> Result<(), AllocError>
    requires { are_offsets (map O.number offsets.now) limit ≡ true }
    ensures bytes { Appends result buffers.old.items buffers.new.items (offset_bytes (order_by is_little_endian) (offsets_by O.IS_LARGE) (map O.number offsets.now) ∷ []) }
    ensures below { IfOk result (λ _. AllBelow (offset_limit (offsets_by O.IS_LARGE)) (map O.number offsets.now)) }
{
    add_buffer(
        BodyBuffer::of_offsets(offsets, limit, is_little_endian)?,
        buffers,
    )
}

/// A validity and bits.
pub(crate) fn add_bits(
    array: &BooleanArray,
    buffers: &mut Vec<BodyBuffer>,
) -> Result<(), AllocError>
    ensures { Appends result buffers.old.items buffers.new.items (leaf_pieces little (bits array.now)) }
{
    add_validity(array.validity(), buffers)?;
    add_buffer(BodyBuffer::of_bits(array.values())?, buffers)
}

/// A validity and numbers.
pub(crate) fn add_primitive<T: NativeType>(
    array: &PrimitiveArray<T>,
    buffers: &mut Vec<BodyBuffer>,
    is_little_endian: bool,
) -> Result<(), AllocError>
    requires turned { (order : Order) (x : T) → in_order order T.PRIMITIVE (T.written little x) ≡ T.written order x }
    ensures { Appends result buffers.old.items buffers.new.items (leaf_pieces (order_by is_little_endian) (numbers (as_bytes (T.written little) array.now))) }
{
    let _rows = array.len();
    add_validity(array.validity(), buffers)?;
    add_numbers(array.values(), buffers, is_little_endian)
}

/// A validity and byte strings of one size.
pub(crate) fn add_fixed(
    array: &FixedSizeBinaryArray,
    buffers: &mut Vec<BodyBuffer>,
) -> Result<(), AllocError>
    ensures { Appends result buffers.old.items buffers.new.items (leaf_pieces little (fixed array.now)) }
{
    add_validity(array.validity(), buffers)?;
    add_bytes(array.values(), buffers)
}

/// A validity, views, and the buffers as held.
pub(crate) fn add_views<V: ViewType>(
    array: &BinaryViewArrayGeneric<V>,
    buffers: &mut Vec<BodyBuffer>,
) -> Result<(), AllocError>
    ensures { Appends result buffers.old.items buffers.new.items (view_pieces array.now) }
{
    add_validity(array.validity(), buffers)?;
    add_bytes(array.views(), buffers)?;
    add_held(array.data_buffers(), buffers)
}

/// The place of the first offset, and that of the last.
fn ends_of<O: Offset>(offsets: &Buffer<O>, limit: usize) -> (usize, usize)
    requires rise { are_offsets (map O.number offsets.now) limit ≡ true }
    ensures first { result.0 ≡ place_at (map O.number offsets.now) 0 }
    ensures last { result.1 ≡ place_at (map O.number offsets.now) (variable_rows (map O.number offsets.now)) }
    ensures ordered { result.0 ≤ result.1 }
    ensures within { result.1 ≤ limit }
{
    let first = place_of(offsets, 0, limit);
    let last = place_of(offsets, offsets.len() - 1, limit);
    (first, last)
}

/// Adds the bytes between the first offset and the last.
fn add_between<O: Offset>(
    offsets: &Buffer<O>,
    values: &Buffer<u8>,
    buffers: &mut Vec<BodyBuffer>,
) -> Result<(), AllocError>
    requires { are_offsets (map O.number offsets.now) (length values.now) ≡ true }
    ensures { Appends result buffers.old.items buffers.new.items (bytes_between (map O.number offsets.now) values.now ∷ []) }
{
    let (first, last) = ends_of(offsets, values.len());
    let between = values.try_clone()?.sliced(first, last - first);
    add_bytes(&between, buffers)
}

/// A validity, offsets that begin at 0, and the bytes between the first and the last.
pub(crate) fn add_variable<O: Offset, V: ViewType>(
    array: &VariableArray<O, V>,
    buffers: &mut Vec<BodyBuffer>,
    is_little_endian: bool,
) -> Result<(), AllocError>
    ensures bytes { Appends result buffers.old.items buffers.new.items (variable_pieces (order_by is_little_endian) array.now) }
    ensures fit { IfOk result (λ _. OffsetsFit array.now.kind array.now.offsets) }
{
    let _rows = array.len();
    let offsets = array.offsets();
    let values = array.values();
    add_validity(array.validity(), buffers)?;
    add_offsets(offsets, values.len(), buffers, is_little_endian)?;
    add_between(offsets, values, buffers)
}
