//! View arrays of which much of the buffers is unused (Arrow Columnar Format, "Variable-size Binary View Layout").
ghost use Rattle.std.specs.Prelude.{◌≡◌, ◌+◌, ◌^◌, ◌<◌, ◌≤◌, ◌++◌, ◌∷◌, [], ℕ, suc, length, true, None, OnOk, IfOk, sum_by, if◌then◌else◌};
ghost use Rattle.std.specs.Option.{option_map};
ghost use Rattle.arrow_spec.specs.Arrays.{u32_of};
ghost use Rattle.arrow_types.specs.Physical.{physical_of};
ghost use Rattle.arrow_buffers.specs.Layouts.{is_view};
ghost use Rattle.arrow_buffers.specs.Views.{view_rows, view_at, view_fault};
ghost use Rattle.ipc_write.specs.Compaction.{value_length, value_lengths, views_need_compaction, has_room, long_view, begun_buffer, laid_anew, compacted};
ghost use Rattle.ipc_write.specs.Laying.{all_laid, IsCompact, LaidFits};

use arrow_buffers::{BinaryViewArrayGeneric, Bitmap, Buffer, ViewType};
use arrow_types::NativeType;
use std::alloc::{AllocError, Global};
use std::mem;

/// The bytes of a view.
const VIEW_SIZE: usize = 16;

/// The most bytes that stand in a view itself.
const SHORT: usize = 12;

/// The most bytes of a buffer that is laid anew.
const MOST_OF_BUFFER: usize = 0x7fff_ffff;

/// An array is laid anew where at least so many bytes are unused, or as many as are used.
const WASTE: u128 = 1024;

/// The number at a place of a view.
fn number_at(view: &[u8], at: usize) -> usize
    requires { at + 4 ≤ length view.now }
    ensures number { result ≡ u32_of view.now at }
    ensures small { result < 2 ^ 32 }
{
    <u32 as NativeType>::from_le_bytes(&view[at..at + 4]) as usize
}

/// A row's view.
fn view_at(views: &[u8], row: usize) -> &[u8]
    requires { row < view_rows views.now }
    ensures view { result.now ≡ view_at views.now row }
    ensures size { length result.now ≡ 16 }
{
    &views[VIEW_SIZE * row..VIEW_SIZE * row + VIEW_SIZE]
}

/// How long the value of a row is, 0 where it is null.
fn value_length<V: ViewType>(array: &BinaryViewArrayGeneric<V>, row: usize) -> usize
    requires { row < view_rows array.now.views }
    ensures length { result ≡ value_length array.now row }
    ensures small { result < 2 ^ 32 }
{
    let is_null = match array.validity() {
        None => false,
        Some(bits) => !bits.get(row),
    };
    if is_null {
        return 0;
    }
    number_at(view_at(array.views().as_slice(), row), 0)
}

/// How long the values are together.
fn value_lengths<V: ViewType>(array: &BinaryViewArrayGeneric<V>) -> u128
    ensures sum { result ≡ value_lengths array.now (view_rows array.now.views) }
    ensures small { (row : ℕ) → row < view_rows array.now.views → value_length array.now row < 2 ^ 32 }
{
    let mut lengths = 0;
    for row in 0..array.len() {
        lengths += value_length(array, row) as u128;
    }
    lengths
}

/// How long the buffers are together.
fn buffer_lengths(buffers: &[Buffer<u8>]) -> u128
    ensures { result ≡ sum_by length buffers.now }
{
    let mut lengths = 0;
    for buffer in buffers {
        lengths += buffer.len() as u128;
    }
    lengths
}

/// Whether at least min(v, 1024) bytes of the buffers are unused, where v is the sum of the lengths.
#[tactic(auto, unfolding(crate::specs::Compaction::views_need_compaction))]
fn needs_compaction<V: ViewType>(array: &BinaryViewArrayGeneric<V>) -> bool
    ensures compacted { result ≡ views_need_compaction array.now }
    ensures small { (row : ℕ) → row < view_rows array.now.views → value_length array.now row < 2 ^ 32 }
{
    let used = value_lengths(array);
    let held = buffer_lengths(array.data_buffers());
    used.min(WASTE) <= held.saturating_sub(used)
}

/// Views and buffers that are laid anew, and a buffer that is begun.
#[derive(Drop)]
struct Laying {
    views: Vec<u8>,
    buffers: Vec<Buffer<u8>>,
    begun: Vec<u8>,
}

/// Whether a value of so many bytes goes into a buffer that has some: it is the first, or the buffer stays within its limit.
fn has_room(begun: usize, count: usize) -> bool
    requires { begun + count < 2 ^ 64 }
    ensures { result ≡ has_room begun count }
{
    begun == 0 || begun + count <= MOST_OF_BUFFER
}

/// Ends the buffer that is begun where it has no room for a value, and begins another.
fn make_room(alloc: Global, laying: &mut Laying, count: usize) -> Result<(), AllocError>
    requires { count < 2 ^ 32 }
    ensures views { laying.new.views ≡ laying.old.views }
    ensures buffers { OnOk result (laying.new.buffers.items ≡ (if has_room (length laying.old.begun.items) count then laying.old.buffers.items else laying.old.buffers.items ++ laying.old.begun.items ∷ [])) }
    ensures begun { OnOk result (laying.new.begun.items ≡ (if has_room (length laying.old.begun.items) count then laying.old.begun.items else [])) }
    ensures short { OnOk result (length laying.new.begun.items < 2 ^ 31) }
{
    if has_room(laying.begun.len(), count) {
        return Ok(());
    }
    let ended = mem::replace(&mut laying.begun, Vec::new(alloc));
    laying.buffers.push(Buffer::from_bytes(ended)?)?;
    Ok(())
}

/// Adds a value to the buffer that is begun, and its view.
fn lay_long(laying: &mut Laying, bytes: &[u8]) -> Result<(), AllocError>
    requires long { 4 ≤ length bytes.now }
    requires small { length bytes.now < 2 ^ 32 }
    requires short { length laying.old.begun.items < 2 ^ 31 }
    ensures views { OnOk result (laying.new.views.items ≡ laying.old.views.items ++ long_view bytes.now (length laying.old.buffers.items) (length laying.old.begun.items)) }
    ensures buffers { laying.new.buffers ≡ laying.old.buffers }
    ensures begun { OnOk result (laying.new.begun.items ≡ laying.old.begun.items ++ bytes.now) }
    ensures few { OnOk result (length laying.new.buffers.items < 2 ^ 32) }
{
    // So many buffers are in no memory.
    let Ok(number) = u32::try_from(laying.buffers.len()) else {
        return Err(AllocError);
    };
    laying
        .views
        .extend_from_slice(&(bytes.len() as u32).to_le_bytes())?;
    laying.views.extend_from_slice(&bytes[..4])?;
    laying.views.extend_from_slice(&number.to_le_bytes())?;
    laying
        .views
        .extend_from_slice(&(laying.begun.len() as u32).to_le_bytes())?;
    laying.begun.extend_from_slice(bytes)?;
    Ok(())
}

/// Adds a row.
fn lay_row<V: ViewType>(
    alloc: Global,
    array: &BinaryViewArrayGeneric<V>,
    row: usize,
    laying: &mut Laying,
) -> Result<(), AllocError>
    requires row { row < view_rows array.now.views }
    requires sound { view_fault V.IS_TEXT (is_view V.IS_TEXT (physical_of array.now.kind)) array.now ≡ None }
    ensures rest { OnOk result ((n : ℕ) → all_laid array.now (row + 1) n laying.new.views.items laying.new.buffers.items laying.new.begun.items ≡ all_laid array.now row (suc n) laying.old.views.items laying.old.buffers.items laying.old.begun.items) }
    ensures few { OnOk result (length laying.old.buffers.items < 2 ^ 32 → length laying.new.buffers.items < 2 ^ 32) }
{
    let Some(bytes) = array.value(row) else {
        return laying.views.extend_from_slice(&[0; VIEW_SIZE]);
    };
    let view = view_at(array.views().as_slice(), row);
    let count = number_at(view, 0);
    if count <= SHORT {
        return laying.views.extend_from_slice(view);
    }
    make_room(alloc, laying, count)?;
    lay_long(laying, bytes)
}

/// Views and buffers, of which the last is the one that is begun, if it has bytes.
fn end_laying(laying: Laying) -> Result<(Buffer<u8>, Vec<Buffer<u8>>), AllocError>
    ensures views { IfOk result (λ r. r.0 ≡ laying.views.items) }
    ensures buffers { IfOk result (λ r. r.1.items ≡ laying.buffers.items ++ begun_buffer laying.begun.items) }
{
    let Laying {
        views,
        mut buffers,
        begun,
    } = laying;
    if !begun.is_empty() {
        buffers.push(Buffer::from_bytes(begun)?)?;
    }
    Ok((Buffer::from_bytes(views)?, buffers))
}

/// Lays all rows anew.
fn lay_rows<V: ViewType>(
    alloc: Global,
    array: &BinaryViewArrayGeneric<V>,
) -> Result<(Buffer<u8>, Vec<Buffer<u8>>), AllocError>
    ensures laid { IfOk result (λ r. laid_anew array.now ≡ record { views = r.0; buffers = r.1.items }) }
    ensures few { IfOk result (λ r. length r.1.items ≤ 2 ^ 32) }
    ensures sound { view_fault V.IS_TEXT (is_view V.IS_TEXT (physical_of array.now.kind)) array.now ≡ None }
{
    let mut laying = Laying {
        views: Vec::new(alloc),
        buffers: Vec::new(alloc),
        begun: Vec::new(alloc),
    };
    for row in 0..array.len() {
        lay_row(alloc, array, row, &mut laying)?;
    }
    end_laying(laying)
}

/// The same bits, where there are any.
fn owned_validity(validity: Option<&Bitmap>) -> Result<Option<Bitmap>, AllocError>
    ensures { IfOk result (λ v. v ≡ option_map (λ b. b.now) validity.entry) }
{
    match validity {
        None => Ok(None),
        Some(bits) => Ok(Some(bits.try_clone()?)),
    }
}

/// The array laid anew, where at least min(v, 1024) bytes of its buffers are unused, v being the sum of its values' lengths: rows that
/// are null have views of zeros, and the values of more than 12 bytes stand one behind another in buffers of up to 2^31 - 1 bytes. A value
/// that is longer stands in a buffer of its own, and no buffer is empty.
///
/// # Errors
///
/// For want of memory.
pub(crate) fn compact<V: ViewType>(
    alloc: Global,
    array: &BinaryViewArrayGeneric<V>,
) -> Result<Option<BinaryViewArrayGeneric<V>>, AllocError>
    ensures compact { IfOk result (λ o. IsCompact array.now o) }
    ensures fits { IfOk result (λ _. views_need_compaction array.now ≡ true → LaidFits array.now) }
{
    if !needs_compaction(array) {
        return Ok(None);
    }
    let dtype = array.dtype().try_clone(alloc)?;
    let validity = owned_validity(array.validity())?;
    let (views, buffers) = lay_rows(alloc, array)?;
    match BinaryViewArrayGeneric::try_new(dtype, views, buffers, validity) {
        Ok(compacted) => Ok(Some(compacted)),
        Err(_) => unreachable!(),
    }
}
