//! Bytes of rows of one size, and items of buffers.
ghost use Rattle.std.specs.Prelude.{◌≡◌, ◌+◌, ◌*◌, ◌≤◌, length, IfOk};
ghost use Rattle.std.specs.List.{flat_map};
ghost use Rattle.arrow_buffers.specs.Leaf.{fixed_row};
ghost use Rattle.arrow_buffers.specs.Rows.{part};
ghost use Rattle.array_filter.specs.Rows.{taken};
ghost use Rattle.array_filter.specs.Runs.{AreWithin, Climb, rows_in_runs};

use crate::runs::{Run, is_one, row_count};
use arrow_buffers::Buffer;
use arrow_types::NativeType;
use std::alloc::{AllocError, Global};
use std::rc::RcSlice;

/// The bytes of a run of rows of one size.
fn bytes_of_run(bytes: &[u8], size: usize, run: Run) -> &[u8]
    requires { size * run.from + size * run.count ≤ length bytes.now }
    ensures { result.now ≡ part (size * run.from) (size * run.count) bytes.now }
{
    let from = size * run.from;
    let count = size * run.count;
    &bytes[from..from + count]
}

/// The bytes of rows of one size, run by run.
fn take_bytes(alloc: Global, bytes: &[u8], size: usize, runs: &[Run]) -> Result<Vec<u8>, AllocError>
    requires { AreWithin size runs.now (length bytes.now) }
    ensures { IfOk result (λ v. v.items ≡ flat_map (fixed_row size bytes.now) (rows_in_runs runs.now)) }
{
    let mut taken = Vec::new(alloc);
    for run in runs {
        taken.extend_from_slice(bytes_of_run(bytes, size, *run))?;
    }
    Ok(taken)
}

/// The bytes of rows of one size, of which `held` are held. They share the memory where one run has all.
pub(crate) fn take_rows(
    alloc: Global,
    bytes: &Buffer<u8>,
    size: usize,
    held: usize,
    runs: &[Run],
) -> Result<Buffer<u8>, AllocError>
    requires { AreWithin size runs.now (length bytes.now) }
    ensures { IfOk result (λ b. b ≡ flat_map (fixed_row size bytes.now) (rows_in_runs runs.now)) }
{
    if is_one(runs, held) && bytes.len() == size * held {
        return bytes.try_clone();
    }
    Buffer::from_bytes(take_bytes(alloc, bytes.as_slice(), size, runs)?)
}

/// The items at the rows of runs, which share the memory where one run has all.
pub(crate) fn take_items<T: NativeType>(
    alloc: Global,
    items: &Buffer<T>,
    runs: &[Run],
) -> Result<Buffer<T>, AllocError>
    requires { Climb 0 runs.now (length items.now) }
    ensures { IfOk result (λ b. b ≡ taken (rows_in_runs runs.now) items.now) }
{
    if is_one(runs, items.len()) {
        return items.try_clone();
    }
    let count = row_count(runs, items.len());
    let (bytes, is_big_endian) = items.held()?;
    let taken = take_bytes(alloc, bytes.as_slice(), T::WIDTH, runs)?;
    Ok(Buffer::shared(RcSlice::from_vec(taken)?, 0, count, is_big_endian))
}
