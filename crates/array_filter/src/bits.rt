//! Bits, and validities.
ghost use Rattle.std.specs.Prelude.{◌≡◌, ◌+◌, ◌≤◌, ◌++◌, length, true, IfOk, OnOk};
ghost use Rattle.std.specs.Option.{option_map};
ghost use Rattle.arrow_buffers.specs.Rows.{has_rows, part};
ghost use Rattle.array_filter.specs.Rows.{taken};
ghost use Rattle.array_filter.specs.Runs.{Climb, rows_in_runs};

use crate::runs::{Run, is_one};
use arrow_buffers::Bitmap;
use std::alloc::{AllocError, Global};

/// Adds so many bits from one on.
fn push_bits(
    taken: &mut Vec<bool>,
    bits: &Bitmap,
    from: usize,
    count: usize,
) -> Result<(), AllocError>
    requires { from + count ≤ length bits.now }
    ensures { OnOk result (taken.new.items ≡ taken.old.items ++ part from count bits.now) }
{
    let _held = bits.len();
    taken.reserve(count)?;
    for i in 0..count {
        taken.push(bits.get(from + i))?;
    }
    Ok(())
}

/// The bits at the rows of runs, which share the memory where one run has all.
pub(crate) fn take_bits(alloc: Global, bits: &Bitmap, runs: &[Run]) -> Result<Bitmap, AllocError>
    requires { Climb 0 runs.now (length bits.now) }
    ensures { IfOk result (λ b. b ≡ taken (rows_in_runs runs.now) bits.now) }
{
    if is_one(runs, bits.len()) {
        return bits.try_clone();
    }
    let mut taken = Vec::new(alloc);
    for run in runs {
        push_bits(&mut taken, bits, run.from, run.count)?;
    }
    Bitmap::from_slice(alloc, taken.as_slice())
}

/// The validity of the rows of runs, where one is held.
pub(crate) fn take_validity(
    alloc: Global,
    validity: Option<&Bitmap>,
    held: usize,
    runs: &[Run],
) -> Result<Option<Bitmap>, AllocError>
    requires bits { has_rows (option_map (λ b. b.now) validity) held ≡ true }
    requires climb { Climb 0 runs.now held }
    ensures { IfOk result (λ v. v ≡ option_map (taken (rows_in_runs runs.now)) (option_map (λ b. b.now) validity.entry)) }
{
    match validity {
        None => Ok(None),
        Some(bits) => Ok(Some(take_bits(alloc, bits, runs)?)),
    }
}
