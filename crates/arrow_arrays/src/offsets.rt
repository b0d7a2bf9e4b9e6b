//! The offsets of lists, of either width (Arrow Columnar Format, "Variable-size List Layout").
ghost use Rattle.std.specs.Prelude.{suc, ◌≡◌, ◌+◌, ◌≤◌, ◌<◌, length, IfOk, true};
ghost use Rattle.arrow_buffers.specs.Rows.{part};
ghost use Rattle.arrow_buffers.specs.Variable.{are_offsets, place_at};
ghost use Rattle.arrow_arrays.specs.OffsetsOf.{offsets_in, width_in};

use arrow_buffers::{Buffer, range_of, rise_within};
use std::alloc::AllocError;

/// Where each list begins, and where the last one ends.
#[derive(Drop)]
pub enum ListOffsets {
    /// Offsets of 32 bits.
    Small(Buffer<i32>),
    /// Offsets of 64 bits.
    Large(Buffer<i64>),
}

impl ListOffsets {
    /// How many offsets there are, one more than lists.
    pub fn len(&self) -> usize
        ensures { result ≡ length (offsets_in self.now) }
    {
        match self {
            ListOffsets::Small(offsets) => offsets.len(),
            ListOffsets::Large(offsets) => offsets.len(),
        }
    }

    /// Whether there is an offset, and none is negative, below the one before it, or past the limit.
    pub(crate) fn rise_within(&self, limit: usize) -> bool
        ensures { result ≡ are_offsets (offsets_in self.now) limit }
    {
        match self {
            ListOffsets::Small(offsets) => rise_within(offsets, limit),
            ListOffsets::Large(offsets) => rise_within(offsets, limit),
        }
    }

    /// The two places between which a list stands.
    pub(crate) fn range(&self, row: usize, limit: usize) -> (usize, usize)
        requires rise { are_offsets (offsets_in self.now) limit ≡ true }
        requires below { row + 1 < length (offsets_in self.now) }
        ensures from { result.0 ≡ place_at (offsets_in self.now) row }
        ensures to { result.1 ≡ place_at (offsets_in self.now) (suc row) }
        ensures ordered { result.0 ≤ result.1 }
        ensures within { result.1 ≤ limit }
    {
        match self {
            ListOffsets::Small(offsets) => range_of(offsets, row, limit),
            ListOffsets::Large(offsets) => range_of(offsets, row, limit),
        }
    }

    /// Leaves only the part.
    pub(crate) fn narrow(&mut self, offset: usize, count: usize)
        requires { offset + count ≤ length (offsets_in self.old) }
        ensures offsets { offsets_in self.new ≡ part offset count (offsets_in self.old) }
        ensures width { width_in self.new ≡ width_in self.old }
    {
        match self {
            ListOffsets::Small(offsets) => offsets.narrow(offset, count),
            ListOffsets::Large(offsets) => offsets.narrow(offset, count),
        }
    }

    /// A second owner of the same offsets.
    pub fn try_clone(&self) -> Result<ListOffsets, AllocError>
        ensures offsets { IfOk result (λ o. offsets_in o ≡ offsets_in self.now) }
        ensures width { IfOk result (λ o. width_in o ≡ width_in self.now) }
    {
        match self {
            ListOffsets::Small(offsets) => Ok(ListOffsets::Small(offsets.try_clone()?)),
            ListOffsets::Large(offsets) => Ok(ListOffsets::Large(offsets.try_clone()?)),
        }
    }
}
