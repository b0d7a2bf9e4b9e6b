//! The states of a linear recurrence modulo 2^64.
ghost use Rattle.std.specs.Prelude.{◌≡◌, IfOk, OnOk};
ghost use Rattle.ipc_generate.specs.Arrays.{states_behind};
ghost use Rattle.ipc_generate.specs.Table.{state, step};

use std::alloc::{AllocError, Global};

const MULTIPLIER: u64 = 6_364_136_223_846_793_005;

const INCREMENT: u64 = 1_442_695_040_888_963_407;

/// The state behind another.
fn step(x: u64) -> u64
    ensures { result ≡ step x }
{
    x.wrapping_mul(MULTIPLIER).wrapping_add(INCREMENT)
}

/// A recurrence, at a state.
pub(crate) struct States {
    at: u64,
}

impl Drop for States {
    fn drop(self) {
        let States { at: _ } = self;
    }
}

impl States {
    /// It begins at this state, which is none of those that it gives.
    pub(crate) fn new(seed: u64) -> States
        ensures { result.at ≡ seed }
    {
        States { at: seed }
    }

    /// The next states, so many.
    pub(crate) fn take(&mut self, alloc: Global, count: usize) -> Result<Vec<u64>, AllocError>
        ensures states { IfOk result (λ v. v.items ≡ states_behind self.old.at count) }
        ensures behind { OnOk result (self.new.at ≡ state self.old.at count) }
    {
        let mut states = Vec::new(alloc);
        states.reserve(count)?;
        for row in 0..count {
            self.at = step(self.at);
            states.push(self.at)?;
        }
        Ok(states)
    }
}
