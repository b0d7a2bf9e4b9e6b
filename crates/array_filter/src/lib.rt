//! Rows of arrays of any kind: those that are marked, and those at some numbers.
#![tactic(auto)]

mod bits;
mod bytes;
mod keys;
mod leaves;
mod offsets;
mod rows;
mod runs;
mod trees;

pub use rows::{filter, take};
pub use runs::{Run, runs_of_marks};
pub use trees::take_runs;
