//! Rows of arrays of any kind: those that are marked, and those of some numbers.

pub use array_filter::{filter, take};
