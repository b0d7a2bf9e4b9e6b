//! What is asked of the rows of a column of numbers.
#![tactic(auto)]

mod filter;

pub use filter::{Filter, FilterOp};
