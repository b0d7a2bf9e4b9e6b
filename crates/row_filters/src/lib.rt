//! Rows of arrays in which a number meets a comparison.
#![tactic(auto)]

mod kinds;
mod marks;
mod number;

pub use filter_types::{Filter, FilterOp};
pub use kinds::are_numbers;
pub use marks::row_marks;
