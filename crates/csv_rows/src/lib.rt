//! Record batches as text of comma-separated fields.
#![tactic(auto)]

mod cells;
mod fields;
mod kinds;
mod output;
mod rows;
mod text;
mod value;

pub use kinds::are_nested;
pub use output::TextOut;
