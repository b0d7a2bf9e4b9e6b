//! The table of an Arrow file as text of comma-separated fields.
#![tactic(auto)]

mod conversion;
mod print;

pub use conversion::to_csv;
pub use laws_walk::Summary;
