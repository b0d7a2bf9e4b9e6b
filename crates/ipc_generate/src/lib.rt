//! A table that is generated from a number, as an Arrow file.
#![tactic(auto)]

mod batch;
mod columns;
mod file;
mod schema;
mod sink;
mod states;

pub use file::generate;
pub use sink::Collected;
