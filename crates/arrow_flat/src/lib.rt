//! FlatBuffers: read where they lie, and built.
#![tactic(auto)]

mod build;
mod measure;
mod node;
mod number;
mod table;
mod vector;
mod write;

pub use arrow_spec::FlatError;
pub use build::{BuildError, finish};
pub use measure::size_of;
pub use node::{Node, Slot};
pub use table::{ChoiceWidth, Flat, Table};
pub use vector::Vector;
