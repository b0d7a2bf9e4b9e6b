//! Arrays as they are written: to nodes, buffers and view counts, and to a body (Arrow Columnar Format, "Serialization and
//! Interprocess Communication (IPC)").
#![tactic(auto)]

mod array;
mod cuts;
mod dictionaries;
mod layouts;
mod leaves;
mod outputs;
mod trees;

pub use array::{plan, write};
pub use outputs::Outputs;
