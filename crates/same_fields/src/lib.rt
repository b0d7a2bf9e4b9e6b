//! Whether two schemas have the same fields (Schema.fbs, Schema and Field).
#![tactic(auto)]

mod bare;

pub use bare::have_same_fields;
