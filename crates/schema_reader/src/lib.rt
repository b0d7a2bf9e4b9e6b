//! The schemas of messages and footers as they are read (Arrow Columnar Format, "Schema message").
#![tactic(auto)]

mod data_type;
mod field;
mod head;
pub mod message;
mod pairs;
mod schema;
mod shape;
mod union;

pub use arrow_spec::{Counted, Feature, FlatError, IpcError, OutOfSpecKind};
pub use pairs::{PairsOwner, if_any, pairs_fault, read_pairs};
pub use schema::{deserialize_schema, read_schema};
