//! Schemas as they are written: the ids of their dictionaries, their tables and their messages (Arrow Columnar Format, "Schema message").
#![tactic(auto)]

mod laws;
mod write;

pub use laws::written_schema_reads_back;
pub use write::{
    custom_pairs, default_ipc_fields, message_node, schema_message, schema_to_bytes,
    serialize_schema,
};
