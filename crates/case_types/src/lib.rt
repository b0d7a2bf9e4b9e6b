//! The words of cases: numbers, bits, bytes and types, the fields and schemas of types, and what stands in a value's place.
#![tactic(auto)]

mod columns;
mod fault;
mod types;
mod words;

pub use columns::{fields_of, schema_of};
pub use fault::Fault;
pub use types::type_of;
pub use words::{
    Answer, add_bytes, bits, bytes, bytes_of, counts, halves, hex_bytes, numbers, pair, parts,
    repeat, rest, word,
};
