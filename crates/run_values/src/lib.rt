//! The calls of cases over arrays, types, buffers, batches, columns, messages, dictionaries, flatbuffers and schemas.
#![tactic(auto)]

mod columns;
mod dictionaries;
mod messages;
mod state;
mod written;

pub use state::Values;
