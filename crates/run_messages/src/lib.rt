//! The calls of cases over writers and readers: what each call answers, and what the sink or the disk has behind it.
#![tactic(auto)]

mod appends;
mod compared;
mod encoded;
mod files;
mod made;
mod said;
mod sent;
mod sinks;
mod state;
mod streams;
mod writers;
mod written;

pub use state::Messages;
