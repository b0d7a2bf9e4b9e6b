//! The outside of a program as objects that it is lent: sources, feeds, sinks and shelves, and such objects over memory.
#![tactic(auto)]

mod lent;
mod memory;
mod outside;
mod refused;

pub use memory::{FailingCalls, MemoryFeed, MemorySink, MemorySource, has_place};
pub use outside::{Failed, Feed, Got, PutError, Shelf, ShelfError, Sink, Source};
pub use refused::Refused;
