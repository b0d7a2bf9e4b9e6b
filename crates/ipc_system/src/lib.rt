//! The system's objects: the files of a folder as a shelf, a reader as a feed, and a writer as a sink.
#![tactic(auto)]

mod adapters;
mod folder;

pub use adapters::{InputFeed, OutputSink};
pub use folder::FolderShelf;
