//! The outside, as sources that are read at places, feeds, sinks, shelves and disks, with such objects over memory; and the IPC format.
//! Over the system: `FolderShelf` opens files by their names, `InputFeed` reads from a reader as standard input is, and `OutputSink` writes to a writer as standard output is.

pub mod csv;
pub mod ipc;

pub use ipc_disk::{
    Disk, DiskTail, Entry, FileDisk, MemoryDisk, MemoryShelf, PlaceShelf, RefusedDisk,
};
pub use ipc_io::{
    Failed, Feed, Got, MemoryFeed, MemorySink, MemorySource, PutError, Shelf, ShelfError, Sink,
    Source,
};
pub use ipc_system::{FolderShelf, InputFeed, OutputSink};
