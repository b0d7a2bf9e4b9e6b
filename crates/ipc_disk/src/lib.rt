//! Disks: bytes that are read at any place and may be changed, the sink that is the end of one, shelves of such bytes, disks over memory and over a file, and a shelf over memory.
#![tactic(auto)]

mod disk;
mod file;
mod lent;
mod memory;
mod place;
mod shelf;
mod tail;

pub use disk::Disk;
pub use file::FileDisk;
pub use memory::MemoryDisk;
pub use place::PlaceShelf;
pub use shelf::{Entry, MemoryShelf};
pub use tail::{DiskTail, RefusedDisk};
