//! Disks that say what a crash may leave of their bytes: over memory, with a record of each change, and over a file; and shelves of such disks.
#![tactic(auto)]

mod change;
mod crash;
mod disk;
mod file;
mod history;
mod lent;
mod memory;
mod shelf;
mod vault;

pub use change::Change;
pub use disk::LogDisk;
pub use file::FileLogDisk;
pub use history::History;
pub use memory::MemoryLogDisk;
pub use shelf::MemoryVaultShelf;
pub use vault::VaultShelf;
