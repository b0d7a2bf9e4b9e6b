//! A log of record batches that a crash leaves whole, and the disks that it stands on: over memory with a record of each change, from
//! which the disk that a crash leaves is made, and over a file that is synced.

pub use ipc_log_disk::{FileLogDisk, LogDisk, MemoryLogDisk};
pub use ipc_tablelog::TableLog;
