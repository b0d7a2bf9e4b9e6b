//! Apache Arrow arrays, schemas and record batches, and their IPC format: files and streams, uncompressed. One crate to add: its modules are those in which a user of polars-arrow looks, and give on what the crates below have.
#![tactic(auto)]

pub mod array;
pub mod bitmap;
pub mod buffer;
pub mod compute;
pub mod datatypes;
pub mod io;
pub mod mmap;
pub mod offset;
pub mod record_batch;
pub mod types;
