//! Runs of numbers that share their memory.

pub use arrow_buffers::Buffer;
