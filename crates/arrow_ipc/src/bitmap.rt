//! Runs of bits that share their memory.

pub use arrow_buffers::Bitmap;
