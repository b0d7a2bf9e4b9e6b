//! The calls of cases that are made of values alone: arrays, batches, types and schemas, bitmaps and buffers, flatbuffers, and the
//! metadata of messages and files. Each module answers the calls of its names.
#![tactic(auto)]

pub mod arrays;
pub mod batches;
pub mod bodies;
pub mod buffers;
pub mod flatbuffers;
pub mod headers;
pub mod schemas;
pub mod types;
