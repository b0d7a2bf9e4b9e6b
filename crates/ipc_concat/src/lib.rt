//! From several Arrow files of the same fields to one stream, which means their tables one after another (Arrow Columnar Format, "IPC File Format" and "IPC Streaming Format").
#![tactic(auto)]

mod begin;
mod conversion;
mod opening;
mod stream;

pub use conversion::{concat, concat_as};
pub use laws_walk::{StreamCore, Summary, WriteOptions, types_have_no_ids};
