//! Objects over memory. They tell their bytes, and fail where they are told to.

mod calls;
mod feed;
mod sink;
mod source;

pub use calls::FailingCalls;
pub use feed::MemoryFeed;
pub use sink::MemorySink;
pub use source::{MemorySource, has_place};
