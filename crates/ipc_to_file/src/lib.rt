//! Arrow streams that become Arrow files (Arrow Columnar Format, "IPC File Format", "IPC Streaming Format").
#![tactic(auto)]

mod begin;
mod conversion;
mod feed;
mod held;
mod laws;
mod read;
mod stream;
mod write;

pub use conversion::{to_file, to_file_as};
pub use feed::SourceFeed;
pub use laws::{arrays_are_of_the_bytes, files_have_no_large_key, large_keys_are_of_the_bytes};
