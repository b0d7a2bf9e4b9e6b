//! Files on a disk that go on, and streams that are appended to them.

pub use ipc_append::{WholeStream, append_stream, finish_on_disk, read_whole, try_from_file};
