//! Logs of record batches and streams: the table of a log as a stream, and a stream's batches at a log's end (Arrow Columnar Format, "IPC Streaming Format").
#![tactic(auto)]

mod append;
mod put;
mod sound;

pub use append::append_to_log;
pub use ipc_bodies::Encoding;
pub use ipc_concat::concat_as;
pub use ipc_tablelog::{WholeStream, are_bytes};
pub use put::put_log_as;
