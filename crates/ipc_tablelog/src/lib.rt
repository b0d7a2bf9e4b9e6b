//! A log of record batches on a disk that may crash: after a crash it has the batches that were acknowledged, and at most one more, whole.
#![tactic(auto)]

mod open;
mod table_log;

pub use ipc_log_records::{WholeStream, are_bytes};
pub use table_log::TableLog;
