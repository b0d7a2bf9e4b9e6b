//! A log of records on a disk that may crash: after a crash it has the records that were acknowledged, and at most one more, whole.
#![tactic(auto)]

mod begin;
mod framing;
mod reads;
mod record_log;
mod span;
mod walk;
mod writes;

pub use record_log::{RecordLog, append_all};
pub use span::Span;
