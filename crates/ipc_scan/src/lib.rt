//! Files that are read for the rows in which a column's number meets a comparison, and sent as streams, with no more read than these rows need (Arrow Columnar Format, "IPC File Format" and "IPC Streaming Format").
#![tactic(auto)]

mod columns;
mod conversion;
mod keep;
mod scanner;
mod send;

pub use conversion::{scan, scan_as};
pub use laws_walk::Summary;
pub use row_filters::{Filter, FilterOp};
