//! Arrow files and streams (Arrow Columnar Format, "Serialization and Interprocess Communication").

pub mod append;
pub mod log;
pub mod read;
pub mod write;

pub use arrow_spec::{Counted, Feature, FlatError, IpcError, OutOfSpecKind};
pub use ipc_concat::concat;
pub use ipc_fields::{IpcField, IpcSchema};
pub use ipc_scan::{Filter, FilterOp, scan, scan_as};
pub use ipc_to_file::{SourceFeed, to_file};
pub use ipc_transcode::{Summary, transcode};
