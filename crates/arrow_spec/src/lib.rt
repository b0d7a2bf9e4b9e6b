//! What Arrow files and streams mean: the definitions stand in `specs/`, and the enums and plain records that they name stand here.
#![tactic(auto)]

mod error;
pub mod laws;
mod message;
mod types;

pub use error::{Counted, Feature, FlatError, IpcError, OutOfSpecKind};
pub use message::{Block, FieldNode, IpcBuffer, MetadataVersion};
pub use types::{IntegerType, IntervalUnit, TimeUnit, UnionMode};
