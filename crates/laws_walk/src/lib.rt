//! Files whose blocks are walked one after another, each for at most one batch: what was read and sent so far, where a refusal stops, and what is fetched;
//! and the steps that all such walks have. The contract of a function without a body is a law, proved in `proofs/`.
#![tactic(auto)]

ghost use Rattle.laws_walk.specs.Laws.{WalkIsFile};

mod sending;
mod summary;

pub use ipc_reader::{
    FileCursor, FileMetadata, ProjectionInfo, check_columns, projection_of, read_file_metadata,
};
pub use ipc_stream_writer::{StreamCore, WriteOptions};
pub use laws_sent::types_have_no_ids;
pub use sending::{batch_count, numbers_asked, writer_of};
pub use summary::Summary;

/// Within a request a walk gives what the file means (Arrow Columnar Format, "IPC File Format").
pub fn walk_is_file()
    ensures { WalkIsFile }
{}
