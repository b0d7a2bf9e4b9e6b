//! The records of a log of record batches: each is a closed stream of a schema, and of one batch or none, as it is written and as it is
//! read (Arrow Columnar Format, "IPC Streaming Format").
#![tactic(auto)]

mod closed;
mod decode;
mod encode;
mod memory;
mod passes;

pub use decode::{are_bytes, batch_in, record_in};
pub use encode::{first_record, record_of};
pub use ipc_append::{WholeStream, types_have_no_ids};
pub use ipc_stream_writer::is_of_schema;
