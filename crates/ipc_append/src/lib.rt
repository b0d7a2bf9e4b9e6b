//! Files that go on: record batches, or a whole Arrow stream, are appended to an Arrow file on a disk (Arrow Columnar Format, "IPC File Format", "IPC Streaming Format").
#![tactic(auto)]

mod append;
mod checks;
mod encode;
mod ending;
mod ends;
mod prepare;
mod put;
mod stream;
mod stream_append;
mod whole;

pub use append::try_from_file;
pub use ending::finish_on_disk;
pub use ipc_file_writer::{
    BegunFile, BodyBuffer, BodyPlan, Compression, EncodedData, FileCore, FileWriter, Record,
    WriteOptions, encode_record_batch, encode_values, message_to_bytes, pad_to_64, plan_batch,
    plan_values, put_body, write, write_continuation, write_dictionary, write_message, write_plan,
};
pub use ipc_streams::{StreamMetadata, StreamReader, StreamState, read_stream_metadata};
pub use laws_sent::types_have_no_ids;
pub use stream::WholeStream;
pub use stream_append::append_stream;
pub use whole::{read_rest, read_whole};
