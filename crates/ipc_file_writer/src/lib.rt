//! Record batches as they are written to a file (Arrow Columnar Format, "IPC File Format").
#![tactic(auto)]

mod begun;
mod blocks;
mod calls;
mod ends;
mod file;
mod footer;
mod given;
mod pairs;
mod placing;
mod writer;

pub use begun::BegunFile;
pub use file::FileCore;
pub use ipc_messages::{
    BodyBuffer, BodyPlan, Compression, DictionaryTracker, EncodedData, Record, WriteOptions,
    encode_chunk, encode_record_batch, encode_values, message_to_bytes, pad_to_64, plan_batch,
    plan_values, put_body, write, write_continuation, write_dictionary, write_message, write_plan,
};
pub use writer::FileWriter;
