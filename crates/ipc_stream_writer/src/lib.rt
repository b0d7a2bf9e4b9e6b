//! Record batches as they are written to a stream (Arrow Columnar Format, "IPC Streaming Format").
#![tactic(auto)]

mod calls;
mod stream;
mod writer;

pub use ipc_bodies::Encoding;
pub use ipc_messages::{
    DictionaryTracker, NewDictionaries, ToEncode, WriteOptions, dictionaries_to_encode,
    encode_chunk, encode_chunk_amortized, encode_dictionary, encode_new_dictionaries, is_of_schema,
    new_dictionaries,
};
pub use stream::StreamCore;
pub use writer::StreamWriter;
