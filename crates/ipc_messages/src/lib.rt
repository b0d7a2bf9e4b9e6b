//! Record batches, and what of their dictionaries is sent before them, as messages that writers of streams and of files put (Arrow Columnar Format, "Encapsulated message format", "Dictionary Messages").
#![tactic(auto)]

mod batches;
mod chunk;
mod encoded;
mod encoded_dictionaries;
mod features;
mod fields;
mod framed;
mod framed_message;
mod framed_puts;
mod messages;
mod pairs;
mod planned;
mod puts;
mod schema;
mod state;
mod types;

pub use arrow_arrays::RecordBatch;
pub use batches::is_of_schema;
pub use chunk::{encode_chunk, encode_chunk_amortized};
pub use encoded_dictionaries::{encode_dictionary, encode_new_dictionaries};
pub use fields::fields_for;
pub use framed::framed_chunk;
pub use framed_message::FramedMessage;
pub use framed_puts::put_framed;
pub use ipc_dictionaries::{
    DictionaryTracker, NewDictionaries, ToEncode, dictionaries_to_encode, new_dictionaries,
};
pub use ipc_write::{
    BodyBuffer, BodyPlan, Compression, EncodedData, IpcSchema, Record, WriteOptions,
    default_ipc_fields, encode_record_batch, encode_values, message_to_bytes, pad_to_64,
    plan_batch, plan_values, put_body, serialize_schema, write, write_continuation,
    write_dictionary, write_message, write_plan,
};
pub use messages::chunk_messages;
pub use pairs::{StreamPairs, lent};
pub use planned::PlannedMessage;
pub use puts::{
    Stop, behind_begun, put_messages, put_messages_as, put_whole, put_whole_as, send_chunk_as,
};
pub use schema::{StreamStart, schema_text, stream_start};
pub use state::WriterState;
