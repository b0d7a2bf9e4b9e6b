//! Schemas, record batches and messages as they are written.

pub use ipc_append::{
    BegunFile, BodyBuffer, BodyPlan, Compression, EncodedData, FileCore, FileWriter, Record,
    WriteOptions, encode_record_batch, encode_values, message_to_bytes, pad_to_64, plan_batch,
    plan_values, put_body, write, write_continuation, write_dictionary, write_message, write_plan,
};
pub use ipc_transcode::{
    DictionaryTracker, Encoding, NewDictionaries, StreamCore, StreamWriter, ToEncode,
    default_ipc_fields, dictionaries_to_encode, encode_chunk, encode_chunk_amortized,
    encode_dictionary, encode_new_dictionaries, new_dictionaries, schema_message, schema_to_bytes,
    serialize_schema,
};
