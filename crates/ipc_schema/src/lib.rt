//! The metadata of messages, schemas and footers.
#![tactic(auto)]

mod custom;
mod footer;
mod header;
mod message;
mod number;
mod prefix;

pub use arrow_spec::{
    Block, Counted, Feature, FieldNode, FlatError, IpcBuffer, IpcError, MetadataVersion,
    OutOfSpecKind,
};
pub use custom::{footer_metadata, message_metadata};
pub use footer::{
    Footer, decode_footer_len, deserialize_footer, deserialize_record_blocks,
    deserialize_schema_and_blocks,
};
pub use header::{read_dictionary_message, read_message_header, read_record_message};
pub use ipc_fields::{IpcField, IpcSchema};
pub use ipc_io::{
    Failed, Feed, Got, MemoryFeed, MemorySink, MemorySource, PutError, Shelf, ShelfError, Sink,
    Source,
};
pub use message::{BatchHeader, DictionaryMessage, Message, MessageHeader, RecordMessage};
pub use prefix::{is_continuation, message_prefix, metadata_length};
pub use schema_reader::{deserialize_schema, read_schema};
pub use schema_writer::{
    default_ipc_fields, message_node, schema_message, schema_to_bytes, serialize_schema,
};
