//! Arrow files: what the footer says, their dictionaries, and record batches by their block, in the columns and the rows asked for (Arrow Columnar Format, "IPC File Format").
#![tactic(auto)]

mod batch;
mod block;
mod dictionaries;
mod fetch;
mod integers;
mod metadata;
mod ordered;
mod row_counts;

pub use batch::{read_batch, read_block};
pub use block::{BlockMessage, read_block_header, read_block_message};
pub use dictionaries::{read_dictionary_block, read_file_dictionaries};
pub use ipc_projection::{
    ProjectionInfo, ProjectionIter, ProjectionResult, apply_projection, prepare_projection,
    projection_of,
};
pub use ipc_read::{
    Body, Dictionaries, are_held_for, check_kinds, is_held_for, read, read_binary, read_binview,
    read_boolean, read_dictionary, read_dictionary_batch, read_fixed_size_binary,
    read_fixed_size_list, read_list, read_map, read_null, read_primitive, read_record_batch,
    read_struct, read_union, read_utf8, skip, skip_binary, skip_binview, skip_boolean,
    skip_dictionary, skip_fixed_size_binary, skip_fixed_size_list, skip_list, skip_map, skip_null,
    skip_primitive, skip_struct, skip_union, skip_utf8,
};
pub use ipc_schema::{
    BatchHeader, DictionaryMessage, Failed, Feed, Footer, Got, IpcSchema, Message, MessageHeader,
    PutError, RecordMessage, Shelf, ShelfError, Sink, Source, decode_footer_len,
    default_ipc_fields, deserialize_footer, deserialize_record_blocks, deserialize_schema,
    deserialize_schema_and_blocks, footer_metadata, is_continuation, message_metadata,
    message_prefix, read_dictionary_message, read_message_header, read_record_message, read_schema,
    schema_message, schema_to_bytes, serialize_schema,
};
pub use metadata::{
    FileMetadata, custom_metadata_of, metadata_of, read_file_metadata, read_file_schema,
};
pub use ordered::{check_columns, read_projected_batch};
pub use row_counts::{get_row_count, get_row_count_from_blocks, read_block_rows};
