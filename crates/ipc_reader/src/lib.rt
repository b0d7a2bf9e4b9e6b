//! Files that are read one record batch after another, in the columns and as far as the rows asked for, under the dictionaries that are read at the first of them (Arrow Columnar Format, "IPC File Format").
#![tactic(auto)]

mod cursor;
mod kept;
mod reader;
mod reads;

pub use cursor::FileCursor;
pub use ipc_files::{
    BatchHeader, Body, Dictionaries, Failed, Feed, FileMetadata, Footer, Got, Message,
    MessageHeader, ProjectionInfo, ProjectionIter, ProjectionResult, PutError, RecordMessage,
    Shelf, ShelfError, Sink, Source, apply_projection, are_held_for, check_columns,
    decode_footer_len, default_ipc_fields, deserialize_footer, deserialize_record_blocks,
    deserialize_schema, deserialize_schema_and_blocks, footer_metadata, get_row_count,
    get_row_count_from_blocks, is_held_for, message_metadata, message_prefix, metadata_of,
    prepare_projection, projection_of, read, read_batch, read_binary, read_binview,
    read_block_header, read_block_rows, read_boolean, read_dictionary, read_dictionary_batch,
    read_file_dictionaries, read_file_metadata, read_file_schema, read_fixed_size_binary,
    read_fixed_size_list, read_list, read_map, read_message_header, read_null, read_primitive,
    read_projected_batch, read_record_batch, read_record_message, read_struct, read_union,
    read_utf8, schema_message, schema_to_bytes, serialize_schema, skip, skip_binary, skip_binview,
    skip_boolean, skip_dictionary, skip_fixed_size_binary, skip_fixed_size_list, skip_list,
    skip_map, skip_null, skip_primitive, skip_struct, skip_union, skip_utf8,
};
pub use reader::FileReader;
