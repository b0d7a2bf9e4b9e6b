//! Files, schemas and record batches as they are read.

pub use arrow_spec::{Block, FieldNode, IpcBuffer, MetadataVersion};
pub use ipc_append::{StreamMetadata, StreamReader, StreamState, read_stream_metadata};
pub use ipc_flight::{FlightConsumer, FlightStreamProducer, FlightstreamConsumer};
pub use ipc_io::Refused;
pub use ipc_transcode::{
    BatchHeader, Body, Dictionaries, FileCursor, FileMetadata, FileReader, Footer, Message,
    MessageHeader, ProjectionInfo, ProjectionIter, ProjectionResult, RecordMessage,
    apply_projection, are_held_for, check_columns, decode_footer_len, deserialize_footer,
    deserialize_record_blocks, deserialize_schema, deserialize_schema_and_blocks, footer_metadata,
    get_row_count, get_row_count_from_blocks, is_held_for, message_metadata, message_prefix,
    prepare_projection, read, read_batch, read_binary, read_binview, read_block_header,
    read_block_rows, read_boolean, read_dictionary, read_dictionary_batch, read_file_dictionaries,
    read_file_metadata, read_file_schema, read_fixed_size_binary, read_fixed_size_list, read_list,
    read_map, read_message_header, read_null, read_primitive, read_projected_batch,
    read_record_batch, read_record_message, read_struct, read_union, read_utf8, skip, skip_binary,
    skip_binview, skip_boolean, skip_dictionary, skip_fixed_size_binary, skip_fixed_size_list,
    skip_list, skip_map, skip_null, skip_primitive, skip_struct, skip_union, skip_utf8,
};
