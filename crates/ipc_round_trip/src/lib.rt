//! A generated file that becomes a stream and is read back, and the line that is said of it.
#![tactic(auto)]

mod line;
mod memory;
mod number;

pub use ipc_append::{
    StreamReader, StreamState, WholeStream, WriteOptions, append_stream, read_stream_metadata,
    read_whole,
};
pub use ipc_generate::generate;
pub use ipc_transcode::{
    FileCursor, FileMetadata, FileReader, RecordMessage, Summary, get_row_count,
    get_row_count_from_blocks, metadata_of, read_file_metadata, read_file_schema, transcode,
    transcode_as,
};
pub use line::generated_line;
