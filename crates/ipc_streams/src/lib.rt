//! Arrow streams, read one record batch after another (Arrow Columnar Format, "IPC Streaming Format").
#![tactic(auto)]

mod body;
mod columns;
mod cursor;
mod frame;
mod head;
mod laws;
mod metadata;
mod pull;
mod reader;
mod readings;
mod state;
mod takes;

pub use ipc_files::{
    Dictionaries, FileMetadata, check_columns, custom_metadata_of, read_file_dictionaries,
    read_file_metadata,
};
pub use laws::{a_next_is_of_the_stream, arrays_are_of_the_stream, nexts_are_the_stream};
pub use metadata::{Beginning, StreamMetadata, beginning_in, read_stream_metadata};
pub use reader::StreamReader;
pub use state::StreamState;
