//! The run of the program, over objects that it is lent: its words, hex text, statuses and notes, and the texts that are said of a file.
#![tactic(auto)]

mod command_line;
mod commands;
mod file_job;
mod input;
mod note;
mod program;
mod refusal;

pub use arrow_spec::IpcError;
pub use command_line::{answer, status_of_process};
pub use ipc_round_trip::{
    FileCursor, FileMetadata, FileReader, RecordMessage, StreamReader, StreamState, Summary,
    get_row_count, get_row_count_from_blocks, read_file_metadata, read_stream_metadata, transcode,
};
pub use ipc_system::{FolderShelf, InputFeed, OutputSink};
pub use note::note_refusal;
pub use program::run;
pub use refusal::{Refusal, status};
