//! The words of the command line: what they ask for, read with `clap`, and the texts of help and of the version.
#![tactic(auto)]

mod arguments;
mod commands;
mod filter_words;
mod found;
mod help;
mod numbers;
mod requests;
mod words;
mod words_error;

pub use filter_types::{Filter, FilterOp};
pub use help::help_text;
pub use requests::{Cat, Csv, File, Log, Request, Scan, Stream};
pub use words::read_words;
pub use words_error::WordsError;
