//! What a run is lent, as cases say it: bytes under names, the files and the input, where devices fail, and how what is put compares.
#![tactic(auto)]

mod comparison;
mod loops;
mod names;
mod objects;
mod outside;
mod sink;

pub use case_words::{
    Answer, Case, Fault, counts, halves, is_valid_at, rest, run_files, text_of, word,
};
pub use comparison::{say_compared, say_sum};
pub use ipc_io::{Feed, MemoryFeed, MemorySource};
pub use loops::LoopFeed;
pub use names::{Names, add, bytes_of};
pub use objects::{Objects, call_sink};
pub use outside::{Devices, Outside};
pub use sink::NotingSink;
