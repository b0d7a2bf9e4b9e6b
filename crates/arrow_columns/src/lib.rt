//! Columns made of rows, and found by name.
#![tactic(auto)]

mod dictionary;
mod named;
mod optional;
mod strings;

pub use dictionary::dictionary_of_texts;
pub use named::{column, index_of};
pub use optional::{optional_numbers, optional_texts};
pub use strings::{byte_strings, texts};
