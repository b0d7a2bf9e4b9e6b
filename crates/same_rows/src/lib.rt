//! Whether rows of two arrays hold the same: of texts and byte strings told from their offsets and bytes at once, where they are alike.
#![tactic(auto)]

mod bytes;
mod offsets;
mod rows;
mod variable;

pub use rows::have_same_rows;
