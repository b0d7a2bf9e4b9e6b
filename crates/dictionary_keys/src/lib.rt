//! The keys of a dictionary's rows moved by a place in a longer list of values (Arrow Columnar Format, "Dictionary-encoded Layout").
#![tactic(auto)]

mod keys;

pub use keys::moved_keys;
