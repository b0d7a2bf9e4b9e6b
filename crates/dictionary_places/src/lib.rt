//! One list for all dictionaries that stand at a place of a schema: where each fits, found in time that grows with how much both hold.
#![tactic(auto)]

mod list;
mod rows;
mod search;

pub use list::DictionaryList;
