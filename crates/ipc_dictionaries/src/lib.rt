//! The dictionaries that a writer has sent, and what of a batch's is still to be sent (Arrow Columnar Format, "Dictionary Messages").
#![tactic(auto)]

mod changes;
mod columns;
mod comparison;
mod sending;
mod shapes;
mod tracker;
mod used;
mod walk;

pub use sending::{NewDictionaries, dictionaries_to_encode, new_dictionaries};
pub use tracker::DictionaryTracker;
pub use walk::ToEncode;
