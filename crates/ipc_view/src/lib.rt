//! Views of a file's record batches that lend the caller's bytes, tested as the copying readers test them (Arrow Columnar Format, "Physical Memory Layout").
#![tactic(auto)]

mod batch;
mod columns;
mod counts;
mod dictionaries;
mod dictionary_batches;
mod leaves;
mod lists;
mod nested;
mod record_batch;
mod tables;
mod tests;
mod text_views;
mod unions;
mod views;

pub use dictionaries::DictionaryViews;
pub use dictionary_batches::view_dictionary_batch;
pub use record_batch::view_record_batch;
pub use view_types::{ArrayView, Layout, Range};
