//! Arrays of every kind, and record batches (Arrow Columnar Format, "Physical Memory Layout").
#![tactic(auto)]

mod array;
mod carried;
mod dictionary;
mod empty;
mod empty_nested;
mod fixed_size_list;
mod keys;
mod list;
mod map;
mod numbers;
mod offsets;
mod pieces;
mod record_batch;
mod row_value;
mod rows;
mod same;
mod structs;
mod union;
mod union_types;

pub use array::{
    Array, ArrayRef, DictionaryArray, FixedSizeListArray, ListArray, MapArray, StructArray,
    UnionArray,
};
pub use carried::is_carried;
pub use dictionary::are_of_type;
pub use empty_nested::new_empty_array;
pub use keys::DictionaryKeys;
pub use list::list_of;
pub use offsets::ListOffsets;
pub use pieces::extend_from_lengths;
pub use record_batch::{BatchError, RecordBatch, RecordBatchT};
pub use same::have_same_rows;
pub use structs::clone_each;
