//! Columns of record batches, read from a source by their nodes and buffers, or passed over (Arrow Columnar Format, "RecordBatch message").
#![tactic(auto)]

mod batch;
mod body;
mod buffers;
mod child_rows;
mod children;
mod counts;
mod dictionaries;
mod dictionary_batches;
mod held;
mod integers;
mod leaf;
mod lists;
mod makes;
mod projection;
mod read_children;
mod readers;
mod reading;
mod rows;
mod skip_children;
mod skips;
mod tables;
mod unions;
mod variable;
mod views;

pub use batch::read_record_batch;
pub use body::Body;
pub use buffers::{read_bitmap, read_buffer, read_bytes, read_validity};
pub use dictionaries::{Dictionaries, read_dictionary};
pub use dictionary_batches::{read_dictionary_batch, use_of, values_schema};
pub use held::{are_held_for, is_held_for};
pub use integers::magnitude;
pub use ipc_schema::{
    BatchHeader, MemorySink, MemorySource, Source, default_ipc_fields, read_record_message,
};
pub use leaf::{read_boolean, read_fixed_size_binary, read_null, read_primitive};
pub use read_children::{read_fixed_size_list, read_list, read_map, read_struct, read_union};
pub use reading::read;
pub use skip_children::{skip_fixed_size_list, skip_list, skip_map, skip_struct, skip_union};
pub use skips::{
    skip, skip_binary, skip_binview, skip_boolean, skip_dictionary, skip_fixed_size_binary,
    skip_null, skip_primitive, skip_utf8,
};
pub use tables::{check_kinds, unread_feature};
pub use variable::{read_binary, read_utf8};
pub use views::read_binview;
