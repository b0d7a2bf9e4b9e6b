//! What is read of a file and sent again means what the file means: its parts of dictionaries, its dictionaries and its schema. Each function's contract is a law, proved in `proofs/`.
#![tactic(auto)]

mod dictionary_laws;
mod part_laws;
mod schema_laws;

pub use dictionary_laws::{columns_are_right, file_dictionaries_are_sent, none_is_replaced};
pub use part_laws::{
    columns_are_of_fields, columns_are_read_under, held_parts_are_read, next_part_is_read,
    no_parts_are_read, nothing_is_read, one_more_part_is_read, order_is_of_asked,
    parts_are_of_asked,
};
pub use schema_laws::{
    begun_are_readable, begun_is_sent, fields_are_sent, message_is_sent, refused_as_file,
    types_have_no_ids, unread_are_refused,
};
