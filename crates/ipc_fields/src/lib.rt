//! The dictionary ids of a schema's fields, and whether the dictionaries under one id have values of one kind.
#![tactic(auto)]

pub mod agree;
mod ipc_field;
mod kinds;
mod pairs;
pub mod representable;
pub mod shapes;
pub mod uses;

pub use ipc_field::{IpcField, IpcSchema};
pub use kinds::{are_same_ids, is_same_kind_of_values};
pub use pairs::copy_if_any;
