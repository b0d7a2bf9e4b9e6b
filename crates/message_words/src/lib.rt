//! Words of cases over writers and readers: names for bytes, options, IPC fields, dictionaries of texts, arrays and batches, and rows
//! as text.
#![tactic(auto)]

mod batches;
mod comparison;
mod ids;
mod keyed;
mod names;
mod options;
mod shown;

pub use batches::{any_array, any_batch};
pub use comparison::compare;
pub use ids::ids_of;
pub use names::Names;
pub use options::{front, has, numbers_of, optional_count, optional_counts, pair_of};
pub use shown::{say_batch, say_pairs, say_values};
