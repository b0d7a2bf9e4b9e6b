//! Arrays whose bytes are lent: ranges of the input under a layout, with their children, and what stands in their rows (Arrow Columnar Format, "Physical Memory Layout").
#![tactic(auto)]

mod child_rows;
mod layout;
mod numbers;
mod parts;
mod values;
mod view;

pub use child_rows::{place_of_id, spans_are_cells};
pub use layout::{Layout, Range};
pub use numbers::{
    i8_at, i32_at, integer_at, is_bit_set, is_offset_negative, offset_at, u32_at, width_of,
};
pub use parts::{ViewParts, part_of};
pub use view::{ArrayView, clone_each};
