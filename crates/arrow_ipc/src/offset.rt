//! The widths of offsets.

pub use arrow_types::Offset;
