//! Runs of items and of bits that several owners may share, and the arrays that hold no array (Arrow Columnar Format, "Physical Memory Layout").
#![tactic(auto)]

mod asked;
mod binary_view;
mod bitmap;
mod boolean;
mod buffer;
mod error;
mod fixed_size_binary;
mod layout;
mod made;
mod null;
mod offsets;
mod primitive;
mod text_view;
mod texts;
mod validity;
mod variable;
mod view;
mod view_type;

pub use binary_view::{BinaryViewArray, BinaryViewArrayGeneric, Utf8ViewArray};
pub use bitmap::Bitmap;
pub use boolean::BooleanArray;
pub use buffer::Buffer;
pub use error::ArrayError;
pub use fixed_size_binary::FixedSizeBinaryArray;
pub use null::NullArray;
pub use offsets::{place_of, range_of, rise_within};
pub use primitive::PrimitiveArray;
pub use validity::{clone_validity, narrow_validity, nulls_in, validity_at, validity_has};
pub use variable::{BinaryArray, Utf8Array, VariableArray};
pub use view_type::{ByteRows, TextRows, ViewType};
