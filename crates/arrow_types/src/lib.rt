//! The types of columns, their fields and schemas (Arrow Columnar Format, Schema.fbs), and the numbers that buffers hold.
#![tactic(auto)]

mod clone;
mod data_type;
mod extension;
mod numbers;
mod physical;
mod same;
mod schema;
pub mod union_ids;

pub use arrow_spec::{IntegerType, IntervalUnit, TimeUnit, UnionMode};
pub use clone::copy_metadata;
pub use data_type::{ArrowDataType, ExtensionType, Field, Metadata, UnionType, is_leaf};
pub use extension::get_extension;
pub use numbers::{DictionaryKey, NativeType, Offset, days_ms, months_days_ns};
pub use physical::{PhysicalType, PrimitiveType};
pub use same::{is_same_metadata, is_same_mode, is_same_option, is_same_text};
pub use schema::{ArrowSchema, ArrowSchemaRef};
