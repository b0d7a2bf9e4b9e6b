//! Types, fields and schemas (Arrow Columnar Format, "Schema message").

pub use arrow_columns::index_of;
pub use arrow_types::{
    ArrowDataType, ArrowSchema, ArrowSchemaRef, ExtensionType, Field, IntegerType, IntervalUnit,
    Metadata, PhysicalType, PrimitiveType, TimeUnit, UnionMode, UnionType, get_extension,
};
