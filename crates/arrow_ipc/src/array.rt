//! Arrays of all kinds (Arrow Columnar Format, "Physical Memory Layout").

pub use arrow_arrays::{
    Array, ArrayRef, DictionaryArray, DictionaryKeys, FixedSizeListArray, ListArray, ListOffsets,
    MapArray, StructArray, UnionArray, extend_from_lengths, is_carried, new_empty_array,
};
pub use arrow_buffers::{
    ArrayError, BinaryArray, BinaryViewArray, BinaryViewArrayGeneric, BooleanArray, ByteRows,
    FixedSizeBinaryArray, NullArray, PrimitiveArray, TextRows, Utf8Array, Utf8ViewArray,
    VariableArray, ViewType,
};
pub use arrow_columns::{
    byte_strings, dictionary_of_texts, optional_numbers, optional_texts, texts,
};
