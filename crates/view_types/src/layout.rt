//! How the rows of a view stand in the bytes that it lends.

use arrow_spec::{IntegerType, UnionMode};

/// So many bytes of the input, from a place on.
#[derive(Clone, Copy, Debug, PartialEq, Eq)]
pub struct Range {
    /// The place of the first byte.
    pub at: usize,
    /// How many they are.
    pub length: usize,
}

/// How the rows of a view stand in its ranges (Arrow Columnar Format, "Buffer Listing for Each Layout").
#[derive(Clone, Copy, Debug, PartialEq, Eq)]
pub enum Layout {
    /// Nulls alone.
    Null,
    /// Truth values, a bit each.
    Boolean,
    /// Numbers of one width, among them dates, times and decimals.
    Number(IntegerType),
    /// Intervals of days and milliseconds.
    DayTime,
    /// Intervals of months, days and nanoseconds.
    MonthDayNano,
    /// Byte strings between offsets.
    Bytes {
        /// Whether the offsets have 64 bits.
        is_large: bool,
        /// Whether the byte strings are texts.
        is_text: bool,
    },
    /// Byte strings behind views of 16 bytes.
    Views {
        /// Whether the byte strings are texts.
        is_text: bool,
    },
    /// Byte strings of one size.
    FixedBytes {
        /// How many bytes each has.
        size: usize,
    },
    /// Lists and maps between offsets.
    Lists {
        /// Whether the offsets have 64 bits.
        is_large: bool,
    },
    /// Lists of one size.
    FixedLists {
        /// How many items each has.
        size: usize,
    },
    /// Rows across the children.
    Struct,
    /// Rows of one of the children each, by its id.
    Union(UnionMode),
    /// Keys of rows of the children, one child behind another.
    Dictionary(IntegerType),
}
