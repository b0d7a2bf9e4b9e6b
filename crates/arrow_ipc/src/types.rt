//! The numbers that arrays hold.

pub use arrow_types::{DictionaryKey, NativeType, days_ms, months_days_ns};
