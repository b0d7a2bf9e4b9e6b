//! The numbers that buffers hold.

mod bytes;
mod interval;
mod key;
mod native;
mod offset;

pub use interval::{days_ms, months_days_ns};
pub use key::DictionaryKey;
pub use native::NativeType;
pub use offset::Offset;
