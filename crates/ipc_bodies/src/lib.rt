//! The buffers of a body, held where the arrays hold them, and put or copied in pieces (Arrow Columnar Format, "Buffer Listing for
//! Each Layout", "Buffer Alignment and Padding").
//!
//! A `BodyBuffer` shares what an array holds: nothing, bits, bytes, numbers that are to be turned into the other byte order, or
//! offsets that are to be counted from the first. It takes no memory for its bytes. `put_body` puts the bodies of record batches
//! into a sink, through a scratch of 64 bytes or more, and `put_body_as` as an `Encoding` says, through 192 or more for hex text;
//! `append_body` puts them behind other bytes in memory.
#![tactic(auto)]

mod bits;
mod body;
mod buffer;
mod encoding;
mod numbers;
mod offsets;
mod sinks;

pub use body::{append_body, append_places, body_end, put_body, put_body_as};
pub use buffer::BodyBuffer;
pub use encoding::Encoding;
pub use sinks::put_bytes_as;
