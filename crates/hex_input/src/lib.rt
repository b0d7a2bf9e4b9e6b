//! Hex text that is decoded as it comes: its digits, with white space among them, into bytes.
#![tactic(auto)]

mod decoder;

pub use decoder::Decoder;
