//! What a walk that went through to its end wrote, in numbers.
/// What was written: the number of record batches, the sum of their rows, and the number of bytes of the stream.
#[derive(Clone, Copy, Debug, PartialEq, Eq)]
pub struct Summary {
    /// The record batches.
    pub batches: u128,
    /// Their rows together.
    pub rows: u128,
    /// The bytes of the stream, whatever the encoding.
    pub bytes: u128,
}
