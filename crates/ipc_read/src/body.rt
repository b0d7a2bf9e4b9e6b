//! The body of a message in its source.

/// Where bytes stand in a source: the first one, and how many.
#[derive(Clone, Copy, Debug, PartialEq, Eq)]
pub struct Body {
    /// The place of the first byte, counted from the start of the source.
    pub offset: u64,
    /// How many bytes there are.
    pub length: u64,
}
