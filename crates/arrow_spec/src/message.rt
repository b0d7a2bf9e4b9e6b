//! The plain records and the versions of messages (Arrow Columnar Format, Message.fbs and File.fbs).

/// The version that a message was written in.
#[derive(Clone, Copy, Debug, PartialEq, Eq)]
pub enum MetadataVersion {
    /// Arrow 0.1; refused.
    V1,
    /// Arrow 0.2; refused.
    V2,
    /// Arrow 0.3 to 0.7; refused.
    V3,
    /// Arrow 0.8 to 0.17, where a union may have a validity of its own; read.
    V4,
    /// Arrow 1.0 and later; read and written.
    V5,
}

/// An array of a record batch: its rows, and how many of them are null.
#[derive(Clone, Copy, Debug, PartialEq, Eq)]
pub struct FieldNode {
    /// The rows.
    pub length: i64,
    /// How many of them are null.
    pub null_count: i64,
}

/// A buffer of a record batch: where it begins in the body, and its length in bytes without padding.
#[derive(Clone, Copy, Debug, PartialEq, Eq)]
pub struct IpcBuffer {
    /// Its place in bytes, counted from the start of the body.
    pub offset: i64,
    /// Its bytes, the padding behind them not counted.
    pub length: i64,
}

/// A message of a file: where it begins, the length of its prefix and metadata, and the length of its body, all in bytes.
#[derive(Clone, Copy, Debug, PartialEq, Eq)]
pub struct Block {
    /// Its place in bytes, counted from the start of the file.
    pub offset: i64,
    /// The bytes of the prefix, of the metadata and of the padding behind them.
    pub meta_data_length: i32,
    /// The bytes of the body, which follows.
    pub body_length: i64,
}
