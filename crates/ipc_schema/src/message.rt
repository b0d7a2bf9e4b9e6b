//! What the metadata of a message says (Arrow Columnar Format, "Encapsulated message format", Message.fbs).
use arrow_spec::{FieldNode, IpcBuffer, MetadataVersion};

/// The tables of a record batch: its rows, the nodes of its arrays and the ranges of its buffers in preorder,
/// whether its body is compressed, and of each view array the number of its data buffers.
#[derive(Debug, Drop)]
pub struct BatchHeader {
    /// The rows.
    pub length: i64,
    /// A node for each array, in preorder.
    pub nodes: Vec<FieldNode>,
    /// The ranges of the buffers, in preorder.
    pub buffers: Vec<IpcBuffer>,
    /// Whether a compression is stated.
    pub compressed: bool,
    /// For each array of views, in preorder, how many data buffers it has.
    pub variadic: Vec<i64>,
}

/// The message of a record batch.
#[derive(Debug, Drop)]
pub struct RecordMessage {
    /// Its tables.
    pub header: BatchHeader,
    /// The version that it was written in.
    pub version: MetadataVersion,
}

/// The message of a dictionary: its id, whether it is a delta, and the tables of its values.
#[derive(Debug, Drop)]
pub struct DictionaryMessage {
    /// The id of the dictionary.
    pub id: i64,
    /// Whether the values go on with those before them, and do not replace them.
    pub is_delta: bool,
    /// The tables of the values.
    pub header: BatchHeader,
    /// The version that it was written in.
    pub version: MetadataVersion,
}

/// The header of a message: a schema, a dictionary with its id and whether it is a delta, or a record batch.
#[derive(Debug, Drop)]
pub enum MessageHeader {
    /// A schema.
    Schema,
    /// The values of a dictionary.
    Dictionary {
        /// The id of the dictionary.
        id: i64,
        /// Whether the values go on with those before them, and do not replace them.
        is_delta: bool,
        /// The tables of the values.
        batch: BatchHeader,
    },
    /// A record batch, by its tables.
    Batch(BatchHeader),
}

/// A message: its version, the length of its body in bytes, and its header.
#[derive(Debug, Drop)]
pub struct Message {
    /// The version that it was written in.
    pub version: MetadataVersion,
    /// The bytes of the body, which follows.
    pub body_length: u64,
    /// What it is of.
    pub header: MessageHeader,
}
