//! What can be wrong with bytes, with a request, with what is to be written, or with a device.
ghost use Rattle.std.specs.Prelude.{◌≡◌};
ghost use Rattle.arrow_spec.specs.Names.{error_name, feature_name, kind_name};
ghost use Rattle.arrow_spec.specs.declared.error.IpcError.TheVariants.{Memory};

use std::alloc::{AllocError, AllocFailed};
use thiserror::Error;

/// Why a flatbuffer could not be read.
#[derive(Clone, Copy, Debug, PartialEq, Eq, Error)]
pub enum FlatError {
    /// What is looked at passes the end of the bytes, or a vtable is too short.
    #[error("out of range")]
    Range,
    /// A text is not UTF-8.
    #[error("not UTF-8")]
    Utf8,
    /// A number is none of those that are listed.
    #[error("not a listed number")]
    Number,
}

/// How bytes differ from the Arrow IPC format.
#[derive(Clone, Copy, Debug, PartialEq, Eq, Error)]
pub enum OutOfSpecKind {
    /// A file is shorter than its footer and what stands around it, a stream ends inside a message, or a source gives fewer bytes than its size says.
    #[error("Truncated")]
    Truncated,
    /// A file does not end in `ARROW1`.
    #[error("InvalidFooter")]
    InvalidFooter,
    /// The length of a footer is negative.
    #[error("NegativeFooterLength")]
    NegativeFooterLength,
    /// The root table of a footer is out of range, or its pairs are damaged.
    #[error("InvalidFlatbufferFooter: {0}")]
    InvalidFlatbufferFooter(FlatError),
    /// A footer lists no record batches; where a file is gone on with, also a list without a block.
    #[error("MissingRecordBatches")]
    MissingRecordBatches,
    /// The record batches of a footer are out of range, or the length or the variadic counts of a batch.
    #[error("InvalidFlatbufferRecordBatches: {0}")]
    InvalidFlatbufferRecordBatches(FlatError),
    /// The compression of a batch is out of range.
    #[error("InvalidFlatbufferCompression: {0}")]
    InvalidFlatbufferCompression(FlatError),
    /// The dictionaries of a footer are out of range.
    #[error("InvalidFlatbufferDictionaries: {0}")]
    InvalidFlatbufferDictionaries(FlatError),
    /// A footer has no schema, or a stream begins with no message.
    #[error("MissingSchema")]
    MissingSchema,
    /// A part of a schema is out of range, a text of it is not UTF-8, or a byte order, a type, a unit, a mode or a precision is not listed.
    #[error("InvalidFlatbufferSchema: {0}")]
    InvalidFlatbufferSchema(FlatError),
    /// A schema has no vector of fields.
    #[error("MissingFields")]
    MissingFields,
    /// A field has no type.
    #[error("MissingType")]
    MissingType,
    /// The width, the unit, the children or the ids of a type are not as Schema.fbs says.
    #[error("InvalidDataType")]
    InvalidDataType,
    /// Fields of one dictionary id have values of two types.
    #[error("InvalidIdDataType: dictionary {requested_id} has values of two types")]
    InvalidIdDataType {
        /// The id.
        requested_id: i64,
    },
    /// A block passes the end of its file.
    #[error("BlockRange")]
    BlockRange,
    /// The prefix and the metadata of a message pass the bytes that are said to hold them.
    #[error("MessageRange")]
    MessageRange,
    /// The root table of a message is out of range, or its pairs are damaged.
    #[error("InvalidFlatbufferMessage: {0}")]
    InvalidFlatbufferMessage(FlatError),
    /// The version of a message is out of range or not listed.
    #[error("InvalidFlatbufferVersion: {0}")]
    InvalidFlatbufferVersion(FlatError),
    /// The body length of a message is out of range.
    #[error("InvalidFlatbufferBodyLength: {0}")]
    InvalidFlatbufferBodyLength(FlatError),
    /// A message has no header.
    #[error("MissingMessageHeader")]
    MissingMessageHeader,
    /// The header of a message is out of range, or its tag is not listed.
    #[error("InvalidFlatbufferHeader: {0}")]
    InvalidFlatbufferHeader(FlatError),
    /// A message has another header than may stand at its place.
    #[error("UnexpectedMessageType")]
    UnexpectedMessageType,
    /// A batch has no vector of nodes.
    #[error("MissingMessageNodes")]
    MissingMessageNodes,
    /// A batch has no vector of buffers.
    #[error("MissingMessageBuffers")]
    MissingMessageBuffers,
    /// The nodes of a batch are out of range.
    #[error("InvalidFlatbufferNodes: {0}")]
    InvalidFlatbufferNodes(FlatError),
    /// The buffers of a batch are out of range.
    #[error("InvalidFlatbufferBuffers: {0}")]
    InvalidFlatbufferBuffers(FlatError),
    /// The id of a dictionary batch is out of range.
    #[error("InvalidFlatbufferId: {0}")]
    InvalidFlatbufferId(FlatError),
    /// Whether a dictionary batch is a delta is out of range.
    #[error("InvalidFlatbufferIsDelta: {0}")]
    InvalidFlatbufferIsDelta(FlatError),
    /// The data of a dictionary batch is out of range.
    #[error("InvalidFlatbufferData: {0}")]
    InvalidFlatbufferData(FlatError),
    /// A dictionary batch has no data.
    #[error("MissingData")]
    MissingData,
    /// A file has two dictionaries of one id, and the second is no delta.
    #[error("DuplicateDictionary")]
    DuplicateDictionary,
    /// No field has the id of a dictionary batch, or the dictionary of a row that is not null has not come.
    #[error("InvalidId: there is no dictionary {requested_id}")]
    InvalidId {
        /// The id.
        requested_id: i64,
    },
    /// A length, a place, a count, a width, a size or a precision is negative.
    #[error("UnexpectedNegativeInteger")]
    UnexpectedNegativeInteger,
    /// The buffers of a batch are together longer than what holds them.
    #[error("InvalidBuffersLength: {buffers_size} bytes of buffers, and {file_size} are there")]
    InvalidBuffersLength {
        /// The sum of their lengths in bytes.
        buffers_size: u128,
        /// The bytes that are there.
        file_size: u64,
    },
    /// A batch has fewer nodes or buffers than its columns take.
    #[error("ExpectedBuffer")]
    ExpectedBuffer,
    /// A batch has fewer variadic counts than columns of views.
    #[error("MissingVariadicCount")]
    MissingVariadicCount,
    /// A column has not as many rows as its batch, or a child fewer than its parent asks for.
    #[error("NodeLength")]
    NodeLength,
    /// A buffer that is read passes the end of its body.
    #[error("BufferRange")]
    BufferRange,
    /// A buffer that is read is shorter than its rows ask for.
    #[error("InvalidBuffer: {length} items need {required_number_of_bytes} bytes, and {buffer_length} are there")]
    InvalidBuffer {
        /// The items that are asked for.
        length: u64,
        /// The bytes that they need.
        required_number_of_bytes: u128,
        /// The bytes that are there.
        buffer_length: u64,
    },
    /// A bitmap that is read has fewer bits than rows.
    #[error("InvalidBitmap: {length} rows, and {number_of_bits} bits are there")]
    InvalidBitmap {
        /// The rows.
        length: u64,
        /// The bits that are there.
        number_of_bits: u64,
    },
    /// An offset is negative, below the one before it, or past the values.
    #[error("InvalidOffsets")]
    InvalidOffsets,
    /// The text of a row that is not null is not UTF-8.
    #[error("InvalidUtf8")]
    InvalidUtf8,
    /// The view of a row that is not null does not agree with the buffers.
    #[error("InvalidView")]
    InvalidView,
    /// The key of a row that is not null is outside its dictionary.
    #[error("InvalidKey")]
    InvalidKey,
    /// The type of a row is none of its union's ids.
    #[error("InvalidUnion")]
    InvalidUnion,
    /// The rows of all batches are together more than 2^63 - 1.
    #[error("RowCount")]
    RowCount,
    /// The bytes of a log are not as its format says, up to its last open record. Nothing answers this yet.
    #[error("InvalidLog")]
    InvalidLog,
}

/// What the format has and this library does not read or write.
#[derive(Clone, Copy, Debug, PartialEq, Eq, Error)]
pub enum Feature {
    /// A file ends in `FEA1`.
    #[error("FeatherV1")]
    FeatherV1,
    /// A schema has a decimal of 32 or 64 bits.
    #[error("DecimalWidth")]
    DecimalWidth,
    /// A schema has a decimal of negative scale.
    #[error("NegativeScale")]
    NegativeScale,
    /// A schema has a run-end encoded type.
    #[error("RunEnd")]
    RunEnd,
    /// A schema has a list view of either width.
    #[error("ListView")]
    ListView,
    /// A schema has byte strings or lists of size 0.
    #[error("ZeroSize")]
    ZeroSize,
    /// Two fields of a schema have one name; children may.
    #[error("DuplicateField")]
    DuplicateField,
    /// Columns or values of dictionaries that are read, or what is written, have floats at any depth.
    #[error("Float")]
    Float,
    /// Columns or values of dictionaries that are read, or what is written, have decimals of 256 bits at any depth.
    #[error("Decimal256")]
    Decimal256,
    /// Rows of views are read from big-endian data.
    #[error("ViewBigEndian")]
    ViewBigEndian,
    /// A message that is read is older than V4.
    #[error("Version")]
    Version,
    /// A batch that is read is compressed, or the options of a writer ask for compression.
    #[error("Compression")]
    Compression,
    /// Rows of a union are read that states nulls of its own, as it may in V4.
    #[error("UnionNulls")]
    UnionNulls,
    /// A file that is to be gone on with is big-endian.
    #[error("BigEndianAppend")]
    BigEndianAppend,
    /// Columns or values of dictionaries that are to be text of one cell each have children. Nothing answers this yet.
    #[error("Nested")]
    Nested,
    /// The cells of a column that rows are chosen by are not numbers. Nothing answers this yet.
    #[error("Predicate")]
    Predicate,
}

/// What there may be only so many of.
#[derive(Clone, Copy, Debug, PartialEq, Eq, Error)]
pub enum Counted {
    /// 65,536 fields in a schema, children counted.
    #[error("fields")]
    Fields,
    /// 1,048,576 metadata pairs: a schema's with those of its fields, a footer's own, or a message's own.
    #[error("metadata pairs")]
    Pairs,
    /// 2^20 dictionary messages before a batch.
    #[error("dictionaries")]
    Dictionaries,
}

/// Why a call of this library did not do what was asked.
#[derive(Clone, Copy, Debug, PartialEq, Eq, Error)]
pub enum IpcError {
    /// The bytes are not as the format says.
    #[error("out of specification: {0}")]
    OutOfSpec(OutOfSpecKind),
    /// The bytes or the values use what is not supported.
    #[error("unsupported: {0}")]
    Unsupported(Feature),
    /// A field stands at level 65 or deeper.
    #[error("a field stands deeper than 64 levels")]
    TooDeep,
    /// There are more of these than may be.
    #[error("too many {0}")]
    TooMany(Counted),
    /// A column that is asked for is none, or is asked for twice.
    #[error("column {index} is none, or is asked for twice")]
    Projection { index: usize },
    /// A message, a body, a footer or a place passes its limit.
    #[error("a message, a body or a place is too large")]
    TooLarge,
    /// A batch or IPC fields are not as the schema says.
    #[error("the batch or the IPC fields are not as the schema says")]
    SchemaMismatch,
    /// One id has two dictionaries where it may have one.
    #[error("dictionary {id} would be replaced")]
    DictionaryReplaced { id: i64 },
    /// A type that the format has no words for.
    #[error("a type cannot be represented")]
    NotRepresentable,
    /// A call out of turn.
    #[error("the call is out of turn")]
    State,
    /// A source, a feed or a shelf failed.
    #[error("a read failed")]
    ReadFault,
    /// A sink or a disk failed.
    #[error("a write failed")]
    WriteFault,
    /// Memory ran out.
    #[error("out of memory")]
    Memory,
}

impl OutOfSpecKind {
    /// The name by which it is told.
    #[tactic(auto, unfolding(crate::specs::Names::kind_name))]
    pub fn name(&self) -> &'static str
        ensures { result.now ≡ kind_name self.now }
    {
        match self {
            OutOfSpecKind::Truncated => "Truncated",
            OutOfSpecKind::InvalidFooter => "InvalidFooter",
            OutOfSpecKind::NegativeFooterLength => "NegativeFooterLength",
            OutOfSpecKind::InvalidFlatbufferFooter(_) => "InvalidFlatbufferFooter",
            OutOfSpecKind::MissingRecordBatches => "MissingRecordBatches",
            OutOfSpecKind::InvalidFlatbufferRecordBatches(_) => "InvalidFlatbufferRecordBatches",
            OutOfSpecKind::InvalidFlatbufferCompression(_) => "InvalidFlatbufferCompression",
            OutOfSpecKind::InvalidFlatbufferDictionaries(_) => "InvalidFlatbufferDictionaries",
            OutOfSpecKind::MissingSchema => "MissingSchema",
            OutOfSpecKind::InvalidFlatbufferSchema(_) => "InvalidFlatbufferSchema",
            OutOfSpecKind::MissingFields => "MissingFields",
            OutOfSpecKind::MissingType => "MissingType",
            OutOfSpecKind::InvalidDataType => "InvalidDataType",
            OutOfSpecKind::InvalidIdDataType { .. } => "InvalidIdDataType",
            OutOfSpecKind::BlockRange => "BlockRange",
            OutOfSpecKind::MessageRange => "MessageRange",
            OutOfSpecKind::InvalidFlatbufferMessage(_) => "InvalidFlatbufferMessage",
            OutOfSpecKind::InvalidFlatbufferVersion(_) => "InvalidFlatbufferVersion",
            OutOfSpecKind::InvalidFlatbufferBodyLength(_) => "InvalidFlatbufferBodyLength",
            OutOfSpecKind::MissingMessageHeader => "MissingMessageHeader",
            OutOfSpecKind::InvalidFlatbufferHeader(_) => "InvalidFlatbufferHeader",
            OutOfSpecKind::UnexpectedMessageType => "UnexpectedMessageType",
            OutOfSpecKind::MissingMessageNodes => "MissingMessageNodes",
            OutOfSpecKind::MissingMessageBuffers => "MissingMessageBuffers",
            OutOfSpecKind::InvalidFlatbufferNodes(_) => "InvalidFlatbufferNodes",
            OutOfSpecKind::InvalidFlatbufferBuffers(_) => "InvalidFlatbufferBuffers",
            OutOfSpecKind::InvalidFlatbufferId(_) => "InvalidFlatbufferId",
            OutOfSpecKind::InvalidFlatbufferIsDelta(_) => "InvalidFlatbufferIsDelta",
            OutOfSpecKind::InvalidFlatbufferData(_) => "InvalidFlatbufferData",
            OutOfSpecKind::MissingData => "MissingData",
            OutOfSpecKind::DuplicateDictionary => "DuplicateDictionary",
            OutOfSpecKind::InvalidId { .. } => "InvalidId",
            OutOfSpecKind::UnexpectedNegativeInteger => "UnexpectedNegativeInteger",
            OutOfSpecKind::InvalidBuffersLength { .. } => "InvalidBuffersLength",
            OutOfSpecKind::ExpectedBuffer => "ExpectedBuffer",
            OutOfSpecKind::MissingVariadicCount => "MissingVariadicCount",
            OutOfSpecKind::NodeLength => "NodeLength",
            OutOfSpecKind::BufferRange => "BufferRange",
            OutOfSpecKind::InvalidBuffer { .. } => "InvalidBuffer",
            OutOfSpecKind::InvalidBitmap { .. } => "InvalidBitmap",
            OutOfSpecKind::InvalidOffsets => "InvalidOffsets",
            OutOfSpecKind::InvalidUtf8 => "InvalidUtf8",
            OutOfSpecKind::InvalidView => "InvalidView",
            OutOfSpecKind::InvalidKey => "InvalidKey",
            OutOfSpecKind::InvalidUnion => "InvalidUnion",
            OutOfSpecKind::RowCount => "RowCount",
            OutOfSpecKind::InvalidLog => "InvalidLog",
        }
    }
}

impl Feature {
    /// The name by which it is told.
    #[tactic(auto, unfolding(crate::specs::Names::feature_name))]
    pub fn name(&self) -> &'static str
        ensures { result.now ≡ feature_name self.now }
    {
        match self {
            Feature::FeatherV1 => "FeatherV1",
            Feature::DecimalWidth => "DecimalWidth",
            Feature::NegativeScale => "NegativeScale",
            Feature::RunEnd => "RunEnd",
            Feature::ListView => "ListView",
            Feature::ZeroSize => "ZeroSize",
            Feature::DuplicateField => "DuplicateField",
            Feature::Float => "Float",
            Feature::Decimal256 => "Decimal256",
            Feature::ViewBigEndian => "ViewBigEndian",
            Feature::Version => "Version",
            Feature::Compression => "Compression",
            Feature::UnionNulls => "UnionNulls",
            Feature::BigEndianAppend => "BigEndianAppend",
            Feature::Nested => "Nested",
            Feature::Predicate => "Predicate",
        }
    }
}

impl IpcError {
    /// The name by which it is told.
    #[tactic(auto, unfolding(crate::specs::Names::error_name))]
    pub fn name(&self) -> &'static str
        ensures { result.now ≡ error_name self.now }
    {
        match self {
            IpcError::OutOfSpec(kind) => kind.name(),
            IpcError::Unsupported(feature) => feature.name(),
            IpcError::TooDeep => "TooDeep",
            IpcError::TooMany(_) => "TooMany",
            IpcError::Projection { .. } => "Projection",
            IpcError::TooLarge => "TooLarge",
            IpcError::SchemaMismatch => "SchemaMismatch",
            IpcError::DictionaryReplaced { .. } => "DictionaryReplaced",
            IpcError::NotRepresentable => "NotRepresentable",
            IpcError::State => "State",
            IpcError::ReadFault => "ReadFault",
            IpcError::WriteFault => "WriteFault",
            IpcError::Memory => "Memory",
        }
    }
}

/// Want of memory is an answer.
impl From<AllocError> for IpcError {
    ghost from_gives = { λ _ e. e ≡ Memory };

    fn from(_: AllocError) -> Self {
        IpcError::Memory
    }
}

impl<T: Drop> From<AllocFailed<T>> for IpcError {
    ghost from_gives = { λ _ e. e ≡ Memory };

    fn from(_: AllocFailed<T>) -> Self {
        IpcError::Memory
    }
}
