//! The texts of errors, and of what devices answer.
use arrow_arrays::BatchError;
use arrow_buffers::ArrayError;
use arrow_flat::BuildError;
use arrow_spec::{Counted, Feature, FlatError, IpcError, OutOfSpecKind};
use ipc_schema::{Failed, PutError, ShelfError};
use std::alloc::Global;
use std::fmt::Display;

const FLAT: &[(FlatError, &str)] = &[
    (FlatError::Range, "out of range"),
    (FlatError::Utf8, "not UTF-8"),
    (FlatError::Number, "not a listed number"),
];

/// Kinds without a part stand by their names.
const PLAIN: &[(OutOfSpecKind, &str)] = &[
    (OutOfSpecKind::Truncated, "Truncated"),
    (OutOfSpecKind::InvalidFooter, "InvalidFooter"),
    (OutOfSpecKind::NegativeFooterLength, "NegativeFooterLength"),
    (OutOfSpecKind::MissingRecordBatches, "MissingRecordBatches"),
    (OutOfSpecKind::MissingSchema, "MissingSchema"),
    (OutOfSpecKind::MissingFields, "MissingFields"),
    (OutOfSpecKind::MissingType, "MissingType"),
    (OutOfSpecKind::InvalidDataType, "InvalidDataType"),
    (OutOfSpecKind::BlockRange, "BlockRange"),
    (OutOfSpecKind::MessageRange, "MessageRange"),
    (OutOfSpecKind::MissingMessageHeader, "MissingMessageHeader"),
    (
        OutOfSpecKind::UnexpectedMessageType,
        "UnexpectedMessageType",
    ),
    (OutOfSpecKind::MissingMessageNodes, "MissingMessageNodes"),
    (
        OutOfSpecKind::MissingMessageBuffers,
        "MissingMessageBuffers",
    ),
    (OutOfSpecKind::MissingData, "MissingData"),
    (OutOfSpecKind::DuplicateDictionary, "DuplicateDictionary"),
    (
        OutOfSpecKind::UnexpectedNegativeInteger,
        "UnexpectedNegativeInteger",
    ),
    (OutOfSpecKind::ExpectedBuffer, "ExpectedBuffer"),
    (OutOfSpecKind::MissingVariadicCount, "MissingVariadicCount"),
    (OutOfSpecKind::NodeLength, "NodeLength"),
    (OutOfSpecKind::BufferRange, "BufferRange"),
    (OutOfSpecKind::InvalidOffsets, "InvalidOffsets"),
    (OutOfSpecKind::InvalidUtf8, "InvalidUtf8"),
    (OutOfSpecKind::InvalidView, "InvalidView"),
    (OutOfSpecKind::InvalidKey, "InvalidKey"),
    (OutOfSpecKind::InvalidUnion, "InvalidUnion"),
    (OutOfSpecKind::RowCount, "RowCount"),
    (OutOfSpecKind::InvalidLog, "InvalidLog"),
];

/// Behind the name of a flatbuffer's kind stands what is wrong with the flatbuffer.
const OF_FLATBUFFERS: &[(OutOfSpecKind, &str)] = &[
    (
        OutOfSpecKind::InvalidFlatbufferFooter(FlatError::Range),
        "InvalidFlatbufferFooter: out of range",
    ),
    (
        OutOfSpecKind::InvalidFlatbufferRecordBatches(FlatError::Range),
        "InvalidFlatbufferRecordBatches: out of range",
    ),
    (
        OutOfSpecKind::InvalidFlatbufferCompression(FlatError::Range),
        "InvalidFlatbufferCompression: out of range",
    ),
    (
        OutOfSpecKind::InvalidFlatbufferDictionaries(FlatError::Range),
        "InvalidFlatbufferDictionaries: out of range",
    ),
    (
        OutOfSpecKind::InvalidFlatbufferSchema(FlatError::Utf8),
        "InvalidFlatbufferSchema: not UTF-8",
    ),
    (
        OutOfSpecKind::InvalidFlatbufferMessage(FlatError::Range),
        "InvalidFlatbufferMessage: out of range",
    ),
    (
        OutOfSpecKind::InvalidFlatbufferVersion(FlatError::Number),
        "InvalidFlatbufferVersion: not a listed number",
    ),
    (
        OutOfSpecKind::InvalidFlatbufferBodyLength(FlatError::Range),
        "InvalidFlatbufferBodyLength: out of range",
    ),
    (
        OutOfSpecKind::InvalidFlatbufferHeader(FlatError::Number),
        "InvalidFlatbufferHeader: not a listed number",
    ),
    (
        OutOfSpecKind::InvalidFlatbufferNodes(FlatError::Range),
        "InvalidFlatbufferNodes: out of range",
    ),
    (
        OutOfSpecKind::InvalidFlatbufferBuffers(FlatError::Range),
        "InvalidFlatbufferBuffers: out of range",
    ),
    (
        OutOfSpecKind::InvalidFlatbufferId(FlatError::Range),
        "InvalidFlatbufferId: out of range",
    ),
    (
        OutOfSpecKind::InvalidFlatbufferIsDelta(FlatError::Range),
        "InvalidFlatbufferIsDelta: out of range",
    ),
    (
        OutOfSpecKind::InvalidFlatbufferData(FlatError::Range),
        "InvalidFlatbufferData: out of range",
    ),
];

/// Behind the other names stands what was found.
const OF_PARTS: &[(OutOfSpecKind, &str)] = &[
    (
        OutOfSpecKind::InvalidIdDataType { requested_id: 7 },
        "InvalidIdDataType: dictionary 7 has values of two types",
    ),
    (
        OutOfSpecKind::InvalidId { requested_id: -1 },
        "InvalidId: there is no dictionary -1",
    ),
    (
        OutOfSpecKind::InvalidBuffersLength {
            buffers_size: 200,
            file_size: 100,
        },
        "InvalidBuffersLength: 200 bytes of buffers, and 100 are there",
    ),
    (
        OutOfSpecKind::InvalidBuffer {
            length: 3,
            required_number_of_bytes: 12,
            buffer_length: 8,
        },
        "InvalidBuffer: 3 items need 12 bytes, and 8 are there",
    ),
    (
        OutOfSpecKind::InvalidBitmap {
            length: 9,
            number_of_bits: 8,
        },
        "InvalidBitmap: 9 rows, and 8 bits are there",
    ),
];

const FEATURES: &[(Feature, &str)] = &[
    (Feature::FeatherV1, "FeatherV1"),
    (Feature::DecimalWidth, "DecimalWidth"),
    (Feature::NegativeScale, "NegativeScale"),
    (Feature::RunEnd, "RunEnd"),
    (Feature::ListView, "ListView"),
    (Feature::ZeroSize, "ZeroSize"),
    (Feature::DuplicateField, "DuplicateField"),
    (Feature::Float, "Float"),
    (Feature::Decimal256, "Decimal256"),
    (Feature::ViewBigEndian, "ViewBigEndian"),
    (Feature::Version, "Version"),
    (Feature::Compression, "Compression"),
    (Feature::UnionNulls, "UnionNulls"),
    (Feature::BigEndianAppend, "BigEndianAppend"),
    (Feature::Nested, "Nested"),
    (Feature::Predicate, "Predicate"),
];

const COUNTED: &[(Counted, &str)] = &[
    (Counted::Fields, "fields"),
    (Counted::Pairs, "metadata pairs"),
    (Counted::Dictionaries, "dictionaries"),
];

const ERRORS: &[(IpcError, &str)] = &[
    (
        IpcError::OutOfSpec(OutOfSpecKind::Truncated),
        "out of specification: Truncated",
    ),
    (
        IpcError::OutOfSpec(OutOfSpecKind::InvalidFlatbufferFooter(FlatError::Range)),
        "out of specification: InvalidFlatbufferFooter: out of range",
    ),
    (IpcError::Unsupported(Feature::Float), "unsupported: Float"),
    (IpcError::TooDeep, "a field stands deeper than 64 levels"),
    (IpcError::TooMany(Counted::Fields), "too many fields"),
    (
        IpcError::Projection { index: 1 },
        "column 1 is none, or is asked for twice",
    ),
    (
        IpcError::TooLarge,
        "a message, a body or a place is too large",
    ),
    (
        IpcError::SchemaMismatch,
        "the batch or the IPC fields are not as the schema says",
    ),
    (
        IpcError::DictionaryReplaced { id: 0 },
        "dictionary 0 would be replaced",
    ),
    (IpcError::NotRepresentable, "a type cannot be represented"),
    (IpcError::State, "the call is out of turn"),
    (IpcError::ReadFault, "a read failed"),
    (IpcError::WriteFault, "a write failed"),
    (IpcError::Memory, "out of memory"),
];

const OF_ARRAYS: &[(ArrayError, &str)] = &[
    (
        ArrayError::DataType,
        "the type does not have the layout of the parts",
    ),
    (
        ArrayError::Length,
        "the parts do not have one number of rows",
    ),
    (
        ArrayError::Offsets,
        "the offsets do not rise within the values",
    ),
    (ArrayError::UnionType, "a type is none of the union's ids"),
    (ArrayError::Utf8, "a text is not UTF-8"),
    (ArrayError::View, "a view does not agree with its buffers"),
    (ArrayError::Key, "a key is outside the dictionary"),
    (ArrayError::Memory, "out of memory"),
];

const OF_BATCHES: &[(BatchError, &str)] = &[
    (
        BatchError::Width,
        "the number of columns is not that of the schema's fields",
    ),
    (
        BatchError::Height,
        "a column does not have the batch's number of rows",
    ),
];

const OF_BUILDING: &[(BuildError, &str)] = &[
    (BuildError::TooLarge, "too large"),
    (BuildError::Memory, "out of memory"),
];

const OF_SINKS: &[(PutError, &str)] = &[
    (PutError::Failed, "the device failed"),
    (PutError::Memory, "out of memory"),
];

const OF_SHELVES: &[(ShelfError, &str)] = &[
    (ShelfError::Failed, "the shelf failed"),
    (ShelfError::Memory, "out of memory"),
    (ShelfError::Unknown, "no such name"),
];

/// Whether each error has the text beside it.
fn have_texts<E: Display>(alloc: Global, rows: &[(E, &str)]) -> bool {
    for (error, text) in rows {
        let Ok(found) = format!(in alloc; "{error}") else {
            return false;
        };
        if found.as_str() != *text {
            return false;
        }
    }
    true
}

#[test]
fn what_is_wrong_with_bytes(rt: HostRuntime) {
    assert!(rt; have_texts(rt.alloc(), FLAT));
    assert!(rt; have_texts(rt.alloc(), PLAIN));
    assert!(rt; have_texts(rt.alloc(), OF_FLATBUFFERS));
    assert!(rt; have_texts(rt.alloc(), OF_PARTS));
}

#[test]
fn what_refuses_a_call(rt: HostRuntime) {
    assert!(rt; have_texts(rt.alloc(), FEATURES));
    assert!(rt; have_texts(rt.alloc(), COUNTED));
    assert!(rt; have_texts(rt.alloc(), ERRORS));
}

#[test]
fn what_makes_no_value(rt: HostRuntime) {
    assert!(rt; have_texts(rt.alloc(), OF_ARRAYS));
    assert!(rt; have_texts(rt.alloc(), OF_BATCHES));
    assert!(rt; have_texts(rt.alloc(), OF_BUILDING));
}

#[test]
fn devices_that_fail(rt: HostRuntime) {
    assert!(rt; have_texts(rt.alloc(), &[(Failed, "the device failed")]));
    assert!(rt; have_texts(rt.alloc(), OF_SINKS));
    assert!(rt; have_texts(rt.alloc(), OF_SHELVES));
}
