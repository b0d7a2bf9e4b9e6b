//! The tables of messages, by their metadata (Arrow Columnar Format, "Encapsulated message format", Message.fbs).
ghost use Rattle.std.specs.Prelude.{◌≡◌, IfOk, IfErr};
ghost use Rattle.arrow_spec.specs.Messages.{message_of};
ghost use Rattle.ipc_fields.specs.Causes.{Decodes};
ghost use Rattle.schema_reader.specs.Messages.{taken_by, message_in, version_at};

use arrow_flat::{ChoiceWidth, Flat, Table};
use arrow_spec::{Feature, FlatError, IpcError, MetadataVersion, OutOfSpecKind};

/// The headers that are taken at a place.
#[derive(Clone, Copy)]
pub enum Expected {
    /// A schema.
    Schema,
    /// A dictionary batch.
    Dictionary,
    /// A record batch.
    Batch,
    /// One of these three.
    Any,
}

/// A message: its root table, the tag and the table of its header, and the length of its body in bytes.
#[derive(Drop)]
pub struct Message<'a> {
    /// Its root table.
    pub table: Table<'a>,
    /// The tag of its header.
    pub tag: u8,
    /// The table of its header.
    pub header: Table<'a>,
    /// The bytes of its body.
    pub body: u64,
}

fn is_expected(expected: Expected, tag: u8) -> bool
    ensures { result ≡ taken_by expected tag }
{
    match expected {
        Expected::Schema => tag == 1,
        Expected::Dictionary => tag == 2,
        Expected::Batch => tag == 3,
        Expected::Any => tag <= 3,
    }
}

/// The message of a root table, with a header that is expected.
#[tactic(auto, unfolding(arrow_spec::specs::Readings::bind, arrow_spec::specs::Messages::message_of))]
pub fn read_message(bytes: &[u8], expected: Expected) -> Result<Message<'_>, IpcError>
    ensures message { Decodes message_in result (message_of bytes.now (taken_by expected)) }
    ensures table { IfOk result (λ m. m.table.bytes ≡ bytes.now) }
    ensures header { IfOk result (λ m. m.header.bytes ≡ bytes.now) }
{
    let table = Flat::root(bytes).map_err(|e| IpcError::OutOfSpec(
        OutOfSpecKind::InvalidFlatbufferMessage(e),
    ))?;
    let tag = table.slot_u8(1, 0).map_err(|e| IpcError::OutOfSpec(
        OutOfSpecKind::InvalidFlatbufferHeader(e),
    ))?;
    let is_there = table.has_slot(2).map_err(|e| IpcError::OutOfSpec(
        OutOfSpecKind::InvalidFlatbufferHeader(e),
    ))?;
    if tag == 0 || !is_there {
        return Err(IpcError::OutOfSpec(OutOfSpecKind::MissingMessageHeader));
    }
    if tag > 5 {
        return Err(IpcError::OutOfSpec(OutOfSpecKind::InvalidFlatbufferHeader(FlatError::Number)));
    }
    if !is_expected(expected, tag) {
        return Err(IpcError::OutOfSpec(OutOfSpecKind::UnexpectedMessageType));
    }
    let header = table.slot_table(2).map_err(|e| IpcError::OutOfSpec(
        OutOfSpecKind::InvalidFlatbufferHeader(e),
    ))?;
    let Some(header) = header else {
        return Err(IpcError::OutOfSpec(OutOfSpecKind::MissingMessageHeader));
    };
    let body = table.slot_i64(3, 0).map_err(|e| IpcError::OutOfSpec(
        OutOfSpecKind::InvalidFlatbufferBodyLength(e),
    ))?;
    if body < 0 {
        return Err(IpcError::OutOfSpec(OutOfSpecKind::UnexpectedNegativeInteger));
    }
    Ok(Message {
        table,
        tag,
        header,
        body: body as u64,
    })
}

/// The version of a message, which has to be V4 or V5.
#[tactic(auto, unfolding(arrow_spec::specs::Readings::bind))]
pub fn read_version(table: &Table<'_>) -> Result<MetadataVersion, IpcError>
    ensures gives { Decodes (λ v. v) result (version_at table.now.bytes table.now.table) }
{
    let number = table.slot_choice(0, ChoiceWidth::Two, 0, 5).map_err(|e| IpcError::OutOfSpec(
        OutOfSpecKind::InvalidFlatbufferVersion(e),
    ))?;
    match number {
        3 => Ok(MetadataVersion::V4),
        4 => Ok(MetadataVersion::V5),
        _ => Err(IpcError::Unsupported(Feature::Version)),
    }
}
