//! Messages and their headers, by their metadata (Arrow Columnar Format, "Encapsulated message format", Message.fbs).
ghost use Rattle.std.specs.Prelude.{◌≡◌, ◌≢◌, ◌<◌, ◌++◌, ◌∷◌, [], IfOk, OnErr, Err, IfErr};
ghost use Rattle.arrow_spec.specs.declared.error.IpcError.TheVariants.{Memory, ReadFault};
ghost use Rattle.ipc_fields.specs.Causes.{Decodes};
ghost use Rattle.arrow_spec.specs.Messages.{node_at, buffer_at, record_message};
ghost use Rattle.ipc_schema.specs.Views.{node_of, buffer_of, number_of, nodes_in, buffers_in, numbers_in, nodes_part, buffers_part, variadic_part, batch_parts, record_parts, header_of, message_of};
ghost use Rattle.arrow_spec.specs.Headers.{message_header};
ghost use Rattle.ipc_schema.specs.Headers.{header_in, whole_in, batch_part, dictionary_in, dictionary_part, dictionary_parts, dictionary_message, dictionary_message_of, dictionary_message_parts, header_part, header_parts};

use crate::message::{BatchHeader, DictionaryMessage, Message, MessageHeader, RecordMessage};
use crate::number::i64_at;
use arrow_flat::{Table, Vector};
use arrow_spec::{FieldNode, FlatError, IpcBuffer, IpcError, OutOfSpecKind};
use schema_reader::message::{Expected, read_message, read_version};
use std::alloc::Global;

#[tactic(auto, unfolding(arrow_spec::specs::Readings::bind))]
fn node_from(item: &[u8]) -> Result<FieldNode, FlatError>
    ensures { result ≡ node_at item.now 0 }
{
    let length = i64_at(item, 0)?;
    let null_count = i64_at(item, 8)?;
    Ok(FieldNode { length, null_count })
}

/// One of the nodes of a vector.
#[tactic(auto, using(crate::proofs::Items::node_in), unfolding(arrow_spec::specs::Readings::bind))]
fn read_node(vector: &Vector<'_>, i: usize) -> Result<FieldNode, IpcError>
    requires width { vector.now.width ≡ 16 }
    requires within { i < vector.now.vector.count }
    ensures gives { Decodes (λ x. x) result (node_of vector.now i) }
{
    node_from(vector.get(i)).map_err(|e| IpcError::OutOfSpec(OutOfSpecKind::InvalidFlatbufferNodes(
        e,
    )))
}

/// The nodes of a vector.
#[tactic(auto, using(crate::proofs::Items::nodes_begun, crate::proofs::Items::more_read, crate::proofs::Items::one_refused, crate::proofs::Items::all_read))]
fn read_nodes(alloc: Global, vector: &Vector<'_>) -> Result<Vec<FieldNode>, IpcError>
    requires { vector.now.width ≡ 16 }
    ensures gives { Decodes (λ v. v.items) result (nodes_in vector.now) }
{
    let mut nodes = Vec::new(alloc);
    for i in 0..vector.len() {
        let node = read_node(vector, i)?;
        nodes.push(node)?;
    }
    Ok(nodes)
}

#[tactic(auto, unfolding(arrow_spec::specs::Readings::bind))]
fn buffer_from(item: &[u8]) -> Result<IpcBuffer, FlatError>
    ensures { result ≡ buffer_at item.now 0 }
{
    let offset = i64_at(item, 0)?;
    let length = i64_at(item, 8)?;
    Ok(IpcBuffer { offset, length })
}

/// One of the buffers of a vector.
#[tactic(auto, using(crate::proofs::Items::buffer_in), unfolding(arrow_spec::specs::Readings::bind))]
fn read_buffer(vector: &Vector<'_>, i: usize) -> Result<IpcBuffer, IpcError>
    requires width { vector.now.width ≡ 16 }
    requires within { i < vector.now.vector.count }
    ensures gives { Decodes (λ x. x) result (buffer_of vector.now i) }
{
    buffer_from(vector.get(i)).map_err(|e| IpcError::OutOfSpec(
        OutOfSpecKind::InvalidFlatbufferBuffers(e),
    ))
}

/// The buffers of a vector.
#[tactic(auto, using(crate::proofs::Items::buffers_begun, crate::proofs::Items::more_read, crate::proofs::Items::one_refused, crate::proofs::Items::all_read))]
fn read_buffers(alloc: Global, vector: &Vector<'_>) -> Result<Vec<IpcBuffer>, IpcError>
    requires { vector.now.width ≡ 16 }
    ensures gives { Decodes (λ v. v.items) result (buffers_in vector.now) }
{
    let mut buffers = Vec::new(alloc);
    for i in 0..vector.len() {
        let buffer = read_buffer(vector, i)?;
        buffers.push(buffer)?;
    }
    Ok(buffers)
}

/// One of the numbers of a vector.
#[tactic(auto, using(crate::proofs::Items::number_in), unfolding(arrow_spec::specs::Readings::bind))]
fn read_number(vector: &Vector<'_>, i: usize) -> Result<i64, IpcError>
    requires width { vector.now.width ≡ 8 }
    requires within { i < vector.now.vector.count }
    ensures gives { Decodes (λ x. x) result (number_of vector.now i) }
{
    i64_at(vector.get(i), 0).map_err(|e| IpcError::OutOfSpec(
        OutOfSpecKind::InvalidFlatbufferRecordBatches(e),
    ))
}

/// The numbers of a vector.
#[tactic(auto, using(crate::proofs::Items::numbers_begun, crate::proofs::Items::more_read, crate::proofs::Items::one_refused, crate::proofs::Items::all_read))]
fn read_numbers(alloc: Global, vector: &Vector<'_>) -> Result<Vec<i64>, IpcError>
    requires { vector.now.width ≡ 8 }
    ensures gives { Decodes (λ v. v.items) result (numbers_in vector.now) }
{
    let mut numbers = Vec::new(alloc);
    for i in 0..vector.len() {
        let number = read_number(vector, i)?;
        numbers.push(number)?;
    }
    Ok(numbers)
}

/// The nodes of a record batch.
#[tactic(auto, unfolding(arrow_spec::specs::Readings::bind, crate::specs::Views::nodes_part))]
fn read_nodes_slot(alloc: Global, table: &Table<'_>) -> Result<Vec<FieldNode>, IpcError>
    ensures gives { Decodes (λ v. v.items) result (nodes_part table.now.bytes table.now.table) }
{
    let vector = table.slot_vector(1, 16).map_err(|e| IpcError::OutOfSpec(
        OutOfSpecKind::InvalidFlatbufferNodes(e),
    ))?;
    match vector {
        None => Err(IpcError::OutOfSpec(OutOfSpecKind::MissingMessageNodes)),
        Some(vector) => read_nodes(alloc, &vector),
    }
}

/// The buffers of a record batch.
#[tactic(auto, unfolding(arrow_spec::specs::Readings::bind, crate::specs::Views::buffers_part))]
fn read_buffers_slot(alloc: Global, table: &Table<'_>) -> Result<Vec<IpcBuffer>, IpcError>
    ensures gives { Decodes (λ v. v.items) result (buffers_part table.now.bytes table.now.table) }
{
    let vector = table.slot_vector(2, 16).map_err(|e| IpcError::OutOfSpec(
        OutOfSpecKind::InvalidFlatbufferBuffers(e),
    ))?;
    match vector {
        None => Err(IpcError::OutOfSpec(OutOfSpecKind::MissingMessageBuffers)),
        Some(vector) => read_buffers(alloc, &vector),
    }
}

/// The numbers of data buffers of a record batch's view arrays.
#[tactic(auto, unfolding(arrow_spec::specs::Readings::bind, crate::specs::Views::variadic_part))]
fn read_variadic(alloc: Global, table: &Table<'_>) -> Result<Vec<i64>, IpcError>
    ensures gives { Decodes (λ v. v.items) result (variadic_part table.now.bytes table.now.table) }
{
    let vector = table.slot_vector(4, 8).map_err(|e| IpcError::OutOfSpec(
        OutOfSpecKind::InvalidFlatbufferRecordBatches(e),
    ))?;
    match vector {
        None => Ok(Vec::new(alloc)),
        Some(vector) => read_numbers(alloc, &vector),
    }
}

/// The tables of a record batch.
#[tactic(auto, unfolding(arrow_spec::specs::Readings::bind, crate::specs::Views::batch_parts))]
fn read_batch_header(alloc: Global, table: &Table<'_>) -> Result<BatchHeader, IpcError>
    ensures gives { Decodes header_of result (batch_parts table.now.bytes table.now.table) }
{
    let length = table.slot_i64(0, 0).map_err(|e| IpcError::OutOfSpec(
        OutOfSpecKind::InvalidFlatbufferRecordBatches(e),
    ))?;
    let nodes = read_nodes_slot(alloc, table)?;
    let buffers = read_buffers_slot(alloc, table)?;
    let compression = table.slot_table(3).map_err(|e| IpcError::OutOfSpec(
        OutOfSpecKind::InvalidFlatbufferCompression(e),
    ))?;
    let compressed = compression.is_some();
    let variadic = read_variadic(alloc, table)?;
    Ok(BatchHeader {
        length,
        nodes,
        buffers,
        compressed,
        variadic,
    })
}

#[tactic(auto, unfolding(arrow_spec::specs::Readings::bind, crate::specs::Views::record_parts))]
fn read_record_parts(alloc: Global, bytes: &[u8]) -> Result<RecordMessage, IpcError>
    ensures gives { Decodes message_of result (record_parts bytes.now) }
{
    let message = read_message(bytes, Expected::Batch)?;
    let header = read_batch_header(alloc, &message.header)?;
    let version = read_version(&message.table)?;
    Ok(RecordMessage { header, version })
}

/// The tables and the version of a record batch's message, by its metadata without the prefix (Message.fbs).
///
/// # Errors
///
/// `OutOfSpec` with the kind of the part that is not as the format says, `Unsupported(Version)` for versions 1 to 3,
/// and `Memory`.
#[tactic(auto, using(crate::proofs::Parts::record_by_parts))]
pub fn read_record_message(alloc: Global, bytes: &[u8]) -> Result<RecordMessage, IpcError>
    ensures gives { Decodes message_of result (record_message bytes.now) }
{
    read_record_parts(alloc, bytes)
}

/// A dictionary batch: its id, whether it is a delta, and the tables of its values.
#[derive(Drop)]
struct DictionaryHeader {
    id: i64,
    is_delta: bool,
    batch: BatchHeader,
}

#[tactic(auto, unfolding(arrow_spec::specs::Readings::bind, crate::specs::Headers::dictionary_parts))]
fn read_dictionary_header(alloc: Global, table: &Table<'_>) -> Result<DictionaryHeader, IpcError>
    ensures gives { Decodes dictionary_in result (dictionary_parts table.now.bytes table.now.table) }
{
    let id = table.slot_i64(0, 0).map_err(|e| IpcError::OutOfSpec(
        OutOfSpecKind::InvalidFlatbufferId(e),
    ))?;
    let is_delta = table.slot_bool(2, false).map_err(|e| IpcError::OutOfSpec(
        OutOfSpecKind::InvalidFlatbufferIsDelta(e),
    ))?;
    let data = table.slot_table(1).map_err(|e| IpcError::OutOfSpec(
        OutOfSpecKind::InvalidFlatbufferData(e),
    ))?;
    let Some(data) = data else {
        return Err(IpcError::OutOfSpec(OutOfSpecKind::MissingData));
    };
    let batch = read_batch_header(alloc, &data)?;
    Ok(DictionaryHeader {
        id,
        is_delta,
        batch,
    })
}

#[tactic(auto, unfolding(arrow_spec::specs::Readings::bind, crate::specs::Headers::dictionary_message_parts))]
fn read_dictionary_parts(alloc: Global, bytes: &[u8]) -> Result<DictionaryMessage, IpcError>
    ensures gives { Decodes dictionary_message_of result (dictionary_message_parts bytes.now) }
{
    let message = read_message(bytes, Expected::Dictionary)?;
    let header = read_dictionary_header(alloc, &message.header)?;
    let version = read_version(&message.table)?;
    Ok(DictionaryMessage {
        id: header.id,
        is_delta: header.is_delta,
        header: header.batch,
        version,
    })
}

/// The id, whether it is a delta, the tables and the version of a dictionary's message, by its metadata without the prefix
/// (Message.fbs, DictionaryBatch).
///
/// # Errors
///
/// As of `read_record_message`, `MissingData`, and the kinds of a dictionary's parts.
#[tactic(auto, using(crate::proofs::Parts::dictionary_by_parts))]
pub fn read_dictionary_message(alloc: Global, bytes: &[u8]) -> Result<DictionaryMessage, IpcError>
    ensures gives { Decodes dictionary_message_of result (dictionary_message bytes.now) }
{
    read_dictionary_parts(alloc, bytes)
}

/// The same as the header of a message.
#[tactic(auto, unfolding(arrow_spec::specs::Readings::bind))]
fn read_dictionary(alloc: Global, table: &Table<'_>) -> Result<MessageHeader, IpcError>
    ensures gives { Decodes header_in result (dictionary_part table.now.bytes table.now.table) }
{
    let header = read_dictionary_header(alloc, table)?;
    Ok(MessageHeader::Dictionary {
        id: header.id,
        is_delta: header.is_delta,
        batch: header.batch,
    })
}

#[tactic(auto, unfolding(arrow_spec::specs::Readings::bind))]
fn read_batch(alloc: Global, table: &Table<'_>) -> Result<MessageHeader, IpcError>
    ensures gives { Decodes header_in result (batch_part table.now.bytes table.now.table) }
{
    let batch = read_batch_header(alloc, table)?;
    Ok(MessageHeader::Batch(batch))
}

/// The header of a message by its tag.
fn read_header(alloc: Global, tag: u8, table: &Table<'_>) -> Result<MessageHeader, IpcError>
    ensures gives { Decodes header_in result (header_part tag table.now.bytes table.now.table) }
{
    match tag {
        2 => read_dictionary(alloc, table),
        3 => read_batch(alloc, table),
        _ => Ok(MessageHeader::Schema),
    }
}

#[tactic(auto, unfolding(arrow_spec::specs::Readings::bind, crate::specs::Headers::header_parts))]
fn read_header_parts(alloc: Global, bytes: &[u8]) -> Result<Message, IpcError>
    ensures gives { Decodes whole_in result (header_parts bytes.now) }
{
    let message = read_message(bytes, Expected::Any)?;
    let header = read_header(alloc, message.tag, &message.header)?;
    let version = read_version(&message.table)?;
    Ok(Message {
        version,
        body_length: message.body,
        header,
    })
}

/// The version, the length of the body and the header of a message, by its metadata without the prefix (Message.fbs).
/// Of a schema's message no more than the header is looked at.
///
/// # Errors
///
/// `OutOfSpec` with the kind of the part that is not as the format says, `UnexpectedMessageType` for tensors,
/// `Unsupported(Version)` for versions 1 to 3, and `Memory`.
#[tactic(auto, using(crate::proofs::Parts::header_by_parts))]
pub fn read_message_header(alloc: Global, bytes: &[u8]) -> Result<Message, IpcError>
    ensures gives { Decodes whole_in result (message_header bytes.now) }
{
    read_header_parts(alloc, bytes)
}
