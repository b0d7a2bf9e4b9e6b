//! The metadata of the messages of record batches and of dictionaries' values (Arrow Columnar Format, "RecordBatch message", "Dictionary Messages").
ghost use Rattle.std.specs.Prelude.{◌≡◌, ◌^◌, ◌<◌, ◌++◌, length, OnOk, IfOk};
ghost use Rattle.std.specs.List.{flat_map, AllByRecursion};
ghost use Rattle.arrow_spec.specs.Bodies.{NodeFits};
ghost use Rattle.arrow_spec.specs.Layout.{no_more};
ghost use Rattle.arrow_spec.specs.Sent.{i64_bytes, node_bytes, buffer_bytes};
ghost use Rattle.ipc_fields.specs.IpcFields.{metadata_in};
ghost use Rattle.arrow_flat.specs.Nodes.{node_of, slot_of, in_front};
ghost use Rattle.ipc_write.specs.Metadata.{content_custom, content_node, content_tag, counts_slot, header_node, metadata_node, Builds, BuildsMetadata};

use arrow_flat::{BuildError, Node, Slot, finish};
use arrow_spec::{FieldNode, IpcBuffer, IpcError};
use arrow_types::Metadata;
use ipc_schema::message_node;
use std::alloc::{AllocError, Global};

/// With so many nodes or buffers, of 16 bytes each, the metadata is too large.
const TOO_MANY: usize = 1 << 27;

/// What a message is of (Message.fbs, MessageHeader).
#[derive(Clone, Copy)]
pub(crate) enum Content<'a> {
    /// With the pairs of the message.
    RecordBatch(Option<&'a Metadata>),
    /// The values of a dictionary under an id, and whether they stand behind those before them.
    DictionaryBatch(i64, bool),
}

/// Its tag.
fn tag(content: Content<'_>) -> u8
    ensures { result ≡ content_tag content.entry }
{
    match content {
        Content::RecordBatch(_) => 3,
        Content::DictionaryBatch(_, _) => 2,
    }
}

/// Its pairs. Those of dictionaries' messages have none.
fn custom_of(content: Content<'_>) -> Option<&Metadata>
    ensures { metadata_in result ≡ content_custom content.entry }
{
    match content {
        Content::RecordBatch(custom) => custom,
        Content::DictionaryBatch(_, _) => None,
    }
}

fn put_i64(out: &mut Vec<u8>, number: i64) -> Result<(), AllocError>
    ensures { OnOk result (out.new.items ≡ out.old.items ++ i64_bytes number) }
{
    out.extend_from_slice(&number.to_le_bytes())
}

fn put_node(out: &mut Vec<u8>, node: &FieldNode) -> Result<(), AllocError>
    ensures bytes { OnOk result (out.new.items ≡ out.old.items ++ node_bytes node.now) }
    ensures fit { IfOk result (λ _. NodeFits node.now) }
{
    put_i64(out, node.length)?;
    put_i64(out, node.null_count)
}

fn put_buffer(out: &mut Vec<u8>, buffer: &IpcBuffer) -> Result<(), AllocError>
    ensures { OnOk result (out.new.items ≡ out.old.items ++ buffer_bytes buffer.now) }
{
    put_i64(out, buffer.offset)?;
    put_i64(out, buffer.length)
}

/// The bytes of nodes (Message.fbs, FieldNode).
fn nodes_bytes(alloc: Global, nodes: &[FieldNode]) -> Result<Vec<u8>, AllocError>
    ensures bytes { IfOk result (λ v. v.items ≡ flat_map node_bytes nodes.now) }
    ensures fit { IfOk result (λ _. AllByRecursion NodeFits nodes.now) }
{
    let mut out = Vec::new(alloc);
    for node in nodes {
        put_node(&mut out, node)?;
    }
    Ok(out)
}

/// The bytes of buffers (Message.fbs, Buffer).
fn buffers_bytes(alloc: Global, buffers: &[IpcBuffer]) -> Result<Vec<u8>, AllocError>
    ensures { IfOk result (λ v. v.items ≡ flat_map buffer_bytes buffers.now) }
{
    let mut out = Vec::new(alloc);
    for buffer in buffers {
        put_buffer(&mut out, buffer)?;
    }
    Ok(out)
}

/// View counts are left out where there are none.
fn counts_slot(counts: Vec<i64>) -> Slot
    ensures { in_front (slot_of result) no_more ≡ counts_slot counts.items }
{
    if counts.is_empty() {
        Slot::Absent
    } else {
        Slot::Child(Node::I64s(counts))
    }
}

/// The table of a record batch (Message.fbs, RecordBatch).
fn header_node(
    alloc: Global,
    rows: usize,
    nodes: &[FieldNode],
    buffers: &[IpcBuffer],
    counts: Vec<i64>,
) -> Result<Node, AllocError>
    requires few { rows < 2 ^ 63 }
    requires nodes { length nodes.now < 2 ^ 27 }
    requires buffers { length buffers.now < 2 ^ 27 }
    ensures node { IfOk result (λ n. node_of n ≡ header_node rows nodes.now buffers.now counts.items) }
    ensures fit { IfOk result (λ _. AllByRecursion NodeFits nodes.now) }
{
    let length = Slot::i64(rows as i64, 0);
    let node_slot = Slot::Child(Node::Structs(nodes.len() as u32, nodes_bytes(alloc, nodes)?));
    let bytes = buffers_bytes(alloc, buffers)?;
    let buffer_slot = Slot::Child(Node::Structs(buffers.len() as u32, bytes));
    let count_slot = counts_slot(counts);
    Ok(Node::Table(vec![in alloc; length, node_slot, buffer_slot, Slot::Absent, count_slot]?))
}

/// The header of a message by the table of its record batch (Message.fbs, DictionaryBatch).
fn content_node(alloc: Global, content: Content<'_>, batch: Node) -> Result<Node, AllocError>
    ensures { IfOk result (λ n. node_of n ≡ content_node content.entry (node_of batch)) }
{
    match content {
        Content::RecordBatch(_) => Ok(batch),
        Content::DictionaryBatch(id, is_delta) => {
            let flag = Slot::boolean(is_delta, false);
            Ok(Node::Table(vec![in alloc; Slot::i64(id, 0), Slot::Child(batch), flag]?))
        }
    }
}

fn built(
    alloc: Global,
    content: Content<'_>,
    rows: usize,
    nodes: &[FieldNode],
    buffers: &[IpcBuffer],
    counts: Vec<i64>,
    body: usize,
) -> Result<Vec<u8>, BuildError>
    requires few { rows < 2 ^ 63 }
    requires nodes { length nodes.now < 2 ^ 27 }
    requires buffers { length buffers.now < 2 ^ 27 }
    requires body { body < 2 ^ 63 }
    ensures builds { Builds result (metadata_node content.entry rows nodes.now buffers.now counts.items body) }
    ensures fit { IfOk result (λ _. AllByRecursion NodeFits nodes.now) }
{
    let batch = header_node(alloc, rows, nodes, buffers, counts)?;
    let header = content_node(alloc, content, batch)?;
    let node = message_node(alloc, tag(content), header, body, custom_of(content))?;
    finish(alloc, &node)
}

/// The metadata of so many rows with nodes, buffers and view counts, and a body of so many bytes.
pub(crate) fn batch_metadata(
    alloc: Global,
    content: Content<'_>,
    rows: usize,
    nodes: &[FieldNode],
    buffers: &[IpcBuffer],
    counts: Vec<i64>,
    body: usize,
) -> Result<Vec<u8>, IpcError>
    requires few { rows < 2 ^ 63 }
    requires body { body < 2 ^ 63 }
    ensures builds { BuildsMetadata result (metadata_node content.entry rows nodes.now buffers.now counts.items body) }
    ensures fit { IfOk result (λ _. AllByRecursion NodeFits nodes.now) }
    ensures few { IfOk result (λ _. length buffers.now < 2 ^ 27) }
{
    if nodes.len() >= TOO_MANY {
        return Err(IpcError::TooLarge);
    }
    if buffers.len() >= TOO_MANY {
        return Err(IpcError::TooLarge);
    }
    match built(alloc, content, rows, nodes, buffers, counts, body) {
        Ok(bytes) => Ok(bytes),
        Err(BuildError::TooLarge) => Err(IpcError::TooLarge),
        Err(BuildError::Memory) => Err(IpcError::Memory),
    }
}
