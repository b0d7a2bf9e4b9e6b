//! The tables of messages (Message.fbs, Message).
ghost use Rattle.std.specs.Prelude.{◌≡◌, ◌<◌, ◌^◌, IfOk};
ghost use Rattle.arrow_spec.specs.Layout.{table};
ghost use Rattle.arrow_spec.specs.Sent.{message_slots};
ghost use Rattle.arrow_flat.specs.Nodes.{node_of, KeepsSlotLimit};
ghost use Rattle.ipc_fields.specs.IpcFields.{metadata_in};
ghost use Rattle.schema_writer.specs.Texts.{PairsAscend};

use super::pairs::custom_pairs;
use arrow_flat::{Node, Slot};
use arrow_types::Metadata;
use std::alloc::{AllocError, Global};

fn table_of(
    alloc: Global,
    tag: u8,
    header: Node,
    body: usize,
    custom: Option<&Metadata>,
) -> Result<Node, AllocError>
    requires { body < 2 ^ 63 }
    ensures node { IfOk result (λ n. node_of n ≡ table (message_slots tag (node_of header) body (metadata_in custom.entry))) }
    ensures ascend { IfOk result (λ _. PairsAscend (metadata_in custom.entry)) }
{
    let pairs = custom_pairs(alloc, custom)?;
    let version = Slot::I16(4);
    let length = Slot::i64(body as i64, 0);
    let tag = Slot::U8(tag);
    let header = Slot::Child(header);
    match pairs {
        None => Ok(Node::Table(vec![in alloc; version, tag, header, length]?)),
        Some(pairs) => {
            let pairs = Slot::Child(pairs);
            Ok(Node::Table(vec![in alloc; version, tag, header, length, pairs]?))
        }
    }
}

/// The table of a message of version V5, with its tag and header, how long its body is in bytes, and its pairs by key,
/// which are left out where there are none.
pub fn message_node(
    alloc: Global,
    tag: u8,
    header: Node,
    body: usize,
    custom: Option<&Metadata>,
) -> Result<Node, AllocError>
    requires { body < 2 ^ 63 }
    ensures node { IfOk result (λ n. node_of n ≡ table (message_slots tag (node_of header) body (metadata_in custom.entry))) }

    // What `finish` asks.
    ensures slot_limit { KeepsSlotLimit (node_of header) → IfOk result (λ n. KeepsSlotLimit (node_of n)) }
    ensures ascend { IfOk result (λ _. PairsAscend (metadata_in custom.entry)) }
{
    table_of(alloc, tag, header, body, custom)
}
