//! The footer of a file (File.fbs, Footer).
ghost use Rattle.std.specs.Prelude.{◌≡◌, ◌<◌, ◌^◌, ◌++◌, All, IfOk, OnOk, length, map};
ghost use Rattle.std.specs.List.{flat_map};
ghost use Rattle.std.specs.Option.{option_map};
ghost use Rattle.arrow_spec.specs.Footers.{block_bytes, blocks_node};
ghost use Rattle.arrow_spec.specs.Sent.{custom_slot};
ghost use Rattle.arrow_flat.specs.Nodes.{KeepsSlotLimit, leads_to, node_of, slot_of};
ghost use Rattle.ipc_fields.specs.IpcFields.{metadata_in};
ghost use Rattle.ipc_messages.specs.Below.{IsNatural, file_block, Builds, BuildsMetadata};
ghost use Rattle.ipc_file_writer.specs.Blocks.{file_blocks};
ghost use Rattle.ipc_file_writer.specs.Footers.{footer_table, optional_slots};

use crate::blocks::FileBlocks;
use arrow_flat::{BuildError, Node, Slot, finish};
use arrow_spec::{Block, IpcError};
use arrow_types::Metadata;
use schema_writer::custom_pairs;
use std::alloc::{AllocError, Global};

/// With so many blocks, of 24 bytes each, the footer is too large.
const TOO_MANY: usize = 1 << 27;

fn put_block(out: &mut Vec<u8>, block: &Block) -> Result<(), AllocError>
    requires { IsNatural block.now }
    ensures { OnOk result (out.new.items ≡ out.old.items ++ block_bytes (file_block block.now)) }
{
    out.extend_from_slice(&block.offset.to_le_bytes())?;
    out.extend_from_slice(&block.meta_data_length.to_le_bytes())?;
    out.extend_from_slice(&[0; 4])?;
    out.extend_from_slice(&block.body_length.to_le_bytes())
}

/// The bytes of blocks (File.fbs, Block).
fn blocks_bytes(alloc: Global, blocks: &[Block]) -> Result<Vec<u8>, AllocError>
    requires { All IsNatural blocks.now }
    ensures { IfOk result (λ v. v.items ≡ flat_map block_bytes (map file_block blocks.now)) }
{
    let mut out = Vec::new(alloc);
    for block in blocks {
        put_block(&mut out, block)?;
    }
    Ok(out)
}

fn blocks_slot(alloc: Global, blocks: &[Block]) -> Result<Slot, AllocError>
    requires natural { All IsNatural blocks.now }
    requires few { length blocks.now < 2 ^ 27 }
    ensures { IfOk result (λ s. slot_of s ≡ leads_to (blocks_node (map file_block blocks.now))) }
{
    let bytes = blocks_bytes(alloc, blocks)?;
    Ok(Slot::Child(Node::Structs(blocks.len() as u32, bytes)))
}

/// The pairs of a footer, by key, where there are any: as the last slot of a message has them.
fn pairs_slot(alloc: Global, pairs: Option<&Metadata>) -> Result<Option<Slot>, AllocError>
    ensures { IfOk result (λ o. optional_slots (option_map slot_of o) ≡ custom_slot (metadata_in pairs.entry)) }
{
    match custom_pairs(alloc, pairs)? {
        None => Ok(None),
        Some(pairs) => Ok(Some(Slot::Child(pairs))),
    }
}

/// The table of a footer of version V5, by that of its schema.
fn footer_node(
    alloc: Global,
    schema: Node,
    pairs: Option<&Metadata>,
    blocks: &FileBlocks,
) -> Result<Node, AllocError>
    requires dictionaries { length blocks.now.dictionaries.items < 2 ^ 27 }
    requires records { length blocks.now.records.items < 2 ^ 27 }
    ensures { IfOk result (λ n. node_of n ≡ footer_table (node_of schema) (metadata_in pairs.entry) (file_blocks blocks.now.dictionaries) (file_blocks blocks.now.records)) }
{
    let pairs = pairs_slot(alloc, pairs)?;
    let version = Slot::I16(4);
    let schema = Slot::Child(schema);
    let dictionaries = blocks_slot(alloc, blocks.dictionaries.as_slice())?;
    let records = blocks_slot(alloc, blocks.records.as_slice())?;
    match pairs {
        None => Ok(Node::Table(vec![in alloc; version, schema, dictionaries, records]?)),
        Some(pairs) => {
            Ok(Node::Table(vec![in alloc; version, schema, dictionaries, records, pairs]?))
        }
    }
}

fn built(
    alloc: Global,
    schema: Node,
    pairs: Option<&Metadata>,
    blocks: &FileBlocks,
) -> Result<Vec<u8>, BuildError>
    requires slot_limit { KeepsSlotLimit (node_of schema) }
    requires dictionaries { length blocks.now.dictionaries.items < 2 ^ 27 }
    requires records { length blocks.now.records.items < 2 ^ 27 }
    ensures { Builds result (footer_table (node_of schema) (metadata_in pairs.entry) (file_blocks blocks.now.dictionaries) (file_blocks blocks.now.records)) }
{
    let node = footer_node(alloc, schema, pairs, blocks)?;
    finish(alloc, &node)
}

/// The flatbuffer of a footer, by the table of its schema.
///
/// # Errors
///
/// `TooLarge` where it passes 2^31 - 1 bytes; `Memory`.
pub(crate) fn footer_bytes(
    alloc: Global,
    schema: Node,
    pairs: Option<&Metadata>,
    blocks: &FileBlocks,
) -> Result<Vec<u8>, IpcError>
    requires { KeepsSlotLimit (node_of schema) }
    ensures { BuildsMetadata result (footer_table (node_of schema) (metadata_in pairs.entry) (file_blocks blocks.now.dictionaries) (file_blocks blocks.now.records)) }
{
    if blocks.dictionaries.len() >= TOO_MANY {
        return Err(IpcError::TooLarge);
    }
    if blocks.records.len() >= TOO_MANY {
        return Err(IpcError::TooLarge);
    }
    match built(alloc, schema, pairs, blocks) {
        Ok(bytes) => Ok(bytes),
        Err(BuildError::TooLarge) => Err(IpcError::TooLarge),
        Err(BuildError::Memory) => Err(IpcError::Memory),
    }
}
