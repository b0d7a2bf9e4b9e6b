//! The messages of a file's blocks, whose bytes are lent (Arrow Columnar Format, "IPC File Format").
ghost use Rattle.std.specs.Prelude.{◌≡◌, ◌+◌, ◌≤◌, ◌<◌, ◌^◌, IfErr, IfOk, OnOk, length};
ghost use Rattle.arrow_spec.specs.Counts.{magnitude};
ghost use Rattle.arrow_spec.specs.Files.{block_body};
ghost use Rattle.arrow_spec.specs.Messages.{prefix_of};
ghost use Rattle.arrow_spec.specs.Readings.{Gives, natural};
ghost use Rattle.ipc_fields.specs.Causes.{Decodes, IsOfBytes};
ghost use Rattle.ipc_schema.specs.Headers.{dictionary_message_of};
ghost use Rattle.ipc_files.specs.FileBlocks.{block_record, file_block, given, message_metadata, paired_message};
ghost use Rattle.ipc_files.specs.FileDictionaries.{block_dictionary};
ghost use Rattle.view_types.specs.Ranges.{Lies};
ghost use Rattle.view_types.specs.Views.{part_in};
ghost use Rattle.ipc_mmap.specs.Chunks.{paired_in};

use arrow_spec::{Block, IpcError, OutOfSpecKind};
use arrow_types::Metadata;
use ipc_schema::{
    DictionaryMessage, RecordMessage, message_metadata, message_prefix, read_dictionary_message,
    read_record_message,
};
use std::alloc::Global;
use view_types::{Range, part_of};

/// The message of a record batch and its pairs, none where there are none.
#[derive(Drop)]
pub(crate) struct ChunkMessage {
    pub(crate) message: RecordMessage,
    pub(crate) custom_metadata: Option<Metadata>,
}

/// A number that may not be negative.
fn natural(x: i64) -> Result<usize, IpcError>
    ensures gives { Decodes (λ n. n) result (natural x) }
    ensures small { IfOk result (λ n. n < 2 ^ 63) }
    ensures cause { IfErr result IsOfBytes }
{
    if x < 0 {
        return Err(IpcError::OutOfSpec(OutOfSpecKind::UnexpectedNegativeInteger));
    }
    Ok(x as usize)
}

/// Where the metadata begins in bytes that hold the prefix and the metadata of a message, and its length.
fn prefix_in(message: &[u8]) -> Result<(usize, usize), IpcError>
    ensures gives { Gives (λ p. p) result (prefix_of message.now) }
    ensures within { IfOk result (λ p. p.0 + p.1 ≤ length message.now) }
    ensures cause { IfErr result IsOfBytes }
{
    message_prefix(message)
}

/// The metadata of the message in a block, behind its prefix. No number of the block may be negative, which is looked at
/// before anything is read.
fn block_metadata<'a>(bytes: &'a [u8], block: &Block) -> Result<&'a [u8], IpcError>
    ensures within { OnOk result ((file_block block.now).offset + (file_block block.now).metadata + (file_block block.now).body ≤ length bytes.now) }
    ensures metadata { Gives (λ v. v.now) result (given block.now (message_metadata bytes.now)) }
    ensures cause { IfErr result IsOfBytes }
{
    let offset = natural(block.offset)?;
    let metadata = natural(i64::from(block.meta_data_length))?;
    let body = natural(block.body_length)?;
    let size = bytes.len();
    if offset > size || metadata > size - offset || body > size - offset - metadata {
        return Err(IpcError::OutOfSpec(OutOfSpecKind::BlockRange));
    }
    let front = part_of(
        bytes,
        Range {
            at: offset,
            length: metadata,
        },
    );
    let (start, length) = prefix_in(front)?;
    Ok(part_of(
        bytes,
        Range {
            at: offset + start,
            length,
        },
    ))
}

/// The record batch's message in some bytes.
#[tactic(auto, unfolding(arrow_spec::specs::Readings::bind, ipc_files::specs::FileBlocks::paired_message))]
fn message_in(alloc: Global, bytes: &[u8]) -> Result<ChunkMessage, IpcError>
    ensures gives { Decodes paired_in result (paired_message bytes.now) }
{
    let message = read_record_message(alloc, bytes)?;
    let custom_metadata = message_metadata(alloc, bytes)?;
    Ok(ChunkMessage {
        message,
        custom_metadata,
    })
}

/// The message of a record batch in a block.
pub(crate) fn block_message(
    alloc: Global,
    bytes: &[u8],
    block: &Block,
) -> Result<ChunkMessage, IpcError>
    ensures within { OnOk result ((file_block block.now).offset + (file_block block.now).metadata + (file_block block.now).body ≤ length bytes.now) }
    ensures message { Gives paired_in result (given block.now (block_record bytes.now)) }
    ensures cause { IfErr result IsOfBytes }
{
    let metadata = block_metadata(bytes, block)?;
    message_in(alloc, metadata)
}

/// The message of a dictionary in a block.
pub(crate) fn block_dictionary(
    alloc: Global,
    bytes: &[u8],
    block: &Block,
) -> Result<DictionaryMessage, IpcError>
    ensures within { OnOk result ((file_block block.now).offset + (file_block block.now).metadata + (file_block block.now).body ≤ length bytes.now) }
    ensures message { Gives dictionary_message_of result (given block.now (block_dictionary bytes.now)) }
    ensures cause { IfErr result IsOfBytes }
{
    let metadata = block_metadata(bytes, block)?;
    read_dictionary_message(alloc, metadata)
}

/// Where the body of a block's message stands.
pub(crate) fn body_range(bytes: &[u8], block: &Block) -> Range
    requires { (file_block block.now).offset + (file_block block.now).metadata + (file_block block.now).body ≤ length bytes.now }
    ensures lies { Lies bytes.now result }
    ensures body { part_in bytes.now result ≡ block_body bytes.now (file_block block.now) }
{
    let _size = bytes.len();
    Range {
        at: magnitude(block.offset) + magnitude(i64::from(block.meta_data_length)),
        length: magnitude(block.body_length),
    }
}

/// A number, 0 where it is negative.
fn magnitude(x: i64) -> usize
    ensures value { result ≡ magnitude x }
    ensures small { result < 2 ^ 63 }
{
    if x < 0 { 0 } else { x as usize }
}
