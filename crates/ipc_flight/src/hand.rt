//! The messages of a file's blocks, as they stand (Arrow Columnar Format, "IPC File Format", "Encapsulated message format").
ghost use Rattle.std.specs.Prelude.{◌≡◌, ◌+◌, ◌≤◌, ◌<◌, ◌^◌, length, map, slice_get, Some, IfOk, IfErr, OnErr};
ghost use Rattle.arrow_spec.specs.Counts.{magnitude};
ghost use Rattle.ipc_fields.specs.Causes.{Decodes};
ghost use Rattle.ipc_io.specs.Outside.{IsSize, SourceKept};
ghost use Rattle.ipc_files.specs.FileBlocks.{Faulted, Fetched, Lies, file_block};
ghost use Rattle.ipc_flight.specs.Hands.{HandCause, HandsBlock, HandsOver, IsEmptyMessage, block_size, metadata_in};

use arrow_spec::{Block, IpcError, OutOfSpecKind};
use ipc_files::{Got, Source, message_prefix};
use ipc_write::EncodedData;

/// Fills a vector with so many bytes of the source, which lie inside, in place of what it holds.
fn fill<S: Source>(
    source: &mut S,
    at: u64,
    count: usize,
    bytes: &mut Vec<u8>,
) -> Result<(), IpcError>
    requires { Lies (S.content source.old) at count }
    ensures bytes { IfOk result (λ _. Fetched (S.content source.old) at count bytes.new.items) }
    ensures count { IfOk result (λ _. length bytes.new.items ≡ count) }
    ensures refused { IfErr result (λ e. Faulted (S.content source.old) e) }
    ensures cause { IfErr result (λ e. HandCause e (S.faults source.old) (S.faults source.new)) }
    ensures fetched { S.fetched source.new ≤ S.fetched source.old + count }
    ensures kept { SourceKept S.content S.faults S.references source.old source.new }
{
    bytes.clear();
    bytes.resize(count, 0)?;
    match source.read_at(at, bytes)? {
        Got::Full => Ok(()),
        Got::Short => Err(IpcError::OutOfSpec(OutOfSpecKind::Truncated)),
    }
}

/// A number, 0 where it is negative.
pub(crate) fn magnitude(x: i64) -> u64
    ensures value { result ≡ magnitude x }
    ensures small { result < 2 ^ 63 }
{
    if x < 0 { 0 } else { x as u64 }
}

/// Fills a vector with the metadata behind a message's prefix, by bytes that begin with the prefix.
#[tactic(auto, using(crate::proofs::Handed::prefix_within), unfolding(arrow_spec::specs::Readings::bind, crate::specs::Hands::metadata_in))]
fn fill_metadata(front: &[u8], metadata: &mut Vec<u8>) -> Result<(), IpcError>
    ensures gives { Decodes (λ _. metadata.new.items) result (metadata_in front.now) }
{
    let (start, length) = message_prefix(front)?;
    metadata.clear();
    metadata.extend_from_slice(&front[start..start + length])?;
    Ok(())
}

/// Fills a message with that of a block in a file of `size` bytes: its metadata behind its prefix, and its body.
fn fill_message<S: Source>(
    source: &mut S,
    block: &Block,
    size: u64,
    front: &mut Vec<u8>,
    message: &mut EncodedData,
) -> Result<(), IpcError>
    requires { IsSize (S.content source.old) size }
    ensures hands { HandsBlock (S.content source.old) (file_block block.now) message.new result }
    ensures cause { IfErr result (λ e. HandCause e (S.faults source.old) (S.faults source.new)) }
    ensures fetched { S.fetched source.new ≤ S.fetched source.old + (file_block block.now).metadata + (file_block block.now).body }
    ensures kept { SourceKept S.content S.faults S.references source.old source.new }
{
    let offset = magnitude(block.offset);
    let metadata = magnitude(i64::from(block.meta_data_length));
    let body = magnitude(block.body_length);
    if offset > size || metadata > size - offset || body > size - offset - metadata {
        return Err(IpcError::OutOfSpec(OutOfSpecKind::BlockRange));
    }
    fill(source, offset, metadata as usize, front)?;
    fill_metadata(front, &mut message.ipc_message)?;
    fill(
        source,
        offset + metadata,
        body as usize,
        &mut message.arrow_data,
    )
}

/// Leaves no byte of a message.
pub(crate) fn empty(message: &mut EncodedData)
    ensures { IsEmptyMessage message.new }
{
    message.ipc_message.clear();
    message.arrow_data.clear();
}

/// Hands over the message of a block in a file of `size` bytes as it stands. A refusal leaves it empty.
pub(crate) fn hand_over<S: Source>(
    source: &mut S,
    block: &Block,
    size: u64,
    front: &mut Vec<u8>,
    message: &mut EncodedData,
) -> Result<(), IpcError>
    requires { IsSize (S.content source.old) size }
    ensures hands { HandsBlock (S.content source.old) (file_block block.now) message.new result }
    ensures empty { OnErr result (IsEmptyMessage message.new) }
    ensures cause { IfErr result (λ e. HandCause e (S.faults source.old) (S.faults source.new)) }
    ensures fetched { S.fetched source.new ≤ S.fetched source.old + (file_block block.now).metadata + (file_block block.now).body }
    ensures kept { SourceKept S.content S.faults S.references source.old source.new }
{
    match fill_message(source, block, size, front, message) {
        Ok(()) => Ok(()),
        Err(error) => {
            empty(message);
            Err(error)
        }
    }
}

/// The block of a number.
fn block_at(blocks: &[Block], number: usize) -> Block
    requires { number < length blocks.now }
    ensures { slice_get blocks.now number ≡ Some result }
{
    match blocks.get(number) {
        Some(block) => *block,
        None => unreachable!(),
    }
}

/// Hands over the message of the next of some blocks as it stands, and counts the block as taken; none past the last. The
/// message is emptied first, and a refusal leaves it empty.
#[tactic(auto, using(crate::proofs::Handed::none_next))]
pub(crate) fn hand_next<S: Source>(
    source: &mut S,
    blocks: &[Block],
    number: &mut usize,
    size: u64,
    front: &mut Vec<u8>,
    message: &mut EncodedData,
) -> Result<Option<()>, IpcError>
    requires { IsSize (S.content source.old) size }
    ensures hands { HandsOver (S.content source.old) (map file_block blocks.now) number.old number.new message.new result }
    ensures cause { IfErr result (λ e. HandCause e (S.faults source.old) (S.faults source.new)) }
    ensures fetched { S.fetched source.new ≤ S.fetched source.old + block_size (slice_get (map file_block blocks.now) number.old) }
    ensures kept { SourceKept S.content S.faults S.references source.old source.new }
{
    if *number >= blocks.len() {
        empty(message);
        return Ok(None);
    }
    let block = block_at(blocks, *number);
    *number += 1;
    hand_over(source, &block, size, front, message)?;
    Ok(Some(()))
}
