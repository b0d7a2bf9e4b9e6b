//! Messages that are placed one behind another, and their blocks, which a file keeps.
ghost use Rattle.std.specs.Prelude.{◌≡◌, ◌+◌, ◌<◌, ◌≤◌, ◌^◌, ◌++◌, ◌∷◌, [], IfOk, OnOk, length, map, vec_capacity};
ghost use Rattle.ipc_messages.specs.Framed.{framed_sizes};
ghost use Rattle.ipc_messages.specs.Messages.{planned_sizes};
ghost use Rattle.ipc_file_writer.specs.Blocks.{Places, PlacesAll, PlacesChunk, SameBlocks, message_sizes};

use crate::blocks::{ChunkBlocks, FileBlocks, PlacedMessages};
use arrow_spec::{Block, IpcError};
use ipc_messages::{FramedMessage, PlannedMessage, pad_to_64};
use std::alloc::{AllocError, Global};

/// The most bytes before a message's body.
const MOST_FRONT: usize = 0x7fff_ffff;

/// The last place of a file.
pub(crate) const LAST_PLACE: u128 = 0x7fff_ffff_ffff_ffff;

/// How many bytes a message has before its body, and in its padded body.
#[derive(Clone, Copy)]
pub(crate) struct MessageSizes {
    front: usize,
    body: usize,
}

/// The sizes of messages that are planned.
pub(crate) fn planned_sizes(
    alloc: Global,
    messages: &[PlannedMessage],
) -> Result<Vec<MessageSizes>, AllocError>
    ensures { IfOk result (λ v. map message_sizes v.items ≡ map planned_sizes messages.now) }
{
    let mut sizes = Vec::new(alloc);
    for message in messages {
        sizes.push(MessageSizes {
            front: message.front.len(),
            body: message.body_length,
        })?;
    }
    Ok(sizes)
}

/// The sizes of messages that are framed.
pub(crate) fn framed_sizes(
    alloc: Global,
    messages: &[FramedMessage],
) -> Result<Vec<MessageSizes>, AllocError>
    ensures { IfOk result (λ v. map message_sizes v.items ≡ map framed_sizes messages.now) }
{
    let mut sizes = Vec::new(alloc);
    for message in messages {
        let body = message.body.len();
        sizes.push(MessageSizes {
            front: message.front.len(),
            body: body + pad_to_64(body),
        })?;
    }
    Ok(sizes)
}

/// A message's block, and the place behind the message.
#[derive(Clone, Copy)]
struct PlacedBlock {
    block: Block,
    end: u64,
}

/// The block of a message at a place.
fn place_block(at: u64, sizes: MessageSizes) -> Result<PlacedBlock, IpcError>
    requires { at < 2 ^ 63 }
    ensures { Places result at (message_sizes sizes) }
{
    let MessageSizes { front, body } = sizes;
    let end = at as u128 + front as u128 + body as u128;
    if front > MOST_FRONT || end > LAST_PLACE {
        return Err(IpcError::TooLarge);
    }
    let block = Block {
        offset: at as i64,
        meta_data_length: front as i32,
        body_length: body as i64,
    };
    Ok(PlacedBlock {
        block,
        end: end as u64,
    })
}

/// The blocks of messages from a place on.
fn placed_messages(
    alloc: Global,
    at: u64,
    messages: &[MessageSizes],
) -> Result<PlacedMessages, IpcError>
    requires { at < 2 ^ 63 }
    ensures { PlacesAll result at (map message_sizes messages.now) }
{
    let mut blocks = Vec::with_capacity(alloc, messages.len())?;
    let mut end = at;
    for sizes in messages {
        let placed = place_block(end, *sizes)?;
        blocks.push(placed.block)?;
        end = placed.end;
    }
    Ok(PlacedMessages { blocks, end })
}

/// The blocks of messages from a place on, of which the last is a batch's and the others are dictionaries'.
pub(crate) fn chunk_blocks(
    alloc: Global,
    at: u64,
    messages: &[MessageSizes],
) -> Result<ChunkBlocks, IpcError>
    requires place { at < 2 ^ 63 }
    requires batch { 0 < length messages.now }
    ensures { PlacesChunk result at (map message_sizes messages.now) }
{
    let placed = placed_messages(alloc, at, messages)?;
    let PlacedMessages { blocks, end } = placed;
    let mut dictionaries = blocks;
    match dictionaries.pop() {
        Some(batch) => Ok(ChunkBlocks {
            dictionaries,
            batch,
            end,
        }),
        None => unreachable!(),
    }
}

impl FileBlocks {
    /// No block.
    pub(crate) fn new(alloc: Global) -> FileBlocks
        ensures dictionaries { result.dictionaries.items ≡ [] }
        ensures records { result.records.items ≡ [] }
    {
        FileBlocks {
            dictionaries: Vec::new(alloc),
            records: Vec::new(alloc),
            end: 0,
        }
    }

    /// Makes room for the blocks of some dictionaries and of a batch.
    pub(crate) fn make_room(&mut self, dictionaries: usize) -> Result<(), AllocError>
        ensures same { SameBlocks self.old self.new }
        ensures dictionaries { OnOk result (length self.new.dictionaries.items + dictionaries ≤ vec_capacity self.new.dictionaries) }
        ensures records { OnOk result (length self.new.records.items < vec_capacity self.new.records) }
    {
        self.dictionaries.reserve(dictionaries)?;
        self.records.reserve(1)
    }

    /// Adds blocks for which room was made.
    pub(crate) fn add(&mut self, chunk: &ChunkBlocks)
        requires dictionaries { length self.old.dictionaries.items + length chunk.now.dictionaries.items ≤ vec_capacity self.old.dictionaries }
        requires records { length self.old.records.items < vec_capacity self.old.records }
        ensures dictionaries { self.new.dictionaries.items ≡ self.old.dictionaries.items ++ chunk.now.dictionaries.items }
        ensures records { self.new.records.items ≡ self.old.records.items ++ chunk.now.batch ∷ [] }
        ensures end { self.new.end ≡ chunk.now.end }
    {
        let dictionaries = chunk.dictionaries.as_slice();
        if self.dictionaries.extend_from_slice(dictionaries).is_err() {
            unreachable!();
        }
        if self.records.push(chunk.batch).is_err() {
            unreachable!();
        }
        self.end = chunk.end;
    }
}
