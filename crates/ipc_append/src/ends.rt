//! Where the farthest of a file's blocks ends (File.fbs, Block).
ghost use Rattle.std.specs.Int.{w32};
ghost use Rattle.std.specs.Prelude.{FitsSigned};
ghost use Rattle.arrow_spec.specs.Readings.{natural};
ghost use Rattle.ipc_append.specs.Places.{HaveWidths, Tells, block_end, farthest, last_end};

use arrow_spec::{Block, IpcError, OutOfSpecKind};
use ipc_streams::FileMetadata;

/// A number of a block, which may not be negative.
fn natural(number: i64) -> Result<u64, IpcError>
    ensures { Tells result (natural number) }
{
    if number < 0 {
        return Err(IpcError::OutOfSpec(OutOfSpecKind::UnexpectedNegativeInteger));
    }
    Ok(number as u64)
}

/// The place behind a block.
fn block_end(block: &Block) -> Result<u128, IpcError>
    ensures { Tells result (block_end block.now) }
{
    let offset = natural(block.offset)?;
    let metadata = natural(i64::from(block.meta_data_length))?;
    let body = natural(block.body_length)?;
    Ok(offset as u128 + metadata as u128 + body as u128)
}

/// The farthest of a place and the ends of blocks.
fn farthest(place: u128, blocks: &[Block]) -> Result<u128, IpcError>
    ensures { Tells result (farthest place blocks.now) }
{
    let mut end = place;
    for block in blocks {
        let behind = block_end(block)?;
        end = end.max(behind);
    }
    Ok(end)
}

/// The place behind the farthest of a file's blocks.
///
/// # Errors
///
/// `OutOfSpec(MissingRecordBatches)` where there is no record batch; `OutOfSpec(UnexpectedNegativeInteger)` for a negative number of
/// a block; `OutOfSpec(BlockRange)` where a block passes the file's end.
pub(crate) fn last_end(metadata: &FileMetadata) -> Result<u64, IpcError>
    ensures { Tells result (last_end metadata.now) }
{
    let records = metadata.blocks.as_slice();
    if records.is_empty() {
        return Err(IpcError::OutOfSpec(OutOfSpecKind::MissingRecordBatches));
    }
    let dictionaries = farthest(0, metadata.dictionaries.as_slice())?;
    let end = farthest(dictionaries, records)?;
    if end > metadata.size as u128 {
        return Err(IpcError::OutOfSpec(OutOfSpecKind::BlockRange));
    }
    Ok(end as u64)
}

/// The length of a block's metadata is a number of its type.
fn has_width(block: &Block)
    ensures { FitsSigned w32 block.now.meta_data_length }
{
    let length = block.meta_data_length;
    let _ = length;
}

/// Those of blocks are.
pub(crate) fn have_widths(blocks: &[Block])
    ensures { HaveWidths blocks.now }
{
    for block in blocks {
        has_width(block);
    }
}
