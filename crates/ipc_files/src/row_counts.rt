//! How many rows the record batches of a file have, by their messages alone.
ghost use Rattle.std.specs.Prelude.{◌≡◌, ◌+◌, ◌^◌, ◌<◌, ◌≤◌, map, IfOk, IfErr, IfSome};
ghost use Rattle.arrow_spec.specs.Files.{footer_of};
ghost use Rattle.arrow_spec.specs.Readings.{Gives, natural};
ghost use Rattle.ipc_fields.specs.Causes.{Decodes};
ghost use Rattle.ipc_io.specs.Outside.{LeavesFaults, IsSize, SourceKept};
ghost use Rattle.ipc_files.specs.FileBlocks.{file_block, given, GivesIn};
ghost use Rattle.ipc_files.specs.Fetching.{MetadataFetched};
ghost use Rattle.ipc_files.specs.RowCounts.{block_rows, file_row_count, row_count_of, CountCause, MessagesFetched, RowCountFetched};

use crate::block::read_block_header;
use crate::metadata::read_footer;
use arrow_spec::{Block, IpcError, OutOfSpecKind};
use ipc_schema::{BatchHeader, Source, deserialize_record_blocks};
use std::alloc::Global;

/// The number of rows that a message states.
fn natural_rows(header: &BatchHeader) -> Result<u64, IpcError>
    ensures gives { Decodes (λ n. n) result (natural header.now.length) }
    ensures small { IfOk result (λ n. n < 2 ^ 63) }
{
    if header.length < 0 {
        return Err(IpcError::OutOfSpec(OutOfSpecKind::UnexpectedNegativeInteger));
    }
    Ok(header.length as u64)
}

/// How many rows the record batch of a block has, by its message, in a file of `size` bytes. Pairs are not looked at.
///
/// # Errors
///
/// As of `read_block_header`; `OutOfSpec(UnexpectedNegativeInteger)` where the message states a negative length.
pub fn read_block_rows<S: Source>(
    alloc: Global,
    source: &mut S,
    block: &Block,
    size: u64,
) -> Result<u64, IpcError>
    requires { IsSize (S.content source.old) size }
    ensures gives { GivesIn (S.content source.old) (λ n. n) result (λ b. given block.now (block_rows b)) }
    ensures small { IfOk result (λ n. n < 2 ^ 63) }
    ensures cause { IfErr result (λ e. CountCause e (S.faults source.old) (S.faults source.new)) }
    ensures faults_stay { LeavesFaults (S.faults source.old) (S.faults source.new) result }
    ensures fetched { MetadataFetched (S.content source.old) (file_block block.now) (S.fetched source.old) (S.fetched source.new) }
    ensures kept { SourceKept S.content S.faults S.references source.old source.new }
{
    let message = read_block_header(alloc, source, block, size)?;
    natural_rows(&message.header)
}

/// The rows of blocks together, in a file of `size` bytes.
fn count_rows<S: Source>(
    alloc: Global,
    source: &mut S,
    blocks: &[Block],
    size: u64,
) -> Result<i64, IpcError>
    requires { IsSize (S.content source.old) size }
    ensures gives { GivesIn (S.content source.old) (λ n. n) result (λ b. row_count_of b blocks.now) }
    ensures cause { IfErr result (λ e. CountCause e (S.faults source.old) (S.faults source.new)) }
    ensures faults_stay { LeavesFaults (S.faults source.old) (S.faults source.new) result }
    ensures fetched { MessagesFetched (S.content source.old) (map file_block blocks.now) (λ b. row_count_of b blocks.now) (S.fetched source.old) (S.fetched source.new) }
    ensures kept { SourceKept S.content S.faults S.references source.old source.new }
{
    let mut total = 0u64;
    for block in blocks {
        let rows = read_block_rows(alloc, source, block, size)?;
        total += rows;
        if total > i64::MAX as u64 {
            return Err(IpcError::OutOfSpec(OutOfSpecKind::RowCount));
        }
    }
    Ok(total as i64)
}

/// The rows of the record batches of these blocks together, by their messages. Of each block, the prefix and the metadata
/// are read.
///
/// # Errors
///
/// As of `read_block_rows`, at the first block where one holds; `OutOfSpec(RowCount)` at the block whose rows pass
/// 2^63 - 1.
pub fn get_row_count_from_blocks<S: Source>(
    alloc: Global,
    source: &mut S,
    blocks: &[Block],
) -> Result<i64, IpcError>
    ensures gives { IfSome (S.content source.old) (λ b. Gives (λ n. n) result (row_count_of b blocks.now)) }
    ensures cause { IfErr result (λ e. CountCause e (S.faults source.old) (S.faults source.new)) }
    ensures faults_stay { LeavesFaults (S.faults source.old) (S.faults source.new) result }

    // Of each block, at most its prefix and its metadata are fetched.
    ensures fetched { MessagesFetched (S.content source.old) (map file_block blocks.now) (λ b. row_count_of b blocks.now) (S.fetched source.old) (S.fetched source.new) }
    ensures kept { SourceKept S.content S.faults S.references source.old source.new }
{
    let size = source.size()?;
    count_rows(alloc, source, blocks, size)
}

/// The rows of a file, by its footer and the messages of its record batches. The schema, dictionaries and pairs are not
/// looked at.
///
/// # Errors
///
/// As of `read_file_metadata`, where they lie in the list of record blocks or before it, and as of
/// `get_row_count_from_blocks`.
pub fn get_row_count<S: Source>(alloc: Global, source: &mut S) -> Result<i64, IpcError>
    ensures gives { IfSome (S.content source.old) (λ b. Gives (λ n. n) result (file_row_count b)) }
    ensures cause { IfErr result (λ e. CountCause e (S.faults source.old) (S.faults source.new)) }
    ensures faults_stay { LeavesFaults (S.faults source.old) (S.faults source.new) result }

    // Beside the footer, at most the prefix and the metadata of each block are fetched.
    ensures fetched { RowCountFetched (S.content source.old) (S.fetched source.old) (S.fetched source.new) }
    ensures kept { SourceKept S.content S.faults S.references source.old source.new }
{
    let footer = read_footer(alloc, source)?;
    let blocks = deserialize_record_blocks(alloc, &footer.bytes)?;
    count_rows(alloc, source, &blocks, footer.size)
}
