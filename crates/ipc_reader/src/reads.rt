//! What a cursor reads at its place.
ghost use Rattle.std.specs.Prelude.{◌≡◌, ◌≤◌, ◌<◌, false, length, map, Some, IfOk, IfErr};
ghost use Rattle.arrow_spec.specs.Files.{what_is_left};
ghost use Rattle.ipc_io.specs.Outside.{LeavesFaults, IsSize, SourceKept};
ghost use Rattle.ipc_files.specs.FileBlocks.{GivesIn, file_block};
ghost use Rattle.ipc_files.specs.RowCounts.{blocks_passed, CountCause, MessagesFetched};
ghost use Rattle.ipc_reader.specs.Cursors.{left_after};
ghost use Rattle.ipc_reader.specs.Kept.{is_refused};
ghost use Rattle.ipc_reader.specs.Reads.{NextBatch, NextMessage, ReadsCurrent, SkipsBlocks};

use crate::cursor::FileCursor;
use crate::kept::KeptDictionaries;
use arrow_arrays::RecordBatch;
use arrow_spec::{Block, IpcError};
use ipc_files::{RecordMessage, read_block_header, read_block_rows, read_projected_batch};
use ipc_io::Source;
use std::alloc::Global;

/// How many rows are left behind some rows.
fn rows_left(left: Option<usize>, rows: usize) -> Option<usize>
    ensures { result ≡ what_is_left left rows }
{
    match left {
        None => None,
        Some(left) => Some(left.saturating_sub(rows)),
    }
}

/// How many rows are left behind what was read: a refusal has none.
fn left_behind(left: Option<usize>, read: &Result<RecordBatch, IpcError>) -> Option<usize>
    ensures { result ≡ left_after left (Some read.now) }
{
    match read {
        Ok(batch) => rows_left(left, batch.height()),
        Err(_) => left,
    }
}

/// Where a number of rows ends: a block, and the rows of it that remain.
#[derive(Clone, Copy, Debug, PartialEq, Eq)]
struct RowPlace {
    block: usize,
    rows: u64,
}

/// The block of a file of `size` bytes at which so many rows end, counted from the first of these blocks on.
fn pass_blocks<S: Source>(
    alloc: Global,
    source: &mut S,
    blocks: &[Block],
    size: u64,
    offset: u64,
) -> Result<RowPlace, IpcError>
    requires { IsSize (S.content source.old) size }
    ensures gives { GivesIn (S.content source.old) (λ p. (p.block, p.rows)) result (λ b. blocks_passed b blocks.now 0 offset) }
    ensures within { IfOk result (λ p. p.block ≤ length blocks.now) }
    ensures cause { IfErr result (λ e. CountCause e (S.faults source.old) (S.faults source.new)) }
    ensures faults_stay { LeavesFaults (S.faults source.old) (S.faults source.new) result }
    ensures fetched { MessagesFetched (S.content source.old) (map file_block blocks.now) (λ b. blocks_passed b blocks.now 0 offset) (S.fetched source.old) (S.fetched source.new) }
    ensures kept { SourceKept S.content S.faults S.references source.old source.new }
{
    let mut place = RowPlace {
        block: 0,
        rows: offset,
    };
    for block in blocks {
        let rows = read_block_rows(alloc, source, block, size)?;
        if rows > place.rows {
            return Ok(place);
        }
        place.rows -= rows;
        place.block += 1;
    }
    Ok(place)
}

impl FileCursor {
    /// The record batch of the current block, at the first one behind the dictionaries.
    fn read_current<S: Source>(
        &mut self,
        alloc: Global,
        source: &mut S,
    ) -> Result<RecordBatch, IpcError>
        requires whole { IsSize (S.content source.old) self.old.metadata.size }
        requires not_refused { is_refused self.old.dictionaries ≡ false }
        requires in_range { self.old.block < length self.old.metadata.blocks.items }
        ensures { ReadsCurrent S.content S.faults S.fetched S.references source.old source.new self.old self.new result }
    {
        let held = self.dictionaries.take(
            alloc,
            source,
            &self.metadata,
            self.projection.as_ref(),
            &mut self.scratch,
        )?;
        let read = read_projected_batch(
            alloc,
            source,
            &held,
            &self.metadata,
            self.projection.as_ref(),
            self.left,
            self.block,
            &mut self.scratch,
        );
        self.dictionaries = KeptDictionaries::Held(held);
        read
    }

    /// Reads the record batch of the current block, in the columns asked for, in their order, and as far as rows are left
    /// of the limit, and goes to the next block, also behind a refusal, which counts no rows. The first batch reads the
    /// dictionaries, which are kept. None at or past the last block, and behind a call that refused the dictionaries.
    ///
    /// # Errors
    ///
    /// As of `read_batch` of `ipc_files`, and at the first batch as of `read_file_dictionaries`, behind the features of the
    /// columns.
    pub fn next<S: Source>(
        &mut self,
        alloc: Global,
        source: &mut S,
    ) -> Option<Result<RecordBatch, IpcError>>
        requires whole { IsSize (S.content source.old) self.old.metadata.size }
        ensures { NextBatch S.content S.faults S.fetched S.references source.old source.new self.old self.new result }
    {
        if self.block >= self.metadata.blocks.len() || self.dictionaries.is_refused() {
            return None;
        }
        let read = self.read_current(alloc, source);
        self.block += 1;
        self.left = left_behind(self.left, &read);
        Some(read)
    }

    /// Reads the message of the record batch of the current block, whatever pairs it has, and goes to the next block, also
    /// behind a refusal. None at or past the last block. What is left of the limit stays, and no dictionary is read.
    ///
    /// # Errors
    ///
    /// As of `read_block_header` of `ipc_files`.
    pub fn next_record_batch<S: Source>(
        &mut self,
        alloc: Global,
        source: &mut S,
    ) -> Option<Result<RecordMessage, IpcError>>
        requires whole { IsSize (S.content source.old) self.old.metadata.size }
        ensures { NextMessage S.content S.faults S.fetched S.references source.old source.new self.old self.new result }
    {
        if self.block >= self.metadata.blocks.len() {
            return None;
        }
        let number = self.block;
        self.block = number + 1;
        Some(read_block_header(
            alloc,
            source,
            &self.metadata.blocks[number],
            self.metadata.size,
        ))
    }

    /// Goes to the block at which so many rows end, counted from the first block on, and answers how many of them remain
    /// there: fewer than the block has, or what is left behind the last one. A refusal leaves the cursor where it was.
    ///
    /// # Errors
    ///
    /// As of `read_block_rows` of `ipc_files`.
    pub fn skip_blocks_till_limit<S: Source>(
        &mut self,
        alloc: Global,
        source: &mut S,
        offset: u64,
    ) -> Result<u64, IpcError>
        requires whole { IsSize (S.content source.old) self.old.metadata.size }
        ensures { SkipsBlocks S.content S.faults S.fetched S.references source.old source.new self.old self.new offset result }
    {
        let place = pass_blocks(
            alloc,
            source,
            &self.metadata.blocks,
            self.metadata.size,
            offset,
        )?;
        self.block = place.block;
        Ok(place.rows)
    }
}
