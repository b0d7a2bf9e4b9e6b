//! The messages of a file's blocks.
ghost use Rattle.std.specs.Prelude.{◌≡◌, ◌+◌, ◌≤◌, ◌<◌, ◌^◌, IfOk, IfErr, OnOk};
ghost use Rattle.ipc_fields.specs.Causes.{Decodes};
ghost use Rattle.ipc_io.specs.Outside.{LeavesFaults, IsSize, SourceKept};
ghost use Rattle.ipc_schema.specs.Headers.{dictionary_message, dictionary_message_of};
ghost use Rattle.ipc_schema.specs.Views.{header_of, message_of};
ghost use Rattle.arrow_spec.specs.WrittenSchemas.{CustomMayBeWritten};
ghost use Rattle.laws_columns.specs.Below.{HeaderFits};
ghost use Rattle.ipc_files.specs.FileBlocks.{block_header, given, message_metadata as metadata_at, paired_message, paired_of, Lies, PrefixIn, BlockIn, GivesIn, file_block};
ghost use Rattle.ipc_files.specs.FileDictionaries.{DictionaryIn};
ghost use Rattle.ipc_files.specs.FileViews.{FileCause};
ghost use Rattle.ipc_files.specs.Fetching.{FrontFetched, MessageFetched, MetadataFetched};
ghost use Rattle.ipc_files.specs.RowCounts.{CountCause};

use crate::fetch::fetch;
use crate::integers::natural;
use arrow_spec::{Block, IpcError, OutOfSpecKind};
use arrow_types::Metadata;
use ipc_schema::{
    DictionaryMessage, RecordMessage, Source, is_continuation, message_metadata, metadata_length,
    read_dictionary_message, read_record_message,
};
use std::alloc::Global;

/// The message of a record batch of a block, and its pairs.
#[derive(Drop)]
pub struct BlockMessage {
    /// The message without its pairs.
    pub message: RecordMessage,
    /// Its pairs, none where there are none.
    pub custom_metadata: Option<Metadata>,
}

/// Where the metadata begins behind a place, and its length, in a message whose prefix and metadata take `size` bytes
/// there. What follows the prefix is not read.
#[tactic(auto, using(crate::proofs::BlockPrefixes::too_short, crate::proofs::BlockPrefixes::plain, crate::proofs::BlockPrefixes::cut_off, crate::proofs::BlockPrefixes::marked, crate::proofs::BlockPrefixes::faulted, crate::proofs::Fetching::front_four, crate::proofs::Fetching::front_eight))]
fn read_prefix<S: Source>(
    alloc: Global,
    source: &mut S,
    at: u64,
    size: usize,
) -> Result<(usize, usize), IpcError>
    requires inside { Lies (S.content source.old) at size }
    requires small { at < 2 ^ 63 }
    ensures prefix { PrefixIn (S.content source.old) at size result }
    ensures within { IfOk result (λ p. p.0 + p.1 ≤ size) }
    ensures cause { IfErr result (λ e. CountCause e (S.faults source.old) (S.faults source.new)) }
    ensures faults_stay { LeavesFaults (S.faults source.old) (S.faults source.new) result }
    ensures fetched { FrontFetched (S.content source.old) at size (S.fetched source.old) (S.fetched source.new) }
    ensures kept { SourceKept S.content S.faults S.references source.old source.new }
{
    if size < 4 {
        return Err(IpcError::OutOfSpec(OutOfSpecKind::MessageRange));
    }
    let front = fetch(alloc, source, at, 4)?;
    if !is_continuation(&front) {
        return metadata_length(&front, 4, size);
    }
    if size < 8 {
        return Err(IpcError::OutOfSpec(OutOfSpecKind::MessageRange));
    }
    let four = fetch(alloc, source, at + 4, 4)?;
    metadata_length(&four, 8, size)
}

/// The record batch's message in some bytes.
#[tactic(auto, unfolding(arrow_spec::specs::Readings::bind, crate::specs::FileBlocks::paired_message))]
fn message_in(alloc: Global, bytes: &[u8]) -> Result<BlockMessage, IpcError>
    ensures gives { Decodes paired_of result (paired_message bytes.now) }
    ensures fits { IfOk result (λ m. HeaderFits (paired_of m).tables) }
    ensures ordered { IfOk result (λ m. CustomMayBeWritten (paired_of m).custom) }
{
    let message = read_record_message(alloc, bytes)?;
    let custom_metadata = message_metadata(alloc, bytes)?;
    Ok(BlockMessage {
        message,
        custom_metadata,
    })
}

/// The message of a dictionary in some bytes.
fn dictionary_in(alloc: Global, bytes: &[u8]) -> Result<DictionaryMessage, IpcError>
    ensures gives { Decodes dictionary_message_of result (dictionary_message bytes.now) }
    ensures fits { IfOk result (λ m. HeaderFits (header_of m.header)) }
{
    read_dictionary_message(alloc, bytes)
}

/// The metadata of the message in a block of a file of `size` bytes, behind its prefix. No number of the block may be
/// negative, which is looked at before anything is read.
fn fetch_metadata<S: Source>(
    alloc: Global,
    source: &mut S,
    block: &Block,
    size: u64,
) -> Result<Vec<u8>, IpcError>
    requires { IsSize (S.content source.old) size }
    ensures within { OnOk result ((file_block block.now).offset + (file_block block.now).metadata + (file_block block.now).body ≤ size) }
    ensures metadata { GivesIn (S.content source.old) (λ v. v.items) result (λ b. given block.now (metadata_at b)) }
    ensures cause { IfErr result (λ e. CountCause e (S.faults source.old) (S.faults source.new)) }
    ensures faults_stay { LeavesFaults (S.faults source.old) (S.faults source.new) result }
    ensures fetched { MetadataFetched (S.content source.old) (file_block block.now) (S.fetched source.old) (S.fetched source.new) }
    ensures kept { SourceKept S.content S.faults S.references source.old source.new }
{
    let offset = natural(block.offset)?;
    let metadata = natural(i64::from(block.meta_data_length))?;
    let body = natural(block.body_length)?;
    if offset > size || metadata > size - offset || body > size - offset - metadata {
        return Err(IpcError::OutOfSpec(OutOfSpecKind::BlockRange));
    }
    let (start, length) = read_prefix(alloc, source, offset, metadata as usize)?;
    fetch(alloc, source, offset + start as u64, length)
}

/// The message of a record batch in a block of a file of `size` bytes; of the block, the prefix and the metadata are read.
///
/// # Errors
///
/// `OutOfSpec(UnexpectedNegativeInteger)` where a number of the block is negative, `OutOfSpec(BlockRange)` where it passes
/// the end of the file, `OutOfSpec` with the kind of the part that is not as the format says, `Unsupported(Version)`, `TooMany(Pairs)`, `ReadFault` and `Memory`.
#[tactic(auto, using(crate::proofs::FetchedFiles::message_fetched))]
pub fn read_block_message<S: Source>(
    alloc: Global,
    source: &mut S,
    block: &Block,
    size: u64,
) -> Result<BlockMessage, IpcError>
    requires { IsSize (S.content source.old) size }
    ensures within { OnOk result ((file_block block.now).offset + (file_block block.now).metadata + (file_block block.now).body ≤ size) }
    ensures message { BlockIn (S.content source.old) block.now result }
    ensures fits { IfOk result (λ m. HeaderFits (paired_of m).tables) }
    ensures ordered { IfOk result (λ m. CustomMayBeWritten (paired_of m).custom) }
    ensures cause { IfErr result (λ e. FileCause e (S.faults source.old) (S.faults source.new)) }
    ensures faults_stay { LeavesFaults (S.faults source.old) (S.faults source.new) result }
    ensures fetched { MessageFetched (S.content source.old) (file_block block.now) (S.fetched source.old) (S.fetched source.new) }
    ensures kept { SourceKept S.content S.faults S.references source.old source.new }
{
    let bytes = fetch_metadata(alloc, source, block, size)?;
    message_in(alloc, &bytes)
}

/// The message of a dictionary in a block of a file of `size` bytes; of the block, the prefix and the metadata are read.
pub(crate) fn read_block_dictionary<S: Source>(
    alloc: Global,
    source: &mut S,
    block: &Block,
    size: u64,
) -> Result<DictionaryMessage, IpcError>
    requires { IsSize (S.content source.old) size }
    ensures within { OnOk result ((file_block block.now).offset + (file_block block.now).metadata + (file_block block.now).body ≤ size) }
    ensures message { DictionaryIn (S.content source.old) block.now result }
    ensures fits { IfOk result (λ m. HeaderFits (header_of m.header)) }
    ensures cause { IfErr result (λ e. FileCause e (S.faults source.old) (S.faults source.new)) }
    ensures faults_stay { LeavesFaults (S.faults source.old) (S.faults source.new) result }
    ensures fetched { MetadataFetched (S.content source.old) (file_block block.now) (S.fetched source.old) (S.fetched source.new) }
    ensures kept { SourceKept S.content S.faults S.references source.old source.new }
{
    let bytes = fetch_metadata(alloc, source, block, size)?;
    dictionary_in(alloc, &bytes)
}

/// The message of a record batch in a block of a file of `size` bytes, whatever pairs it has; of the block, the prefix and
/// the metadata are read.
///
/// # Errors
///
/// As of `read_batch`, where they lie in the prefix or the metadata, but for pairs.
pub fn read_block_header<S: Source>(
    alloc: Global,
    source: &mut S,
    block: &Block,
    size: u64,
) -> Result<RecordMessage, IpcError>
    requires { IsSize (S.content source.old) size }
    ensures header { GivesIn (S.content source.old) message_of result (λ b. given block.now (block_header b)) }
    ensures cause { IfErr result (λ e. CountCause e (S.faults source.old) (S.faults source.new)) }
    ensures faults_stay { LeavesFaults (S.faults source.old) (S.faults source.new) result }
    ensures fetched { MetadataFetched (S.content source.old) (file_block block.now) (S.fetched source.old) (S.fetched source.new) }
    ensures kept { SourceKept S.content S.faults S.references source.old source.new }
{
    let bytes = fetch_metadata(alloc, source, block, size)?;
    read_record_message(alloc, &bytes)
}
