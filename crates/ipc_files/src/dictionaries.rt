//! The dictionaries of a file (Arrow Columnar Format, "IPC File Format", "Dictionary Messages").
ghost use Rattle.std.specs.Prelude.{◌≡◌, ◌<◌, length, IfOk, IfErr, IfSome, ℤ};
ghost use Rattle.arrow_spec.specs.Arrays.{Dictionaries as History};
ghost use Rattle.ipc_io.specs.Outside.{LeavesFaults, IsSize, SourceKept};
ghost use Rattle.ipc_read.specs.DictionaryBatches.{AddsDictionary};
ghost use Rattle.ipc_read.specs.Held.{held_in};
ghost use Rattle.ipc_projection.specs.Below.{HoldsCells};
ghost use Rattle.ipc_files.specs.FileBlocks.{file_block, given};
ghost use Rattle.ipc_files.specs.FileDictionaries.{block_values, done, DictionariesFetched, DictionaryFetched, HoldsBlock, HoldsUses, ReadsDictionaries};
ghost use Rattle.ipc_files.specs.FileViews.{meta_view, FileCause, IsReadable};

use crate::batch::place_of_body;
use crate::block::read_block_dictionary;
use crate::metadata::FileMetadata;
use arrow_spec::{Block, IpcError};
use ipc_read::{Dictionaries, read_dictionary_batch};
use ipc_schema::Source;
use std::alloc::Global;

/// Reads the values of a dictionary block, behind those of the blocks before it, and answers their id. The first values of
/// an id are no delta, and all others are.
///
/// # Errors
///
/// As of `read_file_dictionaries`; then the map is as it was.
pub fn read_dictionary_block<S: Source>(
    alloc: Global,
    source: &mut S,
    block: &Block,
    file: &FileMetadata,
    dictionaries: &mut Dictionaries,
    scratch: &mut Vec<u8>,
) -> Result<i64, IpcError>
    requires read { IsReadable file.now }
    requires uses { HoldsUses (meta_view file.now) (held_in dictionaries.old) }
    requires whole { IsSize (S.content source.old) file.now.size }
    ensures adds { IfSome (S.content source.old) (λ b. (d : History) → HoldsCells d (held_in dictionaries.old) → AddsDictionary d (held_in dictionaries.new) (done result) (given block.now (block_values b (meta_view file.now) d))) }

    // The last part under the id is the one of the block's buffers.
    ensures part { IfOk result (λ id. IfSome (S.content source.old) (λ b. (d : History) → HoldsCells d (held_in dictionaries.old) → HoldsBlock b (meta_view file.now) (file_block block.now) (held_in dictionaries.old) (held_in dictionaries.new) id)) }
    ensures uses { IfOk result (λ _. HoldsUses (meta_view file.now) (held_in dictionaries.new)) }

    // A refusal leaves the map as it was.
    ensures refused { IfErr result (λ _. (q : ℤ) → held_in dictionaries.new q ≡ held_in dictionaries.old q) }
    ensures cause { IfErr result (λ e. FileCause e (S.faults source.old) (S.faults source.new)) }
    ensures faults_stay { LeavesFaults (S.faults source.old) (S.faults source.new) result }
    ensures fetched { DictionaryFetched (S.content source.old) (meta_view file.now) (file_block block.now) (S.fetched source.old) (S.fetched source.new) }
    ensures kept { SourceKept S.content S.faults S.references source.old source.new }
{
    let message = read_block_dictionary(alloc, source, block, file.size)?;
    read_dictionary_batch(
        alloc,
        message.id,
        message.is_delta,
        false,
        &message.header,
        &file.schema,
        &file.ipc_schema,
        dictionaries,
        message.version,
        source,
        place_of_body(block),
        file.size,
        scratch,
    )?;
    Ok(message.id)
}

/// Reads the dictionaries of a file, in the footer's order: of each id at most one that is no delta, and it is the first.
/// Of each block its prefix, its metadata and the buffers of its values are read.
///
/// # Errors
///
/// `InvalidId` where no column has the id, `DuplicateDictionary`, and as `read_batch` of the values; of blocks with a
/// negative number too.
pub fn read_file_dictionaries<S: Source>(
    alloc: Global,
    source: &mut S,
    metadata: &FileMetadata,
    scratch: &mut Vec<u8>,
) -> Result<Dictionaries, IpcError>
    requires readable { IsReadable metadata.now }
    requires whole { IsSize (S.content source.old) metadata.now.size }

    // Under each id stand the values of the blocks, one part a block, or a block is refused.
    ensures reads { IfSome (S.content source.old) (λ b. ReadsDictionaries b (meta_view metadata.now) metadata.now.dictionaries.items result) }
    ensures uses { IfOk result (λ m. HoldsUses (meta_view metadata.now) (held_in m)) }

    // Where there are no blocks nothing is refused.
    ensures some { IfErr result (λ _. 0 < length metadata.now.dictionaries.items) }
    ensures cause { IfErr result (λ e. FileCause e (S.faults source.old) (S.faults source.new)) }
    ensures faults_stay { LeavesFaults (S.faults source.old) (S.faults source.new) result }

    // Of blocks that can be read no more is fetched than their messages and the buffers that are looked at.
    ensures fetched { DictionariesFetched (S.content source.old) (meta_view metadata.now) (S.fetched source.old) (S.fetched source.new) }
    ensures kept { SourceKept S.content S.faults S.references source.old source.new }
{
    let mut dictionaries = Dictionaries::new(alloc);
    for block in &metadata.dictionaries {
        read_dictionary_block(alloc, source, block, metadata, &mut dictionaries, scratch)?;
    }
    Ok(dictionaries)
}
