//! The dictionaries of a file whose bytes are lent (Arrow Columnar Format, "IPC File Format", "Dictionary Messages").
ghost use Rattle.std.specs.Prelude.{◌≡◌, IfErr, IfOk, length};
ghost use Rattle.arrow_spec.specs.Arrays.{Dictionaries};
ghost use Rattle.ipc_fields.specs.Causes.{IsOfBytes};
ghost use Rattle.ipc_files.specs.FileBlocks.{given};
ghost use Rattle.ipc_files.specs.FileDictionaries.{block_values};
ghost use Rattle.ipc_files.specs.FileViews.{meta_view, IsReadable};
ghost use Rattle.ipc_view.specs.Batches.{AddsViews};
ghost use Rattle.ipc_view.specs.Dictionaries.{shown_in, ShowsCells};
ghost use Rattle.ipc_view.specs.Lent.{HoldsLent};
ghost use Rattle.ipc_mmap.specs.Chunks.{ShowsDictionaries};

use crate::block::{block_dictionary, body_range};
use arrow_spec::{Block, IpcError};
use ipc_files::FileMetadata;
use ipc_view::{DictionaryViews, view_dictionary_batch};
use std::alloc::Global;

/// The values of a dictionary block, behind those of the blocks before it.
fn add_block<'a>(
    alloc: Global,
    metadata: &FileMetadata,
    block: &Block,
    bytes: &'a [u8],
    dictionaries: &mut DictionaryViews<'a>,
) -> Result<(), IpcError>
    requires readable { IsReadable metadata.now }
    requires whole { metadata.now.size ≡ length bytes.now }
    ensures adds { (d : Dictionaries) → ShowsCells d (shown_in dictionaries.old) → AddsViews d (shown_in dictionaries.new) result (given block.now (block_values bytes.now (meta_view metadata.now) d)) }
    ensures lent { HoldsLent bytes.now (shown_in dictionaries.old) → HoldsLent bytes.now (shown_in dictionaries.new) }
    ensures cause { IfErr result IsOfBytes }
{
    let message = block_dictionary(alloc, bytes, block)?;
    view_dictionary_batch(
        alloc,
        message.id,
        message.is_delta,
        &message.header,
        &metadata.schema,
        &metadata.ipc_schema,
        dictionaries,
        message.version,
        bytes,
        body_range(bytes, block),
        metadata.size,
    )
}

/// The dictionaries of a file whose bytes are lent, in the footer's order, each part a view that copies no buffer. What is
/// wrong with them is told as `read_file_dictionaries` tells it of the same bytes.
///
/// # Errors
///
/// As of `read_file_dictionaries`, but for `ReadFault`.
pub fn mmap_dictionaries_checked<'a>(
    alloc: Global,
    metadata: &FileMetadata,
    bytes: &'a [u8],
) -> Result<DictionaryViews<'a>, IpcError>
    requires readable { IsReadable metadata.now }
    requires whole { metadata.now.size ≡ length bytes.now }

    // Under each id the parts show the cells of the blocks, or a block is refused.
    ensures shows { ShowsDictionaries bytes.now (meta_view metadata.now) metadata.now.dictionaries.items result }
    ensures lent { IfOk result (λ m. HoldsLent bytes.now (shown_in m)) }
    ensures cause { IfErr result IsOfBytes }
{
    let mut dictionaries = DictionaryViews::new(alloc);
    for block in &metadata.dictionaries {
        add_block(alloc, metadata, block, bytes, &mut dictionaries)?;
    }
    Ok(dictionaries)
}
