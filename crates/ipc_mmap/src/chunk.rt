//! Record batches of a file whose bytes are lent.
ghost use Rattle.std.specs.Prelude.{◌≡◌, ◌<◌, IfErr, IfOk, None, Some, length, nat_eq, slice_get};
ghost use Rattle.arrow_spec.specs.Arrays.{Dictionaries};
ghost use Rattle.arrow_spec.specs.Readings.{Gives};
ghost use Rattle.arrow_spec.specs.declared.message.Block.{Block};
ghost use Rattle.ipc_fields.specs.Causes.{IsOfBytes};
ghost use Rattle.ipc_fields.specs.IpcFields.{metadata_in, metadata_of};
ghost use Rattle.ipc_files.specs.Blocks.{batch_in};
ghost use Rattle.ipc_files.specs.FileViews.{meta_view, IsReadable};
ghost use Rattle.ipc_files.specs.Requests.{asked};
ghost use Rattle.view_types.specs.Views.{views};
ghost use Rattle.ipc_view.specs.Dictionaries.{shown_in, ShowsCells};
ghost use Rattle.ipc_view.specs.Lent.{AreLentOf, HoldsLent};
ghost use Rattle.ipc_mmap.specs.Chunks.{table_of};

use crate::block::{block_message, body_range};
use arrow_spec::IpcError;
use arrow_types::Metadata;
use ipc_files::FileMetadata;
use ipc_read::check_kinds;
use ipc_view::{ArrayView, DictionaryViews, view_record_batch};
use std::alloc::Global;

/// A record batch whose bytes are lent: views of its columns.
pub struct ChunkView<'a> {
    rows: usize,
    columns: Vec<ArrayView<'a>>,
    custom_metadata: Option<Metadata>,
}

impl<'a> Drop for ChunkView<'a> {
    fn drop(self) {
        let ChunkView {
            rows: _,
            columns,
            custom_metadata,
        } = self;
        drop(columns);
        drop(custom_metadata);
    }
}

impl<'a> ChunkView<'a> {
    /// How many rows each column has.
    pub fn len(&self) -> usize
        ensures { result ≡ self.now.rows }
    {
        self.rows
    }

    /// Whether there is no row.
    pub fn is_empty(&self) -> bool
        ensures { result ≡ nat_eq self.now.rows 0 }
    {
        self.rows == 0
    }

    /// How many columns there are.
    pub fn width(&self) -> usize
        ensures { result ≡ length self.now.columns.items }
    {
        self.columns.len()
    }

    /// The i-th column.
    pub fn column(&self, i: usize) -> &ArrayView<'a>
        requires { i < length self.now.columns.items }
        ensures { slice_get self.now.columns.items i ≡ Some result.now }
    {
        &self.columns[i]
    }

    /// The pairs of its message, where it has any.
    pub fn custom_metadata(&self) -> Option<&Metadata>
        ensures { metadata_in result ≡ metadata_of self.now.custom_metadata }
    {
        match &self.custom_metadata {
            Some(pairs) => Some(pairs),
            None => None,
        }
    }
}

/// The record batch of the block `chunk` of a file whose bytes are lent: views of all columns, which copy no buffer. What
/// is wrong with them is told as `read_batch` tells it of the same bytes. The memory that is taken is that of the message
/// and of the views' tree; the parts of dictionaries are shared by their ranges.
///
/// # Errors
///
/// As of `read_batch`, but for `ReadFault`.
pub fn mmap_checked<'a>(
    alloc: Global,
    metadata: &FileMetadata,
    dictionaries: &DictionaryViews<'a>,
    bytes: &'a [u8],
    chunk: usize,
) -> Result<ChunkView<'a>, IpcError>
    requires in_range { chunk < length metadata.now.blocks.items }
    requires readable { IsReadable metadata.now }
    requires whole { metadata.now.size ≡ length bytes.now }

    // The views show what the block means in all columns under the dictionaries that are shown, or a refusal of it, as `read_batch` reads it.
    ensures gives { (block : Block) → slice_get metadata.now.blocks.items chunk ≡ Some block → (d : Dictionaries) → ShowsCells d (shown_in dictionaries.now) → Gives table_of result (batch_in (asked None None) bytes.now (meta_view metadata.now) d block) }

    // They lend these bytes, where the dictionaries do.
    ensures lent { HoldsLent bytes.now (shown_in dictionaries.now) → IfOk result (λ c. AreLentOf bytes.now (views c.columns.items)) }
    ensures cause { IfErr result IsOfBytes }
{
    check_kinds(&metadata.schema, None)?;
    let block = &metadata.blocks[chunk];
    let read = block_message(alloc, bytes, block)?;
    let (rows, columns) = view_record_batch(
        alloc,
        &read.message.header,
        &metadata.schema,
        &metadata.ipc_schema,
        dictionaries,
        read.message.version,
        bytes,
        body_range(bytes, block),
        metadata.size,
    )?;
    Ok(ChunkView {
        rows,
        columns,
        custom_metadata: read.custom_metadata,
    })
}
