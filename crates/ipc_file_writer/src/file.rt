//! The writer of a file without its sink: what it keeps.
ghost use Rattle.std.specs.Prelude.{◌≡◌, ◌≤◌, length, true};
ghost use Rattle.ipc_fields.specs.IpcFields.{metadata_of};

use crate::blocks::FileBlocks;
use crate::pairs::FilePairs;
use arrow_types::ArrowSchemaRef;
use ipc_messages::{DictionaryTracker, IpcSchema, WriteOptions, WriterState};
use std::alloc::Global;

/// The writer of a file without its sink, which each call that writes is lent: how batches are written, what was begun or ended,
/// the file's schema with its IPC fields, its pairs and those of its footer, the dictionaries and the blocks that were put,
/// whether a batch was, and memory through which bodies are put.
pub struct FileCore {
    pub(crate) options: WriteOptions,
    pub(crate) state: WriterState,
    pub(crate) schema: ArrowSchemaRef,
    pub(crate) ipc_schema: IpcSchema,
    pub(crate) pairs: FilePairs,
    pub(crate) tracker: DictionaryTracker,
    pub(crate) blocks: FileBlocks,
    pub(crate) has_written: bool,
    pub(crate) scratch: Vec<u8>,
    pub(crate) alloc: Global,
    ghost few: { length (metadata_of pairs.footer) ≤ 1048576 },
    ghost order: { ipc_schema.is_little_endian ≡ true },
    ghost kept: { tracker.cannot_replace ≡ true },
    ghost deltas: { tracker.deltas ≡ options.deltas },
}

impl Drop for FileCore {
    fn drop(self) {
        let FileCore {
            options: _,
            state,
            schema,
            ipc_schema,
            pairs,
            tracker,
            blocks,
            has_written: _,
            scratch,
            alloc: _,
        } = self;
        drop(state);
        drop(schema);
        drop(ipc_schema);
        drop(pairs);
        drop(tracker);
        drop(blocks);
        drop(scratch);
    }
}
