//! The writer of a stream without its sink: what it keeps.
ghost use Rattle.std.specs.Prelude.{◌≡◌, ◌≤◌, ℤ, length, true};
ghost use Rattle.arrow_spec.specs.Readings.{is_absent};
ghost use Rattle.ipc_fields.specs.IpcFields.{metadata_of};
ghost use Rattle.ipc_messages.specs.Below.{held_by};
ghost use Rattle.ipc_messages.specs.States.{is_new, may_be_started};

use arrow_types::ArrowSchema;
use ipc_bodies::Encoding;
use ipc_fields::IpcField;
use ipc_messages::{DictionaryTracker, StreamPairs, WriteOptions, WriterState};
use std::alloc::Global;

/// The writer of a stream without its sink, which each call that writes is lent: how batches are written, whether the bytes of the
/// stream are put or their hex text, what was begun or ended, the stream's schema with its IPC fields, the pairs for it and for its
/// message, the dictionaries that were sent, how many bytes the stream has, and memory that is used again.
pub struct StreamCore {
    pub(crate) options: WriteOptions,
    pub(crate) encoding: Encoding,
    pub(crate) state: WriterState,
    pub(crate) schema: ArrowSchema,
    pub(crate) fields: Vec<IpcField>,
    pub(crate) pairs: StreamPairs,
    pub(crate) tracker: DictionaryTracker,
    pub(crate) byte_count: u128,
    pub(crate) scratch: Vec<u8>,
    pub(crate) alloc: Global,
    ghost pieces: { length scratch.items ≡ 65536 },
    ghost few: { length (metadata_of pairs.message) ≤ 1048576 },
    ghost deltas: { tracker.deltas ≡ options.deltas },
    ghost none_held: { is_new state ≡ true → (id : ℤ) → is_absent (held_by tracker id) ≡ true },
    ghost plain: { may_be_started state options ≡ true },
}

impl Drop for StreamCore {
    fn drop(self) {
        let StreamCore {
            options: _,
            encoding: _,
            state,
            schema,
            fields,
            pairs,
            tracker,
            byte_count: _,
            scratch,
            alloc: _,
        } = self;
        drop(state);
        drop(schema);
        drop(fields);
        drop(pairs);
        drop(tracker);
        drop(scratch);
    }
}
