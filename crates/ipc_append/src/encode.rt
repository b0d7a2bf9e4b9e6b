//! The messages of record batches, each with those of what of its dictionaries was not held before (Arrow Columnar Format, "Dictionary
//! Messages").
ghost use Rattle.std.specs.Prelude.{◌≡◌};
ghost use Rattle.ipc_fields.specs.IpcFields.{ids_of};
ghost use Rattle.ipc_append.specs.Encoded.{EncodesAll};

use arrow_arrays::RecordBatch;
use arrow_spec::IpcError;
use ipc_fields::IpcField;
use ipc_file_writer::{DictionaryTracker, EncodedData, WriteOptions, encode_chunk};
use std::alloc::Global;

/// The message of a record batch, and those of what of its dictionaries is to stand before it.
#[derive(Drop)]
pub(crate) struct EncodedChunk {
    pub(crate) dictionaries: Vec<EncodedData>,
    pub(crate) batch: EncodedData,
}

/// The messages of batches, in order, whose dictionaries are held then.
///
/// # Errors
///
/// As of `encode_chunk`, of the first batch that is refused; `Memory`. The tracker then holds what was encoded before.
pub(crate) fn encode_batches(
    alloc: Global,
    batches: &[RecordBatch],
    fields: &[IpcField],
    tracker: &mut DictionaryTracker,
    options: &WriteOptions,
) -> Result<Vec<EncodedChunk>, IpcError>
    requires { tracker.old.deltas ≡ options.now.deltas }
    ensures { EncodesAll result options.now (ids_of fields.now) tracker.old tracker.new batches.now }
{
    let mut chunks = Vec::new(alloc);
    for batch in batches {
        let (dictionaries, message) = encode_chunk(alloc, batch, fields, tracker, options)?;
        chunks.push(EncodedChunk {
            dictionaries,
            batch: message,
        })?;
    }
    Ok(chunks)
}
