//! A batch and what of its dictionaries is sent before it, as messages (Arrow Columnar Format, "Dictionary Messages").
ghost use Rattle.std.specs.Prelude.{◌≡◌, map};
ghost use Rattle.arrow_arrays.specs.Parts.{forest};
ghost use Rattle.ipc_fields.specs.IpcFields.{ids_of};
ghost use Rattle.ipc_dictionaries.specs.Walks.{to_send};
ghost use Rattle.ipc_messages.specs.Chunks.{EncodesChunk, EncodesChunkInto, EncodesFound};

use crate::encoded::encode_messages;
use arrow_arrays::RecordBatch;
use arrow_spec::{Feature, IpcError};
use ipc_dictionaries::{DictionaryTracker, ToEncode, new_dictionaries};
use ipc_fields::IpcField;
use ipc_write::{EncodedData, WriteOptions, encode_any_batch};
use std::alloc::Global;

/// The messages of dictionary batches, and the message of the batch behind them.
fn encode_found(
    alloc: Global,
    messages: &[ToEncode],
    batch: &RecordBatch,
    options: &WriteOptions,
    encoded: &mut EncodedData,
) -> Result<Vec<EncodedData>, IpcError>
    ensures { EncodesFound result options.now (map to_send messages.now) batch.now encoded.old encoded.new }
{
    let dictionaries = encode_messages(alloc, messages, options)?;
    encode_any_batch(alloc, batch, options, encoded)?;
    Ok(dictionaries)
}

/// The messages of what of a batch's dictionaries is to be sent before it, in order, as its answer, and the batch's own message, which is put
/// in place of another. The IPC fields are those of the batch's columns. What the tracker holds then was sent by these messages.
///
/// # Errors
///
/// `Unsupported(Compression)` where compression is asked for, also where nothing is to be sent. As for
/// [`ipc_dictionaries::new_dictionaries`]; then, of the first message that is refused, as for [`ipc_write::encode_any_values`]; then as for
/// [`ipc_write::encode_any_batch`]. Each leaves what the tracker holds, and `encoded`.
pub fn encode_chunk_amortized(
    alloc: Global,
    batch: &RecordBatch,
    fields: &[IpcField],
    tracker: &mut DictionaryTracker,
    options: &WriteOptions,
    encoded: &mut EncodedData,
) -> Result<Vec<EncodedData>, IpcError>
    requires deltas { tracker.old.deltas ≡ options.now.deltas }
    ensures encodes { EncodesChunkInto result options.now tracker.old tracker.new (forest batch.now.arrays) (ids_of fields.now) batch.now encoded.old encoded.new }
    ensures options { (tracker.new.cannot_replace ≡ tracker.old.cannot_replace) × (tracker.new.deltas ≡ tracker.old.deltas) }
{
    if options.compression.is_some() {
        return Err(IpcError::Unsupported(Feature::Compression));
    }
    let new = new_dictionaries(alloc, fields, batch.arrays(), tracker)?;
    match encode_found(alloc, new.messages.as_slice(), batch, options, encoded) {
        Ok(dictionaries) => Ok(dictionaries),
        Err(error) => {
            new.undo(tracker);
            Err(error)
        }
    }
}

/// The messages of what of a batch's dictionaries is to be sent before it, in order, and the batch's own, as [`encode_chunk_amortized`] says.
///
/// # Errors
///
/// As for [`encode_chunk_amortized`]. Each leaves what the tracker holds.
pub fn encode_chunk(
    alloc: Global,
    batch: &RecordBatch,
    fields: &[IpcField],
    tracker: &mut DictionaryTracker,
    options: &WriteOptions,
) -> Result<(Vec<EncodedData>, EncodedData), IpcError>
    requires deltas { tracker.old.deltas ≡ options.now.deltas }
    ensures encodes { EncodesChunk result options.now tracker.old tracker.new (forest batch.now.arrays) (ids_of fields.now) batch.now }
    ensures options { (tracker.new.cannot_replace ≡ tracker.old.cannot_replace) × (tracker.new.deltas ≡ tracker.old.deltas) }
{
    let mut encoded = EncodedData::new(alloc);
    match encode_chunk_amortized(alloc, batch, fields, tracker, options, &mut encoded) {
        Ok(dictionaries) => Ok((dictionaries, encoded)),
        Err(error) => Err(error),
    }
}
