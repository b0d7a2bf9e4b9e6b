//! The records of a log, as they are read (Arrow Columnar Format, "IPC Streaming Format").
ghost use Rattle.std.specs.Prelude.{◌≡◌, ◌⊎◌, ◌≤◌, ◌∷◌, ◌++◌, List, ℕ, [], IfErr, IfOk, Ok, Some, length, true};
ghost use Rattle.std.specs.Rc.{rc_value};
ghost use Rattle.arrow_spec.specs.Files.{TableBatch};
ghost use Rattle.arrow_spec.specs.Kinds.{Fields};
ghost use Rattle.arrow_spec.specs.Laws.{AreBytes};
ghost use Rattle.arrow_spec.specs.Regular.{regular};
ghost use Rattle.arrow_spec.specs.declared.error.IpcError.TheVariants.{Memory};
ghost use Rattle.arrow_types.specs.Schemas.{Keyed, fields_in};
ghost use Rattle.arrow_arrays.specs.Batches.{Batch};
ghost use Rattle.ipc_append.specs.Columns.{is_of};
ghost use Rattle.ipc_append.specs.Wholes.{IsWhole, table_read};
ghost use Rattle.ipc_fields.specs.Causes.{IsOfBytes};
ghost use Rattle.ipc_record_log.specs.Logs.{invalid_log};
ghost use Rattle.ipc_stream_writer.specs.Below.{cells_of};
ghost use Rattle.laws_logs.specs.Tables.{IsRecordOf};
ghost use Rattle.ipc_read_laws.specs.PlainKinds.{plain_fields};
ghost use Rattle.ipc_log_records.specs.Decoded.{IsNoRecord, IsRecordRead, Unread};
ghost use Rattle.ipc_log_records.specs.LogSchemas.{WasSaid, log_fields};

use crate::closed::{closed_dictionaries, told};
use crate::memory::BytesFeed;
use arrow_arrays::RecordBatch;
use arrow_spec::{IpcError, OutOfSpecKind};
use ipc_append::{WholeStream, read_whole, types_have_no_ids};
use std::alloc::Global;

/// The most dictionary messages of a record.
pub(crate) const MOST_DICTIONARIES: u64 = 1_048_576;

/// What a slice of bytes holds are bytes.
pub fn are_bytes(bytes: &[u8])
    ensures { AreBytes bytes.now }
{
    let _ = bytes;
}

/// The stream of a record.
fn whole(alloc: Global, bytes: Vec<u8>) -> Result<WholeStream, IpcError>
    ensures whole { IfOk result (λ s. IsWhole bytes.items s) }
    ensures fields { IfOk result (λ s. (table_read s).fields ≡ log_fields (rc_value s.metadata.schema)) }
    ensures is_regular { IfOk result (λ s. regular (fields_in (rc_value s.metadata.schema)) [] ≡ true) }
    ensures said { IfOk result (λ s. WasSaid (rc_value s.metadata.schema)) }
    ensures err { IfErr result (λ e. (e ≡ Memory) ⊎ (IsOfBytes e × IsNoRecord bytes.items)) }
{
    are_bytes(&bytes);
    read_whole(alloc, BytesFeed { bytes, at: 0 })
}

/// The stream of a record, where its bytes are one.
///
/// # Errors
///
/// `OutOfSpec(InvalidLog)` where they are none; `Memory`.
pub fn record_in(alloc: Global, bytes: Vec<u8>) -> Result<WholeStream, IpcError>
    ensures record { IfOk result (λ s. IsRecordRead bytes.items s) }
    ensures fields { IfOk result (λ s. (table_read s).fields ≡ log_fields (rc_value s.metadata.schema)) }
    ensures is_regular { IfOk result (λ s. regular (fields_in (rc_value s.metadata.schema)) [] ≡ true) }
    ensures said { IfOk result (λ s. WasSaid (rc_value s.metadata.schema)) }
    ensures err { IfErr result (λ e. Unread e bytes.items) }
{
    let dictionaries = closed_dictionaries(&bytes)?;
    if dictionaries > MOST_DICTIONARIES {
        return Err(IpcError::OutOfSpec(OutOfSpecKind::InvalidLog));
    }
    match whole(alloc, bytes) {
        Ok(stream) => Ok(stream),
        Err(error) => Err(told(error)),
    }
}

/// The last of some batches.
fn last_of(batches: Vec<RecordBatch>) -> Result<RecordBatch, IpcError>
    ensures last { IfOk result (λ x. (front : List Batch) × (batches.items ≡ front ++ x ∷ [])) }
    ensures none { IfErr result (λ e. (e ≡ invalid_log) × (batches.items ≡ [])) }
{
    let mut batches = batches;
    match batches.pop() {
        Some(batch) => Ok(batch),
        None => Err(IpcError::OutOfSpec(OutOfSpecKind::InvalidLog)),
    }
}

/// The batch of a record of one batch.
///
/// # Errors
///
/// Where the bytes are no record of one batch, as of `read_whole`, or `OutOfSpec(InvalidLog)`; `Memory`.
pub fn batch_in(alloc: Global, bytes: Vec<u8>) -> Result<RecordBatch, IpcError>
    ensures batch { IfOk result (λ x. (fields : Fields) (y : TableBatch) → IsRecordOf fields (y ∷ []) bytes.items → y ≡ cells_of x) }
    ensures kinds { IfOk result (λ x. (fields : Fields) (y : TableBatch) (s : List Keyed) → IsRecordOf fields (y ∷ []) bytes.items → plain_fields (fields_in s) ≡ fields_in s → fields ≡ log_fields s → is_of (fields_in s) x ≡ true) }
    ensures err { IfErr result (λ e. (e ≡ Memory) ⊎ (IsOfBytes e × ((fields : Fields) (y : TableBatch) → IsRecordOf fields (y ∷ []) bytes.items → ⊥))) }
{
    let stream = whole(alloc, bytes)?;
    types_have_no_ids(&stream.metadata.schema);
    let WholeStream { metadata, batches } = stream;
    drop(metadata);
    last_of(batches)
}
