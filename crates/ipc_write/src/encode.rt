//! Record batches to messages (Arrow Columnar Format, "RecordBatch message").
ghost use Rattle.std.specs.Prelude.{◌≡◌, ◌&&◌, not, map, Err, IfOk};
ghost use Rattle.arrow_spec.specs.Framing.{body_bytes};
ghost use Rattle.arrow_spec.specs.declared.error.IpcError.TheVariants.{NotRepresentable};
ghost use Rattle.arrow_arrays.specs.Parts.{cells_in, forest};
ghost use Rattle.arrow_arrays.specs.Columns.{columns_of};
ghost use Rattle.ipc_fields.specs.Representable.{all_representable};
ghost use Rattle.ipc_write.specs.Batches.{written_batch_of};
ghost use Rattle.ipc_write.specs.Encoding.{IsWhole, Makes, MayBeBatch};
ghost use Rattle.ipc_write.specs.Outcomes.{Either, Encodes, Plans, Same, refuses_types};

use crate::columns::plan_columns;
use crate::metadata::Content;
use crate::planned::{MOST_ROWS, message_plan};
use crate::representable::are_representable;
use crate::{BodyPlan, EncodedData, WriteOptions};
use arrow_arrays::RecordBatch;
use arrow_spec::{Feature, IpcError};
use ipc_bodies::append_body;
use std::alloc::{AllocError, Global};

/// A batch's arrays are sound, and its pairs ascend by their keys.
fn is_whole(batch: &RecordBatch)
    ensures { IsWhole batch.now }
{
    let _ = batch.height();
    match batch.custom_metadata() {
        None => {}
        Some(pairs) => {
            let _ = pairs.len();
        }
    }
}

/// The message of a batch, with its pairs, whose padded metadata is within a limit, with the buffers of its body.
fn batch_plan(alloc: Global, batch: &RecordBatch, limit: usize) -> Result<BodyPlan, IpcError>
    ensures makes { Makes result limit batch.now }
    ensures may { IfOk result (λ _. MayBeBatch batch.now) }
{
    is_whole(batch);
    let rows = batch.height();
    if rows > MOST_ROWS {
        return Err(IpcError::TooLarge);
    }
    let columns = plan_columns(alloc, batch.arrays(), rows)?;
    message_plan(
        alloc,
        Content::RecordBatch(batch.custom_metadata()),
        rows,
        columns,
        limit,
    )
}

/// The message of [`plan_batch`], also of a batch of which the tables of a schema cannot say a type: for those who have looked at the types.
///
/// # Errors
///
/// As for [`plan_batch`], without `NotRepresentable`.
pub fn plan_any_batch(
    alloc: Global,
    batch: &RecordBatch,
    options: &WriteOptions,
) -> Result<BodyPlan, IpcError>
    ensures plans { Plans result options.now batch.now }
    ensures may { IfOk result (λ _. MayBeBatch batch.now) }
    ensures cells { IfOk result (λ _. map (λ c. c.cells) (written_batch_of batch.now).columns ≡ map cells_in batch.now.arrays) }
{
    if options.compression.is_some() {
        return Err(IpcError::Unsupported(Feature::Compression));
    }
    batch_plan(alloc, batch, options.metadata_limit)
}

/// Whether types are refused: the tables of a schema cannot say them, and no compression is asked for, which is told before.
pub(crate) fn refuses_types(options: &WriteOptions, are_representable: bool) -> bool
    ensures { result ≡ refuses_types options.now are_representable }
{
    match options.compression {
        Some(_) => false,
        None => !are_representable,
    }
}

/// The message of a batch in little-endian order, with its pairs and the buffers of its body, which share what the batch holds. Of its
/// dictionaries the keys are written, and no values. A view column of which at least min(v, 1024) bytes of its buffers are unused,
/// where v is the sum of the lengths of its values, is laid anew.
///
/// # Errors
///
/// `Unsupported(Compression)` where compression is asked for; `NotRepresentable` where a dictionary stands directly in a dictionary or
/// in an extension, or a size, a precision or a scale passes 2^31 - 1; `TooLarge` where the padded metadata passes its limit, or the
/// rows or the body pass 2^63 - 1; `Memory`.
pub fn plan_batch(
    alloc: Global,
    batch: &RecordBatch,
    options: &WriteOptions,
) -> Result<BodyPlan, IpcError>
    ensures plans { Either (refuses_types options.now (all_representable (columns_of (forest batch.now.arrays)))) (result ≡ Err NotRepresentable) (Plans result options.now batch.now) }
    ensures may { IfOk result (λ _. MayBeBatch batch.now) }
    ensures cells { IfOk result (λ _. map (λ c. c.cells) (written_batch_of batch.now).columns ≡ map cells_in batch.now.arrays) }
{
    if refuses_types(options, are_representable(batch.arrays())) {
        return Err(IpcError::NotRepresentable);
    }
    plan_any_batch(alloc, batch, options)
}

/// The message with its body in one piece.
pub(crate) fn in_one_piece(alloc: Global, plan: BodyPlan) -> Result<EncodedData, AllocError>
    ensures message { IfOk result (λ m. m.ipc_message.items ≡ plan.ipc_message.items) }
    ensures body { IfOk result (λ m. m.arrow_data.items ≡ body_bytes 0 plan.buffers.items) }
{
    let BodyPlan {
        ipc_message,
        buffers,
        body_length,
    } = plan;
    let mut arrow_data = Vec::with_capacity(alloc, body_length)?;
    append_body(buffers.as_slice(), &mut arrow_data)?;
    Ok(EncodedData {
        ipc_message,
        arrow_data,
    })
}

/// The message of [`encode_record_batch`], also of a batch of which the tables of a schema cannot say a type: for those who have looked at
/// the types.
///
/// # Errors
///
/// As for [`encode_record_batch`], without `NotRepresentable`.
pub fn encode_any_batch(
    alloc: Global,
    batch: &RecordBatch,
    options: &WriteOptions,
    encoded: &mut EncodedData,
) -> Result<(), IpcError>
    ensures encodes { Encodes result options.now batch.now encoded.old encoded.new }
    ensures may { IfOk result (λ _. MayBeBatch batch.now) }
    ensures cells { IfOk result (λ _. map (λ c. c.cells) (written_batch_of batch.now).columns ≡ map cells_in batch.now.arrays) }
{
    match plan_any_batch(alloc, batch, options) {
        Ok(plan) => match in_one_piece(alloc, plan) {
            Ok(message) => {
                *encoded = message;
                Ok(())
            }
            Err(_) => Err(IpcError::Memory),
        },
        Err(error) => Err(error),
    }
}

/// The message of a batch in little-endian order, with its pairs. Of its dictionaries the keys are written, and no values. A view column
/// of which at least min(v, 1024) bytes of its buffers are unused, where v is the sum of the lengths of its values, is laid anew.
///
/// # Errors
///
/// As for [`plan_batch`]. Each leaves `encoded` as it was.
pub fn encode_record_batch(
    alloc: Global,
    batch: &RecordBatch,
    options: &WriteOptions,
    encoded: &mut EncodedData,
) -> Result<(), IpcError>
    ensures encodes { Either (refuses_types options.now (all_representable (columns_of (forest batch.now.arrays)))) ((result ≡ Err NotRepresentable) × Same encoded.old encoded.new) (Encodes result options.now batch.now encoded.old encoded.new) }
    ensures may { IfOk result (λ _. MayBeBatch batch.now) }
    ensures cells { IfOk result (λ _. map (λ c. c.cells) (written_batch_of batch.now).columns ≡ map cells_in batch.now.arrays) }
{
    if refuses_types(options, are_representable(batch.arrays())) {
        return Err(IpcError::NotRepresentable);
    }
    encode_any_batch(alloc, batch, options, encoded)
}
