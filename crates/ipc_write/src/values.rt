//! The values of dictionaries to messages (Arrow Columnar Format, "Dictionary Messages").
ghost use Rattle.std.specs.Prelude.{◌≡◌, Err, IfOk};
ghost use Rattle.arrow_spec.specs.declared.error.IpcError.TheVariants.{NotRepresentable};
ghost use Rattle.arrow_arrays.specs.Parts.{kind_in};
ghost use Rattle.arrow_arrays.specs.PartsOf.{parts_of};
ghost use Rattle.ipc_fields.specs.Representable.{are_representable_values};
ghost use Rattle.ipc_write.specs.Outcomes.{Either, refuses_types};
ghost use Rattle.ipc_write.specs.Values.{EncodesValues, MayBeValues, PlansValues};

use crate::encode::{in_one_piece, refuses_types};
use crate::metadata::Content;
use crate::planned::{MOST_ROWS, message_plan};
use crate::{BodyPlan, EncodedData, WriteOptions};
use arrow_arrays::Array;
use arrow_spec::{Feature, IpcError};
use ipc_fields::representable::are_representable_values;
use ipc_write_arrays::{Outputs, plan};
use std::alloc::Global;

/// The message of [`plan_values`], also of an array whose type the tables of a schema cannot say: for those who have looked at the type.
///
/// # Errors
///
/// As for [`plan_values`], without `NotRepresentable`.
pub fn plan_any_values(
    alloc: Global,
    id: i64,
    array: &Array,
    is_delta: bool,
    options: &WriteOptions,
) -> Result<BodyPlan, IpcError>
    ensures plans { PlansValues result options.now id is_delta (parts_of array.now) }
    ensures may { IfOk result (λ _. MayBeValues (parts_of array.now)) }
{
    if options.compression.is_some() {
        return Err(IpcError::Unsupported(Feature::Compression));
    }
    let rows = array.len();
    if rows > MOST_ROWS {
        return Err(IpcError::TooLarge);
    }
    let mut column = Outputs::new(alloc);
    plan(array, &mut column, true)?;
    let content = Content::DictionaryBatch(id, is_delta);
    message_plan(alloc, content, rows, column, options.metadata_limit)
}

/// The message of an array as the values of the dictionary under an id, or as more of them where it is a delta, in little-endian
/// order, with the buffers of its body, which share what the array holds. Of its own dictionaries the keys are written, and no
/// values: those have messages of their own, before it. Its views stay as they are.
///
/// # Errors
///
/// `Unsupported(Compression)` where compression is asked for; `NotRepresentable` where a dictionary stands directly in a dictionary or
/// in an extension, or a size, a precision or a scale passes 2^31 - 1; `TooLarge` where the padded metadata passes its limit, or the
/// rows or the body pass 2^63 - 1; `Memory`.
pub fn plan_values(
    alloc: Global,
    id: i64,
    array: &Array,
    is_delta: bool,
    options: &WriteOptions,
) -> Result<BodyPlan, IpcError>
    ensures plans { Either (refuses_types options.now (are_representable_values (kind_in (parts_of array.now)))) (result ≡ Err NotRepresentable) (PlansValues result options.now id is_delta (parts_of array.now)) }
    ensures may { IfOk result (λ _. MayBeValues (parts_of array.now)) }
{
    if refuses_types(options, are_representable_values(array.dtype())) {
        return Err(IpcError::NotRepresentable);
    }
    plan_any_values(alloc, id, array, is_delta, options)
}

/// The message of [`encode_values`], also of an array whose type the tables of a schema cannot say: for those who have looked at the type.
///
/// # Errors
///
/// As for [`encode_values`], without `NotRepresentable`.
pub fn encode_any_values(
    alloc: Global,
    id: i64,
    array: &Array,
    is_delta: bool,
    options: &WriteOptions,
) -> Result<EncodedData, IpcError>
    ensures encodes { EncodesValues result options.now id is_delta (parts_of array.now) }
    ensures may { IfOk result (λ _. MayBeValues (parts_of array.now)) }
{
    let plan = plan_any_values(alloc, id, array, is_delta, options)?;
    let message = in_one_piece(alloc, plan)?;
    Ok(message)
}

/// The message of [`plan_values`], with its body in one piece.
///
/// # Errors
///
/// As for [`plan_values`].
pub fn encode_values(
    alloc: Global,
    id: i64,
    array: &Array,
    is_delta: bool,
    options: &WriteOptions,
) -> Result<EncodedData, IpcError>
    ensures encodes { Either (refuses_types options.now (are_representable_values (kind_in (parts_of array.now)))) (result ≡ Err NotRepresentable) (EncodesValues result options.now id is_delta (parts_of array.now)) }
    ensures may { IfOk result (λ _. MayBeValues (parts_of array.now)) }
{
    if refuses_types(options, are_representable_values(array.dtype())) {
        return Err(IpcError::NotRepresentable);
    }
    encode_any_values(alloc, id, array, is_delta, options)
}
