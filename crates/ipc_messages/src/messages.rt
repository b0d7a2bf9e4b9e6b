//! The messages of a batch and of what of its dictionaries is sent before it, planned (Arrow Columnar Format, "Dictionary Messages").
ghost use Rattle.std.specs.Prelude.{◌≡◌, ◌+◌, ◌^◌, ◌<◌, length, map, IfOk, IfErr};
ghost use Rattle.arrow_spec.specs.Framing.{body_bytes};
ghost use Rattle.arrow_spec.specs.Layout.{up_to};
ghost use Rattle.arrow_spec.specs.declared.error.IpcError.TheVariants.{Memory};
ghost use Rattle.ipc_dictionaries.specs.Walks.{to_send};
ghost use Rattle.ipc_write.specs.Outcomes.{message_frame};
ghost use Rattle.ipc_messages.specs.Messages.{PlansBatch, PlansChunk, PlansEach, PlansOne, planned_sizes, planned_text};

use crate::planned::PlannedMessage;
use arrow_arrays::RecordBatch;
use arrow_spec::IpcError;
use ipc_dictionaries::ToEncode;
use ipc_write::{BodyPlan, WriteOptions, message_to_bytes, plan_any_batch, plan_any_values};
use std::alloc::Global;

/// A planned body with its front.
fn with_front(alloc: Global, plan: BodyPlan) -> Result<PlannedMessage, IpcError>
    requires { up_to 8 (length plan.ipc_message.items) < 2 ^ 31 }
    ensures text { IfOk result (λ m. planned_text m ≡ message_frame plan.ipc_message.items (body_bytes 0 plan.buffers.items)) }
    ensures sizes { IfOk result (λ m. planned_sizes m ≡ record { front = 8 + up_to 8 (length plan.ipc_message.items); body = plan.body_length }) }
    ensures err { IfErr result (λ e. e ≡ Memory) }
{
    let BodyPlan {
        ipc_message,
        buffers,
        body_length,
    } = plan;
    let front = message_to_bytes(alloc, ipc_message.as_slice(), &[])?;
    Ok(PlannedMessage {
        front,
        buffers,
        body_length,
    })
}

/// The message of values of a dictionary.
fn values_message(
    alloc: Global,
    message: &ToEncode,
    options: &WriteOptions,
) -> Result<PlannedMessage, IpcError>
    ensures { PlansOne result options.now (to_send message.now) }
{
    let id = message.id;
    let is_delta = message.is_delta;
    let plan = plan_any_values(alloc, id, &message.values, is_delta, options)?;
    with_front(alloc, plan)
}

/// The message of a batch.
fn batch_message(
    alloc: Global,
    batch: &RecordBatch,
    options: &WriteOptions,
) -> Result<PlannedMessage, IpcError>
    ensures { PlansBatch result options.now batch.now }
{
    let plan = plan_any_batch(alloc, batch, options)?;
    with_front(alloc, plan)
}

/// The messages of values of dictionaries, in order.
fn values_messages(
    alloc: Global,
    messages: &[ToEncode],
    options: &WriteOptions,
) -> Result<Vec<PlannedMessage>, IpcError>
    ensures { PlansEach result options.now (map to_send messages.now) }
{
    let mut planned = Vec::new(alloc);
    for message in messages {
        planned.push(values_message(alloc, message, options)?)?;
    }
    Ok(planned)
}

/// The messages of values of dictionaries, and of the batch behind them.
///
/// # Errors
///
/// As of `plan_values` and `plan_batch` of `ipc_write`, of the first message that is refused.
pub fn chunk_messages(
    alloc: Global,
    messages: &[ToEncode],
    batch: &RecordBatch,
    options: &WriteOptions,
) -> Result<Vec<PlannedMessage>, IpcError>
    ensures { PlansChunk result options.now (map to_send messages.now) batch.now }
{
    let mut planned = values_messages(alloc, messages, options)?;
    planned.push(batch_message(alloc, batch, options)?)?;
    Ok(planned)
}
