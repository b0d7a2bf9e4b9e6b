//! Planned arrays to a message (Arrow Columnar Format, "Encapsulated message format").
ghost use Rattle.std.specs.Prelude.{◌^◌, ◌<◌, IfOk};
ghost use Rattle.ipc_write_arrays.specs.OutputsOf.{outputs_of};
ghost use Rattle.ipc_write.specs.Planned.{MakesMessage, OutputsFit, planned_message};

use crate::BodyPlan;
use crate::body::{PlannedBody, planned_body};
use crate::frame::MOST_METADATA;
use crate::metadata::{Content, batch_metadata};
use arrow_spec::IpcError;
use ipc_write_arrays::Outputs;
use std::alloc::Global;

/// The most rows of a message.
pub(crate) const MOST_ROWS: usize = 0x7fff_ffff_ffff_ffff;

/// The message of so many rows of planned arrays, whose padded metadata is within a limit, with the buffers of its body.
pub(crate) fn message_plan(
    alloc: Global,
    content: Content<'_>,
    rows: usize,
    planned: Outputs,
    limit: usize,
) -> Result<BodyPlan, IpcError>
    requires { rows < 2 ^ 63 }
    ensures makes { MakesMessage result limit rows (planned_message content.entry rows (outputs_of planned)) (outputs_of planned).pieces }
    ensures fit { IfOk result (λ _. OutputsFit (outputs_of planned)) }
{
    let body = planned_body(alloc, planned)?;
    let PlannedBody {
        nodes,
        places,
        views,
        buffers,
        length,
    } = body;
    let node_list = nodes.as_slice();
    let place_list = places.as_slice();
    let metadata = batch_metadata(alloc, content, rows, node_list, place_list, views, length)?;
    if metadata.len().next_multiple_of(8) > limit.min(MOST_METADATA) {
        return Err(IpcError::TooLarge);
    }
    Ok(BodyPlan {
        ipc_message: metadata,
        buffers,
        body_length: length,
    })
}
