//! Planned arrays, each buffer with its place in a body of their own (Arrow Columnar Format, "RecordBatch message").
ghost use Rattle.ipc_write_arrays.specs.OutputsOf.{outputs_of};
ghost use Rattle.ipc_write.specs.Bodies.{Places};

use arrow_spec::{FieldNode, IpcBuffer, IpcError};
use ipc_bodies::{BodyBuffer, append_places, body_end};
use ipc_write_arrays::Outputs;
use std::alloc::Global;

/// The nodes, the view counts and the buffers of arrays, and where the buffers stand in a body.
#[derive(Drop)]
pub(crate) struct PlannedBody {
    pub(crate) nodes: Vec<FieldNode>,
    pub(crate) places: Vec<IpcBuffer>,
    pub(crate) views: Vec<i64>,
    pub(crate) buffers: Vec<BodyBuffer>,
    pub(crate) length: usize,
}

/// A body of what was planned.
pub(crate) fn planned_body(alloc: Global, planned: Outputs) -> Result<PlannedBody, IpcError>
    ensures { Places result (outputs_of planned) }
{
    let Outputs {
        nodes,
        buffers,
        views,
    } = planned;
    let pieces = buffers.as_slice();
    let Some(length) = body_end(0, pieces) else {
        return Err(IpcError::TooLarge);
    };
    let mut places = Vec::new(alloc);
    append_places(0, pieces, &mut places)?;
    Ok(PlannedBody {
        nodes,
        places,
        views,
        buffers,
        length,
    })
}
