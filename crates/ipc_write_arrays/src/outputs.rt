//! What arrays are added to (Arrow Columnar Format, "RecordBatch message").
ghost use Rattle.std.specs.Prelude.{◌≡◌, []};
ghost use Rattle.ipc_write_arrays.specs.Outputs.{outputs};
ghost use Rattle.ipc_write_arrays.specs.OutputsOf.{outputs_of};

use arrow_spec::FieldNode;
use ipc_bodies::BodyBuffer;
use std::alloc::Global;

/// The nodes, the buffers and the view counts of arrays, one array behind another.
#[derive(Drop)]
pub struct Outputs {
    /// A node for each array, in preorder.
    pub nodes: Vec<FieldNode>,
    /// The buffers, in preorder.
    pub buffers: Vec<BodyBuffer>,
    /// For each array of views, in preorder, how many data buffers it has.
    pub views: Vec<i64>,
}

impl Outputs {
    /// Those of no array.
    pub fn new(alloc: Global) -> Outputs
        ensures { outputs_of result ≡ outputs [] [] [] }
    {
        Outputs {
            nodes: Vec::new(alloc),
            buffers: Vec::new(alloc),
            views: Vec::new(alloc),
        }
    }
}
