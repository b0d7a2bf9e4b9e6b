//! Arrays to nodes and buffers (Arrow Columnar Format, "Buffer Listing for Each Layout").
ghost use Rattle.std.specs.Prelude.{◌≡◌, ◌++◌, ◌%◌, ◌^◌, ◌<◌, length, map, pos, None, IfOk, IfErr};
ghost use Rattle.arrow_spec.specs.declared.error.IpcError.TheVariants.{Memory};
ghost use Rattle.arrow_spec.specs.Flat.{order_by};
ghost use Rattle.arrow_spec.specs.Framing.{body_bytes};
ghost use Rattle.arrow_spec.specs.Sent.{body_of, placed};
ghost use Rattle.arrow_arrays.specs.Nodes.{counts_in};
ghost use Rattle.arrow_arrays.specs.Parts.{rows_in, fault_in};
ghost use Rattle.arrow_arrays.specs.PartsOf.{parts_of};
ghost use Rattle.ipc_bodies.specs.Adding.{Appends};
ghost use Rattle.ipc_write_arrays.specs.Trims.{sent};
ghost use Rattle.ipc_write_arrays.specs.Pieces.{Fit, IsMeant, nodes_in, pieces_in};
ghost use Rattle.ipc_write_arrays.specs.Outputs.{MayHaveOrder, KeptAll, written_behind};
ghost use Rattle.ipc_write_arrays.specs.OutputsOf.{outputs_of};

use crate::Outputs;
use crate::leaves::{add_leaf, is_leaf};
use crate::trees::add_rows;
use arrow_arrays::Array;
use arrow_spec::{FieldNode, IpcBuffer, IpcError};
use ipc_bodies::{append_body, append_places};
use std::alloc::AllocError;

/// Adds an array: its node, its buffers and its view count, and behind them those of its children, of which only the rows that it
/// holds are sent. Offsets begin at 0, and validity bits past the end are 0. Of a dictionary the keys alone are sent. The buffers
/// share what the array holds.
///
/// # Errors
///
/// Want of memory, which leaves all as it was.
pub fn plan(array: &Array, out: &mut Outputs, is_little_endian: bool) -> Result<(), AllocError>
    requires order { MayHaveOrder (parts_of array.now) is_little_endian }
    requires few { rows_in (parts_of array.now) < 2 ^ 63 }
    ensures ok { IfOk result (λ _. outputs_of out.new ≡ written_behind (order_by is_little_endian) (parts_of array.now) (outputs_of out.old)) }
    ensures err { IfErr result (λ _. outputs_of out.new ≡ outputs_of out.old) }
    ensures fit { IfOk result (λ _. Fit (sent (parts_of array.now))) }
    // What was added means the array's cells, under any ids of dictionaries under which their values were read.
    ensures means { IfOk result (λ _. IsMeant (order_by is_little_endian) (parts_of array.now)) }
{
    let (nodes, buffers, views) = (out.nodes.len(), out.buffers.len(), out.views.len());
    match add(array, out, is_little_endian) {
        Ok(()) => Ok(()),
        Err(error) => {
            out.nodes.truncate(nodes);
            out.buffers.truncate(buffers);
            out.views.truncate(views);
            Err(error)
        }
    }
}

// The same, but where memory runs out something may stay behind what was there.
fn add(array: &Array, out: &mut Outputs, is_little_endian: bool) -> Result<(), AllocError>
    requires { rows_in (parts_of array.now) < 2 ^ 63 }
    ensures ok { IfOk result (λ _. outputs_of out.new ≡ written_behind (order_by is_little_endian) (parts_of array.now) (outputs_of out.old)) }
    ensures err { IfErr result (λ _. KeptAll (outputs_of out.old) (outputs_of out.new)) }
    ensures fit { IfOk result (λ _. Fit (sent (parts_of array.now))) }
    ensures sound { fault_in (parts_of array.now) ≡ None }
{
    let rows = array.len();
    if is_leaf(array) {
        return add_leaf(array, out, is_little_endian);
    }
    add_rows(array, 0, rows, out, is_little_endian)
}

/// Adds an array: its node, its buffers and their bytes, and its view count, and behind them those of its children, of which only the
/// rows that it holds are written. Each buffer begins at a multiple of 64 of the body, with zeros up to the next. Offsets begin at 0,
/// and validity bits past the end are 0. Of a dictionary the keys alone are written.
///
/// # Errors
///
/// `Memory`, which leaves all as it was.
pub fn write(
    array: &Array,
    buffers: &mut Vec<IpcBuffer>,
    arrow_data: &mut Vec<u8>,
    nodes: &mut Vec<FieldNode>,
    variadic: &mut Vec<i64>,
    offset: &mut i64,
    is_little_endian: bool,
) -> Result<(), IpcError>
    requires start { offset.old ≡ pos (length arrow_data.old.items) }
    requires aligned { length arrow_data.old.items % 64 ≡ 0 }
    requires order { MayHaveOrder (parts_of array.now) is_little_endian }
    requires few { rows_in (parts_of array.now) < 2 ^ 63 }
    requires short { body_of (length arrow_data.old.items) (map length (pieces_in (order_by is_little_endian) (parts_of array.now))) < 2 ^ 63 }
    ensures nodes { IfOk result (λ _. nodes.new.items ≡ nodes.old.items ++ nodes_in (parts_of array.now)) }
    ensures buffers { IfOk result (λ _. buffers.new.items ≡ buffers.old.items ++ placed (length arrow_data.old.items) (map length (pieces_in (order_by is_little_endian) (parts_of array.now)))) }
    ensures body { IfOk result (λ _. arrow_data.new.items ≡ arrow_data.old.items ++ body_bytes (length arrow_data.old.items) (pieces_in (order_by is_little_endian) (parts_of array.now))) }
    ensures views { IfOk result (λ _. variadic.new.items ≡ variadic.old.items ++ map pos (counts_in (sent (parts_of array.now)))) }
    ensures offset { IfOk result (λ _. offset.new ≡ pos (length arrow_data.new.items)) }
    ensures err { IfErr result (λ e. e ≡ Memory) }
    ensures err_nodes { IfErr result (λ _. nodes.new.items ≡ nodes.old.items) }
    ensures err_buffers { IfErr result (λ _. buffers.new.items ≡ buffers.old.items) }
    ensures err_body { IfErr result (λ _. arrow_data.new.items ≡ arrow_data.old.items) }
    ensures err_views { IfErr result (λ _. variadic.new.items ≡ variadic.old.items) }
    ensures err_offset { IfErr result (λ _. offset.new ≡ offset.old) }
    ensures fit { IfOk result (λ _. Fit (sent (parts_of array.now))) }
    // What was written means the array's cells, under any ids of dictionaries under which their values were read.
    ensures means { IfOk result (λ _. IsMeant (order_by is_little_endian) (parts_of array.now)) }
{
    let alloc = *arrow_data.allocator();
    let mut out = Outputs::new(alloc);
    plan(array, &mut out, is_little_endian)?;
    let (node_count, buffer_count) = (nodes.len(), buffers.len());
    let (start, view_count) = (arrow_data.len(), variadic.len());
    match append_outputs(&out, buffers, arrow_data, nodes, variadic) {
        Ok(()) => {
            *offset = arrow_data.len() as i64;
            Ok(())
        }
        Err(_) => {
            nodes.truncate(node_count);
            buffers.truncate(buffer_count);
            arrow_data.truncate(start);
            variadic.truncate(view_count);
            Err(IpcError::Memory)
        }
    }
}

/// Puts all behind others, with the bytes of the buffers. What stands behind after a failure is more than was there.
fn append_outputs(
    out: &Outputs,
    buffers: &mut Vec<IpcBuffer>,
    arrow_data: &mut Vec<u8>,
    nodes: &mut Vec<FieldNode>,
    variadic: &mut Vec<i64>,
) -> Result<(), AllocError>
    requires { body_of (length arrow_data.old.items) (map length out.now.buffers.items) < 2 ^ 63 }
    ensures nodes { Appends result nodes.old.items nodes.new.items out.now.nodes.items }
    ensures buffers { Appends result buffers.old.items buffers.new.items (placed (length arrow_data.old.items) (map length out.now.buffers.items)) }
    ensures body { Appends result arrow_data.old.items arrow_data.new.items (body_bytes (length arrow_data.old.items) out.now.buffers.items) }
    ensures views { Appends result variadic.old.items variadic.new.items out.now.views.items }
{
    nodes.extend_from_slice(out.nodes.as_slice())?;
    variadic.extend_from_slice(out.views.as_slice())?;
    append_places(arrow_data.len(), out.buffers.as_slice(), buffers)?;
    append_body(out.buffers.as_slice(), arrow_data)
}
