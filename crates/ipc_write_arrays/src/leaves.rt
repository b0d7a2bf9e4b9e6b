//! Arrays without children (Arrow Columnar Format, "Buffer Listing for Each Layout").
ghost use Rattle.std.specs.Prelude.{◌≡◌, ◌^◌, ◌<◌, [], ◌∷◌, map, pos, true, IfOk, IfErr};
ghost use Rattle.arrow_spec.specs.Flat.{order_by};
ghost use Rattle.arrow_arrays.specs.Parts.{rows_in};
ghost use Rattle.arrow_arrays.specs.PartsOf.{parts_of};
ghost use Rattle.arrow_arrays.specs.Nodes.{node_in, counts_in};
ghost use Rattle.ipc_bodies.specs.Adding.{Appends};
ghost use Rattle.ipc_write_arrays.specs.Trims.{has_no_children};
ghost use Rattle.ipc_write_arrays.specs.Pieces.{Fit, tree_pieces};
ghost use Rattle.ipc_write_arrays.specs.Outputs.{laid_behind, KeptAll};
ghost use Rattle.ipc_write_arrays.specs.OutputsOf.{outputs_of};

use crate::Outputs;
use crate::layouts::{add_bits, add_fixed, add_primitive, add_variable, add_views};
use arrow_arrays::Array;
use arrow_spec::FieldNode;
use ipc_bodies::BodyBuffer;
use std::alloc::AllocError;

/// Whether an array has no children.
pub(crate) fn is_leaf(array: &Array) -> bool
    ensures { result ≡ has_no_children (parts_of array.now) }
{
    match array {
        Array::List(_)
        | Array::FixedSizeList(_)
        | Array::Map(_)
        | Array::Struct(_)
        | Array::Union(_)
        | Array::Dictionary(_) => false,
        _ => true,
    }
}

/// Adds an array without children.
pub(crate) fn add_leaf(
    array: &Array,
    out: &mut Outputs,
    is_little_endian: bool,
) -> Result<(), AllocError>
    requires leaf { has_no_children (parts_of array.now) ≡ true }
    requires few { rows_in (parts_of array.now) < 2 ^ 63 }
    ensures ok { IfOk result (λ _. outputs_of out.new ≡ laid_behind (order_by is_little_endian) (parts_of array.now) (outputs_of out.old)) }
    ensures err { IfErr result (λ _. KeptAll (outputs_of out.old) (outputs_of out.new)) }
    ensures fit { IfOk result (λ _. Fit (parts_of array.now)) }
{
    push_own_node(array, &mut out.nodes)?;
    push_view_count(array, &mut out.views)?;
    add_buffers(array, &mut out.buffers, is_little_endian)
}

// The node of an array without children; its nulls are no more than its rows.
fn push_own_node(array: &Array, nodes: &mut Vec<FieldNode>) -> Result<(), AllocError>
    requires { rows_in (parts_of array.now) < 2 ^ 63 }
    ensures { Appends result nodes.old.items nodes.new.items (node_in (parts_of array.now) ∷ []) }
{
    push_node(array.len(), array.null_count(), nodes)
}

/// A node.
pub(crate) fn push_node(
    rows: usize,
    nulls: usize,
    nodes: &mut Vec<FieldNode>,
) -> Result<(), AllocError>
    requires rows { rows < 2 ^ 63 }
    requires nulls { nulls < 2 ^ 63 }
    ensures { Appends result nodes.old.items nodes.new.items (record { length = pos rows; null_count = pos nulls } ∷ []) }
{
    let length = rows as i64;
    let null_count = nulls as i64;
    nodes.push(FieldNode { length, null_count })?;
    Ok(())
}

// A view array's number of data buffers.
fn push_view_count(array: &Array, variadic: &mut Vec<i64>) -> Result<(), AllocError>
    requires { has_no_children (parts_of array.now) ≡ true }
    ensures { Appends result variadic.old.items variadic.new.items (map pos (counts_in (parts_of array.now))) }
{
    match array {
        Array::BinaryView(array) => push_count(array.data_buffers().len(), variadic),
        Array::Utf8View(array) => push_count(array.data_buffers().len(), variadic),
        _ => Ok(()),
    }
}

fn push_count(count: usize, variadic: &mut Vec<i64>) -> Result<(), AllocError>
    requires { count < 2 ^ 63 }
    ensures { Appends result variadic.old.items variadic.new.items (pos count ∷ []) }
{
    variadic.push(count as i64)?;
    Ok(())
}

fn add_buffers(
    array: &Array,
    buffers: &mut Vec<BodyBuffer>,
    is_little_endian: bool,
) -> Result<(), AllocError>
    requires leaf { has_no_children (parts_of array.now) ≡ true }
    ensures bytes { Appends result buffers.old.items buffers.new.items (tree_pieces (order_by is_little_endian) (parts_of array.now)) }
    ensures fit { IfOk result (λ _. Fit (parts_of array.now)) }
{
    match array {
        Array::Null(_) => Ok(()),
        Array::Boolean(array) => add_bits(array, buffers),
        Array::Int8(array) => add_primitive(array, buffers, is_little_endian),
        Array::Int16(array) => add_primitive(array, buffers, is_little_endian),
        Array::Int32(array) => add_primitive(array, buffers, is_little_endian),
        Array::Int64(array) => add_primitive(array, buffers, is_little_endian),
        Array::Int128(array) => add_primitive(array, buffers, is_little_endian),
        Array::UInt8(array) => add_primitive(array, buffers, is_little_endian),
        Array::UInt16(array) => add_primitive(array, buffers, is_little_endian),
        Array::UInt32(array) => add_primitive(array, buffers, is_little_endian),
        Array::UInt64(array) => add_primitive(array, buffers, is_little_endian),
        Array::DaysMs(array) => add_primitive(array, buffers, is_little_endian),
        Array::MonthsDaysNs(array) => add_primitive(array, buffers, is_little_endian),
        Array::Binary(array) => add_variable(array, buffers, is_little_endian),
        Array::LargeBinary(array) => add_variable(array, buffers, is_little_endian),
        Array::Utf8(array) => add_variable(array, buffers, is_little_endian),
        Array::LargeUtf8(array) => add_variable(array, buffers, is_little_endian),
        Array::BinaryView(array) => add_views(array, buffers),
        Array::Utf8View(array) => add_views(array, buffers),
        Array::FixedSizeBinary(array) => add_fixed(array, buffers),
        Array::List(_)
        | Array::FixedSizeList(_)
        | Array::Map(_)
        | Array::Struct(_)
        | Array::Union(_)
        | Array::Dictionary(_) => unreachable!(),
    }
}
