//! Arrays that are passed over: what they take of the queues is taken, and nothing is read (Arrow Columnar Format, "RecordBatch message", "Variadic buffers").
ghost use Rattle.std.specs.Prelude.{◌≡◌, ◌+◌, ◌<◌, ◌≤◌, length, drop, true, IfOk, IfErr};
ghost use Rattle.arrow_spec.specs.Counts.{RecordBatch as Batch, Place, count_at, count_among};
ghost use Rattle.arrow_spec.specs.Faults.{count_faults, counts_faults};
ghost use Rattle.arrow_spec.specs.Kinds.{binary_view};
ghost use Rattle.arrow_spec.specs.declared.error.IpcError.TheVariants.{OutOfSpec};
ghost use Rattle.arrow_spec.specs.declared.error.OutOfSpecKind.TheVariants.{ExpectedBuffer};
ghost use Rattle.arrow_spec.specs.Counts.{union_buffers as own_buffers};
ghost use Rattle.arrow_types.specs.KindOf.{kind_of, fields_of};
ghost use Rattle.ipc_read.specs.Queues.{NodesAt, At, AllAt, Shortened};
ghost use Rattle.ipc_read.specs.Skips.{moved, is_childless_kind, IsDamage, PassesParts, PassesChildless, PassesColumn, PassesTop};
ghost use Rattle.ipc_read.specs.Sources.{Answers};

use crate::counts::take_count;
use arrow_spec::{FieldNode, IpcBuffer, IpcError, MetadataVersion, OutOfSpecKind, UnionMode};
use arrow_types::{ArrowDataType, Field, PhysicalType};
use std::collections::VecDeque;
use std::slice::from_ref;

/// Passes over the first ones of a queue.
pub(crate) fn pass<T: Drop>(queue: &mut VecDeque<T>, count: usize) -> Result<(), IpcError>
    ensures enough { IfOk result (λ _. count ≤ length queue.old.items) }
    ensures rest { IfOk result (λ _. queue.new.items ≡ drop count queue.old.items) }
    ensures err { IfErr result (λ e. e ≡ OutOfSpec ExpectedBuffer) }
    ensures short { IfErr result (λ e. length queue.old.items < count) }
    ensures shortened { Shortened queue.old.items count queue.new.items }
{
    if queue.len() < count {
        return Err(IpcError::OutOfSpec(OutOfSpecKind::ExpectedBuffer));
    }
    for _ in 0..count {
        queue.pop_front();
    }
    Ok(())
}

/// Passes over a node and so many buffers.
fn skip_parts(
    nodes: &mut VecDeque<FieldNode>,
    buffers: &mut VecDeque<IpcBuffer>,
    count: usize,
) -> Result<(), IpcError>
    ensures queues { IfOk result (λ _. (m : Batch) (p : Place) → At m p nodes.old.items buffers.old.items → At m (moved 1 count 0 p) nodes.new.items buffers.new.items) }
    ensures exact { (m : Batch) (p : Place) → At m p nodes.old.items buffers.old.items → Answers (λ u. u) result (counts_faults m (moved 1 count 0 p)) tt }
    ensures nodes { Shortened nodes.old.items 1 nodes.new.items }
    ensures buffers { Shortened buffers.old.items count buffers.new.items }
    ensures damage { IfErr result IsDamage }
{
    pass(nodes, 1)?;
    pass(buffers, count)
}

/// Passes over an array of nulls, which has a node and no buffer.
///
/// # Errors
///
/// `ExpectedBuffer` where the node is missing.
pub fn skip_null(nodes: &mut VecDeque<FieldNode>) -> Result<(), IpcError>
    ensures queues { IfOk result (λ _. (m : Batch) (p : Place) → NodesAt m p nodes.old.items → NodesAt m (moved 1 0 0 p) nodes.new.items) }
    ensures exact { (m : Batch) (p : Place) → NodesAt m p nodes.old.items → Answers (λ u. u) result (counts_faults m (moved 1 0 0 p)) tt }
    ensures nodes { Shortened nodes.old.items 1 nodes.new.items }
    ensures damage { IfErr result IsDamage }
{
    pass(nodes, 1)
}

/// Passes over an array of truth values: a node, a validity and values.
///
/// # Errors
///
/// `ExpectedBuffer` where the node or a buffer is missing.
pub fn skip_boolean(
    nodes: &mut VecDeque<FieldNode>,
    buffers: &mut VecDeque<IpcBuffer>,
) -> Result<(), IpcError>
    ensures { PassesParts 2 nodes.old.items nodes.new.items buffers.old.items buffers.new.items result }
{
    skip_parts(nodes, buffers, 2)
}

/// Passes over an array of numbers: a node, a validity and values.
///
/// # Errors
///
/// `ExpectedBuffer` where the node or a buffer is missing.
pub fn skip_primitive(
    nodes: &mut VecDeque<FieldNode>,
    buffers: &mut VecDeque<IpcBuffer>,
) -> Result<(), IpcError>
    ensures { PassesParts 2 nodes.old.items nodes.new.items buffers.old.items buffers.new.items result }
{
    skip_parts(nodes, buffers, 2)
}

/// Passes over an array of a dictionary: a node, a validity and keys.
///
/// # Errors
///
/// `ExpectedBuffer` where the node or a buffer is missing.
pub fn skip_dictionary(
    nodes: &mut VecDeque<FieldNode>,
    buffers: &mut VecDeque<IpcBuffer>,
) -> Result<(), IpcError>
    ensures { PassesParts 2 nodes.old.items nodes.new.items buffers.old.items buffers.new.items result }
{
    skip_parts(nodes, buffers, 2)
}

/// Passes over an array of byte strings between offsets: a node, a validity, offsets and bytes.
///
/// # Errors
///
/// `ExpectedBuffer` where the node or a buffer is missing.
pub fn skip_binary(
    nodes: &mut VecDeque<FieldNode>,
    buffers: &mut VecDeque<IpcBuffer>,
) -> Result<(), IpcError>
    ensures { PassesParts 3 nodes.old.items nodes.new.items buffers.old.items buffers.new.items result }
{
    skip_parts(nodes, buffers, 3)
}

/// Passes over an array of texts between offsets: a node, a validity, offsets and bytes.
///
/// # Errors
///
/// `ExpectedBuffer` where the node or a buffer is missing.
pub fn skip_utf8(
    nodes: &mut VecDeque<FieldNode>,
    buffers: &mut VecDeque<IpcBuffer>,
) -> Result<(), IpcError>
    ensures { PassesParts 3 nodes.old.items nodes.new.items buffers.old.items buffers.new.items result }
{
    skip_parts(nodes, buffers, 3)
}

/// Passes over an array of byte strings of one size: a node, a validity and values.
///
/// # Errors
///
/// `ExpectedBuffer` where the node or a buffer is missing.
pub fn skip_fixed_size_binary(
    nodes: &mut VecDeque<FieldNode>,
    buffers: &mut VecDeque<IpcBuffer>,
) -> Result<(), IpcError>
    ensures { PassesParts 2 nodes.old.items nodes.new.items buffers.old.items buffers.new.items result }
{
    skip_parts(nodes, buffers, 2)
}

/// Passes over an array of views: a node, a validity, the views, a view count and as many data buffers as it says.
///
/// # Errors
///
/// `ExpectedBuffer` where the node or a buffer is missing, `MissingVariadicCount` where the count is,
/// `UnexpectedNegativeInteger` where it is negative.
pub fn skip_binview(
    nodes: &mut VecDeque<FieldNode>,
    buffers: &mut VecDeque<IpcBuffer>,
    variadic: &mut VecDeque<i64>,
) -> Result<(), IpcError>
    ensures queues { IfOk result (λ _. (m : Batch) (p : Place) → AllAt m p nodes.old.items buffers.old.items variadic.old.items → AllAt m (moved 1 (2 + count_at m p.view) 1 p) nodes.new.items buffers.new.items variadic.new.items) }
    ensures exact { (m : Batch) (p : Place) → AllAt m p nodes.old.items buffers.old.items variadic.old.items → Answers (λ u. u) result (count_faults m binary_view p) tt }
    ensures nodes { Shortened nodes.old.items 1 nodes.new.items }
    ensures buffers { Shortened buffers.old.items (2 + count_among variadic.old.items 0) buffers.new.items }
    ensures views { Shortened variadic.old.items 1 variadic.new.items }
    ensures damage { IfErr result IsDamage }
{
    let count = take_count(variadic)?;
    skip_parts(nodes, buffers, 2 + count)
}

/// Passes over an array of a type without children; of a dictionary's it passes over the keys.
fn skip_childless(
    nodes: &mut VecDeque<FieldNode>,
    dtype: &ArrowDataType,
    buffers: &mut VecDeque<IpcBuffer>,
    variadic: &mut VecDeque<i64>,
) -> Result<(), IpcError>
    requires flat { is_childless_kind (kind_of dtype.now) ≡ true }
    ensures { PassesChildless (kind_of dtype.now) nodes.old.items nodes.new.items buffers.old.items buffers.new.items variadic.old.items variadic.new.items result }
{
    match dtype.to_physical_type() {
        PhysicalType::Null => skip_null(nodes),
        PhysicalType::Boolean => skip_boolean(nodes, buffers),
        PhysicalType::Primitive(_) => skip_primitive(nodes, buffers),
        PhysicalType::Dictionary(_) => skip_dictionary(nodes, buffers),
        PhysicalType::Binary | PhysicalType::LargeBinary => skip_binary(nodes, buffers),
        PhysicalType::Utf8 | PhysicalType::LargeUtf8 => skip_utf8(nodes, buffers),
        PhysicalType::FixedSizeBinary => skip_fixed_size_binary(nodes, buffers),
        PhysicalType::BinaryView | PhysicalType::Utf8View => {
            skip_binview(nodes, buffers, variadic)
        }
        _ => unreachable!(),
    }
}

/// How many buffers a union has of its own: before V5 a validity, then types, and offsets where it is dense.
fn union_buffers(version: MetadataVersion, mode: UnionMode) -> usize
    ensures { result ≡ own_buffers version mode }
{
    let parts = match mode {
        UnionMode::Sparse => 1,
        UnionMode::Dense => 2,
    };
    match version {
        MetadataVersion::V5 => parts,
        _ => parts + 1,
    }
}

/// Passes over an array of any type and over its children, as messages of a version have them. It goes as deep as the
/// type's tree.
///
/// # Errors
///
/// `ExpectedBuffer` where a node or a buffer is missing; of views also `MissingVariadicCount` and
/// `UnexpectedNegativeInteger`.
#[cycle(skip)]
pub fn skip(
    nodes: &mut VecDeque<FieldNode>,
    dtype: &ArrowDataType,
    buffers: &mut VecDeque<IpcBuffer>,
    variadic: &mut VecDeque<i64>,
    version: MetadataVersion,
) -> Result<(), IpcError>
    ensures { PassesColumn (kind_of dtype.now) version nodes.old.items nodes.new.items buffers.old.items buffers.new.items variadic.old.items variadic.new.items result }
{
    match dtype {
        ArrowDataType::List(child) => {
            skip_children(nodes, from_ref(child), buffers, 2, variadic, version)
        }
        ArrowDataType::LargeList(child) => {
            skip_children(nodes, from_ref(child), buffers, 2, variadic, version)
        }
        ArrowDataType::Map(child, _) => {
            skip_children(nodes, from_ref(child), buffers, 2, variadic, version)
        }
        ArrowDataType::FixedSizeList(child, _) => {
            skip_children(nodes, from_ref(child), buffers, 1, variadic, version)
        }
        ArrowDataType::Struct(children) => {
            skip_children(nodes, children.as_slice(), buffers, 1, variadic, version)
        }
        ArrowDataType::Union(union) => {
            let own = union_buffers(version, union.mode);
            skip_children(
                nodes,
                union.fields.as_slice(),
                buffers,
                own,
                variadic,
                version,
            )
        }
        ArrowDataType::Extension(extension) => {
            skip(nodes, &extension.inner, buffers, variadic, version)
        }
        _ => skip_childless(nodes, dtype, buffers, variadic),
    }
}

/// Passes over a node, so many buffers, and the children behind them.
#[cycle(skip)]
fn skip_children(
    nodes: &mut VecDeque<FieldNode>,
    children: &[Field],
    buffers: &mut VecDeque<IpcBuffer>,
    own: usize,
    variadic: &mut VecDeque<i64>,
    version: MetadataVersion,
) -> Result<(), IpcError>
    ensures { PassesTop own (fields_of children.now) version nodes.old.items nodes.new.items buffers.old.items buffers.new.items variadic.old.items variadic.new.items result }
{
    skip_parts(nodes, buffers, own)?;
    for child in children {
        skip(nodes, &child.dtype, buffers, variadic, version)?;
    }
    Ok(())
}
