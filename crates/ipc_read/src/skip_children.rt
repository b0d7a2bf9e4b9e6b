//! Arrays with children that are passed over, by their kind (Arrow Columnar Format, "RecordBatch message", "Variadic buffers").
ghost use Rattle.std.specs.Prelude.{◌≡◌, true};
ghost use Rattle.arrow_types.specs.KindOf.{kind_of};
ghost use Rattle.arrow_types.specs.Physical.{physical_of};
ghost use Rattle.arrow_types.specs.declared.physical.PhysicalType.TheVariants.{FixedSizeList, Map, Struct, Union};
ghost use Rattle.ipc_read.specs.Readings.{is_of_lists};
ghost use Rattle.ipc_read.specs.Skips.{PassesColumn};

use crate::skips::skip;
use arrow_spec::{FieldNode, IpcBuffer, IpcError, MetadataVersion};
use arrow_types::ArrowDataType;
use std::collections::VecDeque;

/// Passes over an array of lists: a node, a validity, offsets and the items. It goes as deep as the type's tree.
///
/// # Errors
///
/// `ExpectedBuffer` where a node or a buffer is missing; where views stand inside also `MissingVariadicCount` and
/// `UnexpectedNegativeInteger`.
pub fn skip_list(
    nodes: &mut VecDeque<FieldNode>,
    dtype: &ArrowDataType,
    buffers: &mut VecDeque<IpcBuffer>,
    variadic: &mut VecDeque<i64>,
    version: MetadataVersion,
) -> Result<(), IpcError>
    requires kind { is_of_lists (physical_of (kind_of dtype.now)) ≡ true }
    ensures { PassesColumn (kind_of dtype.now) version nodes.old.items nodes.new.items buffers.old.items buffers.new.items variadic.old.items variadic.new.items result }
{
    skip(nodes, dtype, buffers, variadic, version)
}

/// Passes over an array of lists of one size: a node, a validity and the items. It goes as deep as the type's tree.
///
/// # Errors
///
/// `ExpectedBuffer` where a node or a buffer is missing; where views stand inside also `MissingVariadicCount` and
/// `UnexpectedNegativeInteger`.
pub fn skip_fixed_size_list(
    nodes: &mut VecDeque<FieldNode>,
    dtype: &ArrowDataType,
    buffers: &mut VecDeque<IpcBuffer>,
    variadic: &mut VecDeque<i64>,
    version: MetadataVersion,
) -> Result<(), IpcError>
    requires kind { physical_of (kind_of dtype.now) ≡ FixedSizeList }
    ensures { PassesColumn (kind_of dtype.now) version nodes.old.items nodes.new.items buffers.old.items buffers.new.items variadic.old.items variadic.new.items result }
{
    skip(nodes, dtype, buffers, variadic, version)
}

/// Passes over an array of structs: a node, a validity and the columns. It goes as deep as the type's tree.
///
/// # Errors
///
/// `ExpectedBuffer` where a node or a buffer is missing; where views stand inside also `MissingVariadicCount` and
/// `UnexpectedNegativeInteger`.
pub fn skip_struct(
    nodes: &mut VecDeque<FieldNode>,
    dtype: &ArrowDataType,
    buffers: &mut VecDeque<IpcBuffer>,
    variadic: &mut VecDeque<i64>,
    version: MetadataVersion,
) -> Result<(), IpcError>
    requires kind { physical_of (kind_of dtype.now) ≡ Struct }
    ensures { PassesColumn (kind_of dtype.now) version nodes.old.items nodes.new.items buffers.old.items buffers.new.items variadic.old.items variadic.new.items result }
{
    skip(nodes, dtype, buffers, variadic, version)
}

/// Passes over an array of maps: a node, a validity, offsets and the entries. It goes as deep as the type's tree.
///
/// # Errors
///
/// `ExpectedBuffer` where a node or a buffer is missing; where views stand inside also `MissingVariadicCount` and
/// `UnexpectedNegativeInteger`.
pub fn skip_map(
    nodes: &mut VecDeque<FieldNode>,
    dtype: &ArrowDataType,
    buffers: &mut VecDeque<IpcBuffer>,
    variadic: &mut VecDeque<i64>,
    version: MetadataVersion,
) -> Result<(), IpcError>
    requires kind { physical_of (kind_of dtype.now) ≡ Map }
    ensures { PassesColumn (kind_of dtype.now) version nodes.old.items nodes.new.items buffers.old.items buffers.new.items variadic.old.items variadic.new.items result }
{
    skip(nodes, dtype, buffers, variadic, version)
}

/// Passes over an array of unions: a node, before V5 a validity, types, offsets where they are dense, and the children. It goes as deep as the type's tree.
///
/// # Errors
///
/// `ExpectedBuffer` where a node or a buffer is missing; where views stand inside also `MissingVariadicCount` and
/// `UnexpectedNegativeInteger`.
pub fn skip_union(
    nodes: &mut VecDeque<FieldNode>,
    dtype: &ArrowDataType,
    buffers: &mut VecDeque<IpcBuffer>,
    variadic: &mut VecDeque<i64>,
    version: MetadataVersion,
) -> Result<(), IpcError>
    requires kind { physical_of (kind_of dtype.now) ≡ Union }
    ensures { PassesColumn (kind_of dtype.now) version nodes.old.items nodes.new.items buffers.old.items buffers.new.items variadic.old.items variadic.new.items result }
{
    skip(nodes, dtype, buffers, variadic, version)
}
