//! The tables of a record batch, before its body is looked at (Arrow Columnar Format, Message.fbs, RecordBatch).
ghost use Rattle.std.specs.Prelude.{◌≡◌, ◌*◌, ◌^◌, ◌<◌, ℕ, List, Option, [], length, IfOk, IfErr, None, not, true, slice_get};
ghost use Rattle.arrow_spec.specs.Readings.{Refuses, refusals};
ghost use Rattle.arrow_spec.specs.Flat.{Order};
ghost use Rattle.arrow_spec.specs.Kinds.{Fields};
ghost use Rattle.arrow_spec.specs.declared.message.MetadataVersion.{MetadataVersion};
ghost use Rattle.arrow_spec.specs.declared.error.IpcError.TheVariants.{Memory};
ghost use Rattle.arrow_spec.specs.Arrays.{Dictionaries as History};
ghost use Rattle.arrow_spec.specs.Counts.{RecordBatch as Batch};
ghost use Rattle.arrow_spec.specs.Faults.{top_node_faults};
ghost use Rattle.arrow_spec.specs.Features.{float_faults, floats_in, chosen_floats};
ghost use Rattle.arrow_spec.specs.Files.{none_negative, lengths_sum, batch_of_tables, to_read};
ghost use Rattle.arrow_types.specs.KindOf.{kind_of, fields_of};
ghost use Rattle.arrow_types.specs.Physical.{physical_of};
ghost use Rattle.arrow_types.specs.Schemas.{fields_in};
ghost use Rattle.ipc_schema.specs.Views.{header_of};
ghost use Rattle.ipc_read.specs.Batches.{AreQueuesOf, MayBeRead, columns_asked, IsFieldAt, is_column_kind, are_column_fields, are_column_kinds, are_carried_kinds, unread_feature, unread_number};
ghost use Rattle.ipc_read_laws.specs.Projection.{columns_of, are_rising};
ghost use Rattle.ipc_read.specs.Queues.{Left};
ghost use Rattle.ipc_read.specs.Skips.{IsDamage, is_plain_kind};
ghost use Rattle.ipc_read.specs.Sources.{Answers, IsRefusal};

use crate::children::counted_fields;
use crate::dictionaries::dictionary_types;
use crate::integers::{is_negative, magnitude};
use crate::lists::list_child;
use crate::projection::is_chosen;
use crate::unions::union_fields;
use arrow_spec::{Feature, FieldNode, IpcBuffer, IpcError, OutOfSpecKind};
use arrow_types::{ArrowDataType, ArrowSchema, Field, PhysicalType, PrimitiveType};
use ipc_schema::BatchHeader;
use std::alloc::Global;
use std::collections::VecDeque;

fn has_negative(buffers: &[IpcBuffer]) -> bool
    ensures { none_negative buffers.now ≡ not result }
{
    for buffer in buffers {
        if is_negative(buffer.length) {
            return true;
        }
    }
    false
}

/// The lengths of all buffers together.
fn lengths_sum(buffers: &[IpcBuffer]) -> u128
    ensures { result ≡ lengths_sum buffers.now }
{
    let mut sum: u128 = 0;
    for buffer in buffers {
        sum += magnitude(buffer.length) as u128;
    }
    sum
}

/// The rows of a batch, of which the buffers' lengths are together at most `most`.
pub(crate) fn row_count(header: &BatchHeader, most: u64) -> Result<usize, IpcError>
    ensures rows { IfOk result (MayBeRead (header_of header.now) most) }
    ensures err { IfErr result (λ e. (columns : Option (List ℕ)) (limit : Option ℕ) (order : Order) (fs : Fields) (d : History) (version : MetadataVersion) (bytes : List ℕ) → Refuses e (refusals (batch_of_tables to_read (columns_asked columns order fs d most) version [] (header_of header.now) bytes limit))) }
    ensures cause { IfErr result IsRefusal }
    ensures small { IfOk result (λ n. n < 2 ^ 63) }
{
    if header.compressed {
        return Err(IpcError::Unsupported(Feature::Compression));
    }
    if is_negative(header.length) || has_negative(&header.buffers) {
        return Err(IpcError::OutOfSpec(OutOfSpecKind::UnexpectedNegativeInteger));
    }
    let buffers_size = lengths_sum(&header.buffers);
    if buffers_size > most as u128 {
        return Err(IpcError::OutOfSpec(OutOfSpecKind::InvalidBuffersLength {
            buffers_size,
            file_size: most,
        }));
    }
    Ok(magnitude(header.length) as usize)
}

/// A column's node has exactly the batch's rows. A length below 0 is no row count, and is left to the array's reader, which refuses it.
pub(crate) fn check_node(nodes: &VecDeque<FieldNode>, rows: usize) -> Result<(), IpcError>
    ensures exact { (m : Batch) (i : ℕ) → Left m.nodes i nodes.now.items → Answers (λ u. u) result (top_node_faults (slice_get m.nodes i) rows) tt }
    ensures damage { IfErr result IsDamage }
{
    match nodes.front() {
        Some(node) => {
            if !is_negative(node.length) && magnitude(node.length) as usize != rows {
                return Err(IpcError::OutOfSpec(OutOfSpecKind::NodeLength));
            }
            Ok(())
        }
        None => Ok(()),
    }
}

/// What of a type is not read, extensions looked through: floats, and decimals of 256 bits.
pub fn unread_feature(dtype: &ArrowDataType) -> Option<Feature>
    ensures { result ≡ unread_feature (physical_of (kind_of dtype.now)) }
{
    unread(dtype.to_physical_type())
}

/// What of a layout is not read.
fn unread(layout: PhysicalType) -> Option<Feature>
    ensures { result ≡ unread_feature layout }
{
    match layout {
        PhysicalType::Primitive(primitive) => unread_numbers(primitive),
        _ => None,
    }
}

fn unread_numbers(primitive: PrimitiveType) -> Option<Feature>
    ensures { result ≡ unread_number primitive }
{
    match primitive {
        PrimitiveType::Float16 => Some(Feature::Float),
        PrimitiveType::Float32 => Some(Feature::Float),
        PrimitiveType::Float64 => Some(Feature::Float),
        PrimitiveType::Int256 => Some(Feature::Decimal256),
        _ => None,
    }
}

/// Floats and decimals of 256 bits are not read, nor lists, maps, structs, unions and dictionaries of them.
#[cycle(check)]
fn check_kind(dtype: &ArrowDataType) -> Result<(), IpcError>
    requires column { is_column_kind (kind_of dtype.now) ≡ true }
    ensures exact { Answers (λ u. u) result (float_faults (kind_of dtype.now)) tt }
    ensures cause { IfErr result IsRefusal }
{
    match counted_fields(dtype) {
        Some((children, _)) => check_children(children),
        None => match list_child(dtype) {
            Some((child, _)) => check_kind(&child.dtype),
            None => match union_fields(dtype) {
                Some((children, _)) => check_children(children),
                None => match dictionary_types(dtype) {
                    Some((_, values)) => check_kind(values),
                    None => check_plain(dtype),
                },
            },
        },
    }
}

/// The same of each child.
#[cycle(check)]
fn check_children(children: &[Field]) -> Result<(), IpcError>
    requires columns { are_column_fields (fields_of children.now) ≡ true }
    ensures exact { Answers (λ u. u) result (floats_in (fields_of children.now)) tt }
    ensures cause { IfErr result IsRefusal }
{
    for child in children {
        check_kind(&child.dtype)?;
    }
    Ok(())
}

/// The same of a type without children.
fn check_plain(dtype: &ArrowDataType) -> Result<(), IpcError>
    requires plain { is_plain_kind (kind_of dtype.now) ≡ true }
    ensures exact { Answers (λ u. u) result (float_faults (kind_of dtype.now)) tt }
    ensures cause { IfErr result IsRefusal }
{
    match unread(dtype.to_physical_type()) {
        Some(feature) => Err(IpcError::Unsupported(feature)),
        None => Ok(()),
    }
}

/// The field at a place.
pub(crate) fn field_at(schema: &ArrowSchema, i: usize) -> &Field
    requires within { i < length schema.now }
    ensures { IsFieldAt schema.now i result.now }
{
    match schema.get_at_index(i) {
        Some((_, field)) => field,
        None => unreachable!(),
    }
}

/// Refuses columns that are never read, of those whose numbers are asked for, which rise, or of all.
///
/// # Errors
///
/// `Unsupported(Float)` for floats at any depth, `Unsupported(Decimal256)` for decimals of 256 bits.
pub fn check_kinds(schema: &ArrowSchema, projection: Option<&[usize]>) -> Result<(), IpcError>
    requires columns { are_column_kinds (columns_of projection) 0 schema.now ≡ true }
    requires rising { are_rising (columns_of projection) ≡ true }
    ensures exact { Answers (λ u. u) result (chosen_floats (columns_of projection.entry) (fields_in schema.now) 0) tt }
    ensures held { IfOk result (λ _. are_carried_kinds (columns_of projection.entry) 0 schema.now ≡ true) }
    ensures cause { IfErr result IsRefusal }
{
    for i in 0..schema.len() {
        if is_chosen(projection, i) {
            let field = field_at(schema, i);
            check_kind(&field.dtype)?;
        }
    }
    Ok(())
}

/// A queue of the same items.
fn queue_of<T: Copy>(alloc: Global, items: &[T]) -> Result<VecDeque<T>, IpcError>
    ensures items { IfOk result (λ q. q.items ≡ items.now) }
    ensures err { IfErr result (λ e. e ≡ Memory) }
{
    let mut queue = VecDeque::new(alloc);
    for item in items {
        queue.push_back(*item)?;
    }
    Ok(queue)
}

/// The nodes, the buffers and the view counts of a batch.
pub(crate) fn queues_of(
    alloc: Global,
    header: &BatchHeader,
) -> Result<(VecDeque<FieldNode>, VecDeque<IpcBuffer>, VecDeque<i64>), IpcError>
    ensures queues { IfOk result (λ q. AreQueuesOf (header_of header.now) q.0.items q.1.items q.2.items) }
    ensures err { IfErr result (λ e. e ≡ Memory) }
{
    let nodes = queue_of(alloc, header.nodes.as_slice())?;
    let buffers = queue_of(alloc, header.buffers.as_slice())?;
    let variadic = queue_of(alloc, header.variadic.as_slice())?;
    Ok((nodes, buffers, variadic))
}
