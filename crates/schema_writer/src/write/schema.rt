//! The table of a schema (Schema.fbs, Schema).
ghost use Rattle.std.specs.Prelude.{◌≡◌, ◌<◌, true, Some, IfOk, length, map, slice_get};
ghost use Rattle.arrow_spec.specs.Regular.{representable};
ghost use Rattle.arrow_spec.specs.Sent as sent;
ghost use Rattle.arrow_flat.specs.Nodes.{node_of, nodes_of, slot_of};
ghost use Rattle.arrow_types.specs.KindOf.{child_of};
ghost use Rattle.arrow_types.specs.Schemas.{fields_in};
ghost use Rattle.ipc_fields.specs.IpcFields as specs;
ghost use Rattle.ipc_fields.specs.IpcFields.{ids_of, fields_with, metadata_in};
ghost use Rattle.schema_writer.specs.Tables.{nodes_with, all_sized};
ghost use Rattle.schema_writer.specs.Nodes.{pairs_value};
ghost use Rattle.arrow_spec.specs.Flat.{order_by};
ghost use Rattle.schema_writer.specs.SlotValues.{order_value};
ghost use Rattle.schema_writer.specs.Texts.{PairsAscend, FieldsSayTexts, SchemaSaysTexts};

use super::fields::field_node;
use super::pairs::schema_pairs;
use super::sayable::field_fits;
use arrow_flat::{Node, Slot};
use arrow_types::{ArrowSchema, Field, Metadata};
use ipc_fields::IpcField;
use ipc_fields::shapes::field_has_shape;
use ipc_fields::uses::{fields_at, id_at};
use std::alloc::{AllocError, Global};

/// The field at a place.
pub(crate) fn field_at(schema: &ArrowSchema, index: usize) -> &Field
    requires { index < length schema.now }
    ensures { slice_get (map (λ p. p.1) schema.now) index ≡ Some (child_of result.now) }
{
    match schema.get_at_index(index) {
        Some((_, field)) => field,
        None => unreachable!(),
    }
}

/// Whether there is an IPC field for each field, and an id exactly at each dictionary.
pub fn have_shapes(schema: &ArrowSchema, ipc_fields: &[IpcField]) -> bool
    ensures { result ≡ specs.have_shapes (fields_in schema.now) (ids_of ipc_fields.now) }
{
    if schema.len() != ipc_fields.len() {
        return false;
    }
    for i in 0..schema.len() {
        let field = field_at(schema, i);
        if !field_has_shape(field, id_at(ipc_fields, i), fields_at(ipc_fields, i)) {
            return false;
        }
    }
    true
}

/// Whether the tables of a schema can say the fields with the ids of their IPC fields.
pub fn is_sayable(schema: &ArrowSchema, ipc_fields: &[IpcField]) -> bool
    ensures { result ≡ representable (fields_with (fields_in schema.now) (ids_of ipc_fields.now)) }
{
    for i in 0..schema.len() {
        let field = field_at(schema, i);
        if !field_fits(field, id_at(ipc_fields, i), fields_at(ipc_fields, i)) {
            return false;
        }
    }
    true
}

fn field_nodes(
    alloc: Global,
    schema: &ArrowSchema,
    ipc_fields: &[IpcField],
) -> Result<Vec<Node>, AllocError>
    requires { all_sized (fields_in schema.now) ≡ true }
    ensures nodes { IfOk result (λ v. nodes_of v.items ≡ nodes_with (fields_in schema.now) (ids_of ipc_fields.now)) }
    ensures texts { IfOk result (λ _. FieldsSayTexts (fields_in schema.now)) }
{
    let mut nodes = Vec::with_capacity(alloc, schema.len())?;
    for i in 0..schema.len() {
        let id = id_at(ipc_fields, i);
        let below = fields_at(ipc_fields, i);
        nodes.push(field_node(alloc, field_at(schema, i), id, below)?)?;
    }
    Ok(nodes)
}

fn order_slot(is_little_endian: bool) -> Slot
    ensures { slot_of result ≡ order_value (order_by is_little_endian) }
{
    if is_little_endian {
        Slot::Absent
    } else {
        Slot::I16(1)
    }
}

#[tactic(auto, using(crate::proofs::Texts::no_pairs_ascend))]
fn metadata_slot(alloc: Global, metadata: Option<&Metadata>) -> Result<Slot, AllocError>
    ensures slot { IfOk result (λ s. slot_of s ≡ pairs_value (sent.pair_nodes (metadata_in metadata.entry))) }
    ensures ascend { IfOk result (λ _. PairsAscend (metadata_in metadata.entry)) }
{
    match metadata {
        None => Ok(Slot::Absent),
        Some(metadata) => schema_pairs(alloc, metadata),
    }
}

/// The table of a schema in a byte order, with its metadata.
#[tactic(auto, using(crate::proofs::Tops::schema_built))]
pub fn schema_node(
    alloc: Global,
    schema: &ArrowSchema,
    ipc_fields: &[IpcField],
    is_little_endian: bool,
    metadata: Option<&Metadata>,
) -> Result<Node, AllocError>
    requires { representable (fields_with (fields_in schema.now) (ids_of ipc_fields.now)) ≡ true }
    ensures node { IfOk result (λ n. node_of n ≡ sent.schema_node (order_by is_little_endian) (fields_with (fields_in schema.now) (ids_of ipc_fields.now)) (metadata_in metadata.entry)) }
    ensures texts { IfOk result (λ _. SchemaSaysTexts (fields_in schema.now) (metadata_in metadata.entry)) }
{
    let fields = Slot::Child(Node::Tables(field_nodes(alloc, schema, ipc_fields)?));
    let pairs = metadata_slot(alloc, metadata)?;
    Ok(Node::Table(vec![in alloc; order_slot(is_little_endian), fields, pairs]?))
}
