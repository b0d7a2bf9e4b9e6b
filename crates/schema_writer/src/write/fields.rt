//! The tables of fields (Schema.fbs, Field).
ghost use Rattle.std.specs.Prelude.{◌≡◌, true, IfOk, drop, pos};
ghost use Rattle.std.specs.Int.{w64};
ghost use Rattle.arrow_spec.specs.Flat.{or_default};
ghost use Rattle.arrow_spec.specs.Layout.{table, child, no_more};
ghost use Rattle.arrow_spec.specs.Regular.{is_dictionary_id};
ghost use Rattle.arrow_spec.specs.Sent as sent;
ghost use Rattle.arrow_flat.specs.Nodes.{node_of, nodes_of, slot_of, leads_to};
ghost use Rattle.arrow_types.specs.Child.{one_field};
ghost use Rattle.arrow_types.specs.KindOf.{kind_of, child_of, fields_of};
ghost use Rattle.ipc_fields.specs.IpcFields.{ids_of};
ghost use Rattle.schema_writer.specs.Nodes as specs;
ghost use Rattle.schema_writer.specs.Tables.{below_nodes, nodes_with, sizes_fit, kind_sized, sized_below, all_sized};
ghost use Rattle.schema_writer.specs.Texts.{PairsAscend, KindSaysTexts, FieldsSayTexts};
ghost use Rattle.ipc_fields.specs.Uses.{first_ids, first_id};

use super::pairs::own_pairs;
use super::types::{flag, int_node, type_node, type_tag};
use arrow_flat::{Node, Slot};
use arrow_types::{ArrowDataType, Field, IntegerType};
use ipc_fields::IpcField;
use ipc_fields::uses::{fields_at, id_at};
use std::alloc::{AllocError, Global};

fn encoding(
    alloc: Global,
    id: i64,
    index: IntegerType,
    is_ordered: bool,
) -> Result<Slot, AllocError>
    ensures { IfOk result (λ s. slot_of s ≡ leads_to (table (sent.unless_zero w64 id (child (sent.int_node index) (sent.flag is_ordered no_more))))) }
{
    let index = Slot::Child(int_node(alloc, index)?);
    let slots = vec![in alloc; Slot::i64(id, 0), index, flag(is_ordered)]?;
    Ok(Slot::Child(Node::Table(slots)))
}

// The index type, the id and the order of a dictionary (Schema.fbs, DictionaryEncoding).
fn encoding_slot(alloc: Global, t: &ArrowDataType, id: Option<i64>) -> Result<Slot, AllocError>
    ensures { IfOk result (λ s. slot_of s ≡ specs.encoding_value (kind_of t.now) id) }
{
    match t {
        ArrowDataType::Dictionary(index, _, is_ordered) => {
            encoding(alloc, id.unwrap_or(0), *index, *is_ordered)
        }
        _ => Ok(Slot::Absent),
    }
}

fn field_table(
    alloc: Global,
    field: &Field,
    id: Option<i64>,
    children: Vec<Node>,
) -> Result<Node, AllocError>
    requires { sizes_fit (child_of field.now).kind ≡ true }
    ensures node { IfOk result (λ n. node_of n ≡ specs.field_table (child_of field.now) id (nodes_of children.items)) }
    ensures ascend { IfOk result (λ _. PairsAscend (child_of field.now).metadata) }
{
    let name = Slot::Child(Node::Text(field.name.clone()?));
    let nullable = flag(field.is_nullable);
    let tag = Slot::U8(type_tag(&field.dtype));
    let kind = Slot::Child(type_node(alloc, &field.dtype)?);
    let encoding = encoding_slot(alloc, &field.dtype, id)?;
    let children = Slot::Child(Node::Tables(children));
    let pairs = own_pairs(alloc, &field.dtype, &field.metadata)?;
    let slots = vec![in alloc; name, nullable, tag, kind, encoding, children, pairs]?;
    Ok(Node::Table(slots))
}

/// The table of a field with the id of its IPC field, and with those of its children.
#[cycle(nodes)]
pub(crate) fn field_node(
    alloc: Global,
    field: &Field,
    id: Option<i64>,
    below: &[IpcField],
) -> Result<Node, AllocError>
    requires { kind_sized (child_of field.now).kind ≡ true }
    ensures node { IfOk result (λ n. node_of n ≡ specs.field_table (child_of field.now) id (below_nodes (child_of field.now).kind (ids_of below.now))) }
    ensures texts { IfOk result (λ _. FieldsSayTexts (one_field (child_of field.now))) }
{
    let children = child_nodes(alloc, &field.dtype, below)?;
    Ok(field_table(alloc, field, id, children)?)
}

#[cycle(nodes)]
fn only_child(alloc: Global, field: &Field, below: &[IpcField]) -> Result<Vec<Node>, AllocError>
    requires { kind_sized (child_of field.now).kind ≡ true }
    ensures nodes { IfOk result (λ v. nodes_of v.items ≡ nodes_with (one_field (child_of field.now)) (ids_of below.now)) }
    ensures texts { IfOk result (λ _. FieldsSayTexts (one_field (child_of field.now))) }
{
    let node = field_node(alloc, field, id_at(below, 0), fields_at(below, 0))?;
    Ok(vec![in alloc; node]?)
}

#[cycle(nodes)]
#[tactic(auto, using(crate::proofs::Texts::list_texts, crate::proofs::Texts::sized_list_texts, crate::proofs::Texts::map_texts, crate::proofs::Texts::struct_texts, crate::proofs::Texts::union_texts, crate::proofs::Texts::dictionary_texts))]
fn child_nodes(
    alloc: Global,
    t: &ArrowDataType,
    below: &[IpcField],
) -> Result<Vec<Node>, AllocError>
    requires { sized_below (kind_of t.now) ≡ true }
    ensures nodes { IfOk result (λ v. nodes_of v.items ≡ below_nodes (kind_of t.now) (ids_of below.now)) }
    ensures texts { IfOk result (λ _. KindSaysTexts (kind_of t.now)) }
{
    match t {
        ArrowDataType::List(f) => only_child(alloc, f, below),
        ArrowDataType::LargeList(f) => only_child(alloc, f, below),
        ArrowDataType::FixedSizeList(f, _) => only_child(alloc, f, below),
        ArrowDataType::Map(f, _) => only_child(alloc, f, below),
        ArrowDataType::Struct(fields) => field_nodes(alloc, fields.as_slice(), below),
        ArrowDataType::Union(u) => field_nodes(alloc, u.fields.as_slice(), below),
        ArrowDataType::Dictionary(_, values, _) => child_nodes(alloc, values, below),
        ArrowDataType::Extension(e) => child_nodes(alloc, &e.inner, below),
        ArrowDataType::Timestamp(_, _) => Ok(Vec::new(alloc)),
        _ => Ok(Vec::new(alloc)),
    }
}

#[cycle(nodes)]
fn field_nodes(alloc: Global, fields: &[Field], below: &[IpcField]) -> Result<Vec<Node>, AllocError>
    requires { all_sized (fields_of fields.now) ≡ true }
    ensures nodes { IfOk result (λ v. nodes_of v.items ≡ nodes_with (fields_of fields.now) (ids_of below.now)) }
    ensures texts { IfOk result (λ _. FieldsSayTexts (fields_of fields.now)) }
{
    let mut nodes = Vec::with_capacity(alloc, fields.len())?;
    for i in 0..fields.len() {
        nodes.push(field_node(alloc, &fields[i], id_at(below, i), fields_at(below, i))?)?;
    }
    Ok(nodes)
}
