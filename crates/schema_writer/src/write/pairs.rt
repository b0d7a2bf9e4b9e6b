//! The metadata of fields and schemas (Schema.fbs, KeyValue).
ghost use Rattle.std.specs.Prelude.{◌≡◌, ◌++◌, ◌∷◌, [], IfOk, OnOk, map, string_bytes};
ghost use Rattle.std.specs.Option.{option_map};
ghost use Rattle.arrow_spec.specs.Sent.{custom_slot, pair_node, pair_nodes, field_pairs};
ghost use Rattle.ipc_fields.specs.IpcFields.{metadata_in};
ghost use Rattle.arrow_spec.specs.WrittenSchemas.{extension_first};
ghost use Rattle.arrow_spec.specs.Schema.{extension_name};
ghost use Rattle.arrow_spec.specs.Schema as schemas;
ghost use Rattle.arrow_flat.specs.Nodes.{node_of, nodes_of, slot_of};
ghost use Rattle.arrow_types.specs.KindOf.{kind_of, extension_kind_of, texts_of};
ghost use Rattle.schema_writer.specs.Nodes.{last_slot, pair_table, unreserved, extension_pairs, pairs_value};
ghost use Rattle.schema_writer.specs.Texts.{PairsAscend};

use arrow_flat::{Node, Slot};
use arrow_types::{ArrowDataType, ExtensionType, Metadata};
use std::alloc::{AllocError, Global};

fn put_text(alloc: Global, out: &mut Vec<Node>, key: &str, text: &String) -> Result<(), AllocError>
    ensures { OnOk result (map node_of out.new.items ≡ map node_of out.old.items ++ pair_node key.now (string_bytes text.now) ∷ []) }
{
    let key = Slot::Child(Node::Text(String::from_str(alloc, key)?));
    let text = Slot::Child(Node::Text(text.clone()?));
    out.push(Node::Table(vec![in alloc; key, text]?))?;
    Ok(())
}

fn put_extension_metadata(
    alloc: Global,
    out: &mut Vec<Node>,
    metadata: &Option<String>,
) -> Result<(), AllocError>
    ensures { OnOk result (map node_of out.new.items ≡ map node_of out.old.items ++ map pair_table (extension_first (option_map string_bytes metadata.now) [])) }
{
    match metadata {
        None => Ok(()),
        Some(text) => put_text(alloc, out, "ARROW:extension:metadata", text),
    }
}

// An extension's metadata pair, where it has metadata, and then its name pair.
fn put_extension(
    alloc: Global,
    out: &mut Vec<Node>,
    name: &String,
    metadata: &Option<String>,
) -> Result<(), AllocError>
    ensures { OnOk result (map node_of out.new.items ≡ map node_of out.old.items ++ map pair_table (extension_first (option_map string_bytes metadata.now) ((extension_name, string_bytes name.now) ∷ []))) }
{
    put_extension_metadata(alloc, out, metadata)?;
    put_text(alloc, out, "ARROW:extension:name", name)?;
    Ok(())
}

// The pairs of the extension that stands at a field or as its dictionary's values.
fn put_extension_of(alloc: Global, out: &mut Vec<Node>, t: &ArrowDataType) -> Result<(), AllocError>
    ensures { OnOk result (map node_of out.new.items ≡ map node_of out.old.items ++ map pair_table (extension_pairs (kind_of t.now))) }
{
    match t {
        ArrowDataType::Extension(e) => put_extension(alloc, out, &e.name, &e.metadata),
        ArrowDataType::Dictionary(_, values, _) => match &**values {
            ArrowDataType::Extension(e) => put_extension(alloc, out, &e.name, &e.metadata),
            _ => Ok(()),
        },
        _ => Ok(()),
    }
}

fn put_pairs(alloc: Global, out: &mut Vec<Node>, metadata: &Metadata) -> Result<(), AllocError>
    ensures nodes { OnOk result (map node_of out.new.items ≡ map node_of out.old.items ++ map pair_table (texts_of metadata.now.entries)) }
    ensures ascend { OnOk result (PairsAscend (texts_of metadata.now.entries)) }
{
    for (key, text) in metadata.iter() {
        put_text(alloc, out, key.as_str(), text)?;
    }
    Ok(())
}

// Whether a key is one of the two that say a field's extension.
fn is_reserved(key: &str) -> bool
    ensures { result ≡ schemas.is_reserved key.now }
{
    key == "ARROW:extension:name" || key == "ARROW:extension:metadata"
}

fn put_unreserved(
    alloc: Global,
    out: &mut Vec<Node>,
    key: &str,
    text: &String,
) -> Result<(), AllocError>
    ensures { OnOk result (map node_of out.new.items ≡ map node_of out.old.items ++ map pair_table (unreserved ((key.now, string_bytes text.now) ∷ []))) }
{
    if is_reserved(key) {
        return Ok(());
    }
    put_text(alloc, out, key, text)
}

// A field's own pairs: those without reserved keys.
fn put_own_pairs(alloc: Global, out: &mut Vec<Node>, metadata: &Metadata) -> Result<(), AllocError>
    ensures nodes { OnOk result (map node_of out.new.items ≡ map node_of out.old.items ++ map pair_table (schemas.own_pairs (texts_of metadata.now.entries))) }
    ensures ascend { OnOk result (PairsAscend (texts_of metadata.now.entries)) }
{
    for (key, text) in metadata.iter() {
        put_unreserved(alloc, out, key.as_str(), text)?;
    }
    Ok(())
}

fn pairs_slot(nodes: Vec<Node>) -> Slot
    ensures { slot_of result ≡ pairs_value (nodes_of nodes.items) }
{
    if nodes.is_empty() {
        return Slot::Absent;
    }
    Slot::Child(Node::Tables(nodes))
}

/// The pairs of a schema, by key; left out where there are none.
#[tactic(auto, using(crate::proofs::WrittenPairs::nodes_of_pairs))]
pub fn schema_pairs(alloc: Global, metadata: &Metadata) -> Result<Slot, AllocError>
    ensures slot { IfOk result (λ s. slot_of s ≡ pairs_value (pair_nodes (texts_of metadata.now.entries))) }
    ensures ascend { IfOk result (λ _. PairsAscend (texts_of metadata.now.entries)) }
{
    let mut nodes = Vec::new(alloc);
    put_pairs(alloc, &mut nodes, metadata)?;
    Ok(pairs_slot(nodes))
}

/// The pairs of a field: those of its extension, its metadata before its name, and then its own by key without reserved keys (Arrow
/// Columnar Format, "Extension Types"). They are left out where there are none.
#[tactic(auto, using(crate::proofs::WrittenPairs::own_nodes))]
pub fn own_pairs(alloc: Global, t: &ArrowDataType, metadata: &Metadata) -> Result<Slot, AllocError>
    ensures slot { IfOk result (λ s. slot_of s ≡ pairs_value (field_pairs (kind_of t.now) (texts_of metadata.now.entries))) }
    ensures ascend { IfOk result (λ _. PairsAscend (texts_of metadata.now.entries)) }
{
    let mut nodes = Vec::new(alloc);
    put_extension_of(alloc, &mut nodes, t)?;
    put_own_pairs(alloc, &mut nodes, metadata)?;
    Ok(pairs_slot(nodes))
}

/// The pairs of a footer or of a message, by key, where there are any.
pub fn custom_pairs(alloc: Global, metadata: Option<&Metadata>) -> Result<Option<Node>, AllocError>
    ensures slot { IfOk result (λ o. custom_slot (metadata_in metadata.entry) ≡ last_slot (option_map node_of o)) }
    ensures ascend { IfOk result (λ _. PairsAscend (metadata_in metadata.entry)) }
{
    let Some(metadata) = metadata else {
        return Ok(None);
    };
    let mut nodes = Vec::new(alloc);
    put_pairs(alloc, &mut nodes, metadata)?;
    if nodes.is_empty() {
        return Ok(None);
    }
    Ok(Some(Node::Tables(nodes)))
}
