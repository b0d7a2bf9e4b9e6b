//! The schemas of messages and footers (Schema.fbs, Schema).
ghost use Rattle.std.specs.Prelude.{◌≡◌, ◌≤◌, ◌∷◌, [], map, is_some, IfOk, OnErr, Err, true, string_bytes};
ghost use Rattle.arrow_spec.specs.declared.error.IpcError.TheVariants.{Memory};
ghost use Rattle.ipc_fields.specs.Causes.{Decodes};
ghost use Rattle.arrow_spec.specs.Schema.{schema_of};
ghost use Rattle.arrow_types.specs.KindOf.{child_of, fields_of};
ghost use Rattle.arrow_types.specs.Schemas.{with_field, field_under, fields_in};
ghost use Rattle.ipc_fields.specs.IpcFields.{ids_of, fields_with, have_shapes, schema_view, AreNamed};
ghost use Rattle.schema_reader.specs.Keyed.{put_keyed, keyed_distinct, checked, schema_by, keyed_in};
ghost use Rattle.schema_reader.specs.Parts.{order_part, fields_part};
ghost use Rattle.schema_reader.specs.ReadViews.{children_in};
ghost use Rattle.schema_reader.specs.Messages.{schema_in};
ghost use Rattle.schema_reader.specs.Metadata.{HasPairsIfAny};

use crate::field::{Children, read_fields};
use crate::head::Counted;
use crate::message::{Expected, read_message, read_version};
use crate::pairs::{if_any, read_metadata};
use arrow_flat::{ChoiceWidth, Table};
use arrow_spec::{Feature, IpcError, OutOfSpecKind};
use arrow_types::{ArrowSchema, Field, Metadata};
use ipc_fields::agree::check_uses;
use ipc_fields::uses::push_children;
use ipc_fields::{IpcField, IpcSchema};
use std::alloc::Global;

/// The fields of a schema under their names, and their IPC fields.
#[derive(Drop)]
pub(crate) struct KeyedFields {
    pub schema: ArrowSchema,
    pub ipc_fields: Vec<IpcField>,
}

/// Whether the schema is little-endian.
#[tactic(auto, unfolding(arrow_spec::specs::Readings::bind, crate::specs::Parts::order_part))]
fn read_order(table: &Table<'_>) -> Result<bool, IpcError>
    ensures gives { Decodes (λ x. x) result (order_part table.now.bytes table.now.table) }
{
    let order = table.slot_choice(0, ChoiceWidth::Two, 0, 2).map_err(|e| IpcError::OutOfSpec(
        OutOfSpecKind::InvalidFlatbufferSchema(e),
    ))?;
    Ok(order == 0)
}

/// The fields of a schema, where so many pairs stand before them.
#[tactic(auto, unfolding(arrow_spec::specs::Readings::bind, crate::specs::Parts::fields_part))]
fn read_all(alloc: Global, table: &Table<'_>, pairs: usize) -> Result<Children, IpcError>
    requires { pairs ≤ 1048576 }
    ensures gives { Decodes children_in result (fields_part table.now.bytes table.now.table pairs) }
    ensures shapes { IfOk result (λ c. have_shapes (fields_of c.fields.items) (ids_of c.ipc_fields.items) ≡ true) }
{
    let fields = table.slot_vector(1, 4).map_err(|e| IpcError::OutOfSpec(
        OutOfSpecKind::InvalidFlatbufferSchema(e),
    ))?;
    let Some(fields) = fields else {
        return Err(IpcError::OutOfSpec(OutOfSpecKind::MissingFields));
    };
    read_fields(alloc, 64, &fields, Counted { fields: 0, pairs })
}

fn insert(schema: &mut ArrowSchema, key: String, field: Field) -> Result<(), IpcError>
    ensures put { IfOk result (λ _. schema.new ≡ with_field (string_bytes key) (child_of field) schema.old) }
    ensures err { OnErr result (result ≡ Err Memory) }
{
    drop(schema.insert(key, field)?);
    Ok(())
}

/// Whether a field has the name of this one.
fn has_name(schema: &ArrowSchema, field: &Field) -> bool
    ensures { result ≡ is_some (field_under (child_of field.now).name schema.now) }
{
    schema.contains(&field.name)
}

/// A copy of a field's name.
fn name_of(field: &Field) -> Result<String, IpcError>
    ensures ok { IfOk result (λ n. string_bytes n ≡ (child_of field.now).name) }
    ensures err { OnErr result (result ≡ Err Memory) }
{
    Ok(field.name.clone()?)
}

/// Puts a field at the end, where no field has its name.
#[tactic(auto, using(crate::proofs::Keys::put_there, crate::proofs::Keys::put_there_new))]
fn put_field(schema: &mut ArrowSchema, field: Field) -> Result<(), IpcError>
    ensures gives { Decodes (λ u. schema.new) result (put_keyed (child_of field) schema.old) }
{
    if has_name(schema, &field) {
        return Err(IpcError::Unsupported(Feature::DuplicateField));
    }
    let key = name_of(&field)?;
    insert(schema, key, field)
}

/// The fields under their names.
#[tactic(auto, using(crate::proofs::Keys::keyed_begun, crate::proofs::Keys::keyed_more, crate::proofs::Keys::keyed_refused))]
fn put_fields(alloc: Global, fields: Vec<Field>) -> Result<ArrowSchema, IpcError>
    ensures gives { Decodes (λ s. s) result (keyed_distinct (map child_of fields.items)) }
{
    let mut schema = ArrowSchema::new(alloc);
    for field in fields {
        put_field(&mut schema, field)?;
    }
    Ok(schema)
}

/// The fields under their names, which have to differ, with one kind of values for each dictionary.
fn check_fields(alloc: Global, children: Children) -> Result<KeyedFields, IpcError>
    requires { have_shapes (fields_of children.fields.items) (ids_of children.ipc_fields.items) ≡ true }
    ensures gives { Decodes keyed_in result (checked (fields_with (fields_of children.fields.items) (ids_of children.ipc_fields.items))) }
    ensures named { IfOk result (λ k. AreNamed k.schema) }
    ensures shapes { IfOk result (λ k. have_shapes (fields_in k.schema) (ids_of k.ipc_fields.items) ≡ true) }
{
    let mut uses = Vec::new(alloc);
    push_children(alloc, &mut uses, &children.fields, &children.ipc_fields)?;
    let schema = put_fields(alloc, children.fields)?;
    check_uses(alloc, uses)?;
    Ok(KeyedFields {
        schema,
        ipc_fields: children.ipc_fields,
    })
}

#[tactic(auto, unfolding(arrow_spec::specs::Readings::bind, crate::specs::Keyed::schema_by))]
fn read_by_parts(
    alloc: Global,
    table: &Table<'_>,
) -> Result<(ArrowSchema, IpcSchema, Option<Metadata>), IpcError>
    ensures gives { Decodes schema_view result (schema_by table.now.bytes table.now.table) }
    ensures named { IfOk result (λ s. AreNamed s.0) }
    ensures no_empty_metadata { IfOk result (λ s. HasPairsIfAny s.2) }
    ensures shapes { IfOk result (λ s. have_shapes (fields_in s.0) (ids_of s.1.fields.items) ≡ true) }
{
    let is_little_endian = read_order(table)?;
    let pairs = read_metadata(alloc, table, 2, 0)?;
    let children = read_all(alloc, table, pairs.counted)?;
    let keyed = check_fields(alloc, children)?;
    let ipc_schema = IpcSchema {
        fields: keyed.ipc_fields,
        is_little_endian,
    };
    Ok((keyed.schema, ipc_schema, if_any(pairs.metadata)))
}

/// The schema of a schema's table: its fields, each under its own name, their IPC fields, and the schema's metadata,
/// none where it is empty (Schema.fbs, Schema).
///
/// # Errors
///
/// `OutOfSpec` with the kind of the first part that is not as the format says, `Unsupported` with the first feature that
/// is not read, `TooDeep` where a field stands at level 65, `TooMany` fields or pairs, and `Memory`.
#[tactic(auto, using(crate::proofs::Schemas::schema_given))]
pub fn read_schema(
    alloc: Global,
    table: &Table<'_>,
) -> Result<(ArrowSchema, IpcSchema, Option<Metadata>), IpcError>
    ensures gives { Decodes schema_view result (schema_of table.now.bytes table.now.table) }

    // Each field stands under its own name.
    ensures named { IfOk result (λ s. AreNamed s.0) }

    // There is one IPC field for each field, with an id exactly at each dictionary.
    ensures shapes { IfOk result (λ s. have_shapes (fields_in s.0) (ids_of s.1.fields.items) ≡ true) }

    // No metadata is none, never an empty map.
    ensures no_empty_metadata { IfOk result (λ s. HasPairsIfAny s.2) }
{
    read_by_parts(alloc, table)
}

/// The schema of a schema message's metadata (Message.fbs, Message; Schema.fbs, Schema).
///
/// # Errors
///
/// As those of [`read_schema`], and `OutOfSpec` where the message is damaged or of another kind.
#[tactic(auto, unfolding(arrow_spec::specs::Readings::bind, arrow_spec::specs::Streams::schema_message_of, arrow_spec::specs::Messages::version_of, crate::specs::Messages::schema_in))]
pub fn deserialize_schema(
    alloc: Global,
    message: &[u8],
) -> Result<(ArrowSchema, IpcSchema, Option<Metadata>), IpcError>
    ensures gives { Decodes schema_view result (schema_in message.now) }
    ensures named { IfOk result (λ s. AreNamed s.0) }
    ensures shapes { IfOk result (λ s. have_shapes (fields_in s.0) (ids_of s.1.fields.items) ≡ true) }
    ensures no_empty_metadata { IfOk result (λ s. HasPairsIfAny s.2) }
{
    let found = read_message(message, Expected::Schema)?;
    read_version(&found.table)?;
    read_schema(alloc, &found.header)
}
