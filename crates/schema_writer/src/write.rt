//! Schemas as they are written (Arrow Columnar Format, "Schema message").
ghost use Rattle.std.specs.Prelude.{◌≡◌, ◌<◌, ◌≤◌, ◌^◌, [], length, true, Err, IfOk, OnOk, IfErr};
ghost use Rattle.arrow_spec.specs.Flat.{little, order_by};
ghost use Rattle.arrow_spec.specs.Kinds.{numbered};
ghost use Rattle.arrow_spec.specs.Layout.{layout, size};
ghost use Rattle.arrow_spec.specs.Readings.{Gives};
ghost use Rattle.arrow_flat.specs.Nodes.{node_of, IsTable, KeepsSlotLimit};
ghost use Rattle.arrow_types.specs.Schemas.{fields_in};
ghost use Rattle.ipc_fields.specs.IpcFields.{ids_of, fields_with, have_shapes, metadata_in};
ghost use Rattle.schema_writer.specs.Defaults.{are_apart};
ghost use Rattle.schema_writer.specs.Texts.{ReadsBackAs, SchemaSaysTexts};
ghost use Rattle.schema_writer.specs.Serialized.{message_node as schema_message_node};
ghost use Rattle.schema_writer.specs.Serialized.{belong_to, serialized, written, IsOfTable, IsOfMessage};

mod defaults;
mod fields;
mod messages;
mod pairs;
mod sayable;
mod schema;
mod types;
mod uses;

use arrow_flat::{BuildError, Node, finish};
use arrow_spec::IpcError;
use arrow_types::{ArrowSchema, Metadata};
use ipc_fields::{IpcField, IpcSchema};
pub use messages::message_node;
pub use pairs::custom_pairs;
use schema::{is_sayable, schema_node};
use std::alloc::{AllocError, Global};

/// An IPC field for each field of the schema, with ids that count 0, 1, .. over the dictionaries in preorder. A
/// dictionary's IPC field is that of its values with the id (Schema.fbs, DictionaryEncoding).
pub fn default_ipc_fields(alloc: Global, schema: &ArrowSchema) -> Result<Vec<IpcField>, AllocError>
    ensures shape { IfOk result (λ v. have_shapes (fields_in schema.now) (ids_of v.items) ≡ true) }

    // A dictionary whose values are a dictionary cannot be written, and its inner one gets no id of its own.
    ensures ids { are_apart (fields_in schema.now) ≡ true → IfOk result (λ v. fields_with (fields_in schema.now) (ids_of v.items) ≡ numbered (fields_in schema.now) 0) }
{
    Ok(defaults::numbered(alloc, schema)?)
}

// The table of a schema whose IPC fields are its own.
fn own_table(
    alloc: Global,
    schema: &ArrowSchema,
    ipc_fields: &[IpcField],
    is_little_endian: bool,
    metadata: Option<&Metadata>,
) -> Result<Node, IpcError>
    requires { belong_to (ids_of ipc_fields.now) (fields_in schema.now) ≡ true }
    ensures gives { Gives node_of result (serialized (order_by is_little_endian) (fields_in schema.now) (ids_of ipc_fields.now) (metadata_in metadata.entry)) }
    ensures refusals { IfErr result IsOfTable }
    ensures texts { IfOk result (λ _. SchemaSaysTexts (fields_in schema.now) (metadata_in metadata.entry)) }
{
    if !is_sayable(schema, ipc_fields) {
        return Err(IpcError::NotRepresentable);
    }
    Ok(schema_node(alloc, schema, ipc_fields, is_little_endian, metadata)?)
}

fn table(
    alloc: Global,
    schema: &ArrowSchema,
    ipc_fields: &[IpcField],
    is_little_endian: bool,
    metadata: Option<&Metadata>,
) -> Result<Node, IpcError>
    ensures gives { Gives node_of result (serialized (order_by is_little_endian) (fields_in schema.now) (ids_of ipc_fields.now) (metadata_in metadata.entry)) }
    ensures refusals { IfErr result IsOfTable }
    ensures texts { IfOk result (λ _. SchemaSaysTexts (fields_in schema.now) (metadata_in metadata.entry)) }
{
    if !schema::have_shapes(schema, ipc_fields) {
        return Err(IpcError::SchemaMismatch);
    }
    let agree = uses::agree(alloc, schema, ipc_fields)?;
    if !agree {
        return Err(IpcError::SchemaMismatch);
    }
    own_table(alloc, schema, ipc_fields, is_little_endian, metadata)
}

// The flatbuffer of a message around a schema, without a body.
fn message(alloc: Global, header: Node, custom: Option<&Metadata>) -> Result<Vec<u8>, BuildError>
    requires { KeepsSlotLimit (node_of header) }
    ensures bytes { IfOk result (λ v. v.items ≡ layout (schema_message_node (node_of header) (metadata_in custom.entry))) }
    ensures small { OnOk result (size (schema_message_node (node_of header) (metadata_in custom.entry)) < 2 ^ 31) }
    ensures large { result ≡ Err BuildError.TooLarge → 2 ^ 31 ≤ size (schema_message_node (node_of header) (metadata_in custom.entry)) }
{
    let node = message_node(alloc, 1, header, 0, custom)?;
    finish(alloc, &node)
}

fn bytes(
    alloc: Global,
    schema: &ArrowSchema,
    ipc_fields: &[IpcField],
    is_little_endian: bool,
    metadata: Option<&Metadata>,
    custom: Option<&Metadata>,
) -> Result<Vec<u8>, IpcError>
    ensures gives { Gives (λ v. v.items) result (written (order_by is_little_endian) (fields_in schema.now) (ids_of ipc_fields.now) (metadata_in metadata.entry) (metadata_in custom.entry)) }
    ensures refusals { IfErr result IsOfMessage }
    ensures texts { IfOk result (λ _. SchemaSaysTexts (fields_in schema.now) (metadata_in metadata.entry)) }
{
    let header = table(alloc, schema, ipc_fields, is_little_endian, metadata)?;
    match message(alloc, header, custom) {
        Ok(bytes) => Ok(bytes),
        Err(BuildError::TooLarge) => Err(IpcError::TooLarge),
        Err(BuildError::Memory) => Err(IpcError::Memory),
    }
}

/// The little-endian table of a schema, with the ids of its IPC fields and with its metadata (Schema.fbs, Schema).
///
/// # Errors
///
/// `SchemaMismatch` where the IPC fields have not the schema's shape (one for each field, an id exactly at each
/// dictionary) or values of two kinds stand under one id; else `NotRepresentable` where a dictionary stands directly
/// in a dictionary or in an extension, where a size, a precision or a scale passes 2^31 - 1, or where a union's ids
/// are not distinct, from 0 to 127 and one for each child. `Memory` where memory runs out.
pub fn serialize_schema(
    alloc: Global,
    schema: &ArrowSchema,
    ipc_fields: &[IpcField],
    custom_metadata: Option<&Metadata>,
) -> Result<Node, IpcError>
    ensures gives { Gives node_of result (serialized little (fields_in schema.now) (ids_of ipc_fields.now) (metadata_in custom_metadata.entry)) }
    ensures refusals { IfErr result IsOfTable }

    // What `finish` asks.
    ensures root { IfOk result (λ n. IsTable (node_of n)) }
    ensures slot_limit { IfOk result (λ n. KeepsSlotLimit (node_of n)) }
{
    table(alloc, schema, ipc_fields, true, custom_metadata)
}

/// The flatbuffer of a schema's message: version V5, little-endian, no body (Message.fbs, Message).
///
/// # Errors
///
/// Those of [`serialize_schema`], else `TooLarge` where the flatbuffer passes 2^31 - 1 bytes.
#[tactic(auto, using(crate::proofs::RoundTrip::given_back))]
pub fn schema_to_bytes(
    alloc: Global,
    schema: &ArrowSchema,
    ipc_fields: &[IpcField],
    custom_metadata: Option<&Metadata>,
) -> Result<Vec<u8>, IpcError>
    ensures gives { Gives (λ v. v.items) result (written little (fields_in schema.now) (ids_of ipc_fields.now) (metadata_in custom_metadata.entry) []) }
    ensures refusals { IfErr result IsOfMessage }

    // A regular schema is read back.
    ensures read_back { IfOk result (λ v. ReadsBackAs little (fields_with (fields_in schema.now) (ids_of ipc_fields.now)) (metadata_in custom_metadata.entry) v.items) }
{
    bytes(alloc, schema, ipc_fields, true, custom_metadata, None)
}

/// The same in the byte order of the IPC schema, with the schema's metadata and the message's own, which may have 1,048,576
/// pairs.
///
/// # Errors
///
/// As for [`schema_to_bytes`].
pub fn schema_message(
    alloc: Global,
    schema: &ArrowSchema,
    ipc_schema: &IpcSchema,
    custom_schema_metadata: Option<&Metadata>,
    custom_metadata: Option<&Metadata>,
) -> Result<Vec<u8>, IpcError>
    requires few { length (metadata_in custom_metadata) ≤ 1048576 }
    ensures gives { Gives (λ v. v.items) result (written (order_by ipc_schema.now.is_little_endian) (fields_in schema.now) (ids_of ipc_schema.now.fields.items) (metadata_in custom_schema_metadata.entry) (metadata_in custom_metadata.entry)) }
    ensures refusals { IfErr result IsOfMessage }
    ensures read_back { IfOk result (λ v. ReadsBackAs (order_by ipc_schema.now.is_little_endian) (fields_with (fields_in schema.now) (ids_of ipc_schema.now.fields.items)) (metadata_in custom_schema_metadata.entry) v.items) }
{
    let fields = ipc_schema.fields.as_slice();
    bytes(
        alloc,
        schema,
        fields,
        ipc_schema.is_little_endian,
        custom_schema_metadata,
        custom_metadata,
    )
}
