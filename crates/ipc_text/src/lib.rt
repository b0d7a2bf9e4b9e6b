//! The text of a schema, one line a field, as the program prints it.
#![tactic(auto)]

ghost use Rattle.std.specs.Prelude.{◌≡◌, IfOk};
ghost use Rattle.arrow_spec.specs.SchemaText.{schema_text};
ghost use Rattle.ipc_fields.specs.IpcFields.{ids_of, schema_with, metadata_in};

mod lines;
mod names;
mod numbers;
mod pairs;
mod quoted;
mod schema;
mod types;

use crate::names::order_line;
use crate::quoted::push_text;
use crate::schema::{push_schema_fields, push_schema_pairs};
use arrow_types::{ArrowSchema, Metadata};
use ipc_fields::IpcSchema;
use std::alloc::{AllocError, Global};

/// The text of a schema with the ids of its dictionaries: the byte order, the schema's pairs, and a line for each field
/// in preorder, each with its pairs and its children below it.
pub fn schema_text(
    alloc: Global,
    schema: &ArrowSchema,
    ipc_schema: &IpcSchema,
    metadata: Option<&Metadata>,
) -> Result<Vec<u8>, AllocError>
    ensures { IfOk result (λ text. text.items ≡ schema_text (schema_with schema.now (ids_of ipc_schema.now.fields.items) ipc_schema.now.is_little_endian (metadata_in metadata.entry))) }
{
    let mut text = Vec::new(alloc);
    push_text(&mut text, order_line(ipc_schema.is_little_endian))?;
    push_schema_pairs(alloc, &mut text, metadata)?;
    push_schema_fields(alloc, &mut text, schema, ipc_schema.fields.as_slice())?;
    Ok(text)
}
