//! The ids that count from 0.
ghost use Rattle.std.specs.Prelude.{◌≡◌, ◌+◌, ◌<◌, ◌^◌, Some, None, IfOk, OnOk, length, map, slice_get, pos};
ghost use Rattle.arrow_types.specs.Child.{one_field};
ghost use Rattle.arrow_types.specs.KindOf.{kind_of, child_of, fields_of};
ghost use Rattle.arrow_types.specs.Schemas.{fields_in};
ghost use Rattle.ipc_fields.specs.IpcFields.{ids_of, tree_of};
ghost use Rattle.schema_writer.specs.Defaults.{IsDefault, AreDefault, IsNumbered};

use super::schema::field_at;
use arrow_types::{ArrowDataType, ArrowSchema, Field};
use ipc_fields::IpcField;
use std::alloc::{AllocError, Global};

/// The largest id (Schema.fbs, DictionaryEncoding).
const LAST_ID: u64 = 0x7fff_ffff_ffff_ffff;

// The next id. No memory holds dictionaries for all of them.
fn take_id(next: &mut u64) -> Result<u64, AllocError>
    ensures id { IfOk result (λ id. id ≡ next.old) }
    ensures fits { IfOk result (λ id. id < 2 ^ 63) }
    ensures next { OnOk result (next.new ≡ next.old + 1) }
{
    let id = *next;
    if id > LAST_ID {
        return Err(AllocError);
    }
    *next = id + 1;
    Ok(id)
}

fn parent(fields: Vec<IpcField>) -> IpcField
    ensures { tree_of result ≡ record { id = None; children = ids_of fields.items } }
{
    IpcField {
        fields,
        dictionary_id: None,
    }
}

// The IPC field of a dictionary, of that of its values.
fn encoded(id: u64, values: IpcField) -> IpcField
    requires { id < 2 ^ 63 }
    ensures { tree_of result ≡ record { id = Some (pos id); children = (tree_of values).children } }
{
    IpcField {
        fields: values.fields,
        dictionary_id: Some(id as i64),
    }
}

#[cycle(defaults)]
fn default_of(alloc: Global, t: &ArrowDataType, next: &mut u64) -> Result<IpcField, AllocError>
    ensures { IfOk result (λ f. IsDefault (kind_of t.now) next.old next.new (tree_of f).id (tree_of f).children) }
{
    match t {
        ArrowDataType::List(f) => Ok(parent(only_default(alloc, f, next)?)),
        ArrowDataType::LargeList(f) => Ok(parent(only_default(alloc, f, next)?)),
        ArrowDataType::FixedSizeList(f, _) => Ok(parent(only_default(alloc, f, next)?)),
        ArrowDataType::Map(f, _) => Ok(parent(only_default(alloc, f, next)?)),
        ArrowDataType::Struct(fields) => {
            Ok(parent(defaults_of(alloc, fields.as_slice(), next)?))
        }
        ArrowDataType::Union(u) => Ok(parent(defaults_of(alloc, u.fields.as_slice(), next)?)),
        ArrowDataType::Dictionary(_, values, _) => {
            let id = take_id(next)?;
            Ok(encoded(id, default_of(alloc, values, next)?))
        }
        ArrowDataType::Extension(e) => default_of(alloc, &e.inner, next),
        _ => Ok(IpcField::new(alloc)),
    }
}

#[cycle(defaults)]
fn default_field(alloc: Global, field: &Field, next: &mut u64) -> Result<IpcField, AllocError>
    ensures { IfOk result (λ f. IsDefault (child_of field.now).kind next.old next.new (tree_of f).id (tree_of f).children) }
{
    default_of(alloc, &field.dtype, next)
}

#[cycle(defaults)]
fn only_default(alloc: Global, field: &Field, next: &mut u64) -> Result<Vec<IpcField>, AllocError>
    ensures { IfOk result (λ v. AreDefault (one_field (child_of field.now)) next.old next.new (ids_of v.items)) }
{
    let only = default_field(alloc, field, next)?;
    Ok(vec![in alloc; only]?)
}

#[cycle(defaults)]
fn defaults_of(alloc: Global, fields: &[Field], next: &mut u64) -> Result<Vec<IpcField>, AllocError>
    ensures { IfOk result (λ v. AreDefault (fields_of fields.now) next.old next.new (ids_of v.items)) }
{
    let mut ipc_fields = Vec::with_capacity(alloc, fields.len())?;
    for field in fields {
        ipc_fields.push(default_field(alloc, field, next)?)?;
    }
    Ok(ipc_fields)
}

fn schema_defaults(
    alloc: Global,
    schema: &ArrowSchema,
    next: &mut u64,
) -> Result<Vec<IpcField>, AllocError>
    ensures { IfOk result (λ v. AreDefault (fields_in schema.now) next.old next.new (ids_of v.items)) }
{
    let mut ipc_fields = Vec::with_capacity(alloc, schema.len())?;
    for i in 0..schema.len() {
        ipc_fields.push(default_field(alloc, field_at(schema, i), next)?)?;
    }
    Ok(ipc_fields)
}

/// An IPC field for each field of the schema, with ids from 0 on.
pub fn numbered(alloc: Global, schema: &ArrowSchema) -> Result<Vec<IpcField>, AllocError>
    ensures { IfOk result (λ v. IsNumbered (fields_in schema.now) (ids_of v.items)) }
{
    let mut next = 0;
    Ok(schema_defaults(alloc, schema, &mut next)?)
}
