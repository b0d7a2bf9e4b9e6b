//! Whether what is held of dictionaries is of their values' types (Arrow Columnar Format, "Dictionary Messages").
ghost use Rattle.std.specs.Prelude.{◌≡◌, ◌↔◌, IsTrue, IfSome};
ghost use Rattle.arrow_types.specs.KindOf.{kind_of};
ghost use Rattle.ipc_read_laws.specs.Held.{HasKind, HasKinds, HasFields};
ghost use Rattle.ipc_read.specs.Batches.{schema_fields};
ghost use Rattle.ipc_read.specs.Held.{held_in, column_kind, column_fields, field_kind};

use crate::children::counted_fields;
use crate::dictionaries::{Dictionaries, dictionary_types, id_or_zero};
use crate::lists::list_child;
use crate::tables::field_at;
use crate::unions::union_fields;
use arrow_arrays::are_of_type;
use arrow_types::{ArrowDataType, ArrowSchema, Field};
use ipc_fields::uses::{fields_at, id_at};
use ipc_fields::{IpcField, IpcSchema};

/// Whether the parts under an id, if any are held, are of this type.
fn are_values(values: &ArrowDataType, id: i64, dictionaries: &Dictionaries) -> bool
    ensures { IsTrue result ↔ IfSome (held_in dictionaries.now id) (λ parts. HasKind (kind_of values.now) parts) }
{
    match dictionaries.get(&id) {
        Some(parts) => are_of_type(values, parts.as_slice()),
        None => true,
    }
}

#[cycle(held)]
fn is_held(
    dtype: &ArrowDataType,
    id: Option<i64>,
    fields: &[IpcField],
    dictionaries: &Dictionaries,
) -> bool
    ensures { IsTrue result ↔ HasKinds (held_in dictionaries.now) (column_kind dtype.now id fields.now) }
{
    match counted_fields(dtype) {
        Some((children, _)) => are_held(children, fields, dictionaries),
        None => match list_child(dtype) {
            Some((child, _)) => is_held(
                &child.dtype,
                id_at(fields, 0),
                fields_at(fields, 0),
                dictionaries,
            ),
            None => match union_fields(dtype) {
                Some((children, _)) => are_held(children, fields, dictionaries),
                None => match dictionary_types(dtype) {
                    Some((_, values)) => are_values(values, id_or_zero(id), dictionaries),
                    None => true,
                },
            },
        },
    }
}

#[cycle(held)]
fn are_held(children: &[Field], fields: &[IpcField], dictionaries: &Dictionaries) -> bool
    ensures { IsTrue result ↔ HasFields (held_in dictionaries.now) (column_fields children.now fields.now) }
{
    for i in 0..children.len() {
        if !is_held(
            &children[i].dtype,
            id_at(fields, i),
            fields_at(fields, i),
            dictionaries,
        ) {
            return false;
        }
    }
    true
}

/// Whether the parts that are held under the id of each dictionary of a type are of its values' type. Dictionaries inside
/// others' values are not looked up. The call goes as deep as the type's tree.
pub fn is_held_for(dtype: &ArrowDataType, ipc_field: &IpcField, dictionaries: &Dictionaries) -> bool
    ensures { IsTrue result ↔ HasKinds (held_in dictionaries.now) (field_kind dtype.now ipc_field.now) }
{
    is_held(
        dtype,
        ipc_field.dictionary_id,
        ipc_field.fields.as_slice(),
        dictionaries,
    )
}

/// The same of each field of a schema.
pub fn are_held_for(
    schema: &ArrowSchema,
    ipc_schema: &IpcSchema,
    dictionaries: &Dictionaries,
) -> bool
    ensures { IsTrue result ↔ HasFields (held_in dictionaries.now) (schema_fields schema.now ipc_schema.now.fields.items) }
{
    let fields = ipc_schema.fields.as_slice();
    for i in 0..schema.len() {
        let field = field_at(schema, i);
        if !is_held(
            &field.dtype,
            id_at(fields, i),
            fields_at(fields, i),
            dictionaries,
        ) {
            return false;
        }
    }
    true
}
