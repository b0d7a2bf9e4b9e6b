//! The lines of fields, each with its pairs and its children below it.
ghost use Rattle.std.specs.Prelude.{◌≡◌, ◌++◌, drop, map, OnOk};
ghost use Rattle.arrow_spec.specs.SchemaText.{child_lines, field_lines};
ghost use Rattle.arrow_types.specs.Child.{fields_from};
ghost use Rattle.arrow_types.specs.KindOf.{kind_of, child_of};
ghost use Rattle.ipc_fields.specs.IpcFields.{ids_of, kind_with, fields_with};
ghost use Rattle.ipc_text.specs.Lines.{own_line, field_text};

use crate::names::nullable_text;
use crate::pairs::{push_indent, push_pairs};
use crate::quoted::{push_quoted, push_text};
use crate::types::push_type;
use arrow_types::{ArrowDataType, Field};
use ipc_fields::IpcField;
use ipc_fields::uses::{fields_at, id_at};
use std::alloc::{AllocError, Global};

// A field's own line, with the id of its dictionary.
fn push_field_line(
    alloc: Global,
    out: &mut Vec<u8>,
    level: usize,
    field: &Field,
    id: Option<i64>,
) -> Result<(), AllocError>
    ensures { OnOk result (out.new.items ≡ out.old.items ++ own_line level (child_of field.now) id) }
{
    push_indent(out, level)?;
    push_quoted(alloc, out, field.name.as_str())?;
    push_text(out, " ")?;
    push_type(alloc, out, &field.dtype, id)?;
    push_text(out, nullable_text(field.is_nullable))?;
    push_text(out, "\n")
}

/// A field's line, its pairs and its children, with the ids of the IPC field at a place.
#[cycle(lines)]
pub(crate) fn push_field(
    alloc: Global,
    out: &mut Vec<u8>,
    level: usize,
    field: &Field,
    ipc_fields: &[IpcField],
    i: usize,
) -> Result<(), AllocError>
    ensures { OnOk result (out.new.items ≡ out.old.items ++ field_text level (child_of field.now) (ids_of (drop i ipc_fields.now))) }
{
    let Some(deeper) = level.checked_add(1) else {
        return Err(AllocError);
    };
    let id = id_at(ipc_fields, i);
    let below = fields_at(ipc_fields, i);
    push_field_line(alloc, out, level, field, id)?;
    push_pairs(alloc, out, deeper, &field.metadata)?;
    push_children(alloc, out, deeper, &field.dtype, id, below)
}

// The lines of a type's children; a dictionary and an extension add no level.
#[cycle(lines)]
fn push_children(
    alloc: Global,
    out: &mut Vec<u8>,
    level: usize,
    dtype: &ArrowDataType,
    id: Option<i64>,
    ipc_fields: &[IpcField],
) -> Result<(), AllocError>
    ensures { OnOk result (out.new.items ≡ out.old.items ++ child_lines level (kind_with (kind_of dtype.now) id (ids_of ipc_fields.now))) }
{
    match dtype {
        ArrowDataType::List(child) => push_field(alloc, out, level, child, ipc_fields, 0),
        ArrowDataType::LargeList(child) => push_field(alloc, out, level, child, ipc_fields, 0),
        ArrowDataType::FixedSizeList(child, _) => push_field(
            alloc, out, level, child, ipc_fields, 0,
        ),
        ArrowDataType::Map(child, _) => push_field(alloc, out, level, child, ipc_fields, 0),
        ArrowDataType::Struct(children) => {
            push_fields(alloc, out, level, children.as_slice(), ipc_fields)
        }
        ArrowDataType::Union(union) => {
            push_fields(alloc, out, level, union.fields.as_slice(), ipc_fields)
        }
        ArrowDataType::Dictionary(_, values, _) => {
            push_children(alloc, out, level, values, None, ipc_fields)
        }
        ArrowDataType::Extension(extension) => {
            push_children(alloc, out, level, &extension.inner, id, ipc_fields)
        }
        _ => Ok(()),
    }
}

#[cycle(lines)]
fn push_fields(
    alloc: Global,
    out: &mut Vec<u8>,
    level: usize,
    children: &[Field],
    ipc_fields: &[IpcField],
) -> Result<(), AllocError>
    ensures { OnOk result (out.new.items ≡ out.old.items ++ field_lines level (fields_with (fields_from (map child_of children.now)) (ids_of ipc_fields.now))) }
{
    for i in 0..children.len() {
        push_field(alloc, out, level, &children[i], ipc_fields, i)?;
    }
    Ok(())
}
