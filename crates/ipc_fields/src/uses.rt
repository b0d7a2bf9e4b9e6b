//! Uses of dictionaries (Schema.fbs, DictionaryEncoding).
ghost use Rattle.std.specs.Prelude.{◌≡◌, ◌++◌, ◌∷◌, [], map, drop, true, None, IfOk, OnErr, Err, pos};
ghost use Rattle.arrow_spec.specs.declared.error.IpcError.TheVariants.{Memory};
ghost use Rattle.arrow_spec.specs.Flat.{or_default};
ghost use Rattle.arrow_spec.specs.Kinds.{uses_of, uses_in};
ghost use Rattle.arrow_spec.specs.Regular.{is_dictionary_id};
ghost use Rattle.arrow_types.specs.Child.{fields_from};
ghost use Rattle.arrow_types.specs.KindOf.{kind_of, child_of};
ghost use Rattle.ipc_fields.specs.IpcFields.{tree_of, ids_of, kind_with, fields_with};
ghost use Rattle.ipc_fields.specs.Uses.{use_in, id_under, use_as, first_id, first_ids};

use crate::IpcField;
use arrow_spec::IpcError;
use arrow_types::{ArrowDataType, Field};
use std::alloc::Global;

/// A dictionary's id, the type of its values, and the IPC fields of that type's children.
#[derive(Drop)]
pub struct Use {
    /// The id, 0 where none was there.
    pub id: i64,
    /// The type of the values.
    pub values: ArrowDataType,
    /// The IPC fields of that type's children.
    pub fields: Vec<IpcField>,
}

/// The id of the IPC field at a place, none where there is none.
pub fn id_at(fields: &[IpcField], i: usize) -> Option<i64>
    ensures id { result ≡ first_id (ids_of (drop i fields.now)) }
    ensures range { is_dictionary_id (or_default (pos 0) result) ≡ true }
{
    match fields.get(i) {
        None => None,
        Some(field) => match field.dictionary_id {
            None => None,
            Some(id) => Some(id),
        },
    }
}

/// The IPC fields below the one at a place, none where there is none.
pub fn fields_at(fields: &[IpcField], i: usize) -> &[IpcField]
    ensures { ids_of result.now ≡ first_ids (ids_of (drop i fields.now)) }
{
    match fields.get(i) {
        None => &[],
        Some(field) => field.fields.as_slice(),
    }
}

fn copy_fields(alloc: Global, fields: &[IpcField]) -> Result<Vec<IpcField>, IpcError>
    ensures ok { IfOk result (λ v. map tree_of v.items ≡ map tree_of fields.now) }
    ensures memory { OnErr result (result ≡ Err Memory) }
{
    let mut copies = Vec::new(alloc);
    for field in fields {
        let copy = field.try_clone(alloc)?;
        copies.push(copy)?;
    }
    Ok(copies)
}

/// A use, at the end of those before it.
fn push_use(
    alloc: Global,
    uses: &mut Vec<Use>,
    id: Option<i64>,
    values: &ArrowDataType,
    fields: &[IpcField],
) -> Result<(), IpcError>
    ensures ok { IfOk result (λ _. map use_in uses.new.items ≡ map use_in uses.old.items ++ use_as (id_under id) (kind_with (kind_of values.now) None (ids_of fields.now)) ∷ []) }
    ensures memory { OnErr result (result ≡ Err Memory) }
{
    let values = values.try_clone(alloc)?;
    let fields = copy_fields(alloc, fields)?;
    let id = match id {
        None => 0,
        Some(id) => id,
    };
    uses.push(Use { id, values, fields })?;
    Ok(())
}

/// The uses in a type, in preorder.
#[cycle(uses)]
fn push_uses(
    alloc: Global,
    uses: &mut Vec<Use>,
    dtype: &ArrowDataType,
    id: Option<i64>,
    fields: &[IpcField],
) -> Result<(), IpcError>
    ensures ok { IfOk result (λ _. map use_in uses.new.items ≡ map use_in uses.old.items ++ uses_of (kind_with (kind_of dtype.now) id (ids_of fields.now))) }
    ensures memory { OnErr result (result ≡ Err Memory) }
{
    match dtype {
        ArrowDataType::List(child) => push_child(alloc, uses, child, fields, 0),
        ArrowDataType::LargeList(child) => push_child(alloc, uses, child, fields, 0),
        ArrowDataType::FixedSizeList(child, _) => push_child(alloc, uses, child, fields, 0),
        ArrowDataType::Map(child, _) => push_child(alloc, uses, child, fields, 0),
        ArrowDataType::Struct(children) => {
            push_children(alloc, uses, children.as_slice(), fields)
        }
        ArrowDataType::Union(union) => {
            push_children(alloc, uses, union.fields.as_slice(), fields)
        }
        ArrowDataType::Dictionary(_, values, _) => {
            push_use(alloc, uses, id, values, fields)?;
            push_uses(alloc, uses, values, None, fields)
        }
        ArrowDataType::Extension(extension) => {
            push_uses(alloc, uses, &extension.inner, id, fields)
        }
        _ => Ok(()),
    }
}

/// The uses in the child at a place, in preorder.
#[cycle(uses)]
pub fn push_child(
    alloc: Global,
    uses: &mut Vec<Use>,
    child: &Field,
    fields: &[IpcField],
    i: usize,
) -> Result<(), IpcError>
    ensures ok { IfOk result (λ _. map use_in uses.new.items ≡ map use_in uses.old.items ++ uses_of (kind_with (child_of child.now).kind (first_id (ids_of (drop i fields.now))) (first_ids (ids_of (drop i fields.now))))) }
    ensures memory { OnErr result (result ≡ Err Memory) }
{
    push_uses(
        alloc,
        uses,
        &child.dtype,
        id_at(fields, i),
        fields_at(fields, i),
    )
}

/// The uses in fields, in preorder.
#[cycle(uses)]
pub fn push_children(
    alloc: Global,
    uses: &mut Vec<Use>,
    children: &[Field],
    fields: &[IpcField],
) -> Result<(), IpcError>
    ensures ok { IfOk result (λ _. map use_in uses.new.items ≡ map use_in uses.old.items ++ uses_in (fields_with (fields_from (map child_of children.now)) (ids_of fields.now))) }
    ensures memory { OnErr result (result ≡ Err Memory) }
{
    for i in 0..children.len() {
        push_child(alloc, uses, &children[i], fields, i)?;
    }
    Ok(())
}
