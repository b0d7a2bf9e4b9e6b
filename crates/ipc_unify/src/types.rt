//! The dictionaries that stand in types, in preorder.
ghost use Rattle.std.specs.Prelude.{◌≡◌, ◌+◌, ◌++◌, map, IfErr, IfOk, IfSome};
ghost use Rattle.arrow_spec.specs.Kinds.{dictionary_count, dictionary_counts};
ghost use Rattle.arrow_spec.specs.declared.error.IpcError.TheVariants.{Memory};
ghost use Rattle.arrow_types.specs.KindOf.{fields_of, kind_of};
ghost use Rattle.arrow_types.specs.Schemas.{fields_in};
ghost use Rattle.laws_unify.specs.United.{kinds_of, values_kinds};

use arrow_spec::IpcError;
use arrow_types::{ArrowDataType, ArrowSchema, Field};
use std::alloc::{AllocError, Global};

/// How many dictionaries stand in a type; none where no index says it.
#[cycle(count)]
fn count_in(dtype: &ArrowDataType) -> Option<usize>
    ensures { IfSome result (λ n. n ≡ dictionary_count (kind_of dtype.now)) }
{
    match dtype {
        ArrowDataType::List(child) => count_in(&child.dtype),
        ArrowDataType::LargeList(child) => count_in(&child.dtype),
        ArrowDataType::FixedSizeList(child, _) => count_in(&child.dtype),
        ArrowDataType::Map(child, _) => count_in(&child.dtype),
        ArrowDataType::Struct(children) => count_under(children.as_slice()),
        ArrowDataType::Union(union) => count_under(union.fields.as_slice()),
        ArrowDataType::Dictionary(_, values, _) => count_in(values)?.checked_add(1),
        ArrowDataType::Extension(extension) => count_in(&extension.inner),
        _ => Some(0),
    }
}

/// How many stand in the types of fields.
#[cycle(count)]
fn count_under(fields: &[Field]) -> Option<usize>
    ensures { IfSome result (λ n. n ≡ dictionary_counts (fields_of fields.now)) }
{
    let mut count: usize = 0;
    for field in fields {
        count = count.checked_add(count_in(&field.dtype)?)?;
    }
    Some(count)
}

/// The number of the first dictionary behind those of a type, the first of which has a number.
pub(crate) fn number_behind(number: usize, dtype: &ArrowDataType) -> Result<usize, IpcError>
    ensures behind { IfOk result (λ n. n ≡ number + dictionary_count (kind_of dtype.now)) }
    ensures memory { IfErr result (λ e. e ≡ Memory) }
{
    match count_in(dtype) {
        Some(count) => match number.checked_add(count) {
            Some(behind) => Ok(behind),
            None => Err(IpcError::Memory),
        },
        None => Err(IpcError::Memory),
    }
}

/// Puts the types of the values of a type's dictionaries behind others.
#[cycle(values)]
fn push_values(
    alloc: Global,
    types: &mut Vec<ArrowDataType>,
    dtype: &ArrowDataType,
) -> Result<(), AllocError>
    ensures { IfOk result (λ _. map kind_of types.new.items ≡ map kind_of types.old.items ++ kinds_of (kind_of dtype.now)) }
{
    match dtype {
        ArrowDataType::List(child) => push_values(alloc, types, &child.dtype),
        ArrowDataType::LargeList(child) => push_values(alloc, types, &child.dtype),
        ArrowDataType::FixedSizeList(child, _) => push_values(alloc, types, &child.dtype),
        ArrowDataType::Map(child, _) => push_values(alloc, types, &child.dtype),
        ArrowDataType::Struct(children) => push_under(alloc, types, children.as_slice()),
        ArrowDataType::Union(union) => push_under(alloc, types, union.fields.as_slice()),
        ArrowDataType::Dictionary(_, values, _) => {
            let copy = values.try_clone(alloc)?;
            types.push(copy)?;
            push_values(alloc, types, values)
        }
        ArrowDataType::Extension(extension) => push_values(alloc, types, &extension.inner),
        _ => Ok(()),
    }
}

/// Those of the types of fields.
#[cycle(values)]
fn push_under(
    alloc: Global,
    types: &mut Vec<ArrowDataType>,
    fields: &[Field],
) -> Result<(), AllocError>
    ensures { IfOk result (λ _. map kind_of types.new.items ≡ map kind_of types.old.items ++ values_kinds (fields_of fields.now)) }
{
    for field in fields {
        push_values(alloc, types, &field.dtype)?;
    }
    Ok(())
}

/// The types of the values of a schema's dictionaries, in preorder.
pub(crate) fn values_types(
    alloc: Global,
    schema: &ArrowSchema,
) -> Result<Vec<ArrowDataType>, AllocError>
    ensures { IfOk result (λ v. map kind_of v.items ≡ values_kinds (fields_in schema.now)) }
{
    let mut types = Vec::new(alloc);
    for (_, field) in schema.iter() {
        push_values(alloc, &mut types, &field.dtype)?;
    }
    Ok(types)
}
