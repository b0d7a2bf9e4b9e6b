//! The shape of IPC fields: one for each child, and an id exactly at each dictionary (Schema.fbs, DictionaryEncoding).
ghost use Rattle.std.specs.Prelude.{◌≡◌, ◌&&◌, if◌then◌else◌, None};
ghost use Rattle.arrow_spec.specs.Readings.{is_absent};
ghost use Rattle.arrow_types.specs.Child.{one_field};
ghost use Rattle.arrow_types.specs.KindOf.{kind_of, child_of, fields_of};
ghost use Rattle.ipc_fields.specs.IpcFields as specs;
ghost use Rattle.ipc_fields.specs.IpcFields.{ids_of};

use crate::IpcField;
use crate::uses::{fields_at, id_at};
use arrow_types::{ArrowDataType, Field};

/// Whether a type is a dictionary, extensions looked through.
fn is_encoded(dtype: &ArrowDataType) -> bool
    ensures { result ≡ specs.is_encoded (kind_of dtype.now) }
{
    match dtype {
        ArrowDataType::Dictionary(_, _, _) => true,
        ArrowDataType::Extension(extension) => is_encoded(&extension.inner),
        _ => false,
    }
}

/// A dictionary's own id is that of its values where they are a dictionary too.
fn inner_id(values: &ArrowDataType, id: Option<i64>) -> Option<i64>
    ensures { result ≡ (if specs.is_encoded (kind_of values.now) then id else None) }
{
    if is_encoded(values) { id } else { None }
}

/// Whether there is neither an id nor an IPC field.
#[tactic(auto, using(crate::proofs::ShapeSteps::plain))]
fn is_plain(id: Option<i64>, below: &[IpcField]) -> bool
    ensures { result ≡ (is_absent id && specs.has_no_fields (ids_of below.now)) }
{
    match id {
        Some(_) => false,
        None => below.is_empty(),
    }
}

#[cycle(shape)]
fn has_shape(dtype: &ArrowDataType, id: Option<i64>, below: &[IpcField]) -> bool
    ensures { result ≡ specs.has_shape (kind_of dtype.now) id (ids_of below.now) }
{
    match dtype {
        ArrowDataType::List(child) => has_one_shape(child, id, below),
        ArrowDataType::LargeList(child) => has_one_shape(child, id, below),
        ArrowDataType::FixedSizeList(child, _) => has_one_shape(child, id, below),
        ArrowDataType::Map(child, _) => has_one_shape(child, id, below),
        ArrowDataType::Struct(fields) => id.is_none() && have_shapes(fields.as_slice(), below),
        ArrowDataType::Union(union) => {
            id.is_none() && have_shapes(union.fields.as_slice(), below)
        }
        ArrowDataType::Dictionary(_, values, _) => {
            id.is_some() && has_shape(values, inner_id(values, id), below)
        }
        ArrowDataType::Extension(extension) => has_shape(&extension.inner, id, below),
        _ => is_plain(id, below),
    }
}

/// Whether the id and the IPC fields below it have the shape of a field.
#[cycle(shape)]
pub fn field_has_shape(field: &Field, id: Option<i64>, below: &[IpcField]) -> bool
    ensures { result ≡ specs.has_shape (child_of field.now).kind id (ids_of below.now) }
{
    has_shape(&field.dtype, id, below)
}

#[cycle(shape)]
fn has_one_shape(field: &Field, id: Option<i64>, below: &[IpcField]) -> bool
    ensures { result ≡ (is_absent id && specs.have_shapes (one_field (child_of field.now)) (ids_of below.now)) }
{
    match id {
        Some(_) => false,
        None => is_one_shape(field, below),
    }
}

#[cycle(shape)]
fn is_one_shape(field: &Field, below: &[IpcField]) -> bool
    ensures { result ≡ specs.have_shapes (one_field (child_of field.now)) (ids_of below.now) }
{
    if below.len() != 1 {
        return false;
    }
    field_has_shape(field, id_at(below, 0), fields_at(below, 0))
}

/// Whether IPC fields have the shape of fields.
#[cycle(shape)]
pub fn have_shapes(fields: &[Field], below: &[IpcField]) -> bool
    ensures { result ≡ specs.have_shapes (fields_of fields.now) (ids_of below.now) }
{
    if fields.len() != below.len() {
        return false;
    }
    for i in 0..fields.len() {
        if !field_has_shape(&fields[i], id_at(below, i), fields_at(below, i)) {
            return false;
        }
    }
    true
}
