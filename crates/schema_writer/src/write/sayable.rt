//! What the tables of a schema can say.
ghost use Rattle.std.specs.Prelude.{◌≡◌, ◌&&◌, nat_lt, nat_le, true, pos};
ghost use Rattle.arrow_spec.specs.Flat.{or_default};
ghost use Rattle.arrow_spec.specs.Regular as regular;
ghost use Rattle.arrow_types.specs.Child.{one_field};
ghost use Rattle.arrow_types.specs.KindOf.{kind_of, union_kind_of, child_of, fields_of, are_stated, ids_of as union_ids};
ghost use Rattle.ipc_fields.specs.IpcFields.{ids_of, kind_with, fields_with};
ghost use Rattle.schema_writer.specs.Tables as specs;

use arrow_types::union_ids::are_right;
use arrow_types::{ArrowDataType, Field, UnionType};
use ipc_fields::IpcField;
use ipc_fields::uses::{fields_at, id_at};

// A size, a precision or a scale is a signed number of 32 bits.
fn is_size(n: usize) -> bool
    ensures { result ≡ regular.is_size n }
{
    n <= 0x7fff_ffff
}

fn is_no_dictionary(t: &ArrowDataType) -> bool
    ensures { result ≡ regular.is_no_dictionary (kind_of t.now) }
{
    !matches!(t, ArrowDataType::Dictionary(_, _, _))
}

fn are_few(children: usize) -> bool
    ensures { result ≡ (nat_lt 0 children && nat_le children 128) }
{
    children > 0 && children <= 128
}

// A union's ids are distinct, from 0 to 127 and one for each child, and there is a child.
#[tactic(auto, using(crate::proofs::Saying::stated_right, crate::proofs::Saying::counted_right))]
fn has_right_ids(ids: &Option<Vec<i32>>, children: usize) -> bool
    ensures { result ≡ regular.has_right_ids (are_stated ids.now) (union_ids ids.now children) children }
{
    match ids {
        None => are_few(children),
        Some(ids) => are_right(ids.as_slice(), children),
    }
}

#[cycle(fits)]
#[tactic(auto, using(crate::proofs::Saying::and_more, crate::proofs::Saying::no_dictionary_with))]
fn fits(t: &ArrowDataType, id: Option<i64>, below: &[IpcField]) -> bool
    requires { regular.is_dictionary_id (or_default (pos 0) id) ≡ true }
    ensures { result ≡ specs.kind_fits (kind_with (kind_of t.now) id (ids_of below.now)) }
{
    match t {
        ArrowDataType::FixedSizeBinary(n) => is_size(*n),
        ArrowDataType::Decimal(precision, scale) => is_size(*precision) && is_size(*scale),
        ArrowDataType::Decimal256(precision, scale) => is_size(*precision) && is_size(*scale),
        ArrowDataType::List(f) => one_fits(f, below),
        ArrowDataType::LargeList(f) => one_fits(f, below),
        ArrowDataType::FixedSizeList(f, n) => is_size(*n) && one_fits(f, below),
        ArrowDataType::Map(f, _) => one_fits(f, below),
        ArrowDataType::Struct(fields) => all_fit(fields.as_slice(), below),
        ArrowDataType::Union(u) => union_fits(u, id, below),
        ArrowDataType::Dictionary(_, values, _) => {
            is_no_dictionary(values) && fits(values, None, below)
        }
        ArrowDataType::Extension(e) => is_no_dictionary(&e.inner) && fits(&e.inner, id, below),
        _ => true,
    }
}

#[cycle(fits)]
fn union_fits(u: &UnionType, id: Option<i64>, below: &[IpcField]) -> bool
    ensures { result ≡ specs.kind_fits (kind_with (union_kind_of u.now) id (ids_of below.now)) }
{
    has_right_ids(&u.ids, u.fields.len()) && all_fit(u.fields.as_slice(), below)
}

#[cycle(fits)]
fn one_fits(field: &Field, below: &[IpcField]) -> bool
    ensures { result ≡ specs.all_fit (fields_with (one_field (child_of field.now)) (ids_of below.now)) }
{
    field_fits(field, id_at(below, 0), fields_at(below, 0))
}

/// Whether the table of a field can say it, with those below it: no dictionary stands directly in a dictionary or in an
/// extension, and sizes and the ids of unions fit.
#[cycle(fits)]
pub(crate) fn field_fits(field: &Field, id: Option<i64>, below: &[IpcField]) -> bool
    requires { regular.is_dictionary_id (or_default (pos 0) id) ≡ true }
    ensures { result ≡ specs.kind_fits (kind_with (child_of field.now).kind id (ids_of below.now)) }
{
    fits(&field.dtype, id, below)
}

#[cycle(fits)]
fn all_fit(fields: &[Field], below: &[IpcField]) -> bool
    ensures { result ≡ specs.all_fit (fields_with (fields_of fields.now) (ids_of below.now)) }
{
    for i in 0..fields.len() {
        if !field_fits(&fields[i], id_at(below, i), fields_at(below, i)) {
            return false;
        }
    }
    true
}
