//! Types of one kind: names, nullability and metadata aside.
ghost use Rattle.std.specs.Prelude.{◌≡◌, ◌&&◌, map, drop, None, true, false, string_bytes};
ghost use Rattle.std.specs.Option.{option_map};
ghost use Rattle.std.specs.Str.{bytes_eq};
ghost use Rattle.arrow_spec.specs.Kinds.{is_same_kind, have_same_kinds, is_same_mode, is_same_integer, is_same_text, are_same_ids, same};
ghost use Rattle.arrow_spec.specs.Schema.{counted_ids};
ghost use Rattle.arrow_types.specs.Child.{fields_from};
ghost use Rattle.arrow_types.specs.KindOf.{kind_of, child_of, ids_of as union_ids};
ghost use Rattle.ipc_fields.specs.IpcFields.{ids_of, kind_with, fields_with};
ghost use Rattle.arrow_types.specs.Leaves.{is_leaf};
ghost use Rattle.ipc_fields.specs.Uses.{use_in, id_under, first_id, first_ids};

use crate::IpcField;
use crate::uses::{Use, fields_at, id_at};
use arrow_spec::{IntegerType, UnionMode};
use arrow_types::{ArrowDataType, Field, is_leaf};

fn is_same_text(a: &String, b: &String) -> bool
    ensures { result ≡ bytes_eq (string_bytes a.now) (string_bytes b.now) }
{
    a == b
}

fn is_same_option(a: &Option<String>, b: &Option<String>) -> bool
    ensures { result ≡ is_same_text (option_map string_bytes a.now) (option_map string_bytes b.now) }
{
    match a {
        None => b.is_none(),
        Some(x) => match b {
            None => false,
            Some(y) => is_same_text(x, y),
        },
    }
}

fn is_same_integer(a: IntegerType, b: IntegerType) -> bool
    ensures { result ≡ is_same_integer a b }
{
    a == b
}

fn is_same_mode(a: UnionMode, b: UnionMode) -> bool
    ensures { result ≡ is_same_mode a b }
{
    a == b
}

/// Whether two dictionaries have one id, which is 0 where it is absent.
#[tactic(auto, using(crate::proofs::KindSteps::ids_equal, crate::proofs::KindSteps::ids_differ))]
fn is_same_id(a: Option<i64>, b: Option<i64>) -> bool
    ensures { result ≡ same (id_under a) (id_under b) }
{
    let x = match a {
        None => 0,
        Some(x) => x,
    };
    let y = match b {
        None => 0,
        Some(y) => y,
    };
    x == y
}

/// Whether ids are 0, 1, .. for so many children.
#[tactic(auto, using(crate::proofs::KindSteps::counted_apart))]
fn are_counted(ids: &[i32], children: usize) -> bool
    ensures { result ≡ are_same_ids ids.now (counted_ids 0 children) }
{
    if ids.len() != children {
        return false;
    }
    for i in 0..children {
        if ids[i] < 0 {
            return false;
        }
        if ids[i] as usize != i {
            return false;
        }
    }
    true
}

#[tactic(auto, using(crate::proofs::KindSteps::same_lists))]
fn are_equal(a: &[i32], b: &[i32]) -> bool
    ensures { result ≡ are_same_ids a.now b.now }
{
    a == b
}

/// Whether two unions, of so many children each, have the same ids, stated or not.
#[tactic(auto, using(crate::proofs::KindSteps::counted_both, crate::proofs::KindSteps::same_ids_turned))]
pub fn are_same_ids(a: &Option<Vec<i32>>, m: usize, b: &Option<Vec<i32>>, n: usize) -> bool
    ensures { result ≡ are_same_ids (union_ids a.now m) (union_ids b.now n) }
{
    match a {
        None => match b {
            None => m == n,
            Some(ids) => are_counted(ids, m),
        },
        Some(ids) => match b {
            None => are_counted(ids, n),
            Some(others) => are_equal(ids, others),
        },
    }
}

/// Whether the fields at a place are of one kind.
#[cycle(kinds)]
fn is_same_child(
    a: &Field,
    a_fields: &[IpcField],
    b: &Field,
    b_fields: &[IpcField],
    i: usize,
) -> bool
    ensures { result ≡ is_same_kind (kind_with (child_of a.now).kind (first_id (ids_of (drop i a_fields.now))) (first_ids (ids_of (drop i a_fields.now)))) (kind_with (child_of b.now).kind (first_id (ids_of (drop i b_fields.now))) (first_ids (ids_of (drop i b_fields.now)))) }
{
    is_same_kind(
        &a.dtype,
        id_at(a_fields, i),
        fields_at(a_fields, i),
        &b.dtype,
        id_at(b_fields, i),
        fields_at(b_fields, i),
    )
}

/// Whether fields are of the same kinds, in order.
#[cycle(kinds)]
fn have_same_kinds(a: &[Field], a_fields: &[IpcField], b: &[Field], b_fields: &[IpcField]) -> bool
    ensures { result ≡ have_same_kinds (fields_with (fields_from (map child_of a.now)) (ids_of a_fields.now)) (fields_with (fields_from (map child_of b.now)) (ids_of b_fields.now)) }
{
    if a.len() != b.len() {
        return false;
    }
    for i in 0..a.len() {
        if !is_same_child(&a[i], a_fields, &b[i], b_fields, i) {
            return false;
        }
    }
    true
}

/// Whether two types with their dictionary ids, of which the first has parts, are of one kind.
#[cycle(kinds)]
fn is_same_nested(
    a: &ArrowDataType,
    a_id: Option<i64>,
    a_fields: &[IpcField],
    b: &ArrowDataType,
    b_id: Option<i64>,
    b_fields: &[IpcField],
) -> bool
    requires { is_leaf (kind_of a.now) ≡ false }
    ensures { result ≡ is_same_kind (kind_with (kind_of a.now) a_id (ids_of a_fields.now)) (kind_with (kind_of b.now) b_id (ids_of b_fields.now)) }
{
    match a {
        ArrowDataType::List(f) => match b {
            ArrowDataType::List(g) => is_same_child(f, a_fields, g, b_fields, 0),
            _ => false,
        },
        ArrowDataType::LargeList(f) => match b {
            ArrowDataType::LargeList(g) => is_same_child(f, a_fields, g, b_fields, 0),
            _ => false,
        },
        ArrowDataType::FixedSizeList(f, m) => match b {
            ArrowDataType::FixedSizeList(g, n) => {
                *m == *n && is_same_child(f, a_fields, g, b_fields, 0)
            }
            _ => false,
        },
        ArrowDataType::Map(f, s) => match b {
            ArrowDataType::Map(g, t) => *s == *t && is_same_child(f, a_fields, g, b_fields, 0),
            _ => false,
        },
        ArrowDataType::Struct(fs) => match b {
            ArrowDataType::Struct(gs) => {
                have_same_kinds(fs.as_slice(), a_fields, gs.as_slice(), b_fields)
            }
            _ => false,
        },
        ArrowDataType::Union(u) => match b {
            ArrowDataType::Union(v) => {
                is_same_mode(u.mode, v.mode)
                    && are_same_ids(&u.ids, u.fields.len(), &v.ids, v.fields.len())
                    && have_same_kinds(u.fields.as_slice(), a_fields, v.fields.as_slice(), b_fields)
            }
            _ => false,
        },
        ArrowDataType::Dictionary(i, t, o) => match b {
            ArrowDataType::Dictionary(j, u, p) => {
                is_same_integer(*i, *j)
                    && *o == *p
                    && is_same_id(a_id, b_id)
                    && is_same_kind(t, None, a_fields, u, None, b_fields)
            }
            _ => false,
        },
        ArrowDataType::Extension(d) => match b {
            ArrowDataType::Extension(e) => {
                is_same_text(&d.name, &e.name)
                    && is_same_option(&d.metadata, &e.metadata)
                    && is_same_kind(&d.inner, a_id, a_fields, &e.inner, b_id, b_fields)
            }
            _ => false,
        },
        _ => false,
    }
}

/// Whether two types with their dictionary ids are of one kind.
#[cycle(kinds)]
fn is_same_kind(
    a: &ArrowDataType,
    a_id: Option<i64>,
    a_fields: &[IpcField],
    b: &ArrowDataType,
    b_id: Option<i64>,
    b_fields: &[IpcField],
) -> bool
    ensures { result ≡ is_same_kind (kind_with (kind_of a.now) a_id (ids_of a_fields.now)) (kind_with (kind_of b.now) b_id (ids_of b_fields.now)) }
{
    if is_leaf(a) {
        return a == b;
    }
    is_same_nested(a, a_id, a_fields, b, b_id, b_fields)
}

/// Whether the values of two uses are of one kind.
pub(crate) fn is_same_use(a: &Use, b: &Use) -> bool
    ensures { result ≡ is_same_kind (use_in a.now).values (use_in b.now).values }
{
    is_same_kind(&a.values, None, &a.fields, &b.values, None, &b.fields)
}

/// Whether two types are of one kind.
#[tactic(auto, using(crate::proofs::NoIds::no_ids))]
pub fn is_same_kind_of_values(a: &ArrowDataType, b: &ArrowDataType) -> bool
    ensures { result ≡ is_same_kind (kind_of a.now) (kind_of b.now) }
{
    is_same_kind(a, None, &[], b, None, &[])
}
