//! Whether two schemas have the same fields, whether or not the ids of a union are stated (Schema.fbs, Union).
ghost use Rattle.std.specs.Prelude.{◌≡◌, ◌↔◌, IsTrue, false, true, map};
ghost use Rattle.std.specs.Option.{option_map};
ghost use Rattle.arrow_spec.specs.Kinds.{bare, bare_kind, have_same_kinds};
ghost use Rattle.arrow_types.specs.KindOf.{child_of, extension_kind_of, kind_of, union_kind_of};
ghost use Rattle.arrow_types.specs.Schemas.{entry_of, fields_in};
ghost use Rattle.arrow_types.specs.Leaves.{is_leaf};
ghost use Rattle.same_fields.specs.Bare.{AreOfOneKind, bare_child, bare_entry};

use arrow_spec::IntegerType;
use arrow_types::{
    ArrowDataType, ArrowSchema, ExtensionType, Field, UnionType, is_leaf, is_same_metadata,
    is_same_mode, is_same_option, is_same_text,
};
use ipc_fields::are_same_ids;

/// Whether the keys of two dictionaries are of one type, and their values in order or not.
fn are_same_keys(a: IntegerType, b: IntegerType, a_ordered: bool, b_ordered: bool) -> bool
    ensures { IsTrue result ↔ ((a ≡ b) × (a_ordered ≡ b_ordered)) }
{
    a == b && a_ordered == b_ordered
}

/// Whether two types, of which the first has parts, are the same.
#[cycle(bare)]
fn is_same_nested(a: &ArrowDataType, b: &ArrowDataType) -> bool
    requires { is_leaf (kind_of a.now) ≡ false }
    ensures { IsTrue result ↔ (bare_kind (kind_of a.now) ≡ bare_kind (kind_of b.now)) }
{
    match a {
        ArrowDataType::List(f) => match b {
            ArrowDataType::List(g) => is_same_field(f, g),
            _ => false,
        },
        ArrowDataType::LargeList(f) => match b {
            ArrowDataType::LargeList(g) => is_same_field(f, g),
            _ => false,
        },
        ArrowDataType::FixedSizeList(f, m) => match b {
            ArrowDataType::FixedSizeList(g, n) => *m == *n && is_same_field(f, g),
            _ => false,
        },
        ArrowDataType::Map(f, s) => match b {
            ArrowDataType::Map(g, t) => *s == *t && is_same_field(f, g),
            _ => false,
        },
        ArrowDataType::Struct(fs) => match b {
            ArrowDataType::Struct(gs) => are_same_fields(fs.as_slice(), gs.as_slice()),
            _ => false,
        },
        ArrowDataType::Union(u) => match b {
            ArrowDataType::Union(v) => is_same_union(u, v),
            _ => false,
        },
        ArrowDataType::Dictionary(i, t, o) => match b {
            ArrowDataType::Dictionary(j, u, p) => {
                are_same_keys(*i, *j, *o, *p) && is_same_type(t, u)
            }
            _ => false,
        },
        ArrowDataType::Extension(d) => match b {
            ArrowDataType::Extension(e) => is_same_extension(d, e),
            _ => false,
        },
        _ => false,
    }
}

/// Whether two types are the same.
#[cycle(bare)]
fn is_same_type(a: &ArrowDataType, b: &ArrowDataType) -> bool
    ensures { IsTrue result ↔ (bare_kind (kind_of a.now) ≡ bare_kind (kind_of b.now)) }
{
    if is_leaf(a) {
        return a == b;
    }
    is_same_nested(a, b)
}

/// Whether two fields are the same.
#[cycle(bare)]
fn is_same_field(a: &Field, b: &Field) -> bool
    ensures { IsTrue result ↔ (bare_child (child_of a.now) ≡ bare_child (child_of b.now)) }
{
    is_same_text(&a.name, &b.name)
        && is_same_type(&a.dtype, &b.dtype)
        && a.is_nullable == b.is_nullable
        && is_same_metadata(&a.metadata, &b.metadata)
}

/// Whether fields are the same, in order.
#[cycle(bare)]
fn are_same_fields(a: &[Field], b: &[Field]) -> bool
    ensures { IsTrue result ↔ (map (λ f. bare_child (child_of f)) a.now ≡ map (λ f. bare_child (child_of f)) b.now) }
{
    if a.len() != b.len() {
        return false;
    }
    for i in 0..a.len() {
        if !is_same_field(&a[i], &b[i]) {
            return false;
        }
    }
    true
}

/// Whether two unions are the same.
#[cycle(bare)]
fn is_same_union(a: &UnionType, b: &UnionType) -> bool
    ensures { IsTrue result ↔ (bare_kind (union_kind_of a.now) ≡ bare_kind (union_kind_of b.now)) }
{
    if !is_same_mode(a.mode, b.mode) {
        return false;
    }
    if !are_same_fields(a.fields.as_slice(), b.fields.as_slice()) {
        return false;
    }
    let children = a.fields.len();
    are_same_ids(&a.ids, children, &b.ids, children)
}

/// Whether two extensions are the same.
#[cycle(bare)]
fn is_same_extension(a: &ExtensionType, b: &ExtensionType) -> bool
    ensures { IsTrue result ↔ (bare_kind (extension_kind_of a.now) ≡ bare_kind (extension_kind_of b.now)) }
{
    is_same_text(&a.name, &b.name)
        && is_same_option(&a.metadata, &b.metadata)
        && is_same_type(&a.inner, &b.inner)
}

/// Whether the fields at a place are the same; their keys are not looked at.
fn is_same_entry(a: Option<(&String, &Field)>, b: Option<(&String, &Field)>) -> bool
    ensures same { IsTrue result ↔ (option_map bare_entry (option_map entry_of a.entry) ≡ option_map bare_entry (option_map entry_of b.entry)) }
    ensures kinds { result ≡ true → AreOfOneKind (option_map entry_of a.entry) (option_map entry_of b.entry) }
{
    match a {
        None => b.is_none(),
        Some((_, field)) => match b {
            None => false,
            Some((_, fellow)) => is_same_field(field, fellow),
        },
    }
}

/// Whether two schemas have the same fields, in order.
pub fn have_same_fields(a: &ArrowSchema, b: &ArrowSchema) -> bool
    ensures same { IsTrue result ↔ (bare (fields_in a.now) ≡ bare (fields_in b.now)) }
    ensures kinds { result ≡ true → have_same_kinds (fields_in a.now) (fields_in b.now) ≡ true }
{
    if a.len() != b.len() {
        return false;
    }
    for i in 0..a.len() {
        if !is_same_entry(a.get_at_index(i), b.get_at_index(i)) {
            return false;
        }
    }
    true
}
