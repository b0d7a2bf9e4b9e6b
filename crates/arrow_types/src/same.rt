//! Equality of types: two are equal exactly where all their parts are, metadata as maps.
ghost use Rattle.std.specs.Prelude.{◌≡◌, ◌↔◌, IsTrue, true, string_bytes, map};
ghost use Rattle.std.specs.Option.{option_map};
ghost use Rattle.arrow_types.specs.KindOf.{kind_of, child_of, union_kind_of, extension_kind_of, texts_of};
ghost use Rattle.arrow_types.specs.Leaves.{is_leaf, is_plain};

use crate::{ArrowDataType, ExtensionType, Field, Metadata, UnionMode, UnionType};

/// Whether two texts are the same.
pub fn is_same_text(a: &String, b: &String) -> bool
    ensures { IsTrue result ↔ (string_bytes a.now ≡ string_bytes b.now) }
{
    a == b
}

/// Whether two texts that may be absent are the same.
pub fn is_same_option(a: &Option<String>, b: &Option<String>) -> bool
    ensures { IsTrue result ↔ (option_map string_bytes a.now ≡ option_map string_bytes b.now) }
{
    match a {
        None => b.is_none(),
        Some(x) => match b {
            None => false,
            Some(y) => is_same_text(x, y),
        },
    }
}

fn are_same_numbers(a: &[i32], b: &[i32]) -> bool
    ensures { IsTrue result ↔ (a.now ≡ b.now) }
{
    a == b
}

fn are_same_ids(a: &Option<Vec<i32>>, b: &Option<Vec<i32>>) -> bool
    ensures { IsTrue result ↔ (option_map (λ v. v.items) a.now ≡ option_map (λ v. v.items) b.now) }
{
    match a {
        None => b.is_none(),
        Some(x) => match b {
            None => false,
            Some(y) => are_same_numbers(x.as_slice(), y.as_slice()),
        },
    }
}

/// Whether two unions are both dense or both sparse.
pub fn is_same_mode(a: UnionMode, b: UnionMode) -> bool
    ensures { IsTrue result ↔ (a ≡ b) }
{
    a == b
}

/// Whether two maps have the same pairs.
pub fn is_same_metadata(a: &Metadata, b: &Metadata) -> bool
    ensures { IsTrue result ↔ (texts_of a.now.entries ≡ texts_of b.now.entries) }
{
    a == b
}

/// Whether two types are the same, of which the first has neither parameters nor children.
fn is_same_plain(a: &ArrowDataType, b: &ArrowDataType) -> bool
    requires { is_plain (kind_of a.now) ≡ true }
    ensures { IsTrue result ↔ (kind_of a.now ≡ kind_of b.now) }
{
    match a {
        ArrowDataType::Null => matches!(b, ArrowDataType::Null),
        ArrowDataType::Boolean => matches!(b, ArrowDataType::Boolean),
        ArrowDataType::Int8 => matches!(b, ArrowDataType::Int8),
        ArrowDataType::Int16 => matches!(b, ArrowDataType::Int16),
        ArrowDataType::Int32 => matches!(b, ArrowDataType::Int32),
        ArrowDataType::Int64 => matches!(b, ArrowDataType::Int64),
        ArrowDataType::Int128 => matches!(b, ArrowDataType::Int128),
        ArrowDataType::UInt8 => matches!(b, ArrowDataType::UInt8),
        ArrowDataType::UInt16 => matches!(b, ArrowDataType::UInt16),
        ArrowDataType::UInt32 => matches!(b, ArrowDataType::UInt32),
        ArrowDataType::UInt64 => matches!(b, ArrowDataType::UInt64),
        ArrowDataType::Float16 => matches!(b, ArrowDataType::Float16),
        ArrowDataType::Float32 => matches!(b, ArrowDataType::Float32),
        ArrowDataType::Float64 => matches!(b, ArrowDataType::Float64),
        ArrowDataType::Date32 => matches!(b, ArrowDataType::Date32),
        ArrowDataType::Date64 => matches!(b, ArrowDataType::Date64),
        ArrowDataType::Binary => matches!(b, ArrowDataType::Binary),
        ArrowDataType::LargeBinary => matches!(b, ArrowDataType::LargeBinary),
        ArrowDataType::Utf8 => matches!(b, ArrowDataType::Utf8),
        ArrowDataType::LargeUtf8 => matches!(b, ArrowDataType::LargeUtf8),
        ArrowDataType::BinaryView => matches!(b, ArrowDataType::BinaryView),
        ArrowDataType::Utf8View => matches!(b, ArrowDataType::Utf8View),
        _ => false,
    }
}

/// Whether two types are the same, of which the first has no children.
fn is_same_leaf(a: &ArrowDataType, b: &ArrowDataType) -> bool
    requires { is_leaf (kind_of a.now) ≡ true }
    ensures { IsTrue result ↔ (kind_of a.now ≡ kind_of b.now) }
{
    match a {
        ArrowDataType::Time32(u) => match b {
            ArrowDataType::Time32(v) => *u == *v,
            _ => false,
        },
        ArrowDataType::Time64(u) => match b {
            ArrowDataType::Time64(v) => *u == *v,
            _ => false,
        },
        ArrowDataType::Duration(u) => match b {
            ArrowDataType::Duration(v) => *u == *v,
            _ => false,
        },
        ArrowDataType::Timestamp(u, x) => match b {
            ArrowDataType::Timestamp(v, y) => *u == *v && is_same_option(x, y),
            _ => false,
        },
        ArrowDataType::Interval(u) => match b {
            ArrowDataType::Interval(v) => *u == *v,
            _ => false,
        },
        ArrowDataType::FixedSizeBinary(m) => match b {
            ArrowDataType::FixedSizeBinary(n) => *m == *n,
            _ => false,
        },
        ArrowDataType::Decimal(p, s) => match b {
            ArrowDataType::Decimal(q, t) => *p == *q && *s == *t,
            _ => false,
        },
        ArrowDataType::Decimal256(p, s) => match b {
            ArrowDataType::Decimal256(q, t) => *p == *q && *s == *t,
            _ => false,
        },
        _ => is_same_plain(a, b),
    }
}

#[cycle(same)]
fn is_same_type(a: &ArrowDataType, b: &ArrowDataType) -> bool
    ensures { IsTrue result ↔ (kind_of a.now ≡ kind_of b.now) }
{
    match a {
        ArrowDataType::List(f) => match b {
            ArrowDataType::List(g) => is_same_field(f, g),
            _ => false,
        },
        ArrowDataType::LargeList(f) => match b {
            ArrowDataType::LargeList(g) => is_same_field(f, g),
            _ => false,
        },
        ArrowDataType::FixedSizeList(f, m) => match b {
            ArrowDataType::FixedSizeList(g, n) => *m == *n && is_same_field(f, g),
            _ => false,
        },
        ArrowDataType::Map(f, s) => match b {
            ArrowDataType::Map(g, t) => *s == *t && is_same_field(f, g),
            _ => false,
        },
        ArrowDataType::Struct(fs) => match b {
            ArrowDataType::Struct(gs) => are_same_fields(fs.as_slice(), gs.as_slice()),
            _ => false,
        },
        ArrowDataType::Union(u) => match b {
            ArrowDataType::Union(v) => is_same_union(u, v),
            _ => false,
        },
        ArrowDataType::Dictionary(i, t, o) => match b {
            ArrowDataType::Dictionary(j, u, p) => *i == *j && *o == *p && is_same_type(t, u),
            _ => false,
        },
        ArrowDataType::Extension(d) => match b {
            ArrowDataType::Extension(e) => is_same_extension(d, e),
            _ => false,
        },
        _ => is_same_leaf(a, b),
    }
}

#[cycle(same)]
pub(crate) fn is_same_field(a: &Field, b: &Field) -> bool
    ensures { IsTrue result ↔ (child_of a.now ≡ child_of b.now) }
{
    is_same_text(&a.name, &b.name)
        && is_same_type(&a.dtype, &b.dtype)
        && a.is_nullable == b.is_nullable
        && is_same_metadata(&a.metadata, &b.metadata)
}

#[cycle(same)]
fn are_same_fields(a: &[Field], b: &[Field]) -> bool
    ensures { IsTrue result ↔ (map child_of a.now ≡ map child_of b.now) }
{
    if a.len() != b.len() {
        return false;
    }
    for i in 0..a.len() {
        if !is_same_field(&a[i], &b[i]) {
            return false;
        }
    }
    true
}

#[cycle(same)]
fn is_same_union(a: &UnionType, b: &UnionType) -> bool
    ensures { IsTrue result ↔ (union_kind_of a.now ≡ union_kind_of b.now) }
{
    if !is_same_mode(a.mode, b.mode) || !are_same_ids(&a.ids, &b.ids) {
        return false;
    }
    are_same_fields(a.fields.as_slice(), b.fields.as_slice())
}

#[cycle(same)]
fn is_same_extension(a: &ExtensionType, b: &ExtensionType) -> bool
    ensures { IsTrue result ↔ (extension_kind_of a.now ≡ extension_kind_of b.now) }
{
    is_same_text(&a.name, &b.name)
        && is_same_option(&a.metadata, &b.metadata)
        && is_same_type(&a.inner, &b.inner)
}

impl PartialEq for ArrowDataType {
    ghost use Rattle.std.specs.Ordering.{on};
    ghost use Rattle.std.specs.Cmp.{on_per, partial_equiv_from_equiv};
    ghost use Rattle.std.specs.Prelude.{◌≡◌, ◌↔◌, IsTrue};
    ghost use Rattle.arrow_types.specs.KindOf.{kind_of};
    ghost use Rattle.arrow_types.specs.KindCode.{kind_eq, kind_eq_equiv};

    ghost eq = { on kind_of kind_eq };

    ghost laws = { on_per kind_of (partial_equiv_from_equiv kind_eq_equiv) };

    fn eq(&self, other: &ArrowDataType) -> bool
        ensures eq { result ≡ kind_eq (kind_of self.now) (kind_of other.now) }
        ensures same { IsTrue result ↔ (kind_of self.now ≡ kind_of other.now) }
    {
        is_same_type(self, other)
    }
}

impl PartialEq for UnionType {
    ghost use Rattle.std.specs.Ordering.{on};
    ghost use Rattle.std.specs.Cmp.{on_per, partial_equiv_from_equiv};
    ghost use Rattle.std.specs.Prelude.{◌≡◌, ◌↔◌, IsTrue};
    ghost use Rattle.arrow_types.specs.KindOf.{union_kind_of};
    ghost use Rattle.arrow_types.specs.KindCode.{kind_eq, kind_eq_equiv};

    ghost eq = { on union_kind_of kind_eq };

    ghost laws = { on_per union_kind_of (partial_equiv_from_equiv kind_eq_equiv) };

    fn eq(&self, other: &UnionType) -> bool
        ensures eq { result ≡ kind_eq (union_kind_of self.now) (union_kind_of other.now) }
        ensures same { IsTrue result ↔ (union_kind_of self.now ≡ union_kind_of other.now) }
    {
        is_same_union(self, other)
    }
}

impl PartialEq for ExtensionType {
    ghost use Rattle.std.specs.Ordering.{on};
    ghost use Rattle.std.specs.Cmp.{on_per, partial_equiv_from_equiv};
    ghost use Rattle.std.specs.Prelude.{◌≡◌, ◌↔◌, IsTrue};
    ghost use Rattle.arrow_types.specs.KindOf.{extension_kind_of};
    ghost use Rattle.arrow_types.specs.KindCode.{kind_eq, kind_eq_equiv};

    ghost eq = { on extension_kind_of kind_eq };

    ghost laws = { on_per extension_kind_of (partial_equiv_from_equiv kind_eq_equiv) };

    fn eq(&self, other: &ExtensionType) -> bool
        ensures eq { result ≡ kind_eq (extension_kind_of self.now) (extension_kind_of other.now) }
        ensures same { IsTrue result ↔ (extension_kind_of self.now ≡ extension_kind_of other.now) }
    {
        is_same_extension(self, other)
    }
}

impl PartialEq for Field {
    ghost use Rattle.std.specs.Ordering.{on};
    ghost use Rattle.std.specs.Cmp.{on_per, partial_equiv_from_equiv};
    ghost use Rattle.std.specs.Prelude.{◌≡◌, ◌↔◌, IsTrue};
    ghost use Rattle.arrow_types.specs.KindOf.{child_of};
    ghost use Rattle.arrow_types.specs.ChildCode.{child_eq, child_eq_equiv};

    ghost eq = { on child_of child_eq };

    ghost laws = { on_per child_of (partial_equiv_from_equiv child_eq_equiv) };

    fn eq(&self, other: &Field) -> bool
        ensures eq { result ≡ child_eq (child_of self.now) (child_of other.now) }
        ensures same { IsTrue result ↔ (child_of self.now ≡ child_of other.now) }
    {
        is_same_field(self, other)
    }
}
