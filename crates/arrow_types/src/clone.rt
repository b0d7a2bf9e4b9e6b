//! Copies of types. They are written out, since a derived copy promises nothing of a type that contains itself.
ghost use Rattle.std.specs.Prelude.{◌≡◌, IfOk, string_bytes, map};
ghost use Rattle.std.specs.Option.{option_map};
ghost use Rattle.arrow_types.specs.KindOf.{kind_of, child_of, union_kind_of, extension_kind_of, texts_of, ids_of, are_stated};

use crate::{ArrowDataType, ExtensionType, Field, Metadata, UnionType};
use std::alloc::{AllocError, Global};

impl ArrowDataType {
    /// A copy of the type.
    pub fn try_clone(&self, alloc: Global) -> Result<ArrowDataType, AllocError>
        ensures { IfOk result (λ t. kind_of t ≡ kind_of self.now) }
    {
        copy_type(alloc, self)
    }
}

impl Field {
    /// A copy of the field.
    pub fn try_clone(&self, alloc: Global) -> Result<Field, AllocError>
        ensures { IfOk result (λ f. child_of f ≡ child_of self.now) }
    {
        copy_field(alloc, self)
    }
}

impl UnionType {
    /// A copy of the union's type.
    pub fn try_clone(&self, alloc: Global) -> Result<UnionType, AllocError>
        ensures { IfOk result (λ u. union_kind_of u ≡ union_kind_of self.now) }
    {
        copy_union(alloc, self)
    }
}

impl ExtensionType {
    /// A copy of the extension's type.
    pub fn try_clone(&self, alloc: Global) -> Result<ExtensionType, AllocError>
        ensures { IfOk result (λ e. extension_kind_of e ≡ extension_kind_of self.now) }
    {
        copy_extension(alloc, self)
    }
}

fn copy_text(text: &Option<String>) -> Result<Option<String>, AllocError>
    ensures { IfOk result (λ t. option_map string_bytes t ≡ option_map string_bytes text.now) }
{
    match text {
        None => Ok(None),
        Some(text) => Ok(Some(text.clone()?)),
    }
}

fn copy_ids(alloc: Global, ids: &Option<Vec<i32>>) -> Result<Option<Vec<i32>>, AllocError>
    ensures { IfOk result (λ t. option_map (λ v. v.items) t ≡ option_map (λ v. v.items) ids.now) }
{
    match ids {
        None => Ok(None),
        Some(ids) => Ok(Some(Vec::from_slice(alloc, ids.as_slice())?)),
    }
}

/// A copy of metadata.
pub fn copy_metadata(alloc: Global, metadata: &Metadata) -> Result<Metadata, AllocError>
    ensures { IfOk result (λ m. texts_of m.entries ≡ texts_of metadata.now.entries) }
{
    let mut copies = Metadata::new(alloc);
    for (key, text) in metadata.iter() {
        let key = key.clone()?;
        let text = text.clone()?;
        drop(copies.insert(key, text)?);
    }
    Ok(copies)
}

#[cycle(copy)]
fn copy_type(alloc: Global, t: &ArrowDataType) -> Result<ArrowDataType, AllocError>
    ensures { IfOk result (λ r. kind_of r ≡ kind_of t.now) }
{
    match t {
        ArrowDataType::Null => Ok(ArrowDataType::Null),
        ArrowDataType::Boolean => Ok(ArrowDataType::Boolean),
        ArrowDataType::Int8 => Ok(ArrowDataType::Int8),
        ArrowDataType::Int16 => Ok(ArrowDataType::Int16),
        ArrowDataType::Int32 => Ok(ArrowDataType::Int32),
        ArrowDataType::Int64 => Ok(ArrowDataType::Int64),
        ArrowDataType::Int128 => Ok(ArrowDataType::Int128),
        ArrowDataType::UInt8 => Ok(ArrowDataType::UInt8),
        ArrowDataType::UInt16 => Ok(ArrowDataType::UInt16),
        ArrowDataType::UInt32 => Ok(ArrowDataType::UInt32),
        ArrowDataType::UInt64 => Ok(ArrowDataType::UInt64),
        ArrowDataType::Float16 => Ok(ArrowDataType::Float16),
        ArrowDataType::Float32 => Ok(ArrowDataType::Float32),
        ArrowDataType::Float64 => Ok(ArrowDataType::Float64),
        ArrowDataType::Date32 => Ok(ArrowDataType::Date32),
        ArrowDataType::Date64 => Ok(ArrowDataType::Date64),
        ArrowDataType::Time32(u) => Ok(ArrowDataType::Time32(*u)),
        ArrowDataType::Time64(u) => Ok(ArrowDataType::Time64(*u)),
        ArrowDataType::Duration(u) => Ok(ArrowDataType::Duration(*u)),
        ArrowDataType::Timestamp(u, zone) => Ok(ArrowDataType::Timestamp(*u, copy_text(zone)?)),
        ArrowDataType::Interval(u) => Ok(ArrowDataType::Interval(*u)),
        ArrowDataType::Binary => Ok(ArrowDataType::Binary),
        ArrowDataType::LargeBinary => Ok(ArrowDataType::LargeBinary),
        ArrowDataType::Utf8 => Ok(ArrowDataType::Utf8),
        ArrowDataType::LargeUtf8 => Ok(ArrowDataType::LargeUtf8),
        ArrowDataType::BinaryView => Ok(ArrowDataType::BinaryView),
        ArrowDataType::Utf8View => Ok(ArrowDataType::Utf8View),
        ArrowDataType::FixedSizeBinary(n) => Ok(ArrowDataType::FixedSizeBinary(*n)),
        ArrowDataType::Decimal(p, s) => Ok(ArrowDataType::Decimal(*p, *s)),
        ArrowDataType::Decimal256(p, s) => Ok(ArrowDataType::Decimal256(*p, *s)),
        ArrowDataType::List(f) => Ok(ArrowDataType::List(copy_boxed(alloc, f)?)),
        ArrowDataType::LargeList(f) => Ok(ArrowDataType::LargeList(copy_boxed(alloc, f)?)),
        ArrowDataType::FixedSizeList(f, n) => {
            Ok(ArrowDataType::FixedSizeList(copy_boxed(alloc, f)?, *n))
        }
        ArrowDataType::Map(f, sorted) => Ok(ArrowDataType::Map(copy_boxed(alloc, f)?, *sorted)),
        ArrowDataType::Struct(fields) => Ok(ArrowDataType::Struct(copy_fields(alloc, fields)?)),
        ArrowDataType::Union(u) => {
            Ok(ArrowDataType::Union(Box::new(alloc, copy_union(alloc, u)?)?))
        }
        ArrowDataType::Dictionary(index, values, ordered) => {
            let values = Box::new(alloc, copy_type(alloc, values)?)?;
            Ok(ArrowDataType::Dictionary(*index, values, *ordered))
        }
        ArrowDataType::Extension(e) => Ok(ArrowDataType::Extension(Box::new(
            alloc,
            copy_extension(alloc, e)?,
        )?)),
    }
}

#[cycle(copy)]
fn copy_boxed(alloc: Global, field: &Field) -> Result<Box<Field>, AllocError>
    ensures { IfOk result (λ r. child_of r.value ≡ child_of field.now) }
{
    Ok(Box::new(alloc, copy_field(alloc, field)?)?)
}

#[cycle(copy)]
fn copy_field(alloc: Global, field: &Field) -> Result<Field, AllocError>
    ensures { IfOk result (λ r. child_of r ≡ child_of field.now) }
{
    Ok(Field {
        name: field.name.clone()?,
        dtype: copy_type(alloc, &field.dtype)?,
        is_nullable: field.is_nullable,
        metadata: copy_metadata(alloc, &field.metadata)?,
    })
}

#[cycle(copy)]
fn copy_fields(alloc: Global, fields: &Vec<Field>) -> Result<Vec<Field>, AllocError>
    ensures { IfOk result (λ v. map child_of v.items ≡ map child_of fields.now.items) }
{
    let mut copies = Vec::with_capacity(alloc, fields.len())?;
    for field in fields {
        copies.push(copy_field(alloc, field)?)?;
    }
    Ok(copies)
}

#[cycle(copy)]
fn copy_union(alloc: Global, u: &UnionType) -> Result<UnionType, AllocError>
    ensures { IfOk result (λ r. union_kind_of r ≡ union_kind_of u.now) }
{
    Ok(UnionType {
        fields: copy_fields(alloc, &u.fields)?,
        ids: copy_ids(alloc, &u.ids)?,
        mode: u.mode,
    })
}

#[cycle(copy)]
fn copy_extension(alloc: Global, e: &ExtensionType) -> Result<ExtensionType, AllocError>
    ensures { IfOk result (λ r. extension_kind_of r ≡ extension_kind_of e.now) }
{
    Ok(ExtensionType {
        name: e.name.clone()?,
        inner: copy_type(alloc, &e.inner)?,
        metadata: copy_text(&e.metadata)?,
    })
}
