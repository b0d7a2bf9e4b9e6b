//! Fields with their children (Schema.fbs, Field).
ghost use Rattle.std.specs.Prelude.{◌≡◌, ◌+◌, ◌-◌, ◌*◌, ◌<◌, ◌≤◌, ◌++◌, ◌∷◌, [], ℕ, List, map, Ok, IfOk, IfErr, OnErr, Err, IfSome, true, false, length, string_bytes};
ghost use Rattle.std.specs.Option.{option_map};
ghost use Rattle.arrow_spec.specs.declared.error.IpcError.TheVariants.{Memory};
ghost use Rattle.ipc_fields.specs.Causes.{Decodes};
ghost use Rattle.arrow_spec.specs.Schema.{empty_vector, is_struct_of_two, first_is_struct_of_two};
ghost use Rattle.arrow_flat.specs.Read.{vector_of};
ghost use Rattle.arrow_types.specs.Child.{fields_from};
ghost use Rattle.arrow_types.specs.KindOf.{kind_of, child_of, fields_of, texts_of};
ghost use Rattle.ipc_fields.specs.IpcFields.{tree_of, ids_of, has_shape, have_shapes};
ghost use Rattle.schema_reader.specs.Parts.{entry_at, entries_at, entry_by};
ghost use Rattle.schema_reader.specs.ReadViews.{shape_kind, Takes, extended, extension_of, encoded, is_whole_shape, kind_by, head_in, before_in, entry_in, children_in};

use crate::data_type::Shape;
use crate::head::{Counted, Encoding, Extension, Form, Head, read_head};
use arrow_flat::Vector;
use arrow_spec::{IpcError, OutOfSpecKind, UnionMode};
use arrow_types::{ArrowDataType, ExtensionType, Field, Metadata, UnionType};
use ipc_fields::IpcField;
use std::alloc::Global;

/// A field and its IPC field, and how many fields and pairs of the schema there are up to their end.
#[derive(Drop)]
pub(crate) struct Entry {
    pub field: Field,
    pub ipc_field: IpcField,
    pub before: Counted,
}

/// Fields and their IPC fields, and how many fields and pairs of the schema there are up to their end.
#[derive(Drop)]
pub(crate) struct Children {
    pub fields: Vec<Field>,
    pub ipc_fields: Vec<IpcField>,
    pub before: Counted,
}

/// Whether a type is a struct of two fields, extensions looked through.
fn is_struct_of_two(dtype: &ArrowDataType) -> bool
    ensures { result ≡ is_struct_of_two (kind_of dtype.now) }
{
    match dtype {
        ArrowDataType::Struct(fields) => fields.len() == 2,
        ArrowDataType::Extension(extension) => is_struct_of_two(&extension.inner),
        _ => false,
    }
}

/// Whether the children are as the shape wants them: a map's child is a struct of two.
fn is_whole(shape: &Shape, children: &[Field]) -> bool
    ensures { result ≡ is_whole_shape shape.now (fields_from (map child_of children.now)) }
{
    match shape {
        Shape::Map(_) => match children.first() {
            None => false,
            Some(child) => is_struct_of_two(&child.dtype),
        },
        _ => true,
    }
}

/// The one child of a list or a map.
fn only_child(alloc: Global, mut children: Vec<Field>) -> Result<Box<Field>, IpcError>
    requires { length children.items ≡ 1 }
    ensures child { IfOk result (λ f. children.items ≡ f.value ∷ []) }
    ensures memory { OnErr result (result ≡ Err Memory) }
{
    let Some(child) = children.pop() else {
        return Err(IpcError::Memory);
    };
    Ok(Box::new(alloc, child)?)
}

/// A union of these children.
fn make_union(
    alloc: Global,
    fields: Vec<Field>,
    ids: Option<Vec<i32>>,
    mode: UnionMode,
) -> Result<ArrowDataType, IpcError>
    ensures gives { IfOk result (λ t. kind_of t ≡ shape_kind (length fields.items) (Shape.Union mode ids) (fields_of fields.items)) }
    ensures memory { OnErr result (result ≡ Err Memory) }
{
    let union = Box::new(alloc, UnionType { fields, ids, mode })?;
    Ok(ArrowDataType::Union(union))
}

/// The type that a shape makes of the children.
fn make_type(alloc: Global, shape: Shape, children: Vec<Field>) -> Result<ArrowDataType, IpcError>
    requires { Takes (length children.items) shape }
    ensures gives { IfOk result (λ t. kind_of t ≡ shape_kind (length children.items) shape (fields_of children.items)) }
    ensures memory { OnErr result (result ≡ Err Memory) }
{
    match shape {
        Shape::Flat(dtype) => Ok(dtype),
        Shape::List => Ok(ArrowDataType::List(only_child(alloc, children)?)),
        Shape::LargeList => Ok(ArrowDataType::LargeList(only_child(alloc, children)?)),
        Shape::FixedSizeList(size) => {
            Ok(ArrowDataType::FixedSizeList(only_child(alloc, children)?, size))
        }
        Shape::Map(is_sorted) => Ok(ArrowDataType::Map(only_child(alloc, children)?, is_sorted)),
        Shape::Struct => Ok(ArrowDataType::Struct(children)),
        Shape::Union(mode, ids) => make_union(alloc, children, ids, mode),
    }
}

/// The type under an extension's name.
fn extend(
    alloc: Global,
    inner: ArrowDataType,
    extension: Option<Extension>,
) -> Result<ArrowDataType, IpcError>
    ensures gives { IfOk result (λ t. kind_of t ≡ extended (option_map extension_of extension) (kind_of inner)) }
    ensures memory { OnErr result (result ≡ Err Memory) }
{
    let Some(extension) = extension else {
        return Ok(inner);
    };
    let whole = ExtensionType {
        name: extension.name,
        inner,
        metadata: extension.metadata,
    };
    Ok(ArrowDataType::Extension(Box::new(alloc, whole)?))
}

/// The type of keys into a dictionary of these values.
fn encode(
    alloc: Global,
    values: ArrowDataType,
    encoding: Option<Encoding>,
) -> Result<ArrowDataType, IpcError>
    ensures gives { IfOk result (λ t. kind_of t ≡ encoded encoding (kind_of values)) }
    ensures memory { OnErr result (result ≡ Err Memory) }
{
    let Some(encoding) = encoding else {
        return Ok(values);
    };
    let values = Box::new(alloc, values)?;
    Ok(ArrowDataType::Dictionary(encoding.index, values, encoding.is_ordered))
}

fn id_of(encoding: Option<Encoding>) -> Option<i64>
    ensures { result ≡ option_map (λ e. e.id) encoding }
{
    match encoding {
        None => None,
        Some(encoding) => Some(encoding.id),
    }
}

/// The type of a field with these children.
fn complete(
    alloc: Global,
    shape: Shape,
    extension: Option<Extension>,
    encoding: Option<Encoding>,
    children: Vec<Field>,
) -> Result<ArrowDataType, IpcError>
    requires { Takes (length children.items) shape }
    ensures gives { IfOk result (λ t. kind_of t ≡ encoded encoding (extended (option_map extension_of extension) (shape_kind (length children.items) shape (fields_of children.items)))) }
    ensures memory { OnErr result (result ≡ Err Memory) }
{
    let dtype = make_type(alloc, shape, children)?;
    let dtype = extend(alloc, dtype, extension)?;
    encode(alloc, dtype, encoding)
}

fn make_field(name: String, dtype: ArrowDataType, is_nullable: bool, metadata: Metadata) -> Field
    ensures { child_of result ≡ record { name = string_bytes name; kind = kind_of dtype; nullable = is_nullable; metadata = texts_of metadata.entries } }
{
    Field {
        name,
        dtype,
        is_nullable,
        metadata,
    }
}

pub(crate) fn make_ipc_field(fields: Vec<IpcField>, dictionary_id: Option<i64>) -> IpcField
    ensures { tree_of result ≡ record { id = dictionary_id; children = ids_of fields.items } }
{
    IpcField {
        fields,
        dictionary_id,
    }
}

/// A field of its head and its children.
fn make_entry(alloc: Global, head: Head<'_>, children: Children) -> Result<Entry, IpcError>
    requires count { length children.fields.items ≡ (empty_vector (vector_of head.form.children)).count }
    requires takes { Takes (length children.fields.items) head.form.shape }
    requires shapes { have_shapes (fields_of children.fields.items) (ids_of children.ipc_fields.items) ≡ true }
    ensures gives { Decodes entry_in result (entry_by (head_in head.entry) (children_in children)) }
    ensures shape { IfOk result (λ e. has_shape (child_of e.field).kind (tree_of e.ipc_field).id (tree_of e.ipc_field).children ≡ true) }
    ensures before { IfOk result (λ e. e.before ≡ children.before) }
{
    let form = head.form;
    if !is_whole(&form.shape, &children.fields) {
        return Err(IpcError::OutOfSpec(OutOfSpecKind::InvalidDataType));
    }
    let dtype = complete(
        alloc,
        form.shape,
        form.extension,
        form.encoding,
        children.fields,
    )?;
    let field = make_field(head.name, dtype, head.is_nullable, form.metadata);
    let ipc_field = make_ipc_field(children.ipc_fields, id_of(form.encoding));
    Ok(Entry {
        field,
        ipc_field,
        before: children.before,
    })
}

/// One more field at the end.
fn push_entry(children: &mut Children, entry: Entry) -> Result<(), IpcError>
    ensures fields { IfOk result (λ _. children.new.fields.items ≡ children.old.fields.items ++ entry.field ∷ []) }
    ensures ipc_fields { IfOk result (λ _. children.new.ipc_fields.items ≡ children.old.ipc_fields.items ++ entry.ipc_field ∷ []) }
    ensures before { IfOk result (λ _. children.new.before ≡ entry.before) }
    ensures memory { OnErr result (result ≡ Err Memory) }
{
    children.fields.push(entry.field)?;
    children.ipc_fields.push(entry.ipc_field)?;
    children.before = entry.before;
    Ok(())
}

/// One of the fields of a vector, of at most so many levels.
#[cycle(read)]
fn read_field(
    alloc: Global,
    levels: usize,
    fields: &Vector<'_>,
    i: usize,
    before: Counted,
) -> Result<Entry, IpcError>
    requires width { fields.now.width ≡ 4 }
    requires within { i < fields.now.vector.count }
    requires pairs { before.pairs ≤ 1048576 }
    ensures gives { Decodes entry_in result (entry_at levels fields.now.bytes (fields.now.vector.first + 4 * i) (before_in before)) }
    ensures shape { IfOk result (λ e. has_shape (child_of e.field).kind (tree_of e.ipc_field).id (tree_of e.ipc_field).children ≡ true) }
    ensures few { IfOk result (λ e. e.before.pairs ≤ 1048576) }
{
    if levels == 0 {
        return Err(IpcError::TooDeep);
    }
    let head = read_head(alloc, fields, i, before)?;
    let children = read_below(alloc, levels - 1, &head.form.children, head.before)?;
    make_entry(alloc, head, children)
}

/// The children of a field, none where it has no vector of them.
#[cycle(read)]
fn read_below(
    alloc: Global,
    levels: usize,
    children: &Option<Vector<'_>>,
    before: Counted,
) -> Result<Children, IpcError>
    requires width { IfSome children.now (λ v. v.width ≡ 4) }
    requires pairs { before.pairs ≤ 1048576 }
    ensures gives { (b : List ℕ) → IfSome children.now (λ v. v.bytes ≡ b) → Decodes children_in result (entries_at levels b (empty_vector (vector_of children.now)) (before_in before)) }
    ensures count { IfOk result (λ c. length c.fields.items ≡ (empty_vector (vector_of children.now)).count) }
    ensures shapes { IfOk result (λ c. have_shapes (fields_of c.fields.items) (ids_of c.ipc_fields.items) ≡ true) }
    ensures few { IfOk result (λ c. c.before.pairs ≤ 1048576) }
{
    match children {
        None => Ok(Children {
            fields: Vec::new(alloc),
            ipc_fields: Vec::new(alloc),
            before,
        }),
        Some(children) => read_fields(alloc, levels, children, before),
    }
}

/// The fields of a vector, of at most so many levels.
#[cycle(read)]
pub(crate) fn read_fields(
    alloc: Global,
    levels: usize,
    fields: &Vector<'_>,
    before: Counted,
) -> Result<Children, IpcError>
    requires width { fields.now.width ≡ 4 }
    requires pairs { before.pairs ≤ 1048576 }
    ensures gives { Decodes children_in result (entries_at levels fields.now.bytes fields.now.vector (before_in before)) }
    ensures count { IfOk result (λ c. length c.fields.items ≡ fields.now.vector.count) }
    ensures shapes { IfOk result (λ c. have_shapes (fields_of c.fields.items) (ids_of c.ipc_fields.items) ≡ true) }
    ensures few { IfOk result (λ c. c.before.pairs ≤ 1048576) }
{
    let mut read = Children {
        fields: Vec::new(alloc),
        ipc_fields: Vec::new(alloc),
        before,
    };
    for i in 0..fields.len() {
        let entry = read_field(alloc, levels, fields, i, read.before)?;
        push_entry(&mut read, entry)?;
    }
    Ok(read)
}
