//! Fields before their children (Schema.fbs, Field and DictionaryEncoding).
ghost use Rattle.std.specs.Prelude.{◌≡◌, ◌+◌, ◌*◌, ◌<◌, ◌≤◌, Ok, IfOk, IfErr, OnErr, Err, IfSome, false, length, string_bytes};
ghost use Rattle.std.specs.Option.{option_map};
ghost use Rattle.ipc_fields.specs.Causes.{Decodes};
ghost use Rattle.arrow_spec.specs.Schema.{is_nested, encoding_at, children_at, empty_vector, without_key, extension_name, extension_metadata};
ghost use Rattle.arrow_flat.specs.Read.{vector_of, TableIn};
ghost use Rattle.arrow_types.specs.KindOf.{texts_of};
ghost use Rattle.arrow_types.specs.Extensions.{extension_in};
ghost use Rattle.schema_reader.specs.Parts.{name_at, index_at, tagged_at, form_at, head_by, head_from};
ghost use Rattle.schema_reader.specs.ReadViews.{tag_in, tagged_in, Takes, encoding_in, extension_of, before_in, form_in, head_in};

use crate::data_type::{Shape, TypeTag, read_bool, read_integer, tag_of};
use crate::pairs::{read_metadata, read_text};
use crate::shape::read_shape;
use arrow_flat::{Table, Vector};
use arrow_spec::{Counted as Limit, IntegerType, IpcError, OutOfSpecKind};
use arrow_types::Metadata;
use std::alloc::Global;

/// How many fields and pairs of a schema stand before a place.
#[derive(Clone, Copy, Debug, PartialEq, Eq)]
pub(crate) struct Counted {
    pub fields: usize,
    pub pairs: usize,
}

/// The name and the metadata of an extension type (Arrow Columnar Format, "Extension Types").
#[derive(Drop)]
pub(crate) struct Extension {
    pub name: String,
    pub metadata: Option<String>,
}

/// A dictionary's index type, whether its values are in order, and its id.
#[derive(Clone, Copy, Debug, PartialEq, Eq)]
pub(crate) struct Encoding {
    pub index: IntegerType,
    pub is_ordered: bool,
    pub id: i64,
}

/// A field's type before its children, the field's metadata, its children's vector, and how many pairs of the schema
/// there are up to the end of its own.
#[derive(Drop)]
pub(crate) struct Form<'a> {
    pub shape: Shape,
    pub extension: Option<Extension>,
    pub encoding: Option<Encoding>,
    pub metadata: Metadata,
    pub children: Option<Vector<'a>>,
    pub pairs: usize,
}

/// A field before its children, and how many fields and pairs of the schema there are up to them.
#[derive(Drop)]
pub(crate) struct Head<'a> {
    pub name: String,
    pub is_nullable: bool,
    pub form: Form<'a>,
    pub before: Counted,
}

/// The tag of a type, and its type table.
#[derive(Drop)]
pub(crate) struct Tagged<'a> {
    pub tag: TypeTag,
    pub table: Table<'a>,
}

/// The name of a field, empty where it is absent.
#[tactic(auto, unfolding(arrow_spec::specs::Readings::bind, crate::specs::Parts::name_at))]
fn read_name(alloc: Global, table: &Table<'_>) -> Result<String, IpcError>
    ensures gives { Decodes string_bytes result (name_at table.now.bytes table.now.table) }
{
    match read_text(alloc, table, 0)? {
        None => Ok(String::new(alloc)),
        Some(name) => Ok(name),
    }
}

/// The type table of a field.
#[tactic(auto, unfolding(arrow_spec::specs::Readings::bind, crate::specs::Parts::tagged_at))]
fn read_tagged<'a>(table: &Table<'a>) -> Result<Tagged<'a>, IpcError>
    ensures gives { Decodes tagged_in result (tagged_at table.now.bytes table.now.table) }
    ensures bytes { IfOk result (λ t. t.table.bytes ≡ table.now.bytes) }
{
    let number = table.slot_u8(2, 0).map_err(|e| IpcError::OutOfSpec(
        OutOfSpecKind::InvalidFlatbufferSchema(e),
    ))?;
    let tag = tag_of(number)?;
    let found = table.slot_table(3).map_err(|e| IpcError::OutOfSpec(
        OutOfSpecKind::InvalidFlatbufferSchema(e),
    ))?;
    let Some(found) = found else {
        return Err(IpcError::OutOfSpec(OutOfSpecKind::MissingType));
    };
    Ok(Tagged { tag, table: found })
}

/// The index type of a dictionary, Int32 where it is absent.
#[tactic(auto, unfolding(arrow_spec::specs::Readings::bind))]
fn read_index(table: &Table<'_>) -> Result<IntegerType, IpcError>
    ensures gives { Decodes (λ i. i) result (index_at table.now.bytes table.now.table) }
{
    let index = table.slot_table(1).map_err(|e| IpcError::OutOfSpec(
        OutOfSpecKind::InvalidFlatbufferSchema(e),
    ))?;
    match index {
        None => Ok(IntegerType::Int32),
        Some(index) => read_integer(&index),
    }
}

/// A field's dictionary.
#[tactic(auto, unfolding(arrow_spec::specs::Readings::bind, arrow_spec::specs::Schema::encoding_at))]
fn read_encoding(table: &Table<'_>) -> Result<Option<Encoding>, IpcError>
    ensures gives { Decodes (option_map encoding_in) result (encoding_at table.now.bytes table.now.table) }
{
    let encoding = table.slot_table(4).map_err(|e| IpcError::OutOfSpec(
        OutOfSpecKind::InvalidFlatbufferSchema(e),
    ))?;
    let Some(encoding) = encoding else {
        return Ok(None);
    };
    let id = encoding.slot_i64(0, 0).map_err(|e| IpcError::OutOfSpec(
        OutOfSpecKind::InvalidFlatbufferSchema(e),
    ))?;
    let index = read_index(&encoding)?;
    let is_ordered = read_bool(&encoding, 2)?;
    Ok(Some(Encoding {
        index,
        is_ordered,
        id,
    }))
}

/// The vector of a field's children, which is looked at where the type has children.
#[tactic(auto, unfolding(arrow_spec::specs::Readings::bind))]
fn read_children<'a>(table: &Table<'a>, tag: TypeTag) -> Result<Option<Vector<'a>>, IpcError>
    ensures gives { Decodes (λ v. empty_vector (vector_of v)) result (children_at table.now.bytes table.now.table (tag_in tag)) }
    ensures bytes { IfOk result (λ o. IfSome o (λ v. (v.bytes ≡ table.now.bytes) × (v.width ≡ 4))) }
    ensures none { IfOk result (λ o. is_nested (tag_in tag) ≡ false → (empty_vector (vector_of o)).count ≡ 0) }
{
    if !tag.is_nested() {
        return Ok(None);
    }
    let children = table.slot_vector(5, 4).map_err(|e| IpcError::OutOfSpec(
        OutOfSpecKind::InvalidFlatbufferSchema(e),
    ))?;
    Ok(children)
}

/// Takes the pairs of an extension type out of a field's metadata.
fn take_extension(metadata: &mut Metadata) -> Option<Extension>
    ensures extension { option_map extension_of result ≡ extension_in (texts_of metadata.old.entries) }
    ensures left { texts_of metadata.new.entries ≡ without_key extension_name (without_key extension_metadata (texts_of metadata.old.entries)) }
{
    let parameters = metadata.remove("ARROW:extension:metadata");
    match metadata.remove("ARROW:extension:name") {
        None => None,
        Some(name) => Some(Extension {
            name,
            metadata: parameters,
        }),
    }
}

/// The number of children in a vector.
fn count_of(children: &Option<Vector<'_>>) -> usize
    ensures { result ≡ (empty_vector (vector_of children.now)).count }
{
    match children {
        None => 0,
        Some(children) => children.len(),
    }
}

/// A field's type before its children.
#[tactic(auto, unfolding(arrow_spec::specs::Readings::bind, crate::specs::Parts::form_at))]
fn read_form<'a>(
    alloc: Global,
    table: &Table<'a>,
    tagged: &Tagged<'a>,
    pairs: usize,
) -> Result<Form<'a>, IpcError>
    requires few { pairs ≤ 1048576 }
    requires bytes { tagged.now.table.bytes ≡ table.now.bytes }
    ensures gives { Decodes form_in result (form_at table.now.bytes table.now.table (tag_in tagged.now.tag) tagged.now.table.table pairs) }
    ensures takes { IfOk result (λ f. Takes (empty_vector (vector_of f.children)).count f.shape) }
    ensures bytes { IfOk result (λ f. IfSome f.children (λ v. (v.bytes ≡ table.now.bytes) × (v.width ≡ 4))) }
    ensures few { IfOk result (λ f. f.pairs ≤ 1048576) }
{
    let encoding = read_encoding(table)?;
    let children = read_children(table, tagged.tag)?;
    let read = read_metadata(alloc, table, 6, pairs)?;
    let count = count_of(&children);
    let shape = read_shape(alloc, tagged.tag, &tagged.table, count)?;
    let mut metadata = read.metadata;
    let extension = take_extension(&mut metadata);
    Ok(Form {
        shape,
        extension,
        encoding,
        metadata,
        children,
        pairs: read.counted,
    })
}

/// A field by its table, before its children.
#[tactic(auto, unfolding(arrow_spec::specs::Readings::bind, crate::specs::Parts::head_by))]
fn read_table<'a>(alloc: Global, table: &Table<'a>, before: Counted) -> Result<Head<'a>, IpcError>
    requires fields { before.fields < 65536 }
    requires pairs { before.pairs ≤ 1048576 }
    ensures gives { Decodes head_in result (head_by table.now.bytes table.now.table (before_in before)) }
    ensures takes { IfOk result (λ h. Takes (empty_vector (vector_of h.form.children)).count h.form.shape) }
    ensures bytes { IfOk result (λ h. IfSome h.form.children (λ v. (v.bytes ≡ table.now.bytes) × (v.width ≡ 4))) }
    ensures few { IfOk result (λ h. h.before.pairs ≤ 1048576) }
{
    let name = read_name(alloc, table)?;
    let is_nullable = read_bool(table, 1)?;
    let tagged = read_tagged(table)?;
    let form = read_form(alloc, table, &tagged, before.pairs)?;
    let pairs = form.pairs;
    Ok(Head {
        name,
        is_nullable,
        form,
        before: Counted {
            fields: before.fields + 1,
            pairs,
        },
    })
}

/// One of the fields of a vector, before its children.
#[tactic(auto, using(ipc_fields::proofs::Steps::table_in), unfolding(arrow_spec::specs::Readings::bind, crate::specs::Parts::head_from))]
pub(crate) fn read_head<'a>(
    alloc: Global,
    fields: &Vector<'a>,
    i: usize,
    before: Counted,
) -> Result<Head<'a>, IpcError>
    requires width { fields.now.width ≡ 4 }
    requires within { i < fields.now.vector.count }
    requires pairs { before.pairs ≤ 1048576 }
    ensures gives { Decodes head_in result (head_from fields.now.bytes (fields.now.vector.first + 4 * i) (before_in before)) }
    ensures takes { IfOk result (λ h. Takes (empty_vector (vector_of h.form.children)).count h.form.shape) }
    ensures bytes { IfOk result (λ h. IfSome h.form.children (λ v. (v.bytes ≡ fields.now.bytes) × (v.width ≡ 4))) }
    ensures few { IfOk result (λ h. h.before.pairs ≤ 1048576) }
{
    if before.fields >= 65_536 {
        return Err(IpcError::TooMany(Limit::Fields));
    }
    let table = fields.get_table(i).map_err(|e| IpcError::OutOfSpec(
        OutOfSpecKind::InvalidFlatbufferSchema(e),
    ))?;
    read_table(alloc, &table, before)
}
