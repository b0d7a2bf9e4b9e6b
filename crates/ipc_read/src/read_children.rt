//! Arrays with children, by their kind (Arrow Columnar Format, "Variable-size List Layout", "Fixed-Size List Layout", "Map Layout", "Struct Layout", "Union Layout").
ghost use Rattle.std.specs.Prelude.{◌≡◌, [], true, None, IfOk};
ghost use Rattle.arrow_spec.specs.ArrayCells.{cell};
ghost use Rattle.arrow_spec.specs.Arrays.{from_on};
ghost use Rattle.arrow_types.specs.KindOf.{kind_of};
ghost use Rattle.arrow_types.specs.Physical.{physical_of};
ghost use Rattle.arrow_types.specs.declared.physical.PhysicalType.TheVariants as physical;
ghost use Rattle.arrow_arrays.specs.Carried.{is_carried};
ghost use Rattle.arrow_arrays.specs.Parts.{kind_in, rows_in, cells_in, fault_in};
ghost use Rattle.arrow_arrays.specs.PartsOf.{parts_of};
ghost use Rattle.arrow_arrays.specs.declared.array.Array.TheVariants as arrays;
ghost use Rattle.ipc_io.specs.Outside.{LeavesFaults, SourceKept};
ghost use Rattle.ipc_read_laws.specs.Held.{HasKinds};
ghost use Rattle.ipc_read_laws.specs.PartsRead.{parts_read};
ghost use Rattle.ipc_read.specs.Held.{held_in, field_kind};
ghost use Rattle.ipc_read.specs.Queues.{ShortenedBy};
ghost use Rattle.ipc_read.specs.Readers.{Readable, HasReadCause, TreeTaken, TreeGiven, TreeFetched};
ghost use Rattle.ipc_read.specs.Readings.{is_of_lists};

use crate::Body;
use crate::dictionaries::Dictionaries;
use crate::reading::read_next;
use arrow_arrays::{Array, FixedSizeListArray, ListArray, MapArray, StructArray, UnionArray};
use arrow_spec::{FieldNode, IpcBuffer, IpcError, MetadataVersion};
use arrow_types::ArrowDataType;
use ipc_fields::IpcField;
use ipc_schema::Source;
use std::alloc::Global;
use std::collections::VecDeque;

/// Reads how many rows an array has, by which it is known to be sound.
fn known(array: Array) -> Array
    ensures same { result ≡ array }
    ensures sound { fault_in (parts_of array) ≡ None }
{
    let _rows = array.len();
    array
}

/// The array of lists that an array is.
fn into_list(array: Array) -> ListArray
    requires kind { is_of_lists (physical_of (kind_in (parts_of array))) ≡ true }
    ensures parts { parts_of (arrays.List result) ≡ parts_of array }
{
    match known(array).into_list() {
        Some(lists) => lists,
        None => unreachable!(),
    }
}

/// The array of lists of one size that an array is.
fn into_fixed_size_list(array: Array) -> FixedSizeListArray
    requires kind { physical_of (kind_in (parts_of array)) ≡ physical.FixedSizeList }
    ensures parts { parts_of (arrays.FixedSizeList result) ≡ parts_of array }
{
    match known(array).into_fixed_size_list() {
        Some(lists) => lists,
        None => unreachable!(),
    }
}

/// The array of structs that an array is.
fn into_struct(array: Array) -> StructArray
    requires kind { physical_of (kind_in (parts_of array)) ≡ physical.Struct }
    ensures parts { parts_of (arrays.Struct result) ≡ parts_of array }
{
    match known(array).into_struct() {
        Some(structs) => structs,
        None => unreachable!(),
    }
}

/// The array of maps that an array is.
fn into_map(array: Array) -> MapArray
    requires kind { physical_of (kind_in (parts_of array)) ≡ physical.Map }
    ensures parts { parts_of (arrays.Map result) ≡ parts_of array }
{
    match known(array).into_map() {
        Some(maps) => maps,
        None => unreachable!(),
    }
}

/// The array of unions that an array is.
fn into_union(array: Array) -> UnionArray
    requires kind { physical_of (kind_in (parts_of array)) ≡ physical.Union }
    ensures parts { parts_of (arrays.Union result) ≡ parts_of array }
{
    match known(array).into_union() {
        Some(unions) => unions,
        None => unreachable!(),
    }
}

/// The next array of lists, as far as its first rows go, with its children. The type, extensions looked through, is one
/// of lists between offsets of either width, and one that `is_carried` tells. The call goes as deep as the type's tree.
///
/// # Errors
///
/// As `read`.
pub fn read_list<S: Source>(
    alloc: Global,
    nodes: &mut VecDeque<FieldNode>,
    variadic: &mut VecDeque<i64>,
    dtype: &ArrowDataType,
    ipc_field: &IpcField,
    buffers: &mut VecDeque<IpcBuffer>,
    source: &mut S,
    dictionaries: &Dictionaries,
    body: Body,
    is_little_endian: bool,
    rows: usize,
    version: MetadataVersion,
    scratch: &mut Vec<u8>,
) -> Result<ListArray, IpcError>
    requires kind { is_of_lists (physical_of (kind_of dtype.now)) ≡ true }
    requires held { is_carried (kind_of dtype.now) ≡ true }
    requires kinds { HasKinds (held_in dictionaries.now) (field_kind dtype.now ipc_field.now) }
    requires readable { Readable (S.content source.old) body }
    ensures queues { TreeTaken (field_kind dtype.now ipc_field.now) version nodes.old.items nodes.new.items buffers.old.items buffers.new.items variadic.old.items variadic.new.items result }
    ensures parts { TreeGiven (S.content source.old) body is_little_endian version nodes.old.items buffers.old.items variadic.old.items (held_in dictionaries.now) (λ a. parts_of (arrays.List a)) result (field_kind dtype.now ipc_field.now) rows (λ m d p. parts_read m (held_in dictionaries.now) (field_kind dtype.now ipc_field.now) p rows) }
    ensures shortened { ShortenedBy (field_kind dtype.now ipc_field.now) version nodes.old.items nodes.new.items buffers.old.items buffers.new.items variadic.old.items variadic.new.items }
    ensures shape { IfOk result (λ a. (kind_in (parts_of (arrays.List a)) ≡ kind_of dtype.now) × (rows_in (parts_of (arrays.List a)) ≡ rows)) }
    ensures cause { HasReadCause (S.faults source.old) (S.faults source.new) result }
    ensures faults_stay { LeavesFaults (S.faults source.old) (S.faults source.new) result }
    ensures kept { SourceKept S.content S.faults S.references source.old source.new }
    ensures fetched { TreeFetched (field_kind dtype.now ipc_field.now) version nodes.old.items buffers.old.items variadic.old.items rows (S.fetched source.old) (S.fetched source.new) }
    ensures cells { TreeGiven (S.content source.old) body is_little_endian version nodes.old.items buffers.old.items variadic.old.items (held_in dictionaries.now) (λ a. cells_in (parts_of (arrays.List a))) result (field_kind dtype.now ipc_field.now) rows (λ m d p. from_on (cell m d (field_kind dtype.now ipc_field.now) p) 0 rows) }
{
    let array = read_next(
        alloc,
        nodes,
        variadic,
        dtype,
        ipc_field.dictionary_id,
        ipc_field.fields.as_slice(),
        buffers,
        source,
        dictionaries,
        body,
        is_little_endian,
        rows,
        version,
    )?;
    Ok(into_list(array))
}

/// The next array of lists of one size, as far as its first rows go, with its children. The type, extensions looked through, is one
/// of lists of one size, and one that `is_carried` tells. The call goes as deep as the type's tree.
///
/// # Errors
///
/// As `read`.
pub fn read_fixed_size_list<S: Source>(
    alloc: Global,
    nodes: &mut VecDeque<FieldNode>,
    variadic: &mut VecDeque<i64>,
    dtype: &ArrowDataType,
    ipc_field: &IpcField,
    buffers: &mut VecDeque<IpcBuffer>,
    source: &mut S,
    dictionaries: &Dictionaries,
    body: Body,
    is_little_endian: bool,
    rows: usize,
    version: MetadataVersion,
    scratch: &mut Vec<u8>,
) -> Result<FixedSizeListArray, IpcError>
    requires kind { physical_of (kind_of dtype.now) ≡ physical.FixedSizeList }
    requires held { is_carried (kind_of dtype.now) ≡ true }
    requires kinds { HasKinds (held_in dictionaries.now) (field_kind dtype.now ipc_field.now) }
    requires readable { Readable (S.content source.old) body }
    ensures queues { TreeTaken (field_kind dtype.now ipc_field.now) version nodes.old.items nodes.new.items buffers.old.items buffers.new.items variadic.old.items variadic.new.items result }
    ensures parts { TreeGiven (S.content source.old) body is_little_endian version nodes.old.items buffers.old.items variadic.old.items (held_in dictionaries.now) (λ a. parts_of (arrays.FixedSizeList a)) result (field_kind dtype.now ipc_field.now) rows (λ m d p. parts_read m (held_in dictionaries.now) (field_kind dtype.now ipc_field.now) p rows) }
    ensures shortened { ShortenedBy (field_kind dtype.now ipc_field.now) version nodes.old.items nodes.new.items buffers.old.items buffers.new.items variadic.old.items variadic.new.items }
    ensures shape { IfOk result (λ a. (kind_in (parts_of (arrays.FixedSizeList a)) ≡ kind_of dtype.now) × (rows_in (parts_of (arrays.FixedSizeList a)) ≡ rows)) }
    ensures cause { HasReadCause (S.faults source.old) (S.faults source.new) result }
    ensures faults_stay { LeavesFaults (S.faults source.old) (S.faults source.new) result }
    ensures kept { SourceKept S.content S.faults S.references source.old source.new }
    ensures fetched { TreeFetched (field_kind dtype.now ipc_field.now) version nodes.old.items buffers.old.items variadic.old.items rows (S.fetched source.old) (S.fetched source.new) }
    ensures cells { TreeGiven (S.content source.old) body is_little_endian version nodes.old.items buffers.old.items variadic.old.items (held_in dictionaries.now) (λ a. cells_in (parts_of (arrays.FixedSizeList a))) result (field_kind dtype.now ipc_field.now) rows (λ m d p. from_on (cell m d (field_kind dtype.now ipc_field.now) p) 0 rows) }
{
    let array = read_next(
        alloc,
        nodes,
        variadic,
        dtype,
        ipc_field.dictionary_id,
        ipc_field.fields.as_slice(),
        buffers,
        source,
        dictionaries,
        body,
        is_little_endian,
        rows,
        version,
    )?;
    Ok(into_fixed_size_list(array))
}

/// The next array of structs, as far as its first rows go, with its children. The type, extensions looked through, is one
/// of structs, and one that `is_carried` tells. The call goes as deep as the type's tree.
///
/// # Errors
///
/// As `read`.
pub fn read_struct<S: Source>(
    alloc: Global,
    nodes: &mut VecDeque<FieldNode>,
    variadic: &mut VecDeque<i64>,
    dtype: &ArrowDataType,
    ipc_field: &IpcField,
    buffers: &mut VecDeque<IpcBuffer>,
    source: &mut S,
    dictionaries: &Dictionaries,
    body: Body,
    is_little_endian: bool,
    rows: usize,
    version: MetadataVersion,
    scratch: &mut Vec<u8>,
) -> Result<StructArray, IpcError>
    requires kind { physical_of (kind_of dtype.now) ≡ physical.Struct }
    requires held { is_carried (kind_of dtype.now) ≡ true }
    requires kinds { HasKinds (held_in dictionaries.now) (field_kind dtype.now ipc_field.now) }
    requires readable { Readable (S.content source.old) body }
    ensures queues { TreeTaken (field_kind dtype.now ipc_field.now) version nodes.old.items nodes.new.items buffers.old.items buffers.new.items variadic.old.items variadic.new.items result }
    ensures parts { TreeGiven (S.content source.old) body is_little_endian version nodes.old.items buffers.old.items variadic.old.items (held_in dictionaries.now) (λ a. parts_of (arrays.Struct a)) result (field_kind dtype.now ipc_field.now) rows (λ m d p. parts_read m (held_in dictionaries.now) (field_kind dtype.now ipc_field.now) p rows) }
    ensures shortened { ShortenedBy (field_kind dtype.now ipc_field.now) version nodes.old.items nodes.new.items buffers.old.items buffers.new.items variadic.old.items variadic.new.items }
    ensures shape { IfOk result (λ a. (kind_in (parts_of (arrays.Struct a)) ≡ kind_of dtype.now) × (rows_in (parts_of (arrays.Struct a)) ≡ rows)) }
    ensures cause { HasReadCause (S.faults source.old) (S.faults source.new) result }
    ensures faults_stay { LeavesFaults (S.faults source.old) (S.faults source.new) result }
    ensures kept { SourceKept S.content S.faults S.references source.old source.new }
    ensures fetched { TreeFetched (field_kind dtype.now ipc_field.now) version nodes.old.items buffers.old.items variadic.old.items rows (S.fetched source.old) (S.fetched source.new) }
    ensures cells { TreeGiven (S.content source.old) body is_little_endian version nodes.old.items buffers.old.items variadic.old.items (held_in dictionaries.now) (λ a. cells_in (parts_of (arrays.Struct a))) result (field_kind dtype.now ipc_field.now) rows (λ m d p. from_on (cell m d (field_kind dtype.now ipc_field.now) p) 0 rows) }
{
    let array = read_next(
        alloc,
        nodes,
        variadic,
        dtype,
        ipc_field.dictionary_id,
        ipc_field.fields.as_slice(),
        buffers,
        source,
        dictionaries,
        body,
        is_little_endian,
        rows,
        version,
    )?;
    Ok(into_struct(array))
}

/// The next array of maps, as far as its first rows go, with its children. The type, extensions looked through, is one
/// of maps, and one that `is_carried` tells. The call goes as deep as the type's tree.
///
/// # Errors
///
/// As `read`.
pub fn read_map<S: Source>(
    alloc: Global,
    nodes: &mut VecDeque<FieldNode>,
    variadic: &mut VecDeque<i64>,
    dtype: &ArrowDataType,
    ipc_field: &IpcField,
    buffers: &mut VecDeque<IpcBuffer>,
    source: &mut S,
    dictionaries: &Dictionaries,
    body: Body,
    is_little_endian: bool,
    rows: usize,
    version: MetadataVersion,
    scratch: &mut Vec<u8>,
) -> Result<MapArray, IpcError>
    requires kind { physical_of (kind_of dtype.now) ≡ physical.Map }
    requires held { is_carried (kind_of dtype.now) ≡ true }
    requires kinds { HasKinds (held_in dictionaries.now) (field_kind dtype.now ipc_field.now) }
    requires readable { Readable (S.content source.old) body }
    ensures queues { TreeTaken (field_kind dtype.now ipc_field.now) version nodes.old.items nodes.new.items buffers.old.items buffers.new.items variadic.old.items variadic.new.items result }
    ensures parts { TreeGiven (S.content source.old) body is_little_endian version nodes.old.items buffers.old.items variadic.old.items (held_in dictionaries.now) (λ a. parts_of (arrays.Map a)) result (field_kind dtype.now ipc_field.now) rows (λ m d p. parts_read m (held_in dictionaries.now) (field_kind dtype.now ipc_field.now) p rows) }
    ensures shortened { ShortenedBy (field_kind dtype.now ipc_field.now) version nodes.old.items nodes.new.items buffers.old.items buffers.new.items variadic.old.items variadic.new.items }
    ensures shape { IfOk result (λ a. (kind_in (parts_of (arrays.Map a)) ≡ kind_of dtype.now) × (rows_in (parts_of (arrays.Map a)) ≡ rows)) }
    ensures cause { HasReadCause (S.faults source.old) (S.faults source.new) result }
    ensures faults_stay { LeavesFaults (S.faults source.old) (S.faults source.new) result }
    ensures kept { SourceKept S.content S.faults S.references source.old source.new }
    ensures fetched { TreeFetched (field_kind dtype.now ipc_field.now) version nodes.old.items buffers.old.items variadic.old.items rows (S.fetched source.old) (S.fetched source.new) }
    ensures cells { TreeGiven (S.content source.old) body is_little_endian version nodes.old.items buffers.old.items variadic.old.items (held_in dictionaries.now) (λ a. cells_in (parts_of (arrays.Map a))) result (field_kind dtype.now ipc_field.now) rows (λ m d p. from_on (cell m d (field_kind dtype.now ipc_field.now) p) 0 rows) }
{
    let array = read_next(
        alloc,
        nodes,
        variadic,
        dtype,
        ipc_field.dictionary_id,
        ipc_field.fields.as_slice(),
        buffers,
        source,
        dictionaries,
        body,
        is_little_endian,
        rows,
        version,
    )?;
    Ok(into_map(array))
}

/// The next array of unions, as far as its first rows go, with its children. The type, extensions looked through, is one
/// of unions, and one that `is_carried` tells. The call goes as deep as the type's tree.
///
/// # Errors
///
/// As `read`.
pub fn read_union<S: Source>(
    alloc: Global,
    nodes: &mut VecDeque<FieldNode>,
    variadic: &mut VecDeque<i64>,
    dtype: &ArrowDataType,
    ipc_field: &IpcField,
    buffers: &mut VecDeque<IpcBuffer>,
    source: &mut S,
    dictionaries: &Dictionaries,
    body: Body,
    is_little_endian: bool,
    rows: usize,
    version: MetadataVersion,
    scratch: &mut Vec<u8>,
) -> Result<UnionArray, IpcError>
    requires kind { physical_of (kind_of dtype.now) ≡ physical.Union }
    requires held { is_carried (kind_of dtype.now) ≡ true }
    requires kinds { HasKinds (held_in dictionaries.now) (field_kind dtype.now ipc_field.now) }
    requires readable { Readable (S.content source.old) body }
    ensures queues { TreeTaken (field_kind dtype.now ipc_field.now) version nodes.old.items nodes.new.items buffers.old.items buffers.new.items variadic.old.items variadic.new.items result }
    ensures parts { TreeGiven (S.content source.old) body is_little_endian version nodes.old.items buffers.old.items variadic.old.items (held_in dictionaries.now) (λ a. parts_of (arrays.Union a)) result (field_kind dtype.now ipc_field.now) rows (λ m d p. parts_read m (held_in dictionaries.now) (field_kind dtype.now ipc_field.now) p rows) }
    ensures shortened { ShortenedBy (field_kind dtype.now ipc_field.now) version nodes.old.items nodes.new.items buffers.old.items buffers.new.items variadic.old.items variadic.new.items }
    ensures shape { IfOk result (λ a. (kind_in (parts_of (arrays.Union a)) ≡ kind_of dtype.now) × (rows_in (parts_of (arrays.Union a)) ≡ rows)) }
    ensures cause { HasReadCause (S.faults source.old) (S.faults source.new) result }
    ensures faults_stay { LeavesFaults (S.faults source.old) (S.faults source.new) result }
    ensures kept { SourceKept S.content S.faults S.references source.old source.new }
    ensures fetched { TreeFetched (field_kind dtype.now ipc_field.now) version nodes.old.items buffers.old.items variadic.old.items rows (S.fetched source.old) (S.fetched source.new) }
    ensures cells { TreeGiven (S.content source.old) body is_little_endian version nodes.old.items buffers.old.items variadic.old.items (held_in dictionaries.now) (λ a. cells_in (parts_of (arrays.Union a))) result (field_kind dtype.now ipc_field.now) rows (λ m d p. from_on (cell m d (field_kind dtype.now ipc_field.now) p) 0 rows) }
{
    let array = read_next(
        alloc,
        nodes,
        variadic,
        dtype,
        ipc_field.dictionary_id,
        ipc_field.fields.as_slice(),
        buffers,
        source,
        dictionaries,
        body,
        is_little_endian,
        rows,
        version,
    )?;
    Ok(into_union(array))
}
