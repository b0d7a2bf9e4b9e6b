//! Keys of dictionaries (Arrow Columnar Format, "Dictionary-encoded Layout").
ghost use Rattle.std.specs.Prelude.{◌≡◌, ◌⊎◌, length, true, false, Some, None, IfOk, IfErr, IfSome, IfNone};
ghost use Rattle.arrow_spec.specs.Kinds.{Kind, integer};
ghost use Rattle.arrow_spec.specs.Arrays.{from_on};
ghost use Rattle.arrow_spec.specs.ArrayCells.{cell};
ghost use Rattle.arrow_spec.specs.declared.error.IpcError.TheVariants.{Memory};
ghost use Rattle.arrow_buffers.specs.declared.error.ArrayError.TheVariants.{Key};
ghost use Rattle.arrow_types.specs.KindOf.{kind_of};
ghost use Rattle.arrow_types.specs.Physical.{physical_of, under_extensions};
ghost use Rattle.arrow_buffers.specs.Layouts.{is_primitive};
ghost use Rattle.arrow_arrays.specs.Carried.{is_carried};
ghost use Rattle.arrow_arrays.specs.Heads.{indexed, is_dictionary, values_kind, each_of};
ghost use Rattle.arrow_arrays.specs.KeysOf.{keys_in, key_validity_in, index_in, indexed_by};
ghost use Rattle.arrow_arrays.specs.Parts.{none, also, nested, kind_in, rows_in, cells_in, kinds_each, fault_in, fault_each};
ghost use Rattle.arrow_arrays.specs.PartsOf.{parts_of, forest_of};
ghost use Rattle.arrow_arrays.specs.declared.array.Array.TheVariants as arrays;
ghost use Rattle.ipc_fields.specs.IpcFields.{no_fields, kind_with};
ghost use Rattle.ipc_fields.specs.Uses.{id_under};
ghost use Rattle.ipc_io.specs.Outside.{LeavesFaults, SourceKept};
ghost use Rattle.ipc_read_laws.specs.Held.{HoldsKinds, HasKinds};
ghost use Rattle.ipc_read_laws.specs.Laws.{key_refusal};
ghost use Rattle.ipc_read_laws.specs.PartsRead.{primitive_read, indexed_read, parts_or_empty, parts_read};
ghost use Rattle.ipc_read.specs.Held.{held_in, is_any_dictionary, dictionary_as};
ghost use Rattle.ipc_read.specs.Readers.{LeavesReadFaults, Readable, CanRead, KeepsQueues, HasReadCause, FailsToReadColumn, LeafTaken, LeafShortened, LeafFetched, KeysGiven, TakesLeaf, GivesLeaf, GivesKeys, ShortensLeaf, FetchesLeaf};

use crate::Body;
use crate::readers::{BufferReader, ColumnReader};
use arrow_arrays::{Array, DictionaryArray, DictionaryKeys, new_empty_array};
use arrow_buffers::PrimitiveArray;
use arrow_spec::{FieldNode, IntegerType, IpcBuffer, IpcError, MetadataVersion, OutOfSpecKind};
use arrow_types::{ArrowDataType, NativeType};
use ipc_schema::Source;
use std::alloc::Global;
use std::collections::{BTreeMap, VecDeque};

/// The values of dictionaries, by their ids: the parts in which they were read, in order.
pub type Dictionaries = BTreeMap<i64, Vec<Array>>;

/// The type of the keys of dictionaries and that of their values, extensions looked through; none of other types.
pub(crate) fn dictionary_types(dtype: &ArrowDataType) -> Option<(IntegerType, &ArrowDataType)>
    ensures dictionary { IfSome result (λ r. under_extensions (kind_of dtype.now) ≡ dictionary_as (kind_of dtype.now) r.0 (kind_of r.1.now)) }
    ensures none { IfNone result (is_any_dictionary (kind_of dtype.now) ≡ false) }
{
    match dtype {
        ArrowDataType::Dictionary(index, values, _) => Some((*index, &**values)),
        ArrowDataType::Extension(extension) => dictionary_types(&extension.inner),
        _ => None,
    }
}

/// The id of a dictionary, 0 where none is given.
pub(crate) fn id_or_zero(id: Option<i64>) -> i64
    ensures { result ≡ id_under id }
{
    match id {
        Some(id) => id,
        None => 0,
    }
}

/// A second owner of each part.
fn clone_parts(alloc: Global, parts: &[Array]) -> Result<Vec<Array>, IpcError>
    ensures parts { IfOk result (λ v. forest_of v.items ≡ forest_of parts.now) }
    ensures sound { IfOk result (λ v. fault_each (forest_of v.items) ≡ None) }
    ensures memory { IfErr result (λ e. e ≡ Memory) }
{
    let mut copies = Vec::new(alloc);
    for part in parts {
        let copy = part.try_clone(alloc)?;
        let _rows = copy.len();
        copies.push(copy)?;
    }
    Ok(copies)
}

/// One array alone.
fn one_part(alloc: Global, part: Array) -> Result<Vec<Array>, IpcError>
    ensures parts { IfOk result (λ v. forest_of v.items ≡ also (parts_of part) none) }
    ensures memory { IfErr result (λ e. e ≡ Memory) }
{
    Ok(vec![in alloc; part]?)
}

/// One array without rows.
fn empty_part(alloc: Global, values: &ArrowDataType) -> Result<Vec<Array>, IpcError>
    requires carried { is_carried (kind_of values.now) ≡ true }
    ensures parts { IfOk result (λ v. forest_of v.items ≡ parts_or_empty None (kind_of values.now)) }
    ensures sound { IfOk result (λ v. fault_each (forest_of v.items) ≡ None) }
    ensures memory { IfErr result (λ e. e ≡ Memory) }
{
    let dtype = values.try_clone(alloc)?;
    let part = new_empty_array(alloc, dtype)?;
    let _rows = part.len();
    one_part(alloc, part)
}

/// The parts of a dictionary of such values: those that are held under its id, which share their memory, or one array without rows.
fn dictionary_parts(
    alloc: Global,
    dictionaries: &Dictionaries,
    id: i64,
    values: &ArrowDataType,
) -> Result<Vec<Array>, IpcError>
    requires carried { is_carried (kind_of values.now) ≡ true }
    ensures parts { IfOk result (λ v. forest_of v.items ≡ parts_or_empty (held_in dictionaries.now id) (kind_of values.now)) }
    ensures sound { IfOk result (λ v. fault_each (forest_of v.items) ≡ None) }
    ensures memory { IfErr result (λ e. e ≡ Memory) }
{
    match dictionaries.get(&id) {
        Some(parts) => clone_parts(alloc, parts.as_slice()),
        None => empty_part(alloc, values),
    }
}

/// How keys are refused.
fn key_refusal(is_absent: bool, id: i64) -> IpcError
    ensures { result ≡ key_refusal is_absent id }
{
    if is_absent {
        return IpcError::OutOfSpec(OutOfSpecKind::InvalidId { requested_id: id });
    }
    IpcError::OutOfSpec(OutOfSpecKind::InvalidKey)
}

/// The array of these keys into these parts.
fn make_dictionary(
    alloc: Global,
    dtype: &ArrowDataType,
    keys: DictionaryKeys,
    parts: Vec<Array>,
    is_absent: bool,
    id: i64,
) -> Result<DictionaryArray, IpcError>
    requires keys { is_dictionary (index_in keys) (kind_of dtype.now) ≡ true }
    requires values { each_of (values_kind (kind_of dtype.now)) (kinds_each (forest_of parts.items)) ≡ true }
    requires sound { fault_each (forest_of parts.items) ≡ None }
    ensures parts { IfOk result (λ a. parts_of (arrays.Dictionary a) ≡ nested (indexed (indexed_by (kind_of dtype.now) keys)) (forest_of parts.items)) }
    ensures fine { IfOk result (λ _. fault_in (nested (indexed (indexed_by (kind_of dtype.now) keys)) (forest_of parts.items)) ≡ None) }
    ensures err { IfErr result (λ e. (e ≡ Memory) ⊎ ((e ≡ key_refusal is_absent id) × (fault_in (nested (indexed (indexed_by (kind_of dtype.now) keys)) (forest_of parts.items)) ≡ Some Key))) }
{
    let dtype = dtype.try_clone(alloc)?;
    let _validity = keys.validity();
    match DictionaryArray::try_from_parts(dtype, keys, parts) {
        Ok(array) => Ok(array),
        Err(_) => Err(key_refusal(is_absent, id)),
    }
}

impl<'n, 'a, S: Source> ColumnReader<'n, 'a, S> {
    /// The numbers of keys of a type.
    fn read_key_numbers<T: NativeType>(
        &mut self,
        index: IntegerType,
        rows: usize,
    ) -> Result<PrimitiveArray<T>, IpcError>
        requires kind { is_primitive T.PRIMITIVE (physical_of (integer index)) ≡ true }
        requires readable { CanRead S.content self.old.buffers }
        ensures takes { TakesLeaf (integer index) self.old self.new result }
        ensures gives { GivesLeaf S.content self.old (λ a. a) result (integer index) rows (λ m p. primitive_read T.read T.WIDTH m (integer index) p rows) }
        ensures rows { IfOk result (λ a. length a.values ≡ rows) }
        ensures shortened { ShortensLeaf (integer index) self.old self.new }
        ensures counts { self.new.variadic.now.items ≡ self.old.variadic.now.items }
        ensures cause { FailsToReadColumn S.faults self.old self.new result }
        ensures faults_stay { LeavesReadFaults S.faults self.old.buffers self.new.buffers result }
        ensures keeps { KeepsQueues S.content S.faults S.references self.old self.new }
        ensures fetched { FetchesLeaf S.fetched (integer index) self.old self.new rows }
    {
        let dtype = ArrowDataType::from(index);
        self.read_primitive(&dtype, rows)
    }

    /// Keys of a type: a node, a validity and numbers.
    fn read_keys(&mut self, index: IntegerType, rows: usize) -> Result<DictionaryKeys, IpcError>
        requires readable { CanRead S.content self.old.buffers }
        ensures takes { TakesLeaf (integer index) self.old self.new result }
        ensures gives { (l : Kind) → GivesLeaf S.content self.old (λ x. indexed_by l x) result (integer index) rows (λ m p. indexed_read m l index p rows) }
        ensures index { IfOk result (λ x. index_in x ≡ index) }
        ensures rows { IfOk result (λ x. length (keys_in x) ≡ rows) }
        ensures shortened { ShortensLeaf (integer index) self.old self.new }
        ensures counts { self.new.variadic.now.items ≡ self.old.variadic.now.items }
        ensures cause { FailsToReadColumn S.faults self.old self.new result }
        ensures faults_stay { LeavesReadFaults S.faults self.old.buffers self.new.buffers result }
        ensures keeps { KeepsQueues S.content S.faults S.references self.old self.new }
        ensures fetched { FetchesLeaf S.fetched (integer index) self.old self.new rows }
    {
        macro_rules! keys_of {
            ($number:ty, $kind:ident) => {{
                let keys = self.read_key_numbers::<$number>(index, rows)?;
                Ok(DictionaryKeys::$kind(keys))
            }};
        }
        match index {
            IntegerType::Int8 => keys_of!(i8, Int8),
            IntegerType::Int16 => keys_of!(i16, Int16),
            IntegerType::Int32 => keys_of!(i32, Int32),
            IntegerType::Int64 => keys_of!(i64, Int64),
            IntegerType::Int128 => keys_of!(i128, Int128),
            IntegerType::UInt8 => keys_of!(u8, UInt8),
            IntegerType::UInt16 => keys_of!(u16, UInt16),
            IntegerType::UInt32 => keys_of!(u32, UInt32),
            IntegerType::UInt64 => keys_of!(u64, UInt64),
        }
    }

    /// An array of a dictionary: its keys into the parts that are held under its id.
    pub(crate) fn read_dictionary(
        &mut self,
        dtype: &ArrowDataType,
        id: i64,
        index: IntegerType,
        values: &ArrowDataType,
        dictionaries: &Dictionaries,
        rows: usize,
    ) -> Result<DictionaryArray, IpcError>
        requires kind { under_extensions (kind_of dtype.now) ≡ dictionary_as (kind_of dtype.now) index (kind_of values.now) }
        requires held { is_carried (kind_of dtype.now) ≡ true }
        requires kinds { HasKinds (held_in dictionaries.now) (kind_with (kind_of dtype.now) (Some id) no_fields) }
        requires readable { CanRead S.content self.old.buffers }
        ensures takes { TakesLeaf (kind_of dtype.now) self.old self.new result }
        ensures parts { GivesKeys S.content self.old (held_in dictionaries.now) (λ a. parts_of (arrays.Dictionary a)) result (kind_with (kind_of dtype.now) (Some id) no_fields) rows (λ m d p. parts_read m (held_in dictionaries.now) (kind_with (kind_of dtype.now) (Some id) no_fields) p rows) }
        ensures sound { IfOk result (λ _. HoldsKinds (held_in dictionaries.now) (kind_with (kind_of dtype.now) (Some id) no_fields)) }
        ensures shortened { ShortensLeaf (kind_of dtype.now) self.old self.new }
        ensures counts { self.new.variadic.now.items ≡ self.old.variadic.now.items }
        ensures shape { IfOk result (λ a. (kind_in (parts_of (arrays.Dictionary a)) ≡ kind_of dtype.now) × (rows_in (parts_of (arrays.Dictionary a)) ≡ rows)) }
        ensures cause { FailsToReadColumn S.faults self.old self.new result }
        ensures faults_stay { LeavesReadFaults S.faults self.old.buffers self.new.buffers result }
        ensures keeps { KeepsQueues S.content S.faults S.references self.old self.new }
        ensures fetched { FetchesLeaf S.fetched (kind_of dtype.now) self.old self.new rows }
    {
        let alloc = self.buffers.alloc;
        let keys = self.read_keys(index, rows)?;
        let parts = dictionary_parts(alloc, dictionaries, id, values)?;
        let is_absent = !dictionaries.contains_key(&id);
        make_dictionary(alloc, dtype, keys, parts, is_absent, id)
    }
}

/// The next array of dictionary keys, as far as its first rows go, into the parts that are held under its id. The type,
/// extensions looked through, is one of dictionaries, and one that `is_carried` tells. The parts are those of the values'
/// type. Where none are held there is one without rows.
///
/// # Errors
///
/// `OutOfSpec` where the node or a buffer is missing or damaged: `InvalidKey` where the key of a row that is not null is
/// none of the rows held, or `InvalidId` with the id where no dictionary is held; `ReadFault`, `Memory`.
pub fn read_dictionary<S: Source>(
    alloc: Global,
    nodes: &mut VecDeque<FieldNode>,
    dtype: &ArrowDataType,
    buffers: &mut VecDeque<IpcBuffer>,
    source: &mut S,
    body: Body,
    is_little_endian: bool,
    rows: usize,
    scratch: &mut Vec<u8>,
    id: i64,
    dictionaries: &Dictionaries,
) -> Result<DictionaryArray, IpcError>
    requires kind { is_any_dictionary (kind_of dtype.now) ≡ true }
    requires held { is_carried (kind_of dtype.now) ≡ true }
    requires kinds { HasKinds (held_in dictionaries.now) (kind_with (kind_of dtype.now) (Some id) no_fields) }
    requires readable { Readable (S.content source.old) body }
    ensures queues { LeafTaken (kind_of dtype.now) nodes.old.items nodes.new.items buffers.old.items buffers.new.items result }
    ensures parts { KeysGiven (S.content source.old) body is_little_endian nodes.old.items buffers.old.items (held_in dictionaries.now) (λ a. parts_of (arrays.Dictionary a)) result (kind_with (kind_of dtype.now) (Some id) no_fields) rows (λ m d p. parts_read m (held_in dictionaries.now) (kind_with (kind_of dtype.now) (Some id) no_fields) p rows) }
    ensures cells { KeysGiven (S.content source.old) body is_little_endian nodes.old.items buffers.old.items (held_in dictionaries.now) (λ a. cells_in (parts_of (arrays.Dictionary a))) result (kind_with (kind_of dtype.now) (Some id) no_fields) rows (λ m d p. from_on (cell m d (kind_with (kind_of dtype.now) (Some id) no_fields) p) 0 rows) }
    ensures shape { IfOk result (λ a. (kind_in (parts_of (arrays.Dictionary a)) ≡ kind_of dtype.now) × (rows_in (parts_of (arrays.Dictionary a)) ≡ rows)) }
    ensures shortened { LeafShortened (kind_of dtype.now) nodes.old.items nodes.new.items buffers.old.items buffers.new.items }
    ensures cause { HasReadCause (S.faults source.old) (S.faults source.new) result }
    ensures faults_stay { LeavesFaults (S.faults source.old) (S.faults source.new) result }
    ensures kept { SourceKept S.content S.faults S.references source.old source.new }
    ensures fetched { LeafFetched (kind_of dtype.now) nodes.old.items buffers.old.items rows (S.fetched source.old) (S.fetched source.new) }
{
    let mut variadic = VecDeque::new(alloc);
    let mut reader = ColumnReader {
        nodes,
        variadic: &mut variadic,
        buffers: BufferReader {
            alloc,
            queue: buffers,
            source,
            body,
            is_little_endian,
        },
        version: MetadataVersion::V5,
    };
    match dictionary_types(dtype) {
        Some((index, values)) => {
            reader.read_dictionary(dtype, id, index, values, dictionaries, rows)
        }
        None => unreachable!(),
    }
}
