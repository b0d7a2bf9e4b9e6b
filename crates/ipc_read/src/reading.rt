//! The array of a column of any kind without children (Arrow Columnar Format, "Physical Memory Layout").
ghost use Rattle.std.specs.Prelude.{◌≡◌, ℕ, ◌+◌, ◌^◌, ◌<◌, ◌≤◌, [], true, IfOk, IfErr, List, ℤ};
ghost use Rattle.arrow_spec.specs.Counts.{RecordBatch as Batch, Place, after};
ghost use Rattle.arrow_types.specs.KindOf.{kind_of};
ghost use Rattle.arrow_types.specs.Physical.{physical_of};
ghost use Rattle.arrow_types.specs.declared.physical.PhysicalType.TheVariants.{Null, Primitive};
ghost use Rattle.arrow_arrays.specs.LeafKinds.{is_leaf_kind};
ghost use Rattle.arrow_arrays.specs.Parts.{kind_in, rows_in, cells_in};
ghost use Rattle.arrow_arrays.specs.PartsOf.{parts_of};
ghost use Rattle.ipc_read_laws.specs.PartsRead.{plain_read, parts_read, numbers_bytes};
ghost use Rattle.arrow_spec.specs.Laws.{AreBytes};
ghost use Rattle.arrow_spec.specs.Arrays.{from_on};
ghost use Rattle.arrow_spec.specs.ArrayCells.{cell};
ghost use Rattle.arrow_arrays.specs.Carried.{is_carried};
ghost use Rattle.ipc_read_laws.specs.Held.{HasKinds};
ghost use Rattle.ipc_read.specs.Held.{held_in, column_kind, field_kind};
ghost use Rattle.ipc_read.specs.Readings.{is_of_values, is_of_views};
ghost use Rattle.ipc_read.specs.Queues.{ShortenedBy};
ghost use Rattle.ipc_read.specs.Readers.{LeavesReadFaults, LeafAt, QueuesAt, KnownTo, Readable, HasReadCause, TreeTaken, TreeGiven, TreeFetched, CanRead, KeepsQueues, FailsToReadColumn, TakesLeaf, GivesLeaf, FetchesLeaf, ShortensLeaf, TakesColumn, GivesColumn, FetchesColumn, ShortensColumn};
ghost use Rattle.ipc_io.specs.Outside.{LeavesFaults, SourceKept};

use crate::Body;
use crate::dictionaries::Dictionaries;
use crate::leaf::read_null;
use crate::readers::{BufferReader, ColumnReader};
use arrow_arrays::Array;
use arrow_buffers::{ByteRows, TextRows};
use arrow_spec::{FieldNode, IpcBuffer, IpcError, MetadataVersion};
use arrow_types::{ArrowDataType, Field, PhysicalType, PrimitiveType, days_ms, months_days_ns};
use ipc_fields::IpcField;
use ipc_schema::Source;
use std::alloc::Global;
use std::collections::VecDeque;

impl<'n, 'a, S: Source> ColumnReader<'n, 'a, S> {
    /// An array of nulls.
    fn read_nulls(&mut self, dtype: &ArrowDataType, rows: usize) -> Result<Array, IpcError>
        requires kind { physical_of (kind_of dtype.now) ≡ Null }
        requires readable { CanRead S.content self.old.buffers }
        ensures takes { TakesLeaf (kind_of dtype.now) self.old self.new result }
        ensures parts { GivesLeaf S.content self.old (λ a. parts_of a) result (kind_of dtype.now) rows (λ m p. plain_read m (kind_of dtype.now) p rows) }
        ensures shortened { ShortensLeaf (kind_of dtype.now) self.old self.new }
        ensures counts { self.new.variadic.now.items ≡ self.old.variadic.now.items }
        ensures shape { IfOk result (λ a. (kind_in (parts_of a) ≡ (kind_of dtype.now)) × (rows_in (parts_of a) ≡ rows)) }
        ensures cause { FailsToReadColumn S.faults self.old self.new result }
        ensures faults_stay { LeavesReadFaults S.faults self.old.buffers self.new.buffers result }
        ensures keeps { KeepsQueues S.content S.faults S.references self.old self.new }
        ensures fetched { FetchesLeaf S.fetched (kind_of dtype.now) self.old self.new rows }
    {
        let array = read_null(self.buffers.alloc, self.nodes, dtype, rows)?;
        Ok(Array::Null(array))
    }

    /// An array of numbers.
    fn read_numbers_of(
        &mut self,
        primitive: PrimitiveType,
        dtype: &ArrowDataType,
        rows: usize,
    ) -> Result<Array, IpcError>
        requires leaf { is_leaf_kind (kind_of dtype.now) ≡ true }
        requires kind { physical_of (kind_of dtype.now) ≡ Primitive primitive }
        requires readable { CanRead S.content self.old.buffers }
        ensures takes { TakesLeaf (kind_of dtype.now) self.old self.new result }
        ensures parts { GivesLeaf S.content self.old (λ a. parts_of a) result (kind_of dtype.now) rows (λ m p. plain_read m (kind_of dtype.now) p rows) }
        ensures shortened { ShortensLeaf (kind_of dtype.now) self.old self.new }
        ensures counts { self.new.variadic.now.items ≡ self.old.variadic.now.items }
        ensures shape { IfOk result (λ a. (kind_in (parts_of a) ≡ (kind_of dtype.now)) × (rows_in (parts_of a) ≡ rows)) }
        ensures cause { FailsToReadColumn S.faults self.old self.new result }
        ensures faults_stay { LeavesReadFaults S.faults self.old.buffers self.new.buffers result }
        ensures keeps { KeepsQueues S.content S.faults S.references self.old self.new }
        ensures fetched { FetchesLeaf S.fetched (kind_of dtype.now) self.old self.new rows }
        ensures bytes { IfOk result (λ _. (m : Batch) (p : Place) → LeafAt m p self.old → KnownTo S.content self.old.buffers m → AreBytes (numbers_bytes m (kind_of dtype.now) p rows)) }
    {
        macro_rules! array_of {
            ($number:ty, $kind:ident) => {{
                let array = self.read_primitive::<$number>(dtype, rows)?;
                Ok(Array::$kind(array))
            }};
        }
        match primitive {
            PrimitiveType::Int8 => array_of!(i8, Int8),
            PrimitiveType::Int16 => array_of!(i16, Int16),
            PrimitiveType::Int32 => array_of!(i32, Int32),
            PrimitiveType::Int64 => array_of!(i64, Int64),
            PrimitiveType::Int128 => array_of!(i128, Int128),
            PrimitiveType::UInt8 => array_of!(u8, UInt8),
            PrimitiveType::UInt16 => array_of!(u16, UInt16),
            PrimitiveType::UInt32 => array_of!(u32, UInt32),
            PrimitiveType::UInt64 => array_of!(u64, UInt64),
            PrimitiveType::DaysMs => array_of!(days_ms, DaysMs),
            PrimitiveType::MonthDayNano => array_of!(months_days_ns, MonthsDaysNs),
            _ => unreachable!(),
        }
    }

    /// An array of nulls, of truth values, of byte strings of one size, or of byte strings or texts between offsets.
    fn read_values_of(
        &mut self,
        layout: PhysicalType,
        dtype: &ArrowDataType,
        rows: usize,
    ) -> Result<Array, IpcError>
        requires leaf { is_leaf_kind (kind_of dtype.now) ≡ true }
        requires layout { is_of_values layout ≡ true }
        requires kind { physical_of (kind_of dtype.now) ≡ layout }
        requires readable { CanRead S.content self.old.buffers }
        ensures takes { TakesLeaf (kind_of dtype.now) self.old self.new result }
        ensures parts { GivesLeaf S.content self.old (λ a. parts_of a) result (kind_of dtype.now) rows (λ m p. plain_read m (kind_of dtype.now) p rows) }
        ensures shortened { ShortensLeaf (kind_of dtype.now) self.old self.new }
        ensures counts { self.new.variadic.now.items ≡ self.old.variadic.now.items }
        ensures shape { IfOk result (λ a. (kind_in (parts_of a) ≡ (kind_of dtype.now)) × (rows_in (parts_of a) ≡ rows)) }
        ensures cause { FailsToReadColumn S.faults self.old self.new result }
        ensures faults_stay { LeavesReadFaults S.faults self.old.buffers self.new.buffers result }
        ensures keeps { KeepsQueues S.content S.faults S.references self.old self.new }
        ensures fetched { FetchesLeaf S.fetched (kind_of dtype.now) self.old self.new rows }
    {
        macro_rules! array_of {
            ($array:expr, $kind:ident) => {{
                let array = $array?;
                Ok(Array::$kind(array))
            }};
        }
        match layout {
            PhysicalType::Null => self.read_nulls(dtype, rows),
            PhysicalType::Boolean => array_of!(self.read_boolean(dtype, rows), Boolean),
            PhysicalType::FixedSizeBinary => array_of!(
                self.read_fixed_size_binary(dtype, rows),
                FixedSizeBinary
            ),
            PhysicalType::Binary => array_of!(
                self.read_variable::<i32, ByteRows>(dtype, rows),
                Binary
            ),
            PhysicalType::LargeBinary => array_of!(
                self.read_variable::<i64, ByteRows>(dtype, rows),
                LargeBinary
            ),
            PhysicalType::Utf8 => array_of!(self.read_variable::<i32, TextRows>(dtype, rows), Utf8),
            PhysicalType::LargeUtf8 => array_of!(
                self.read_variable::<i64, TextRows>(dtype, rows),
                LargeUtf8
            ),
            _ => unreachable!(),
        }
    }

    /// An array of views.
    fn read_views_of(
        &mut self,
        layout: PhysicalType,
        dtype: &ArrowDataType,
        rows: usize,
    ) -> Result<Array, IpcError>
        requires layout { is_of_views layout ≡ true }
        requires kind { physical_of (kind_of dtype.now) ≡ layout }
        requires readable { CanRead S.content self.old.buffers }
        ensures takes { TakesColumn (kind_of dtype.now) self.old self.new result }
        ensures parts { GivesColumn S.content self.old (λ a. parts_of a) result (kind_of dtype.now) rows (λ m p. plain_read m (kind_of dtype.now) p rows) }
        ensures shortened { ShortensColumn (kind_of dtype.now) self.old self.new }
        ensures shape { IfOk result (λ a. (kind_in (parts_of a) ≡ (kind_of dtype.now)) × (rows_in (parts_of a) ≡ rows)) }
        ensures cause { FailsToReadColumn S.faults self.old self.new result }
        ensures faults_stay { LeavesReadFaults S.faults self.old.buffers self.new.buffers result }
        ensures keeps { KeepsQueues S.content S.faults S.references self.old self.new }
        ensures fetched { FetchesColumn S.fetched (kind_of dtype.now) self.old self.new rows }
    {
        match layout {
            PhysicalType::BinaryView => {
                let array = self.read_binview::<ByteRows>(dtype, rows)?;
                Ok(Array::BinaryView(array))
            }
            PhysicalType::Utf8View => {
                let array = self.read_binview::<TextRows>(dtype, rows)?;
                Ok(Array::Utf8View(array))
            }
            _ => unreachable!(),
        }
    }

    /// An array of a kind without children.
    pub(crate) fn read_plain(
        &mut self,
        dtype: &ArrowDataType,
        rows: usize,
    ) -> Result<Array, IpcError>
        requires leaf { is_leaf_kind (kind_of dtype.now) ≡ true }
        requires readable { CanRead S.content self.old.buffers }
        ensures takes { TakesColumn (kind_of dtype.now) self.old self.new result }
        ensures parts { GivesColumn S.content self.old (λ a. parts_of a) result (kind_of dtype.now) rows (λ m p. plain_read m (kind_of dtype.now) p rows) }
        ensures shortened { ShortensColumn (kind_of dtype.now) self.old self.new }
        ensures shape { IfOk result (λ a. (kind_in (parts_of a) ≡ (kind_of dtype.now)) × (rows_in (parts_of a) ≡ rows)) }
        ensures cause { FailsToReadColumn S.faults self.old self.new result }
        ensures faults_stay { LeavesReadFaults S.faults self.old.buffers self.new.buffers result }
        ensures keeps { KeepsQueues S.content S.faults S.references self.old self.new }
        ensures fetched { FetchesColumn S.fetched (kind_of dtype.now) self.old self.new rows }
        ensures bytes { IfOk result (λ _. (m : Batch) (p : Place) → QueuesAt m p self.old → KnownTo S.content self.old.buffers m → AreBytes (numbers_bytes m (kind_of dtype.now) p rows)) }
    {
        let layout = dtype.to_physical_type();
        match layout {
            PhysicalType::Primitive(primitive) => self.read_numbers_of(primitive, dtype, rows),
            PhysicalType::BinaryView | PhysicalType::Utf8View => {
                self.read_views_of(layout, dtype, rows)
            }
            PhysicalType::Null
            | PhysicalType::Boolean
            | PhysicalType::FixedSizeBinary
            | PhysicalType::Binary
            | PhysicalType::LargeBinary
            | PhysicalType::Utf8
            | PhysicalType::LargeUtf8 => self.read_values_of(layout, dtype, rows),
            _ => unreachable!(),
        }
    }
}

/// The next array, as far as its first rows go, with its children.
pub(crate) fn read_next<S: Source>(
    alloc: Global,
    nodes: &mut VecDeque<FieldNode>,
    variadic: &mut VecDeque<i64>,
    dtype: &ArrowDataType,
    id: Option<i64>,
    fields: &[IpcField],
    buffers: &mut VecDeque<IpcBuffer>,
    source: &mut S,
    dictionaries: &Dictionaries,
    body: Body,
    is_little_endian: bool,
    rows: usize,
    version: MetadataVersion,
) -> Result<Array, IpcError>
    requires held { is_carried (kind_of dtype.now) ≡ true }
    requires kinds { HasKinds (held_in dictionaries.now) (column_kind dtype.now id fields.now) }
    requires readable { Readable (S.content source.old) body }
    ensures queues { TreeTaken (column_kind dtype.now id fields.now) version nodes.old.items nodes.new.items buffers.old.items buffers.new.items variadic.old.items variadic.new.items result }
    ensures parts { TreeGiven (S.content source.old) body is_little_endian version nodes.old.items buffers.old.items variadic.old.items (held_in dictionaries.now) (λ a. parts_of a) result (column_kind dtype.now id fields.now) rows (λ m d p. parts_read m (held_in dictionaries.now) (column_kind dtype.now id fields.now) p rows) }
    ensures shortened { ShortenedBy (column_kind dtype.now id fields.now) version nodes.old.items nodes.new.items buffers.old.items buffers.new.items variadic.old.items variadic.new.items }
    ensures shape { IfOk result (λ a. (kind_in (parts_of a) ≡ kind_of dtype.now) × (rows_in (parts_of a) ≡ rows)) }
    ensures cause { HasReadCause (S.faults source.old) (S.faults source.new) result }
    ensures faults_stay { LeavesFaults (S.faults source.old) (S.faults source.new) result }
    ensures kept { SourceKept S.content S.faults S.references source.old source.new }
    ensures fetched { TreeFetched (column_kind dtype.now id fields.now) version nodes.old.items buffers.old.items variadic.old.items rows (S.fetched source.old) (S.fetched source.new) }
    ensures cells { TreeGiven (S.content source.old) body is_little_endian version nodes.old.items buffers.old.items variadic.old.items (held_in dictionaries.now) (λ a. cells_in (parts_of a)) result (column_kind dtype.now id fields.now) rows (λ m d p. from_on (cell m d (column_kind dtype.now id fields.now) p) 0 rows) }
{
    let mut reader = ColumnReader {
        nodes,
        variadic,
        buffers: BufferReader {
            alloc,
            queue: buffers,
            source,
            body,
            is_little_endian,
        },
        version,
    };
    reader.read_array(dtype, id, fields, dictionaries, rows)
}

/// The next array, as far as its first rows go, with its children. The type is one of those that `is_carried` tells:
/// in it stand no floats and no decimals of 256 bits, and no size is 0. The IPC field has the ids of the type's
/// dictionaries: an id that is not there is 0. The parts that are held under the id of a dictionary are of its values' type;
/// those of dictionaries inside others' values are not looked up. The call goes as deep as the type's tree.
///
/// # Errors
///
/// `Unsupported(ViewBigEndian)` for rows of views in big-endian order, `Unsupported(UnionNulls)` for rows of unions before V5 that
/// have nulls of their own; `OutOfSpec` where the node, a buffer or a view count is missing or damaged, `InvalidKey` and `InvalidId` as
/// `read_dictionary` has them; `ReadFault`, `Memory`.
pub fn read<S: Source>(
    alloc: Global,
    nodes: &mut VecDeque<FieldNode>,
    variadic: &mut VecDeque<i64>,
    field: &Field,
    ipc_field: &IpcField,
    buffers: &mut VecDeque<IpcBuffer>,
    source: &mut S,
    dictionaries: &Dictionaries,
    body: Body,
    is_little_endian: bool,
    rows: usize,
    version: MetadataVersion,
    scratch: &mut Vec<u8>,
) -> Result<Array, IpcError>
    requires held { is_carried (kind_of field.now.dtype) ≡ true }
    requires kinds { HasKinds (held_in dictionaries.now) (field_kind field.now.dtype ipc_field.now) }
    requires readable { Readable (S.content source.old) body }
    ensures queues { TreeTaken (field_kind field.now.dtype ipc_field.now) version nodes.old.items nodes.new.items buffers.old.items buffers.new.items variadic.old.items variadic.new.items result }
    ensures parts { TreeGiven (S.content source.old) body is_little_endian version nodes.old.items buffers.old.items variadic.old.items (held_in dictionaries.now) (λ a. parts_of a) result (field_kind field.now.dtype ipc_field.now) rows (λ m d p. parts_read m (held_in dictionaries.now) (field_kind field.now.dtype ipc_field.now) p rows) }
    ensures shortened { ShortenedBy (field_kind field.now.dtype ipc_field.now) version nodes.old.items nodes.new.items buffers.old.items buffers.new.items variadic.old.items variadic.new.items }
    ensures shape { IfOk result (λ a. (kind_in (parts_of a) ≡ kind_of field.now.dtype) × (rows_in (parts_of a) ≡ rows)) }
    ensures cause { HasReadCause (S.faults source.old) (S.faults source.new) result }
    ensures faults_stay { LeavesFaults (S.faults source.old) (S.faults source.new) result }
    ensures kept { SourceKept S.content S.faults S.references source.old source.new }
    ensures fetched { TreeFetched (field_kind field.now.dtype ipc_field.now) version nodes.old.items buffers.old.items variadic.old.items rows (S.fetched source.old) (S.fetched source.new) }
    ensures cells { TreeGiven (S.content source.old) body is_little_endian version nodes.old.items buffers.old.items variadic.old.items (held_in dictionaries.now) (λ a. cells_in (parts_of a)) result (field_kind field.now.dtype ipc_field.now) rows (λ m d p. from_on (cell m d (field_kind field.now.dtype ipc_field.now) p) 0 rows) }
{
    read_next(
        alloc,
        nodes,
        variadic,
        &field.dtype,
        ipc_field.dictionary_id,
        ipc_field.fields.as_slice(),
        buffers,
        source,
        dictionaries,
        body,
        is_little_endian,
        rows,
        version,
    )
}
