//! Arrays of values of one width (Arrow Columnar Format, "Fixed-size Primitive Layout", "Null Layout").
ghost use Rattle.std.specs.Prelude.{◌≡◌, ◌⊎◌, length, [], ℕ, ◌+◌, ◌^◌, ◌<◌, ◌≤◌, true, IfOk, IfErr, List, ℤ};
ghost use Rattle.arrow_spec.specs.Counts.{RecordBatch as Batch, Place, after};
ghost use Rattle.arrow_types.specs.KindOf.{kind_of};
ghost use Rattle.arrow_types.specs.Physical.{physical_of};
ghost use Rattle.ipc_read.specs.Queues.{NodesAt, At, ShortenedBy};
ghost use Rattle.ipc_read.specs.Sources.{Answers, Known, BodyReadCause, IsRefusal};
ghost use Rattle.ipc_read.specs.Readers.{LeavesReadFaults, LeafAt, KnownTo, Readable, HasReadCause, LeafTaken, LeafGiven, LeafFetched, LeafShortened, CanRead, KeepsQueues, FailsToReadColumn, TakesLeaf, GivesLeaf, FetchesLeaf, ShortensLeaf};
ghost use Rattle.ipc_read_laws.specs.Faults.{read_faults};
ghost use Rattle.arrow_buffers.specs.Layouts.{is_null, is_boolean, is_primitive, binary_size};
ghost use Rattle.ipc_read_laws.specs.PartsRead.{boolean_read, primitive_read, fixed_read, numbers_bytes};
ghost use Rattle.arrow_spec.specs.Laws.{AreBytes};
ghost use Rattle.arrow_buffers.specs.Leaf.{fixed_rows};
ghost use Rattle.arrow_spec.specs.declared.error.IpcError.TheVariants.{Memory};
ghost use Rattle.arrow_spec.specs.declared.message.MetadataVersion.{MetadataVersion};
ghost use Rattle.arrow_spec.specs.declared.message.IpcBuffer.{IpcBuffer};
ghost use Rattle.ipc_io.specs.Outside.{LeavesFaults, SourceKept};

use crate::Body;
use crate::makes::{binary_size as size_of, make_boolean, make_fixed, make_null, make_primitive};
use crate::readers::{BufferReader, ColumnReader};
use crate::rows::take_node;
use arrow_buffers::{BooleanArray, FixedSizeBinaryArray, NullArray, PrimitiveArray};
use arrow_spec::{FieldNode, IpcBuffer, IpcError, MetadataVersion};
use arrow_types::{ArrowDataType, NativeType};
use ipc_schema::Source;
use std::alloc::Global;
use std::collections::VecDeque;

/// An array of so many nulls.
///
/// # Errors
///
/// `OutOfSpec` where the node is missing, negative or of fewer rows; `Memory`.
pub fn read_null(
    alloc: Global,
    nodes: &mut VecDeque<FieldNode>,
    dtype: &ArrowDataType,
    rows: usize,
) -> Result<NullArray, IpcError>
    requires kind { is_null (physical_of (kind_of dtype.now)) ≡ true }
    ensures queue { IfOk result (λ _. (m : Batch) (p : Place) → NodesAt m p nodes.old.items → NodesAt m (after m (kind_of dtype.now) p) nodes.new.items) }
    ensures shape { IfOk result (λ a. (a.kind ≡ kind_of dtype.now) × (a.rows ≡ rows)) }
    ensures gives { (m : Batch) (p : Place) → NodesAt m p nodes.old.items → Answers (λ a. a) result (read_faults m [] (kind_of dtype.now) p rows) (record { kind = kind_of dtype.now; rows = rows }) }
    ensures shortened { (version : MetadataVersion) (bs : List IpcBuffer) (vs : List ℤ) → ShortenedBy (kind_of dtype.now) version nodes.old.items nodes.new.items bs bs vs vs }
    ensures refusal { IfErr result (λ e. IsRefusal e ⊎ (e ≡ Memory)) }
    ensures cause { (n : ℕ) → IfErr result (λ e. BodyReadCause e n n) }
{
    take_node(nodes, rows)?;
    make_null(alloc, dtype, rows)
}

impl<'n, 'a, S: Source> ColumnReader<'n, 'a, S> {
    /// An array of truth values.
    pub(crate) fn read_boolean(
        &mut self,
        dtype: &ArrowDataType,
        rows: usize,
    ) -> Result<BooleanArray, IpcError>
        requires kind { is_boolean (physical_of (kind_of dtype.now)) ≡ true }
        requires readable { CanRead S.content self.old.buffers }
        ensures takes { TakesLeaf (kind_of dtype.now) self.old self.new result }
        ensures shape { IfOk result (λ a. (a.kind ≡ kind_of dtype.now) × (length a.values ≡ rows)) }
        ensures gives { GivesLeaf S.content self.old (λ a. a) result (kind_of dtype.now) rows (λ m p. boolean_read m (kind_of dtype.now) p rows) }
        ensures shortened { ShortensLeaf (kind_of dtype.now) self.old self.new }
        ensures counts { self.new.variadic.now.items ≡ self.old.variadic.now.items }
        ensures cause { FailsToReadColumn S.faults self.old self.new result }
        ensures faults_stay { LeavesReadFaults S.faults self.old.buffers self.new.buffers result }
        ensures keeps { KeepsQueues S.content S.faults S.references self.old self.new }
        ensures fetched { FetchesLeaf S.fetched (kind_of dtype.now) self.old self.new rows }
    {
        let validity = self.read_head(rows)?;
        let values = self.buffers.read_bits(rows)?;
        make_boolean(self.buffers.alloc, dtype, values, validity)
    }

    /// An array of numbers.
    pub(crate) fn read_primitive<T: NativeType>(
        &mut self,
        dtype: &ArrowDataType,
        rows: usize,
    ) -> Result<PrimitiveArray<T>, IpcError>
        requires kind { is_primitive T.PRIMITIVE (physical_of (kind_of dtype.now)) ≡ true }
        requires readable { CanRead S.content self.old.buffers }
        ensures takes { TakesLeaf (kind_of dtype.now) self.old self.new result }
        ensures shape { IfOk result (λ a. (a.kind ≡ kind_of dtype.now) × (length a.values ≡ rows)) }
        ensures gives { GivesLeaf S.content self.old (λ a. a) result (kind_of dtype.now) rows (λ m p. primitive_read T.read T.WIDTH m (kind_of dtype.now) p rows) }
        ensures shortened { ShortensLeaf (kind_of dtype.now) self.old self.new }
        ensures counts { self.new.variadic.now.items ≡ self.old.variadic.now.items }
        ensures bytes { IfOk result (λ _. (m : Batch) (p : Place) → LeafAt m p self.old → KnownTo S.content self.old.buffers m → AreBytes (numbers_bytes m (kind_of dtype.now) p rows)) }
        ensures cause { FailsToReadColumn S.faults self.old self.new result }
        ensures faults_stay { LeavesReadFaults S.faults self.old.buffers self.new.buffers result }
        ensures keeps { KeepsQueues S.content S.faults S.references self.old self.new }
        ensures fetched { FetchesLeaf S.fetched (kind_of dtype.now) self.old self.new rows }
    {
        let validity = self.read_head(rows)?;
        let values = self.buffers.read_items(rows)?;
        make_primitive(self.buffers.alloc, dtype, values, validity)
    }

    /// An array of byte strings of one size.
    pub(crate) fn read_fixed_size_binary(
        &mut self,
        dtype: &ArrowDataType,
        rows: usize,
    ) -> Result<FixedSizeBinaryArray, IpcError>
        requires kind { 0 < binary_size (kind_of dtype.now) }
        requires readable { CanRead S.content self.old.buffers }
        ensures takes { TakesLeaf (kind_of dtype.now) self.old self.new result }
        ensures shape { IfOk result (λ a. (a.kind ≡ kind_of dtype.now) × (fixed_rows a ≡ rows)) }
        ensures gives { GivesLeaf S.content self.old (λ a. a) result (kind_of dtype.now) rows (λ m p. fixed_read m (kind_of dtype.now) p rows) }
        ensures shortened { ShortensLeaf (kind_of dtype.now) self.old self.new }
        ensures counts { self.new.variadic.now.items ≡ self.old.variadic.now.items }
        ensures cause { FailsToReadColumn S.faults self.old self.new result }
        ensures faults_stay { LeavesReadFaults S.faults self.old.buffers self.new.buffers result }
        ensures keeps { KeepsQueues S.content S.faults S.references self.old self.new }
        ensures fetched { FetchesLeaf S.fetched (kind_of dtype.now) self.old self.new rows }
    {
        let size = size_of(dtype);
        let validity = self.read_head(rows)?;
        let values = self.buffers.read_rows(size, rows)?;
        make_fixed(self.buffers.alloc, dtype, rows, values, validity)
    }
}

/// An array of truth values, as far as its first rows go.
///
/// # Errors
///
/// `OutOfSpec` where the node or a buffer is missing or damaged; `ReadFault`, `Memory`.
pub fn read_boolean<S: Source>(
    alloc: Global,
    nodes: &mut VecDeque<FieldNode>,
    dtype: &ArrowDataType,
    buffers: &mut VecDeque<IpcBuffer>,
    source: &mut S,
    body: Body,
    is_little_endian: bool,
    rows: usize,
    scratch: &mut Vec<u8>,
) -> Result<BooleanArray, IpcError>
    requires kind { is_boolean (physical_of (kind_of dtype.now)) ≡ true }
    requires readable { Readable (S.content source.old) body }
    ensures queues { LeafTaken (kind_of dtype.now) nodes.old.items nodes.new.items buffers.old.items buffers.new.items result }
    ensures shape { IfOk result (λ a. (a.kind ≡ kind_of dtype.now) × (length a.values ≡ rows)) }
    ensures gives { LeafGiven (S.content source.old) body is_little_endian nodes.old.items buffers.old.items (λ a. a) result (kind_of dtype.now) rows (λ m p. boolean_read m (kind_of dtype.now) p rows) }
    ensures shortened { LeafShortened (kind_of dtype.now) nodes.old.items nodes.new.items buffers.old.items buffers.new.items }
    ensures cause { HasReadCause (S.faults source.old) (S.faults source.new) result }
    ensures faults_stay { LeavesFaults (S.faults source.old) (S.faults source.new) result }
    ensures kept { SourceKept S.content S.faults S.references source.old source.new }
    ensures fetched { LeafFetched (kind_of dtype.now) nodes.old.items buffers.old.items rows (S.fetched source.old) (S.fetched source.new) }
{
    let mut variadic = VecDeque::new(alloc);
    let mut reader = ColumnReader {
        nodes,
        variadic: &mut variadic,
        buffers: BufferReader {
            alloc,
            queue: buffers,
            source,
            body,
            is_little_endian,
        },
        version: MetadataVersion::V5,
    };
    reader.read_boolean(dtype, rows)
}

/// An array of numbers, as far as its first rows go.
///
/// # Errors
///
/// `OutOfSpec` where the node or a buffer is missing or damaged; `ReadFault`, `Memory`.
pub fn read_primitive<T: NativeType, S: Source>(
    alloc: Global,
    nodes: &mut VecDeque<FieldNode>,
    dtype: &ArrowDataType,
    buffers: &mut VecDeque<IpcBuffer>,
    source: &mut S,
    body: Body,
    is_little_endian: bool,
    rows: usize,
    scratch: &mut Vec<u8>,
) -> Result<PrimitiveArray<T>, IpcError>
    requires kind { is_primitive T.PRIMITIVE (physical_of (kind_of dtype.now)) ≡ true }
    requires readable { Readable (S.content source.old) body }
    ensures queues { LeafTaken (kind_of dtype.now) nodes.old.items nodes.new.items buffers.old.items buffers.new.items result }
    ensures shape { IfOk result (λ a. (a.kind ≡ kind_of dtype.now) × (length a.values ≡ rows)) }
    ensures gives { LeafGiven (S.content source.old) body is_little_endian nodes.old.items buffers.old.items (λ a. a) result (kind_of dtype.now) rows (λ m p. primitive_read T.read T.WIDTH m (kind_of dtype.now) p rows) }
    ensures shortened { LeafShortened (kind_of dtype.now) nodes.old.items nodes.new.items buffers.old.items buffers.new.items }
    ensures bytes { IfOk result (λ _. (m : Batch) (p : Place) → At m p nodes.old.items buffers.old.items → Known (S.content source.old) body is_little_endian m → AreBytes (numbers_bytes m (kind_of dtype.now) p rows)) }
    ensures cause { HasReadCause (S.faults source.old) (S.faults source.new) result }
    ensures faults_stay { LeavesFaults (S.faults source.old) (S.faults source.new) result }
    ensures kept { SourceKept S.content S.faults S.references source.old source.new }
    ensures fetched { LeafFetched (kind_of dtype.now) nodes.old.items buffers.old.items rows (S.fetched source.old) (S.fetched source.new) }
{
    let mut variadic = VecDeque::new(alloc);
    let mut reader = ColumnReader {
        nodes,
        variadic: &mut variadic,
        buffers: BufferReader {
            alloc,
            queue: buffers,
            source,
            body,
            is_little_endian,
        },
        version: MetadataVersion::V5,
    };
    reader.read_primitive(dtype, rows)
}

/// An array of byte strings of one size, as far as its first rows go.
///
/// # Errors
///
/// `OutOfSpec` where the node or a buffer is missing or damaged; `ReadFault`, `Memory`.
pub fn read_fixed_size_binary<S: Source>(
    alloc: Global,
    nodes: &mut VecDeque<FieldNode>,
    dtype: &ArrowDataType,
    buffers: &mut VecDeque<IpcBuffer>,
    source: &mut S,
    body: Body,
    is_little_endian: bool,
    rows: usize,
    scratch: &mut Vec<u8>,
) -> Result<FixedSizeBinaryArray, IpcError>
    requires kind { 0 < binary_size (kind_of dtype.now) }
    requires readable { Readable (S.content source.old) body }
    ensures queues { LeafTaken (kind_of dtype.now) nodes.old.items nodes.new.items buffers.old.items buffers.new.items result }
    ensures shape { IfOk result (λ a. (a.kind ≡ kind_of dtype.now) × (fixed_rows a ≡ rows)) }
    ensures gives { LeafGiven (S.content source.old) body is_little_endian nodes.old.items buffers.old.items (λ a. a) result (kind_of dtype.now) rows (λ m p. fixed_read m (kind_of dtype.now) p rows) }
    ensures shortened { LeafShortened (kind_of dtype.now) nodes.old.items nodes.new.items buffers.old.items buffers.new.items }
    ensures cause { HasReadCause (S.faults source.old) (S.faults source.new) result }
    ensures faults_stay { LeavesFaults (S.faults source.old) (S.faults source.new) result }
    ensures kept { SourceKept S.content S.faults S.references source.old source.new }
    ensures fetched { LeafFetched (kind_of dtype.now) nodes.old.items buffers.old.items rows (S.fetched source.old) (S.fetched source.new) }
{
    let mut variadic = VecDeque::new(alloc);
    let mut reader = ColumnReader {
        nodes,
        variadic: &mut variadic,
        buffers: BufferReader {
            alloc,
            queue: buffers,
            source,
            body,
            is_little_endian,
        },
        version: MetadataVersion::V5,
    };
    reader.read_fixed_size_binary(dtype, rows)
}
