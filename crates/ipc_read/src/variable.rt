//! Arrays of byte strings and texts between offsets (Arrow Columnar Format, "Variable-size Binary Layout").
ghost use Rattle.std.specs.Prelude.{◌≡◌, ◌⊎◌, ◌∷◌, [], ◌++◌, ◌&&◌, ◌-◌, Bool, false, length, map, pos, ℕ, suc, ◌+◌, ◌^◌, ◌<◌, ◌≤◌, true, IfOk, IfErr, List, ℤ};
ghost use Rattle.arrow_spec.specs.Counts.{RecordBatch as Batch, Place, after};
ghost use Rattle.arrow_types.specs.KindOf.{kind_of};
ghost use Rattle.arrow_types.specs.Numbers.{offsets_by};
ghost use Rattle.arrow_types.specs.Physical.{physical_of};
ghost use Rattle.ipc_read.specs.Queues.{Left, short_of, Shortened};
ghost use Rattle.ipc_read.specs.Sources.{Answers, offsets_of_rows, values_of, faults_where, bytes_where, validity_fetched, variable_faults, variable_parts, variable_parts_read};
ghost use Rattle.ipc_read.specs.Readers.{LeavesReadFaults, LeafAt, KnownTo, Readable, HasReadCause, LeafTaken, LeafGiven, LeafFetched, LeafShortened, CanRead, KeepsSource, KeepsQueues, FailsToRead, FailsToReadColumn, TakesBuffer, ShortensBuffers, GivesBytes, GivesNumbers, FetchesBuffer, TakesLeaf, GivesLeaf, FetchesLeaf, ShortensLeaf};
ghost use Rattle.ipc_read_laws.specs.Faults.{stated};
ghost use Rattle.arrow_buffers.specs.Layouts.{is_variable};
ghost use Rattle.arrow_buffers.specs.Rows.{has_rows};
ghost use Rattle.arrow_buffers.specs.Variable.{variable_rows, are_offsets, has_bad_text};
ghost use Rattle.arrow_spec.specs.Faults.{offsets_buffer_faults, range_faults};
ghost use Rattle.arrow_spec.specs.declared.error.IpcError.TheVariants.{Memory, OutOfSpec};
ghost use Rattle.arrow_spec.specs.declared.error.OutOfSpecKind.TheVariants.{InvalidOffsets, InvalidUtf8};
ghost use Rattle.ipc_read_laws.specs.PartsRead.{variable_read};
ghost use Rattle.ipc_io.specs.Outside.{LeavesFaults, SourceKept};

use crate::Body;
use crate::buffers::pass_buffer;
use crate::readers::{BufferReader, ColumnReader};
use arrow_buffers::{
    ArrayError, BinaryArray, Bitmap, Buffer, ByteRows, TextRows, Utf8Array, VariableArray, ViewType,
};
use arrow_spec::{FieldNode, IpcBuffer, IpcError, MetadataVersion, OutOfSpecKind};
use arrow_types::{ArrowDataType, Offset};
use ipc_schema::Source;
use std::alloc::Global;
use std::collections::VecDeque;

/// The parts of an array of byte strings or texts, as they were read.
#[derive(Drop)]
struct VariableParts<O: Offset> {
    offsets: Buffer<O>,
    values: Buffer<u8>,
    validity: Option<Bitmap>,
}

/// The offset of an array without rows.
fn first_offset<O: Offset>(alloc: Global) -> Result<Buffer<O>, IpcError>
    requires above { 0 < O.limit }
    ensures first { IfOk result (λ b. map O.number b ≡ pos 0 ∷ []) }
    ensures rows { IfOk result (λ b. length b ≡ 1) }
    ensures memory { IfErr result (λ e. e ≡ Memory) }
{
    let Some(zero) = O::from_usize(0) else {
        unreachable!();
    };
    let mut items = Vec::new(alloc);
    items.push(zero)?;
    Ok(Buffer::from_vec(items)?)
}

/// The array of these parts.
fn make_variable<O: Offset, V: ViewType>(
    alloc: Global,
    dtype: &ArrowDataType,
    parts: VariableParts<O>,
) -> Result<VariableArray<O, V>, IpcError>
    requires kind { is_variable V.IS_TEXT O.IS_LARGE (physical_of (kind_of dtype.now)) ≡ true }
    requires rows { has_rows parts.validity (length parts.offsets - 1) ≡ true }
    ensures parts { IfOk result (λ a. a ≡ record { kind = kind_of dtype.now; offsets = map O.number parts.offsets; values = parts.values; validity = parts.validity }) }
    ensures sound { IfOk result (λ _. are_offsets (map O.number parts.offsets) (length parts.values) ≡ true) }
    ensures texts { IfOk result (λ _. (V.IS_TEXT && has_bad_text (map O.number parts.offsets) parts.values parts.validity) ≡ false) }
    ensures err { IfErr result (λ e. (e ≡ Memory) ⊎ (((e ≡ OutOfSpec InvalidOffsets) × (are_offsets (map O.number parts.offsets) (length parts.values) ≡ false)) ⊎ ((e ≡ OutOfSpec InvalidUtf8) × ((are_offsets (map O.number parts.offsets) (length parts.values) ≡ true) × ((V.IS_TEXT && has_bad_text (map O.number parts.offsets) parts.values parts.validity) ≡ true))))) }
{
    let dtype = dtype.try_clone(alloc)?;
    match VariableArray::try_new(dtype, parts.offsets, parts.values, parts.validity) {
        Ok(array) => Ok(array),
        Err(ArrayError::Offsets) => Err(IpcError::OutOfSpec(OutOfSpecKind::InvalidOffsets)),
        Err(ArrayError::Utf8) => Err(IpcError::OutOfSpec(OutOfSpecKind::InvalidUtf8)),
        Err(_) => unreachable!(),
    }
}

impl<'a, S: Source> BufferReader<'a, S> {
    /// Takes the next buffer, and reads one offset more than there are rows. Where there are none the buffer is not looked at, and there is the offset 0.
    pub(crate) fn read_offsets<O: Offset>(&mut self, rows: usize) -> Result<Buffer<O>, IpcError>
        requires few { rows < 2 ^ 63 }
        requires readable { CanRead S.content self.old }
        ensures takes { TakesBuffer self.old self.new result }
        ensures gives { GivesNumbers S.content self.old (λ b. map O.number b) result (λ m i. short_of m.buffers i ++ faults_where rows (offsets_buffer_faults m (offsets_by O.IS_LARGE) i rows)) (λ m i. offsets_of_rows m (offsets_by O.IS_LARGE) i rows) }
        ensures shortened { ShortensBuffers 1 self.old self.new }
        ensures rows { IfOk result (λ b. length b ≡ rows + 1) }
        ensures none { IfOk result (λ b. rows ≡ 0 → map O.number b ≡ pos 0 ∷ []) }
        ensures cause { FailsToRead S.faults self.old self.new result }
        ensures faults_stay { LeavesReadFaults S.faults self.old self.new result }
        ensures keeps { KeepsSource S.content S.faults S.references self.old self.new }
        ensures fetched { FetchesBuffer S.fetched self.old self.new (λ m i. bytes_where rows (stated m i)) }
    {
        if rows > 0 {
            let offsets = self.read_numbers(rows + 1)?;
            return Ok(offsets);
        }
        pass_buffer(self.queue)?;
        let offsets = first_offset(self.alloc)?;
        Ok(offsets)
    }

    /// Takes the next buffer, and reads its bytes where there are rows.
    fn read_values(&mut self, rows: usize) -> Result<Buffer<u8>, IpcError>
        requires readable { CanRead S.content self.old }
        ensures takes { TakesBuffer self.old self.new result }
        ensures gives { GivesBytes S.content self.old (λ b. b) result (λ m i. short_of m.buffers i ++ faults_where rows (range_faults m i)) (λ m i. values_of m i rows) }
        ensures shortened { ShortensBuffers 1 self.old self.new }
        ensures cause { FailsToRead S.faults self.old self.new result }
        ensures faults_stay { LeavesReadFaults S.faults self.old self.new result }
        ensures keeps { KeepsSource S.content S.faults S.references self.old self.new }
        ensures fetched { FetchesBuffer S.fetched self.old self.new (λ m i. bytes_where rows (stated m i)) }
    {
        if rows > 0 {
            return self.read_bytes();
        }
        pass_buffer(self.queue)?;
        Ok(Buffer::from_vec(Vec::new(self.alloc))?)
    }
}

impl<'n, 'a, S: Source> ColumnReader<'n, 'a, S> {
    /// Takes a node, a validity, offsets and bytes.
    fn read_variable_parts<O: Offset>(&mut self, rows: usize) -> Result<VariableParts<O>, IpcError>
        requires readable { CanRead S.content self.old.buffers }
        ensures takes { IfOk result (λ _. (m : Batch) (p : Place) → LeafAt m p self.old → Left m.nodes (suc p.node) self.new.nodes.now.items × Left m.buffers (p.buffer + 3) self.new.buffers.queue.now.items) }
        ensures gives { (m : Batch) (p : Place) → LeafAt m p self.old → KnownTo S.content self.old.buffers m → Answers (λ x. variable_parts (map O.number x.offsets) x.values x.validity) result (variable_faults m p rows (offsets_by O.IS_LARGE)) (variable_parts_read m p rows (offsets_by O.IS_LARGE)) }
        ensures shortened { Shortened self.old.nodes.now.items 1 self.new.nodes.now.items }
        ensures buffers { ShortensBuffers 3 self.old.buffers self.new.buffers }
        ensures counts { self.new.variadic.now.items ≡ self.old.variadic.now.items }
        ensures offsets { IfOk result (λ x. length x.offsets ≡ rows + 1) }
        ensures rows { IfOk result (λ x. has_rows x.validity rows ≡ true) }
        ensures cause { FailsToReadColumn S.faults self.old self.new result }
        ensures faults_stay { LeavesReadFaults S.faults self.old.buffers self.new.buffers result }
        ensures keeps { KeepsQueues S.content S.faults S.references self.old self.new }
        ensures fetched { (m : Batch) (p : Place) → LeafAt m p self.old → S.fetched self.new.buffers.source.now ≤ S.fetched self.old.buffers.source.now + (validity_fetched m p rows + bytes_where rows (stated m (p.buffer + 1)) + bytes_where rows (stated m (p.buffer + 2))) }
    {
        let validity = self.read_head(rows)?;
        let offsets = self.buffers.read_offsets(rows)?;
        let values = self.buffers.read_values(rows)?;
        Ok(VariableParts {
            offsets,
            values,
            validity,
        })
    }

    /// An array of byte strings or of texts.
    pub(crate) fn read_variable<O: Offset, V: ViewType>(
        &mut self,
        dtype: &ArrowDataType,
        rows: usize,
    ) -> Result<VariableArray<O, V>, IpcError>
        requires kind { is_variable V.IS_TEXT O.IS_LARGE (physical_of (kind_of dtype.now)) ≡ true }
        requires readable { CanRead S.content self.old.buffers }
        ensures takes { TakesLeaf (kind_of dtype.now) self.old self.new result }
        ensures shape { IfOk result (λ a. (a.kind ≡ kind_of dtype.now) × (variable_rows a.offsets ≡ rows)) }
        ensures gives { GivesLeaf S.content self.old (λ a. a) result (kind_of dtype.now) rows (λ m p. variable_read m (kind_of dtype.now) (offsets_by O.IS_LARGE) p rows) }
        ensures shortened { ShortensLeaf (kind_of dtype.now) self.old self.new }
        ensures counts { self.new.variadic.now.items ≡ self.old.variadic.now.items }
        ensures cause { FailsToReadColumn S.faults self.old self.new result }
        ensures faults_stay { LeavesReadFaults S.faults self.old.buffers self.new.buffers result }
        ensures keeps { KeepsQueues S.content S.faults S.references self.old self.new }
        ensures fetched { FetchesLeaf S.fetched (kind_of dtype.now) self.old self.new rows }
    {
        let parts = self.read_variable_parts(rows)?;
        make_variable(self.buffers.alloc, dtype, parts)
    }
}

/// An array of byte strings, as far as its first rows go. The bytes of all rows are read.
///
/// # Errors
///
/// `OutOfSpec` where the node or a buffer is missing or damaged; `ReadFault`, `Memory`.
pub fn read_binary<O: Offset, S: Source>(
    alloc: Global,
    nodes: &mut VecDeque<FieldNode>,
    dtype: &ArrowDataType,
    buffers: &mut VecDeque<IpcBuffer>,
    source: &mut S,
    body: Body,
    is_little_endian: bool,
    rows: usize,
    scratch: &mut Vec<u8>,
) -> Result<BinaryArray<O>, IpcError>
    requires kind { is_variable false O.IS_LARGE (physical_of (kind_of dtype.now)) ≡ true }
    requires readable { Readable (S.content source.old) body }
    ensures queues { LeafTaken (kind_of dtype.now) nodes.old.items nodes.new.items buffers.old.items buffers.new.items result }
    ensures shape { IfOk result (λ a. (a.kind ≡ kind_of dtype.now) × (variable_rows a.offsets ≡ rows)) }
    ensures gives { LeafGiven (S.content source.old) body is_little_endian nodes.old.items buffers.old.items (λ a. a) result (kind_of dtype.now) rows (λ m p. variable_read m (kind_of dtype.now) (offsets_by O.IS_LARGE) p rows) }
    ensures shortened { LeafShortened (kind_of dtype.now) nodes.old.items nodes.new.items buffers.old.items buffers.new.items }
    ensures cause { HasReadCause (S.faults source.old) (S.faults source.new) result }
    ensures faults_stay { LeavesFaults (S.faults source.old) (S.faults source.new) result }
    ensures kept { SourceKept S.content S.faults S.references source.old source.new }
    ensures fetched { LeafFetched (kind_of dtype.now) nodes.old.items buffers.old.items rows (S.fetched source.old) (S.fetched source.new) }
{
    let mut variadic = VecDeque::new(alloc);
    let mut reader = ColumnReader {
        nodes,
        variadic: &mut variadic,
        buffers: BufferReader {
            alloc,
            queue: buffers,
            source,
            body,
            is_little_endian,
        },
        version: MetadataVersion::V5,
    };
    reader.read_variable::<O, ByteRows>(dtype, rows)
}

/// An array of texts, as far as its first rows go. The bytes of all rows are read.
///
/// # Errors
///
/// `OutOfSpec` where the node or a buffer is missing or damaged, or the text of a row that is not null is no UTF-8; `ReadFault`, `Memory`.
pub fn read_utf8<O: Offset, S: Source>(
    alloc: Global,
    nodes: &mut VecDeque<FieldNode>,
    dtype: &ArrowDataType,
    buffers: &mut VecDeque<IpcBuffer>,
    source: &mut S,
    body: Body,
    is_little_endian: bool,
    rows: usize,
    scratch: &mut Vec<u8>,
) -> Result<Utf8Array<O>, IpcError>
    requires kind { is_variable true O.IS_LARGE (physical_of (kind_of dtype.now)) ≡ true }
    requires readable { Readable (S.content source.old) body }
    ensures queues { LeafTaken (kind_of dtype.now) nodes.old.items nodes.new.items buffers.old.items buffers.new.items result }
    ensures shape { IfOk result (λ a. (a.kind ≡ kind_of dtype.now) × (variable_rows a.offsets ≡ rows)) }
    ensures gives { LeafGiven (S.content source.old) body is_little_endian nodes.old.items buffers.old.items (λ a. a) result (kind_of dtype.now) rows (λ m p. variable_read m (kind_of dtype.now) (offsets_by O.IS_LARGE) p rows) }
    ensures shortened { LeafShortened (kind_of dtype.now) nodes.old.items nodes.new.items buffers.old.items buffers.new.items }
    ensures cause { HasReadCause (S.faults source.old) (S.faults source.new) result }
    ensures faults_stay { LeavesFaults (S.faults source.old) (S.faults source.new) result }
    ensures kept { SourceKept S.content S.faults S.references source.old source.new }
    ensures fetched { LeafFetched (kind_of dtype.now) nodes.old.items buffers.old.items rows (S.fetched source.old) (S.fetched source.new) }
{
    let mut variadic = VecDeque::new(alloc);
    let mut reader = ColumnReader {
        nodes,
        variadic: &mut variadic,
        buffers: BufferReader {
            alloc,
            queue: buffers,
            source,
            body,
            is_little_endian,
        },
        version: MetadataVersion::V5,
    };
    reader.read_variable::<O, TextRows>(dtype, rows)
}
