//! Offsets of lists and of maps (Arrow Columnar Format, "Variable-size List Layout", "Map Layout").
ghost use Rattle.std.specs.Prelude.{◌≡◌, ℕ, suc, ◌+◌, ◌^◌, ◌<◌, ◌≤◌, ◌++◌, ◌∷◌, [], pos, length, map, true, false, Option, List, ℤ, Bool, IfOk, IfErr, IfSome, IfNone};
ghost use Rattle.arrow_spec.specs.Counts.{RecordBatch as Batch, Place};
ghost use Rattle.arrow_spec.specs.Faults.{offsets_buffer_faults};
ghost use Rattle.arrow_spec.specs.Kinds.{«list», small};
ghost use Rattle.arrow_spec.specs.declared.error.IpcError.TheVariants.{Memory};
ghost use Rattle.arrow_types.specs.Child.{one_field};
ghost use Rattle.arrow_types.specs.KindOf.{kind_of, child_of};
ghost use Rattle.arrow_types.specs.Numbers.{offsets_by};
ghost use Rattle.arrow_buffers.specs.Rows.{has_rows};
ghost use Rattle.arrow_buffers.specs.Variable.{place_at, are_offsets, variable_rows};
ghost use Rattle.arrow_arrays.specs.Heads.{listed, mapped, suits, is_list, is_map, child_fields, are_of};
ghost use Rattle.arrow_arrays.specs.OffsetsOf.{offsets_in, width_in};
ghost use Rattle.arrow_arrays.specs.Parts.{nested, kind_in, rows_in};
ghost use Rattle.arrow_arrays.specs.PartsOf.{parts_of, only};
ghost use Rattle.ipc_read_laws.specs.PartsRead.{validity_read};
ghost use Rattle.ipc_read_laws.specs.Faults.{stated};
ghost use Rattle.ipc_read.specs.Lists.{is_any_list, is_any_map, as_lists, list_head, list_faults, list_top};
ghost use Rattle.ipc_read.specs.Queues.{Left, short_of, Shortened};
ghost use Rattle.ipc_read.specs.Readers.{LeavesReadFaults, LeafAt, KnownTo, CanRead, KeepsSource, KeepsQueues, FailsToRead, FailsToReadColumn, TakesBuffer, ShortensBuffers, GivesNumbers, FetchesBuffer};
ghost use Rattle.ipc_read.specs.Sources.{Answers, offsets_of_rows, faults_where, bytes_where, validity_fetched};

use crate::child_rows::next_end;
use crate::readers::{BufferReader, ColumnReader};
use arrow_arrays::{Array, ListOffsets, MapArray, list_of};
use arrow_buffers::{ArrayError, Bitmap, Buffer, place_of, rise_within};
use arrow_spec::{IpcError, OutOfSpecKind};
use arrow_types::{ArrowDataType, Field, Offset};
use ipc_schema::Source;
use std::alloc::Global;

/// The parts of an array of lists or of maps but for its child, as they were read, and where the last list ends.
#[derive(Drop)]
pub(crate) struct ListParts {
    pub offsets: ListOffsets,
    pub validity: Option<Bitmap>,
    pub last: usize,
}

/// The child of lists or of maps, and whether their offsets have 64 bits, extensions looked through; none of other types.
pub(crate) fn list_child(dtype: &ArrowDataType) -> Option<(&Field, bool)>
    ensures child { IfSome result (λ r. as_lists (kind_of dtype.now) ≡ «list» (offsets_by r.1) (one_field (child_of r.0.now))) }
    ensures none { IfNone result (is_any_list (kind_of dtype.now) ≡ false) }
{
    match dtype {
        ArrowDataType::List(child) => Some((child, false)),
        ArrowDataType::LargeList(child) => Some((child, true)),
        ArrowDataType::Map(child, _) => Some((child, false)),
        ArrowDataType::Extension(extension) => list_child(&extension.inner),
        _ => None,
    }
}

/// Where the last of some rows ends; none where the offsets do not rise within a length.
fn last_of<O: Offset>(offsets: &Buffer<O>, rows: usize, most: usize) -> Option<usize>
    requires rows { rows < length offsets.now }
    ensures some { IfSome result (λ n. (n ≡ place_at (map O.number offsets.now) rows) × (are_offsets (map O.number offsets.now) most ≡ true)) }
    ensures none { IfNone result (are_offsets (map O.number offsets.now) most ≡ false) }
{
    if !rise_within(offsets, most) {
        return None;
    }
    Some(place_of(offsets, rows, most))
}

/// The same of offsets of either width.
fn last_place(offsets: &ListOffsets, rows: usize, most: usize) -> Option<usize>
    requires rows { rows < length (offsets_in offsets.now) }
    ensures some { IfSome result (λ n. (n ≡ place_at (offsets_in offsets.now) rows) × (are_offsets (offsets_in offsets.now) most ≡ true)) }
    ensures none { IfNone result (are_offsets (offsets_in offsets.now) most ≡ false) }
{
    match offsets {
        ListOffsets::Small(offsets) => last_of(offsets, rows, most),
        ListOffsets::Large(offsets) => last_of(offsets, rows, most),
    }
}

/// Whether a type is of maps, extensions looked through.
fn is_any_map(dtype: &ArrowDataType) -> bool
    ensures { result ≡ is_any_map (kind_of dtype.now) }
{
    match dtype {
        ArrowDataType::Map(_, _) => true,
        ArrowDataType::Extension(extension) => is_any_map(&extension.inner),
        _ => false,
    }
}

/// The array of lists, or of maps, of these parts.
pub(crate) fn make_listed(
    alloc: Global,
    dtype: &ArrowDataType,
    parts: ListParts,
    values: Array,
) -> Result<Array, IpcError>
    requires suits { suits (list_head (is_any_map (kind_of dtype.now)) (record { kind = kind_of dtype.now; width = width_in parts.offsets; offsets = offsets_in parts.offsets; validity = parts.validity })) ≡ true }
    requires kinds { are_of (child_fields (kind_of dtype.now)) (kind_in (parts_of values) ∷ []) ≡ true }
    requires rows { has_rows parts.validity (variable_rows (offsets_in parts.offsets)) ≡ true }
    requires rise { are_offsets (offsets_in parts.offsets) (rows_in (parts_of values)) ≡ true }
    ensures parts { IfOk result (λ a. parts_of a ≡ nested (list_head (is_any_map (kind_of dtype.now)) (record { kind = kind_of dtype.now; width = width_in parts.offsets; offsets = offsets_in parts.offsets; validity = parts.validity })) (only values)) }
    ensures memory { IfErr result (λ e. e ≡ Memory) }
{
    if is_any_map(dtype) {
        make_map(alloc, dtype, parts, values)
    } else {
        make_list(alloc, dtype, parts, values)
    }
}

/// The array of maps of these parts.
fn make_map(
    alloc: Global,
    dtype: &ArrowDataType,
    parts: ListParts,
    values: Array,
) -> Result<Array, IpcError>
    requires suits { is_map (width_in parts.offsets) (kind_of dtype.now) ≡ true }
    requires kinds { are_of (child_fields (kind_of dtype.now)) (kind_in (parts_of values) ∷ []) ≡ true }
    requires rows { has_rows parts.validity (variable_rows (offsets_in parts.offsets)) ≡ true }
    requires rise { are_offsets (offsets_in parts.offsets) (rows_in (parts_of values)) ≡ true }
    ensures parts { IfOk result (λ a. parts_of a ≡ nested (mapped (record { kind = kind_of dtype.now; width = width_in parts.offsets; offsets = offsets_in parts.offsets; validity = parts.validity })) (only values)) }
    ensures memory { IfErr result (λ e. e ≡ Memory) }
{
    let dtype = dtype.try_clone(alloc)?;
    let held = values.len();
    let _ = held;
    let ListParts {
        offsets,
        validity,
        ..
    } = parts;
    match offsets {
        ListOffsets::Small(offsets) => {
            match MapArray::try_new(alloc, dtype, offsets, values, validity) {
                Ok(array) => Ok(Array::Map(array)),
                Err(ArrayError::Memory) => Err(IpcError::Memory),
                Err(_) => unreachable!(),
            }
        }
        ListOffsets::Large(_) => unreachable!(),
    }
}

/// The array of lists of these parts.
fn make_list(
    alloc: Global,
    dtype: &ArrowDataType,
    parts: ListParts,
    values: Array,
) -> Result<Array, IpcError>
    requires suits { is_list (width_in parts.offsets) (kind_of dtype.now) ≡ true }
    requires kinds { are_of (child_fields (kind_of dtype.now)) (kind_in (parts_of values) ∷ []) ≡ true }
    requires rows { has_rows parts.validity (variable_rows (offsets_in parts.offsets)) ≡ true }
    requires rise { are_offsets (offsets_in parts.offsets) (rows_in (parts_of values)) ≡ true }
    ensures parts { IfOk result (λ a. parts_of a ≡ nested (listed (record { kind = kind_of dtype.now; width = width_in parts.offsets; offsets = offsets_in parts.offsets; validity = parts.validity })) (only values)) }
    ensures memory { IfErr result (λ e. e ≡ Memory) }
{
    let dtype = dtype.try_clone(alloc)?;
    let held = values.len();
    let _ = held;
    let array = list_of(alloc, dtype, parts.offsets, values, parts.validity)?;
    Ok(Array::List(array))
}

impl<'a, S: Source> BufferReader<'a, S> {
    /// Takes the next buffer, and reads one offset more than there are rows, of either width.
    fn read_list_offsets(&mut self, is_large: bool, rows: usize) -> Result<ListOffsets, IpcError>
        requires few { rows < 2 ^ 63 }
        requires readable { CanRead S.content self.old }
        ensures takes { TakesBuffer self.old self.new result }
        ensures gives { GivesNumbers S.content self.old (λ b. offsets_in b) result (λ m i. short_of m.buffers i ++ faults_where rows (offsets_buffer_faults m (offsets_by is_large) i rows)) (λ m i. offsets_of_rows m (offsets_by is_large) i rows) }
        ensures width { IfOk result (λ b. width_in b ≡ offsets_by is_large) }
        ensures rows { IfOk result (λ b. length (offsets_in b) ≡ rows + 1) }
        ensures none { IfOk result (λ b. rows ≡ 0 → offsets_in b ≡ pos 0 ∷ []) }
        ensures shortened { ShortensBuffers 1 self.old self.new }
        ensures cause { FailsToRead S.faults self.old self.new result }
        ensures faults_stay { LeavesReadFaults S.faults self.old self.new result }
        ensures keeps { KeepsSource S.content S.faults S.references self.old self.new }
        ensures fetched { FetchesBuffer S.fetched self.old self.new (λ m i. bytes_where rows (stated m i)) }
    {
        if is_large {
            let offsets = self.read_offsets::<i64>(rows)?;
            return Ok(ListOffsets::Large(offsets));
        }
        let offsets = self.read_offsets::<i32>(rows)?;
        Ok(ListOffsets::Small(offsets))
    }
}

impl<'n, 'a, S: Source> ColumnReader<'n, 'a, S> {
    /// Takes a node, a validity and offsets, which rise within the rows of the next node. A node that is missing or negative is told when it is taken.
    pub(crate) fn read_list_parts(
        &mut self,
        is_large: bool,
        rows: usize,
    ) -> Result<ListParts, IpcError>
        requires readable { CanRead S.content self.old.buffers }
        ensures takes { IfOk result (λ _. (m : Batch) (p : Place) → LeafAt m p self.old → Left m.nodes (suc p.node) self.new.nodes.now.items × Left m.buffers (p.buffer + 2) self.new.buffers.queue.now.items) }
        ensures gives { (m : Batch) (p : Place) → LeafAt m p self.old → KnownTo S.content self.old.buffers m → Answers (λ x. list_top (offsets_in x.offsets) x.validity) result (list_faults m p rows (offsets_by is_large)) (list_top (offsets_of_rows m (offsets_by is_large) (p.buffer + 1) rows) (validity_read m p rows)) }
        ensures shortened { Shortened self.old.nodes.now.items 1 self.new.nodes.now.items }
        ensures buffers { ShortensBuffers 2 self.old.buffers self.new.buffers }
        ensures counts { self.new.variadic.now.items ≡ self.old.variadic.now.items }
        ensures width { IfOk result (λ x. width_in x.offsets ≡ offsets_by is_large) }
        ensures offsets { IfOk result (λ x. length (offsets_in x.offsets) ≡ rows + 1) }
        ensures last { IfOk result (λ x. x.last ≡ place_at (offsets_in x.offsets) rows) }
        ensures none { IfOk result (λ x. rows ≡ 0 → x.last ≡ 0) }
        ensures rise { IfOk result (λ x. are_offsets (offsets_in x.offsets) x.last ≡ true) }
        ensures rows { IfOk result (λ x. has_rows x.validity rows ≡ true) }
        ensures cause { FailsToReadColumn S.faults self.old self.new result }
        ensures faults_stay { LeavesReadFaults S.faults self.old.buffers self.new.buffers result }
        ensures keeps { KeepsQueues S.content S.faults S.references self.old self.new }
        ensures fetched { (m : Batch) (p : Place) → LeafAt m p self.old → S.fetched self.new.buffers.source.now ≤ S.fetched self.old.buffers.source.now + (validity_fetched m p rows + bytes_where rows (stated m (p.buffer + 1))) }
    {
        let validity = self.read_head(rows)?;
        let offsets = self.buffers.read_list_offsets(is_large, rows)?;
        let most = next_end(self.nodes);
        match last_place(&offsets, rows, most) {
            Some(last) => Ok(ListParts {
                offsets,
                validity,
                last,
            }),
            None => Err(IpcError::OutOfSpec(OutOfSpecKind::InvalidOffsets)),
        }
    }
}
