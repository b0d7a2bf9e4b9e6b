//! Types and offsets of unions (Arrow Columnar Format, "Union Layout").
ghost use Rattle.std.specs.Prelude.{◌≡◌, ◌⊎◌, ℕ, suc, ◌+◌, ◌≤◌, ◌++◌, length, slice_get, true, false, Some, None, IfOk, IfErr, IfSome, IfNone};
ghost use Rattle.arrow_spec.specs.Arrays.{types_buffer};
ghost use Rattle.arrow_spec.specs.Counts.{RecordBatch as Batch, Place, has_union_validity, union_buffers};
ghost use Rattle.arrow_spec.specs.declared.types.UnionMode.TheVariants.{Dense};
ghost use Rattle.arrow_spec.specs.declared.error.IpcError.TheVariants.{Memory, OutOfSpec};
ghost use Rattle.arrow_spec.specs.declared.error.OutOfSpecKind.TheVariants.{InvalidOffsets, InvalidUnion};
ghost use Rattle.arrow_types.specs.KindOf.{kind_of, fields_of};
ghost use Rattle.arrow_types.specs.Physical.{under_extensions};
ghost use Rattle.arrow_arrays.specs.Heads.{tagged, is_union, has_offsets, tagged_rows, fits_places, have_ids, ids_in, child_fields, are_of};
ghost use Rattle.arrow_arrays.specs.Parts.{nested, kinds_each, rows_each, fault_each};
ghost use Rattle.arrow_arrays.specs.PartsOf.{parts_of, forest_of};
ghost use Rattle.ipc_read_laws.specs.Faults.{stated};
ghost use Rattle.ipc_read.specs.Queues.{Left, Shortened};
ghost use Rattle.ipc_read.specs.Readers.{LeavesReadFaults, KnownTo, CanRead, KeepsSource, KeepsQueues, FailsToRead, FailsToReadColumn, TakesBuffer, ShortensBuffers, GivesNumbers, FetchesBuffer, TreeAt};
ghost use Rattle.ipc_read.specs.Sources.{Answers, IsRefusal, bytes_where};
ghost use Rattle.ipc_read.specs.Unions.{is_any_union, union_as, union_validities, is_dense, union_places, places_stated, union_validity_faults, rows_faults, places_faults, union_parts_faults, union_top, tagged_by, types_in, places_in, union_top_read, union_fetched, children_rows};

use crate::buffers::{pass_buffer, reads_validity};
use crate::child_rows::ChildRows;
use crate::readers::{BufferReader, ColumnReader};
use crate::rows::take_node;
use arrow_arrays::{Array, UnionArray};
use arrow_buffers::{ArrayError, Buffer};
use arrow_spec::{
    Feature, FieldNode, IpcBuffer, IpcError, MetadataVersion, OutOfSpecKind, UnionMode,
};
use arrow_types::{ArrowDataType, Field};
use ipc_schema::Source;
use std::alloc::Global;
use std::collections::VecDeque;

/// The parts of an array of unions but for its children, as they were read.
#[derive(Drop)]
pub(crate) struct UnionParts {
    pub types: Buffer<i8>,
    pub offsets: Option<Buffer<i32>>,
}

/// The fields of unions and their mode, extensions looked through; none of other types.
pub(crate) fn union_fields(dtype: &ArrowDataType) -> Option<(&[Field], UnionMode)>
    ensures union { IfSome result (λ r. under_extensions (kind_of dtype.now) ≡ union_as (kind_of dtype.now) r.1 (fields_of r.0.now)) }
    ensures none { IfNone result (is_any_union (kind_of dtype.now) ≡ false) }
{
    match dtype {
        ArrowDataType::Union(union) => Some((union.fields.as_slice(), union.mode)),
        ArrowDataType::Extension(extension) => union_fields(&extension.inner),
        _ => None,
    }
}

/// The rows that the children of unions are read for: those of the dense are read whole, where there are rows.
pub(crate) fn children_rows(mode: UnionMode, rows: usize) -> ChildRows
    ensures { result ≡ children_rows mode rows }
{
    match mode {
        UnionMode::Sparse => ChildRows::Same(rows),
        UnionMode::Dense => {
            if rows == 0 {
                ChildRows::Same(0)
            } else {
                ChildRows::Stated
            }
        }
    }
}

/// Whether a validity stands before a union's types.
fn has_union_validity(version: MetadataVersion) -> bool
    ensures { result ≡ has_union_validity version }
{
    match version {
        MetadataVersion::V5 => false,
        _ => true,
    }
}

/// Passes over the validity before a union's types, where there is one. It is not looked at, and nulls are refused.
fn pass_union_validity(
    buffers: &mut VecDeque<IpcBuffer>,
    version: MetadataVersion,
    rows: usize,
    node: FieldNode,
) -> Result<(), IpcError>
    ensures takes { IfOk result (λ _. (m : Batch) (p : Place) → m.version ≡ version → Left m.buffers p.buffer buffers.old.items → Left m.buffers (types_buffer m p) buffers.new.items) }
    ensures gives { (m : Batch) (p : Place) → m.version ≡ version → Left m.buffers p.buffer buffers.old.items → slice_get m.nodes p.node ≡ Some node → Answers (λ u. u) result (union_validity_faults m p rows) tt }
    ensures shortened { Shortened buffers.old.items (union_validities version) buffers.new.items }
    ensures refusal { IfErr result IsRefusal }
{
    if !has_union_validity(version) {
        return Ok(());
    }
    pass_buffer(buffers)?;
    if reads_validity(rows, node) {
        return Err(IpcError::Unsupported(Feature::UnionNulls));
    }
    Ok(())
}

/// The array of unions of these parts. Where they are dense each offset is to be a row of its child, and each type is to be an id.
pub(crate) fn make_union(
    alloc: Global,
    dtype: &ArrowDataType,
    parts: UnionParts,
    fields: Vec<Array>,
) -> Result<Array, IpcError>
    requires suits { is_union (has_offsets parts.offsets) (kind_of dtype.now) ≡ true }
    requires kinds { are_of (child_fields (kind_of dtype.now)) (kinds_each (forest_of fields.items)) ≡ true }
    requires rows { tagged_rows parts.offsets (length parts.types) (rows_each (forest_of fields.items)) ≡ true }
    requires sound { fault_each (forest_of fields.items) ≡ None }
    ensures parts { IfOk result (λ a. parts_of a ≡ nested (tagged (tagged_by (kind_of dtype.now) (union_top parts.types parts.offsets))) (forest_of fields.items)) }
    ensures places { IfOk result (λ _. fits_places (ids_in (kind_of dtype.now)) parts.types parts.offsets (rows_each (forest_of fields.items)) ≡ true) }
    ensures ids { IfOk result (λ _. have_ids (ids_in (kind_of dtype.now)) parts.types ≡ true) }
    ensures err { IfErr result (λ e. (e ≡ Memory) ⊎ (((e ≡ OutOfSpec InvalidOffsets) × (fits_places (ids_in (kind_of dtype.now)) parts.types parts.offsets (rows_each (forest_of fields.items)) ≡ false)) ⊎ ((e ≡ OutOfSpec InvalidUnion) × (have_ids (ids_in (kind_of dtype.now)) parts.types ≡ false)))) }
{
    let dtype = dtype.try_clone(alloc)?;
    match UnionArray::try_new(dtype, parts.types, fields, parts.offsets) {
        Ok(array) => Ok(Array::Union(array)),
        Err(ArrayError::Offsets) => Err(IpcError::OutOfSpec(OutOfSpecKind::InvalidOffsets)),
        Err(ArrayError::UnionType) => Err(IpcError::OutOfSpec(OutOfSpecKind::InvalidUnion)),
        Err(_) => unreachable!(),
    }
}

impl<'a, S: Source> BufferReader<'a, S> {
    /// Takes the next buffer, and reads its first types where there are rows.
    fn read_types(&mut self, rows: usize) -> Result<Buffer<i8>, IpcError>
        requires readable { CanRead S.content self.old }
        ensures takes { TakesBuffer self.old self.new result }
        ensures gives { GivesNumbers S.content self.old (λ b. b) result (λ m i. rows_faults m i 1 rows) (λ m i. types_in m i rows) }
        ensures shortened { ShortensBuffers 1 self.old self.new }
        ensures rows { IfOk result (λ b. length b ≡ rows) }
        ensures cause { FailsToRead S.faults self.old self.new result }
        ensures faults_stay { LeavesReadFaults S.faults self.old self.new result }
        ensures keeps { KeepsSource S.content S.faults S.references self.old self.new }
        ensures fetched { FetchesBuffer S.fetched self.old self.new (λ m i. bytes_where rows (stated m i)) }
    {
        self.read_items::<i8>(rows)
    }

    /// The same of offsets.
    fn read_dense_places(&mut self, rows: usize) -> Result<Buffer<i32>, IpcError>
        requires readable { CanRead S.content self.old }
        ensures takes { TakesBuffer self.old self.new result }
        ensures gives { GivesNumbers S.content self.old (λ b. Some b) result (λ m i. places_faults m Dense i rows) (λ m i. places_in m Dense i rows) }
        ensures shortened { ShortensBuffers 1 self.old self.new }
        ensures rows { IfOk result (λ b. length b ≡ rows) }
        ensures cause { FailsToRead S.faults self.old self.new result }
        ensures faults_stay { LeavesReadFaults S.faults self.old self.new result }
        ensures keeps { KeepsSource S.content S.faults S.references self.old self.new }
        ensures fetched { FetchesBuffer S.fetched self.old self.new (λ m i. bytes_where rows (stated m i)) }
    {
        self.read_items::<i32>(rows)
    }

    /// Where unions are dense, takes the next buffer, and reads its first offsets where there are rows.
    fn read_places(&mut self, mode: UnionMode, rows: usize) -> Result<Option<Buffer<i32>>, IpcError>
        requires readable { CanRead S.content self.old }
        ensures takes { IfOk result (λ _. (m : Batch) (i : ℕ) → Left m.buffers i self.old.queue.now.items → Left m.buffers (i + union_places mode) self.new.queue.now.items) }
        ensures gives { GivesNumbers S.content self.old (λ b. b) result (λ m i. places_faults m mode i rows) (λ m i. places_in m mode i rows) }
        ensures shortened { ShortensBuffers (union_places mode) self.old self.new }
        ensures mode { IfOk result (λ b. has_offsets b ≡ is_dense mode) }
        ensures rows { IfOk result (λ b. IfSome b (λ xs. length xs ≡ rows)) }
        ensures cause { FailsToRead S.faults self.old self.new result }
        ensures faults_stay { LeavesReadFaults S.faults self.old self.new result }
        ensures keeps { KeepsSource S.content S.faults S.references self.old self.new }
        ensures fetched { FetchesBuffer S.fetched self.old self.new (λ m i. bytes_where rows (places_stated m mode i)) }
    {
        match mode {
            UnionMode::Sparse => Ok(None),
            UnionMode::Dense => {
                let places = self.read_dense_places(rows)?;
                Ok(Some(places))
            }
        }
    }
}

impl<'n, 'a, S: Source> ColumnReader<'n, 'a, S> {
    /// Takes a node, before V5 a validity, types, and where unions are dense offsets.
    pub(crate) fn read_union_parts(
        &mut self,
        mode: UnionMode,
        rows: usize,
    ) -> Result<UnionParts, IpcError>
        requires readable { CanRead S.content self.old.buffers }
        ensures takes { IfOk result (λ _. (m : Batch) (p : Place) → TreeAt m p self.old → Left m.nodes (suc p.node) self.new.nodes.now.items × Left m.buffers (p.buffer + union_buffers m.version mode) self.new.buffers.queue.now.items) }
        ensures gives { (m : Batch) (p : Place) → TreeAt m p self.old → KnownTo S.content self.old.buffers m → Answers (λ x. union_top x.types x.offsets) result (union_parts_faults m mode p rows) (union_top_read m mode p rows) }
        ensures shortened { Shortened self.old.nodes.now.items 1 self.new.nodes.now.items }
        ensures buffers { ShortensBuffers (union_buffers self.old.version mode) self.old.buffers self.new.buffers }
        ensures counts { self.new.variadic.now.items ≡ self.old.variadic.now.items }
        ensures mode { IfOk result (λ x. has_offsets x.offsets ≡ is_dense mode) }
        ensures rows { IfOk result (λ x. length x.types ≡ rows) }
        ensures places { IfOk result (λ x. IfSome x.offsets (λ xs. length xs ≡ rows)) }
        ensures cause { FailsToReadColumn S.faults self.old self.new result }
        ensures faults_stay { LeavesReadFaults S.faults self.old.buffers self.new.buffers result }
        ensures keeps { KeepsQueues S.content S.faults S.references self.old self.new }
        ensures fetched { (m : Batch) (p : Place) → TreeAt m p self.old → S.fetched self.new.buffers.source.now ≤ S.fetched self.old.buffers.source.now + union_fetched m mode p rows }
    {
        let node = take_node(self.nodes, rows)?;
        pass_union_validity(self.buffers.queue, self.version, rows, node)?;
        let types = self.buffers.read_types(rows)?;
        let offsets = self.buffers.read_places(mode, rows)?;
        Ok(UnionParts { types, offsets })
    }
}
