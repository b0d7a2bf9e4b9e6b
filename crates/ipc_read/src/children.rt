//! Arrays with children (Arrow Columnar Format, "Variable-size List Layout", "Fixed-Size List Layout", "Map Layout", "Struct Layout", "Union Layout").
ghost use Rattle.std.specs.Prelude.{◌≡◌, ℕ, suc, ◌+◌, ◌*◌, ◌^◌, ◌≤◌, ◌++◌, [], length, slice_get, true, false, IfOk, IfErr, IfSome, IfNone, None};
ghost use Rattle.arrow_spec.specs.Counts.{RecordBatch as Batch, Place};
ghost use Rattle.arrow_spec.specs.Kinds.{«list»};
ghost use Rattle.arrow_spec.specs.Readings.{Refuses};
ghost use Rattle.arrow_spec.specs.Arrays.{from_on, Dictionaries as History};
ghost use Rattle.arrow_spec.specs.ArrayCells.{cell};
ghost use Rattle.arrow_spec.specs.Faults.{child_faults, node_causes};
ghost use Rattle.arrow_spec.specs.declared.error.IpcError.TheVariants.{Memory};
ghost use Rattle.arrow_types.specs.KindOf.{kind_of, child_of, fields_of};
ghost use Rattle.arrow_types.specs.Child.{one_field};
ghost use Rattle.arrow_types.specs.Numbers.{offsets_by};
ghost use Rattle.arrow_types.specs.Physical.{under_extensions};
ghost use Rattle.arrow_buffers.specs.Rows.{has_rows};
ghost use Rattle.arrow_arrays.specs.Heads.{structured, sized, suits, is_struct, is_sized, list_size, child_fields, are_of, are_all};
ghost use Rattle.arrow_arrays.specs.Parts.{nested, kind_in, rows_in, cells_in, kinds_each, rows_each, fault_each};
ghost use Rattle.arrow_arrays.specs.PartsOf.{parts_of, forest_of};
ghost use Rattle.ipc_read_laws.specs.Held.{HoldsCells, HoldsKinds, HoldsFields, HasKinds, HasFields};
ghost use Rattle.ipc_read_laws.specs.PartsRead.{parts_read, forest_read, HaveBytes, AllHaveBytes};
ghost use Rattle.ipc_read.specs.Batches.{columns_fetched};
ghost use Rattle.ipc_read.specs.Places.{behind, place_faults};
ghost use Rattle.ipc_read.specs.Queues.{Left, AllAt};
ghost use Rattle.arrow_arrays.specs.Carried.{is_carried, are_carried};
ghost use Rattle.ipc_read.specs.CountedArrays.{is_any_counted, counted_kind, counted_rows, counted_head, items_faults};
ghost use Rattle.ipc_read.specs.Held.{held_in, column_kind, column_fields};
ghost use Rattle.ipc_read.specs.Lists.{is_any_list, as_lists};
ghost use Rattle.ipc_read.specs.ChildRows.{rows_by, rows_of_each};
ghost use Rattle.ipc_read.specs.Unions.{is_any_union, union_as};
ghost use Rattle.ipc_read.specs.Readers.{LeavesReadFaults, TreeAt, KnownTo, CanRead, KeepsQueues, FailsToReadColumn, TakesTree, GivesTree, FetchesTree, ShortensTree, ShortensTrees};
ghost use Rattle.ipc_read.specs.Sources.{Answers, IsRefusal};

use crate::child_rows::{ChildRows, rows_of_next};
use crate::dictionaries::{Dictionaries, dictionary_types, id_or_zero};
use crate::integers::is_negative;
use crate::lists::{list_child, make_listed};
use crate::readers::ColumnReader;
use crate::unions::{children_rows, make_union, union_fields};
use arrow_arrays::{Array, FixedSizeListArray, StructArray};
use arrow_buffers::{ArrayError, Bitmap};
use arrow_spec::{FieldNode, IpcError, OutOfSpecKind};
use arrow_types::{ArrowDataType, Field, UnionMode};
use ipc_fields::IpcField;
use ipc_fields::uses::{fields_at, id_at};
use ipc_schema::Source;
use std::alloc::Global;
use std::collections::VecDeque;
use std::slice::from_ref;

/// The fields of structs, or the field of lists of one size with that size, extensions looked through; none of other types.
pub(crate) fn counted_fields(dtype: &ArrowDataType) -> Option<(&[Field], Option<usize>)>
    ensures columns { IfSome result (λ r. under_extensions (kind_of dtype.now) ≡ counted_kind r.1 (fields_of r.0.now)) }
    ensures none { IfNone result (is_any_counted (kind_of dtype.now) ≡ false) }
{
    match dtype {
        ArrowDataType::Struct(fields) => Some((fields.as_slice(), None)),
        ArrowDataType::FixedSizeList(field, size) => Some((from_ref(field), Some(*size))),
        ArrowDataType::Extension(extension) => counted_fields(&extension.inner),
        _ => None,
    }
}

/// Why an array of more rows than can be counted is refused: its node is missing or below 0, or has fewer.
fn refuse_rows(nodes: &VecDeque<FieldNode>) -> IpcError
    ensures refuses { (m : Batch) (i rows : ℕ) → Left m.nodes i nodes.now.items → 2 ^ 63 ≤ rows → Refuses result (node_causes (slice_get m.nodes i) rows) }
    ensures refusal { IsRefusal result }
{
    match nodes.front() {
        Some(node) => {
            if is_negative(node.length) {
                return IpcError::OutOfSpec(OutOfSpecKind::UnexpectedNegativeInteger);
            }
            IpcError::OutOfSpec(OutOfSpecKind::NodeLength)
        }
        None => IpcError::OutOfSpec(OutOfSpecKind::ExpectedBuffer),
    }
}

/// How many rows the children of structs have, or the items of lists of one size, of which the node is the next one.
fn rows_under(
    nodes: &VecDeque<FieldNode>,
    size: Option<usize>,
    rows: usize,
) -> Result<usize, IpcError>
    ensures rows { IfOk result (λ n. n ≡ counted_rows size rows) }
    ensures err { IfErr result (λ e. (m : Batch) (i : ℕ) → Left m.nodes i nodes.now.items → Refuses e (items_faults (slice_get m.nodes i) size rows)) }
    ensures refusal { IfErr result IsRefusal }
{
    let Some(size) = size else {
        return Ok(rows);
    };
    match size.checked_mul(rows) {
        Some(items) => Ok(items),
        None => Err(refuse_rows(nodes)),
    }
}

/// The array of structs of these columns.
fn make_struct(
    alloc: Global,
    dtype: &ArrowDataType,
    rows: usize,
    values: Vec<Array>,
    validity: Option<Bitmap>,
) -> Result<Array, IpcError>
    requires suits { is_struct (kind_of dtype.now) ≡ true }
    requires kinds { are_of (child_fields (kind_of dtype.now)) (kinds_each (forest_of values.items)) ≡ true }
    requires all { are_all rows (rows_each (forest_of values.items)) ≡ true }
    requires sound { fault_each (forest_of values.items) ≡ None }
    requires rows { has_rows validity rows ≡ true }
    ensures parts { IfOk result (λ a. parts_of a ≡ nested (structured (record { kind = kind_of dtype.now; rows = rows; validity = validity })) (forest_of values.items)) }
    ensures memory { IfErr result (λ e. e ≡ Memory) }
{
    let dtype = dtype.try_clone(alloc)?;
    match StructArray::try_new(dtype, rows, values, validity) {
        Ok(array) => Ok(Array::Struct(array)),
        Err(_) => unreachable!(),
    }
}

/// The array of lists of one size of these items.
fn make_sized(
    alloc: Global,
    dtype: &ArrowDataType,
    rows: usize,
    values: Vec<Array>,
    validity: Option<Bitmap>,
) -> Result<Array, IpcError>
    requires suits { is_sized (kind_of dtype.now) ≡ true }
    requires kinds { are_of (child_fields (kind_of dtype.now)) (kinds_each (forest_of values.items)) ≡ true }
    requires all { are_all (list_size (kind_of dtype.now) * rows) (rows_each (forest_of values.items)) ≡ true }
    requires one { length values.items ≡ 1 }
    requires sound { fault_each (forest_of values.items) ≡ None }
    requires rows { has_rows validity rows ≡ true }
    ensures parts { IfOk result (λ a. parts_of a ≡ nested (sized (record { kind = kind_of dtype.now; rows = rows; validity = validity })) (forest_of values.items)) }
    ensures memory { IfErr result (λ e. e ≡ Memory) }
{
    let dtype = dtype.try_clone(alloc)?;
    let mut values = values;
    let Some(items) = values.pop() else {
        unreachable!()
    };
    match FixedSizeListArray::try_new(alloc, dtype, rows, items, validity) {
        Ok(array) => Ok(Array::FixedSizeList(array)),
        Err(ArrayError::Memory) => Err(IpcError::Memory),
        Err(_) => unreachable!(),
    }
}

/// The array of structs of these columns, or of lists of one size of these items.
fn make_counted(
    alloc: Global,
    dtype: &ArrowDataType,
    size: Option<usize>,
    rows: usize,
    values: Vec<Array>,
    validity: Option<Bitmap>,
) -> Result<Array, IpcError>
    requires suits { suits (counted_head size (record { kind = kind_of dtype.now; rows = rows; validity = validity })) ≡ true }
    requires kinds { are_of (child_fields (kind_of dtype.now)) (kinds_each (forest_of values.items)) ≡ true }
    requires all { are_all (counted_rows size rows) (rows_each (forest_of values.items)) ≡ true }
    requires size { IfSome size (λ n. list_size (kind_of dtype.now) ≡ n) }
    requires one { IfSome size (λ n. length values.items ≡ 1) }
    requires sound { fault_each (forest_of values.items) ≡ None }
    requires rows { has_rows validity rows ≡ true }
    ensures parts { IfOk result (λ a. parts_of a ≡ nested (counted_head size (record { kind = kind_of dtype.now; rows = rows; validity = validity })) (forest_of values.items)) }
    ensures memory { IfErr result (λ e. e ≡ Memory) }
{
    match size {
        None => make_struct(alloc, dtype, rows, values, validity),
        Some(_) => make_sized(alloc, dtype, rows, values, validity),
    }
}

impl<'n, 'a, S: Source> ColumnReader<'n, 'a, S> {
    /// The next array, as far as its first rows go, with its children.
    pub(crate) fn read_array(
        &mut self,
        dtype: &ArrowDataType,
        id: Option<i64>,
        fields: &[IpcField],
        dictionaries: &Dictionaries,
        rows: usize,
    ) -> Result<Array, IpcError>
        requires held { is_carried (kind_of dtype.now) ≡ true }
        requires kinds { HasKinds (held_in dictionaries.now) (column_kind dtype.now id fields.now) }
        requires readable { CanRead S.content self.old.buffers }
        ensures takes { TakesTree (column_kind dtype.now id fields.now) self.old self.new result }
        ensures parts { GivesTree S.content self.old (held_in dictionaries.now) (λ a. parts_of a) result (column_kind dtype.now id fields.now) rows (λ m d p. parts_read m (held_in dictionaries.now) (column_kind dtype.now id fields.now) p rows) }
        ensures shortened { ShortensTree (column_kind dtype.now id fields.now) self.old self.new }
        ensures shape { IfOk result (λ a. (kind_in (parts_of a) ≡ kind_of dtype.now) × (rows_in (parts_of a) ≡ rows)) }
        ensures cause { FailsToReadColumn S.faults self.old self.new result }
        ensures faults_stay { LeavesReadFaults S.faults self.old.buffers self.new.buffers result }
        ensures keeps { KeepsQueues S.content S.faults S.references self.old self.new }
        ensures fetched { FetchesTree S.fetched (column_kind dtype.now id fields.now) self.old self.new rows }
        ensures cells { GivesTree S.content self.old (held_in dictionaries.now) (λ a. cells_in (parts_of a)) result (column_kind dtype.now id fields.now) rows (λ m d p. from_on (cell m d (column_kind dtype.now id fields.now) p) 0 rows) }
    {
        self.read_tree(dtype, id, fields, dictionaries, rows)
    }

    /// An array without children: keys of a dictionary, or values.
    fn read_childless(
        &mut self,
        dtype: &ArrowDataType,
        id: Option<i64>,
        fields: &[IpcField],
        dictionaries: &Dictionaries,
        rows: usize,
    ) -> Result<Array, IpcError>
        requires counted { is_any_counted (kind_of dtype.now) ≡ false }
        requires lists { is_any_list (kind_of dtype.now) ≡ false }
        requires unions { is_any_union (kind_of dtype.now) ≡ false }
        requires held { is_carried (kind_of dtype.now) ≡ true }
        requires kinds { HasKinds (held_in dictionaries.now) (column_kind dtype.now id fields.now) }
        requires readable { CanRead S.content self.old.buffers }
        ensures takes { TakesTree (column_kind dtype.now id fields.now) self.old self.new result }
        ensures parts { GivesTree S.content self.old (held_in dictionaries.now) (λ a. parts_of a) result (column_kind dtype.now id fields.now) rows (λ m d p. parts_read m (held_in dictionaries.now) (column_kind dtype.now id fields.now) p rows) }
        ensures bytes { IfOk result (λ _. (m : Batch) (p : Place) → TreeAt m p self.old → KnownTo S.content self.old.buffers m → HaveBytes m (column_kind dtype.now id fields.now) p rows) }
        ensures sound { IfOk result (λ _. HoldsKinds (held_in dictionaries.now) (column_kind dtype.now id fields.now)) }
        ensures shortened { ShortensTree (column_kind dtype.now id fields.now) self.old self.new }
        ensures shape { IfOk result (λ a. (kind_in (parts_of a) ≡ kind_of dtype.now) × (rows_in (parts_of a) ≡ rows)) }
        ensures cause { FailsToReadColumn S.faults self.old self.new result }
        ensures faults_stay { LeavesReadFaults S.faults self.old.buffers self.new.buffers result }
        ensures keeps { KeepsQueues S.content S.faults S.references self.old self.new }
        ensures fetched { FetchesTree S.fetched (column_kind dtype.now id fields.now) self.old self.new rows }
    {
        let _ = fields;
        match dictionary_types(dtype) {
            Some((index, values)) => {
                let id = id_or_zero(id);
                let keys = self.read_dictionary(dtype, id, index, values, dictionaries, rows)?;
                Ok(Array::Dictionary(keys))
            }
            None => self.read_plain(dtype, rows),
        }
    }

    /// An array and its children.
    #[cycle(read)]
    fn read_tree(
        &mut self,
        dtype: &ArrowDataType,
        id: Option<i64>,
        fields: &[IpcField],
        dictionaries: &Dictionaries,
        rows: usize,
    ) -> Result<Array, IpcError>
        requires held { is_carried (kind_of dtype.now) ≡ true }
        requires kinds { HasKinds (held_in dictionaries.now) (column_kind dtype.now id fields.now) }
        requires readable { CanRead S.content self.old.buffers }
        ensures takes { TakesTree (column_kind dtype.now id fields.now) self.old self.new result }
        ensures parts { GivesTree S.content self.old (held_in dictionaries.now) (λ a. parts_of a) result (column_kind dtype.now id fields.now) rows (λ m d p. parts_read m (held_in dictionaries.now) (column_kind dtype.now id fields.now) p rows) }
        ensures bytes { IfOk result (λ _. (m : Batch) (p : Place) → TreeAt m p self.old → KnownTo S.content self.old.buffers m → HaveBytes m (column_kind dtype.now id fields.now) p rows) }
        ensures sound { IfOk result (λ _. HoldsKinds (held_in dictionaries.now) (column_kind dtype.now id fields.now)) }
        ensures shortened { ShortensTree (column_kind dtype.now id fields.now) self.old self.new }
        ensures shape { IfOk result (λ a. (kind_in (parts_of a) ≡ kind_of dtype.now) × (rows_in (parts_of a) ≡ rows)) }
        ensures cause { FailsToReadColumn S.faults self.old self.new result }
        ensures faults_stay { LeavesReadFaults S.faults self.old.buffers self.new.buffers result }
        ensures keeps { KeepsQueues S.content S.faults S.references self.old self.new }
        ensures fetched { FetchesTree S.fetched (column_kind dtype.now id fields.now) self.old self.new rows }
    {
        match counted_fields(dtype) {
            Some((children, size)) => {
                self.read_counted(dtype, id, fields, dictionaries, children, size, rows)
            }
            None => match list_child(dtype) {
                Some((child, is_large)) => {
                    self.read_list(dtype, id, fields, dictionaries, child, is_large, rows)
                }
                None => match union_fields(dtype) {
                    Some((children, mode)) => {
                        self.read_union(dtype, id, fields, dictionaries, children, mode, rows)
                    }
                    None => self.read_childless(dtype, id, fields, dictionaries, rows),
                },
            },
        }
    }

    /// An array of structs, or of lists of one size: a node, a validity and the columns, or the items.
    #[cycle(read)]
    fn read_counted(
        &mut self,
        dtype: &ArrowDataType,
        id: Option<i64>,
        fields: &[IpcField],
        dictionaries: &Dictionaries,
        children: &[Field],
        size: Option<usize>,
        rows: usize,
    ) -> Result<Array, IpcError>
        requires kind { under_extensions (kind_of dtype.now) ≡ counted_kind size (fields_of children.now) }
        requires held { is_carried (kind_of dtype.now) ≡ true }
        requires kinds { HasKinds (held_in dictionaries.now) (column_kind dtype.now id fields.now) }
        requires readable { CanRead S.content self.old.buffers }
        ensures takes { TakesTree (column_kind dtype.now id fields.now) self.old self.new result }
        ensures parts { GivesTree S.content self.old (held_in dictionaries.now) (λ a. parts_of a) result (column_kind dtype.now id fields.now) rows (λ m d p. parts_read m (held_in dictionaries.now) (column_kind dtype.now id fields.now) p rows) }
        ensures bytes { IfOk result (λ _. (m : Batch) (p : Place) → TreeAt m p self.old → KnownTo S.content self.old.buffers m → HaveBytes m (column_kind dtype.now id fields.now) p rows) }
        ensures sound { IfOk result (λ _. HoldsKinds (held_in dictionaries.now) (column_kind dtype.now id fields.now)) }
        ensures shortened { ShortensTree (column_kind dtype.now id fields.now) self.old self.new }
        ensures shape { IfOk result (λ a. (kind_in (parts_of a) ≡ kind_of dtype.now) × (rows_in (parts_of a) ≡ rows)) }
        ensures cause { FailsToReadColumn S.faults self.old self.new result }
        ensures faults_stay { LeavesReadFaults S.faults self.old.buffers self.new.buffers result }
        ensures keeps { KeepsQueues S.content S.faults S.references self.old self.new }
        ensures fetched { FetchesTree S.fetched (column_kind dtype.now id fields.now) self.old self.new rows }
    {
        let _ = id;
        let validity = self.read_head(rows)?;
        let under = rows_under(self.nodes, size, rows)?;
        let values = self.read_children(children, fields, dictionaries, ChildRows::Same(under))?;
        make_counted(self.buffers.alloc, dtype, size, rows, values, validity)
    }

    /// An array of lists or of maps: a node, a validity, offsets and the child as far as the last offset.
    #[cycle(read)]
    fn read_list(
        &mut self,
        dtype: &ArrowDataType,
        id: Option<i64>,
        fields: &[IpcField],
        dictionaries: &Dictionaries,
        child: &Field,
        is_large: bool,
        rows: usize,
    ) -> Result<Array, IpcError>
        requires kind { as_lists (kind_of dtype.now) ≡ «list» (offsets_by is_large) (one_field (child_of child.now)) }
        requires held { is_carried (kind_of dtype.now) ≡ true }
        requires kinds { HasKinds (held_in dictionaries.now) (column_kind dtype.now id fields.now) }
        requires readable { CanRead S.content self.old.buffers }
        ensures takes { TakesTree (column_kind dtype.now id fields.now) self.old self.new result }
        ensures parts { GivesTree S.content self.old (held_in dictionaries.now) (λ a. parts_of a) result (column_kind dtype.now id fields.now) rows (λ m d p. parts_read m (held_in dictionaries.now) (column_kind dtype.now id fields.now) p rows) }
        ensures bytes { IfOk result (λ _. (m : Batch) (p : Place) → TreeAt m p self.old → KnownTo S.content self.old.buffers m → HaveBytes m (column_kind dtype.now id fields.now) p rows) }
        ensures sound { IfOk result (λ _. HoldsKinds (held_in dictionaries.now) (column_kind dtype.now id fields.now)) }
        ensures shortened { ShortensTree (column_kind dtype.now id fields.now) self.old self.new }
        ensures shape { IfOk result (λ a. (kind_in (parts_of a) ≡ kind_of dtype.now) × (rows_in (parts_of a) ≡ rows)) }
        ensures cause { FailsToReadColumn S.faults self.old self.new result }
        ensures faults_stay { LeavesReadFaults S.faults self.old.buffers self.new.buffers result }
        ensures keeps { KeepsQueues S.content S.faults S.references self.old self.new }
        ensures fetched { FetchesTree S.fetched (column_kind dtype.now id fields.now) self.old self.new rows }
    {
        let _ = id;
        let parts = self.read_list_parts(is_large, rows)?;
        let values = self.read_tree(
            &child.dtype,
            id_at(fields, 0),
            fields_at(fields, 0),
            dictionaries,
            parts.last,
        )?;
        make_listed(self.buffers.alloc, dtype, parts, values)
    }

    /// An array of unions: a node, before V5 a validity, types, offsets where they are dense, and the children.
    #[cycle(read)]
    fn read_union(
        &mut self,
        dtype: &ArrowDataType,
        id: Option<i64>,
        fields: &[IpcField],
        dictionaries: &Dictionaries,
        children: &[Field],
        mode: UnionMode,
        rows: usize,
    ) -> Result<Array, IpcError>
        requires kind { under_extensions (kind_of dtype.now) ≡ union_as (kind_of dtype.now) mode (fields_of children.now) }
        requires held { is_carried (kind_of dtype.now) ≡ true }
        requires kinds { HasKinds (held_in dictionaries.now) (column_kind dtype.now id fields.now) }
        requires readable { CanRead S.content self.old.buffers }
        ensures takes { TakesTree (column_kind dtype.now id fields.now) self.old self.new result }
        ensures parts { GivesTree S.content self.old (held_in dictionaries.now) (λ a. parts_of a) result (column_kind dtype.now id fields.now) rows (λ m d p. parts_read m (held_in dictionaries.now) (column_kind dtype.now id fields.now) p rows) }
        ensures bytes { IfOk result (λ _. (m : Batch) (p : Place) → TreeAt m p self.old → KnownTo S.content self.old.buffers m → HaveBytes m (column_kind dtype.now id fields.now) p rows) }
        ensures sound { IfOk result (λ _. HoldsKinds (held_in dictionaries.now) (column_kind dtype.now id fields.now)) }
        ensures shortened { ShortensTree (column_kind dtype.now id fields.now) self.old self.new }
        ensures shape { IfOk result (λ a. (kind_in (parts_of a) ≡ kind_of dtype.now) × (rows_in (parts_of a) ≡ rows)) }
        ensures cause { FailsToReadColumn S.faults self.old self.new result }
        ensures faults_stay { LeavesReadFaults S.faults self.old.buffers self.new.buffers result }
        ensures keeps { KeepsQueues S.content S.faults S.references self.old self.new }
        ensures fetched { FetchesTree S.fetched (column_kind dtype.now id fields.now) self.old self.new rows }
    {
        let _ = id;
        let parts = self.read_union_parts(mode, rows)?;
        let under = children_rows(mode, rows);
        let values = self.read_children(children, fields, dictionaries, under)?;
        make_union(self.buffers.alloc, dtype, parts, values)
    }

    /// Arrays one after another, each of the rows that are said.
    #[cycle(read)]
    fn read_children(
        &mut self,
        children: &[Field],
        fields: &[IpcField],
        dictionaries: &Dictionaries,
        rows: ChildRows,
    ) -> Result<Vec<Array>, IpcError>
        requires held { are_carried (fields_of children.now) ≡ true }
        requires kinds { HasFields (held_in dictionaries.now) (column_fields children.now fields.now) }
        requires readable { CanRead S.content self.old.buffers }
        ensures takes { IfOk result (λ _. (m : Batch) (p : Place) → TreeAt m p self.old → AllAt m (behind m (column_fields children.now fields.now) p) self.new.nodes.now.items self.new.buffers.queue.now.items self.new.variadic.now.items) }
        ensures parts { (m : Batch) (d : History) (p : Place) → TreeAt m p self.old → KnownTo S.content self.old.buffers m → HoldsCells d (held_in dictionaries.now) → Answers (λ v. forest_of v.items) result (place_faults m p (behind m (column_fields children.now fields.now) p) ++ child_faults m d (column_fields children.now fields.now) p (rows_by rows m)) (forest_read m (held_in dictionaries.now) (column_fields children.now fields.now) p (rows_by rows m)) }
        ensures bytes { IfOk result (λ _. (m : Batch) (p : Place) → TreeAt m p self.old → KnownTo S.content self.old.buffers m → AllHaveBytes m (column_fields children.now fields.now) p (rows_by rows m)) }
        ensures whole { IfOk result (λ _. HoldsFields (held_in dictionaries.now) (column_fields children.now fields.now)) }
        ensures shortened { ShortensTrees (column_fields children.now fields.now) self.old self.new }
        ensures kinds { IfOk result (λ v. are_of (fields_of children.now) (kinds_each (forest_of v.items)) ≡ true) }
        ensures rows { IfOk result (λ v. (m : Batch) (p : Place) → TreeAt m p self.old → rows_each (forest_of v.items) ≡ rows_of_each m (column_fields children.now fields.now) p (rows_by rows m)) }
        ensures sound { IfOk result (λ v. fault_each (forest_of v.items) ≡ None) }
        ensures cause { FailsToReadColumn S.faults self.old self.new result }
        ensures faults_stay { LeavesReadFaults S.faults self.old.buffers self.new.buffers result }
        ensures keeps { KeepsQueues S.content S.faults S.references self.old self.new }
        ensures fetched { (m : Batch) (p : Place) → TreeAt m p self.old → S.fetched self.new.buffers.source.now ≤ S.fetched self.old.buffers.source.now + columns_fetched m (column_fields children.now fields.now) p (rows_by rows m) }
    {
        let mut arrays = Vec::new(self.buffers.alloc);
        for i in 0..children.len() {
            let asked = rows_of_next(self.nodes, rows);
            let array = self.read_tree(
                &children[i].dtype,
                id_at(fields, i),
                fields_at(fields, i),
                dictionaries,
                asked,
            )?;
            let held = array.len();
            prove!(held == asked);
            arrays.push(array)?;
        }
        Ok(arrays)
    }
}
