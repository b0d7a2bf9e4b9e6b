//! A record batch: its rows and its columns (Arrow Columnar Format, "RecordBatch message").
ghost use Rattle.std.specs.Prelude.{◌≡◌, ℕ, ◌+◌, ◌^◌, ◌<◌, ◌≤◌, List, [], length, map, true, IfOk, IfErr, IfSome};
ghost use Rattle.std.specs.Rc.{rc_value};
ghost use Rattle.arrow_spec.specs.Readings.{Gives};
ghost use Rattle.arrow_spec.specs.Counts.{RecordBatch as Batch, Place, first_place, after, magnitude};
ghost use Rattle.arrow_spec.specs.Arrays.{from_on, Dictionaries as History};
ghost use Rattle.arrow_spec.specs.ArrayCells.{cell};
ghost use Rattle.arrow_spec.specs.Faults.{column_faults, count_faults};
ghost use Rattle.arrow_types.specs.KindOf.{kind_of};
ghost use Rattle.arrow_arrays.specs.Batches.{have_rows};
ghost use Rattle.arrow_spec.specs.Flat.{order_by};
ghost use Rattle.arrow_arrays.specs.Carried.{is_carried};
ghost use Rattle.arrow_arrays.specs.Parts.{kind_in, rows_in, cells_in};
ghost use Rattle.arrow_arrays.specs.PartsOf.{parts_of, all_parts_of};
ghost use Rattle.ipc_read_laws.specs.Faults.{fetched_at_most};
ghost use Rattle.ipc_read_laws.specs.PartsRead.{parts_read};
ghost use Rattle.ipc_schema.specs.Views.{header_of};
ghost use Rattle.ipc_read.specs.Batches.{AreQueuesOf, table_in, are_column_kinds, are_carried_kinds, batch_reading, table_of, batch_fetched, cells_asked, chosen_fetched, chosen_read, kinds_of, schema_fields};
ghost use Rattle.ipc_read.specs.Held.{held_in, column_kind};
ghost use Rattle.ipc_read_laws.specs.Held.{HoldsCells, HasKinds, HasFields};
ghost use Rattle.ipc_read_laws.specs.Projection.{are_columns, are_rising, chosen, columns_of};
ghost use Rattle.arrow_spec.specs.Files.{record_batch_of, share};
ghost use Rattle.ipc_read.specs.Readers.{LeavesReadFaults, TreeAt, KnownTo, Readable, CanRead, KeepsQueues, KeepsSource, FailsToReadColumn, HasReadCause, TakesTree, FetchesTree};
ghost use Rattle.ipc_read.specs.Skips.{PassesColumn};
ghost use Rattle.ipc_read.specs.Sources.{Answers, Inside, BodyReadCause, bytes_in};
ghost use Rattle.ipc_io.specs.Outside.{LeavesFaults, SourceKept};

use crate::Body;
use crate::dictionaries::Dictionaries;
use crate::projection::{chosen_schema, is_chosen};
use crate::readers::{BufferReader, ColumnReader};
use crate::skips::skip;
use crate::tables::{check_kinds, check_node, field_at, queues_of, row_count};
use arrow_arrays::{Array, RecordBatch};
use arrow_spec::{FieldNode, IpcError, MetadataVersion};
use arrow_types::{ArrowDataType, ArrowSchema, ArrowSchemaRef};
use ipc_fields::uses::{fields_at, id_at};
use ipc_fields::{IpcField, IpcSchema};
use ipc_schema::{BatchHeader, Source};
use std::alloc::Global;
use std::collections::VecDeque;

/// How many rows are read where a limit may be set.
fn first_rows(rows: usize, limit: Option<usize>) -> usize
    ensures { result ≡ share limit rows }
{
    match limit {
        Some(limit) => limit.min(rows),
        None => rows,
    }
}

impl<'a, S: Source> BufferReader<'a, S> {
    /// The buffers of a column that is not asked for are passed over, with its nodes and view counts.
    fn pass_column(
        &mut self,
        nodes: &mut VecDeque<FieldNode>,
        dtype: &ArrowDataType,
        variadic: &mut VecDeque<i64>,
        version: MetadataVersion,
    ) -> Result<(), IpcError>
        ensures passes { PassesColumn (kind_of dtype.now) version nodes.old.items nodes.new.items self.old.queue.now.items self.new.queue.now.items variadic.old.items variadic.new.items result }
        ensures faults_stay { LeavesReadFaults S.faults self.old self.new result }
        ensures keeps { KeepsSource S.content S.faults S.references self.old self.new }
        ensures fetched { S.fetched self.new.source.now ≡ S.fetched self.old.source.now }
    {
        skip(nodes, dtype, self.queue, variadic, version)
    }
}

impl<'n, 'a, S: Source> ColumnReader<'n, 'a, S> {
    /// The first few rows of a column, whose node has exactly the batch's rows.
    fn read_column(
        &mut self,
        dtype: &ArrowDataType,
        id: Option<i64>,
        fields: &[IpcField],
        dictionaries: &Dictionaries,
        rows: usize,
        few: usize,
    ) -> Result<Array, IpcError>
        requires held { is_carried (kind_of dtype.now) ≡ true }
        requires kinds { HasKinds (held_in dictionaries.now) (column_kind dtype.now id fields.now) }
        requires readable { CanRead S.content self.old.buffers }
        ensures takes { TakesTree (column_kind dtype.now id fields.now) self.old self.new result }
        ensures parts { (m : Batch) (d : History) (p : Place) → TreeAt m p self.old → KnownTo S.content self.old.buffers m → HoldsCells d (held_in dictionaries.now) → Answers (λ a. parts_of a) result (column_faults m d (column_kind dtype.now id fields.now) p rows few) (parts_read m (held_in dictionaries.now) (column_kind dtype.now id fields.now) p few) }
        ensures cells { (m : Batch) (d : History) (p : Place) → TreeAt m p self.old → KnownTo S.content self.old.buffers m → HoldsCells d (held_in dictionaries.now) → Answers (λ a. cells_in (parts_of a)) result (column_faults m d (column_kind dtype.now id fields.now) p rows few) (from_on (cell m d (column_kind dtype.now id fields.now) p) 0 few) }
        ensures shape { IfOk result (λ a. (kind_in (parts_of a) ≡ kind_of dtype.now) × (rows_in (parts_of a) ≡ few)) }
        ensures cause { FailsToReadColumn S.faults self.old self.new result }
        ensures faults_stay { LeavesReadFaults S.faults self.old.buffers self.new.buffers result }
        ensures keeps { KeepsQueues S.content S.faults S.references self.old self.new }
        ensures fetched { FetchesTree S.fetched (column_kind dtype.now id fields.now) self.old self.new few }
    {
        check_node(self.nodes, rows)?;
        self.read_array(dtype, id, fields, dictionaries, few)
    }

    /// A column that is not asked for is passed over.
    fn pass_column(&mut self, dtype: &ArrowDataType) -> Result<(), IpcError>
        ensures takes { TakesTree (kind_of dtype.now) self.old self.new result }
        ensures exact { (m : Batch) (p : Place) → TreeAt m p self.old → Answers (λ u. u) result (count_faults m (kind_of dtype.now) p) tt }
        ensures cause { FailsToReadColumn S.faults self.old self.new result }
        ensures faults_stay { LeavesReadFaults S.faults self.old.buffers self.new.buffers result }
        ensures keeps { KeepsQueues S.content S.faults S.references self.old self.new }
        ensures fetched { S.fetched self.new.buffers.source.now ≡ S.fetched self.old.buffers.source.now }
    {
        self.buffers
            .pass_column(self.nodes, dtype, self.variadic, self.version)
    }

    /// The columns that are asked for, one after another, each as far as its first few rows go.
    fn read_columns(
        &mut self,
        schema: &ArrowSchema,
        fields: &[IpcField],
        projection: Option<&[usize]>,
        dictionaries: &Dictionaries,
        rows: usize,
        few: usize,
    ) -> Result<Vec<Array>, IpcError>
        requires rising { are_rising (columns_of projection) ≡ true }
        requires held { are_carried_kinds (columns_of projection) 0 schema.now ≡ true }
        requires kinds { HasFields (held_in dictionaries.now) (schema_fields schema.now fields.now) }
        requires readable { CanRead S.content self.old.buffers }
        ensures gives { (m : Batch) (d : History) → TreeAt m first_place self.old → KnownTo S.content self.old.buffers m → HoldsCells d (held_in dictionaries.now) → Gives (λ v. map cells_in (all_parts_of v.items)) result (cells_asked m d (columns_of projection.entry) (schema_fields schema.now fields.now) rows few) }
        ensures parts { IfOk result (λ v. (m : Batch) (d : History) → TreeAt m first_place self.old → KnownTo S.content self.old.buffers m → HoldsCells d (held_in dictionaries.now) → all_parts_of v.items ≡ chosen_read m (held_in dictionaries.now) (columns_of projection.entry) (schema_fields schema.now fields.now) 0 first_place few) }
        ensures shape { IfOk result (λ v. have_rows few (all_parts_of v.items) ≡ true) }
        ensures count { IfOk result (λ v. length v.items ≡ length (chosen (columns_of projection.entry) 0 schema.now)) }
        ensures kinds { IfOk result (λ v. map kind_in (all_parts_of v.items) ≡ chosen (columns_of projection.entry) 0 (kinds_of schema.now)) }
        ensures cause { FailsToReadColumn S.faults self.old self.new result }
        ensures faults_stay { LeavesReadFaults S.faults self.old.buffers self.new.buffers result }
        ensures keeps { KeepsQueues S.content S.faults S.references self.old self.new }
        ensures fetched { (m : Batch) → TreeAt m first_place self.old → S.fetched self.new.buffers.source.now ≤ S.fetched self.old.buffers.source.now + chosen_fetched m (columns_of projection.entry) (schema_fields schema.now fields.now) 0 first_place few }
    {
        let mut arrays = Vec::new(self.buffers.alloc);
        for i in 0..schema.len() {
            let field = field_at(schema, i);
            if !is_chosen(projection, i) {
                self.pass_column(&field.dtype)?;
                continue;
            }
            let array = self.read_column(
                &field.dtype,
                id_at(fields, i),
                fields_at(fields, i),
                dictionaries,
                rows,
                few,
            )?;
            arrays.push(array)?;
        }
        Ok(arrays)
    }

    /// The rows and the columns of a batch, whose queues it stands on.
    fn read_arrays(
        &mut self,
        header: &BatchHeader,
        schema: &ArrowSchema,
        fields: &[IpcField],
        projection: Option<&[usize]>,
        limit: Option<usize>,
        dictionaries: &Dictionaries,
        size: u64,
    ) -> Result<(usize, Vec<Array>), IpcError>
        requires columns { are_column_kinds (columns_of projection) 0 schema.now ≡ true }
        requires kinds { HasFields (held_in dictionaries.now) (schema_fields schema.now fields.now) }
        requires rising { are_rising (columns_of projection) ≡ true }
        requires range { are_columns (columns_of projection) (length schema.now) ≡ true }
        requires queues { AreQueuesOf (header_of header.now) self.old.nodes.now.items self.old.buffers.queue.now.items self.old.variadic.now.items }
        requires readable { CanRead S.content self.old.buffers }
        ensures gives { IfSome (S.content self.old.buffers.source.now) (λ b. (d : History) → HoldsCells d (held_in dictionaries.now) → Gives (λ r. table_in r.0 (all_parts_of r.1.items)) result (batch_reading (columns_of projection.entry) limit self.old.buffers.is_little_endian (schema_fields schema.now fields.now) d size self.old.version (header_of header.now) (bytes_in self.old.buffers.body b))) }
        ensures parts { IfOk result (λ r. IfSome (S.content self.old.buffers.source.now) (λ b. (d : History) → HoldsCells d (held_in dictionaries.now) → all_parts_of r.1.items ≡ chosen_read (record_batch_of (order_by self.old.buffers.is_little_endian) self.old.version (header_of header.now) (bytes_in self.old.buffers.body b)) (held_in dictionaries.now) (columns_of projection.entry) (schema_fields schema.now fields.now) 0 first_place r.0)) }
        ensures shape { IfOk result (λ r. have_rows r.0 (all_parts_of r.1.items) ≡ true) }
        ensures count { IfOk result (λ r. length r.1.items ≡ length (chosen (columns_of projection.entry) 0 schema.now)) }
        ensures kinds { IfOk result (λ r. map kind_in (all_parts_of r.1.items) ≡ chosen (columns_of projection.entry) 0 (kinds_of schema.now)) }
        ensures height { IfOk result (λ r. r.0 ≡ share limit (magnitude header.now.length)) }
        ensures cause { FailsToReadColumn S.faults self.old self.new result }
        ensures faults_stay { LeavesReadFaults S.faults self.old.buffers self.new.buffers result }
        ensures keeps { KeepsQueues S.content S.faults S.references self.old self.new }
        ensures fetched { (bytes : List ℕ) → S.fetched self.new.buffers.source.now ≤ S.fetched self.old.buffers.source.now + batch_fetched (record_batch_of (order_by self.old.buffers.is_little_endian) self.old.version (header_of header.now) bytes) (columns_of projection.entry) (schema_fields schema.now fields.now) (share limit (magnitude header.now.length)) }
    {
        check_kinds(schema, projection)?;
        let rows = row_count(header, size)?;
        let few = first_rows(rows, limit);
        let arrays = self.read_columns(schema, fields, projection, dictionaries, rows, few)?;
        Ok((few, arrays))
    }
}

/// Reads a record batch whose body stands in a place of the source: the columns whose numbers are asked for, which
/// rise, or all, as far as their first `limit` rows go, or whole. The other columns are passed over. The lengths of
/// all buffers together are at most `size`. The IPC schema has a field for each field, with the ids of its dictionaries;
/// the parts that are held under the id of a dictionary are of its values' type. The call goes as deep as the types' trees;
/// the schema of the batch is shared where all columns are asked for.
///
/// # Errors
///
/// `Unsupported(Float)`, `Unsupported(Decimal256)` by the columns' kinds; `Unsupported(Compression)`;
/// `UnexpectedNegativeInteger`, `InvalidBuffersLength` by the tables; then as `read` for each column in order, and
/// `NodeLength` where a column has not the batch's rows; `ReadFault`, `Memory`.
pub fn read_record_batch<S: Source>(
    alloc: Global,
    header: &BatchHeader,
    schema: &ArrowSchemaRef,
    ipc_schema: &IpcSchema,
    projection: Option<&[usize]>,
    limit: Option<usize>,
    dictionaries: &Dictionaries,
    version: MetadataVersion,
    source: &mut S,
    body: Body,
    size: u64,
    scratch: &mut Vec<u8>,
) -> Result<RecordBatch, IpcError>
    requires rising { are_rising (columns_of projection) ≡ true }
    requires range { are_columns (columns_of projection) (length (rc_value schema.now)) ≡ true }
    requires columns { are_column_kinds (columns_of projection) 0 (rc_value schema.now) ≡ true }
    requires fields { length ipc_schema.now.fields.items ≡ length (rc_value schema.now) }
    requires kinds { HasFields (held_in dictionaries.now) (schema_fields (rc_value schema.now) ipc_schema.now.fields.items) }
    requires room { body.offset + body.length < 2 ^ 63 }
    requires inside { Inside (S.content source.old) body }

    // The batch is what its columns' kinds, its tables and its body mean, or a refusal of theirs.
    ensures gives { IfSome (S.content source.old) (λ b. (d : History) → HoldsCells d (held_in dictionaries.now) → Gives table_of result (batch_reading (columns_of projection.entry) limit ipc_schema.now.is_little_endian (schema_fields (rc_value schema.now) ipc_schema.now.fields.items) d size version (header_of header.now) (bytes_in body b))) }

    // Also under null rows each column has the values of its buffers.
    ensures parts { IfOk result (λ x. IfSome (S.content source.old) (λ b. (d : History) → HoldsCells d (held_in dictionaries.now) → x.arrays ≡ chosen_read (record_batch_of (order_by ipc_schema.now.is_little_endian) version (header_of header.now) (bytes_in body b)) (held_in dictionaries.now) (columns_of projection.entry) (schema_fields (rc_value schema.now) ipc_schema.now.fields.items) 0 first_place x.height)) }
    ensures schema { IfOk result (λ x. x.schema ≡ chosen (columns_of projection.entry) 0 (rc_value schema.now)) }

    // The pairs of its message are not read here.
    ensures custom { IfOk result (λ x. x.custom ≡ []) }
    ensures height { IfOk result (λ x. x.height ≡ share limit (magnitude header.now.length)) }
    ensures kinds { IfOk result (λ x. map kind_in x.arrays ≡ chosen (columns_of projection.entry) 0 (kinds_of (rc_value schema.now))) }
    ensures cause { IfErr result (λ e. BodyReadCause e (S.faults source.old) (S.faults source.new)) }
    ensures faults_stay { LeavesFaults (S.faults source.old) (S.faults source.new) result }

    // A validity is fetched only where there are rows and nulls, and other buffers only where there are rows.
    ensures fetched { (bytes : List ℕ) → S.fetched source.new ≤ S.fetched source.old + batch_fetched (record_batch_of (order_by ipc_schema.now.is_little_endian) version (header_of header.now) bytes) (columns_of projection.entry) (schema_fields (rc_value schema.now) ipc_schema.now.fields.items) (share limit (magnitude header.now.length)) }
    ensures kept { SourceKept S.content S.faults S.references source.old source.new }
{
    let queues = queues_of(alloc, header)?;
    let (mut nodes, mut buffers, mut variadic) = queues;
    let mut reader = ColumnReader {
        nodes: &mut nodes,
        variadic: &mut variadic,
        buffers: BufferReader {
            alloc,
            queue: &mut buffers,
            source,
            body,
            is_little_endian: ipc_schema.is_little_endian,
        },
        version,
    };
    let columns = reader.read_arrays(
        header,
        schema,
        ipc_schema.fields.as_slice(),
        projection,
        limit,
        dictionaries,
        size,
    )?;
    let schema = chosen_schema(alloc, schema, projection)?;
    let (rows, arrays) = columns;
    Ok(RecordBatch::new(rows, schema, arrays))
}
