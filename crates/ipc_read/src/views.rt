//! Arrays of views of byte strings and texts (Arrow Columnar Format, "Variable-size Binary View Layout").
ghost use Rattle.std.specs.Prelude.{◌≡◌, ◌⊎◌, ℕ, ◌+◌, ◌*◌, ◌^◌, ◌<◌, ◌≤◌, Bool, Some, length, drop, nat_lt, not, ◌&&◌, true, IfOk, IfErr};
ghost use Rattle.arrow_spec.specs.Counts.{RecordBatch as Batch, Place, after};
ghost use Rattle.arrow_spec.specs.Arrays.{buf, from_on};
ghost use Rattle.arrow_spec.specs.Faults.{ranges_faults};
ghost use Rattle.arrow_spec.specs.Needed.{numbers_from};
ghost use Rattle.arrow_spec.specs.declared.error.IpcError.TheVariants.{Memory, OutOfSpec};
ghost use Rattle.arrow_spec.specs.declared.error.OutOfSpecKind.TheVariants.{InvalidUtf8, InvalidView};
ghost use Rattle.arrow_types.specs.KindOf.{kind_of};
ghost use Rattle.arrow_types.specs.Physical.{physical_of};
ghost use Rattle.ipc_read.specs.Queues.{Left};
ghost use Rattle.ipc_read.specs.Sources.{Answers, Told, bytes_where};
ghost use Rattle.ipc_read.specs.Readers.{LeavesReadFaults, Readable, HasReadCause, BuffersTaken, FetchesBuffer, GivesBytes, ColumnTaken, ColumnGiven, ColumnFetched, ColumnShortened, CanRead, KeepsSource, KeepsQueues, FailsToRead, FailsToReadColumn, ShortensBuffers, TakesColumn, GivesColumn, FetchesColumn, ShortensColumn};
ghost use Rattle.ipc_read.specs.DataBuffers.{data_causes, data_of};
ghost use Rattle.ipc_read_laws.specs.Faults.{stated_of};
ghost use Rattle.arrow_buffers.specs.declared.error.ArrayError.TheVariants.{Utf8, View};
ghost use Rattle.arrow_buffers.specs.Layouts.{is_view};
ghost use Rattle.arrow_buffers.specs.Rows.{has_rows};
ghost use Rattle.arrow_buffers.specs.Views.{view_rows, view_fault};
ghost use Rattle.ipc_read_laws.specs.PartsRead.{views_read};
ghost use Rattle.ipc_io.specs.Outside.{LeavesFaults, SourceKept};

use crate::Body;
use crate::counts::take_count;
use crate::readers::{BufferReader, ColumnReader};
use crate::rows::take_node;
use crate::skips::pass;
use arrow_buffers::{ArrayError, BinaryViewArrayGeneric, Bitmap, Buffer, ViewType};
use arrow_spec::{Feature, FieldNode, IpcBuffer, IpcError, MetadataVersion, OutOfSpecKind};
use arrow_types::ArrowDataType;
use ipc_schema::Source;
use std::alloc::Global;
use std::collections::VecDeque;

fn make_view<V: ViewType>(
    alloc: Global,
    dtype: &ArrowDataType,
    rows: usize,
    views: Buffer<u8>,
    buffers: Vec<Buffer<u8>>,
    validity: Option<Bitmap>,
) -> Result<BinaryViewArrayGeneric<V>, IpcError>
    requires kind { is_view V.IS_TEXT (physical_of (kind_of dtype.now)) ≡ true }
    requires count { length views ≡ 16 * rows }
    requires rows { has_rows validity rows ≡ true }
    ensures parts { IfOk result (λ a. a ≡ record { kind = kind_of dtype.now; views = views; buffers = buffers.items; validity = validity }) }
    ensures sound { IfOk result (λ _. view_fault V.IS_TEXT true (record { kind = kind_of dtype.now; views = views; buffers = buffers.items; validity = validity }) ≡ None) }
    ensures err { IfErr result (λ e. (e ≡ Memory) ⊎ (((e ≡ OutOfSpec InvalidUtf8) × (view_fault V.IS_TEXT true (record { kind = kind_of dtype.now; views = views; buffers = buffers.items; validity = validity }) ≡ Some Utf8)) ⊎ ((e ≡ OutOfSpec InvalidView) × (view_fault V.IS_TEXT true (record { kind = kind_of dtype.now; views = views; buffers = buffers.items; validity = validity }) ≡ Some View)))) }
{
    let _ = rows;
    let dtype = dtype.try_clone(alloc)?;
    match BinaryViewArrayGeneric::try_new(dtype, views, buffers, validity) {
        Ok(array) => Ok(array),
        Err(ArrayError::Utf8) => Err(IpcError::OutOfSpec(OutOfSpecKind::InvalidUtf8)),
        Err(ArrayError::View) => Err(IpcError::OutOfSpec(OutOfSpecKind::InvalidView)),
        Err(_) => unreachable!(),
    }
}

/// Whether an array is refused for its order: no views are read in big-endian order.
fn is_wrong_order(rows: usize, is_little_endian: bool) -> bool
    ensures { result ≡ (nat_lt 0 rows && not is_little_endian) }
{
    rows > 0 && !is_little_endian
}

impl<'a, S: Source> BufferReader<'a, S> {
    /// Takes so many buffers and reads their bytes.
    fn read_all(&mut self, count: usize) -> Result<Vec<Buffer<u8>>, IpcError>
        requires readable { CanRead S.content self.old }
        ensures takes { BuffersTaken count self.old.queue.now.items self.new.queue.now.items result }
        ensures gives { GivesBytes S.content self.old (λ v. v.items) result (λ m i. ranges_faults m i count) (λ m i. from_on (buf m) i count) }
        ensures shortened { ShortensBuffers count self.old self.new }
        ensures cause { FailsToRead S.faults self.old self.new result }
        ensures faults_stay { LeavesReadFaults S.faults self.old self.new result }
        ensures keeps { KeepsSource S.content S.faults S.references self.old self.new }
        ensures fetched { FetchesBuffer S.fetched self.old self.new (λ m i. stated_of m (numbers_from i count)) }
    {
        let mut data = Vec::new(self.alloc);
        for _number in 0..count {
            let bytes = self.read_bytes()?;
            data.push(bytes)?;
        }
        Ok(data)
    }

    /// Takes an array's data buffers, and reads their bytes where there are rows.
    fn read_data(&mut self, rows: usize, count: usize) -> Result<Vec<Buffer<u8>>, IpcError>
        requires readable { CanRead S.content self.old }
        ensures takes { BuffersTaken count self.old.queue.now.items self.new.queue.now.items result }
        ensures gives { GivesBytes S.content self.old (λ v. v.items) result (λ m i. data_causes m i rows count) (λ m i. data_of m i rows count) }
        ensures shortened { ShortensBuffers count self.old self.new }
        ensures cause { FailsToRead S.faults self.old self.new result }
        ensures faults_stay { LeavesReadFaults S.faults self.old self.new result }
        ensures keeps { KeepsSource S.content S.faults S.references self.old self.new }
        ensures fetched { FetchesBuffer S.fetched self.old self.new (λ m i. bytes_where rows (stated_of m (numbers_from i count))) }
    {
        if self.queue.len() < count {
            return Err(IpcError::OutOfSpec(OutOfSpecKind::ExpectedBuffer));
        }
        if rows > 0 {
            return self.read_all(count);
        }
        pass(self.queue, count)?;
        Ok(Vec::new(self.alloc))
    }
}

impl<'n, 'a, S: Source> ColumnReader<'n, 'a, S> {
    /// An array of views, with as many data buffers as its count says.
    pub(crate) fn read_binview<V: ViewType>(
        &mut self,
        dtype: &ArrowDataType,
        rows: usize,
    ) -> Result<BinaryViewArrayGeneric<V>, IpcError>
        requires kind { is_view V.IS_TEXT (physical_of (kind_of dtype.now)) ≡ true }
        requires readable { CanRead S.content self.old.buffers }
        ensures takes { TakesColumn (kind_of dtype.now) self.old self.new result }
        ensures shape { IfOk result (λ a. (a.kind ≡ kind_of dtype.now) × (view_rows a.views ≡ rows)) }
        ensures gives { GivesColumn S.content self.old (λ a. a) result (kind_of dtype.now) rows (λ m p. views_read m (kind_of dtype.now) p rows) }
        ensures shortened { ShortensColumn (kind_of dtype.now) self.old self.new }
        ensures cause { FailsToReadColumn S.faults self.old self.new result }
        ensures faults_stay { LeavesReadFaults S.faults self.old.buffers self.new.buffers result }
        ensures keeps { KeepsQueues S.content S.faults S.references self.old self.new }
        ensures fetched { FetchesColumn S.fetched (kind_of dtype.now) self.old self.new rows }
    {
        let node = take_node(self.nodes, rows)?;
        let count = take_count(self.variadic)?;
        if is_wrong_order(rows, self.buffers.is_little_endian) {
            return Err(IpcError::Unsupported(Feature::ViewBigEndian));
        }
        let validity = self.buffers.read_validity(rows, node)?;
        let views = self.buffers.read_rows(16, rows)?;
        let data = self.buffers.read_data(rows, count)?;
        make_view(self.buffers.alloc, dtype, rows, views, data, validity)
    }
}

/// An array of views, as far as its first rows go, with as many data buffers as its count says. All of them are read.
///
/// # Errors
///
/// `Unsupported(ViewBigEndian)` for rows in big-endian order, where there are any; `OutOfSpec` where the node, the count or a buffer is
/// missing or damaged, or on a row that is not null the view does not agree with its buffer or the text is no UTF-8; `ReadFault`, `Memory`.
pub fn read_binview<V: ViewType, S: Source>(
    alloc: Global,
    nodes: &mut VecDeque<FieldNode>,
    dtype: &ArrowDataType,
    buffers: &mut VecDeque<IpcBuffer>,
    source: &mut S,
    body: Body,
    is_little_endian: bool,
    rows: usize,
    scratch: &mut Vec<u8>,
    variadic: &mut VecDeque<i64>,
) -> Result<BinaryViewArrayGeneric<V>, IpcError>
    requires kind { is_view V.IS_TEXT (physical_of (kind_of dtype.now)) ≡ true }
    requires readable { Readable (S.content source.old) body }
    ensures shape { IfOk result (λ a. (a.kind ≡ kind_of dtype.now) × (view_rows a.views ≡ rows)) }
    ensures queues { ColumnTaken (kind_of dtype.now) nodes.old.items nodes.new.items buffers.old.items buffers.new.items variadic.old.items variadic.new.items result }
    ensures gives { ColumnGiven (S.content source.old) body is_little_endian nodes.old.items buffers.old.items variadic.old.items (λ a. a) result (kind_of dtype.now) rows (λ m p. views_read m (kind_of dtype.now) p rows) }
    ensures shortened { ColumnShortened (kind_of dtype.now) nodes.old.items nodes.new.items buffers.old.items buffers.new.items variadic.old.items variadic.new.items }
    ensures cause { HasReadCause (S.faults source.old) (S.faults source.new) result }
    ensures faults_stay { LeavesFaults (S.faults source.old) (S.faults source.new) result }
    ensures kept { SourceKept S.content S.faults S.references source.old source.new }
    ensures fetched { ColumnFetched (kind_of dtype.now) nodes.old.items buffers.old.items variadic.old.items rows (S.fetched source.old) (S.fetched source.new) }
{
    let mut reader = ColumnReader {
        nodes,
        variadic,
        buffers: BufferReader {
            alloc,
            queue: buffers,
            source,
            body,
            is_little_endian,
        },
        version: MetadataVersion::V5,
    };
    reader.read_binview(dtype, rows)
}
