//! Values as far as an array's rows go. Where there are none no buffer is looked at (Arrow Columnar Format, "Buffer Listing for Each Layout").
ghost use Rattle.std.specs.Prelude.{◌≡◌, ℕ, suc, ◌+◌, ◌*◌, ◌^◌, ◌<◌, ◌≤◌, ◌++◌, [], Some, slice_get, take, length, true, IfOk, IfErr};
ghost use Rattle.arrow_spec.specs.Counts.{RecordBatch as Batch, Place};
ghost use Rattle.arrow_spec.specs.Arrays.{buf};
ghost use Rattle.arrow_spec.specs.Faults.{bitmap_faults, numbers_faults, node_causes, node_faults};
ghost use Rattle.arrow_spec.specs.Laws.{AreBytes};
ghost use Rattle.arrow_spec.specs.Readings.{Refuses};
ghost use Rattle.ipc_read.specs.Queues.{Left, short_of, Shortened};
ghost use Rattle.ipc_read.specs.Sources.{Answers, Told, IsRefusal, faults_where, bytes_where, head_faults, validity_fetched};
ghost use Rattle.arrow_buffers.specs.Rows.{has_rows};
ghost use Rattle.ipc_read.specs.Readers.{LeavesReadFaults, LeafAt, KnownTo, CanRead, KeepsSource, KeepsQueues, FailsToRead, FailsToReadColumn, TakesHead, TakesBuffer, ShortensBuffers, GivesBytes, GivesNumbers, FetchesBuffer};
ghost use Rattle.ipc_read_laws.specs.PartsRead.{bits_read, items_read, bytes_of_rows, validity_read};
ghost use Rattle.ipc_read_laws.specs.Faults.{stated};

use crate::buffers::{pass_buffer, take_one};
use crate::integers::magnitude;
use crate::readers::{BufferReader, ColumnReader};
use arrow_buffers::{Bitmap, Buffer};
use arrow_spec::{FieldNode, IpcError, OutOfSpecKind};
use arrow_types::NativeType;
use ipc_schema::Source;
use std::collections::VecDeque;

/// Whether a node has rows enough.
fn check_node(node: FieldNode, rows: usize) -> Result<(), IpcError>
    ensures fine { IfOk result (λ _. node_causes (Some node) rows ≡ []) }
    ensures err { IfErr result (λ e. Refuses e (node_causes (Some node) rows)) }
    ensures few { IfOk result (λ _. rows < 2 ^ 63) }
    ensures refusal { IfErr result IsRefusal }
{
    if node.length < 0 {
        return Err(IpcError::OutOfSpec(OutOfSpecKind::UnexpectedNegativeInteger));
    }
    if magnitude(node.length) < rows as u64 {
        return Err(IpcError::OutOfSpec(OutOfSpecKind::NodeLength));
    }
    Ok(())
}

/// Takes the node of an array, which has rows enough.
pub(crate) fn take_node(nodes: &mut VecDeque<FieldNode>, rows: usize) -> Result<FieldNode, IpcError>
    ensures queue { IfOk result (λ node. (m : Batch) (p : Place) → Left m.nodes p.node nodes.old.items → (slice_get m.nodes p.node ≡ Some node) × Left m.nodes (suc p.node) nodes.new.items) }
    ensures shortened { Shortened nodes.old.items 1 nodes.new.items }
    ensures fine { IfOk result (λ _. (m : Batch) (p : Place) → Left m.nodes p.node nodes.old.items → node_faults m p rows ≡ []) }
    ensures err { IfErr result (λ e. (m : Batch) (p : Place) → Left m.nodes p.node nodes.old.items → Refuses e (node_faults m p rows)) }
    ensures few { IfOk result (λ _. rows < 2 ^ 63) }
    ensures refusal { IfErr result IsRefusal }
{
    let node = take_one(nodes)?;
    check_node(node, rows)?;
    Ok(node)
}

impl<'a, S: Source> BufferReader<'a, S> {
    /// Takes the next buffer, and reads its first bits where there are rows.
    pub(crate) fn read_bits(&mut self, rows: usize) -> Result<Bitmap, IpcError>
        requires readable { CanRead S.content self.old }
        ensures takes { TakesBuffer self.old self.new result }
        ensures gives { GivesBytes S.content self.old (λ b. b) result (λ m i. short_of m.buffers i ++ faults_where rows (bitmap_faults m i rows)) (λ m i. bits_read m i rows) }
        ensures shortened { ShortensBuffers 1 self.old self.new }
        ensures rows { IfOk result (λ b. length b ≡ rows) }
        ensures cause { FailsToRead S.faults self.old self.new result }
        ensures faults_stay { LeavesReadFaults S.faults self.old self.new result }
        ensures keeps { KeepsSource S.content S.faults S.references self.old self.new }
        ensures fetched { FetchesBuffer S.fetched self.old self.new (λ m i. bytes_where rows (stated m i)) }
    {
        if rows > 0 {
            return self.read_bitmap(rows);
        }
        pass_buffer(self.queue)?;
        Ok(Bitmap::from_vec(Vec::new(self.alloc), 0)?)
    }

    /// Takes the next buffer, and reads its first numbers where there are rows.
    pub(crate) fn read_items<T: NativeType>(&mut self, rows: usize) -> Result<Buffer<T>, IpcError>
        requires readable { CanRead S.content self.old }
        ensures takes { TakesBuffer self.old self.new result }
        ensures gives { GivesNumbers S.content self.old (λ b. b) result (λ m i. short_of m.buffers i ++ faults_where rows (numbers_faults m i T.WIDTH rows)) (λ m i. items_read T.read T.WIDTH m i rows) }
        ensures shortened { ShortensBuffers 1 self.old self.new }
        ensures bytes { IfOk result (λ _. (m : Batch) (i : ℕ) → Left m.buffers i self.old.queue.now.items → KnownTo S.content self.old m → AreBytes (take (T.WIDTH * rows) (buf m i))) }
        ensures rows { IfOk result (λ b. length b ≡ rows) }
        ensures cause { FailsToRead S.faults self.old self.new result }
        ensures faults_stay { LeavesReadFaults S.faults self.old self.new result }
        ensures keeps { KeepsSource S.content S.faults S.references self.old self.new }
        ensures fetched { FetchesBuffer S.fetched self.old self.new (λ m i. bytes_where rows (stated m i)) }
    {
        if rows > 0 {
            return self.read_numbers(rows);
        }
        pass_buffer(self.queue)?;
        Ok(Buffer::from_vec(Vec::new(self.alloc))?)
    }

    /// Takes the next buffer, and reads its first rows of a size where there are any.
    pub(crate) fn read_rows(&mut self, size: usize, rows: usize) -> Result<Buffer<u8>, IpcError>
        requires readable { CanRead S.content self.old }
        ensures takes { TakesBuffer self.old self.new result }
        ensures gives { GivesBytes S.content self.old (λ b. b) result (λ m i. short_of m.buffers i ++ faults_where rows (numbers_faults m i size rows)) (λ m i. bytes_of_rows m size i rows) }
        ensures shortened { ShortensBuffers 1 self.old self.new }
        ensures rows { IfOk result (λ b. length b ≡ size * rows) }
        ensures cause { FailsToRead S.faults self.old self.new result }
        ensures faults_stay { LeavesReadFaults S.faults self.old self.new result }
        ensures keeps { KeepsSource S.content S.faults S.references self.old self.new }
        ensures fetched { FetchesBuffer S.fetched self.old self.new (λ m i. bytes_where rows (stated m i)) }
    {
        if rows > 0 {
            return self.read_first(size, rows);
        }
        pass_buffer(self.queue)?;
        Ok(Buffer::from_vec(Vec::new(self.alloc))?)
    }
}

impl<'n, 'a, S: Source> ColumnReader<'n, 'a, S> {
    /// Takes the next node, which has rows enough, and reads the validity.
    pub(crate) fn read_head(&mut self, rows: usize) -> Result<Option<Bitmap>, IpcError>
        requires readable { CanRead S.content self.old.buffers }
        ensures takes { TakesHead self.old self.new result }
        ensures gives { (m : Batch) (p : Place) → LeafAt m p self.old → Told (S.content self.old.buffers.source.now) self.old.buffers.body m.body → Answers (λ v. v) result (head_faults m p rows) (validity_read m p rows) }
        ensures shortened { Shortened self.old.nodes.now.items 1 self.new.nodes.now.items }
        ensures buffers { ShortensBuffers 1 self.old.buffers self.new.buffers }
        ensures counts { self.new.variadic.now.items ≡ self.old.variadic.now.items }
        ensures few { IfOk result (λ _. rows < 2 ^ 63) }
        ensures rows { IfOk result (λ v. has_rows v rows ≡ true) }
        ensures cause { FailsToReadColumn S.faults self.old self.new result }
        ensures faults_stay { LeavesReadFaults S.faults self.old.buffers self.new.buffers result }
        ensures keeps { KeepsQueues S.content S.faults S.references self.old self.new }
        ensures fetched { (m : Batch) (p : Place) → LeafAt m p self.old → S.fetched self.new.buffers.source.now ≤ S.fetched self.old.buffers.source.now + validity_fetched m p rows }
    {
        let node = take_node(self.nodes, rows)?;
        self.buffers.read_validity(rows, node)
    }
}
