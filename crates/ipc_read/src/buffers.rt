//! One buffer of a body (Arrow Columnar Format, Message.fbs, Buffer).
ghost use Rattle.std.specs.Prelude.{◌≡◌, ◌⊎◌, ℕ, suc, ◌+◌, ◌*◌, ◌/◌, ◌^◌, ◌<◌, ◌≤◌, ◌++◌, ◌&&◌, Bool, Some, None, length, take, nat_lt, true, slice_get, drop, List, IfOk, IfErr, vec_len};
ghost use Rattle.arrow_spec.specs.Counts.{RecordBatch as Batch, Place, magnitude};
ghost use Rattle.arrow_spec.specs.Arrays.{buf, from_on, range_of};
ghost use Rattle.arrow_spec.specs.Faults.{range_causes, range_faults, bitmap_faults, numbers_faults, validity_faults};
ghost use Rattle.arrow_spec.specs.Laws.{AreBytes};
ghost use Rattle.arrow_spec.specs.declared.error.IpcError.TheVariants.{Memory, ReadFault};
ghost use Rattle.arrow_buffers.specs.Rows.{has_rows};
ghost use Rattle.ipc_io.specs.Outside.{LeavesFaults, StandsAt, SourceKept};
ghost use Rattle.ipc_read.specs.Queues.{Left, Takes, short_of, Shortened};
ghost use Rattle.ipc_read.specs.Sources.{Answers, Inside, Told, Known, IsRefusal, part_of, validity_fetched};
ghost use Rattle.ipc_read.specs.Readers.{LeavesReadFaults, KnownTo, Readable, HasReadCause, BufferTaken, BytesGiven, NumbersGiven, BufferFetched, CanRead, KeepsSource, FailsToRead, TakesBuffer, ShortensBuffers, GivesBytes, GivesNumbers, FetchesBuffer};
ghost use Rattle.arrow_spec.specs.Flat.{order_by};
ghost use Rattle.ipc_read_laws.specs.PartsRead.{bits_read, items_read, validity_read};
ghost use Rattle.ipc_read_laws.specs.Faults.{stated};

use crate::Body;
use crate::integers::magnitude;
use crate::readers::BufferReader;
use arrow_buffers::{Bitmap, Buffer};
use arrow_spec::{FieldNode, IpcBuffer, IpcError, OutOfSpecKind};
use arrow_types::NativeType;
use ipc_schema::{Got, Source};
use std::alloc::Global;
use std::collections::VecDeque;
use std::rc::RcSlice;

/// Takes the first of a queue.
pub(crate) fn take_one<T: Drop>(queue: &mut VecDeque<T>) -> Result<T, IpcError>
    ensures takes { (all : List T) (i : ℕ) → Left all i queue.old.items → Takes all i result queue.new.items }
    ensures shortened { Shortened queue.old.items 1 queue.new.items }
    ensures refusal { IfErr result IsRefusal }
{
    match queue.pop_front() {
        Some(first) => Ok(first),
        None => Err(IpcError::OutOfSpec(OutOfSpecKind::ExpectedBuffer)),
    }
}

/// Passes over the next buffer.
pub(crate) fn pass_buffer(buffers: &mut VecDeque<IpcBuffer>) -> Result<(), IpcError>
    ensures takes { BufferTaken buffers.old.items buffers.new.items result }
    ensures gives { (m : Batch) (i : ℕ) → Left m.buffers i buffers.old.items → Answers (λ u. u) result (short_of m.buffers i) tt }
    ensures shortened { Shortened buffers.old.items 1 buffers.new.items }
    ensures refusal { IfErr result IsRefusal }
{
    take_one(buffers)?;
    Ok(())
}

/// Where a buffer stands in the source.
fn buffer_place(body: Body, buffer: IpcBuffer) -> Result<Body, IpcError>
    requires room { body.offset + body.length < 2 ^ 63 }
    ensures gives { Answers (λ part. part) result (range_causes (Some buffer) body.length) (part_of body buffer) }
    ensures within { IfOk result (λ part. part.offset + part.length ≤ body.offset + body.length) }
    ensures refusal { IfErr result IsRefusal }
{
    if buffer.offset < 0 || buffer.length < 0 {
        return Err(IpcError::OutOfSpec(OutOfSpecKind::UnexpectedNegativeInteger));
    }
    let (offset, length) = (magnitude(buffer.offset), magnitude(buffer.length));
    if offset + length > body.length {
        return Err(IpcError::OutOfSpec(OutOfSpecKind::BufferRange));
    }
    Ok(Body {
        offset: body.offset + offset,
        length,
    })
}

/// Takes the next buffer: where it stands in the source.
pub(crate) fn next_part(buffers: &mut VecDeque<IpcBuffer>, body: Body) -> Result<Body, IpcError>
    requires room { body.offset + body.length < 2 ^ 63 }
    ensures takes { BufferTaken buffers.old.items buffers.new.items result }
    ensures gives { (m : Batch) (i : ℕ) → Left m.buffers i buffers.old.items → length m.body ≡ body.length → Answers (λ part. part) result (range_faults m i) (part_of body (range_of m i)) }
    ensures shortened { Shortened buffers.old.items 1 buffers.new.items }
    ensures place { IfOk result (λ part. (m : Batch) (i : ℕ) → Left m.buffers i buffers.old.items → part ≡ part_of body (range_of m i)) }
    ensures within { IfOk result (λ part. part.offset + part.length ≤ body.offset + body.length) }
    ensures refusal { IfErr result IsRefusal }
{
    let buffer = take_one(buffers)?;
    let part = buffer_place(body, buffer)?;
    Ok(part)
}

/// Takes the next buffer, which has so many items of a width: where they stand in the source.
pub(crate) fn items_part(
    buffers: &mut VecDeque<IpcBuffer>,
    body: Body,
    width: usize,
    rows: usize,
) -> Result<Body, IpcError>
    requires room { body.offset + body.length < 2 ^ 63 }
    ensures takes { BufferTaken buffers.old.items buffers.new.items result }
    ensures gives { (m : Batch) (i : ℕ) → Left m.buffers i buffers.old.items → length m.body ≡ body.length → Answers (λ part. part.offset) result (numbers_faults m i width rows) (body.offset + magnitude (range_of m i).offset) }
    ensures shortened { Shortened buffers.old.items 1 buffers.new.items }
    ensures enough { IfOk result (λ _. (m : Batch) (i : ℕ) → Left m.buffers i buffers.old.items → width * rows ≤ stated m i) }
    ensures count { IfOk result (λ part. part.length ≡ width * rows) }
    ensures within { IfOk result (λ part. part.offset + part.length ≤ body.offset + body.length) }
    ensures refusal { IfErr result IsRefusal }
{
    let part = next_part(buffers, body)?;
    let size = width as u128 * rows as u128;
    if (part.length as u128) < size {
        return Err(IpcError::OutOfSpec(OutOfSpecKind::InvalidBuffer {
            length: rows as u64,
            required_number_of_bytes: size,
            buffer_length: part.length,
        }));
    }
    Ok(Body {
        offset: part.offset,
        length: size as u64,
    })
}

/// The bytes that stand in a place of the source.
fn fetch<S: Source>(alloc: Global, source: &mut S, part: Body) -> Result<Vec<u8>, IpcError>
    requires readable { Readable (S.content source.old) part }
    ensures bytes { IfOk result (λ v. StandsAt (S.content source.old) part.offset v.items) }
    ensures count { IfOk result (λ v. length v.items ≡ part.length) }
    ensures err { IfErr result (λ e. ((e ≡ Memory) ⊎ (e ≡ ReadFault)) ⊎ (S.content source.old ≡ None)) }
    ensures cause { HasReadCause (S.faults source.old) (S.faults source.new) result }
    ensures faults_stay { LeavesFaults (S.faults source.old) (S.faults source.new) result }
    ensures kept { SourceKept S.content S.faults S.references source.old source.new }
    ensures fetched { S.fetched source.new ≤ S.fetched source.old + part.length }
{
    let mut bytes = Vec::new(alloc);
    bytes.resize(part.length as usize, 0)?;
    match source.read_at(part.offset, &mut bytes)? {
        Got::Full => Ok(bytes),
        Got::Short => Err(IpcError::OutOfSpec(OutOfSpecKind::Truncated)),
    }
}

/// How many bytes hold the bits of so many rows.
fn bytes_for(rows: usize) -> u64
    ensures { result ≡ (rows + 7) / 8 }
{
    ((rows as u128 + 7) / 8) as u64
}

/// What a slice of bytes holds are bytes.
fn are_bytes(bytes: &[u8])
    ensures { AreBytes bytes.now }
{
    let _ = bytes;
}

/// The bytes as numbers in an order. They are not copied.
fn numbers_of<T: NativeType>(
    bytes: Vec<u8>,
    rows: usize,
    is_little_endian: bool,
) -> Result<Buffer<T>, IpcError>
    requires { T.WIDTH * rows ≤ vec_len bytes }
    ensures numbers { IfOk result (λ b. b ≡ from_on (λ j. T.read (order_by is_little_endian) (take T.WIDTH (drop (T.WIDTH * j) bytes.items))) 0 rows) }
    ensures bytes { IfOk result (λ _. AreBytes bytes.items) }
    ensures memory { IfErr result (λ e. e ≡ Memory) }
{
    are_bytes(bytes.as_slice());
    let bytes = RcSlice::from_vec(bytes)?;
    Ok(Buffer::shared(bytes, 0, rows, !is_little_endian))
}

/// Whether a validity is read.
pub(crate) fn reads_validity(rows: usize, node: FieldNode) -> bool
    ensures { result ≡ (nat_lt 0 rows && nat_lt 0 (magnitude node.null_count)) }
{
    rows > 0 && magnitude(node.null_count) > 0
}

impl<'a, S: Source> BufferReader<'a, S> {
    /// Takes the next buffer and reads its bytes.
    pub(crate) fn read_bytes(&mut self) -> Result<Buffer<u8>, IpcError>
        requires readable { CanRead S.content self.old }
        ensures takes { TakesBuffer self.old self.new result }
        ensures gives { GivesBytes S.content self.old (λ b. b) result range_faults buf }
        ensures shortened { ShortensBuffers 1 self.old self.new }
        ensures cause { FailsToRead S.faults self.old self.new result }
        ensures faults_stay { LeavesReadFaults S.faults self.old self.new result }
        ensures keeps { KeepsSource S.content S.faults S.references self.old self.new }
        ensures fetched { FetchesBuffer S.fetched self.old self.new stated }
    {
        let part = next_part(self.queue, self.body)?;
        let bytes = fetch(self.alloc, self.source, part)?;
        Ok(Buffer::from_bytes(bytes)?)
    }

    /// Takes the next buffer and reads its first bits.
    pub(crate) fn read_bitmap(&mut self, rows: usize) -> Result<Bitmap, IpcError>
        requires readable { CanRead S.content self.old }
        ensures takes { TakesBuffer self.old self.new result }
        ensures gives { GivesBytes S.content self.old (λ b. b) result (λ m i. bitmap_faults m i rows) (λ m i. bits_read m i rows) }
        ensures shortened { ShortensBuffers 1 self.old self.new }
        ensures cause { FailsToRead S.faults self.old self.new result }
        ensures faults_stay { LeavesReadFaults S.faults self.old self.new result }
        ensures keeps { KeepsSource S.content S.faults S.references self.old self.new }
        ensures fetched { FetchesBuffer S.fetched self.old self.new stated }
        ensures few { S.fetched self.new.source.now ≤ S.fetched self.old.source.now + (rows + 7) / 8 }
        ensures rows { IfOk result (λ b. length b ≡ rows) }
    {
        let part = next_part(self.queue, self.body)?;
        if (part.length as u128) * 8 < rows as u128 {
            return Err(IpcError::OutOfSpec(OutOfSpecKind::InvalidBitmap {
                length: rows as u64,
                number_of_bits: part.length * 8,
            }));
        }
        let needed = Body {
            offset: part.offset,
            length: bytes_for(rows),
        };
        let bytes = fetch(self.alloc, self.source, needed)?;
        Ok(Bitmap::from_vec(bytes, rows)?)
    }

    /// Takes the next buffer and reads its first numbers.
    pub(crate) fn read_numbers<T: NativeType>(&mut self, rows: usize) -> Result<Buffer<T>, IpcError>
        requires readable { CanRead S.content self.old }
        ensures takes { TakesBuffer self.old self.new result }
        ensures gives { GivesNumbers S.content self.old (λ b. b) result (λ m i. numbers_faults m i T.WIDTH rows) (λ m i. items_read T.read T.WIDTH m i rows) }
        ensures shortened { ShortensBuffers 1 self.old self.new }
        ensures bytes { IfOk result (λ _. (m : Batch) (i : ℕ) → Left m.buffers i self.old.queue.now.items → KnownTo S.content self.old m → AreBytes (take (T.WIDTH * rows) (buf m i))) }
        ensures cause { FailsToRead S.faults self.old self.new result }
        ensures faults_stay { LeavesReadFaults S.faults self.old self.new result }
        ensures keeps { KeepsSource S.content S.faults S.references self.old self.new }
        ensures fetched { FetchesBuffer S.fetched self.old self.new stated }
        ensures few { S.fetched self.new.source.now ≤ S.fetched self.old.source.now + T.WIDTH * rows }
        ensures rows { IfOk result (λ b. length b ≡ rows) }
    {
        let part = items_part(self.queue, self.body, T::WIDTH, rows)?;
        let bytes = fetch(self.alloc, self.source, part)?;
        let numbers = numbers_of(bytes, rows, self.is_little_endian)?;
        Ok(numbers)
    }

    /// Takes the next buffer and reads its first rows of a size.
    pub(crate) fn read_first(&mut self, size: usize, rows: usize) -> Result<Buffer<u8>, IpcError>
        requires readable { CanRead S.content self.old }
        ensures takes { TakesBuffer self.old self.new result }
        ensures gives { GivesBytes S.content self.old (λ b. b) result (λ m i. numbers_faults m i size rows) (λ m i. take (size * rows) (buf m i)) }
        ensures shortened { ShortensBuffers 1 self.old self.new }
        ensures rows { IfOk result (λ b. length b ≡ size * rows) }
        ensures cause { FailsToRead S.faults self.old self.new result }
        ensures faults_stay { LeavesReadFaults S.faults self.old self.new result }
        ensures keeps { KeepsSource S.content S.faults S.references self.old self.new }
        ensures fetched { FetchesBuffer S.fetched self.old self.new stated }
    {
        let part = items_part(self.queue, self.body, size, rows)?;
        let bytes = fetch(self.alloc, self.source, part)?;
        Ok(Buffer::from_bytes(bytes)?)
    }

    /// Takes the next buffer, and reads its first bits where there are rows and the node counts nulls.
    pub(crate) fn read_validity(
        &mut self,
        rows: usize,
        node: FieldNode,
    ) -> Result<Option<Bitmap>, IpcError>
        requires readable { CanRead S.content self.old }
        ensures takes { TakesBuffer self.old self.new result }
        ensures gives { (m : Batch) (p : Place) → Left m.buffers p.buffer self.old.queue.now.items → slice_get m.nodes p.node ≡ Some node → Told (S.content self.old.source.now) self.old.body m.body → Answers (λ v. v) result (short_of m.buffers p.buffer ++ validity_faults m p rows) (validity_read m p rows) }
        ensures shortened { ShortensBuffers 1 self.old self.new }
        ensures cause { FailsToRead S.faults self.old self.new result }
        ensures faults_stay { LeavesReadFaults S.faults self.old self.new result }
        ensures keeps { KeepsSource S.content S.faults S.references self.old self.new }
        ensures fetched { (m : Batch) (p : Place) → Left m.buffers p.buffer self.old.queue.now.items → slice_get m.nodes p.node ≡ Some node → S.fetched self.new.source.now ≤ S.fetched self.old.source.now + validity_fetched m p rows }
        ensures rows { IfOk result (λ v. has_rows v rows ≡ true) }
    {
        if !reads_validity(rows, node) {
            pass_buffer(self.queue)?;
            return Ok(None);
        }
        let bits = self.read_bitmap(rows)?;
        Ok(Some(bits))
    }
}

/// Takes the next buffer and reads its bytes.
///
/// # Errors
///
/// `OutOfSpec` where there is no buffer, or its range is negative or leaves the body; `ReadFault`, `Memory`.
pub fn read_bytes<S: Source>(
    alloc: Global,
    buffers: &mut VecDeque<IpcBuffer>,
    source: &mut S,
    body: Body,
    scratch: &mut Vec<u8>,
) -> Result<Buffer<u8>, IpcError>
    requires readable { Readable (S.content source.old) body }
    ensures queue { BufferTaken buffers.old.items buffers.new.items result }
    ensures gives { BytesGiven (S.content source.old) body buffers.old.items (λ b. b) result range_faults buf }
    ensures shortened { Shortened buffers.old.items 1 buffers.new.items }
    ensures cause { HasReadCause (S.faults source.old) (S.faults source.new) result }
    ensures faults_stay { LeavesFaults (S.faults source.old) (S.faults source.new) result }
    ensures kept { SourceKept S.content S.faults S.references source.old source.new }
    ensures fetched { BufferFetched buffers.old.items (S.fetched source.old) (S.fetched source.new) stated }
{
    let mut reader = BufferReader {
        alloc,
        queue: buffers,
        source,
        body,
        is_little_endian: true,
    };
    reader.read_bytes()
}

/// Takes the next buffer and reads its first bits.
///
/// # Errors
///
/// As `read_bytes`, and `InvalidBitmap` where it has fewer bits.
pub fn read_bitmap<S: Source>(
    alloc: Global,
    buffers: &mut VecDeque<IpcBuffer>,
    source: &mut S,
    body: Body,
    scratch: &mut Vec<u8>,
    rows: usize,
) -> Result<Bitmap, IpcError>
    requires readable { Readable (S.content source.old) body }
    ensures queue { BufferTaken buffers.old.items buffers.new.items result }
    ensures gives { BytesGiven (S.content source.old) body buffers.old.items (λ b. b) result (λ m i. bitmap_faults m i rows) (λ m i. bits_read m i rows) }
    ensures shortened { Shortened buffers.old.items 1 buffers.new.items }
    ensures cause { HasReadCause (S.faults source.old) (S.faults source.new) result }
    ensures faults_stay { LeavesFaults (S.faults source.old) (S.faults source.new) result }
    ensures kept { SourceKept S.content S.faults S.references source.old source.new }
    ensures fetched { BufferFetched buffers.old.items (S.fetched source.old) (S.fetched source.new) stated }
    ensures few { S.fetched source.new ≤ S.fetched source.old + (rows + 7) / 8 }
    ensures rows { IfOk result (λ b. length b ≡ rows) }
{
    let mut reader = BufferReader {
        alloc,
        queue: buffers,
        source,
        body,
        is_little_endian: true,
    };
    reader.read_bitmap(rows)
}

/// Takes the next buffer and reads its first numbers in an order.
///
/// # Errors
///
/// As `read_bytes`, and `InvalidBuffer` where it has fewer bytes than they need.
pub fn read_buffer<T: NativeType, S: Source>(
    alloc: Global,
    buffers: &mut VecDeque<IpcBuffer>,
    source: &mut S,
    body: Body,
    scratch: &mut Vec<u8>,
    rows: usize,
    is_little_endian: bool,
) -> Result<Buffer<T>, IpcError>
    requires readable { Readable (S.content source.old) body }
    ensures queue { BufferTaken buffers.old.items buffers.new.items result }
    ensures gives { NumbersGiven (S.content source.old) body is_little_endian buffers.old.items (λ b. b) result (λ m i. numbers_faults m i T.WIDTH rows) (λ m i. items_read T.read T.WIDTH m i rows) }
    ensures shortened { Shortened buffers.old.items 1 buffers.new.items }
    ensures bytes { IfOk result (λ _. (m : Batch) (i : ℕ) → Left m.buffers i buffers.old.items → Known (S.content source.old) body is_little_endian m → AreBytes (take (T.WIDTH * rows) (buf m i))) }
    ensures cause { HasReadCause (S.faults source.old) (S.faults source.new) result }
    ensures faults_stay { LeavesFaults (S.faults source.old) (S.faults source.new) result }
    ensures kept { SourceKept S.content S.faults S.references source.old source.new }
    ensures fetched { BufferFetched buffers.old.items (S.fetched source.old) (S.fetched source.new) stated }
    ensures few { S.fetched source.new ≤ S.fetched source.old + T.WIDTH * rows }
    ensures rows { IfOk result (λ b. length b ≡ rows) }
{
    let mut reader = BufferReader {
        alloc,
        queue: buffers,
        source,
        body,
        is_little_endian,
    };
    reader.read_numbers(rows)
}

/// Takes the next buffer, and reads its first bits where there are rows and the node counts nulls.
///
/// # Errors
///
/// `ExpectedBuffer` where there is no buffer; where it is read, as `read_bitmap`.
pub fn read_validity<S: Source>(
    alloc: Global,
    buffers: &mut VecDeque<IpcBuffer>,
    source: &mut S,
    body: Body,
    scratch: &mut Vec<u8>,
    rows: usize,
    node: FieldNode,
) -> Result<Option<Bitmap>, IpcError>
    requires readable { Readable (S.content source.old) body }
    ensures queue { BufferTaken buffers.old.items buffers.new.items result }
    ensures gives { (m : Batch) (p : Place) → Left m.buffers p.buffer buffers.old.items → slice_get m.nodes p.node ≡ Some node → Told (S.content source.old) body m.body → Answers (λ v. v) result (short_of m.buffers p.buffer ++ validity_faults m p rows) (validity_read m p rows) }
    ensures shortened { Shortened buffers.old.items 1 buffers.new.items }
    ensures cause { HasReadCause (S.faults source.old) (S.faults source.new) result }
    ensures faults_stay { LeavesFaults (S.faults source.old) (S.faults source.new) result }
    ensures kept { SourceKept S.content S.faults S.references source.old source.new }
    ensures fetched { (m : Batch) (p : Place) → Left m.buffers p.buffer buffers.old.items → slice_get m.nodes p.node ≡ Some node → S.fetched source.new ≤ S.fetched source.old + validity_fetched m p rows }
    ensures rows { IfOk result (λ v. has_rows v rows ≡ true) }
{
    let mut reader = BufferReader {
        alloc,
        queue: buffers,
        source,
        body,
        is_little_endian: true,
    };
    reader.read_validity(rows, node)
}
