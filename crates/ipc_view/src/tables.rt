//! The tables of a record batch whose body stands in the input, and the buffers of its arrays by their numbers (Arrow Columnar Format, "RecordBatch message").
ghost use Rattle.std.specs.Prelude.{◌≡◌, ℕ, ◌+◌, ◌*◌, ◌^◌, ◌≤◌, ◌<◌, length, IfErr, IfOk, IfSome, MatchOption, None, Some, nat_lt, slice_get};
ghost use Rattle.std.specs.Option.{option_map};
ghost use Rattle.arrow_spec.specs.Arrays.{buf, range_of, valid};
ghost use Rattle.arrow_spec.specs.Counts.{inside, is_negative, magnitude};
ghost use Rattle.arrow_spec.specs.Faults.{bitmap_faults, node_causes, node_faults, numbers_faults, range_causes, range_faults, validity_faults};
ghost use Rattle.view_types.specs.Ranges.{Lies};
ghost use Rattle.view_types.specs.Views.{bits_in, is_set, part_in};
ghost use Rattle.ipc_fields.specs.Causes.{IsOfBytes};
ghost use Rattle.ipc_view.specs.Answers.{Answers};
ghost use Rattle.ipc_view.specs.Built.{place_of};

use crate::batch::{ArrayPlace, BatchTables};
use arrow_spec::{FieldNode, IpcBuffer, IpcError, OutOfSpecKind};
use view_types::{Range, part_of};

/// The place of an array's first child, behind its node and so many buffers of its own.
pub(crate) fn inside(place: ArrayPlace, own: u128) -> ArrayPlace
    requires node { place.node + 1 < 2 ^ 64 }
    requires bound { place.buffer ≤ 2 ^ 64 * place.node }
    requires own { own ≤ 3 }
    ensures place { place_of result ≡ inside own (place_of place) }
    ensures bound { result.buffer ≤ 2 ^ 64 * result.node }
    ensures view { result.view ≡ place.view }
{
    ArrayPlace {
        node: place.node + 1,
        buffer: place.buffer + own,
        view: place.view,
    }
}

/// Whether a number is below 0.
pub(crate) fn is_negative(x: i64) -> bool
    ensures { result ≡ is_negative x }
{
    x < 0
}

/// A number, 0 where it is negative.
pub(crate) fn magnitude(x: i64) -> usize
    ensures value { result ≡ magnitude x }
    ensures small { result < 2 ^ 63 }
{
    if x < 0 { 0 } else { x as usize }
}

/// Where a buffer stands in the input.
fn buffer_place(body: Range, buffer: IpcBuffer) -> Result<Range, IpcError>
    requires { body.at + body.length < 2 ^ 64 }
    ensures gives { Answers result (range_causes (Some buffer) body.length) (λ r. (r ≡ record { at = body.at + magnitude buffer.offset; length = magnitude buffer.length }) × (magnitude buffer.offset + magnitude buffer.length ≤ body.length)) }
    ensures cause { IfErr result IsOfBytes }
{
    if buffer.offset < 0 || buffer.length < 0 {
        return Err(IpcError::OutOfSpec(OutOfSpecKind::UnexpectedNegativeInteger));
    }
    let (offset, length) = (magnitude(buffer.offset), magnitude(buffer.length));
    if offset + length > body.length {
        return Err(IpcError::OutOfSpec(OutOfSpecKind::BufferRange));
    }
    Ok(Range {
        at: body.at + offset,
        length,
    })
}

/// Whether a node has rows enough.
fn check_node(node: FieldNode, rows: usize) -> Result<(), IpcError>
    ensures gives { Answers result (node_causes (Some node) rows) (λ _. rows < 2 ^ 63) }
    ensures cause { IfErr result IsOfBytes }
{
    if node.length < 0 {
        return Err(IpcError::OutOfSpec(OutOfSpecKind::UnexpectedNegativeInteger));
    }
    if magnitude(node.length) < rows {
        return Err(IpcError::OutOfSpec(OutOfSpecKind::NodeLength));
    }
    Ok(())
}

/// Whether a node counts nulls.
pub(crate) fn counts_nulls(node: FieldNode) -> bool
    ensures { result ≡ nat_lt 0 (magnitude node.null_count) }
{
    magnitude(node.null_count) > 0
}

/// The bits of a validity, where there is one.
pub(crate) fn bits_of(input: &[u8], validity: Option<Range>) -> Option<&[u8]>
    requires { IfSome validity (λ r. r.at + r.length ≤ length input.now) }
    ensures bits { option_map (λ b. b.now) result ≡ bits_in input.now validity }
    ensures size { MatchOption validity (result ≡ None) (λ r. IfSome result (λ b. length b.now ≡ r.length)) }
{
    match validity {
        None => None,
        Some(range) => Some(part_of(input, range)),
    }
}

impl<'h, 'a> BatchTables<'h, 'a> {
    ghost use Rattle.ipc_view.specs.Built.{batch_of, HasBitsIn};

    /// The node of an array, which has rows enough.
    #[tactic(auto, unfolding(arrow_spec::specs::Faults::node_faults))]
    pub(crate) fn node(&self, place: ArrayPlace, rows: usize) -> Result<FieldNode, IpcError>
        ensures gives { Answers result (node_faults (batch_of self.now) (place_of place) rows) (λ n. (slice_get self.now.nodes.now place.node ≡ Some n) × (rows < 2 ^ 63)) }
        ensures below { IfOk result (λ _. place.node < length self.now.nodes.now) }
        ensures cause { IfErr result IsOfBytes }
    {
        let Some(node) = self.nodes.get(place.node) else {
            return Err(IpcError::OutOfSpec(OutOfSpecKind::ExpectedBuffer));
        };
        check_node(*node, rows)?;
        Ok(*node)
    }

    /// What the tables state of the i-th buffer.
    fn buffer(&self, i: u128) -> Option<IpcBuffer>
        ensures { result ≡ slice_get self.now.buffers.now i }
    {
        if i < self.buffers.len() as u128 {
            Some(self.buffers[i as usize])
        } else {
            None
        }
    }

    /// Where the i-th buffer stands in the input.
    pub(crate) fn range(&self, i: u128) -> Result<Range, IpcError>
        ensures gives { Answers result (range_faults (batch_of self.now) i) (λ r. (part_in self.now.input.now r ≡ buf (batch_of self.now) i) × Lies self.now.input.now r × (r.length ≡ magnitude (range_of (batch_of self.now) i).length)) }
        ensures cause { IfErr result IsOfBytes }
    {
        let Some(buffer) = self.buffer(i) else {
            return Err(IpcError::OutOfSpec(OutOfSpecKind::ExpectedBuffer));
        };
        let _size = self.input.len();
        let part = buffer_place(self.body, buffer)?;
        Ok(part)
    }

    /// Where the i-th buffer stands, which has a bit for each row.
    pub(crate) fn bits(&self, i: u128, rows: usize) -> Result<Range, IpcError>
        ensures gives { Answers result (bitmap_faults (batch_of self.now) i rows) (λ r. (part_in self.now.input.now r ≡ buf (batch_of self.now) i) × HasBitsIn self.now.input.now rows r) }
        ensures cause { IfErr result IsOfBytes }
    {
        let part = self.range(i)?;
        if 8 * (part.length as u128) < rows as u128 {
            return Err(IpcError::OutOfSpec(OutOfSpecKind::InvalidBitmap {
                length: rows as u64,
                number_of_bits: 8 * part.length as u64,
            }));
        }
        Ok(part)
    }

    /// Where the i-th buffer stands, which has so many values of a width.
    pub(crate) fn numbers(&self, i: u128, width: usize, count: usize) -> Result<Range, IpcError>
        ensures gives { Answers result (numbers_faults (batch_of self.now) i width count) (λ r. (part_in self.now.input.now r ≡ buf (batch_of self.now) i) × Lies self.now.input.now r × (width * count ≤ r.length)) }
        ensures cause { IfErr result IsOfBytes }
    {
        let part = self.range(i)?;
        let size = width as u128 * count as u128;
        if (part.length as u128) < size {
            return Err(IpcError::OutOfSpec(OutOfSpecKind::InvalidBuffer {
                length: count as u64,
                required_number_of_bytes: size,
                buffer_length: part.length as u64,
            }));
        }
        Ok(part)
    }

    /// Where the validity of an array stands, which is looked at where there are rows and its node counts nulls.
    pub(crate) fn validity(
        &self,
        place: ArrayPlace,
        node: FieldNode,
        rows: usize,
    ) -> Result<Option<Range>, IpcError>
        requires { slice_get self.now.nodes.now place.node ≡ Some node }
        ensures gives { Answers result (validity_faults (batch_of self.now) (place_of place) rows) (λ v. ((row : ℕ) → row < rows → is_set (bits_in self.now.input.now v) row ≡ valid (batch_of self.now) (place_of place) row) × IfSome v (HasBitsIn self.now.input.now rows)) }
        ensures cause { IfErr result IsOfBytes }
    {
        if rows == 0 || !counts_nulls(node) {
            return Ok(None);
        }
        let bits = self.bits(place.buffer, rows)?;
        Ok(Some(bits))
    }
}
