//! append TARGET: the input's stream, appended to what stands under a name.
ghost use Rattle.std.specs.Prelude.{◌≡◌, ◌≤◌, IfOk, IfErr, OnOk, Some, drop, length};
ghost use Rattle.std.specs.Io.KnownBytes.{Appends, IsAtEnd};
ghost use Rattle.ipc_log_streams.specs.Appends.{schema_of};
ghost use Rattle.ipc_log_streams.specs.Below.{WasSaid};
ghost use Rattle.ipc_tool.specs.Commands.Append.{CountRefused, InputCause, IsReadStream, PlaceAppended, PlaceRefused, append_options, append_task, count_text};
ghost use Rattle.ipc_tool.specs.Outside.{outside_of};
ghost use Rattle.ipc_tool.specs.Tasks.{Does};

use crate::input::read_hex;
use crate::refusal::Refusal;
use ipc_disk::PlaceShelf;
use ipc_io::{Failed, Feed, Sink};
use ipc_log_streams::are_bytes;
use ipc_round_trip::{WholeStream, WriteOptions, append_stream, read_whole};
use std::alloc::{AllocError, Global};

// Bytes in memory that are handed out from the front and never fail.
#[derive(Drop)]
struct BytesFeed {
    bytes: Vec<u8>,
    at: usize,
    ghost within: { at ≤ length bytes.items },
}

impl Feed for BytesFeed {
    ghost rest = { λ s. Some (drop s.at s.bytes.items) };

    ghost faults = { λ s. 0 };

    fn pull(&mut self, out: &mut [u8]) -> Result<usize, Failed> {
        let count = out.len().min(self.bytes.len() - self.at);
        out[..count].copy_from_slice(&self.bytes[self.at..self.at + count]);
        self.at += count;
        Ok(count)
    }
}

// Dictionaries that go on with those of the file are written as deltas.
fn append_options() -> WriteOptions
    ensures { result ≡ append_options }
{
    WriteOptions {
        compression: None,
        metadata_limit: 0x7fff_ffff,
        deltas: true,
    }
}

// The stream that the input's hex text stands for.
pub(crate) fn read_stream<I: Feed>(alloc: Global, input: &mut I) -> Result<WholeStream, Refusal>
    ensures stream { IfOk result (λ s. IsReadStream (I.rest input.old) s) }
    ensures said { IfOk result (λ s. WasSaid (schema_of s)) }
    ensures at_end { OnOk result (IsAtEnd (I.rest input.new)) }
    ensures cause { IfErr result (λ e. InputCause e (I.rest input.old) (I.rest input.new) (I.faults input.old) (I.faults input.new)) }
    ensures reads { I.faults input.old ≤ I.faults input.new }
{
    let bytes = read_hex(alloc, input)?;
    are_bytes(&bytes);
    let stream = read_whole(alloc, BytesFeed { bytes, at: 0 })?;
    Ok(stream)
}

// Appends a stream to what stands under a name, and answers how many batches it has.
fn append_to_place<H: PlaceShelf>(
    alloc: Global,
    shelf: &mut H,
    target: &str,
    stream: &WholeStream,
) -> Result<u64, Refusal>
    ensures count { IfOk result (λ n. n ≡ length stream.now.batches.items) }
    ensures appended { OnOk result (PlaceAppended target.now (H.held shelf.old) (H.held shelf.new) stream.now) }
    ensures refused { IfErr result (λ e. PlaceRefused target.now e (H.held shelf.old) (H.held shelf.new) stream.now (H.faults shelf.old) (H.faults shelf.new)) }
    ensures reads { H.faults shelf.old ≤ H.faults shelf.new }
{
    let mut place = shelf.open_place(target)?;
    let done = append_stream(alloc, &mut place, stream, append_options());
    shelf.close_place(target, place);
    let count = done?;
    Ok(count)
}

// A number of batches in decimal digits, and a line feed.
fn count_text(alloc: Global, count: u64) -> Result<Vec<u8>, AllocError>
    ensures { IfOk result (λ text. text.items ≡ count_text count) }
{
    let mut text = count.to_string(alloc)?.into_bytes();
    text.push(b'\n')?;
    Ok(text)
}

pub(crate) fn put_count<W: Sink>(alloc: Global, output: &mut W, count: u64) -> Result<(), Refusal>
    ensures text { OnOk result (Appends (W.written output.old) (W.written output.new) (count_text count)) }
    ensures refused { IfErr result (λ e. CountRefused e count (W.written output.old) (W.written output.new) (W.faults output.old) (W.faults output.new)) }
    ensures writes { W.faults output.old ≤ W.faults output.new }
{
    let text = count_text(alloc, count)?;
    output.put(&text)?;
    Ok(())
}

/// Appends the stream that the input's hex text stands for to what stands under a name, and puts the number of its batches.
pub(crate) fn append_input<H: PlaceShelf, I: Feed, W: Sink>(
    alloc: Global,
    shelf: &mut H,
    input: &mut I,
    output: &mut W,
    target: &str,
) -> Result<(), Refusal>
    ensures does { Does (append_task target.now) result
        (outside_of H.held H.faults I.rest I.faults W.written W.faults W.wants shelf.old input.old output.old)
        (outside_of H.held H.faults I.rest I.faults W.written W.faults W.wants shelf.new input.new output.new) }
{
    let stream = read_stream(alloc, input)?;
    let count = append_to_place(alloc, shelf, target, &stream)?;
    put_count(alloc, output, count)
}
