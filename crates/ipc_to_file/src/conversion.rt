//! From a stream to a file (Arrow Columnar Format, IPC Streaming Format and IPC File Format).
ghost use Rattle.std.specs.Prelude.{◌≡◌, IfErr, IfOk, IfSome, IsSome, None, OnOk};
ghost use Rattle.std.specs.Io.KnownBytes.{Appends};
ghost use Rattle.arrow_spec.specs.Streams.{stream_table};
ghost use Rattle.ipc_bodies.specs.Encodings.{text_of};
ghost use Rattle.ipc_bodies.specs.declared.encoding.Encoding.TheVariants.{HexText};
ghost use Rattle.ipc_io.specs.Outside.{SinkKept, Stands};
ghost use Rattle.ipc_append.specs.Below.{FeedKept};
ghost use Rattle.ipc_to_file.specs.Files.{IsRareRefusal, LeavesNone, MakesFile, PutCause, RefusesFile, ToFileCause};

use crate::held::HeldFile;
use crate::stream::read_united;
use crate::write::write_file;
use arrow_spec::IpcError;
use ipc_bodies::{Encoding, put_bytes_as};
use ipc_io::{Feed, Sink};
use laws_walk::Summary;
use std::alloc::Global;

/// Reads a stream to its end from the feed, and adds to the sink a file that means the same.
///
/// A stream may replace a dictionary, and a file may not. So all dictionaries that stand at one place of the schema become one list,
/// as of `unify`: their parts stand before the first record batch, and the keys are moved. All is read before anything is put.
///
/// # Errors
///
/// As of `read_stream`; `Unsupported(Float)` and `Unsupported(Decimal256)` by the kinds of the fields, also where no record batch
/// stands behind the schema; `NotRepresentable` where a key that is not null would pass its type; `TooLarge` where the metadata of
/// a message or the footer would pass 2^31 - 1 bytes, or a message would end behind the place 2^63 - 1; `ReadFault`, `WriteFault` and
/// `Memory`. Behind `TooLarge`, `WriteFault` and `Memory` a part of the file may have been put; each other error leaves the sink.
pub fn to_file<F: Feed, W: Sink>(
    alloc: Global,
    feed: &mut F,
    sink: &mut W,
) -> Result<Summary, IpcError>
    ensures whole { IfOk result (λ s. IfSome (F.rest feed.old) (λ b. MakesFile s b (λ x. x) (W.written sink.old) (W.written sink.new))) }

    // A refusal has its cause, and leaves the sink, but for what is too large, want of memory and the sink's fault.
    ensures refused { IfErr result (λ e. IfSome (F.rest feed.old) (λ b. RefusesFile e b)) }
    ensures cause { IfErr result (λ e. ToFileCause e (F.faults feed.old) (F.faults feed.new) (W.faults sink.old) (W.faults sink.new)) }
    ensures leaves { IfErr result (λ e. LeavesNone e (W.written sink.old) (W.written sink.new)) }

    // A stream that means a table becomes a file where no device fails and memory is there, but for these refusals.
    ensures complete { IfSome (F.rest feed.old) (λ b. IsSome (stream_table b None) → Stands (F.faults feed.old) (F.faults feed.new) → Stands (W.faults sink.old) (W.faults sink.new) → IfErr result (λ e. IsRareRefusal e b)) }
    ensures kept { FeedKept F.faults F.references feed.old feed.new }
    ensures sink { SinkKept W.faults W.wants W.references sink.old sink.new }
{
    let stream = read_united(alloc, feed)?;
    write_file(alloc, sink, stream)
}

/// The bytes of hex text that are made at once.
const SCRATCH_BYTES: usize = 65_536;

/// Puts bytes as hex text.
fn put_hex_text<W: Sink>(alloc: Global, sink: &mut W, bytes: &[u8]) -> Result<(), IpcError>
    ensures added { OnOk result (Appends (W.written sink.old) (W.written sink.new) (text_of HexText bytes.now)) }
    ensures cause { IfErr result (λ e. PutCause e (W.faults sink.old) (W.faults sink.new)) }
    ensures sink { SinkKept W.faults W.wants W.references sink.old sink.new }
{
    let mut scratch = vec![in alloc; 0; SCRATCH_BYTES]?;
    put_bytes_as(sink, bytes, Encoding::HexText, scratch.as_mut_slice())
}

/// As [`to_file`], with the hex text of the file put.
fn to_hex_text<F: Feed, W: Sink>(
    alloc: Global,
    feed: &mut F,
    sink: &mut W,
) -> Result<Summary, IpcError>
    ensures whole { IfOk result (λ s. IfSome (F.rest feed.old) (λ b. MakesFile s b (text_of HexText) (W.written sink.old) (W.written sink.new))) }
    ensures refused { IfErr result (λ e. IfSome (F.rest feed.old) (λ b. RefusesFile e b)) }
    ensures cause { IfErr result (λ e. ToFileCause e (F.faults feed.old) (F.faults feed.new) (W.faults sink.old) (W.faults sink.new)) }
    ensures leaves { IfErr result (λ e. LeavesNone e (W.written sink.old) (W.written sink.new)) }
    ensures complete { IfSome (F.rest feed.old) (λ b. IsSome (stream_table b None) → Stands (F.faults feed.old) (F.faults feed.new) → Stands (W.faults sink.old) (W.faults sink.new) → IfErr result (λ e. IsRareRefusal e b)) }
    ensures kept { FeedKept F.faults F.references feed.old feed.new }
    ensures sink { SinkKept W.faults W.wants W.references sink.old sink.new }
{
    let mut file = HeldFile::new(alloc);
    let summary = to_file(alloc, feed, &mut file)?;
    let bytes = file.into_bytes();
    put_hex_text(alloc, sink, bytes.as_slice())?;
    Ok(summary)
}

/// As [`to_file`], with the bytes of the file put in an encoding. Where they are put as hex text, the whole file is made in memory before
/// anything is put.
///
/// # Errors
///
/// Those of [`to_file`].
pub fn to_file_as<F: Feed, W: Sink>(
    alloc: Global,
    feed: &mut F,
    sink: &mut W,
    encoding: Encoding,
) -> Result<Summary, IpcError>
    ensures whole { IfOk result (λ s. IfSome (F.rest feed.old) (λ b. MakesFile s b (text_of encoding) (W.written sink.old) (W.written sink.new))) }

    // A refusal has its cause, and leaves the sink, but for what is too large, want of memory and the sink's fault.
    ensures refused { IfErr result (λ e. IfSome (F.rest feed.old) (λ b. RefusesFile e b)) }
    ensures cause { IfErr result (λ e. ToFileCause e (F.faults feed.old) (F.faults feed.new) (W.faults sink.old) (W.faults sink.new)) }
    ensures leaves { IfErr result (λ e. LeavesNone e (W.written sink.old) (W.written sink.new)) }

    // A stream that means a table becomes a file where no device fails and memory is there, but for these refusals.
    ensures complete { IfSome (F.rest feed.old) (λ b. IsSome (stream_table b None) → Stands (F.faults feed.old) (F.faults feed.new) → Stands (W.faults sink.old) (W.faults sink.new) → IfErr result (λ e. IsRareRefusal e b)) }
    ensures kept { FeedKept F.faults F.references feed.old feed.new }
    ensures sink { SinkKept W.faults W.wants W.references sink.old sink.new }
{
    match encoding {
        Encoding::Bytes => to_file(alloc, feed, sink),
        Encoding::HexText => to_hex_text(alloc, feed, sink),
    }
}
