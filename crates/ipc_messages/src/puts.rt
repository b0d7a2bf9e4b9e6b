//! Messages that are put into a sink, and where a put fails.
ghost use Rattle.std.specs.Prelude.{◌≡◌, ◌≤◌, ◌<◌, ◌*◌, ℕ, List, length, map};
ghost use Rattle.std.specs.List.{flat_map};
ghost use Rattle.hex.specs.Hex.{encode_lower};
ghost use Rattle.arrow_spec.specs.Framing.{body_bytes};
ghost use Rattle.ipc_write.specs.Below.{Bytes, made_width, text_of, Moved, moved, PutsText};
ghost use Rattle.ipc_dictionaries.specs.Walks.{to_send};
ghost use Rattle.ipc_messages.specs.Messages.{planned_sizes, planned_text, total};
ghost use Rattle.ipc_messages.specs.Puts.{PutsBeforeWant, PutsBehind, PutsOrStops, SendsChunk, StopsByFault, stop_behind};

use crate::messages::chunk_messages;
use crate::planned::PlannedMessage;
use arrow_arrays::RecordBatch;
use arrow_spec::IpcError;
use ipc_dictionaries::ToEncode;
use ipc_write::{Encoding, PutError, Sink, WriteOptions, put_body_as, put_bytes_as};
use std::alloc::Global;

/// Why a call stops.
#[derive(Clone, Copy, Debug, PartialEq, Eq)]
pub struct Stop {
    /// What the call answers.
    pub error: IpcError,
    /// A byte may have been put.
    pub has_begun: bool,
}

impl Stop {
    /// The same behind others, of which a byte may have been put.
    pub fn behind(self, has_begun: bool) -> Stop
        ensures { result ≡ stop_behind has_begun self }
    {
        if has_begun {
            return Stop {
                error: self.error,
                has_begun: true,
            };
        }
        self
    }
}

/// Puts bytes in one piece: for want of memory nothing is put.
///
/// # Errors
///
/// `Memory` and `WriteFault` of the sink.
pub fn put_whole<W: Sink>(sink: &mut W, bytes: &[u8]) -> Result<(), Stop>
    ensures puts { PutsOrStops (moved (W.written sink.old) (W.written sink.new) (W.faults sink.old) (W.faults sink.new) (W.wants sink.old) (W.wants sink.new)) result bytes.now }
    ensures whole { StopsByFault result }
    ensures same_references { W.references sink.new ≡ W.references sink.old }
{
    match sink.put(bytes) {
        Ok(()) => Ok(()),
        Err(PutError::Memory) => Err(Stop {
            error: IpcError::Memory,
            has_begun: false,
        }),
        Err(PutError::Failed) => Err(Stop {
            error: IpcError::WriteFault,
            has_begun: true,
        }),
    }
}

/// What a put comes to behind bytes that were put.
pub fn behind_begun(put: Result<(), IpcError>) -> Result<(), Stop>
    ensures { (m : Moved) (bytes : List ℕ) → PutsText m put bytes → PutsBehind m result bytes }
{
    match put {
        Ok(()) => Ok(()),
        Err(error) => Err(Stop {
            error,
            has_begun: true,
        }),
    }
}

/// Puts the hex text of bytes in one piece, which is made in a room of its length.
fn put_digits<W: Sink>(sink: &mut W, bytes: &[u8], digits: &mut [u8]) -> Result<(), Stop>
    requires { length digits.old ≡ 2 * length bytes.now }
    ensures puts { PutsOrStops (moved (W.written sink.old) (W.written sink.new) (W.faults sink.old) (W.faults sink.new) (W.wants sink.old) (W.wants sink.new)) result (encode_lower bytes.now) }
    ensures whole { StopsByFault result }
    ensures same_references { W.references sink.new ≡ W.references sink.old }
    ensures digits { length digits.new ≡ length digits.old }
{
    hex::encode_to_slice(bytes, digits).unwrap();
    put_whole(sink, digits)
}

/// Puts the hex text of bytes in pieces no longer than the scratch, the first by a put of its own.
fn put_hex_text<W: Sink>(sink: &mut W, bytes: &[u8], scratch: &mut [u8]) -> Result<(), Stop>
    requires { 2 ≤ length scratch.old }
    ensures puts { PutsOrStops (moved (W.written sink.old) (W.written sink.new) (W.faults sink.old) (W.faults sink.new) (W.wants sink.old) (W.wants sink.new)) result (encode_lower bytes.now) }
    ensures wants { 0 < length bytes.now → PutsBeforeWant result (W.written sink.old) (W.written sink.new) }
    ensures same_references { W.references sink.new ≡ W.references sink.old }
    ensures scratch { length scratch.new ≡ length scratch.old }
{
    let count = bytes.len().min(scratch.len() / 2);
    put_digits(sink, &bytes[..count], &mut scratch[..2 * count])?;
    behind_begun(put_bytes_as(sink, &bytes[count..], Encoding::HexText, scratch))
}

/// Puts bytes, or their hex text: bytes in one piece, text in pieces no longer than the scratch. Where the first of them wants
/// memory, nothing is put.
///
/// # Errors
///
/// `Memory` and `WriteFault` of the sink.
pub fn put_whole_as<W: Sink>(
    sink: &mut W,
    bytes: &[u8],
    encoding: Encoding,
    scratch: &mut [u8],
) -> Result<(), Stop>
    requires { 2 ≤ length scratch.old }
    ensures puts { PutsOrStops (moved (W.written sink.old) (W.written sink.new) (W.faults sink.old) (W.faults sink.new) (W.wants sink.old) (W.wants sink.new)) result (text_of encoding bytes.now) }
    ensures wants { 0 < length bytes.now → PutsBeforeWant result (W.written sink.old) (W.written sink.new) }
    ensures whole { encoding ≡ Bytes → StopsByFault result }
    ensures same_references { W.references sink.new ≡ W.references sink.old }
    ensures scratch { length scratch.new ≡ length scratch.old }
{
    match encoding {
        Encoding::Bytes => put_whole(sink, bytes),
        Encoding::HexText => put_hex_text(sink, bytes, scratch),
    }
}

/// Puts the buffers of a body behind its front.
fn put_behind<W: Sink>(
    sink: &mut W,
    message: &PlannedMessage,
    encoding: Encoding,
    scratch: &mut [u8],
) -> Result<(), Stop>
    requires { 64 * made_width encoding ≤ length scratch.old }
    ensures puts { PutsBehind (moved (W.written sink.old) (W.written sink.new) (W.faults sink.old) (W.faults sink.new) (W.wants sink.old) (W.wants sink.new)) result (text_of encoding (body_bytes 0 message.now.buffers.items)) }
    ensures same_references { W.references sink.new ≡ W.references sink.old }
    ensures scratch { length scratch.new ≡ length scratch.old }
{
    behind_begun(put_body_as(sink, message.buffers.as_slice(), encoding, scratch))
}

/// Puts a message, its front as `put_whole_as` puts it.
fn put_message<W: Sink>(
    sink: &mut W,
    message: &PlannedMessage,
    encoding: Encoding,
    scratch: &mut [u8],
) -> Result<(), Stop>
    requires { 64 * made_width encoding ≤ length scratch.old }
    ensures puts { PutsOrStops (moved (W.written sink.old) (W.written sink.new) (W.faults sink.old) (W.faults sink.new) (W.wants sink.old) (W.wants sink.new)) result (text_of encoding (planned_text message.now)) }
    ensures wants { PutsBeforeWant result (W.written sink.old) (W.written sink.new) }
    ensures same_references { W.references sink.new ≡ W.references sink.old }
    ensures scratch { length scratch.new ≡ length scratch.old }
{
    put_whole_as(sink, message.front.as_slice(), encoding, scratch)?;
    put_behind(sink, message, encoding, scratch)
}

/// Puts messages one after another, as bytes or as hex text: of each the front as `put_whole_as` puts it, and the body in pieces
/// no longer than the scratch.
///
/// # Errors
///
/// `Memory` and `WriteFault` of the sink.
pub fn put_messages_as<W: Sink>(
    sink: &mut W,
    messages: &[PlannedMessage],
    encoding: Encoding,
    scratch: &mut [u8],
) -> Result<(), Stop>
    requires { 64 * made_width encoding ≤ length scratch.old }
    ensures puts { PutsOrStops (moved (W.written sink.old) (W.written sink.new) (W.faults sink.old) (W.faults sink.new) (W.wants sink.old) (W.wants sink.new)) result (text_of encoding (flat_map planned_text messages.now)) }
    ensures wants { PutsBeforeWant result (W.written sink.old) (W.written sink.new) }
    ensures same_references { W.references sink.new ≡ W.references sink.old }
    ensures scratch { length scratch.new ≡ length scratch.old }
{
    let mut has_begun = false;
    for message in messages {
        match put_message(sink, message, encoding, scratch) {
            Ok(()) => has_begun = true,
            Err(stop) => return Err(stop.behind(has_begun)),
        }
    }
    Ok(())
}

/// Puts messages one after another, their bodies in pieces no longer than the scratch.
///
/// # Errors
///
/// `Memory` and `WriteFault` of the sink.
pub fn put_messages<W: Sink>(
    sink: &mut W,
    messages: &[PlannedMessage],
    scratch: &mut [u8],
) -> Result<(), Stop>
    requires { 64 ≤ length scratch.old }
    ensures puts { PutsOrStops (moved (W.written sink.old) (W.written sink.new) (W.faults sink.old) (W.faults sink.new) (W.wants sink.old) (W.wants sink.new)) result (flat_map planned_text messages.now) }
    ensures wants { PutsBeforeWant result (W.written sink.old) (W.written sink.new) }
    ensures same_references { W.references sink.new ≡ W.references sink.old }
    ensures scratch { length scratch.new ≡ length scratch.old }
{
    put_messages_as(sink, messages, Encoding::Bytes, scratch)
}

/// How many bytes messages have.
fn text_length(messages: &[PlannedMessage]) -> u128
    ensures { result ≡ total (map planned_sizes messages.now) }
{
    let mut length = 0_u128;
    for message in messages {
        length += message.front.len() as u128 + message.body_length as u128;
    }
    length
}

/// Puts the messages of values of dictionaries, and of the batch behind them, as `put_messages_as` puts them, once all of them are
/// planned. Gives how many bytes they have, whose text may be longer.
///
/// # Errors
///
/// As of `chunk_messages`, before a byte is put; `Memory` and `WriteFault` of the sink.
pub fn send_chunk_as<W: Sink>(
    alloc: Global,
    sink: &mut W,
    messages: &[ToEncode],
    batch: &RecordBatch,
    options: &WriteOptions,
    encoding: Encoding,
    scratch: &mut [u8],
) -> Result<u128, Stop>
    requires { 64 * made_width encoding ≤ length scratch.old }
    ensures sends { SendsChunk (text_of encoding) (moved (W.written sink.old) (W.written sink.new) (W.faults sink.old) (W.faults sink.new) (W.wants sink.old) (W.wants sink.new)) result options.now (map to_send messages.now) batch.now }
    ensures wants { PutsBeforeWant result (W.written sink.old) (W.written sink.new) }
    ensures same_references { W.references sink.new ≡ W.references sink.old }
    ensures scratch { length scratch.new ≡ length scratch.old }
{
    match chunk_messages(alloc, messages, batch, options) {
        Ok(planned) => {
            let messages = planned.as_slice();
            put_messages_as(sink, messages, encoding, scratch)?;
            Ok(text_length(messages))
        }
        Err(error) => Err(Stop {
            error,
            has_begun: false,
        }),
    }
}
