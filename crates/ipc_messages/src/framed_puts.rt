//! Framed messages that are put into a sink, and where a put fails.
ghost use Rattle.std.specs.Prelude.{◌≡◌, ◌≤◌, length};
ghost use Rattle.std.specs.List.{flat_map};
ghost use Rattle.ipc_write.specs.Below.{moved, PutsText};
ghost use Rattle.ipc_messages.specs.Puts.{PutsBeforeWant, PutsBehind, PutsOrStops};
ghost use Rattle.ipc_messages.specs.Framed.{framed_text, padded_body};

use crate::framed_message::FramedMessage;
use crate::{Stop, behind_begun, put_whole};
use arrow_spec::IpcError;
use ipc_write::{Encoding, Sink, pad_to_64, put_bytes_as};

/// Puts a body with zeros up to a multiple of 64.
fn put_padded<W: Sink>(sink: &mut W, body: &[u8], scratch: &mut [u8]) -> Result<(), IpcError>
    requires { 64 ≤ length scratch.old }
    ensures puts { PutsText (moved (W.written sink.old) (W.written sink.new) (W.faults sink.old) (W.faults sink.new) (W.wants sink.old) (W.wants sink.new)) result (padded_body body.now) }
    ensures same_references { W.references sink.new ≡ W.references sink.old }
    ensures scratch { length scratch.new ≡ length scratch.old }
{
    let padding = pad_to_64(body.len());
    put_bytes_as(sink, body, Encoding::Bytes, scratch)?;
    put_bytes_as(sink, &[0; 64][..padding], Encoding::Bytes, scratch)
}

/// Puts a body behind its front.
fn put_behind<W: Sink>(sink: &mut W, body: &[u8], scratch: &mut [u8]) -> Result<(), Stop>
    requires { 64 ≤ length scratch.old }
    ensures puts { PutsBehind (moved (W.written sink.old) (W.written sink.new) (W.faults sink.old) (W.faults sink.new) (W.wants sink.old) (W.wants sink.new)) result (padded_body body.now) }
    ensures same_references { W.references sink.new ≡ W.references sink.old }
    ensures scratch { length scratch.new ≡ length scratch.old }
{
    behind_begun(put_padded(sink, body, scratch))
}

/// Puts a message, its front in one piece.
fn put_message<W: Sink>(
    sink: &mut W,
    message: &FramedMessage,
    scratch: &mut [u8],
) -> Result<(), Stop>
    requires { 64 ≤ length scratch.old }
    ensures puts { PutsOrStops (moved (W.written sink.old) (W.written sink.new) (W.faults sink.old) (W.faults sink.new) (W.wants sink.old) (W.wants sink.new)) result (framed_text message.now) }
    ensures wants { PutsBeforeWant result (W.written sink.old) (W.written sink.new) }
    ensures same_references { W.references sink.new ≡ W.references sink.old }
    ensures scratch { length scratch.new ≡ length scratch.old }
{
    put_whole(sink, message.front.as_slice())?;
    put_behind(sink, message.body, scratch)
}

/// Puts messages one after another, their bodies from where they stand, in pieces no longer than the scratch.
///
/// # Errors
///
/// `Memory` and `WriteFault` of the sink.
pub fn put_framed<W: Sink>(
    sink: &mut W,
    messages: &[FramedMessage],
    scratch: &mut [u8],
) -> Result<(), Stop>
    requires { 64 ≤ length scratch.old }
    ensures puts { PutsOrStops (moved (W.written sink.old) (W.written sink.new) (W.faults sink.old) (W.faults sink.new) (W.wants sink.old) (W.wants sink.new)) result (flat_map framed_text messages.now) }
    ensures wants { PutsBeforeWant result (W.written sink.old) (W.written sink.new) }
    ensures same_references { W.references sink.new ≡ W.references sink.old }
    ensures scratch { length scratch.new ≡ length scratch.old }
{
    let mut has_begun = false;
    for message in messages {
        match put_message(sink, message, scratch) {
            Ok(()) => has_begun = true,
            Err(stop) => return Err(stop.behind(has_begun)),
        }
    }
    Ok(())
}
