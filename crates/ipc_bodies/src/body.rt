//! Bodies: buffers one after another, each from a multiple of 64 on (Arrow Columnar Format, "Buffer Alignment and Padding").
ghost use Rattle.std.specs.Prelude.{◌≡◌, ◌+◌, ◌-◌, ◌*◌, ◌++◌, ◌^◌, ◌<◌, ◌≤◌, [], ◌∷◌, length, map, max, pos};
ghost use Rattle.arrow_spec.specs.Layout.{up_to, zeros};
ghost use Rattle.arrow_spec.specs.Framing.{body_bytes};
ghost use Rattle.arrow_spec.specs.Sent.{placed, body_of};
ghost use Rattle.ipc_bodies.specs.Adding.{Appends};
ghost use Rattle.ipc_bodies.specs.Encodings.{made_width, text_of};
ghost use Rattle.ipc_bodies.specs.Places.{IsPlace};
ghost use Rattle.ipc_bodies.specs.Puts.{moved, PutsText};

use crate::sinks::{padding, put_zeros};
use crate::{BodyBuffer, Encoding};
use arrow_spec::{IpcBuffer, IpcError};
use ipc_io::Sink;
use std::alloc::AllocError;

const MOST_BODY: u128 = 0x7fff_ffff_ffff_ffff;

/// Puts a buffer, and zeros up to a multiple of 64.
fn put_padded<W: Sink>(
    sink: &mut W,
    buffer: &BodyBuffer,
    encoding: Encoding,
    scratch: &mut [u8],
) -> Result<(), IpcError>
    requires { 64 * made_width encoding ≤ length scratch.old }
    ensures puts { PutsText (moved (W.written sink.old) (W.written sink.new) (W.faults sink.old) (W.faults sink.new) (W.wants sink.old) (W.wants sink.new)) result (text_of encoding (buffer.now ++ zeros (up_to 64 (length buffer.now) - length buffer.now))) }
    ensures longest { W.longest sink.new ≤ max (W.longest sink.old) (length scratch.old) }
    ensures same_references { W.references sink.new ≡ W.references sink.old }
    ensures scratch { length scratch.new ≡ length scratch.old }
{
    buffer.put_as(sink, encoding, scratch)?;
    put_zeros(sink, padding(buffer.len()), encoding, scratch)
}

/// Puts a body into a sink, at most as many bytes at a time as the scratch has.
///
/// # Errors
///
/// `WriteFault` and `Memory` of the sink, which leave a part of the text from its front.
pub fn put_body_as<W: Sink>(
    sink: &mut W,
    buffers: &[BodyBuffer],
    encoding: Encoding,
    scratch: &mut [u8],
) -> Result<(), IpcError>
    requires { 64 * made_width encoding ≤ length scratch.old }
    ensures puts { PutsText (moved (W.written sink.old) (W.written sink.new) (W.faults sink.old) (W.faults sink.new) (W.wants sink.old) (W.wants sink.new)) result (text_of encoding (body_bytes 0 buffers.now)) }
    ensures longest { W.longest sink.new ≤ max (W.longest sink.old) (length scratch.old) }
    ensures same_references { W.references sink.new ≡ W.references sink.old }
    ensures scratch { length scratch.new ≡ length scratch.old }
{
    for buffer in buffers {
        put_padded(sink, buffer, encoding, scratch)?;
    }
    Ok(())
}

/// Puts the bytes of a body as `put_body_as` puts them.
///
/// # Errors
///
/// `WriteFault` and `Memory` of the sink, which leave a part of the body from its front.
pub fn put_body<W: Sink>(
    sink: &mut W,
    buffers: &[BodyBuffer],
    scratch: &mut [u8],
) -> Result<(), IpcError>
    requires { 64 ≤ length scratch.old }
    ensures puts { PutsText (moved (W.written sink.old) (W.written sink.new) (W.faults sink.old) (W.faults sink.new) (W.wants sink.old) (W.wants sink.new)) result (body_bytes 0 buffers.now) }
    ensures longest { W.longest sink.new ≤ max (W.longest sink.old) (length scratch.old) }
    ensures same_references { W.references sink.new ≡ W.references sink.old }
    ensures scratch { length scratch.new ≡ length scratch.old }
{
    put_body_as(sink, buffers, Encoding::Bytes, scratch)
}

/// Puts a buffer behind a body, and zeros up to a multiple of 64.
fn append_padded(buffer: &BodyBuffer, out: &mut Vec<u8>) -> Result<(), AllocError>
    ensures { Appends result out.old.items out.new.items (buffer.now ++ zeros (up_to 64 (length out.old.items + length buffer.now) - (length out.old.items + length buffer.now))) }
{
    buffer.append(out)?;
    let count = padding(out.len());
    out.extend_from_slice(&[0; 64][..count])
}

/// Puts buffers behind a body.
pub fn append_body(buffers: &[BodyBuffer], out: &mut Vec<u8>) -> Result<(), AllocError>
    ensures { Appends result out.old.items out.new.items (body_bytes (length out.old.items) buffers.now) }
{
    for buffer in buffers {
        append_padded(buffer, out)?;
    }
    Ok(())
}

/// Where a buffer ends that begins at a place, with zeros up to a multiple of 64.
fn buffer_end(at: usize, length: usize) -> Option<usize>
    requires { at < 2 ^ 63 }
    ensures { IsPlace result (up_to 64 (at + length)) }
{
    let end = (at as u128 + length as u128).next_multiple_of(64);
    if end > MOST_BODY {
        return None;
    }
    Some(end as usize)
}

/// Where buffers end that begin at a place below 2^63.
fn end_from(at: usize, buffers: &[BodyBuffer]) -> Option<usize>
    requires { at < 2 ^ 63 }
    ensures { IsPlace result (body_of at (map length buffers.now)) }
{
    let mut at = at;
    for buffer in buffers {
        at = buffer_end(at, buffer.len())?;
    }
    Some(at)
}

/// Where buffers end that begin at a place; none where that is 2^63 or more.
#[tactic(auto, using(arrow_spec::proofs::Bodies::body_above))]
pub fn body_end(at: usize, buffers: &[BodyBuffer]) -> Option<usize>
    ensures { IsPlace result (body_of at (map length buffers.now)) }
{
    if at as u128 > MOST_BODY {
        return None;
    }
    end_from(at, buffers)
}

/// Puts the place of a buffer behind others.
fn push_place(at: usize, length: usize, out: &mut Vec<IpcBuffer>) -> Result<(), AllocError>
    requires at { at < 2 ^ 63 }
    requires length { length < 2 ^ 63 }
    ensures { Appends result out.old.items out.new.items (record { offset = pos at; length = pos length } ∷ []) }
{
    let offset = at as i64;
    let length = length as i64;
    out.push(IpcBuffer { offset, length })?;
    Ok(())
}

/// Puts the places of buffers behind others, from a place on.
pub fn append_places(
    at: usize,
    buffers: &[BodyBuffer],
    out: &mut Vec<IpcBuffer>,
) -> Result<(), AllocError>
    requires { body_of at (map length buffers.now) < 2 ^ 63 }
    ensures { Appends result out.old.items out.new.items (placed at (map length buffers.now)) }
{
    let mut at = at;
    for buffer in buffers {
        let length = buffer.len();
        let end = at + length;
        push_place(at, length, out)?;
        at = end + padding(end);
    }
    Ok(())
}
