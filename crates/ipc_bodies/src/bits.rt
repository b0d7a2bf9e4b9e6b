//! Bits, eight in a byte, the lowest first, with zeros behind the last (Arrow Columnar Format, "Validity bitmaps").
ghost use Rattle.std.specs.Prelude.{◌≡◌, ◌+◌, ◌/◌, ◌^◌, ◌<◌, ◌≤◌, length, max, take, drop, get_or, if◌then◌else◌};
ghost use Rattle.arrow_spec.specs.Framing.{packed};
ghost use Rattle.arrow_buffers.specs.Rows.{part};
ghost use Rattle.ipc_bodies.specs.Adding.{Appends};
ghost use Rattle.ipc_bodies.specs.Encodings.{text_of};
ghost use Rattle.ipc_bodies.specs.Pieces.{byte_by};
ghost use Rattle.ipc_bodies.specs.Puts.{moved, PutsText};

use crate::Encoding;
use crate::sinks::put_bytes_as;
use arrow_buffers::Bitmap;
use arrow_spec::IpcError;
use ipc_io::Sink;
use std::alloc::AllocError;

/// How many bytes bits take.
pub(crate) fn packed_size(bits: &Bitmap) -> usize
    ensures { result ≡ length (packed bits.now) }
{
    bits.len().div_ceil(8)
}

fn with_bit(byte: u16, weight: u16, bit: bool) -> u16
    requires { byte + weight < 2 ^ 16 }
    ensures { result ≡ (if bit then byte + weight else byte) }
{
    if bit { byte + weight } else { byte }
}

/// The byte that up to eight bits from one on make.
fn byte_from(bits: &Bitmap, first: usize, count: usize) -> u8
    requires few { count ≤ 8 }
    requires within { first + count ≤ length bits.now }
    requires small { first + count < 2 ^ 64 }
    ensures { result ≡ byte_by 1 0 (part first count bits.now) }
{
    let mut byte = 0u16;
    let mut weight = 1u16;
    for i in 0..count {
        byte = with_bit(byte, weight, bits.get(first + i));
        weight *= 2;
    }
    byte as u8
}

/// A byte of packed bits.
fn packed_byte(bits: &Bitmap, i: usize) -> u8
    requires { i < length (packed bits.now) }
    ensures { result ≡ get_or (packed bits.now) i 0 }
{
    let all = bits.len();
    let first = 8 * i;
    byte_from(bits, first, (all - first).min(8))
}

/// Fills `out` with the bytes from one on.
pub(crate) fn fill_bits(bits: &Bitmap, at: usize, out: &mut [u8])
    requires within { at + length out.old ≤ length (packed bits.now) }
    requires small { at + length out.old < 2 ^ 64 }
    ensures { out.new ≡ part at (length out.old) (packed bits.now) }
{
    for i in 0..out.len() {
        out[i] = packed_byte(bits, at + i);
    }
}

/// Puts the bytes behind others: those that stand are copied, and the others are made.
pub(crate) fn append_bits(bits: &Bitmap, out: &mut Vec<u8>) -> Result<(), AllocError>
    ensures { Appends result out.old.items out.new.items (packed bits.now) }
{
    match bits.whole_bytes() {
        Some(bytes) => {
            out.extend_from_slice(bytes)?;
            append_bits_from(bits, bytes.len(), out)
        }
        None => append_bits_from(bits, 0, out),
    }
}

/// Puts the bytes from one on behind others.
fn append_bits_from(bits: &Bitmap, at: usize, out: &mut Vec<u8>) -> Result<(), AllocError>
    requires { at ≤ length (packed bits.now) }
    ensures { Appends result out.old.items out.new.items (drop at (packed bits.now)) }
{
    for i in at..packed_size(bits) {
        out.push(packed_byte(bits, i))?;
    }
    Ok(())
}

/// Puts bits whose whole bytes stand: these, and the byte of the bits behind them, if there are any.
pub(crate) fn put_bits<W: Sink>(
    sink: &mut W,
    bits: &Bitmap,
    bytes: &[u8],
    encoding: Encoding,
    scratch: &mut [u8],
) -> Result<(), IpcError>
    requires scratch { 2 ≤ length scratch.old }
    requires stand { bytes.now ≡ take (length bits.now / 8) (packed bits.now) }
    ensures puts { PutsText (moved (W.written sink.old) (W.written sink.new) (W.faults sink.old) (W.faults sink.new) (W.wants sink.old) (W.wants sink.new)) result (text_of encoding (packed bits.now)) }
    ensures longest { W.longest sink.new ≤ max (W.longest sink.old) (length scratch.old) }
    ensures same_references { W.references sink.new ≡ W.references sink.old }
    ensures scratch { length scratch.new ≡ length scratch.old }
{
    put_bytes_as(sink, bytes, encoding, scratch)?;
    put_last(sink, bits, bytes.len(), encoding, scratch)
}

/// Puts the last byte, if it is not there yet.
fn put_last<W: Sink>(
    sink: &mut W,
    bits: &Bitmap,
    at: usize,
    encoding: Encoding,
    scratch: &mut [u8],
) -> Result<(), IpcError>
    requires last { length (packed bits.now) ≤ at + 1 }
    requires scratch { 2 ≤ length scratch.old }
    ensures puts { PutsText (moved (W.written sink.old) (W.written sink.new) (W.faults sink.old) (W.faults sink.new) (W.wants sink.old) (W.wants sink.new)) result (text_of encoding (drop at (packed bits.now))) }
    ensures longest { W.longest sink.new ≤ max (W.longest sink.old) (length scratch.old) }
    ensures same_references { W.references sink.new ≡ W.references sink.old }
    ensures scratch { length scratch.new ≡ length scratch.old }
{
    if packed_size(bits) <= at {
        return Ok(());
    }
    put_bytes_as(sink, &[packed_byte(bits, at)], encoding, scratch)
}
