//! Bytes that are put into a sink, as they are or as hex text.
ghost use Rattle.std.specs.Prelude.{◌≡◌, ◌-◌, ◌*◌, ◌<◌, ◌≤◌, length, max};
ghost use Rattle.hex.specs.Hex.{encode_lower};
ghost use Rattle.arrow_spec.specs.Layout.{up_to, zeros};
ghost use Rattle.ipc_bodies.specs.Encodings.{text_of, text_width, HasRoom};
ghost use Rattle.ipc_bodies.specs.Puts.{moved, PutsText};

use crate::Encoding;
use arrow_spec::IpcError;
use ipc_io::Sink;

/// How many bytes are needed up to the next multiple of 64.
pub(crate) fn padding(length: usize) -> usize
    ensures gap { result ≡ up_to 64 length - length }
    ensures small { result < 64 }
{
    (64 - length % 64) % 64
}

fn put<W: Sink>(sink: &mut W, bytes: &[u8]) -> Result<(), IpcError>
    ensures puts { PutsText (moved (W.written sink.old) (W.written sink.new) (W.faults sink.old) (W.faults sink.new) (W.wants sink.old) (W.wants sink.new)) result bytes.now }
    ensures longest { W.longest sink.new ≤ max (W.longest sink.old) (length bytes.now) }
    ensures same_references { W.references sink.new ≡ W.references sink.old }
{
    sink.put(bytes)?;
    Ok(())
}

/// Puts the hex text of bytes, which is made in a room of its length.
fn put_digits<W: Sink>(sink: &mut W, bytes: &[u8], digits: &mut [u8]) -> Result<(), IpcError>
    requires { length digits.old ≡ 2 * length bytes.now }
    ensures puts { PutsText (moved (W.written sink.old) (W.written sink.new) (W.faults sink.old) (W.faults sink.new) (W.wants sink.old) (W.wants sink.new)) result (encode_lower bytes.now) }
    ensures longest { W.longest sink.new ≤ max (W.longest sink.old) (2 * length bytes.now) }
    ensures same_references { W.references sink.new ≡ W.references sink.old }
    ensures digits { length digits.new ≡ length digits.old }
{
    hex::encode_to_slice(bytes, digits).unwrap();
    put(sink, digits)
}

/// Puts bytes in one piece. The room is for their text, where they have one of its own.
pub(crate) fn put_piece<W: Sink>(
    sink: &mut W,
    bytes: &[u8],
    encoding: Encoding,
    room: &mut [u8],
) -> Result<(), IpcError>
    requires { HasRoom encoding (length bytes.now) (length room.old) }
    ensures puts { PutsText (moved (W.written sink.old) (W.written sink.new) (W.faults sink.old) (W.faults sink.new) (W.wants sink.old) (W.wants sink.new)) result (text_of encoding bytes.now) }
    ensures longest { W.longest sink.new ≤ max (W.longest sink.old) (text_width encoding * length bytes.now) }
    ensures same_references { W.references sink.new ≡ W.references sink.old }
    ensures room { length room.new ≡ length room.old }
{
    match encoding {
        Encoding::Bytes => put(sink, bytes),
        Encoding::HexText => put_digits(sink, bytes, &mut room[..2 * bytes.len()]),
    }
}

/// Puts bytes from where they stand, at most as many at a time as the scratch has. Hex text is made in the scratch, and no longer than it.
///
/// # Errors
///
/// `WriteFault` and `Memory` of the sink, which leave a part of the text from its front.
pub fn put_bytes_as<W: Sink>(
    sink: &mut W,
    bytes: &[u8],
    encoding: Encoding,
    scratch: &mut [u8],
) -> Result<(), IpcError>
    requires { 2 ≤ length scratch.old }
    ensures puts { PutsText (moved (W.written sink.old) (W.written sink.new) (W.faults sink.old) (W.faults sink.new) (W.wants sink.old) (W.wants sink.new)) result (text_of encoding bytes.now) }
    ensures longest { W.longest sink.new ≤ max (W.longest sink.old) (length scratch.old) }
    ensures same_references { W.references sink.new ≡ W.references sink.old }
    ensures scratch { length scratch.new ≡ length scratch.old }
{
    let most = encoding.bytes_in(scratch.len());
    let mut at = 0;
    while at < bytes.len() {
        let count = most.min(bytes.len() - at);
        put_piece(sink, &bytes[at..at + count], encoding, scratch)?;
        at += count;
    }
    Ok(())
}

/// Puts so many zeros.
pub(crate) fn put_zeros<W: Sink>(
    sink: &mut W,
    count: usize,
    encoding: Encoding,
    scratch: &mut [u8],
) -> Result<(), IpcError>
    requires count { count < 64 }
    requires scratch { 2 ≤ length scratch.old }
    ensures puts { PutsText (moved (W.written sink.old) (W.written sink.new) (W.faults sink.old) (W.faults sink.new) (W.wants sink.old) (W.wants sink.new)) result (text_of encoding (zeros count)) }
    ensures longest { W.longest sink.new ≤ max (W.longest sink.old) (length scratch.old) }
    ensures same_references { W.references sink.new ≡ W.references sink.old }
    ensures scratch { length scratch.new ≡ length scratch.old }
{
    put_bytes_as(sink, &[0; 64][..count], encoding, scratch)
}
