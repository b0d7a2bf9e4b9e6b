//! The bytes of one buffer of a body.
ghost use Rattle.std.specs.Prelude.{◌≡◌, ◌↔◌, ◌*◌, ◌/◌, ◌≤◌, [], length, map, max, true, IfOk, IsTrue};
ghost use Rattle.std.specs.Option.{option_map};
ghost use Rattle.std.specs.List.{flat_map};
ghost use Rattle.arrow_spec.specs.Flat.{Order, little, order_by};
ghost use Rattle.arrow_spec.specs.Framing.{packed, validity_bytes};
ghost use Rattle.arrow_types.specs.Numbers.{offsets_by};
ghost use Rattle.arrow_buffers.specs.Rows.{part};
ghost use Rattle.arrow_buffers.specs.Variable.{are_offsets};
ghost use Rattle.ipc_bodies.specs.Adding.{Appends};
ghost use Rattle.ipc_bodies.specs.Encodings.{made_width, text_of};
ghost use Rattle.ipc_bodies.specs.Fitting.{offset_limit, AllBelow, AllFit, ReadsFit};
ghost use Rattle.ipc_bodies.specs.Pieces.{in_order, offset_bytes};
ghost use Rattle.ipc_bodies.specs.Places.{IsPiece};
ghost use Rattle.ipc_bodies.specs.Puts.{moved, PutsText};

use crate::Encoding;
use crate::bits::{append_bits, fill_bits, packed_size, put_bits};
use crate::numbers::TurnedNumbers;
use crate::offsets::CountedOffsets;
use crate::sinks::{put_bytes_as, put_piece};
use arrow_buffers::{Bitmap, Buffer, place_of};
use arrow_spec::IpcError;
use arrow_types::{NativeType, Offset};
use ipc_io::Sink;
use std::alloc::AllocError;
use std::marker::Model;

/// What holds the bytes of a buffer.
#[derive(Drop)]
enum Held {
    Nothing,
    Bits(Bitmap),
    Bytes(Buffer<u8>),
    Turned(TurnedNumbers),
    Offsets(CountedOffsets),
}

/// A buffer of a body, seen as its bytes. It shares what an array holds, and takes no memory for them.
pub struct BodyBuffer {
    held: Held,
}

impl Drop for BodyBuffer {
    fn drop(self) {
        let BodyBuffer { held } = self;
        drop(held);
    }
}

impl Model for BodyBuffer {
    ghost use Rattle.std.specs.Prelude.{ℕ, List};

    ghost Value = { List ℕ };

    ghost use Rattle.ipc_bodies.specs.BytesOf.{bytes_of};

    ghost view = { λ b. bytes_of b.held };
}

impl BodyBuffer {
    /// The bits of a validity, and no bytes where none is held.
    pub fn of_validity(validity: Option<&Bitmap>) -> Result<BodyBuffer, AllocError>
        ensures { IfOk result (λ b. b ≡ validity_bytes (option_map (λ v. v.now) validity.entry)) }
    {
        match validity {
            Some(bits) => BodyBuffer::of_bits(bits),
            None => Ok(BodyBuffer {
                held: Held::Nothing,
            }),
        }
    }

    /// Bits, eight in a byte, the lowest first, with zeros behind the last.
    pub fn of_bits(bits: &Bitmap) -> Result<BodyBuffer, AllocError>
        ensures { IfOk result (λ b. b ≡ packed bits.now) }
    {
        let held = Held::Bits(bits.try_clone()?);
        Ok(BodyBuffer { held })
    }

    /// Bytes as they are.
    pub fn of_bytes(bytes: &Buffer<u8>) -> Result<BodyBuffer, AllocError>
        ensures { IfOk result (λ b. b ≡ bytes.now) }
    {
        let held = Held::Bytes(bytes.try_clone()?);
        Ok(BodyBuffer { held })
    }

    /// Numbers in the order that is asked for: as they are held, where that is the order, and else each integer in them turned.
    pub fn of_numbers<T: NativeType>(
        numbers: &Buffer<T>,
        is_little_endian: bool,
    ) -> Result<BodyBuffer, AllocError>
        requires turned { (order : Order) (x : T) → in_order order T.PRIMITIVE (T.written little x) ≡ T.written order x }
        ensures bytes { IfOk result (λ b. b ≡ flat_map (T.written (order_by is_little_endian)) numbers.now) }
        ensures fit { IfOk result (λ _. ReadsFit T.read T.fits → AllFit T.fits numbers.now) }
    {
        let (bytes, is_big_endian) = numbers.held()?;
        if is_big_endian != is_little_endian {
            return Ok(BodyBuffer {
                held: Held::Bytes(bytes),
            });
        }
        let held = Held::Turned(TurnedNumbers::new(bytes, T::PRIMITIVE, T::WIDTH));
        Ok(BodyBuffer { held })
    }

    /// Offsets, counted from the first, in the order that is asked for: as they are held, where they begin at 0 in that order.
    pub fn of_offsets<O: Offset>(
        offsets: &Buffer<O>,
        limit: usize,
        is_little_endian: bool,
    ) -> Result<BodyBuffer, AllocError>
        requires { are_offsets (map O.number offsets.now) limit ≡ true }
        ensures bytes { IfOk result (λ b. b ≡ offset_bytes (order_by is_little_endian) (offsets_by O.IS_LARGE) (map O.number offsets.now)) }
        ensures below { IfOk result (λ _. AllBelow (offset_limit (offsets_by O.IS_LARGE)) (map O.number offsets.now)) }
    {
        let first = place_of(offsets, 0, limit);
        let (bytes, is_big_endian) = offsets.held()?;
        if first == 0 && is_big_endian != is_little_endian {
            return Ok(BodyBuffer {
                held: Held::Bytes(bytes),
            });
        }
        let offsets = CountedOffsets::new(
            bytes,
            O::IS_LARGE,
            is_big_endian,
            limit,
            first,
            is_little_endian,
        );
        Ok(BodyBuffer {
            held: Held::Offsets(offsets),
        })
    }

    /// How many bytes there are.
    pub fn len(&self) -> usize
        ensures { result ≡ length self.now }
    {
        match &self.held {
            Held::Nothing => 0,
            Held::Bits(bits) => packed_size(bits),
            Held::Bytes(bytes) => bytes.len(),
            Held::Turned(numbers) => numbers.len(),
            Held::Offsets(offsets) => offsets.len(),
        }
    }

    /// Whether there is no byte.
    pub fn is_empty(&self) -> bool
        ensures { IsTrue result ↔ (self.now ≡ []) }
    {
        self.len() == 0
    }

    /// Fills `out` with the bytes from one on.
    fn fill(&self, at: usize, out: &mut [u8])
        requires { IsPiece at (length out.old) (length self.now) }
        ensures { out.new ≡ part at (length out.old) self.now }
    {
        match &self.held {
            Held::Nothing => {}
            Held::Bits(bits) => fill_bits(bits, at, out),
            Held::Bytes(bytes) => out.copy_from_slice(&bytes.as_slice()[at..at + out.len()]),
            Held::Turned(numbers) => numbers.fill(at, out),
            Held::Offsets(offsets) => offsets.fill(at, out),
        }
    }

    /// Puts the bytes behind others.
    pub fn append(&self, out: &mut Vec<u8>) -> Result<(), AllocError>
        ensures { Appends result out.old.items out.new.items self.now }
    {
        match &self.held {
            Held::Nothing => Ok(()),
            Held::Bits(bits) => append_bits(bits, out),
            Held::Bytes(bytes) => out.extend_from_slice(bytes.as_slice()),
            Held::Turned(_) | Held::Offsets(_) => self.append_made(out),
        }
    }

    /// Puts bytes behind others that are made there.
    fn append_made(&self, out: &mut Vec<u8>) -> Result<(), AllocError>
        ensures { Appends result out.old.items out.new.items self.now }
    {
        let from = out.len();
        let Some(end) = from.checked_add(self.len()) else {
            return Err(AllocError);
        };
        out.resize(end, 0)?;
        self.fill(0, &mut out[from..]);
        Ok(())
    }

    /// Puts the bytes into a sink, at most as many at a time as the scratch has. Bytes that stand are put from where they stand, and
    /// the others are made in the scratch, as hex text is.
    ///
    /// # Errors
    ///
    /// `WriteFault` and `Memory` of the sink, which leave a part of the text from its front.
    pub fn put_as<W: Sink>(
        &self,
        sink: &mut W,
        encoding: Encoding,
        scratch: &mut [u8],
    ) -> Result<(), IpcError>
        requires { 64 * made_width encoding ≤ length scratch.old }
        ensures puts { PutsText (moved (W.written sink.old) (W.written sink.new) (W.faults sink.old) (W.faults sink.new) (W.wants sink.old) (W.wants sink.new)) result (text_of encoding self.now) }
        ensures longest { W.longest sink.new ≤ max (W.longest sink.old) (length scratch.old) }
        ensures same_references { W.references sink.new ≡ W.references sink.old }
        ensures scratch { length scratch.new ≡ length scratch.old }
    {
        match &self.held {
            Held::Nothing => Ok(()),
            Held::Bits(bits) => match bits.whole_bytes() {
                Some(bytes) => put_bits(sink, bits, bytes, encoding, scratch),
                None => self.put_made(sink, encoding, scratch),
            },
            Held::Bytes(bytes) => put_bytes_as(sink, bytes.as_slice(), encoding, scratch),
            Held::Turned(_) | Held::Offsets(_) => self.put_made(sink, encoding, scratch),
        }
    }

    /// Puts the bytes into a sink as they are.
    ///
    /// # Errors
    ///
    /// Those of `put_as`.
    pub fn put<W: Sink>(&self, sink: &mut W, scratch: &mut [u8]) -> Result<(), IpcError>
        requires { 64 ≤ length scratch.old }
        ensures puts { PutsText (moved (W.written sink.old) (W.written sink.new) (W.faults sink.old) (W.faults sink.new) (W.wants sink.old) (W.wants sink.new)) result self.now }
        ensures longest { W.longest sink.new ≤ max (W.longest sink.old) (length scratch.old) }
        ensures same_references { W.references sink.new ≡ W.references sink.old }
        ensures scratch { length scratch.new ≡ length scratch.old }
    {
        self.put_as(sink, Encoding::Bytes, scratch)
    }

    /// Puts bytes that are made in the scratch, in pieces of a multiple of 64 bytes, but for the last.
    fn put_made<W: Sink>(
        &self,
        sink: &mut W,
        encoding: Encoding,
        scratch: &mut [u8],
    ) -> Result<(), IpcError>
        requires { 64 * made_width encoding ≤ length scratch.old }
        ensures puts { PutsText (moved (W.written sink.old) (W.written sink.new) (W.faults sink.old) (W.faults sink.new) (W.wants sink.old) (W.wants sink.new)) result (text_of encoding self.now) }
        ensures longest { W.longest sink.new ≤ max (W.longest sink.old) (length scratch.old) }
        ensures same_references { W.references sink.new ≡ W.references sink.old }
        ensures scratch { length scratch.new ≡ length scratch.old }
    {
        let room = encoding.made_in(scratch.len());
        let most = room - room % 64;
        let all = self.len();
        let mut at = 0;
        while at < all {
            let count = most.min(all - at);
            self.put_part(sink, at, count, encoding, scratch)?;
            at += count;
        }
        Ok(())
    }

    /// Puts so many bytes from one on, that are made at the front of the scratch.
    fn put_part<W: Sink>(
        &self,
        sink: &mut W,
        at: usize,
        count: usize,
        encoding: Encoding,
        scratch: &mut [u8],
    ) -> Result<(), IpcError>
        requires piece { IsPiece at count (length self.now) }
        requires scratch { count ≤ length scratch.old / made_width encoding }
        ensures puts { PutsText (moved (W.written sink.old) (W.written sink.new) (W.faults sink.old) (W.faults sink.new) (W.wants sink.old) (W.wants sink.new)) result (text_of encoding (part at count self.now)) }
        ensures longest { W.longest sink.new ≤ max (W.longest sink.old) (length scratch.old) }
        ensures same_references { W.references sink.new ≡ W.references sink.old }
        ensures scratch { length scratch.new ≡ length scratch.old }
    {
        let (made, room) = scratch.split_at_mut(count);
        self.fill(at, made);
        put_piece(sink, made, encoding, room)
    }
}
