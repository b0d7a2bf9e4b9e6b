//! Offsets that are counted from the first (Arrow Columnar Format, "Variable-size Binary Layout").
ghost use Rattle.std.specs.Prelude.{◌≡◌, ◌+◌, ◌^◌, ◌<◌, length, not, if◌then◌else◌};
ghost use Rattle.std.specs.Int.{byte_len};
ghost use Rattle.arrow_spec.specs.Arrays.{offset_width};
ghost use Rattle.arrow_spec.specs.Flat.{order_by, from_bytes};
ghost use Rattle.arrow_types.specs.Numbers.{to_bytes, offsets_by};
ghost use Rattle.arrow_buffers.specs.Rows.{part};
ghost use Rattle.ipc_bodies.specs.Pieces.{offset_bytes, held_offsets, AreCounted};
ghost use Rattle.ipc_bodies.specs.Places.{IsPiece};

use arrow_buffers::Buffer;
use std::marker::Model;

/// Offsets as they are held, seen as the bytes of their distances from the first, in the order that is wanted.
#[derive(Drop)]
pub(crate) struct CountedOffsets {
    bytes: Buffer<u8>,
    is_large: bool,
    is_big_endian: bool,
    limit: usize,
    first: usize,
    is_little_endian: bool,
}

impl Model for CountedOffsets {
    ghost use Rattle.std.specs.Prelude.{ℕ, List, not};
    ghost use Rattle.arrow_spec.specs.Flat.{order_by};
    ghost use Rattle.arrow_types.specs.Numbers.{offsets_by};
    ghost use Rattle.ipc_bodies.specs.Pieces.{offset_bytes, held_offsets, AreCounted};

    ghost Value = { List ℕ };

    ghost view = { λ o. offset_bytes (order_by o.is_little_endian) (offsets_by o.is_large) (held_offsets o.is_large (order_by (not o.is_big_endian)) o.bytes) };

    ghost invariant = { λ o. AreCounted o.is_large (order_by (not o.is_big_endian)) o.bytes o.limit o.first };
}

/// The bytes as an array of that many.
fn array_of<const N: usize>(bytes: &[u8]) -> [u8; N]
    requires { length bytes.now ≡ N }
    ensures { result ≡ bytes.now }
{
    <[u8; N]>::try_from(bytes).unwrap()
}

/// How many bytes an offset has.
fn width_of(is_large: bool) -> usize
    ensures width { result ≡ byte_len (offset_width (offsets_by is_large)) }
    ensures above { 0 < result }
{
    if is_large { 8 } else { 4 }
}

/// The bytes of an offset as a number without a sign.
fn number_of(bytes: &[u8], is_large: bool, is_big_endian: bool) -> u64
    requires { length bytes.now ≡ byte_len (offset_width (offsets_by is_large)) }
    ensures number { result ≡ from_bytes (order_by (not is_big_endian)) (offset_width (offsets_by is_large)) bytes.now }
    ensures fits { result < (if is_large then 2 ^ 64 else 2 ^ 32) }
{
    match (is_large, is_big_endian) {
        (true, true) => u64::from_be_bytes(array_of(bytes)),
        (true, false) => u64::from_le_bytes(array_of(bytes)),
        (false, true) => u64::from(u32::from_be_bytes(array_of(bytes))),
        (false, false) => u64::from(u32::from_le_bytes(array_of(bytes))),
    }
}

/// Writes a number as the bytes of an offset.
fn write_number(number: u64, is_large: bool, is_little_endian: bool, out: &mut [u8])
    requires fits { number < (if is_large then 2 ^ 64 else 2 ^ 32) }
    requires size { length out.old ≡ byte_len (offset_width (offsets_by is_large)) }
    ensures { out.new ≡ to_bytes (order_by is_little_endian) (offset_width (offsets_by is_large)) number }
{
    match (is_large, is_little_endian) {
        (true, true) => out.copy_from_slice(&number.to_le_bytes()),
        (true, false) => out.copy_from_slice(&number.to_be_bytes()),
        (false, true) => out.copy_from_slice(&(number as u32).to_le_bytes()),
        (false, false) => out.copy_from_slice(&(number as u32).to_be_bytes()),
    }
}

impl CountedOffsets {
    /// The offsets in some bytes, of 64 bits or of 32, in big-endian order or not, and the order that is wanted.
    pub(crate) fn new(
        bytes: Buffer<u8>,
        is_large: bool,
        is_big_endian: bool,
        limit: usize,
        first: usize,
        is_little_endian: bool,
    ) -> CountedOffsets
        requires { AreCounted is_large (order_by (not is_big_endian)) bytes limit first }
        ensures { result ≡ offset_bytes (order_by is_little_endian) (offsets_by is_large) (held_offsets is_large (order_by (not is_big_endian)) bytes) }
    {
        CountedOffsets {
            bytes,
            is_large,
            is_big_endian,
            limit,
            first,
            is_little_endian,
        }
    }

    pub(crate) fn len(&self) -> usize
        ensures { result ≡ length self.now }
    {
        self.bytes.len()
    }

    /// Fills `out` with the bytes from one on.
    pub(crate) fn fill(&self, at: usize, out: &mut [u8])
        requires { IsPiece at (length out.old) (length self.now) }
        ensures { out.new ≡ part at (length out.old) self.now }
    {
        let bytes = self.bytes.as_slice();
        let width = width_of(self.is_large);
        let first = self.first as u64;
        for i in 0..out.len() / width {
            let to = width * i;
            let from = at + to;
            let number = number_of(
                &bytes[from..from + width],
                self.is_large,
                self.is_big_endian,
            );
            let place = number - first;
            write_number(
                place,
                self.is_large,
                self.is_little_endian,
                &mut out[to..to + width],
            );
        }
    }
}
