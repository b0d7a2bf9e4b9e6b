//! A run of bits that several owners may share (Arrow Columnar Format, "Validity bitmaps").
ghost use Rattle.std.specs.Prelude.{◌≡◌, ℕ, ◌+◌, ◌*◌, ◌/◌, ◌^◌, ◌≤◌, ◌<◌, length, not, slice_get, take, Some, IfOk, IfSome, vec_len};
ghost use Rattle.std.specs.List.{count_by};
ghost use Rattle.std.specs.Rc.{rc_slice_items};
ghost use Rattle.arrow_spec.specs.Arrays.{bit};
ghost use Rattle.arrow_spec.specs.Framing.{packed};
ghost use Rattle.arrow_buffers.specs.Rows.{part};
ghost use Rattle.arrow_buffers.specs.Bits.{bits_from};

use std::alloc::AllocError;
use std::marker::Model;
use std::rc::RcSlice;

/// A run of bits, seen as the list of its bits. Bit i is bit i mod 8, the least first, of byte i / 8. A part of it shares its memory.
pub struct Bitmap {
    bytes: RcSlice<u8>,
    start: usize,
    count: usize,
}

impl Drop for Bitmap {
    fn drop(self) {
        let Bitmap {
            bytes,
            start: _,
            count: _,
        } = self;
        drop(bytes);
    }
}

impl Model for Bitmap {
    ghost use Rattle.std.specs.Prelude.{◌+◌, ◌*◌, ◌≤◌, ◌<◌, ◌^◌, List, Bool, length};
    ghost use Rattle.std.specs.Rc.{rc_slice_items};
    ghost use Rattle.arrow_buffers.specs.Bits.{bits_from};

    ghost Value = { List Bool };

    ghost view = { λ b. bits_from (rc_slice_items b.bytes) b.start b.count };

    ghost invariant = { λ b. (b.start + b.count ≤ 8 * length (rc_slice_items b.bytes)) × (b.start + b.count < 2 ^ 64) };
}

/// Whether a bit is 1.
fn is_set(bytes: &[u8], at: usize) -> bool
    requires { at < 8 * length bytes.now }
    ensures { result ≡ bit bytes.now at }
{
    (bytes[at / 8] >> (at % 8)) & 1 == 1
}

/// How many of the bits from one on are 0, looked at one by one.
fn unset_bit_by_bit(bytes: &[u8], from: usize, count: usize) -> usize
    requires inside { from + count ≤ 8 * length bytes.now }
    requires small { from + count < 2 ^ 64 }
    ensures { result ≡ count_by not (bits_from bytes.now from count) }
{
    let mut unset = 0;
    for i in 0..count {
        if !is_set(bytes, from + i) {
            unset += 1;
        }
    }
    unset
}

/// How many bits of the bytes from one on are 0.
fn unset_in_bytes(bytes: &[u8], from: usize, count: usize) -> usize
    requires inside { from + count ≤ length bytes.now }
    requires small { 8 * count < 2 ^ 64 }
    ensures { result ≡ count_by not (bits_from bytes.now (8 * from) (8 * count)) }
{
    let mut unset = 0;
    for i in 0..count {
        unset += 8 - bytes[from + i].count_ones() as usize;
    }
    unset
}

/// So many bytes from one on: the bits in them, packed.
fn bytes_between(bytes: &[u8], from: usize, count: usize) -> &[u8]
    requires { from + count ≤ length bytes.now }
    ensures { (rest : ℕ) → result.now ≡ take count (packed (bits_from bytes.now (8 * from) (8 * count + rest))) }
{
    &bytes[from..from + count]
}

impl Bitmap {
    /// The first bits of the bytes, which are moved and not copied.
    pub fn from_vec(bytes: Vec<u8>, length: usize) -> Result<Bitmap, AllocError>
        requires { length ≤ 8 * vec_len bytes }
        ensures { IfOk result (λ b. b ≡ bits_from bytes.items 0 length) }
    {
        let bytes = RcSlice::from_vec(bytes)?;
        Ok(Bitmap {
            bytes,
            start: 0,
            count: length,
        })
    }

    /// Bits of shared bytes, from a place on. It takes no memory.
    pub fn shared(bytes: RcSlice<u8>, at: usize, count: usize) -> Bitmap
        requires held { at + count ≤ 8 * length (rc_slice_items bytes) }
        requires small { at + count < 2 ^ 64 }
        ensures { result ≡ bits_from (rc_slice_items bytes) at count }
    {
        Bitmap {
            bytes,
            start: at,
            count,
        }
    }

    /// How many bits there are.
    pub fn len(&self) -> usize
        ensures { result ≡ length self.now }
    {
        self.count
    }

    /// Whether the bit at a place is 1.
    pub fn get(&self, i: usize) -> bool
        requires { i < length self.now }
        ensures { slice_get self.now i ≡ Some result }
    {
        is_set(self.bytes.as_slice(), self.start + i)
    }

    /// The bytes that hold eight bits of the run each, where it begins with the first bit of a byte.
    pub fn whole_bytes(&self) -> Option<&[u8]>
        ensures { IfSome result (λ bytes. bytes.now ≡ take (length self.now / 8) (packed self.now)) }
    {
        if self.start % 8 != 0 {
            return None;
        }
        let from = self.start / 8;
        Some(bytes_between(self.bytes.as_slice(), from, self.count / 8))
    }

    /// How many bits are 0.
    pub fn unset_bits(&self) -> usize
        ensures { result ≡ count_by not self.now }
    {
        let bytes = self.bytes.as_slice();
        let end = self.start + self.count;
        let (from, to) = (self.start / 8 + 1, end / 8);
        if to <= from {
            return unset_bit_by_bit(bytes, self.start, self.count);
        }
        let first = unset_bit_by_bit(bytes, self.start, 8 * from - self.start);
        let whole = unset_in_bytes(bytes, from, to - from);
        let last = unset_bit_by_bit(bytes, 8 * to, end - 8 * to);
        first + whole + last
    }

    /// Leaves only the part, and copies nothing.
    pub fn narrow(&mut self, offset: usize, count: usize)
        requires { offset + count ≤ length self.old }
        ensures { self.new ≡ part offset count self.old }
    {
        self.start += offset;
        self.count = count;
    }

    /// The part, which shares the memory.
    pub fn sliced(self, offset: usize, count: usize) -> Bitmap
        requires { offset + count ≤ length self }
        ensures { result ≡ part offset count self }
    {
        let mut part = self;
        part.narrow(offset, count);
        part
    }

    /// A second owner of the same memory.
    pub fn try_clone(&self) -> Result<Bitmap, AllocError>
        ensures { IfOk result (λ b. b ≡ self.now) }
    {
        Ok(Bitmap {
            bytes: self.bytes.clone()?,
            start: self.start,
            count: self.count,
        })
    }
}
