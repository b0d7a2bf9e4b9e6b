//! A run of items that several owners may share.
ghost use Rattle.std.specs.Prelude.{◌≡◌, ℕ, ◌+◌, ◌*◌, ◌^◌, ◌≤◌, ◌<◌, ◌↔◌, [], length, get_or, not, slice_get, Some, IfOk, IfSome, IsTrue};
ghost use Rattle.std.specs.List.{flat_map};
ghost use Rattle.std.specs.Rc.{rc_slice_items};
ghost use Rattle.arrow_spec.specs.Flat.{little, order_by};
ghost use Rattle.arrow_buffers.specs.Rows.{part};
ghost use Rattle.arrow_buffers.specs.Items.{items_at};

use arrow_types::NativeType;
use std::alloc::{AllocError, Global};
use std::convert::AsSlice;
use std::marker::{Model, PhantomData};
use std::rc::RcSlice;

/// A run of items, seen as the list of its items: a range of shared bytes, and the order in which each item's bytes stand in it.
/// A part of it shares the bytes.
pub struct Buffer<T: NativeType> {
    bytes: RcSlice<u8>,
    at: usize,
    count: usize,
    is_big_endian: bool,
    items: PhantomData<T>,
}

impl<T: NativeType> Drop for Buffer<T> {
    fn drop(self) {
        let Buffer {
            bytes,
            at: _,
            count: _,
            is_big_endian: _,
            items: _,
        } = self;
        drop(bytes);
    }
}

impl<T: NativeType> Model for Buffer<T> {
    ghost use Rattle.std.specs.Prelude.{◌+◌, ◌*◌, ◌≤◌, List, length, not};
    ghost use Rattle.std.specs.Rc.{rc_slice_items};
    ghost use Rattle.arrow_spec.specs.Flat.{order_by};
    ghost use Rattle.arrow_buffers.specs.Items.{items_at};

    ghost Value = { List T };

    ghost view = { λ b. items_at T.read T.WIDTH (order_by (not b.is_big_endian)) (rc_slice_items b.bytes) b.at b.count };

    ghost invariant = { λ b. b.at + T.WIDTH * b.count ≤ length (rc_slice_items b.bytes) };
}

/// The bytes of items, each in little-endian order.
fn bytes_of_items<T: NativeType>(alloc: Global, items: &[T]) -> Result<Vec<u8>, AllocError>
    ensures items { IfOk result (λ v. items_at T.read T.WIDTH little v.items 0 (length items.now) ≡ items.now) }
    ensures size { IfOk result (λ v. length v.items ≡ T.WIDTH * length items.now) }
{
    let mut bytes = Vec::new(alloc);
    bytes.reserve(items.len().saturating_mul(T::WIDTH))?;
    for item in items {
        let written = item.to_le_bytes();
        bytes.extend_from_slice(written.as_slice())?;
    }
    Ok(bytes)
}

/// So many bytes from a place on, which are bytes.
fn range_of(bytes: &[u8], at: usize, count: usize) -> &[u8]
    requires { at + count ≤ length bytes.now }
    ensures part { result.now ≡ part at count bytes.now }
    ensures small { (i : ℕ) → get_or bytes.now i 0 < 2 ^ 8 }
{
    &bytes[at..at + count]
}

impl<T: NativeType> Buffer<T> {
    /// The items, held as their bytes in little-endian order.
    pub fn from_vec(items: Vec<T>) -> Result<Buffer<T>, AllocError>
        ensures { IfOk result (λ b. b ≡ items.items) }
    {
        let count = items.len();
        let bytes = bytes_of_items(*items.allocator(), items.as_slice())?;
        let bytes = RcSlice::from_vec(bytes)?;
        Ok(Buffer {
            bytes,
            at: 0,
            count,
            is_big_endian: false,
            items: PhantomData,
        })
    }

    /// The items that stand from a place of the bytes on. It takes no memory.
    pub fn shared(bytes: RcSlice<u8>, at: usize, count: usize, is_big_endian: bool) -> Buffer<T>
        requires { at + T.WIDTH * count ≤ length (rc_slice_items bytes) }
        ensures { result ≡ items_at T.read T.WIDTH (order_by (not is_big_endian)) (rc_slice_items bytes) at count }
    {
        Buffer {
            bytes,
            at,
            count,
            is_big_endian,
            items: PhantomData,
        }
    }

    /// How many items there are.
    pub fn len(&self) -> usize
        ensures { result ≡ length self.now }
    {
        self.count
    }

    /// Whether there is no item.
    pub fn is_empty(&self) -> bool
        ensures { IsTrue result ↔ (self.now ≡ []) }
    {
        self.count == 0
    }

    /// The item at a place.
    pub fn get(&self, i: usize) -> T
        requires { i < length self.now }
        ensures { slice_get self.now i ≡ Some result }
    {
        let bytes = self.bytes.as_slice();
        let at = self.at + T::WIDTH * i;
        let item = &bytes[at..at + T::WIDTH];
        if self.is_big_endian {
            T::from_be_bytes(item)
        } else {
            T::from_le_bytes(item)
        }
    }

    /// A copy of the items.
    pub fn to_vec(&self, alloc: Global) -> Result<Vec<T>, AllocError>
        ensures { IfOk result (λ v. v.items ≡ self.now) }
    {
        let mut items = Vec::new(alloc);
        items.reserve(self.len())?;
        for i in 0..self.len() {
            items.push(self.get(i))?;
        }
        Ok(items)
    }

    /// The bytes of the items as they are held, where that is in the order that is asked for.
    pub fn held_in(&self, is_big_endian: bool) -> Option<&[u8]>
        ensures { IfSome result (λ bytes. bytes.now ≡ flat_map (T.written (order_by (not is_big_endian))) self.now) }
    {
        if self.is_big_endian != is_big_endian {
            return None;
        }
        Some(range_of(self.bytes.as_slice(), self.at, T::WIDTH * self.count))
    }

    /// The bytes of the items as they are held, which share the memory, and whether each item's stand in big-endian order.
    pub fn held(&self) -> Result<(Buffer<u8>, bool), AllocError>
        ensures bytes { IfOk result (λ r. r.0 ≡ flat_map (T.written (order_by (not r.1))) self.now) }
        ensures items { IfOk result (λ r. items_at T.read T.WIDTH (order_by (not r.1)) r.0 0 (length self.now) ≡ self.now) }
        ensures size { IfOk result (λ r. length r.0 ≡ T.WIDTH * length self.now) }
        ensures small { IfOk result (λ r. (i : ℕ) → get_or r.0 i 0 < 2 ^ 8) }
    {
        let size = range_of(self.bytes.as_slice(), self.at, T::WIDTH * self.count).len();
        let bytes = Buffer::shared(self.bytes.clone()?, self.at, size, false);
        Ok((bytes, self.is_big_endian))
    }

    /// Leaves only the part, and copies nothing.
    pub fn narrow(&mut self, offset: usize, count: usize)
        requires { offset + count ≤ length self.old }
        ensures { self.new ≡ part offset count self.old }
    {
        let from = self.at;
        self.at = from + T::WIDTH * offset;
        self.count = count;
    }

    /// The part, which shares the bytes.
    pub fn sliced(self, offset: usize, count: usize) -> Buffer<T>
        requires { offset + count ≤ length self }
        ensures { result ≡ part offset count self }
    {
        let mut part = self;
        part.narrow(offset, count);
        part
    }

    /// A second owner of the same bytes.
    pub fn try_clone(&self) -> Result<Buffer<T>, AllocError>
        ensures { IfOk result (λ b. b ≡ self.now) }
    {
        Ok(Buffer {
            bytes: self.bytes.clone()?,
            at: self.at,
            count: self.count,
            is_big_endian: self.is_big_endian,
            items: PhantomData,
        })
    }
}

impl Buffer<u8> {
    /// The bytes, which are moved and not copied.
    pub fn from_bytes(bytes: Vec<u8>) -> Result<Buffer<u8>, AllocError>
        ensures { IfOk result (λ b. b ≡ bytes.items) }
    {
        let count = bytes.len();
        let bytes = RcSlice::from_vec(bytes)?;
        Ok(Buffer {
            bytes,
            at: 0,
            count,
            is_big_endian: false,
            items: PhantomData,
        })
    }

    /// The bytes.
    pub fn as_slice(&self) -> &[u8]
        ensures { result.now ≡ self.now }
    {
        let bytes = self.bytes.as_slice();
        &bytes[self.at..self.at + self.count]
    }
}
