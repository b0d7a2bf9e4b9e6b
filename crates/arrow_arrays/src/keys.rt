//! The keys of dictionaries, of any integer type (Arrow Columnar Format, "Dictionary-encoded Layout").
ghost use Rattle.std.specs.Prelude.{◌≡◌, ◌+◌, ◌≤◌, ◌<◌, length, IfOk, true};
ghost use Rattle.std.specs.Option.{option_map};
ghost use Rattle.arrow_buffers.specs.Rows.{part, has_rows, null_rows};
ghost use Rattle.arrow_arrays.specs.Heads.{number_at};
ghost use Rattle.arrow_arrays.specs.KeysOf.{keys_in, index_in, key_validity_in};

use arrow_buffers::{Bitmap, PrimitiveArray};
use arrow_spec::IntegerType;
use std::alloc::{AllocError, Global};

/// The row of a dictionary that each row is, in any integer type.
pub enum DictionaryKeys {
    /// Signed keys of 8 bits.
    Int8(PrimitiveArray<i8>),
    /// Signed keys of 16 bits.
    Int16(PrimitiveArray<i16>),
    /// Signed keys of 32 bits.
    Int32(PrimitiveArray<i32>),
    /// Signed keys of 64 bits.
    Int64(PrimitiveArray<i64>),
    /// Signed keys of 128 bits.
    Int128(PrimitiveArray<i128>),
    /// Unsigned keys of 8 bits.
    UInt8(PrimitiveArray<u8>),
    /// Unsigned keys of 16 bits.
    UInt16(PrimitiveArray<u16>),
    /// Unsigned keys of 32 bits.
    UInt32(PrimitiveArray<u32>),
    /// Unsigned keys of 64 bits.
    UInt64(PrimitiveArray<u64>),
}

impl Drop for DictionaryKeys {
    fn drop(self) {
        match self {
            DictionaryKeys::Int8(held) => drop(held),
            DictionaryKeys::Int16(held) => drop(held),
            DictionaryKeys::Int32(held) => drop(held),
            DictionaryKeys::Int64(held) => drop(held),
            DictionaryKeys::Int128(held) => drop(held),
            DictionaryKeys::UInt8(held) => drop(held),
            DictionaryKeys::UInt16(held) => drop(held),
            DictionaryKeys::UInt32(held) => drop(held),
            DictionaryKeys::UInt64(held) => drop(held),
        }
    }
}

impl DictionaryKeys {
    /// How many keys there are, one a row.
    pub fn len(&self) -> usize
        ensures { result ≡ length (keys_in self.now) }
    {
        match self {
            DictionaryKeys::Int8(keys) => keys.len(),
            DictionaryKeys::Int16(keys) => keys.len(),
            DictionaryKeys::Int32(keys) => keys.len(),
            DictionaryKeys::Int64(keys) => keys.len(),
            DictionaryKeys::Int128(keys) => keys.len(),
            DictionaryKeys::UInt8(keys) => keys.len(),
            DictionaryKeys::UInt16(keys) => keys.len(),
            DictionaryKeys::UInt32(keys) => keys.len(),
            DictionaryKeys::UInt64(keys) => keys.len(),
        }
    }

    /// The type of the keys.
    pub fn index_type(&self) -> IntegerType
        ensures { result ≡ index_in self.now }
    {
        match self {
            DictionaryKeys::Int8(_) => IntegerType::Int8,
            DictionaryKeys::Int16(_) => IntegerType::Int16,
            DictionaryKeys::Int32(_) => IntegerType::Int32,
            DictionaryKeys::Int64(_) => IntegerType::Int64,
            DictionaryKeys::Int128(_) => IntegerType::Int128,
            DictionaryKeys::UInt8(_) => IntegerType::UInt8,
            DictionaryKeys::UInt16(_) => IntegerType::UInt16,
            DictionaryKeys::UInt32(_) => IntegerType::UInt32,
            DictionaryKeys::UInt64(_) => IntegerType::UInt64,
        }
    }

    /// Which rows are valid; every row, where it is not given.
    pub fn validity(&self) -> Option<&Bitmap>
        ensures bits { option_map (λ b. b.now) result ≡ key_validity_in self.now }
        ensures rows { has_rows (key_validity_in self.now) (length (keys_in self.now)) ≡ true }
    {
        match self {
            DictionaryKeys::Int8(keys) => keys.validity(),
            DictionaryKeys::Int16(keys) => keys.validity(),
            DictionaryKeys::Int32(keys) => keys.validity(),
            DictionaryKeys::Int64(keys) => keys.validity(),
            DictionaryKeys::Int128(keys) => keys.validity(),
            DictionaryKeys::UInt8(keys) => keys.validity(),
            DictionaryKeys::UInt16(keys) => keys.validity(),
            DictionaryKeys::UInt32(keys) => keys.validity(),
            DictionaryKeys::UInt64(keys) => keys.validity(),
        }
    }

    /// How many rows are null.
    pub fn null_count(&self) -> usize
        ensures { result ≡ null_rows (key_validity_in self.now) }
    {
        match self {
            DictionaryKeys::Int8(keys) => keys.null_count(),
            DictionaryKeys::Int16(keys) => keys.null_count(),
            DictionaryKeys::Int32(keys) => keys.null_count(),
            DictionaryKeys::Int64(keys) => keys.null_count(),
            DictionaryKeys::Int128(keys) => keys.null_count(),
            DictionaryKeys::UInt8(keys) => keys.null_count(),
            DictionaryKeys::UInt16(keys) => keys.null_count(),
            DictionaryKeys::UInt32(keys) => keys.null_count(),
            DictionaryKeys::UInt64(keys) => keys.null_count(),
        }
    }

    /// The number of a row's key, which means nothing where the row is null.
    pub fn number(&self, row: usize) -> i128
        requires { row < length (keys_in self.now) }
        ensures { result ≡ number_at (keys_in self.now) row }
    {
        match self {
            DictionaryKeys::Int8(keys) => keys.value(row) as i128,
            DictionaryKeys::Int16(keys) => keys.value(row) as i128,
            DictionaryKeys::Int32(keys) => keys.value(row) as i128,
            DictionaryKeys::Int64(keys) => keys.value(row) as i128,
            DictionaryKeys::Int128(keys) => keys.value(row),
            DictionaryKeys::UInt8(keys) => keys.value(row) as i128,
            DictionaryKeys::UInt16(keys) => keys.value(row) as i128,
            DictionaryKeys::UInt32(keys) => keys.value(row) as i128,
            DictionaryKeys::UInt64(keys) => keys.value(row) as i128,
        }
    }

    /// Leaves only the part.
    pub(crate) fn narrow(&mut self, offset: usize, rows: usize)
        requires { offset + rows ≤ length (keys_in self.old) }
        ensures keys { keys_in self.new ≡ part offset rows (keys_in self.old) }
        ensures index { index_in self.new ≡ index_in self.old }
        ensures validity { key_validity_in self.new ≡ option_map (part offset rows) (key_validity_in self.old) }
    {
        match self {
            DictionaryKeys::Int8(keys) => keys.narrow(offset, rows),
            DictionaryKeys::Int16(keys) => keys.narrow(offset, rows),
            DictionaryKeys::Int32(keys) => keys.narrow(offset, rows),
            DictionaryKeys::Int64(keys) => keys.narrow(offset, rows),
            DictionaryKeys::Int128(keys) => keys.narrow(offset, rows),
            DictionaryKeys::UInt8(keys) => keys.narrow(offset, rows),
            DictionaryKeys::UInt16(keys) => keys.narrow(offset, rows),
            DictionaryKeys::UInt32(keys) => keys.narrow(offset, rows),
            DictionaryKeys::UInt64(keys) => keys.narrow(offset, rows),
        }
    }

    /// A second owner of the same keys.
    pub fn try_clone(&self, alloc: Global) -> Result<DictionaryKeys, AllocError>
        ensures keys { IfOk result (λ k. keys_in k ≡ keys_in self.now) }
        ensures index { IfOk result (λ k. index_in k ≡ index_in self.now) }
        ensures validity { IfOk result (λ k. key_validity_in k ≡ key_validity_in self.now) }
    {
        copied(alloc, self)
    }
}

macro_rules! copied_as {
    ($kind:ident, $keys:ident, $alloc:ident) => {
        match $keys.try_clone($alloc) {
            Ok(copy) => Ok(DictionaryKeys::$kind(copy)),
            Err(error) => Err(error),
        }
    };
}

fn copied(alloc: Global, keys: &DictionaryKeys) -> Result<DictionaryKeys, AllocError>
    ensures { IfOk result (λ k. k ≡ keys.now) }
{
    match keys {
        DictionaryKeys::Int8(keys) => copied_as!(Int8, keys, alloc),
        DictionaryKeys::Int16(keys) => copied_as!(Int16, keys, alloc),
        DictionaryKeys::Int32(keys) => copied_as!(Int32, keys, alloc),
        DictionaryKeys::Int64(keys) => copied_as!(Int64, keys, alloc),
        DictionaryKeys::Int128(keys) => copied_as!(Int128, keys, alloc),
        DictionaryKeys::UInt8(keys) => copied_as!(UInt8, keys, alloc),
        DictionaryKeys::UInt16(keys) => copied_as!(UInt16, keys, alloc),
        DictionaryKeys::UInt32(keys) => copied_as!(UInt32, keys, alloc),
        DictionaryKeys::UInt64(keys) => copied_as!(UInt64, keys, alloc),
    }
}
