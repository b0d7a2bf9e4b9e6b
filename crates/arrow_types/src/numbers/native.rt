//! The numbers of columns of fixed width, and the bytes that they are stored as.
ghost use Rattle.std.specs.Prelude.{◌≡◌, length};
ghost use Rattle.arrow_spec.specs.Flat.{little, big};

use crate::PrimitiveType;
use crate::numbers::bytes::array_of;
use std::convert::AsSlice;

/// A number of fixed width, which is stored as its bytes in either order.
pub trait NativeType: Copy {
    ghost use Rattle.std.specs.Prelude.{◌≡◌, ◌+◌, ◌^◌, ◌≤◌, ◌<◌, ℕ, List, Option, Some, length, take, drop, get_or};
    ghost use Rattle.arrow_spec.specs.Flat.{Order, little, big};
    ghost use Rattle.arrow_spec.specs.Cells.{Cell};
    ghost use Rattle.arrow_types.specs.declared.physical.PrimitiveType.{PrimitiveType};
    ghost use Rattle.arrow_types.specs.Physical.{primitive_size};

    /// The bytes of a number.
    ghost WIDTH: { ℕ };

    /// How many bytes a number has.
    const WIDTH: usize;

    /// The layout of a column of such numbers.
    ghost PRIMITIVE: { PrimitiveType };

    /// The layout of a column of such numbers.
    const PRIMITIVE: PrimitiveType;

    /// An array of `WIDTH` bytes.
    type Bytes: AsSlice<u8> + Drop;

    /// The bytes of a number in an order, and the number of bytes in an order.
    ghost written: { Order → Self → List ℕ };

    ghost read: { Order → List ℕ → Self };

    /// The number at a place of some bytes; none past their end.
    ghost at_place: { List ℕ → ℕ → Order → Option Self };

    /// The values that the type has.
    ghost fits: { Self → Type 0 };

    /// What a row that holds the number holds.
    ghost cell: { Self → Cell };

    /// The bytes of the number, the lowest first.
    fn to_le_bytes(self) -> Self::Bytes
        ensures bytes { Self.Bytes.items result ≡ written little self }
        ensures fits { fits self };

    /// The bytes of the number, the highest first.
    fn to_be_bytes(self) -> Self::Bytes
        ensures bytes { Self.Bytes.items result ≡ written big self }
        ensures fits { fits self };

    /// The number of `WIDTH` bytes, the lowest first.
    fn from_le_bytes(bytes: &[u8]) -> Self
        requires { length bytes.now ≡ WIDTH }
        ensures { result ≡ read little bytes.now };

    /// The number of `WIDTH` bytes, the highest first.
    fn from_be_bytes(bytes: &[u8]) -> Self
        requires { length bytes.now ≡ WIDTH }
        ensures { result ≡ read big bytes.now };

    /// The layout's numbers are of the width, which is not 0.
    ghost sized: { primitive_size PRIMITIVE ≡ WIDTH };

    ghost above: { 0 < WIDTH };

    /// Each order reads back what it wrote.
    ghost reads_back: { (order : Order) (x : Self) → fits x → read order (written order x) ≡ x };

    /// Each order writes `WIDTH` bytes.
    ghost writes_width: { (order : Order) (x : Self) → length (written order x) ≡ WIDTH };

    /// Each order writes the bytes again that it read.
    ghost writes_back: { (order : Order) (bytes : List ℕ) → length bytes ≡ WIDTH → ((i : ℕ) → get_or bytes i 0 < 2 ^ 8) → written order (read order bytes) ≡ bytes };

    /// The number at a place is the one that is read from the bytes there.
    ghost agrees: { (bytes : List ℕ) (at : ℕ) (order : Order) → at + WIDTH ≤ length bytes → at_place bytes at order ≡ Some (read order (take WIDTH (drop at bytes))) };
}

impl NativeType for i8 {
    ghost use Rattle.std.specs.Int.{w8};
    ghost use Rattle.arrow_spec.specs.Cells.{number};
    ghost use Rattle.arrow_types.specs.Numbers.{signed_to_bytes, signed_from_bytes, signed_num};
    ghost use Rattle.arrow_types.specs.NumberLaws.{above, signed_back, signed_width, signed_agrees};
    ghost use Rattle.arrow_types.specs.BytesBack.{signed_same};
    ghost use Rattle.std.proofs.Common.{refl};
    ghost use Rattle.arrow_types.specs.declared.physical.PrimitiveType.TheVariants.{Int8};
    ghost use Rattle.std.specs.Int.RustNames.{FitsSigned};

    ghost WIDTH = { 1 };

    const WIDTH: usize = 1;

    ghost PRIMITIVE = { Int8 };

    const PRIMITIVE: PrimitiveType = PrimitiveType::Int8;

    type Bytes = [u8; 1];

    ghost written = { signed_to_bytes w8 };

    ghost read = { signed_from_bytes w8 };

    ghost at_place = { signed_num w8 };

    ghost fits = { FitsSigned w8 };

    ghost cell = { number };

    ghost sized = { refl };

    ghost above = { above 0 };

    ghost reads_back = { signed_back w8 };

    ghost writes_width = { signed_width w8 };

    ghost writes_back = { signed_same w8 };

    ghost agrees = { signed_agrees w8 };

    fn to_le_bytes(self) -> [u8; 1] {
        i8::to_le_bytes(self)
    }

    fn to_be_bytes(self) -> [u8; 1] {
        i8::to_be_bytes(self)
    }

    fn from_le_bytes(bytes: &[u8]) -> i8 {
        i8::from_le_bytes(array_of(bytes))
    }

    fn from_be_bytes(bytes: &[u8]) -> i8 {
        i8::from_be_bytes(array_of(bytes))
    }
}

impl NativeType for i16 {
    ghost use Rattle.std.specs.Int.{w16};
    ghost use Rattle.arrow_spec.specs.Cells.{number};
    ghost use Rattle.arrow_types.specs.Numbers.{signed_to_bytes, signed_from_bytes, signed_num};
    ghost use Rattle.arrow_types.specs.NumberLaws.{above, signed_back, signed_width, signed_agrees};
    ghost use Rattle.arrow_types.specs.BytesBack.{signed_same};
    ghost use Rattle.std.proofs.Common.{refl};
    ghost use Rattle.arrow_types.specs.declared.physical.PrimitiveType.TheVariants.{Int16};
    ghost use Rattle.std.specs.Int.RustNames.{FitsSigned};

    ghost WIDTH = { 2 };

    const WIDTH: usize = 2;

    ghost PRIMITIVE = { Int16 };

    const PRIMITIVE: PrimitiveType = PrimitiveType::Int16;

    type Bytes = [u8; 2];

    ghost written = { signed_to_bytes w16 };

    ghost read = { signed_from_bytes w16 };

    ghost at_place = { signed_num w16 };

    ghost fits = { FitsSigned w16 };

    ghost cell = { number };

    ghost sized = { refl };

    ghost above = { above 1 };

    ghost reads_back = { signed_back w16 };

    ghost writes_width = { signed_width w16 };

    ghost writes_back = { signed_same w16 };

    ghost agrees = { signed_agrees w16 };

    fn to_le_bytes(self) -> [u8; 2] {
        i16::to_le_bytes(self)
    }

    fn to_be_bytes(self) -> [u8; 2] {
        i16::to_be_bytes(self)
    }

    fn from_le_bytes(bytes: &[u8]) -> i16 {
        i16::from_le_bytes(array_of(bytes))
    }

    fn from_be_bytes(bytes: &[u8]) -> i16 {
        i16::from_be_bytes(array_of(bytes))
    }
}

impl NativeType for i32 {
    ghost use Rattle.std.specs.Int.{w32};
    ghost use Rattle.arrow_spec.specs.Cells.{number};
    ghost use Rattle.arrow_types.specs.Numbers.{signed_to_bytes, signed_from_bytes, signed_num};
    ghost use Rattle.arrow_types.specs.NumberLaws.{above, signed_back, signed_width, signed_agrees};
    ghost use Rattle.arrow_types.specs.BytesBack.{signed_same};
    ghost use Rattle.std.proofs.Common.{refl};
    ghost use Rattle.arrow_types.specs.declared.physical.PrimitiveType.TheVariants.{Int32};
    ghost use Rattle.std.specs.Int.RustNames.{FitsSigned};

    ghost WIDTH = { 4 };

    const WIDTH: usize = 4;

    ghost PRIMITIVE = { Int32 };

    const PRIMITIVE: PrimitiveType = PrimitiveType::Int32;

    type Bytes = [u8; 4];

    ghost written = { signed_to_bytes w32 };

    ghost read = { signed_from_bytes w32 };

    ghost at_place = { signed_num w32 };

    ghost fits = { FitsSigned w32 };

    ghost cell = { number };

    ghost sized = { refl };

    ghost above = { above 3 };

    ghost reads_back = { signed_back w32 };

    ghost writes_width = { signed_width w32 };

    ghost writes_back = { signed_same w32 };

    ghost agrees = { signed_agrees w32 };

    fn to_le_bytes(self) -> [u8; 4] {
        i32::to_le_bytes(self)
    }

    fn to_be_bytes(self) -> [u8; 4] {
        i32::to_be_bytes(self)
    }

    fn from_le_bytes(bytes: &[u8]) -> i32 {
        i32::from_le_bytes(array_of(bytes))
    }

    fn from_be_bytes(bytes: &[u8]) -> i32 {
        i32::from_be_bytes(array_of(bytes))
    }
}

impl NativeType for i64 {
    ghost use Rattle.std.specs.Int.{w64};
    ghost use Rattle.arrow_spec.specs.Cells.{number};
    ghost use Rattle.arrow_types.specs.Numbers.{signed_to_bytes, signed_from_bytes, signed_num};
    ghost use Rattle.arrow_types.specs.NumberLaws.{above, signed_back, signed_width, signed_agrees};
    ghost use Rattle.arrow_types.specs.BytesBack.{signed_same};
    ghost use Rattle.std.proofs.Common.{refl};
    ghost use Rattle.arrow_types.specs.declared.physical.PrimitiveType.TheVariants.{Int64};
    ghost use Rattle.std.specs.Int.RustNames.{FitsSigned};

    ghost WIDTH = { 8 };

    const WIDTH: usize = 8;

    ghost PRIMITIVE = { Int64 };

    const PRIMITIVE: PrimitiveType = PrimitiveType::Int64;

    type Bytes = [u8; 8];

    ghost written = { signed_to_bytes w64 };

    ghost read = { signed_from_bytes w64 };

    ghost at_place = { signed_num w64 };

    ghost fits = { FitsSigned w64 };

    ghost cell = { number };

    ghost sized = { refl };

    ghost above = { above 7 };

    ghost reads_back = { signed_back w64 };

    ghost writes_width = { signed_width w64 };

    ghost writes_back = { signed_same w64 };

    ghost agrees = { signed_agrees w64 };

    fn to_le_bytes(self) -> [u8; 8] {
        i64::to_le_bytes(self)
    }

    fn to_be_bytes(self) -> [u8; 8] {
        i64::to_be_bytes(self)
    }

    fn from_le_bytes(bytes: &[u8]) -> i64 {
        i64::from_le_bytes(array_of(bytes))
    }

    fn from_be_bytes(bytes: &[u8]) -> i64 {
        i64::from_be_bytes(array_of(bytes))
    }
}

impl NativeType for i128 {
    ghost use Rattle.std.specs.Int.{w128};
    ghost use Rattle.arrow_spec.specs.Cells.{number};
    ghost use Rattle.arrow_types.specs.Numbers.{signed_to_bytes, signed_from_bytes, signed_num};
    ghost use Rattle.arrow_types.specs.NumberLaws.{above, signed_back, signed_width, signed_agrees};
    ghost use Rattle.arrow_types.specs.BytesBack.{signed_same};
    ghost use Rattle.std.proofs.Common.{refl};
    ghost use Rattle.arrow_types.specs.declared.physical.PrimitiveType.TheVariants.{Int128};
    ghost use Rattle.std.specs.Int.RustNames.{FitsSigned};

    ghost WIDTH = { 16 };

    const WIDTH: usize = 16;

    ghost PRIMITIVE = { Int128 };

    const PRIMITIVE: PrimitiveType = PrimitiveType::Int128;

    type Bytes = [u8; 16];

    ghost written = { signed_to_bytes w128 };

    ghost read = { signed_from_bytes w128 };

    ghost at_place = { signed_num w128 };

    ghost fits = { FitsSigned w128 };

    ghost cell = { number };

    ghost sized = { refl };

    ghost above = { above 15 };

    ghost reads_back = { signed_back w128 };

    ghost writes_width = { signed_width w128 };

    ghost writes_back = { signed_same w128 };

    ghost agrees = { signed_agrees w128 };

    fn to_le_bytes(self) -> [u8; 16] {
        i128::to_le_bytes(self)
    }

    fn to_be_bytes(self) -> [u8; 16] {
        i128::to_be_bytes(self)
    }

    fn from_le_bytes(bytes: &[u8]) -> i128 {
        i128::from_le_bytes(array_of(bytes))
    }

    fn from_be_bytes(bytes: &[u8]) -> i128 {
        i128::from_be_bytes(array_of(bytes))
    }
}

impl NativeType for u8 {
    ghost use Rattle.std.specs.Int.{w8};
    ghost use Rattle.arrow_spec.specs.Cells.{number};
    ghost use Rattle.arrow_types.specs.Numbers.{unsigned_to_bytes, unsigned_from_bytes, unsigned_num};
    ghost use Rattle.arrow_types.specs.NumberLaws.{above, unsigned_back, unsigned_width, unsigned_agrees};
    ghost use Rattle.arrow_types.specs.BytesBack.{unsigned_same};
    ghost use Rattle.std.proofs.Common.{refl};
    ghost use Rattle.arrow_types.specs.declared.physical.PrimitiveType.TheVariants.{UInt8};
    ghost use Rattle.std.specs.Prelude.{◌<◌, ◌^◌, pos};

    ghost WIDTH = { 1 };

    const WIDTH: usize = 1;

    ghost PRIMITIVE = { UInt8 };

    const PRIMITIVE: PrimitiveType = PrimitiveType::UInt8;

    type Bytes = [u8; 1];

    ghost written = { unsigned_to_bytes w8 };

    ghost read = { unsigned_from_bytes w8 };

    ghost at_place = { unsigned_num w8 };

    ghost fits = { λ x. x < 2 ^ 8 };

    ghost cell = { λ x. number (pos x) };

    ghost sized = { refl };

    ghost above = { above 0 };

    ghost reads_back = { unsigned_back w8 };

    ghost writes_width = { unsigned_width w8 };

    ghost writes_back = { unsigned_same w8 };

    ghost agrees = { unsigned_agrees w8 };

    fn to_le_bytes(self) -> [u8; 1] {
        u8::to_le_bytes(self)
    }

    fn to_be_bytes(self) -> [u8; 1] {
        u8::to_be_bytes(self)
    }

    fn from_le_bytes(bytes: &[u8]) -> u8 {
        u8::from_le_bytes(array_of(bytes))
    }

    fn from_be_bytes(bytes: &[u8]) -> u8 {
        u8::from_be_bytes(array_of(bytes))
    }
}

impl NativeType for u16 {
    ghost use Rattle.std.specs.Int.{w16};
    ghost use Rattle.arrow_spec.specs.Cells.{number};
    ghost use Rattle.arrow_types.specs.Numbers.{unsigned_to_bytes, unsigned_from_bytes, unsigned_num};
    ghost use Rattle.arrow_types.specs.NumberLaws.{above, unsigned_back, unsigned_width, unsigned_agrees};
    ghost use Rattle.arrow_types.specs.BytesBack.{unsigned_same};
    ghost use Rattle.std.proofs.Common.{refl};
    ghost use Rattle.arrow_types.specs.declared.physical.PrimitiveType.TheVariants.{UInt16};
    ghost use Rattle.std.specs.Prelude.{◌<◌, ◌^◌, pos};

    ghost WIDTH = { 2 };

    const WIDTH: usize = 2;

    ghost PRIMITIVE = { UInt16 };

    const PRIMITIVE: PrimitiveType = PrimitiveType::UInt16;

    type Bytes = [u8; 2];

    ghost written = { unsigned_to_bytes w16 };

    ghost read = { unsigned_from_bytes w16 };

    ghost at_place = { unsigned_num w16 };

    ghost fits = { λ x. x < 2 ^ 16 };

    ghost cell = { λ x. number (pos x) };

    ghost sized = { refl };

    ghost above = { above 1 };

    ghost reads_back = { unsigned_back w16 };

    ghost writes_width = { unsigned_width w16 };

    ghost writes_back = { unsigned_same w16 };

    ghost agrees = { unsigned_agrees w16 };

    fn to_le_bytes(self) -> [u8; 2] {
        u16::to_le_bytes(self)
    }

    fn to_be_bytes(self) -> [u8; 2] {
        u16::to_be_bytes(self)
    }

    fn from_le_bytes(bytes: &[u8]) -> u16 {
        u16::from_le_bytes(array_of(bytes))
    }

    fn from_be_bytes(bytes: &[u8]) -> u16 {
        u16::from_be_bytes(array_of(bytes))
    }
}

impl NativeType for u32 {
    ghost use Rattle.std.specs.Int.{w32};
    ghost use Rattle.arrow_spec.specs.Cells.{number};
    ghost use Rattle.arrow_types.specs.Numbers.{unsigned_to_bytes, unsigned_from_bytes, unsigned_num};
    ghost use Rattle.arrow_types.specs.NumberLaws.{above, unsigned_back, unsigned_width, unsigned_agrees};
    ghost use Rattle.arrow_types.specs.BytesBack.{unsigned_same};
    ghost use Rattle.std.proofs.Common.{refl};
    ghost use Rattle.arrow_types.specs.declared.physical.PrimitiveType.TheVariants.{UInt32};
    ghost use Rattle.std.specs.Prelude.{◌<◌, ◌^◌, pos};

    ghost WIDTH = { 4 };

    const WIDTH: usize = 4;

    ghost PRIMITIVE = { UInt32 };

    const PRIMITIVE: PrimitiveType = PrimitiveType::UInt32;

    type Bytes = [u8; 4];

    ghost written = { unsigned_to_bytes w32 };

    ghost read = { unsigned_from_bytes w32 };

    ghost at_place = { unsigned_num w32 };

    ghost fits = { λ x. x < 2 ^ 32 };

    ghost cell = { λ x. number (pos x) };

    ghost sized = { refl };

    ghost above = { above 3 };

    ghost reads_back = { unsigned_back w32 };

    ghost writes_width = { unsigned_width w32 };

    ghost writes_back = { unsigned_same w32 };

    ghost agrees = { unsigned_agrees w32 };

    fn to_le_bytes(self) -> [u8; 4] {
        u32::to_le_bytes(self)
    }

    fn to_be_bytes(self) -> [u8; 4] {
        u32::to_be_bytes(self)
    }

    fn from_le_bytes(bytes: &[u8]) -> u32 {
        u32::from_le_bytes(array_of(bytes))
    }

    fn from_be_bytes(bytes: &[u8]) -> u32 {
        u32::from_be_bytes(array_of(bytes))
    }
}

impl NativeType for u64 {
    ghost use Rattle.std.specs.Int.{w64};
    ghost use Rattle.arrow_spec.specs.Cells.{number};
    ghost use Rattle.arrow_types.specs.Numbers.{unsigned_to_bytes, unsigned_from_bytes, unsigned_num};
    ghost use Rattle.arrow_types.specs.NumberLaws.{above, unsigned_back, unsigned_width, unsigned_agrees};
    ghost use Rattle.arrow_types.specs.BytesBack.{unsigned_same};
    ghost use Rattle.std.proofs.Common.{refl};
    ghost use Rattle.arrow_types.specs.declared.physical.PrimitiveType.TheVariants.{UInt64};
    ghost use Rattle.std.specs.Prelude.{◌<◌, ◌^◌, pos};

    ghost WIDTH = { 8 };

    const WIDTH: usize = 8;

    ghost PRIMITIVE = { UInt64 };

    const PRIMITIVE: PrimitiveType = PrimitiveType::UInt64;

    type Bytes = [u8; 8];

    ghost written = { unsigned_to_bytes w64 };

    ghost read = { unsigned_from_bytes w64 };

    ghost at_place = { unsigned_num w64 };

    ghost fits = { λ x. x < 2 ^ 64 };

    ghost cell = { λ x. number (pos x) };

    ghost sized = { refl };

    ghost above = { above 7 };

    ghost reads_back = { unsigned_back w64 };

    ghost writes_width = { unsigned_width w64 };

    ghost writes_back = { unsigned_same w64 };

    ghost agrees = { unsigned_agrees w64 };

    fn to_le_bytes(self) -> [u8; 8] {
        u64::to_le_bytes(self)
    }

    fn to_be_bytes(self) -> [u8; 8] {
        u64::to_be_bytes(self)
    }

    fn from_le_bytes(bytes: &[u8]) -> u64 {
        u64::from_le_bytes(array_of(bytes))
    }

    fn from_be_bytes(bytes: &[u8]) -> u64 {
        u64::from_be_bytes(array_of(bytes))
    }
}
