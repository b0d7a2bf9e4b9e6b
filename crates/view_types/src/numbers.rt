//! Numbers in bytes that are lent.
ghost use Rattle.std.specs.Prelude.{◌≡◌, ◌+◌, ◌*◌, ◌≤◌, ◌<◌, length, pos, take, drop};
ghost use Rattle.std.specs.Int.{w8, w16, w32, w64, w128, byte_len};
ghost use Rattle.arrow_spec.specs.Arrays.{bit, integer_width, offset_width};
ghost use Rattle.arrow_spec.specs.Counts.{is_negative, magnitude};
ghost use Rattle.view_types.specs.Views.{order_of, unsigned_at, signed_at, integer_of, offset_bytes, offsets_by};

use arrow_spec::IntegerType;

/// So many bytes from a place on.
fn bytes_from(bytes: &[u8], at: usize, count: usize) -> &[u8]
    requires { at + count ≤ length bytes.now }
    ensures part { result.now ≡ take count (drop at bytes.now) }
    ensures size { length result.now ≡ count }
{
    &bytes[at..at + count]
}

/// The bytes as an array of that many.
fn array_of<const N: usize>(bytes: &[u8]) -> [u8; N]
    requires { length bytes.now ≡ N }
    ensures { result ≡ bytes.now }
{
    <[u8; N]>::try_from(bytes).unwrap()
}

/// The number of 8 bits at a place.
fn u8_at(bytes: &[u8], at: usize, is_big_endian: bool) -> u8
    requires { at + 1 ≤ length bytes.now }
    ensures { result ≡ unsigned_at bytes.now at w8 (order_of is_big_endian) }
{
    let number = array_of(bytes_from(bytes, at, 1));
    if is_big_endian {
        u8::from_be_bytes(number)
    } else {
        u8::from_le_bytes(number)
    }
}

/// The number of 16 bits at a place.
fn u16_at(bytes: &[u8], at: usize, is_big_endian: bool) -> u16
    requires { at + 2 ≤ length bytes.now }
    ensures { result ≡ unsigned_at bytes.now at w16 (order_of is_big_endian) }
{
    let number = array_of(bytes_from(bytes, at, 2));
    if is_big_endian {
        u16::from_be_bytes(number)
    } else {
        u16::from_le_bytes(number)
    }
}

/// The number of 32 bits at a place.
pub fn u32_at(bytes: &[u8], at: usize, is_big_endian: bool) -> u32
    requires { at + 4 ≤ length bytes.now }
    ensures { result ≡ unsigned_at bytes.now at w32 (order_of is_big_endian) }
{
    let number = array_of(bytes_from(bytes, at, 4));
    if is_big_endian {
        u32::from_be_bytes(number)
    } else {
        u32::from_le_bytes(number)
    }
}

/// The number of 64 bits at a place.
fn u64_at(bytes: &[u8], at: usize, is_big_endian: bool) -> u64
    requires { at + 8 ≤ length bytes.now }
    ensures { result ≡ unsigned_at bytes.now at w64 (order_of is_big_endian) }
{
    let number = array_of(bytes_from(bytes, at, 8));
    if is_big_endian {
        u64::from_be_bytes(number)
    } else {
        u64::from_le_bytes(number)
    }
}

/// The signed number of 8 bits at a place.
pub fn i8_at(bytes: &[u8], at: usize, is_big_endian: bool) -> i8
    requires { at + 1 ≤ length bytes.now }
    ensures { result ≡ signed_at bytes.now at w8 (order_of is_big_endian) }
{
    u8_at(bytes, at, is_big_endian).cast_signed()
}

/// The signed number of 32 bits at a place.
pub fn i32_at(bytes: &[u8], at: usize, is_big_endian: bool) -> i32
    requires { at + 4 ≤ length bytes.now }
    ensures { result ≡ signed_at bytes.now at w32 (order_of is_big_endian) }
{
    u32_at(bytes, at, is_big_endian).cast_signed()
}

/// The signed number of 64 bits at a place.
pub(crate) fn i64_at(bytes: &[u8], at: usize, is_big_endian: bool) -> i64
    requires { at + 8 ≤ length bytes.now }
    ensures { result ≡ signed_at bytes.now at w64 (order_of is_big_endian) }
{
    u64_at(bytes, at, is_big_endian).cast_signed()
}

/// The number of 128 bits at a place.
fn u128_at(bytes: &[u8], at: usize, is_big_endian: bool) -> u128
    requires { at + 16 ≤ length bytes.now }
    ensures { result ≡ unsigned_at bytes.now at w128 (order_of is_big_endian) }
{
    let number = array_of(bytes_from(bytes, at, 16));
    if is_big_endian {
        u128::from_be_bytes(number)
    } else {
        u128::from_le_bytes(number)
    }
}

/// The number of a row.
pub fn integer_at(bytes: &[u8], integer: IntegerType, row: usize, is_big_endian: bool) -> i128
    requires { byte_len (integer_width integer) * (row + 1) ≤ length bytes.now }
    ensures { result ≡ integer_of bytes.now (order_of is_big_endian) integer row }
{
    match integer {
        IntegerType::Int8 => i128::from(u8_at(bytes, row, is_big_endian).cast_signed()),
        IntegerType::Int16 => i128::from(u16_at(bytes, 2 * row, is_big_endian).cast_signed()),
        IntegerType::Int32 => i128::from(u32_at(bytes, 4 * row, is_big_endian).cast_signed()),
        IntegerType::Int64 => i128::from(u64_at(bytes, 8 * row, is_big_endian).cast_signed()),
        IntegerType::Int128 => u128_at(bytes, 16 * row, is_big_endian).cast_signed(),
        IntegerType::UInt8 => i128::from(u8_at(bytes, row, is_big_endian)),
        IntegerType::UInt16 => i128::from(u16_at(bytes, 2 * row, is_big_endian)),
        IntegerType::UInt32 => i128::from(u32_at(bytes, 4 * row, is_big_endian)),
        IntegerType::UInt64 => i128::from(u64_at(bytes, 8 * row, is_big_endian)),
    }
}

/// How many bytes an integer has.
pub fn width_of(integer: IntegerType) -> usize
    ensures { result ≡ byte_len (integer_width integer) }
{
    match integer {
        IntegerType::Int8 | IntegerType::UInt8 => 1,
        IntegerType::Int16 | IntegerType::UInt16 => 2,
        IntegerType::Int32 | IntegerType::UInt32 => 4,
        IntegerType::Int64 | IntegerType::UInt64 => 8,
        IntegerType::Int128 => 16,
    }
}

/// The place that the j-th offset is.
pub fn offset_at(bytes: &[u8], j: usize, is_large: bool, is_big_endian: bool) -> usize
    requires { offset_bytes is_large * (j + 1) ≤ length bytes.now }
    ensures { result ≡ magnitude (signed_at bytes.now (offset_bytes is_large * j) (offset_width (offsets_by is_large)) (order_of is_big_endian)) }
{
    if is_large {
        let offset = u64_at(bytes, 8 * j, is_big_endian).cast_signed();
        if offset < 0 { 0 } else { offset as usize }
    } else {
        let offset = u32_at(bytes, 4 * j, is_big_endian).cast_signed();
        if offset < 0 { 0 } else { offset as usize }
    }
}

/// Whether the j-th offset is negative.
pub fn is_offset_negative(bytes: &[u8], j: usize, is_large: bool, is_big_endian: bool) -> bool
    requires { offset_bytes is_large * (j + 1) ≤ length bytes.now }
    ensures { result ≡ is_negative (signed_at bytes.now (offset_bytes is_large * j) (offset_width (offsets_by is_large)) (order_of is_big_endian)) }
{
    if is_large {
        u64_at(bytes, 8 * j, is_big_endian).cast_signed() < 0
    } else {
        u32_at(bytes, 4 * j, is_big_endian).cast_signed() < 0
    }
}

/// Whether the bit of a row is 1.
pub fn is_bit_set(bytes: &[u8], row: usize) -> bool
    requires { row < 8 * length bytes.now }
    ensures { result ≡ bit bytes.now row }
{
    (bytes[row / 8] >> (row % 8)) & 1 == 1
}
