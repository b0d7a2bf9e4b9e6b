//! Signed numbers at a place of the bytes, the lowest byte first.
ghost use Rattle.std.specs.Prelude.{◌≡◌, ◌+◌, ◌≤◌, length, OnOk};
ghost use Rattle.std.specs.Int.{w32, w64};
ghost use Rattle.arrow_spec.specs.Flat.{signed_at, unsigned_at};

use arrow_spec::FlatError;

/// The unsigned number in the four bytes at a place.
pub fn u32_at(bytes: &[u8], at: usize) -> Result<u32, FlatError>
    ensures value { result ≡ unsigned_at w32 bytes.now at }
    ensures within { OnOk result (at + 4 ≤ length bytes.now) }
{
    if at > bytes.len() || bytes.len() - at < 4 {
        return Err(FlatError::Range);
    }
    let (x, _) = bytes[at..].split_at(4);
    Ok(u32::from_le_bytes([x[0], x[1], x[2], x[3]]))
}

/// The signed number in the four bytes at a place, in two's complement.
#[tactic(auto, unfolding(arrow_spec::specs::Readings::bind))]
pub fn i32_at(bytes: &[u8], at: usize) -> Result<i32, FlatError>
    ensures value { result ≡ signed_at w32 bytes.now at }
    ensures within { OnOk result (at + 4 ≤ length bytes.now) }
{
    Ok(u32_at(bytes, at)?.cast_signed())
}

/// The signed number in the eight bytes at a place, in two's complement.
#[tactic(auto, unfolding(arrow_spec::specs::Readings::bind))]
pub fn i64_at(bytes: &[u8], at: usize) -> Result<i64, FlatError>
    ensures value { result ≡ signed_at w64 bytes.now at }
    ensures within { OnOk result (at + 8 ≤ length bytes.now) }
{
    if at > bytes.len() || bytes.len() - at < 8 {
        return Err(FlatError::Range);
    }
    let (x, _) = bytes[at..].split_at(8);
    Ok(u64::from_le_bytes([x[0], x[1], x[2], x[3], x[4], x[5], x[6], x[7]]).cast_signed())
}
