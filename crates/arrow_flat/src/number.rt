//! Numbers at a place of the bytes, the lowest byte first.
ghost use Rattle.std.specs.Prelude.{◌≡◌, ◌+◌, ◌≤◌, length, OnOk, IfSome};
ghost use Rattle.std.specs.Option.{option_copied};
ghost use Rattle.std.specs.Int.{w8, w16, w32, w64};
ghost use Rattle.arrow_spec.specs.Flat.{part, unsigned_at};

use arrow_spec::FlatError;

/// So many bytes from a place on.
pub fn part(bytes: &[u8], at: usize, count: usize) -> Option<&[u8]>
    ensures value { option_copied result ≡ part bytes.now at count }
    ensures within { IfSome result (λ s. (at + count ≤ length bytes.now) × (length s.now ≡ count)) }
{
    if at > bytes.len() || bytes.len() - at < count {
        return None;
    }
    let (found, _) = bytes[at..].split_at(count);
    Some(found)
}

/// The number of 8 bits at a place; `Range` where it passes the end.
pub fn u8_at(bytes: &[u8], at: usize) -> Result<u8, FlatError>
    ensures value { result ≡ unsigned_at w8 bytes.now at }
    ensures within { OnOk result (at + 1 ≤ length bytes.now) }
{
    match part(bytes, at, 1) {
        None => Err(FlatError::Range),
        Some(x) => Ok(x[0]),
    }
}

/// The number of 16 bits at a place; `Range` where it passes the end.
pub fn u16_at(bytes: &[u8], at: usize) -> Result<u16, FlatError>
    ensures value { result ≡ unsigned_at w16 bytes.now at }
    ensures within { OnOk result (at + 2 ≤ length bytes.now) }
{
    match part(bytes, at, 2) {
        None => Err(FlatError::Range),
        Some(x) => Ok(u16::from_le_bytes([x[0], x[1]])),
    }
}

/// The number of 32 bits at a place; `Range` where it passes the end.
pub fn u32_at(bytes: &[u8], at: usize) -> Result<u32, FlatError>
    ensures value { result ≡ unsigned_at w32 bytes.now at }
    ensures within { OnOk result (at + 4 ≤ length bytes.now) }
{
    match part(bytes, at, 4) {
        None => Err(FlatError::Range),
        Some(x) => Ok(u32::from_le_bytes([x[0], x[1], x[2], x[3]])),
    }
}

/// The number of 64 bits at a place; `Range` where it passes the end.
pub fn u64_at(bytes: &[u8], at: usize) -> Result<u64, FlatError>
    ensures value { result ≡ unsigned_at w64 bytes.now at }
    ensures within { OnOk result (at + 8 ≤ length bytes.now) }
{
    match part(bytes, at, 8) {
        None => Err(FlatError::Range),
        Some(x) => Ok(u64::from_le_bytes([x[0], x[1], x[2], x[3], x[4], x[5], x[6], x[7]])),
    }
}
