//! Offsets into values (Arrow Columnar Format, "Variable-size Binary Layout").
ghost use Rattle.std.specs.Prelude.{◌≡◌, ◌+◌, ◌-◌, ◌≤◌, ◌<◌, length, map, take, drop, suc, true};
ghost use Rattle.arrow_buffers.specs.Variable.{place_at, are_offsets, row_bytes};

use crate::Buffer;
use arrow_types::Offset;

/// Whether there is an offset, and none is negative, below the one before it, or past the limit.
pub fn rise_within<O: Offset>(offsets: &Buffer<O>, limit: usize) -> bool
    ensures { result ≡ are_offsets (map O.number offsets.now) limit }
{
    if offsets.is_empty() {
        return false;
    }
    let mut low = 0;
    for i in 0..offsets.len() {
        let Some(at) = offsets.get(i).to_usize() else {
            return false;
        };
        if at < low || limit < at {
            return false;
        }
        low = at;
    }
    true
}

/// The place of an offset.
pub fn place_of<O: Offset>(offsets: &Buffer<O>, i: usize, limit: usize) -> usize
    requires rise { are_offsets (map O.number offsets.now) limit ≡ true }
    requires below { i < length offsets.now }
    ensures place { result ≡ place_at (map O.number offsets.now) i }
    ensures within { result ≤ limit }
    ensures after { place_at (map O.number offsets.now) 0 ≤ result }
    ensures before { result ≤ place_at (map O.number offsets.now) (length offsets.now - 1) }
{
    offsets.get(i).to_usize().unwrap()
}

/// The two places between which a row stands.
pub fn range_of<O: Offset>(offsets: &Buffer<O>, row: usize, limit: usize) -> (usize, usize)
    requires rise { are_offsets (map O.number offsets.now) limit ≡ true }
    requires below { row + 1 < length offsets.now }
    ensures from { result.0 ≡ place_at (map O.number offsets.now) row }
    ensures to { result.1 ≡ place_at (map O.number offsets.now) (suc row) }
    ensures ordered { result.0 ≤ result.1 }
    ensures within { result.1 ≤ limit }
{
    prove!(row < offsets.len());
    let from = place_of(offsets, row, limit);
    let to = place_of(offsets, row + 1, limit);
    (from, to)
}

/// The bytes of a row.
pub(crate) fn bytes_of<'a, O: Offset>(offsets: &Buffer<O>, values: &'a [u8], row: usize) -> &'a [u8]
    requires rise { are_offsets (map O.number offsets.now) (length values.now) ≡ true }
    requires below { row + 1 < length offsets.now }
    ensures { result.now ≡ row_bytes (map O.number offsets.now) values.now row }
{
    let (from, to) = range_of(offsets, row, values.len());
    &values[from..to]
}

/// So many bytes from a place on.
pub(crate) fn bytes_from(bytes: &[u8], from: usize, count: usize) -> &[u8]
    requires { from + count ≤ length bytes.now }
    ensures { result.now ≡ take count (drop from bytes.now) }
{
    &bytes[from..from + count]
}
