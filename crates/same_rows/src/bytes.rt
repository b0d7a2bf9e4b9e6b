//! Bytes that are compared.
ghost use Rattle.std.specs.Prelude.{◌≡◌, ◌↔◌, ◌+◌, ◌*◌, ◌≤◌, IsTrue, length};
ghost use Rattle.arrow_buffers.specs.Rows.{part};

pub(crate) fn are_same_bytes(a: &[u8], b: &[u8]) -> bool
    ensures { IsTrue result ↔ (a.now ≡ b.now) }
{
    a == b
}

/// The bytes of so many items of one size from an item on.
pub(crate) fn bytes_of_items(bytes: &[u8], size: usize, from: usize, count: usize) -> &[u8]
    requires { size * from + size * count ≤ length bytes.now }
    ensures { result.now ≡ part (size * from) (size * count) bytes.now }
{
    let first = size * from;
    &bytes[first..first + size * count]
}
