//! Bytes as arrays.
ghost use Rattle.std.specs.Prelude.{◌≡◌, length};

/// The bytes as an array of that many.
pub(crate) fn array_of<const N: usize>(bytes: &[u8]) -> [u8; N]
    requires { length bytes.now ≡ N }
    ensures { result ≡ bytes.now }
{
    <[u8; N]>::try_from(bytes).unwrap()
}
