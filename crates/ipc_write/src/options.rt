//! How record batches are written.

/// How the buffers of a body are compressed (Message.fbs, CompressionType). No body is written so.
#[derive(Clone, Copy, Debug, PartialEq, Eq)]
pub enum Compression {
    /// LZ4 frames.
    LZ4,
    /// Zstandard frames.
    ZSTD,
}

/// How record batches are written.
#[derive(Clone, Copy, Debug, PartialEq, Eq)]
pub struct WriteOptions {
    /// How buffers are compressed.
    pub compression: Option<Compression>,
    /// The most bytes of a message's padded metadata; what is above 2^31 - 1 counts as that.
    pub metadata_limit: usize,
    /// Whether dictionaries that go on with what was sent are sent as deltas, and dictionaries of several parts as a first part and deltas.
    pub deltas: bool,
}

impl Default for WriteOptions {
    ghost use Rattle.std.specs.Prelude.{◌≡◌, false, None};

    ghost is_default = { λ o. (o.compression ≡ None) × (o.metadata_limit ≡ 2147483647) × (o.deltas ≡ false) };

    /// No compression, as much metadata as a message may have, and no deltas.
    fn default() -> WriteOptions {
        WriteOptions {
            compression: None,
            metadata_limit: 0x7fff_ffff,
            deltas: false,
        }
    }
}
