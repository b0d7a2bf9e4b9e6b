//! A message that is planned before a byte of it is put.
ghost use Rattle.std.specs.Prelude.{◌<◌, length};

use ipc_write::BodyBuffer;

/// A message that is to be put.
#[derive(Drop)]
pub struct PlannedMessage {
    /// The mark, the length of the padded metadata, and that metadata.
    pub front: Vec<u8>,
    /// The buffers of the body.
    pub buffers: Vec<BodyBuffer>,
    /// How many bytes the body has, with the zeros behind each buffer.
    pub body_length: usize,
    ghost begins: { 0 < length front.items },
}
