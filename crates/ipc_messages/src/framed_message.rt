//! A message with its front, whose body stays where it is.
ghost use Rattle.std.specs.Prelude.{◌<◌, length};

/// A message that is to be put.
#[derive(Drop)]
pub struct FramedMessage<'a> {
    /// The mark, the length of the padded metadata, and that metadata.
    pub front: Vec<u8>,
    /// The body, without padding at its end.
    pub body: &'a [u8],
    ghost begins: { 0 < length front.items },
}
