//! A message before it is framed.
ghost use Rattle.std.specs.Prelude.{◌≡◌, []};

use ipc_bodies::BodyBuffer;
use std::alloc::Global;

/// The message of a record batch whose body is in pieces (Arrow Columnar Format, "RecordBatch message").
#[derive(Drop)]
pub struct BodyPlan {
    /// The flatbuffer of the message, without padding at its end.
    pub ipc_message: Vec<u8>,
    /// The buffers of the body: `put_body` puts them into a sink.
    pub buffers: Vec<BodyBuffer>,
    /// How many bytes the body has, with the zeros behind each buffer.
    pub body_length: usize,
}

/// A message: its metadata and its body, both without padding at their end (Arrow Columnar Format, "Encapsulated message format").
#[derive(Debug, Drop)]
pub struct EncodedData {
    /// The flatbuffer of the message.
    pub ipc_message: Vec<u8>,
    /// The body.
    pub arrow_data: Vec<u8>,
}

impl EncodedData {
    /// A message without a byte.
    pub fn new(alloc: Global) -> EncodedData
        ensures message { result.ipc_message.items ≡ [] }
        ensures body { result.arrow_data.items ≡ [] }
    {
        EncodedData {
            ipc_message: Vec::new(alloc),
            arrow_data: Vec::new(alloc),
        }
    }
}
