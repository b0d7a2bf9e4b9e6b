//! The messages that a flight hands over of a file, framed one behind another.
use arrow_spec::IpcError;
use ipc_flight::{EncodedData, FlightStreamProducer};
use ipc_io::MemorySource;
use ipc_schema::read_message_header;
use ipc_write::message_to_bytes;
use std::alloc::Global;

/// A file's messages as they come.
type Producer<'a> = FlightStreamProducer<'a, MemorySource>;

/// The mark without metadata behind it, with which a stream ends.
const END: &[u8] = &[255, 255, 255, 255, 0, 0, 0, 0];

/// How many zeros behind a body the metadata counts as the body's: those up to the next multiple of 8, or none.
fn counted_zeros(alloc: Global, message: &EncodedData) -> usize {
    let length = message.arrow_data.len();
    let padded = length.next_multiple_of(8);
    match read_message_header(alloc, &message.ipc_message) {
        Ok(header) if header.body_length >= padded as u64 => padded - length,
        _ => 0,
    }
}

/// Adds a message: its metadata in a frame, and its body as it was handed over, with the zeros that the metadata counts.
fn add(alloc: Global, message: &EncodedData, bytes: &mut Vec<u8>) -> Result<(), IpcError> {
    let frame = message_to_bytes(alloc, &message.ipc_message, &[])?;
    bytes.extend_from_slice(&frame)?;
    bytes.extend_from_slice(&message.arrow_data)?;
    for _ in 0..counted_zeros(alloc, message) {
        bytes.push(0)?;
    }
    Ok(())
}

/// Adds the messages of the dictionaries.
fn add_dictionaries(
    alloc: Global,
    producer: &mut Producer<'_>,
    bytes: &mut Vec<u8>,
) -> Result<(), IpcError> {
    let mut message = EncodedData::new(alloc);
    for _ in 0..u64::MAX {
        let handed = producer.next_dict(&mut message)?;
        if handed.is_none() {
            return Ok(());
        }
        add(alloc, &message, bytes)?;
    }
    Ok(())
}

/// Adds the messages of the record batches.
fn add_batches(
    alloc: Global,
    producer: &mut Producer<'_>,
    bytes: &mut Vec<u8>,
) -> Result<(), IpcError> {
    let mut message = EncodedData::new(alloc);
    for _ in 0..u64::MAX {
        let handed = producer.next_data(&mut message)?;
        if handed.is_none() {
            return Ok(());
        }
        add(alloc, &message, bytes)?;
    }
    Ok(())
}

/// The messages of a file's schema, of its dictionaries and of its record batches, and the end mark.
pub(crate) fn messages_of(alloc: Global, source: &mut MemorySource) -> Result<Vec<u8>, IpcError> {
    let mut producer = FlightStreamProducer::new(alloc, source)?;
    let mut bytes = Vec::new(alloc);
    add(alloc, &producer.get_schema()?, &mut bytes)?;
    add_dictionaries(alloc, &mut producer, &mut bytes)?;
    add_batches(alloc, &mut producer, &mut bytes)?;
    bytes.extend_from_slice(END)?;
    Ok(bytes)
}
