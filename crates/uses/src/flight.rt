//! A file whose messages go through a flight, as one service hands them over and another reads them.
use arrow_ipc::io::MemorySource;
use arrow_ipc::io::ipc::IpcError;
use arrow_ipc::io::ipc::read::{FlightConsumer, FlightStreamProducer};
use arrow_ipc::io::ipc::write::EncodedData;
use std::alloc::Global;

/// The rows of the record batches of a file, read of its messages.
pub(crate) fn rows_handed(alloc: Global, source: &mut MemorySource) -> Result<usize, IpcError> {
    let mut producer = FlightStreamProducer::new(alloc, source)?;
    let mut consumer = FlightConsumer::new(alloc, producer.get_schema()?)?;
    for _ in 0..producer.metadata().dictionaries.len() {
        let mut message = EncodedData::new(alloc);
        let _ = producer.next_dict(&mut message)?;
        drop(consumer.consume(message)?);
    }
    let mut rows: usize = 0;
    for _ in 0..producer.metadata().blocks.len() {
        let mut message = EncodedData::new(alloc);
        let _ = producer.next_data(&mut message)?;
        if let Some(batch) = consumer.consume(message)? {
            rows = rows.saturating_add(batch.height());
            drop(batch);
        }
    }
    Ok(rows)
}
