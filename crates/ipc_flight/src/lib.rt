//! Arrow files as the messages of a flight, and what a consumer of them reads (Arrow Columnar Format, "IPC File Format", "IPC Streaming Format").
#![tactic(auto)]

mod body;
mod consumer;
mod hand;
mod head;
mod laws;
mod producer;
mod stream_consumer;

pub use consumer::FlightConsumer;
pub use ipc_files::{FileMetadata, Source};
pub use ipc_streams::StreamMetadata;
pub use ipc_write::EncodedData;
pub use laws::{consumed_flight_is_the_file, flight_means_the_file};
pub use producer::FlightStreamProducer;
pub use stream_consumer::FlightstreamConsumer;
