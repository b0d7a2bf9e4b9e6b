//! Record batches as they are written: batches to messages, messages to a sink (Arrow Columnar Format, "Serialization and Interprocess Communication (IPC)").
#![tactic(auto)]

mod body;
mod columns;
mod compaction;
mod dictionary;
mod encode;
mod encoded;
mod frame;
mod metadata;
mod options;
mod planned;
mod record;
mod representable;
mod values;

pub use dictionary::write_dictionary;
pub use encode::{encode_any_batch, encode_record_batch, plan_any_batch, plan_batch};
pub use encoded::{BodyPlan, EncodedData};
pub use frame::{
    message_to_bytes, pad_to_64, write_continuation, write_message, write_plan, write_plan_as,
};
pub use ipc_bodies::{BodyBuffer, Encoding, put_body, put_body_as, put_bytes_as};
pub use ipc_io::{PutError, Sink};
pub use ipc_schema::{IpcSchema, default_ipc_fields, schema_message, serialize_schema};
pub use ipc_write_arrays::write;
pub use options::{Compression, WriteOptions};
pub use record::Record;
pub use values::{encode_any_values, encode_values, plan_any_values, plan_values};
