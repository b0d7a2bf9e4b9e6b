//! The messages of a flight, read one after another (Arrow Columnar Format, "IPC Streaming Format").
ghost use Rattle.std.specs.Prelude.{◌≡◌, ℤ, [], IfErr, IfOk, IfSome, None};
ghost use Rattle.std.specs.Rc.{rc_value};
ghost use Rattle.arrow_spec.specs.Arrays.{Dictionaries as History};
ghost use Rattle.arrow_spec.specs.Features.{chosen_floats};
ghost use Rattle.arrow_spec.specs.Files.{batch_of_tables, lengths_sum, to_read};
ghost use Rattle.arrow_spec.specs.Readings.{Gives};
ghost use Rattle.arrow_spec.specs.declared.error.IpcError.TheVariants.{Memory};
ghost use Rattle.ipc_fields.specs.Causes.{Decodes, IsOfBytes};
ghost use Rattle.ipc_files.specs.Below.{AddsDictionary, dictionary_message_of, header_of, held_in, table_of};
ghost use Rattle.ipc_read_laws.specs.Held.{HoldsCells, none_held};
ghost use Rattle.ipc_files.specs.Selections.{HasFields};
ghost use Rattle.ipc_streams.specs.Starts.{HoldsValues, IsReadable, start_view, stream_schema};
ghost use Rattle.ipc_flight.specs.Consumed.{SameHeld, TakesHanded, all_of, message_in, rows_in, values_in, values_of};
ghost use Rattle.ipc_flight.specs.Firsts.{first_in};
ghost use Rattle.ipc_flight.specs.Hands.{handed_of};

use crate::body::HeldBody;
use crate::hand::magnitude;
use crate::head::{is_dictionary, read_first};
use arrow_arrays::RecordBatch;
use arrow_spec::{IpcBuffer, IpcError};
use arrow_types::ArrowSchema;
use ipc_files::{
    Dictionaries, DictionaryMessage, RecordMessage, check_kinds, message_metadata,
    read_dictionary_batch, read_dictionary_message, read_record_batch, read_record_message,
};
use ipc_streams::StreamMetadata;
use ipc_write::EncodedData;
use std::alloc::Global;

/// Reads the messages of a flight: what its schema's message says, the dictionaries of the messages that were taken, and
/// memory that is used again.
pub struct FlightConsumer {
    metadata: StreamMetadata,
    dictionaries: Dictionaries,
    scratch: Vec<u8>,
    alloc: Global,
    ghost readable: { IsReadable metadata },
    ghost values: { ∥ HoldsValues (stream_schema metadata) (held_in dictionaries) ∥₁ },
}

impl Drop for FlightConsumer {
    fn drop(self) {
        let FlightConsumer {
            metadata,
            dictionaries,
            scratch,
            alloc: _,
        } = self;
        drop(metadata);
        drop(dictionaries);
        drop(scratch);
    }
}

/// The lengths of all buffers together.
fn lengths_sum(buffers: &[IpcBuffer]) -> u128
    ensures { result ≡ lengths_sum buffers.now }
{
    let mut sum: u128 = 0;
    for buffer in buffers {
        sum += magnitude(buffer.length) as u128;
    }
    sum
}

/// The same, where they are fewer than 2^64 bytes.
fn stated_length(buffers: &[IpcBuffer]) -> Result<u64, IpcError>
    ensures sum { IfOk result (λ n. n ≡ lengths_sum buffers.now) }
    ensures memory { IfErr result (λ e. e ≡ Memory) }
{
    let sum = lengths_sum(buffers);
    if sum > u64::MAX as u128 {
        return Err(IpcError::Memory);
    }
    Ok(sum as u64)
}

impl FlightConsumer {
    /// A consumer behind the first message, which is a schema's. The body is passed over.
    ///
    /// # Errors
    ///
    /// `OutOfSpec` with the kind of the part of the message or the schema that is not as the format says, `Unsupported`,
    /// `TooDeep`, `TooMany`, `Memory`.
    pub fn new(alloc: Global, first: EncodedData) -> Result<FlightConsumer, IpcError>
        ensures gives { Decodes (λ c. start_view c.metadata) result (first_in first.ipc_message.items) }
        ensures none { IfOk result (λ c. held_in c.dictionaries ≡ none_held) }
    {
        let metadata = read_first(alloc, &first.ipc_message)?;
        Ok(FlightConsumer {
            metadata,
            dictionaries: Dictionaries::new(alloc),
            scratch: Vec::new(alloc),
            alloc,
        })
    }

    /// The schema of the record batches.
    pub fn schema(&self) -> &ArrowSchema
        ensures { result.now ≡ rc_value self.now.metadata.schema }
    {
        &self.metadata.schema
    }

    /// What the schema's message says.
    pub fn metadata(&self) -> &StreamMetadata
        ensures { result.now ≡ self.now.metadata }
    {
        &self.metadata
    }

    /// The record batch of a message, without its pairs.
    fn read_rows(
        &mut self,
        message: &RecordMessage,
        body: HeldBody,
    ) -> Result<RecordBatch, IpcError>
        ensures gives { (d : History) → HoldsCells d (held_in self.old.dictionaries) → chosen_floats None (stream_schema self.old.metadata).fields 0 ≡ [] → Gives table_of result (batch_of_tables to_read (all_of (stream_schema self.old.metadata) d (lengths_sum (header_of message.now.header).buffers)) message.now.version [] (header_of message.now.header) body.bytes.items None) }
        ensures schema { IfOk result (λ x. HasFields x (rc_value self.old.metadata.schema)) }
        ensures metadata { self.new.metadata ≡ self.old.metadata }
        ensures dictionaries { self.new.dictionaries ≡ self.old.dictionaries }
        ensures cause { IfErr result IsOfBytes }
    {
        let most = stated_length(&message.header.buffers)?;
        let place = body.place();
        let mut source = body;
        read_record_batch(
            self.alloc,
            &message.header,
            &self.metadata.schema,
            &self.metadata.ipc_schema,
            None,
            None,
            &self.dictionaries,
            message.version,
            &mut source,
            place,
            most,
            &mut self.scratch,
        )
    }

    /// Takes a record batch message, by its metadata and its body.
    fn take_batch(&mut self, bytes: &[u8], body: HeldBody) -> Result<RecordBatch, IpcError>
        ensures gives { (d : History) → HoldsCells d (held_in self.old.dictionaries) → chosen_floats None (stream_schema self.old.metadata).fields 0 ≡ [] → Gives table_of result (rows_in (stream_schema self.old.metadata) d (message_in bytes.now body.bytes.items)) }
        ensures schema { IfOk result (λ x. HasFields x (rc_value self.old.metadata.schema)) }
        ensures metadata { self.new.metadata ≡ self.old.metadata }
        ensures dictionaries { self.new.dictionaries ≡ self.old.dictionaries }
        ensures cause { IfErr result IsOfBytes }
    {
        let message = read_record_message(self.alloc, bytes)?;
        let pairs = message_metadata(self.alloc, bytes)?;
        let batch = self.read_rows(&message, body)?;
        Ok(batch.with_optional_metadata(pairs))
    }

    /// Adds the values of a message to the dictionaries: behind those of its id where it is a delta, and else in their place.
    fn read_values(&mut self, message: &DictionaryMessage, body: HeldBody) -> Result<(), IpcError>
        ensures adds { (d : History) → HoldsCells d (held_in self.old.dictionaries) → AddsDictionary d (held_in self.new.dictionaries) result (values_of (stream_schema self.old.metadata) d (dictionary_message_of message.now) body.bytes.items) }
        ensures refused { IfErr result (λ _. SameHeld (held_in self.old.dictionaries) (held_in self.new.dictionaries)) }
        ensures metadata { self.new.metadata ≡ self.old.metadata }
        ensures cause { IfErr result IsOfBytes }
    {
        let most = stated_length(&message.header.buffers)?;
        let place = body.place();
        let mut source = body;
        read_dictionary_batch(
            self.alloc,
            message.id,
            message.is_delta,
            true,
            &message.header,
            &self.metadata.schema,
            &self.metadata.ipc_schema,
            &mut self.dictionaries,
            message.version,
            &mut source,
            place,
            most,
            &mut self.scratch,
        )
    }

    /// Takes a dictionary message, by its metadata and its body.
    fn take_dictionary(&mut self, bytes: &[u8], body: HeldBody) -> Result<(), IpcError>
        ensures adds { (d : History) → HoldsCells d (held_in self.old.dictionaries) → AddsDictionary d (held_in self.new.dictionaries) result (values_in (stream_schema self.old.metadata) d (message_in bytes.now body.bytes.items)) }
        ensures refused { IfErr result (λ _. SameHeld (held_in self.old.dictionaries) (held_in self.new.dictionaries)) }
        ensures metadata { self.new.metadata ≡ self.old.metadata }
        ensures cause { IfErr result IsOfBytes }
    {
        let message = read_dictionary_message(self.alloc, bytes)?;
        self.read_values(&message, body)
    }

    /// The record batch of a message, or none of a dictionary's, whose values are kept: behind those of its id where it is a
    /// delta, and else in their place.
    ///
    /// # Errors
    ///
    /// `UnexpectedMessageType` for another message, `OutOfSpec` with the kind of the part that is not as the format says,
    /// `Unsupported`, `TooMany(Pairs)`; `Memory`, also where the buffers of the message state 2^64 bytes or more together.
    pub fn consume(&mut self, message: EncodedData) -> Result<Option<RecordBatch>, IpcError>
        ensures takes { (d : History) → HoldsCells d (held_in self.old.dictionaries) → TakesHanded d (stream_schema self.old.metadata) (handed_of message) (held_in self.new.dictionaries) result }
        ensures schema { IfOk result (λ o. IfSome o (λ x. HasFields x (rc_value self.old.metadata.schema))) }

        // A refusal changes nothing.
        ensures refused { IfErr result (λ _. SameHeld (held_in self.old.dictionaries) (held_in self.new.dictionaries)) }
        ensures metadata { self.new.metadata ≡ self.old.metadata }
        ensures cause { IfErr result IsOfBytes }
    {
        check_kinds(&self.metadata.schema, None)?;
        let EncodedData {
            ipc_message,
            arrow_data,
        } = message;
        let body = HeldBody { bytes: arrow_data };
        if is_dictionary(&ipc_message) {
            self.take_dictionary(&ipc_message, body)?;
            return Ok(None);
        }
        let batch = self.take_batch(&ipc_message, body)?;
        Ok(Some(batch))
    }
}
