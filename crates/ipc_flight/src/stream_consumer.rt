//! The messages of a flight as they come of an iterator (Arrow Columnar Format, "IPC Streaming Format").
ghost use Rattle.std.specs.Prelude.{◌≡◌, Ok, Err, IfErr, IfOk, IfSome};
ghost use Rattle.std.specs.Rc.{rc_value};
ghost use Rattle.std.specs.Iterator.{IsFinite};
ghost use Rattle.arrow_spec.specs.Arrays.{Dictionaries as History};
ghost use Rattle.ipc_files.specs.Below.{held_in};
ghost use Rattle.ipc_read_laws.specs.Held.{HoldsCells, none_held};
ghost use Rattle.ipc_streams.specs.Starts.{start_view, stream_schema};
ghost use Rattle.ipc_flight.specs.Runs.{Begins, FlightRun};

use crate::consumer::FlightConsumer;
use arrow_arrays::RecordBatch;
use arrow_spec::{IpcError, OutOfSpecKind};
use arrow_types::ArrowSchema;
use ipc_write::EncodedData;
use std::alloc::Global;

/// A consumer with the iterator from which its messages come.
#[derive(Drop)]
pub struct FlightstreamConsumer<I: Iterator<Item = Result<EncodedData, IpcError>>> {
    consumer: FlightConsumer,
    messages: I,
}

impl<I: Iterator<Item = Result<EncodedData, IpcError>>> FlightstreamConsumer<I> {
    /// A consumer behind the first message, which is a schema's.
    ///
    /// # Errors
    ///
    /// `MissingSchema` where there is no message; an item that is an error, as it is; then as `FlightConsumer::new`.
    pub fn new(alloc: Global, messages: I) -> Result<FlightstreamConsumer<I>, IpcError>
        requires { I.can_next messages }
        ensures begun { IfOk result (λ c. Begins I.next_gives messages (Ok (start_view c.consumer.metadata, c.messages))) }
        ensures none { IfOk result (λ c. held_in c.consumer.dictionaries ≡ none_held) }
        ensures can { IfOk result (λ c. I.can_next c.messages) }
        ensures finite { IsFinite (I.remaining messages) → IfOk result (λ c. IsFinite (I.remaining c.messages)) }
        ensures refused { IfErr result (λ e. Begins I.next_gives messages (Err e)) }
    {
        let mut messages = messages;
        let Some(first) = messages.next() else {
            return Err(IpcError::OutOfSpec(OutOfSpecKind::MissingSchema));
        };
        let first = first?;
        let consumer = FlightConsumer::new(alloc, first)?;
        Ok(FlightstreamConsumer { consumer, messages })
    }

    /// The schema of the record batches.
    pub fn schema(&self) -> &ArrowSchema
        ensures { result.now ≡ rc_value self.now.consumer.metadata.schema }
    {
        self.consumer.schema()
    }

    /// The next record batch, behind the dictionaries before it, which are kept; none where the iterator ends. Behind a batch, and
    /// behind a refusal, the call may be made again.
    ///
    /// # Errors
    ///
    /// An item that is an error, as it is; then as `consume` of `FlightConsumer`.
    pub fn next_batch(&mut self) -> Result<Option<RecordBatch>, IpcError>
        requires can { I.can_next self.old.messages }
        requires finite { IsFinite (I.remaining self.old.messages) }
        ensures runs { (d : History) → HoldsCells d (held_in self.old.consumer.dictionaries) → FlightRun I.next_gives (stream_schema self.old.consumer.metadata) self.old.messages self.new.messages d (held_in self.new.consumer.dictionaries) result }
        ensures metadata { self.new.consumer.metadata ≡ self.old.consumer.metadata }
        ensures more { IfOk result (λ o. IfSome o (λ _. I.can_next self.new.messages × IsFinite (I.remaining self.new.messages))) }
    {
        'messages: while let Some(item) = self.messages.next() {
            let message = item?;
            let taken = self.consumer.consume(message)?;
            if let Some(batch) = taken {
                return Ok(Some(batch));
            }
        }
        Ok(None)
    }
}
