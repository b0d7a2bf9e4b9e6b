//! A stream that is written into a sink.
ghost use Rattle.std.specs.Prelude.{◌≡◌, ◌≤◌, IfErr, IfOk, MatchResult, Some, length};
ghost use Rattle.arrow_spec.specs.declared.error.IpcError.TheVariants.{Memory};
ghost use Rattle.ipc_bodies.specs.Puts.{moved};
ghost use Rattle.ipc_bodies.specs.declared.encoding.Encoding.TheVariants.{Bytes};
ghost use Rattle.ipc_stream_writer.specs.Calls.{Finishes, IsFresh, SetsMessagePairs, Starts, Writes};
ghost use Rattle.ipc_messages.specs.Fields.{given_ids};

use crate::stream::StreamCore;
use arrow_spec::IpcError;
use arrow_types::{ArrowSchema, Metadata};
use ipc_fields::IpcField;
use ipc_io::{Refused, Sink};
use ipc_messages::{RecordBatch, WriteOptions};
use std::alloc::Global;

/// A writer of record batches to a stream, with the sink that the bytes of the stream go into.
#[derive(Drop)]
pub struct StreamWriter<W: Sink> {
    sink: W,
    core: StreamCore,
    ghost as_bytes: { core.encoding ≡ Bytes },
}

impl<W: Sink> StreamWriter<W> {
    /// A writer that has written nothing. It takes 65,536 bytes.
    ///
    /// # Errors
    ///
    /// `Memory`, with the sink.
    pub fn new(alloc: Global, sink: W, options: WriteOptions) -> Result<StreamWriter<W>, Refused<W>>
        ensures fresh { IfOk result (λ w. IsFresh options Bytes w.core) }
        ensures sink { MatchResult result (λ w. w.sink ≡ sink) (λ e. e.object ≡ sink) }
        ensures err { IfErr result (λ e. e.error ≡ Memory) }
    {
        match StreamCore::new(alloc, options) {
            Ok(core) => Ok(StreamWriter { sink, core }),
            Err(error) => Err(Refused {
                error,
                object: sink,
            }),
        }
    }

    /// Gives the schema pairs of its own, which count for a later `start`.
    pub fn set_custom_schema_metadata(&mut self, pairs: Metadata)
        ensures pairs { self.new.core.pairs ≡ record { schema = Some pairs; message = self.old.core.pairs.message } }
        ensures state { self.new.core.state ≡ self.old.core.state }
        ensures options { self.new.core.options ≡ self.old.core.options }
        ensures schema { self.new.core.schema ≡ self.old.core.schema }
        ensures fields { self.new.core.fields ≡ self.old.core.fields }
        ensures tracker { self.new.core.tracker ≡ self.old.core.tracker }
        ensures count { self.new.core.byte_count ≡ self.old.core.byte_count }
        ensures sink { self.new.sink ≡ self.old.sink }
    {
        self.core.set_custom_schema_metadata(pairs);
    }

    /// Gives the message of the schema pairs of its own, as [`StreamCore::set_message_metadata`] does.
    ///
    /// # Errors
    ///
    /// As of [`StreamCore::set_message_metadata`].
    pub fn set_message_metadata(&mut self, pairs: Metadata) -> Result<(), IpcError>
        requires { length pairs.entries ≤ 1048576 }
        ensures sets { SetsMessagePairs result self.old.core self.new.core pairs }
        ensures sink { self.new.sink ≡ self.old.sink }
    {
        self.core.set_message_metadata(pairs)
    }

    /// How many bytes the stream has, as [`StreamCore::byte_count`] says.
    pub fn byte_count(&self) -> u128
        ensures { result ≡ self.now.core.byte_count }
    {
        self.core.byte_count()
    }

    /// Begins the stream with the message of a schema, as [`StreamCore::start`] does.
    ///
    /// # Errors
    ///
    /// As of [`StreamCore::start`].
    pub fn start(
        &mut self,
        schema: &ArrowSchema,
        ipc_fields: Option<&[IpcField]>,
    ) -> Result<(), IpcError>
        ensures starts { Starts (λ bytes. bytes) (moved (W.written self.old.sink) (W.written self.new.sink) (W.faults self.old.sink) (W.faults self.new.sink) (W.wants self.old.sink) (W.wants self.new.sink)) result self.old.core self.new.core schema.now (given_ids ipc_fields.entry) }
        ensures same_references { W.references self.new.sink ≡ W.references self.old.sink }
    {
        self.core.start(&mut self.sink, schema, ipc_fields)
    }

    /// Writes a batch, as [`StreamCore::write`] does.
    ///
    /// # Errors
    ///
    /// As of [`StreamCore::write`].
    pub fn write(
        &mut self,
        batch: &RecordBatch,
        ipc_fields: Option<&[IpcField]>,
    ) -> Result<(), IpcError>
        ensures writes { Writes (λ bytes. bytes) (moved (W.written self.old.sink) (W.written self.new.sink) (W.faults self.old.sink) (W.faults self.new.sink) (W.wants self.old.sink) (W.wants self.new.sink)) result self.old.core self.new.core batch.now (given_ids ipc_fields.entry) }
        ensures same_references { W.references self.new.sink ≡ W.references self.old.sink }
    {
        self.core.write(&mut self.sink, batch, ipc_fields)
    }

    /// Ends the stream, as [`StreamCore::finish`] does.
    ///
    /// # Errors
    ///
    /// As of [`StreamCore::finish`].
    pub fn finish(&mut self) -> Result<(), IpcError>
        ensures finishes { Finishes (λ bytes. bytes) (moved (W.written self.old.sink) (W.written self.new.sink) (W.faults self.old.sink) (W.faults self.new.sink) (W.wants self.old.sink) (W.wants self.new.sink)) result self.old.core self.new.core }
        ensures same_references { W.references self.new.sink ≡ W.references self.old.sink }
    {
        self.core.finish(&mut self.sink)
    }

    /// The sink, with what was put into it.
    pub fn into_inner(self) -> W
        ensures { result ≡ self.sink }
    {
        self.sink
    }
}
