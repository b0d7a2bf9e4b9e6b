//! The calls of the writer of a stream without its sink.
ghost use Rattle.std.specs.Prelude.{◌≡◌, ◌↔◌, ◌≤◌, IfOk, IfErr, IsTrue, Some, length, true};
ghost use Rattle.arrow_spec.specs.Readings.{is_absent};
ghost use Rattle.arrow_spec.specs.declared.error.IpcError.TheVariants.{Memory};
ghost use Rattle.ipc_bodies.specs.Encodings.{text_of};
ghost use Rattle.ipc_bodies.specs.Puts.{moved};
ghost use Rattle.ipc_bodies.specs.declared.encoding.Encoding.TheVariants.{Bytes};
ghost use Rattle.ipc_messages.specs.Fields.{given_ids};
ghost use Rattle.ipc_messages.specs.Puts.{counted};
ghost use Rattle.ipc_stream_writer.specs.Calls.{Finishes, IsFresh, Sends, SetsMessagePairs, Starts, Stays, SuitsStream, Writes};
ghost use Rattle.ipc_messages.specs.States.{is_started, state_behind};
ghost use Rattle.ipc_messages.specs.declared.state.WriterState.TheVariants.{Started};

use crate::stream::StreamCore;
use arrow_spec::IpcError;
use arrow_types::{ArrowSchema, Metadata};
use ipc_bodies::Encoding;
use ipc_fields::IpcField;
use ipc_io::Sink;
use ipc_messages::{
    DictionaryTracker, RecordBatch, Stop, StreamPairs, StreamStart, WriteOptions, WriterState,
    is_of_schema, new_dictionaries, put_whole_as, send_chunk_as, stream_start,
};
use std::alloc::Global;

/// The most bytes of a body that are put at once.
const PIECE_BYTES: usize = 65_536;

/// The end of a stream: a prefix of length 0.
const END_MARK: [u8; 8] = [255, 255, 255, 255, 0, 0, 0, 0];

/// So many zeros, through which bodies are put.
fn zeros(alloc: Global, count: usize) -> Result<Vec<u8>, IpcError>
    ensures length { IfOk result (λ v. length v.items ≡ count) }
    ensures err { IfErr result (λ e. e ≡ Memory) }
{
    Ok(vec![in alloc; 0; count]?)
}

impl StreamCore {
    /// A writer that has written nothing, of a stream whose bytes are put. It takes 65,536 bytes.
    ///
    /// # Errors
    ///
    /// `Memory`.
    pub fn new(alloc: Global, options: WriteOptions) -> Result<StreamCore, IpcError>
        ensures fresh { IfOk result (λ c. IsFresh options Bytes c) }
        ensures err { IfErr result (λ e. e ≡ Memory) }
    {
        StreamCore::new_as(alloc, options, Encoding::Bytes)
    }

    /// A writer that has written nothing, of a stream whose bytes are put, or their lower-case hex text: two bytes of text for each
    /// byte of the stream. It takes 65,536 bytes.
    ///
    /// # Errors
    ///
    /// `Memory`.
    pub fn new_as(
        alloc: Global,
        options: WriteOptions,
        encoding: Encoding,
    ) -> Result<StreamCore, IpcError>
        ensures fresh { IfOk result (λ c. IsFresh options encoding c) }
        ensures err { IfErr result (λ e. e ≡ Memory) }
    {
        let scratch = zeros(alloc, PIECE_BYTES)?;
        Ok(StreamCore {
            options,
            encoding,
            state: WriterState::New,
            schema: ArrowSchema::new(alloc),
            fields: Vec::new(alloc),
            pairs: StreamPairs {
                schema: None,
                message: None,
            },
            tracker: DictionaryTracker::new(alloc, false, options.deltas),
            byte_count: 0,
            scratch,
            alloc,
        })
    }

    /// Gives the schema pairs of its own, which count for a later `start`.
    pub fn set_custom_schema_metadata(&mut self, pairs: Metadata)
        ensures pairs { self.new.pairs ≡ record { schema = Some pairs; message = self.old.pairs.message } }
        ensures state { self.new.state ≡ self.old.state }
        ensures options { self.new.options ≡ self.old.options }
        ensures encoding { self.new.encoding ≡ self.old.encoding }
        ensures schema { self.new.schema ≡ self.old.schema }
        ensures fields { self.new.fields ≡ self.old.fields }
        ensures tracker { self.new.tracker ≡ self.old.tracker }
        ensures count { self.new.byte_count ≡ self.old.byte_count }
    {
        self.pairs.schema = Some(pairs);
    }

    /// Gives the message of the schema pairs of its own (Message.fbs, Message: custom_metadata). Nothing may have been put yet.
    ///
    /// # Errors
    ///
    /// `State` where the stream is begun, or is ended, or a put has failed. It leaves the writer.
    pub fn set_message_metadata(&mut self, pairs: Metadata) -> Result<(), IpcError>
        requires { length pairs.entries ≤ 1048576 }
        ensures { SetsMessagePairs result self.old self.new pairs }
    {
        if !self.state.is_new() {
            return Err(IpcError::State);
        }
        self.pairs.message = Some(pairs);
        Ok(())
    }

    /// What a put leaves that stopped: behind a byte that may have been put the writer has failed.
    fn stop_at(&mut self, stop: Stop) -> IpcError
        ensures error { result ≡ stop.error }
        ensures state { self.new.state ≡ state_behind stop.has_begun self.old.state }
        ensures tracker { self.new.tracker ≡ self.old.tracker }
        ensures stays { Stays self.old self.new }
        ensures count { self.new.byte_count ≡ self.old.byte_count }
    {
        self.state = self.state.behind(stop.has_begun);
        stop.error
    }

    /// How many bytes the stream has: those that were put since it was begun, its schema's message among them, by calls that were
    /// Ok. Hex text has twice as many. 2^128 - 1 says that there are so many or more.
    pub fn byte_count(&self) -> u128
        ensures { result ≡ self.now.byte_count }
    {
        self.byte_count
    }

    /// Keeps what the stream is begun with.
    fn keep(&mut self, start: StreamStart)
        requires { is_absent self.old.options.compression ≡ true }
        ensures schema { self.new.schema ≡ start.schema }
        ensures fields { self.new.fields ≡ start.fields }
        ensures state { self.new.state ≡ Started }
        ensures options { self.new.options ≡ self.old.options }
        ensures encoding { self.new.encoding ≡ self.old.encoding }
        ensures pairs { self.new.pairs ≡ self.old.pairs }
        ensures tracker { self.new.tracker ≡ self.old.tracker }
        ensures count { self.new.byte_count ≡ counted (length start.message.items) }
    {
        let StreamStart {
            schema,
            fields,
            message,
        } = start;
        self.byte_count = message.len() as u128;
        drop(message);
        self.schema = schema;
        self.fields = fields;
        self.state = WriterState::Started;
    }

    /// Puts the message of a schema, with the IPC fields that are given, or with ids that count from 0 over the dictionaries in
    /// preorder, and with the pairs that were set. It has to be the first call.
    ///
    /// # Errors
    ///
    /// `State` where it is not; `Unsupported(Compression)` where compression is asked for; `Unsupported(Float)` and
    /// `Unsupported(Decimal256)` for fields of such types, at any depth; `SchemaMismatch` and `NotRepresentable` as of
    /// `schema_to_bytes`; `TooLarge` where the padded metadata passes its limit; `Memory`. Each leaves writer and sink. Behind
    /// `WriteFault`, and `Memory` of a later put of hex text, a part of the message is put, and the writer has failed.
    pub fn start<W: Sink>(
        &mut self,
        sink: &mut W,
        schema: &ArrowSchema,
        ipc_fields: Option<&[IpcField]>,
    ) -> Result<(), IpcError>
        ensures starts { Starts (text_of self.old.encoding) (moved (W.written sink.old) (W.written sink.new) (W.faults sink.old) (W.faults sink.new) (W.wants sink.old) (W.wants sink.new)) result self.old self.new schema.now (given_ids ipc_fields.entry) }
        ensures same_references { W.references sink.new ≡ W.references sink.old }
    {
        if !self.state.is_new() {
            return Err(IpcError::State);
        }
        let start = stream_start(self.alloc, schema, ipc_fields, &self.pairs, &self.options)?;
        let scratch = self.scratch.as_mut_slice();
        match put_whole_as(sink, start.message.as_slice(), self.encoding, scratch) {
            Ok(()) => {
                self.keep(start);
                Ok(())
            }
            Err(stop) => Err(self.stop_at(stop)),
        }
    }

    /// Whether a batch is one of the stream's.
    fn takes(&self, batch: &RecordBatch, ipc_fields: Option<&[IpcField]>) -> bool
        ensures { IsTrue result ↔ SuitsStream self.now batch.now (given_ids ipc_fields.entry) }
    {
        is_of_schema(&self.schema, self.fields.as_slice(), batch, ipc_fields)
    }

    /// Puts what of a batch's dictionaries was not sent yet, and the batch behind it.
    fn send<W: Sink>(&mut self, sink: &mut W, batch: &RecordBatch) -> Result<(), IpcError>
        requires { is_started self.old.state ≡ true }
        ensures sends { Sends (text_of self.old.encoding) (moved (W.written sink.old) (W.written sink.new) (W.faults sink.old) (W.faults sink.new) (W.wants sink.old) (W.wants sink.new)) result self.old self.new batch.now }
        ensures same_references { W.references sink.new ≡ W.references sink.old }
    {
        let fields = self.fields.as_slice();
        let new = new_dictionaries(self.alloc, fields, batch.arrays(), &mut self.tracker)?;
        let messages = new.messages.as_slice();
        let scratch = self.scratch.as_mut_slice();
        let encoding = self.encoding;
        match send_chunk_as(
            self.alloc,
            sink,
            messages,
            batch,
            &self.options,
            encoding,
            scratch,
        ) {
            Ok(count) => {
                self.byte_count = self.byte_count.saturating_add(count);
                Ok(())
            }
            Err(stop) => {
                new.undo(&mut self.tracker);
                Err(self.stop_at(stop))
            }
        }
    }

    /// Puts the messages of what of a batch's dictionaries was not sent yet, of dictionaries that stand in one another the inner
    /// first, and behind them the batch's own, with their bodies, and all hex text, in pieces of at most 65,536 bytes. Nothing is put
    /// before all of them are planned. The stream has to be begun and not ended. The IPC fields, where they are given, are those of
    /// the stream.
    ///
    /// # Errors
    ///
    /// `State` where the stream is not begun, or is ended, or a put has failed; `SchemaMismatch` where a column is not of its
    /// field's type, or there is not one for each field, or the IPC fields are others; then as of `encode_chunk` of
    /// `ipc_messages`. Each leaves writer and sink, want of memory too where it is the first put that wants it. Behind `WriteFault`,
    /// and `Memory` of a later put, a part of the messages is put, and the writer has failed.
    pub fn write<W: Sink>(
        &mut self,
        sink: &mut W,
        batch: &RecordBatch,
        ipc_fields: Option<&[IpcField]>,
    ) -> Result<(), IpcError>
        ensures writes { Writes (text_of self.old.encoding) (moved (W.written sink.old) (W.written sink.new) (W.faults sink.old) (W.faults sink.new) (W.wants sink.old) (W.wants sink.new)) result self.old self.new batch.now (given_ids ipc_fields.entry) }
        ensures same_references { W.references sink.new ≡ W.references sink.old }
    {
        if !self.state.is_started() {
            return Err(IpcError::State);
        }
        if !self.takes(batch, ipc_fields) {
            return Err(IpcError::SchemaMismatch);
        }
        self.send(sink, batch)
    }

    /// Ends the stream, which has to be begun.
    ///
    /// # Errors
    ///
    /// `State` where the stream is not begun, or is ended, or a put has failed; `Memory` of the sink, which leaves all. Behind
    /// `WriteFault` a part of the mark is put, and the writer has failed.
    pub fn finish<W: Sink>(&mut self, sink: &mut W) -> Result<(), IpcError>
        ensures finishes { Finishes (text_of self.old.encoding) (moved (W.written sink.old) (W.written sink.new) (W.faults sink.old) (W.faults sink.new) (W.wants sink.old) (W.wants sink.new)) result self.old self.new }
        ensures same_references { W.references sink.new ≡ W.references sink.old }
    {
        if !self.state.is_started() {
            return Err(IpcError::State);
        }
        match put_whole_as(sink, &END_MARK, self.encoding, self.scratch.as_mut_slice()) {
            Ok(()) => {
                self.byte_count = self.byte_count.saturating_add(END_MARK.len() as u128);
                self.state = WriterState::Finished;
                Ok(())
            }
            Err(stop) => Err(self.stop_at(stop)),
        }
    }
}
