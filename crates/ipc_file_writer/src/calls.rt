//! The calls of the writer of a file without its sink.
ghost use Rattle.std.specs.Prelude.{◌≡◌, ◌↔◌, ◌<◌, ◌≤◌, IfOk, IfErr, IsTrue, Some, length, map, true};
ghost use Rattle.std.specs.Rc.{rc_value};
ghost use Rattle.arrow_spec.specs.declared.error.IpcError.TheVariants.{Memory};
ghost use Rattle.arrow_types.specs.Schemas.{fields_in};
ghost use Rattle.ipc_messages.specs.Below.{moved, to_send};
ghost use Rattle.ipc_fields.specs.IpcFields.{ids_of};
ghost use Rattle.ipc_messages.specs.Fields.{AreIdsFor, given_ids};
ghost use Rattle.ipc_messages.specs.Puts.{PutsBeforeWant};
ghost use Rattle.ipc_messages.specs.States.{is_started, state_behind};
ghost use Rattle.ipc_file_writer.specs.Blocks.{message_sizes};
ghost use Rattle.ipc_file_writer.specs.Calls.{Finishes, HasNoMore, IsFresh, Sends, SetsFooterPairs, Starts, SuitsFile, Writes, takes_pairs};
ghost use Rattle.ipc_file_writer.specs.Fields.{own_ids};
ghost use Rattle.ipc_file_writer.specs.Sending.{PlacesMore, PlansMore, PutsMore};

use crate::blocks::{ChunkBlocks, FileBlocks};
use crate::file::FileCore;
use crate::pairs::FilePairs;
use crate::placing::{MessageSizes, chunk_blocks, planned_sizes};
use arrow_arrays::RecordBatch;
use arrow_spec::IpcError;
use arrow_types::{ArrowSchema, ArrowSchemaRef, Metadata};
use ipc_fields::IpcField;
use ipc_io::Sink;
use ipc_messages::{
    DictionaryTracker, IpcSchema, PlannedMessage, Stop, ToEncode, WriteOptions, WriterState,
    chunk_messages, default_ipc_fields, is_of_schema, new_dictionaries, put_messages, put_whole,
};
use std::alloc::{AllocError, Global};

/// The most bytes of a body that are put at once.
pub(crate) const PIECE_BYTES: usize = 65_536;

/// The messages of a batch and of its dictionaries, and their blocks.
#[derive(Drop)]
struct PlannedChunk {
    messages: Vec<PlannedMessage>,
    blocks: ChunkBlocks,
}

/// The IPC fields that are given, or those whose ids count from 0 in preorder.
fn own_fields(
    alloc: Global,
    schema: &ArrowSchema,
    given: Option<Vec<IpcField>>,
) -> Result<Vec<IpcField>, AllocError>
    ensures { IfOk result (λ v. AreIdsFor (fields_in schema.now) (own_ids given) (ids_of v.items)) }
{
    match given {
        Some(fields) => Ok(fields),
        None => default_ipc_fields(alloc, schema),
    }
}

impl FileCore {
    /// A writer that has written nothing, of a schema with the IPC fields that are given, or with ids that count from 0 over the
    /// dictionaries in preorder. It takes 65,536 bytes.
    ///
    /// # Errors
    ///
    /// `Memory`.
    pub fn new(
        alloc: Global,
        schema: ArrowSchemaRef,
        ipc_fields: Option<Vec<IpcField>>,
        options: WriteOptions,
    ) -> Result<FileCore, IpcError>
        ensures fresh { IfOk result (λ c. IsFresh options (rc_value schema) (own_ids ipc_fields) c) }
        ensures err { IfErr result (λ e. e ≡ Memory) }
    {
        let scratch = vec![in alloc; 0; PIECE_BYTES]?;
        let fields = own_fields(alloc, &schema, ipc_fields)?;
        Ok(FileCore {
            options,
            state: WriterState::New,
            schema,
            ipc_schema: IpcSchema {
                fields,
                is_little_endian: true,
            },
            pairs: FilePairs {
                schema: None,
                footer: None,
            },
            tracker: DictionaryTracker::new(alloc, true, options.deltas),
            blocks: FileBlocks::new(alloc),
            has_written: false,
            scratch,
            alloc,
        })
    }

    /// How many bytes the file has: those that it had where it goes on, and those that were put by calls that were Ok.
    pub fn byte_count(&self) -> u64
        ensures { result ≡ self.now.blocks.end }
    {
        self.blocks.end
    }

    /// Gives the schema pairs of its own, which count for a later `finish`. They stand in the footer alone.
    pub fn set_custom_schema_metadata(&mut self, pairs: Metadata)
        ensures pairs { self.new.pairs ≡ record { schema = Some pairs; footer = self.old.pairs.footer } }
        ensures state { self.new.state ≡ self.old.state }
        ensures options { self.new.options ≡ self.old.options }
        ensures schema { self.new.schema ≡ self.old.schema }
        ensures ipc_schema { self.new.ipc_schema ≡ self.old.ipc_schema }
        ensures tracker { self.new.tracker ≡ self.old.tracker }
        ensures blocks { self.new.blocks ≡ self.old.blocks }
        ensures written { self.new.has_written ≡ self.old.has_written }
    {
        self.pairs.schema = Some(pairs);
    }

    /// Whether the footer may still be given pairs.
    fn takes_pairs(&self) -> bool
        ensures { result ≡ takes_pairs self.now }
    {
        self.state.is_new() || self.state.is_started() && !self.has_written
    }

    /// Gives the footer pairs of its own (File.fbs, Footer: custom_metadata). No batch may have been written yet.
    ///
    /// # Errors
    ///
    /// `State` where a batch was written, or the file is ended, or a put has failed. It leaves the writer.
    pub fn set_footer_metadata(&mut self, pairs: Metadata) -> Result<(), IpcError>
        requires { length pairs.entries ≤ 1048576 }
        ensures { SetsFooterPairs result self.old self.new pairs }
    {
        if !self.takes_pairs() {
            return Err(IpcError::State);
        }
        self.pairs.footer = Some(pairs);
        Ok(())
    }

    /// What a put leaves that stopped: behind a byte that may have been put the writer has failed.
    pub(crate) fn stop_at(&mut self, stop: Stop) -> IpcError
        ensures error { result ≡ stop.error }
        ensures state { self.new.state ≡ state_behind stop.has_begun self.old.state }
        ensures tracker { self.new.tracker ≡ self.old.tracker }
        ensures same { HasNoMore self.old self.new }
    {
        self.state = self.state.behind(stop.has_begun);
        stop.error
    }

    /// Puts what stands before a file's first message: `ARROW1`, two zeros, and the message of the schema. It has to be the first
    /// call.
    ///
    /// # Errors
    ///
    /// `State` where it is not; `Unsupported(Compression)` where compression is asked for; `Unsupported(Float)` and
    /// `Unsupported(Decimal256)` for fields of such types, at any depth; `SchemaMismatch` and `NotRepresentable` as of
    /// `schema_to_bytes`; `TooLarge` where the padded metadata passes its limit; `Memory`. Each leaves writer and sink. Behind
    /// `WriteFault` a part of that is put, and the writer has failed.
    pub fn start<W: Sink>(&mut self, sink: &mut W) -> Result<(), IpcError>
        ensures starts { Starts (moved (W.written sink.old) (W.written sink.new) (W.faults sink.old) (W.faults sink.new) (W.wants sink.old) (W.wants sink.new)) result self.old self.new }
        ensures same_references { W.references sink.new ≡ W.references sink.old }
    {
        if !self.state.is_new() {
            return Err(IpcError::State);
        }
        let start = self.beginning()?;
        match put_whole(sink, start.as_slice()) {
            Ok(()) => {
                self.blocks.end = start.len() as u64;
                self.state = WriterState::Started;
                Ok(())
            }
            Err(stop) => Err(self.stop_at(stop)),
        }
    }

    /// The blocks of messages that are put next, the last of which is a batch's. Room is made for them, and memory is taken through
    /// which bodies are put.
    pub(crate) fn place(&mut self, messages: &[MessageSizes]) -> Result<ChunkBlocks, IpcError>
        requires { 0 < length messages.now }
        ensures { PlacesMore result self.old self.new (map message_sizes messages.now) }
    {
        let blocks = chunk_blocks(self.alloc, self.blocks.end, messages)?;
        self.blocks.make_room(blocks.dictionaries.len())?;
        self.scratch.resize(PIECE_BYTES, 0)?;
        Ok(blocks)
    }

    /// The messages of a batch and of what of its dictionaries is sent before it, with their blocks, for which room is made.
    fn plan(&mut self, messages: &[ToEncode], batch: &RecordBatch) -> Result<PlannedChunk, IpcError>
        ensures { PlansMore result self.old self.new (map to_send messages.now) batch.now }
    {
        let planned = chunk_messages(self.alloc, messages, batch, &self.options)?;
        let sizes = planned_sizes(self.alloc, planned.as_slice())?;
        let blocks = self.place(sizes.as_slice())?;
        Ok(PlannedChunk {
            messages: planned,
            blocks,
        })
    }

    /// Puts the messages of a batch and of what of its dictionaries is sent before it, and keeps their blocks.
    fn put<W: Sink>(
        &mut self,
        sink: &mut W,
        messages: &[ToEncode],
        batch: &RecordBatch,
    ) -> Result<(), Stop>
        ensures puts { PutsMore (moved (W.written sink.old) (W.written sink.new) (W.faults sink.old) (W.faults sink.new) (W.wants sink.old) (W.wants sink.new)) result self.old self.new (map to_send messages.now) batch.now }
        ensures wants { PutsBeforeWant result (W.written sink.old) (W.written sink.new) }
        ensures same_references { W.references sink.new ≡ W.references sink.old }
    {
        match self.plan(messages, batch) {
            Ok(planned) => {
                let scratch = self.scratch.as_mut_slice();
                put_messages(sink, planned.messages.as_slice(), scratch)?;
                self.blocks.add(&planned.blocks);
                self.has_written = true;
                Ok(())
            }
            Err(error) => Err(Stop {
                error,
                has_begun: false,
            }),
        }
    }

    /// Whether a batch is one of the file's.
    fn takes(&self, batch: &RecordBatch, ipc_fields: Option<&[IpcField]>) -> bool
        ensures { IsTrue result ↔ SuitsFile self.now batch.now (given_ids ipc_fields.entry) }
    {
        let fields = self.ipc_schema.fields.as_slice();
        is_of_schema(&self.schema, fields, batch, ipc_fields)
    }

    /// Puts what of a batch's dictionaries was not sent yet, and the batch behind it.
    fn send<W: Sink>(&mut self, sink: &mut W, batch: &RecordBatch) -> Result<(), IpcError>
        requires { is_started self.old.state ≡ true }
        ensures sends { Sends (moved (W.written sink.old) (W.written sink.new) (W.faults sink.old) (W.faults sink.new) (W.wants sink.old) (W.wants sink.new)) result self.old self.new batch.now }
        ensures same_references { W.references sink.new ≡ W.references sink.old }
    {
        let fields = self.ipc_schema.fields.as_slice();
        let new = new_dictionaries(self.alloc, fields, batch.arrays(), &mut self.tracker)?;
        match self.put(sink, new.messages.as_slice(), batch) {
            Ok(()) => Ok(()),
            Err(stop) => {
                new.undo(&mut self.tracker);
                Err(self.stop_at(stop))
            }
        }
    }

    /// Puts the messages of what of a batch's dictionaries was not sent yet, of dictionaries that stand in one another the inner
    /// first, and behind them the batch's own, with their bodies in pieces of at most 65,536 bytes, and keeps where they stand.
    /// Nothing is put before all of them are planned. The file has to be begun and not ended. The IPC fields, where they are
    /// given, are those of the file.
    ///
    /// # Errors
    ///
    /// `State` where the file is not begun, or is ended, or a put has failed; `SchemaMismatch` where a column is not of its field's
    /// type, or there is not one for each field, or the IPC fields are others; then as of `encode_chunk` of `ipc_messages`, where
    /// dictionaries are never replaced, and `TooLarge` where a message has more than 2^31 - 1 bytes before its body or ends behind
    /// the place 2^63 - 1. Each leaves writer and sink, want of memory too where it is the first put that wants it. Behind
    /// `WriteFault`, and `Memory` of a later put, a part of the messages is put, and the writer has failed.
    pub fn write<W: Sink>(
        &mut self,
        sink: &mut W,
        batch: &RecordBatch,
        ipc_fields: Option<&[IpcField]>,
    ) -> Result<(), IpcError>
        ensures writes { Writes (moved (W.written sink.old) (W.written sink.new) (W.faults sink.old) (W.faults sink.new) (W.wants sink.old) (W.wants sink.new)) result self.old self.new batch.now (given_ids ipc_fields.entry) }
        ensures same_references { W.references sink.new ≡ W.references sink.old }
    {
        if !self.state.is_started() {
            return Err(IpcError::State);
        }
        if !self.takes(batch, ipc_fields) {
            return Err(IpcError::SchemaMismatch);
        }
        self.send(sink, batch)
    }

    /// Ends the file, which has to be begun: puts the end mark, the footer with the schema, the blocks and the pairs, the footer's
    /// length, and `ARROW1`.
    ///
    /// # Errors
    ///
    /// `State` where the file is not begun, or is ended, or a put has failed; `TooLarge` where the footer passes its limit, or its
    /// end the place 2^63 - 1; `Memory`. Each leaves writer and sink. Behind `WriteFault` a part of the end is put, and the writer
    /// has failed.
    pub fn finish<W: Sink>(&mut self, sink: &mut W) -> Result<(), IpcError>
        ensures finishes { Finishes (moved (W.written sink.old) (W.written sink.new) (W.faults sink.old) (W.faults sink.new) (W.wants sink.old) (W.wants sink.new)) result self.old self.new }
        ensures same_references { W.references sink.new ≡ W.references sink.old }
    {
        if !self.state.is_started() {
            return Err(IpcError::State);
        }
        let ending = self.ending()?;
        match put_whole(sink, ending.as_slice()) {
            Ok(()) => {
                self.blocks.end += ending.len() as u64;
                self.state = WriterState::Finished;
                Ok(())
            }
            Err(stop) => Err(self.stop_at(stop)),
        }
    }
}
