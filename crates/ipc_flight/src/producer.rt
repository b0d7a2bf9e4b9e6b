//! The messages of a file, handed over one after another (Arrow Columnar Format, "IPC File Format").
ghost use Rattle.std.specs.Prelude.{◌≡◌, ◌≤◌, ◌+◌, length, slice_get, IfErr, IfOk, IfSome};
ghost use Rattle.std.specs.Option.{ForSome};
ghost use Rattle.arrow_spec.specs.Files.{Request, file_reading, to_send};
ghost use Rattle.arrow_spec.specs.Readings.{Refuses, refusals};
ghost use Rattle.ipc_files.specs.FileViews.{FileCause, FileSays, WasRead, file_custom, meta_view};
ghost use Rattle.ipc_io.specs.Outside.{IsSize, SourceKept};
ghost use Rattle.ipc_flight.specs.Firsts.{GivesFirst};
ghost use Rattle.ipc_flight.specs.Hands.{HandCause, HandsOver, block_size};

use crate::hand::hand_next;
use arrow_spec::IpcError;
use ipc_files::{
    FileMetadata, Source, custom_metadata_of, metadata_of, read_file_metadata, schema_message,
};
use ipc_write::EncodedData;
use std::alloc::Global;

/// Hands over the messages of a file as they stand: that of its schema, those of its dictionaries and those of its record
/// batches, each of the two in the order of the footer.
#[derive(Drop)]
pub struct FlightStreamProducer<'a, S: Source> {
    source: &'a mut S,
    metadata: FileMetadata,
    dictionary: usize,
    block: usize,
    front: Vec<u8>,
    alloc: Global,
    ghost whole: { ForSome (S.content source.now) (λ b. metadata.size ≡ length b) },
    ghost few: { length (file_custom metadata) ≤ 1048576 },
}

impl<'a, S: Source> FlightStreamProducer<'a, S> {
    /// A producer of the file in a source. The footer is read.
    ///
    /// # Errors
    ///
    /// As of `read_file_metadata`.
    pub fn new(alloc: Global, source: &'a mut S) -> Result<FlightStreamProducer<'a, S>, IpcError>
        ensures says { IfOk result (λ p. IfSome (S.content source.old) (λ b. FileSays b (meta_view p.metadata) (file_custom p.metadata))) }
        ensures refused { IfErr result (λ e. IfSome (S.content source.old) (λ b. (r : Request) → Refuses e (refusals (file_reading to_send b r None)))) }
        ensures read { IfOk result (λ p. WasRead p.metadata) }
        ensures first { IfOk result (λ p. (p.dictionary ≡ 0) × (p.block ≡ 0)) }
        ensures content { IfOk result (λ p. S.content p.source.now ≡ S.content source.old) }
        ensures same_reference { IfOk result (λ p. p.source.ghost_name ≡ source.entry.ghost_name) }
    {
        let metadata = read_file_metadata(alloc, source)?;
        Ok(FlightStreamProducer {
            source,
            metadata,
            dictionary: 0,
            block: 0,
            front: Vec::new(alloc),
            alloc,
        })
    }

    /// What the footer says.
    pub fn metadata(&self) -> &FileMetadata
        ensures { result.now ≡ self.now.metadata }
    {
        &self.metadata
    }

    /// The message of the file's schema, with the footer's own pairs and in the file's byte order. It has no body.
    ///
    /// # Errors
    ///
    /// `TooLarge` where the metadata passes 2^31 - 1 bytes, `Memory`.
    pub fn get_schema(&self) -> Result<EncodedData, IpcError>
        ensures gives { WasRead self.now.metadata → GivesFirst (meta_view self.now.metadata).schema (file_custom self.now.metadata) result }
    {
        let ipc_message = schema_message(
            self.alloc,
            &self.metadata.schema,
            &self.metadata.ipc_schema,
            metadata_of(&self.metadata),
            custom_metadata_of(&self.metadata),
        )?;
        Ok(EncodedData {
            ipc_message,
            arrow_data: Vec::new(self.alloc),
        })
    }

    /// The next dictionary's message, as it stands; none past the last. The message is emptied first.
    ///
    /// # Errors
    ///
    /// `BlockRange` where the block passes the end of the file, `MessageRange` and `UnexpectedNegativeInteger` by the prefix of
    /// its message, `ReadFault`, `Memory`. Then the message is empty, and the block is taken.
    pub fn next_dict(&mut self, message: &mut EncodedData) -> Result<Option<()>, IpcError>
        ensures hands { HandsOver (S.content self.old.source.now) (meta_view self.old.metadata).dictionaries self.old.dictionary self.new.dictionary message.new result }
        ensures block { self.new.block ≡ self.old.block }
        ensures metadata { self.new.metadata ≡ self.old.metadata }
        ensures same_reference { self.new.source.ghost_name ≡ self.old.source.ghost_name }
        ensures cause { IfErr result (λ e. HandCause e (S.faults self.old.source.now) (S.faults self.new.source.now)) }
        ensures fetched { S.fetched self.new.source.now ≤ S.fetched self.old.source.now + block_size (slice_get (meta_view self.old.metadata).dictionaries self.old.dictionary) }
        ensures kept { SourceKept S.content S.faults S.references self.old.source.now self.new.source.now }
    {
        hand_next(
            self.source,
            &self.metadata.dictionaries,
            &mut self.dictionary,
            self.metadata.size,
            &mut self.front,
            message,
        )
    }

    /// The next record batch's message, as it stands; none past the last. The message is emptied first.
    ///
    /// # Errors
    ///
    /// As of `next_dict`.
    pub fn next_data(&mut self, message: &mut EncodedData) -> Result<Option<()>, IpcError>
        ensures hands { HandsOver (S.content self.old.source.now) (meta_view self.old.metadata).blocks self.old.block self.new.block message.new result }
        ensures dictionary { self.new.dictionary ≡ self.old.dictionary }
        ensures metadata { self.new.metadata ≡ self.old.metadata }
        ensures same_reference { self.new.source.ghost_name ≡ self.old.source.ghost_name }
        ensures cause { IfErr result (λ e. HandCause e (S.faults self.old.source.now) (S.faults self.new.source.now)) }
        ensures fetched { S.fetched self.new.source.now ≤ S.fetched self.old.source.now + block_size (slice_get (meta_view self.old.metadata).blocks self.old.block) }
        ensures kept { SourceKept S.content S.faults S.references self.old.source.now self.new.source.now }
    {
        hand_next(
            self.source,
            &self.metadata.blocks,
            &mut self.block,
            self.metadata.size,
            &mut self.front,
            message,
        )
    }
}
