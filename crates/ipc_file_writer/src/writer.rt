//! A file that is written into a sink.
ghost use Rattle.std.specs.Prelude.{[], ◌≡◌, ◌≤◌, IfErr, IfOk, MatchResult, Some, length};
ghost use Rattle.std.specs.Rc.{rc_value};
ghost use Rattle.arrow_spec.specs.declared.error.IpcError.TheVariants.{Memory};
ghost use Rattle.ipc_messages.specs.Below.{moved};
ghost use Rattle.ipc_messages.specs.Fields.{given_ids};
ghost use Rattle.ipc_file_writer.specs.Calls.{Finishes, IsBegun, IsFresh, IsNotBegun, SetsFooterPairs, Starts, Writes};
ghost use Rattle.ipc_file_writer.specs.Fields.{own_ids};
ghost use Rattle.ipc_file_writer.specs.Given.{HasOtherScratch, WritesGiven};

use crate::file::FileCore;
use arrow_arrays::RecordBatch;
use arrow_spec::IpcError;
use arrow_types::{ArrowSchemaRef, Metadata};
use ipc_fields::IpcField;
use ipc_io::{Refused, Sink};
use ipc_messages::{EncodedData, WriteOptions};
use std::alloc::Global;

/// A writer of record batches to a file, with the sink that the file goes into.
#[derive(Drop)]
pub struct FileWriter<W: Sink> {
    sink: W,
    core: FileCore,
}

impl<W: Sink> FileWriter<W> {
    /// A writer that has written nothing, as [`FileCore::new`] makes it.
    ///
    /// # Errors
    ///
    /// `Memory`, with the sink.
    pub fn new(
        alloc: Global,
        sink: W,
        schema: ArrowSchemaRef,
        ipc_fields: Option<Vec<IpcField>>,
        options: WriteOptions,
    ) -> Result<FileWriter<W>, Refused<W>>
        ensures fresh { IfOk result (λ w. IsFresh options (rc_value schema) (own_ids ipc_fields) w.core) }
        ensures sink { MatchResult result (λ w. w.sink ≡ sink) (λ e. e.object ≡ sink) }
        ensures err { IfErr result (λ e. e.error ≡ Memory) }
    {
        match FileCore::new(alloc, schema, ipc_fields, options) {
            Ok(core) => Ok(FileWriter { sink, core }),
            Err(error) => Err(Refused {
                error,
                object: sink,
            }),
        }
    }

    /// A writer whose file is begun: [`FileWriter::new`], then [`FileWriter::start`].
    ///
    /// # Errors
    ///
    /// As of these, with the sink.
    pub fn try_new(
        alloc: Global,
        sink: W,
        schema: ArrowSchemaRef,
        ipc_fields: Option<Vec<IpcField>>,
        options: WriteOptions,
    ) -> Result<FileWriter<W>, Refused<W>>
        ensures begun { IfOk result (λ w. IsBegun (moved (W.written sink) (W.written w.sink) (W.faults sink) (W.faults w.sink) (W.wants sink) (W.wants w.sink)) options (rc_value schema) (own_ids ipc_fields) w.core) }
        ensures err { IfErr result (λ e. IsNotBegun (moved (W.written sink) (W.written e.object) (W.faults sink) (W.faults e.object) (W.wants sink) (W.wants e.object)) e.error options (rc_value schema) (own_ids ipc_fields)) }
        ensures same_references { MatchResult result (λ w. W.references w.sink ≡ W.references sink) (λ e. W.references e.object ≡ W.references sink) }
    {
        let mut writer = FileWriter::new(alloc, sink, schema, ipc_fields, options)?;
        match writer.start() {
            Ok(()) => Ok(writer),
            Err(error) => Err(Refused {
                error,
                object: writer.into_inner(),
            }),
        }
    }

    /// A writer into a sink that goes on with what was written before, as [`FileCore::of_begun`] makes it.
    pub fn with_core(sink: W, core: FileCore) -> FileWriter<W>
        ensures sink { result.sink ≡ sink }
        ensures core { result.core ≡ core }
    {
        FileWriter { sink, core }
    }

    /// Gives the schema pairs of its own, which count for a later `finish`.
    pub fn set_custom_schema_metadata(&mut self, pairs: Metadata)
        ensures pairs { self.new.core.pairs ≡ record { schema = Some pairs; footer = self.old.core.pairs.footer } }
        ensures state { self.new.core.state ≡ self.old.core.state }
        ensures options { self.new.core.options ≡ self.old.core.options }
        ensures schema { self.new.core.schema ≡ self.old.core.schema }
        ensures ipc_schema { self.new.core.ipc_schema ≡ self.old.core.ipc_schema }
        ensures tracker { self.new.core.tracker ≡ self.old.core.tracker }
        ensures blocks { self.new.core.blocks ≡ self.old.core.blocks }
        ensures written { self.new.core.has_written ≡ self.old.core.has_written }
        ensures sink { self.new.sink ≡ self.old.sink }
    {
        self.core.set_custom_schema_metadata(pairs);
    }

    /// Gives the footer pairs of its own, as [`FileCore::set_footer_metadata`] does.
    ///
    /// # Errors
    ///
    /// As of [`FileCore::set_footer_metadata`].
    pub fn set_footer_metadata(&mut self, pairs: Metadata) -> Result<(), IpcError>
        requires { length pairs.entries ≤ 1048576 }
        ensures sets { SetsFooterPairs result self.old.core self.new.core pairs }
        ensures sink { self.new.sink ≡ self.old.sink }
    {
        self.core.set_footer_metadata(pairs)
    }

    /// How many bytes the file has, as [`FileCore::byte_count`] says.
    pub fn byte_count(&self) -> u64
        ensures { result ≡ self.now.core.blocks.end }
    {
        self.core.byte_count()
    }

    /// Begins the file, as [`FileCore::start`] does.
    ///
    /// # Errors
    ///
    /// As of [`FileCore::start`].
    pub fn start(&mut self) -> Result<(), IpcError>
        ensures starts { Starts (moved (W.written self.old.sink) (W.written self.new.sink) (W.faults self.old.sink) (W.faults self.new.sink) (W.wants self.old.sink) (W.wants self.new.sink)) result self.old.core self.new.core }
        ensures same_references { W.references self.new.sink ≡ W.references self.old.sink }
    {
        self.core.start(&mut self.sink)
    }

    /// Writes a batch, as [`FileCore::write`] does.
    ///
    /// # Errors
    ///
    /// As of [`FileCore::write`].
    pub fn write(
        &mut self,
        batch: &RecordBatch,
        ipc_fields: Option<&[IpcField]>,
    ) -> Result<(), IpcError>
        ensures writes { Writes (moved (W.written self.old.sink) (W.written self.new.sink) (W.faults self.old.sink) (W.faults self.new.sink) (W.wants self.old.sink) (W.wants self.new.sink)) result self.old.core self.new.core batch.now (given_ids ipc_fields.entry) }
        ensures same_references { W.references self.new.sink ≡ W.references self.old.sink }
    {
        self.core.write(&mut self.sink, batch, ipc_fields)
    }

    /// Writes messages that were encoded before, as [`FileCore::write_encoded`] does.
    ///
    /// # Errors
    ///
    /// As of [`FileCore::write_encoded`].
    pub fn write_encoded(
        &mut self,
        encoded_dictionaries: &[EncodedData],
        encoded_message: &EncodedData,
    ) -> Result<(), IpcError>
        ensures writes { WritesGiven (moved (W.written self.old.sink) (W.written self.new.sink) (W.faults self.old.sink) (W.faults self.new.sink) (W.wants self.old.sink) (W.wants self.new.sink)) result self.old.core self.new.core encoded_dictionaries.now encoded_message.now }
        ensures same_references { W.references self.new.sink ≡ W.references self.old.sink }
    {
        self.core
            .write_encoded(&mut self.sink, encoded_dictionaries, encoded_message)
    }

    /// Writes a batch's message that was encoded before, as [`FileCore::write_encoded_record_batch`] does.
    ///
    /// # Errors
    ///
    /// As of [`FileCore::write_encoded`].
    pub fn write_encoded_record_batch(
        &mut self,
        encoded_message: &EncodedData,
    ) -> Result<(), IpcError>
        ensures writes { WritesGiven (moved (W.written self.old.sink) (W.written self.new.sink) (W.faults self.old.sink) (W.faults self.new.sink) (W.wants self.old.sink) (W.wants self.new.sink)) result self.old.core self.new.core [] encoded_message.now }
        ensures same_references { W.references self.new.sink ≡ W.references self.old.sink }
    {
        self.core
            .write_encoded_record_batch(&mut self.sink, encoded_message)
    }

    /// Takes the memory through which bodies are put, as [`FileCore::get_scratches`] does.
    pub fn get_scratches(&mut self) -> EncodedData
        ensures taken { result.arrow_data ≡ self.old.core.scratch }
        ensures core { HasOtherScratch self.old.core self.new.core }
        ensures sink { self.new.sink ≡ self.old.sink }
    {
        self.core.get_scratches()
    }

    /// Gives memory through which bodies are put.
    pub fn set_scratches(&mut self, scratches: EncodedData)
        ensures given { self.new.core.scratch ≡ scratches.arrow_data }
        ensures core { HasOtherScratch self.old.core self.new.core }
        ensures sink { self.new.sink ≡ self.old.sink }
    {
        self.core.set_scratches(scratches);
    }

    /// Ends the file, as [`FileCore::finish`] does.
    ///
    /// # Errors
    ///
    /// As of [`FileCore::finish`].
    pub fn finish(&mut self) -> Result<(), IpcError>
        ensures finishes { Finishes (moved (W.written self.old.sink) (W.written self.new.sink) (W.faults self.old.sink) (W.faults self.new.sink) (W.wants self.old.sink) (W.wants self.new.sink)) result self.old.core self.new.core }
        ensures same_references { W.references self.new.sink ≡ W.references self.old.sink }
    {
        self.core.finish(&mut self.sink)
    }

    /// The sink, with what was put into it.
    pub fn into_inner(self) -> W
        ensures { result ≡ self.sink }
    {
        self.sink
    }
}
