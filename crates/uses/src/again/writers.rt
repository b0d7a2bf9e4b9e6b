//! Writers of files and streams into memory, begun with what another file or stream has beside its record batches.
use arrow_ipc::datatypes::{ArrowSchemaRef, Metadata};
use arrow_ipc::io::MemorySink;
use arrow_ipc::io::ipc::write::{FileWriter, StreamWriter, WriteOptions};
use arrow_ipc::io::ipc::{Counted, IpcError, IpcField};
use arrow_ipc::record_batch::RecordBatch;
use std::alloc::Global;

/// The most pairs of a footer or of a message.
const MOST_PAIRS: usize = 1_048_576;

/// The pairs of a schema, and those of the footer or of the schema's message.
#[derive(Drop)]
pub(crate) struct HeadingPairs {
    pub schema: Option<Metadata>,
    pub own: Option<Metadata>,
}

/// What a file or a stream has beside its record batches.
#[derive(Drop)]
pub(crate) struct Heading {
    pub schema: ArrowSchemaRef,
    pub fields: Vec<IpcField>,
    pub pairs: HeadingPairs,
}

/// What record batches are written to, one behind another.
pub(crate) trait BatchWriter {
    ghost use Rattle.std.specs.Prelude.{◌≤◌, length};

    fn write_batch(&mut self, batch: &RecordBatch) -> Result<(), IpcError>;

    fn set_schema_pairs(&mut self, pairs: Metadata);

    /// Gives the footer or the schema's message pairs.
    fn set_own_pairs(&mut self, pairs: Metadata) -> Result<(), IpcError>
        requires { length pairs.entries ≤ 1048576 };
}

impl BatchWriter for FileWriter<MemorySink> {
    fn write_batch(&mut self, batch: &RecordBatch) -> Result<(), IpcError> {
        self.write(batch, None)
    }

    fn set_schema_pairs(&mut self, pairs: Metadata) {
        self.set_custom_schema_metadata(pairs);
    }

    fn set_own_pairs(&mut self, pairs: Metadata) -> Result<(), IpcError> {
        self.set_footer_metadata(pairs)
    }
}

impl BatchWriter for StreamWriter<MemorySink> {
    fn write_batch(&mut self, batch: &RecordBatch) -> Result<(), IpcError> {
        self.write(batch, None)
    }

    fn set_schema_pairs(&mut self, pairs: Metadata) {
        self.set_custom_schema_metadata(pairs);
    }

    fn set_own_pairs(&mut self, pairs: Metadata) -> Result<(), IpcError> {
        self.set_message_metadata(pairs)
    }
}

/// How batches are written: of a dictionary that goes on, only what is new.
fn options() -> WriteOptions {
    WriteOptions {
        compression: None,
        metadata_limit: 0x7fff_ffff,
        deltas: true,
    }
}

/// A writer of a file that is not begun.
fn new_file(
    alloc: Global,
    schema: ArrowSchemaRef,
    fields: Vec<IpcField>,
) -> Result<FileWriter<MemorySink>, IpcError> {
    let sink = MemorySink::new(alloc, None, Vec::new(alloc));
    Ok(FileWriter::new(alloc, sink, schema, Some(fields), options())?)
}

/// A writer of a stream that is not begun.
fn new_stream(alloc: Global) -> Result<StreamWriter<MemorySink>, IpcError> {
    let sink = MemorySink::new(alloc, None, Vec::new(alloc));
    Ok(StreamWriter::new(alloc, sink, options())?)
}

fn give_schema_pairs<W: BatchWriter>(writer: &mut W, pairs: Option<Metadata>) {
    match pairs {
        None => {}
        Some(pairs) => writer.set_schema_pairs(pairs),
    }
}

fn give_own_pairs<W: BatchWriter>(writer: &mut W, pairs: Option<Metadata>) -> Result<(), IpcError> {
    match pairs {
        None => Ok(()),
        Some(pairs) => {
            if pairs.len() > MOST_PAIRS {
                return Err(IpcError::TooMany(Counted::Pairs));
            }
            writer.set_own_pairs(pairs)
        }
    }
}

/// A writer of a file that is begun.
pub(crate) fn file_writer(
    alloc: Global,
    heading: Heading,
) -> Result<FileWriter<MemorySink>, IpcError> {
    let mut writer = new_file(alloc, heading.schema, heading.fields)?;
    give_schema_pairs(&mut writer, heading.pairs.schema);
    give_own_pairs(&mut writer, heading.pairs.own)?;
    writer.start()?;
    Ok(writer)
}

/// The fields whose ids a stream has, or none for ids that count from 0.
fn chosen(fields: &[IpcField], keeps_ids: bool) -> Option<&[IpcField]> {
    if keeps_ids { Some(fields) } else { None }
}

/// A writer of a stream that is begun, with the ids of the heading, or with ids that count from 0.
pub(crate) fn stream_writer(
    alloc: Global,
    heading: Heading,
    keeps_ids: bool,
) -> Result<StreamWriter<MemorySink>, IpcError> {
    let mut writer = new_stream(alloc)?;
    give_schema_pairs(&mut writer, heading.pairs.schema);
    give_own_pairs(&mut writer, heading.pairs.own)?;
    let fields = chosen(heading.fields.as_slice(), keeps_ids);
    writer.start(&heading.schema, fields)?;
    Ok(writer)
}
