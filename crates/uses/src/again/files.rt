//! Files that are read one record batch after another and written again.
use crate::again::writers::{BatchWriter, Heading, HeadingPairs, file_writer, stream_writer};
use arrow_ipc::io::ipc::IpcError;
use arrow_ipc::io::ipc::read::{FileReader, read_file_metadata};
use arrow_ipc::io::{MemorySink, MemorySource};
use std::alloc::Global;

fn read_heading(alloc: Global, source: &mut MemorySource) -> Result<Heading, IpcError> {
    let metadata = read_file_metadata(alloc, source)?;
    Ok(Heading {
        schema: metadata.schema,
        fields: metadata.ipc_schema.fields,
        pairs: HeadingPairs {
            schema: metadata.custom_schema_metadata,
            own: metadata.custom_metadata,
        },
    })
}

/// Writes the record batches of a file.
fn write_batches<W: BatchWriter>(
    alloc: Global,
    source: &mut MemorySource,
    writer: &mut W,
) -> Result<(), IpcError> {
    let metadata = read_file_metadata(alloc, source)?;
    let reader = FileReader::new(alloc, source, metadata, None, None)?;
    for read in reader {
        let batch = read?;
        writer.write_batch(&batch)?;
    }
    Ok(())
}

/// A file with the same batches, ids and pairs.
pub(crate) fn file_again(alloc: Global, source: &mut MemorySource) -> Result<MemorySink, IpcError> {
    let heading = read_heading(alloc, source)?;
    let mut writer = file_writer(alloc, heading)?;
    write_batches(alloc, source, &mut writer)?;
    writer.finish()?;
    Ok(writer.into_inner())
}

/// A stream of a file's batches, with its pairs, and with ids that count from 0.
pub(crate) fn as_stream(alloc: Global, source: &mut MemorySource) -> Result<MemorySink, IpcError> {
    let heading = read_heading(alloc, source)?;
    let mut writer = stream_writer(alloc, heading, false)?;
    write_batches(alloc, source, &mut writer)?;
    writer.finish()?;
    Ok(writer.into_inner())
}
