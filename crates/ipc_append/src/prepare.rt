//! What is read of a file, and encoded for it, before anything is written.
ghost use Rattle.std.specs.Prelude.{◌≡◌, All, IfErr, IfOk};
ghost use Rattle.ipc_append.specs.Appended.{IsPrepared, NotPrepared};
ghost use Rattle.ipc_append.specs.Targets.{DoesNotTake, ReadsDictionaries, Takes};
ghost use Rattle.ipc_streams.specs.Below.{IsNatural, IsReadable};
ghost use Rattle.ipc_io.specs.Outside.{IsSize, SourceKept};

use crate::encode::{EncodedChunk, encode_batches};
use crate::stream::WholeStream;
use arrow_spec::IpcError;
use ipc_file_writer::{DictionaryTracker, WriteOptions};
use ipc_io::Source;
use ipc_streams::{FileMetadata, StreamMetadata, read_file_dictionaries, read_file_metadata};
use same_fields::have_same_fields;
use std::alloc::Global;

/// What a file says, and the messages that are to stand behind its own.
#[derive(Drop)]
pub(crate) struct Prepared {
    pub(crate) file: FileMetadata,
    pub(crate) chunks: Vec<EncodedChunk>,
}

/// The metadata of a file that takes a stream.
fn read_target<S: Source>(
    alloc: Global,
    source: &mut S,
    stream: &StreamMetadata,
) -> Result<FileMetadata, IpcError>
    ensures takes { IfOk result (λ m. Takes (S.content source.old) stream.now m) }
    ensures refused { IfErr result (λ e. DoesNotTake (S.content source.old) e stream.now (S.faults source.old) (S.faults source.new)) }
    ensures kept { SourceKept S.content S.faults S.references source.old source.new }
{
    let file = read_file_metadata(alloc, source)?;
    if !have_same_fields(&file.schema, &stream.schema) {
        return Err(IpcError::SchemaMismatch);
    }
    Ok(file)
}

/// A tracker that holds the dictionaries of a file, and replaces none.
fn read_tracker<S: Source>(
    alloc: Global,
    source: &mut S,
    file: &FileMetadata,
    options: &WriteOptions,
) -> Result<DictionaryTracker, IpcError>
    requires readable { IsReadable file.now }
    requires natural { All IsNatural file.now.dictionaries.items }
    requires whole { IsSize (S.content source.old) file.now.size }
    ensures reads { ReadsDictionaries result (S.content source.old) options.now file.now (S.faults source.old) (S.faults source.new) }
    ensures kept { SourceKept S.content S.faults S.references source.old source.new }
{
    let mut scratch = Vec::new(alloc);
    let dictionaries = read_file_dictionaries(alloc, source, file, &mut scratch)?;
    Ok(DictionaryTracker {
        dictionaries,
        cannot_replace: true,
        deltas: options.deltas,
    })
}

/// The messages of a stream's batches under the ids of a file, with what of their dictionaries the file does not have.
pub(crate) fn prepare<S: Source>(
    alloc: Global,
    source: &mut S,
    stream: &WholeStream,
    options: &WriteOptions,
) -> Result<Prepared, IpcError>
    ensures prepared { IfOk result (λ p. IsPrepared (S.content source.old) options.now stream.now p.file p.chunks.items) }
    ensures refused { IfErr result (λ e. NotPrepared (S.content source.old) e options.now stream.now (S.faults source.old) (S.faults source.new)) }
    ensures kept { SourceKept S.content S.faults S.references source.old source.new }
{
    let file = read_target(alloc, source, &stream.metadata)?;
    let mut tracker = read_tracker(alloc, source, &file, options)?;
    let chunks = encode_batches(
        alloc,
        stream.batches.as_slice(),
        file.ipc_schema.fields.as_slice(),
        &mut tracker,
        options,
    )?;
    Ok(Prepared { file, chunks })
}
