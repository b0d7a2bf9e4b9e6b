//! A file that is begun with a stream's schema.
ghost use Rattle.std.specs.Prelude.{◌≡◌, ◌≤◌, [], IfErr, IfOk, List, None, length, true};
ghost use Rattle.arrow_arrays.specs.Batches.{Batch};
ghost use Rattle.arrow_spec.specs.declared.error.IpcError.TheVariants.{Memory};
ghost use Rattle.ipc_fields.specs.IpcFields.{metadata_of};
ghost use Rattle.laws_walk.specs.Below.{is_new};
ghost use Rattle.ipc_io.specs.Outside.{SinkKept};
ghost use Rattle.ipc_append.specs.Below.{IsReadable, MayBeWritten};
ghost use Rattle.ipc_to_file.specs.Writing.{HasBegun, IsNewOf, OnlyPairs, StopsFile, file_options};

use arrow_spec::IpcError;
use arrow_types::Metadata;
use ipc_append::{FileCore, StreamMetadata, WriteOptions};
use ipc_io::Sink;
use std::alloc::Global;

/// How the file is written: dictionaries that go on are written as deltas.
fn file_options() -> WriteOptions
    ensures { result ≡ file_options }
{
    WriteOptions {
        compression: None,
        metadata_limit: 0x7fff_ffff,
        deltas: true,
    }
}

/// A writer with the pairs of its schema, where there are any.
fn with_schema_pairs(core: FileCore, pairs: Option<Metadata>) -> FileCore
    requires { core.pairs.schema ≡ None }
    ensures pairs { metadata_of result.pairs.schema ≡ metadata_of pairs }
    ensures footer { result.pairs.footer ≡ core.pairs.footer }
    ensures only { OnlyPairs core result }
{
    match pairs {
        None => core,
        Some(pairs) => {
            let mut core = core;
            core.set_custom_schema_metadata(pairs);
            core
        }
    }
}

/// A writer with the pairs of its footer, where there are any.
fn with_footer_pairs(core: FileCore, pairs: Option<Metadata>) -> FileCore
    requires new { is_new core.state ≡ true }
    requires none { core.pairs.footer ≡ None }
    requires few { length (metadata_of pairs) ≤ 1048576 }
    ensures pairs { metadata_of result.pairs.footer ≡ metadata_of pairs }
    ensures schema { result.pairs.schema ≡ core.pairs.schema }
    ensures only { OnlyPairs core result }
{
    match pairs {
        None => core,
        Some(pairs) => {
            let mut core = core;
            match core.set_footer_metadata(pairs) {
                Ok(()) => core,
                Err(_) => unreachable!(),
            }
        }
    }
}

/// A writer that has written nothing, of a stream's schema and pairs.
fn new_core(alloc: Global, metadata: StreamMetadata) -> Result<FileCore, IpcError>
    requires { MayBeWritten metadata }
    ensures new { IfOk result (λ c. IsNewOf metadata c) }
    ensures err { IfErr result (λ e. e ≡ Memory) }
{
    let core = FileCore::new(alloc, metadata.schema, None, file_options())?;
    let core = with_schema_pairs(core, metadata.custom_schema_metadata);
    Ok(with_footer_pairs(core, metadata.custom_metadata))
}

/// Begins a file with a stream's schema.
pub(crate) fn begin_file<W: Sink>(
    alloc: Global,
    sink: &mut W,
    metadata: StreamMetadata,
) -> Result<FileCore, IpcError>
    requires readable { IsReadable metadata }
    requires may { MayBeWritten metadata }
    ensures begun { IfOk result (λ c. HasBegun metadata c (W.written sink.old) (W.written sink.new)) }
    ensures stops { IfErr result (λ e. (bs : List Batch) → StopsFile e metadata bs (W.written sink.old) (W.written sink.new) (W.faults sink.old) (W.faults sink.new)) }
    ensures sink { SinkKept W.faults W.wants W.references sink.old sink.new }
{
    let mut core = new_core(alloc, metadata)?;
    core.start(sink)?;
    Ok(core)
}
