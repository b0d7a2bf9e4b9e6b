//! What all walks have in common that send a file's batches: the columns asked for, how many blocks there are, and the writer.
ghost use Rattle.std.specs.Prelude.{◌≡◌, ◌≤◌, ◌<◌, ◌^◌, IfErr, IfOk, length};
ghost use Rattle.arrow_spec.specs.declared.error.IpcError.TheVariants.{Memory};
ghost use Rattle.laws_walk.specs.Below.{columns_of, file_custom, numbers_in};
ghost use Rattle.laws_walk.specs.Sends.{IsNewWriter, send_options};

use arrow_spec::IpcError;
use ipc_bodies::Encoding;
use ipc_fields::copy_if_any;
use ipc_reader::FileMetadata;
use ipc_stream_writer::{StreamCore, WriteOptions};
use std::alloc::Global;

/// How many record batches a file has.
pub fn batch_count(file: &FileMetadata) -> usize
    ensures count { result ≡ length file.now.blocks.items }
    ensures few { result < 2 ^ 63 }
{
    file.blocks.len()
}

/// The numbers of the columns that are asked for, none where all are.
pub fn numbers_asked(
    alloc: Global,
    columns: Option<&[usize]>,
) -> Result<Option<Vec<usize>>, IpcError>
    ensures same { IfOk result (λ n. numbers_in n ≡ columns_of columns.entry) }
    ensures err { IfErr result (λ e. e ≡ Memory) }
{
    match columns {
        None => Ok(None),
        Some(columns) => Ok(Some(columns.to_vec(alloc)?)),
    }
}

/// How the stream is written: what goes on of a dictionary is sent as a delta.
fn stream_options() -> WriteOptions
    ensures { result ≡ send_options }
{
    WriteOptions {
        deltas: true,
        ..WriteOptions::default()
    }
}

/// A writer of a stream with the pairs of a file.
pub fn writer_of(
    alloc: Global,
    file: &FileMetadata,
    encoding: Encoding,
) -> Result<StreamCore, IpcError>
    requires few { length (file_custom file.now) ≤ 1048576 }
    ensures new { IfOk result (λ w. IsNewWriter file.now encoding w) }
    ensures err { IfErr result (λ e. e ≡ Memory) }
{
    let mut writer = StreamCore::new_as(alloc, stream_options(), encoding)?;
    if let Some(pairs) = copy_if_any(alloc, &file.custom_schema_metadata)? {
        writer.set_custom_schema_metadata(pairs);
    }
    if let Some(pairs) = copy_if_any(alloc, &file.custom_metadata)? {
        writer.set_message_metadata(pairs)?;
    }
    Ok(writer)
}
