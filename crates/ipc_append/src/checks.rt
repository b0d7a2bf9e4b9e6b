//! What a file is looked at for before it goes on.
ghost use Rattle.arrow_spec.specs.Features.{chosen_floats};
ghost use Rattle.arrow_spec.specs.Readings.{free_of};
ghost use Rattle.std.specs.Prelude.{None, ◌≡◌, length, nat_le};
ghost use Rattle.ipc_append.specs.Appends.{cut_place};
ghost use Rattle.ipc_append.specs.Places.{Tells};
ghost use Rattle.ipc_streams.specs.Below.{IsReadable, file_custom, meta_view};

use crate::ends::last_end;
use arrow_spec::{Counted, Feature, IpcError};
use ipc_file_writer::WriteOptions;
use ipc_streams::{FileMetadata, check_columns, custom_metadata_of};

/// The most pairs of a footer.
const MOST_PAIRS: usize = 1_048_576;

/// The last place of a file.
const LAST_PLACE: u64 = 0x7fff_ffff_ffff_ffff;

/// Refuses columns that no array is of.
fn check_kinds(metadata: &FileMetadata) -> Result<(), IpcError>
    requires { IsReadable metadata.now }
    ensures { Tells result (free_of (chosen_floats None (meta_view metadata.now).schema.fields 0)) }
{
    check_columns(metadata, None)
}

/// Whether a footer's own pairs are few enough.
fn has_few_pairs(metadata: &FileMetadata) -> bool
    ensures { result ≡ nat_le (length (file_custom metadata.now)) 1048576 }
{
    match custom_metadata_of(metadata) {
        Some(pairs) => pairs.len() <= MOST_PAIRS,
        None => true,
    }
}

/// Where a file is cut, behind the farthest of its blocks.
///
/// # Errors
///
/// `Unsupported(BigEndianAppend)`, then `Unsupported(Compression)` where it is asked for, `Unsupported(Float)` and
/// `Unsupported(Decimal256)` for columns of such types, at any depth; then as of `last_end`; `TooMany(Pairs)` where the footer has
/// more than 1,048,576; `TooLarge` where the file would go on behind the place 2^63 - 1.
pub(crate) fn cut_place(options: &WriteOptions, metadata: &FileMetadata) -> Result<u64, IpcError>
    requires { IsReadable metadata.now }
    ensures { Tells result (cut_place options.now metadata.now) }
{
    if !metadata.ipc_schema.is_little_endian {
        return Err(IpcError::Unsupported(Feature::BigEndianAppend));
    }
    if options.compression.is_some() {
        return Err(IpcError::Unsupported(Feature::Compression));
    }
    check_kinds(metadata)?;
    let end = last_end(metadata)?;
    if !has_few_pairs(metadata) {
        return Err(IpcError::TooMany(Counted::Pairs));
    }
    if end > LAST_PLACE - 7 {
        return Err(IpcError::TooLarge);
    }
    Ok(end)
}
