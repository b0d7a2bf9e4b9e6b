//! The tables of a record batch, before its body is looked at (Arrow Columnar Format, Message.fbs, RecordBatch).
ghost use Rattle.std.specs.Prelude.{◌≡◌, ◌^◌, ◌<◌, ℕ, List, Option, [], IfOk, IfErr, not};
ghost use Rattle.arrow_spec.specs.Readings.{Refuses, refusals};
ghost use Rattle.arrow_spec.specs.Flat.{Order};
ghost use Rattle.arrow_spec.specs.Kinds.{Fields};
ghost use Rattle.arrow_spec.specs.declared.message.MetadataVersion.{MetadataVersion};
ghost use Rattle.arrow_spec.specs.Arrays.{Dictionaries};
ghost use Rattle.arrow_spec.specs.Files.{none_negative, lengths_sum, batch_of_tables, to_read};
ghost use Rattle.ipc_schema.specs.Views.{header_of};
ghost use Rattle.ipc_read.specs.Batches.{columns_asked, MayBeRead};
ghost use Rattle.ipc_fields.specs.Causes.{IsOfBytes};

use crate::tables::{is_negative, magnitude};
use arrow_spec::{Feature, IpcBuffer, IpcError, OutOfSpecKind};
use ipc_schema::BatchHeader;

fn has_negative(buffers: &[IpcBuffer]) -> bool
    ensures { none_negative buffers.now ≡ not result }
{
    for buffer in buffers {
        if is_negative(buffer.length) {
            return true;
        }
    }
    false
}

/// The lengths of all buffers together.
fn lengths_sum(buffers: &[IpcBuffer]) -> u128
    ensures { result ≡ lengths_sum buffers.now }
{
    let mut sum: u128 = 0;
    for buffer in buffers {
        sum += magnitude(buffer.length) as u128;
    }
    sum
}

/// The rows of a batch, of which the buffers' lengths are together at most `most`.
pub(crate) fn row_count(header: &BatchHeader, most: u64) -> Result<usize, IpcError>
    ensures rows { IfOk result (MayBeRead (header_of header.now) most) }
    ensures err { IfErr result (λ e. (columns : Option (List ℕ)) (limit : Option ℕ) (order : Order) (fs : Fields) (d : Dictionaries) (version : MetadataVersion) (bytes : List ℕ) → Refuses e (refusals (batch_of_tables to_read (columns_asked columns order fs d most) version [] (header_of header.now) bytes limit))) }
    ensures small { IfOk result (λ n. n < 2 ^ 63) }
    ensures cause { IfErr result IsOfBytes }
{
    if header.compressed {
        return Err(IpcError::Unsupported(Feature::Compression));
    }
    if is_negative(header.length) || has_negative(&header.buffers) {
        return Err(IpcError::OutOfSpec(OutOfSpecKind::UnexpectedNegativeInteger));
    }
    let buffers_size = lengths_sum(&header.buffers);
    if buffers_size > most as u128 {
        return Err(IpcError::OutOfSpec(OutOfSpecKind::InvalidBuffersLength {
            buffers_size,
            file_size: most,
        }));
    }
    Ok(magnitude(header.length))
}
