//! What a generated file, and the stream that it becomes, come to.
ghost use Rattle.std.specs.Prelude.{◌≡◌, ◌/◌, ◌≤ℤ◌, ℕ, None, Some, IfOk, IfErr, option_map, pos};
ghost use Rattle.arrow_spec.specs.Counts.{magnitude};
ghost use Rattle.arrow_spec.specs.Files.{ArrowTable, «all»};
ghost use Rattle.arrow_spec.specs.Meaning.{file_table};
ghost use Rattle.arrow_spec.specs.Streams.{stream_table};
ghost use Rattle.arrow_arrays.specs.PartsOf.{parts_of};
ghost use Rattle.ipc_generate.specs.Table.{generated_table, state};
ghost use Rattle.ipc_generate.specs.Written.{IsSmall};
ghost use Rattle.ipc_round_trip.specs.Line.{IsLineOf, RefusesLine, line_of};
ghost use Rattle.ipc_round_trip.specs.ReadBack.{IsStreamOfTable, first_parts};

use crate::memory::{BytesFeed, BytesSource};
use crate::number::number_in;
use arrow_arrays::Array;
use arrow_spec::IpcError;
use ipc_append::{WholeStream, read_whole};
use ipc_generate::{Collected, generate};
use ipc_transcode::{Summary, transcode};
use std::alloc::{AllocError, Global};

/// A stream with its summary.
#[derive(Drop)]
struct Transcoded {
    summary: Summary,
    stream: Vec<u8>,
}

/// A file as a stream.
fn stream_of(alloc: Global, file: Vec<u8>) -> Result<Transcoded, IpcError>
    ensures stream { IfOk result (λ x. (t : ArrowTable) → file_table file.items «all» ≡ Some t → IsStreamOfTable t x.summary x.stream.items) }
    ensures err { IfErr result (λ e. (t : ArrowTable) → file_table file.items «all» ≡ Some t → IsSmall e) }
{
    let mut source = BytesSource {
        bytes: file,
        fetched: 0,
    };
    let mut sink = Collected::new(alloc);
    let summary = transcode(alloc, &mut source, &mut sink, None, None)?;
    let stream = sink.into_bytes();
    Ok(Transcoded { summary, stream })
}

/// The first column of the first batch.
fn first_column(stream: &WholeStream) -> Option<&Array>
    ensures { option_map (λ a. parts_of a.now) result ≡ first_parts stream.now.batches.items }
{
    let batch = stream.batches.first()?;
    batch.arrays().first()
}

/// The number in row 1 of the first column of a stream's first batch. The stream is read to its end.
fn number_back(alloc: Global, stream: Vec<u8>) -> Result<i64, IpcError>
    requires { (seed : ℕ) × (stream_table stream.items None ≡ Some (generated_table seed)) }
    ensures number { IfOk result (λ n. (seed : ℕ) → stream_table stream.items None ≡ Some (generated_table seed) → n ≡ pos (state seed 2 / 2)) }
    ensures err { IfErr result (λ e. (seed : ℕ) → stream_table stream.items None ≡ Some (generated_table seed) → RefusesLine seed e) }
{
    let stream = read_whole(
        alloc,
        BytesFeed {
            bytes: stream,
            at: 0,
        },
    )?;
    match first_column(&stream) {
        Some(column) => Ok(number_in(column, 1)),
        None => unreachable!(),
    }
}

/// The line of these numbers.
fn line_of(
    alloc: Global,
    summary: &Summary,
    source: usize,
    first: i64,
) -> Result<Vec<u8>, AllocError>
    requires { pos 0 ≤ℤ first }
    ensures { IfOk result (λ text. text.items ≡ line_of summary.now.batches summary.now.rows source summary.now.bytes (magnitude first)) }
{
    let batches = summary.batches;
    let rows = summary.rows;
    let bytes = summary.bytes;
    let line = format!(in alloc;
        "batches {batches} rows {rows} source {source} stream {bytes} first {first}\n"
    )?;
    Ok(line.into_bytes())
}

/// One line on the table that is generated from a number, as a file that becomes a stream and is read back:
/// `batches B rows R source A stream C first F`, with the numbers of the stream's batches and rows, the bytes of the file and
/// of the stream, and the number in row 1 of column `n` of the first batch that was read back, and a line feed.
///
/// # Errors
///
/// `Memory`; `TooLarge` as of `generate` and of `transcode`; `TooMany(Dictionaries)` as of a reader of streams.
pub fn generated_line(alloc: Global, seed: u64) -> Result<Vec<u8>, IpcError>
    ensures line { IfOk result (λ text. IsLineOf seed text.items) }
    ensures refused { IfErr result (RefusesLine seed) }
{
    let file = generate(alloc, seed)?;
    let source = file.len();
    let Transcoded { summary, stream } = stream_of(alloc, file)?;
    let first = number_back(alloc, stream)?;
    Ok(line_of(alloc, &summary, source, first)?)
}
