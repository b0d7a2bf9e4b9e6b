//! From a file to text of comma-separated fields (Arrow Columnar Format, IPC File Format).
ghost use Rattle.std.specs.Prelude.{◌≡◌, ◌≤◌, Ok, IfOk, IfErr, IfSome, IsSome, max};
ghost use Rattle.arrow_spec.specs.Meaning.{file_table};
ghost use Rattle.arrow_spec.specs.declared.error.IpcError.TheVariants.{Memory};
ghost use Rattle.csv_texts.specs.Texts.{printable};
ghost use Rattle.ipc_io.specs.Outside.{SinkKept, SourceKept, Stands};
ghost use Rattle.laws_walk.specs.Below.{columns_of, asked, IsReadable};
ghost use Rattle.laws_walk.specs.Fetching.{FileFetched};
ghost use Rattle.ipc_csv.specs.Printing.{CallCause, NotSelected, PrintsFile, Selected};
ghost use Rattle.ipc_csv.specs.Prints.{AddsPart, PrintCause, Prints};

use crate::print::print_table;
use arrow_spec::{Feature, IpcError};
use csv_rows::are_nested;
use ipc_io::{Sink, Source};
use laws_walk::{
    FileCursor, FileMetadata, ProjectionInfo, Summary, check_columns, numbers_asked, projection_of,
    read_file_metadata,
};
use std::alloc::Global;

/// What is read for the columns that are asked for.
fn selection(
    alloc: Global,
    file: &FileMetadata,
    columns: Option<&[usize]>,
) -> Result<Option<ProjectionInfo>, IpcError>
    requires readable { IsReadable file.now }
    ensures selected { IfOk result (Selected file.now (columns_of columns.entry)) }
    ensures refused { IfErr result (λ e. NotSelected e file.now (columns_of columns.entry)) }
{
    let numbers = numbers_asked(alloc, columns)?;
    let projection = projection_of(alloc, &file.schema, numbers)?;
    check_columns(file, projection.as_ref())?;
    Ok(projection)
}

/// Reads a file, and prints its table, in the columns and the rows that are asked for.
fn print_file<S: Source, W: Sink>(
    alloc: Global,
    source: &mut S,
    sink: &mut W,
    columns: Option<&[usize]>,
    limit: Option<usize>,
) -> Result<Summary, IpcError>
    ensures prints { IfSome (S.content source.old) (λ b. PrintsFile result b (asked (columns_of columns.entry) limit) (W.written sink.old) (W.written sink.new)) }
    ensures cause { IfErr result (λ e. CallCause e (S.faults source.old) (S.faults source.new) (W.faults sink.old) (W.faults sink.new)) }
    ensures fetched { FileFetched (S.content source.old) (asked (columns_of columns.entry) limit) (S.fetched source.old) (S.fetched source.new) }
    ensures kept { SourceKept S.content S.faults S.references source.old source.new }
    ensures longest { W.longest sink.new ≤ max (W.longest sink.old) 65536 }
    ensures sink { SinkKept W.faults W.wants W.references sink.old sink.new }
{
    let file = read_file_metadata(alloc, source)?;
    let projection = selection(alloc, &file, columns)?;
    let mut reader = FileCursor::new_with_projection_info(alloc, file, projection, limit);
    if are_nested(reader.schema()) {
        return Err(IpcError::Unsupported(Feature::Nested));
    }
    print_table(alloc, source, sink, &mut reader)
}

/// Reads a file from the source and adds the text of its table to the sink: a row of the columns' names, and then each row.
///
/// The columns are those of the numbers in `columns`, in their order, or all; the rows are at most `limit`, counted over all
/// record batches. Rows are as the crate `csv` writes them: fields with a comma between them and a line feed behind them, in
/// double quotes where they need it. Where no column is asked for nothing is put. A cell's text is
///
/// - empty for null, `true` and `false` for truth values,
/// - a decimal number for whole numbers, dates, times, timestamps and durations,
/// - for decimals of a scale from 1 to 38 a number with a point and so many digits behind it, and above 38 the number, `E-` and
///   the scale,
/// - for intervals their numbers with a space between them,
/// - a text as it is, and bytes as lower-case hex,
/// - for a dictionary that of its value.
///
/// One record batch is held at a time, and text is put in pieces of at most 65,536 bytes.
///
/// # Errors
///
/// As of `read_file_metadata`; `Projection` for the first number of `columns` that is no column's or that stood before;
/// `Unsupported(Float)` and `Unsupported(Decimal256)` by the kinds of the columns, then `Unsupported(Nested)` where a column, or
/// the values of a column that is a dictionary, is of lists, maps, structs or unions; as of `read_file_dictionaries`, and as of
/// `read_batch` for each block; `ReadFault`, `WriteFault` and `Memory`, also for a text of 2^128 bytes. Behind a refusal the sink
/// has nothing more than before, or the header and the rows of the record batches before the one that is refused; behind
/// `WriteFault` and `Memory`, a part of such a text.
pub fn to_csv<S: Source, W: Sink>(
    alloc: Global,
    source: &mut S,
    sink: &mut W,
    columns: Option<&[usize]>,
    limit: Option<usize>,
) -> Result<Summary, IpcError>
    ensures whole { IfOk result (λ s. IfSome (S.content source.old) (λ b. Prints s b (asked (columns_of columns.entry) limit) (W.written sink.old) (W.written sink.new))) }

    // A refusal has its cause, and leaves nothing or a front.
    ensures cause { IfErr result (λ e. PrintCause e (S.content source.old) (asked (columns_of columns.entry) limit) (S.faults source.old) (S.faults source.new) (W.faults sink.old) (W.faults sink.new)) }
    ensures part { IfErr result (λ e. IfSome (S.content source.old) (λ b. AddsPart e b (asked (columns_of columns.entry) limit) (W.written sink.old) (W.written sink.new))) }

    // A file that means a table, in columns of which none is nested, is printed where no device fails and memory is there.
    ensures complete { let r = asked (columns_of columns.entry) limit in
        IfSome (S.content source.old) (λ b. IsSome (file_table b r) → printable b r ≡ Ok tt → Stands (S.faults source.old) (S.faults source.new) → Stands (W.faults sink.old) (W.faults sink.new) → IfErr result (λ e. e ≡ Memory)) }

    // Of a file that means a table no more is fetched than the request needs, and no buffer of what is read for no rows.
    ensures fetched { FileFetched (S.content source.old) (asked (columns_of columns.entry) limit) (S.fetched source.old) (S.fetched source.new) }
    ensures longest { W.longest sink.new ≤ max (W.longest sink.old) 65536 }
    ensures kept { SourceKept S.content S.faults S.references source.old source.new }
    ensures sink { SinkKept W.faults W.wants W.references sink.old sink.new }
{
    print_file(alloc, source, sink, columns, limit)
}
