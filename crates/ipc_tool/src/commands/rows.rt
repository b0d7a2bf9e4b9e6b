//! rows [NAME]: how many rows a file has.
ghost use Rattle.std.specs.Prelude.{◌≡◌, ◌≤◌, IfErr, IfOk, IfSome, Ok};
ghost use Rattle.ipc_io.specs.Outside.{SourceKept};
ghost use Rattle.ipc_tool.specs.Commands.Rows.{row_count_text, rows_job, rows_text_of};
ghost use Rattle.ipc_tool.specs.FileTasks.{IsStatusOf, PutCause};
ghost use Rattle.ipc_tool.specs.Refusal.{error_status};

use crate::file_job::PutsFile;
use arrow_spec::IpcError;
use ipc_io::{Sink, Source};
use ipc_round_trip::get_row_count;
use std::alloc::{AllocError, Global};

/// The number of a file's rows, and a line feed.
pub(crate) struct RowCount;

// A number of rows in decimal digits, and a line feed.
fn row_count_text(alloc: Global, rows: i64) -> Result<Vec<u8>, AllocError>
    ensures { IfOk result (λ text. text.items ≡ row_count_text rows) }
{
    let mut text = rows.to_string(alloc)?.into_bytes();
    text.push(b'\n')?;
    Ok(text)
}

fn rows_text_in<S: Source>(alloc: Global, source: &mut S) -> Result<Vec<u8>, IpcError>
    ensures said { IfOk result (λ text. IfSome (S.content source.old) (λ b. rows_text_of b ≡ Ok text.items)) }
    ensures cause { IfErr result (λ e. PutCause rows_job e (S.content source.old) (S.faults source.old) (S.faults source.new) 0 0) }
    ensures statuses { IfErr result (λ e. IsStatusOf rows_job (error_status e)) }
    ensures kept { SourceKept S.content S.faults S.references source.old source.new }
{
    let rows = get_row_count(alloc, source)?;
    let text = row_count_text(alloc, rows)?;
    Ok(text)
}

impl PutsFile for RowCount {
    ghost job = { λ _. rows_job };

    fn put<S: Source, W: Sink>(
        &self,
        alloc: Global,
        source: &mut S,
        sink: &mut W,
    ) -> Result<(), IpcError> {
        let text = rows_text_in(alloc, source)?;
        sink.put(&text)?;
        Ok(())
    }
}
