//! csv [--columns LIST] [--limit N] [NAME]: a file's table as text of comma-separated fields.
ghost use Rattle.ipc_tool.specs.Commands.Csv.{csv_job};
ghost use Rattle.ipc_words.specs.Views.{csv_view};

use crate::file_job::PutsFile;
use arrow_spec::IpcError;
use ipc_csv::to_csv;
use ipc_io::{Sink, Source};
use ipc_words::Csv;
use std::alloc::Global;

/// The text of a file's table, in the columns and rows asked for.
impl<'a> PutsFile for Csv<'a> {
    ghost job = { λ s. csv_job (csv_view s) };

    fn put<S: Source, W: Sink>(
        &self,
        alloc: Global,
        source: &mut S,
        sink: &mut W,
    ) -> Result<(), IpcError> {
        let columns = match &self.columns {
            Some(columns) => Some(columns.as_slice()),
            None => None,
        };
        to_csv(alloc, source, sink, columns, self.limit)?;
        Ok(())
    }
}
