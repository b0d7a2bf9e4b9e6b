//! schema [NAME]: the text of a file's schema.
ghost use Rattle.std.specs.Prelude.{◌≡◌, ◌≤◌, IfErr, IfOk, IfSome, Ok};
ghost use Rattle.arrow_spec.specs.SchemaText.{schema_text_of};
ghost use Rattle.ipc_io.specs.Outside.{SourceKept};
ghost use Rattle.ipc_tool.specs.Commands.Schema.{schema_job};
ghost use Rattle.ipc_tool.specs.FileTasks.{IsStatusOf, PutCause};
ghost use Rattle.ipc_tool.specs.Refusal.{error_status};

use crate::file_job::PutsFile;
use arrow_spec::IpcError;
use ipc_io::{Sink, Source};
use ipc_round_trip::{metadata_of, read_file_schema};
use ipc_text::schema_text;
use std::alloc::Global;

/// The text of a file's schema, of any types and in either byte order.
pub(crate) struct SchemaText;

fn schema_text_in<S: Source>(alloc: Global, source: &mut S) -> Result<Vec<u8>, IpcError>
    ensures said { IfOk result (λ text. IfSome (S.content source.old) (λ b. schema_text_of b ≡ Ok text.items)) }
    ensures cause { IfErr result (λ e. PutCause schema_job e (S.content source.old) (S.faults source.old) (S.faults source.new) 0 0) }
    ensures statuses { IfErr result (λ e. IsStatusOf schema_job (error_status e)) }
    ensures kept { SourceKept S.content S.faults S.references source.old source.new }
{
    let file = read_file_schema(alloc, source)?;
    let text = schema_text(alloc, &file.schema, &file.ipc_schema, metadata_of(&file))?;
    Ok(text)
}

impl PutsFile for SchemaText {
    ghost job = { λ _. schema_job };

    fn put<S: Source, W: Sink>(
        &self,
        alloc: Global,
        source: &mut S,
        sink: &mut W,
    ) -> Result<(), IpcError> {
        let text = schema_text_in(alloc, source)?;
        sink.put(&text)?;
        Ok(())
    }
}
