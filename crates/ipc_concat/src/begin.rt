//! A stream to which the batches of files are added, as it is begun: with the schema and the pairs of the first file.
ghost use Rattle.std.specs.Prelude.{◌≤◌, List, ℕ, None, IfErr, IfOk, length};
ghost use Rattle.ipc_io.specs.Outside.{SinkKept};
ghost use Rattle.laws_walk.specs.Below.{FileSays, file_custom, meta_view};
ghost use Rattle.laws_walk.specs.Places.{schema_of_reader};
ghost use Rattle.laws_walk.specs.Sends.{IsWriter};
ghost use Rattle.ipc_concat.specs.Begins.{Begins};
ghost use Rattle.ipc_concat.specs.Concat.{SourceCause};
ghost use Rattle.ipc_concat.specs.Files.{IsUnread};

use crate::stream::JoinedStream;
use arrow_spec::IpcError;
use ipc_bodies::Encoding;
use ipc_io::Sink;
use laws_walk::{FileCursor, types_have_no_ids, writer_of};
use std::alloc::Global;

/// Puts the message of a file's schema.
pub(crate) fn begin_stream<W: Sink>(
    alloc: Global,
    sink: &mut W,
    reader: &FileCursor,
    encoding: Encoding,
) -> Result<JoinedStream, IpcError>
    requires unread { IsUnread None reader.now }
    requires few { length (file_custom reader.now.metadata) ≤ 1048576 }
    ensures begins { (b : List ℕ) → FileSays b (meta_view reader.now.metadata) (file_custom reader.now.metadata) → Begins result b reader.now encoding (W.written sink.old) (W.written sink.new) (W.wants sink.old) (W.wants sink.new) }
    ensures writer { IfOk result (λ s. IsWriter (schema_of_reader reader.now) encoding s.writer) }
    ensures cause { IfErr result (λ e. (reads reads' : ℕ) → SourceCause e reads reads' (W.faults sink.old) (W.faults sink.new)) }
    ensures sink { SinkKept W.faults W.wants W.references sink.old sink.new }
{
    let mut writer = writer_of(alloc, reader.metadata(), encoding)?;
    types_have_no_ids(reader.schema());
    writer.start(sink, reader.schema(), None)?;
    Ok(JoinedStream {
        writer,
        batches: 0,
        rows: 0,
    })
}
