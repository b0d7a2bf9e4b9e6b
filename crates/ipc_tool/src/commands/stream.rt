//! stream [--columns LIST] [--limit N] [--raw] [NAME]: a file as a stream.
ghost use Rattle.std.specs.Prelude.{◌≡◌, ◌≤◌, IfErr, IfOk, IfSome, IsSome};
ghost use Rattle.arrow_spec.specs.Meaning.{file_table};
ghost use Rattle.ipc_io.specs.Outside.{SinkKept, SourceKept, Stands};
ghost use Rattle.ipc_bodies.specs.Encodings.{text_of};
ghost use Rattle.ipc_round_trip.specs.Below.{AddsPart, IsSmallRefusal, TranscodeCause, Transcodes};
ghost use Rattle.ipc_tool.specs.Commands.Stream.{stream_job, table_asked};
ghost use Rattle.ipc_words.specs.Views.{stream_view};

use crate::file_job::PutsFile;
use arrow_spec::IpcError;
use ipc_bodies::Encoding;
use ipc_io::{Sink, Source};
use ipc_round_trip::{Summary, transcode_as};
use ipc_words::Stream;
use std::alloc::Global;

// Transcodes the columns and rows asked for, in an encoding.
fn transcode_asked<S: Source, W: Sink>(
    alloc: Global,
    source: &mut S,
    sink: &mut W,
    asked: &Stream<'_>,
    encoding: Encoding,
) -> Result<Summary, IpcError>
    ensures whole { IfOk result (λ s. IfSome (S.content source.old) (λ b. Transcodes s b (table_asked (stream_view asked.now)) (text_of encoding) (W.written sink.old) (W.written sink.new))) }
    ensures part { IfErr result (λ e. IfSome (S.content source.old) (λ b. AddsPart e (W.wants sink.old) (W.wants sink.new) b (table_asked (stream_view asked.now)) (text_of encoding) (W.written sink.old) (W.written sink.new))) }
    ensures cause { IfErr result (λ e. TranscodeCause e (S.content source.old) (table_asked (stream_view asked.now)) (S.faults source.old) (S.faults source.new) (W.faults sink.old) (W.faults sink.new)) }
    ensures complete { IfSome (S.content source.old) (λ b. IsSome (file_table b (table_asked (stream_view asked.now))) → Stands (S.faults source.old) (S.faults source.new) → Stands (W.faults sink.old) (W.faults sink.new) → IfErr result (IsSmallRefusal b (table_asked (stream_view asked.now)))) }
    ensures kept { SourceKept S.content S.faults S.references source.old source.new }
    ensures sink { SinkKept W.faults W.wants W.references sink.old sink.new }
{
    let columns = match &asked.columns {
        Some(columns) => Some(columns.as_slice()),
        None => None,
    };
    transcode_as(alloc, source, sink, columns, asked.limit, encoding)
}

/// One stream that means the same, in the columns and rows asked for: as bytes, or as hex text and a line feed.
impl<'a> PutsFile for Stream<'a> {
    ghost job = { λ s. stream_job (stream_view s) };

    fn put<S: Source, W: Sink>(
        &self,
        alloc: Global,
        source: &mut S,
        sink: &mut W,
    ) -> Result<(), IpcError> {
        if self.raw {
            transcode_asked(alloc, source, sink, self, Encoding::Bytes)?;
            return Ok(());
        }
        transcode_asked(alloc, source, sink, self, Encoding::HexText)?;
        sink.put(b"\n")?;
        Ok(())
    }
}
