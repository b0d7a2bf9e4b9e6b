//! file [--raw] [NAME]: a stream as a file.
ghost use Rattle.std.specs.Prelude.{IfErr, IfOk, IfSome, IsSome, None};
ghost use Rattle.arrow_spec.specs.Streams.{stream_table};
ghost use Rattle.ipc_io.specs.Outside.{SinkKept, Stands};
ghost use Rattle.ipc_bodies.specs.Encodings.{text_of};
ghost use Rattle.ipc_to_file.specs.Below.{FeedKept};
ghost use Rattle.ipc_to_file.specs.Files.{IsRareRefusal, LeavesNone, MakesFile, RefusesFile, ToFileCause};
ghost use Rattle.ipc_tool.specs.Commands.File.{file_job};
ghost use Rattle.ipc_words.specs.Views.{file_view};

use crate::file_job::PutsFile;
use arrow_spec::IpcError;
use ipc_bodies::Encoding;
use ipc_io::{Sink, Source};
use ipc_round_trip::Summary;
use ipc_to_file::{SourceFeed, to_file_as};
use ipc_words::File;
use std::alloc::Global;

// Writes the stream that a source has as a file, in an encoding.
fn put_file<S: Source, W: Sink>(
    alloc: Global,
    source: &mut S,
    sink: &mut W,
    encoding: Encoding,
) -> Result<Summary, IpcError>
    ensures whole { IfOk result (λ s. IfSome (S.content source.old) (λ b. MakesFile s b (text_of encoding) (W.written sink.old) (W.written sink.new))) }
    ensures refused { IfErr result (λ e. IfSome (S.content source.old) (λ b. RefusesFile e b)) }
    ensures cause { IfErr result (λ e. ToFileCause e (S.faults source.old) (S.faults source.new) (W.faults sink.old) (W.faults sink.new)) }
    ensures leaves { IfErr result (λ e. LeavesNone e (W.written sink.old) (W.written sink.new)) }
    ensures complete { IfSome (S.content source.old) (λ b. IsSome (stream_table b None) → Stands (S.faults source.old) (S.faults source.new) → Stands (W.faults sink.old) (W.faults sink.new) → IfErr result (λ e. IsRareRefusal e b)) }
    ensures kept { FeedKept S.faults S.references source.old source.new }
    ensures sink { SinkKept W.faults W.wants W.references sink.old sink.new }
{
    let mut feed = SourceFeed::new(source);
    to_file_as(alloc, &mut feed, sink, encoding)
}

/// One file that means what the source's stream means: as bytes, or as hex text and a line feed.
impl<'a> PutsFile for File<'a> {
    ghost job = { λ s. file_job (file_view s) };

    fn put<S: Source, W: Sink>(
        &self,
        alloc: Global,
        source: &mut S,
        sink: &mut W,
    ) -> Result<(), IpcError> {
        if self.raw {
            put_file(alloc, source, sink, Encoding::Bytes)?;
            return Ok(());
        }
        put_file(alloc, source, sink, Encoding::HexText)?;
        sink.put(b"\n")?;
        Ok(())
    }
}
