//! scan FILTER [--columns LIST] [--raw] [NAME]: the rows of a file that meet a filter, as a stream.
ghost use Rattle.std.specs.Prelude.{IfErr, IfOk, IfSome, IsSome};
ghost use Rattle.ipc_bodies.specs.Encodings.{text_of};
ghost use Rattle.ipc_io.specs.Outside.{SinkKept, SourceKept, Stands};
ghost use Rattle.ipc_scan.specs.Below.{AddsPart, IsSmallRefusal, ScanCause, Scans, scan_table};
ghost use Rattle.ipc_tool.specs.Commands.Scan.{scan_asked, scan_job};
ghost use Rattle.ipc_words.specs.Views.{scan_view};

use crate::file_job::PutsFile;
use arrow_spec::IpcError;
use ipc_bodies::Encoding;
use ipc_io::{Sink, Source};
use ipc_scan::{Summary, scan_as};
use ipc_words::Scan;
use std::alloc::Global;

// Scans for the rows and the columns asked for, in an encoding.
fn put_scan<S: Source, W: Sink>(
    alloc: Global,
    source: &mut S,
    sink: &mut W,
    asked: &Scan<'_>,
    encoding: Encoding,
) -> Result<Summary, IpcError>
    ensures whole { IfOk result (λ s. IfSome (S.content source.old) (λ b. Scans s b (scan_asked (scan_view asked.now)) (text_of encoding) (W.written sink.old) (W.written sink.new))) }
    ensures part { IfErr result (λ e. IfSome (S.content source.old) (λ b. AddsPart e (W.wants sink.old) (W.wants sink.new) b (scan_asked (scan_view asked.now)) (text_of encoding) (W.written sink.old) (W.written sink.new))) }
    ensures cause { IfErr result (λ e. ScanCause e (S.content source.old) (scan_asked (scan_view asked.now)) (S.faults source.old) (S.faults source.new) (W.faults sink.old) (W.faults sink.new)) }
    ensures complete { let q = scan_asked (scan_view asked.now) in
        IfSome (S.content source.old) (λ b. IsSome (scan_table b q.filter q.columns) → Stands (S.faults source.old) (S.faults source.new) → Stands (W.faults sink.old) (W.faults sink.new) → IfErr result (IsSmallRefusal b q)) }
    ensures kept { SourceKept S.content S.faults S.references source.old source.new }
    ensures sink { SinkKept W.faults W.wants W.references sink.old sink.new }
{
    let columns = match &asked.columns {
        Some(columns) => Some(columns.as_slice()),
        None => None,
    };
    scan_as(alloc, source, sink, asked.filter, columns, encoding)
}

/// One stream of the rows that meet the filter, in the columns asked for: as bytes, or as hex text and a line feed.
impl<'a> PutsFile for Scan<'a> {
    ghost job = { λ s. scan_job (scan_view s) };

    fn put<S: Source, W: Sink>(
        &self,
        alloc: Global,
        source: &mut S,
        sink: &mut W,
    ) -> Result<(), IpcError> {
        if self.raw {
            put_scan(alloc, source, sink, self, Encoding::Bytes)?;
            return Ok(());
        }
        put_scan(alloc, source, sink, self, Encoding::HexText)?;
        sink.put(b"\n")?;
        Ok(())
    }
}
