//! log [--append] [--raw] TARGET: the table of a log as a stream, or the batches of the input's stream at a log's end.
ghost use Rattle.std.specs.Prelude.{◌≡◌, ◌≤◌, IfErr, IfSome, IsFalse, OnErr, OnOk, false, true};
ghost use Rattle.arrow_spec.specs.Files.{ArrowTable};
ghost use Rattle.ipc_io.specs.Outside.{PutHasCause, Puts, SinkKept, Stands};
ghost use Rattle.ipc_log_disk.specs.Crashes.{Among};
ghost use Rattle.ipc_log_streams.specs.Appends.{schema_of};
ghost use Rattle.ipc_log_streams.specs.Below.{WasSaid};
ghost use Rattle.ipc_log_streams.specs.Streams.{AddsLog, IsReadable, IsSmallRefusal, KeepsBytes, PutCause};
ghost use Rattle.ipc_words.specs.Views.{log_view};
ghost use Rattle.ipc_tool.specs.Commands.Log.{AddsShown, LogAppended, LogRefused, Survives, SurvivesAs, SurvivesOver, log_append_task, log_task, show_task};
ghost use Rattle.ipc_tool.specs.Commands.Stream.{shown_as};
ghost use Rattle.ipc_tool.specs.Outside.{outside_of};
ghost use Rattle.ipc_tool.specs.Tasks.{Does};

use crate::commands::append::{put_count, read_stream};
use crate::refusal::Refusal;
use arrow_spec::IpcError;
use ipc_bodies::Encoding;
use ipc_io::{Feed, Sink};
use ipc_log_disk::{LogDisk, VaultShelf};
use ipc_log_streams::{append_to_log, put_log_as};
use ipc_round_trip::WholeStream;
use ipc_words::Log;
use std::alloc::Global;

// Puts the table of the log on a vault as a stream, as bytes, or as hex text and a line feed. The vault is handed back with the answer.
fn put_shown<D: LogDisk, W: Sink>(
    alloc: Global,
    vault: D,
    output: &mut W,
    raw: bool,
) -> (D, Result<(), IpcError>)
    ensures done { OnOk result.1 (IfSome (D.content vault) (λ b. AddsLog b (shown_as raw) (W.written output.old) (W.written output.new))) }
    ensures left { IfErr result.1 (λ e. IfSome (D.content vault) (λ b. AddsShown e b raw (W.written output.old) (W.written output.new) (W.wants output.old) (W.wants output.new))) }
    ensures cause { IfErr result.1 (λ e. PutCause e (D.faults vault) (D.faults result.0) (W.faults output.old) (W.faults output.new)) }
    ensures complete { IfSome (D.content vault) (λ b. IsReadable b → Stands (D.faults vault) (D.faults result.0) → Stands (W.faults output.old) (W.faults output.new) → IfErr result.1 IsSmallRefusal) }
    ensures bytes { KeepsBytes result.1 (D.content vault) (D.content result.0) (D.faults vault) (D.faults result.0) (D.wants vault) (D.wants result.0) }
    ensures since { Among (D.images vault) (D.images_since result.0 (D.moment vault)) }
    ensures sink { SinkKept W.faults W.wants W.references output.old output.new }
{
    if raw {
        return put_log_as(alloc, vault, output, Encoding::Bytes);
    }
    let (vault, done) = put_log_as(alloc, vault, output, Encoding::HexText);
    match done {
        Ok(()) => match output.put(b"\n") {
            Ok(()) => (vault, Ok(())),
            Err(error) => (vault, Err(IpcError::from(error))),
        },
        Err(error) => (vault, Err(error)),
    }
}

// Puts the table of the log under a name as a stream.
fn show_log<H: VaultShelf, I: Feed, W: Sink>(
    alloc: Global,
    shelf: &mut H,
    input: &mut I,
    output: &mut W,
    target: &str,
    raw: bool,
) -> Result<(), Refusal>
    ensures does { Does (show_task raw target.now) result
        (outside_of H.held H.faults I.rest I.faults W.written W.faults W.wants shelf.old input.old output.old)
        (outside_of H.held H.faults I.rest I.faults W.written W.faults W.wants shelf.new input.new output.new) }
    ensures unread { input.new ≡ input.old }
    ensures survives { SurvivesAs false target.now
        (outside_of H.held H.faults I.rest I.faults W.written W.faults W.wants shelf.old input.old output.old) (H.left shelf.old) (H.left shelf.new) }
{
    let vault = shelf.open_vault(target)?;
    let (vault, done) = put_shown(alloc, vault, output, raw);
    shelf.close_vault(target, vault);
    done?;
    Ok(())
}

// Appends a stream to the log under a name, which is begun where nothing stands under it.
fn append_to_vault<H: VaultShelf>(
    alloc: Global,
    shelf: &mut H,
    target: &str,
    stream: &WholeStream,
) -> Result<(), Refusal>
    requires said { WasSaid (schema_of stream.now) }
    ensures appended { OnOk result (LogAppended target.now (H.held shelf.old) (H.held shelf.new) stream.now) }
    ensures refused { IfErr result (λ e. LogRefused target.now e (H.held shelf.old) (H.held shelf.new) stream.now (H.faults shelf.old) (H.faults shelf.new)) }
    ensures survives { SurvivesOver stream.now target.now (H.held shelf.old) (H.left shelf.old) (H.left shelf.new) }
    ensures reads { H.faults shelf.old ≤ H.faults shelf.new }
{
    let vault = shelf.open_vault(target)?;
    let (vault, done) = append_to_log(alloc, vault, stream);
    shelf.close_vault(target, vault);
    done?;
    Ok(())
}

// Appends the stream that the input's hex text stands for to the log under a name, and puts the number of its batches.
fn append_log<H: VaultShelf, I: Feed, W: Sink>(
    alloc: Global,
    shelf: &mut H,
    input: &mut I,
    output: &mut W,
    target: &str,
) -> Result<(), Refusal>
    ensures does { Does (log_append_task target.now) result
        (outside_of H.held H.faults I.rest I.faults W.written W.faults W.wants shelf.old input.old output.old)
        (outside_of H.held H.faults I.rest I.faults W.written W.faults W.wants shelf.new input.new output.new) }
    ensures survives { SurvivesAs true target.now
        (outside_of H.held H.faults I.rest I.faults W.written W.faults W.wants shelf.old input.old output.old) (H.left shelf.old) (H.left shelf.new) }
{
    let stream = read_stream(alloc, input)?;
    append_to_vault(alloc, shelf, target, &stream)?;
    put_count(alloc, output, stream.batches.len() as u64)
}

/// Puts the table of a log as a stream, or appends the input's stream to the log and puts the number of its batches. The log is closed before the answer.
pub(crate) fn log_target<H: VaultShelf, I: Feed, W: Sink>(
    alloc: Global,
    shelf: &mut H,
    input: &mut I,
    output: &mut W,
    asked: &Log<'_>,
) -> Result<(), Refusal>
    ensures does { Does (log_task (log_view asked.now)) result
        (outside_of H.held H.faults I.rest I.faults W.written W.faults W.wants shelf.old input.old output.old)
        (outside_of H.held H.faults I.rest I.faults W.written W.faults W.wants shelf.new input.new output.new) }
    ensures unread { IsFalse (log_task (log_view asked.now)).reads → input.new ≡ input.old }
    ensures survives { Survives (log_view asked.now)
        (outside_of H.held H.faults I.rest I.faults W.written W.faults W.wants shelf.old input.old output.old) (H.left shelf.old) (H.left shelf.new) }
{
    if asked.appends {
        return append_log(alloc, shelf, input, output, asked.target);
    }
    show_log(alloc, shelf, input, output, asked.target, asked.raw)
}
