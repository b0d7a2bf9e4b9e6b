//! cat [--raw] NAME..: files of the same fields as one stream.
ghost use Rattle.std.specs.Prelude.{◌≡◌, ◌<◌, ◌≤◌, Any, IfErr, IfOk, IfSome, OnOk, length, map};
ghost use Rattle.ipc_io.specs.Outside.{Lacks, Rose, SinkKept, Stands};
ghost use Rattle.ipc_log_streams.specs.Below.{AllStand, ConcatCause, EachKept, IsSmallRefusal, MeanTables, told};
ghost use Rattle.ipc_words.specs.Views.{cat_view, texts};
ghost use Rattle.ipc_tool.specs.Commands.Cat.{AddsAll, AddsCat, AreHeld, NoneHasFailed, OneHasFailed, OpensNext, WhyNotOpened, cat_task};
ghost use Rattle.ipc_tool.specs.Outside.{outside_of};
ghost use Rattle.ipc_tool.specs.Tasks.{Does};

use crate::refusal::Refusal;
use arrow_spec::IpcError;
use ipc_bodies::Encoding;
use ipc_disk::PlaceShelf;
use ipc_io::{Feed, Shelf, Sink, Source};
use ipc_log_streams::concat_as;
use ipc_words::Cat;
use std::alloc::{AllocFailed, Global};

// Closes files. What they have failed is told by the shelf.
fn close_files<H: Shelf>(shelf: &mut H, mut files: Vec<H::File>)
    ensures held { H.held shelf.new ≡ H.held shelf.old }
    ensures later { H.faults shelf.old ≤ H.faults shelf.new }
    ensures rose { OneHasFailed (map H.File.faults files.items) → Rose (H.faults shelf.old) (H.faults shelf.new) }
{
    while let Some(file) = files.pop() {
        shelf.close_file(file);
    }
    files.destroy_empty();
}

// Opens one file more. It is closed where there is no memory for it.
fn open_next<H: Shelf>(shelf: &mut H, name: &str, files: &mut Vec<H::File>) -> Result<(), Refusal>
    ensures opened { OnOk result (OpensNext H.File.content H.File.faults (H.held shelf.old) name.now files.old.items files.new.items) }
    ensures refused { IfErr result (λ e. WhyNotOpened e (Lacks (H.held shelf.old) name.now) (H.faults shelf.old) (H.faults shelf.new)) }
    ensures held { H.held shelf.new ≡ H.held shelf.old }
    ensures later { H.faults shelf.old ≤ H.faults shelf.new }
{
    let file = shelf.open_file(name)?;
    if let Err(AllocFailed { value: file, .. }) = files.push(file) {
        shelf.close_file(file);
        return Err(Refusal::Ipc(IpcError::Memory));
    }
    Ok(())
}

// Opens what stands under each name, in order. Where one is not opened the others are closed.
fn open_names<H: Shelf>(
    alloc: Global,
    shelf: &mut H,
    names: &[&str],
) -> Result<Vec<H::File>, Refusal>
    ensures opened { IfOk result (λ v. AreHeld (H.held shelf.old) (texts names.now) (map H.File.content v.items)) }
    ensures no_faults { IfOk result (λ v. NoneHasFailed (map H.File.faults v.items)) }
    ensures refused { IfErr result (λ e. WhyNotOpened e (Any (Lacks (H.held shelf.old)) (texts names.now)) (H.faults shelf.old) (H.faults shelf.new)) }
    ensures held { H.held shelf.new ≡ H.held shelf.old }
    ensures later { H.faults shelf.old ≤ H.faults shelf.new }
{
    let mut files = Vec::new(alloc);
    for name in names {
        if let Err(refusal) = open_next(shelf, *name, &mut files) {
            close_files(shelf, files);
            return Err(refusal);
        }
    }
    Ok(files)
}

// Puts one stream of all files, as bytes, or as hex text and a line feed.
fn put_joined<S: Source, W: Sink>(
    alloc: Global,
    files: &mut [S],
    output: &mut W,
    raw: bool,
) -> Result<(), IpcError>
    requires some { 0 < length files.old }
    ensures done { OnOk result (IfSome (told (map S.content files.old)) (λ bs. AddsAll bs raw (W.written output.old) (W.written output.new))) }
    ensures left { IfErr result (λ e. IfSome (told (map S.content files.old)) (λ bs. AddsCat e bs raw (W.written output.old) (W.written output.new) (W.wants output.old) (W.wants output.new))) }
    ensures cause { IfErr result (λ e. ConcatCause e (map S.faults files.old) (map S.faults files.new) (W.faults output.old) (W.faults output.new)) }
    ensures complete { IfSome (told (map S.content files.old)) (λ bs. MeanTables bs → AllStand (map S.faults files.old) (map S.faults files.new) → Stands (W.faults output.old) (W.faults output.new) → IfErr result IsSmallRefusal) }
    ensures kept { EachKept S.content S.faults S.references files.old files.new }
    ensures sink { SinkKept W.faults W.wants W.references output.old output.new }
{
    if raw {
        concat_as(alloc, files, output, Encoding::Bytes)?;
        return Ok(());
    }
    concat_as(alloc, files, output, Encoding::HexText)?;
    output.put(b"\n")?;
    Ok(())
}

/// Puts one stream of the files under the names: all of them are opened before any is read, and closed before the answer.
pub(crate) fn cat_files<H: PlaceShelf, I: Feed, W: Sink>(
    alloc: Global,
    shelf: &mut H,
    input: &mut I,
    output: &mut W,
    asked: &Cat<'_>,
) -> Result<(), Refusal>
    ensures does { Does (cat_task (cat_view asked.now)) result
        (outside_of H.held H.faults I.rest I.faults W.written W.faults W.wants shelf.old input.old output.old)
        (outside_of H.held H.faults I.rest I.faults W.written W.faults W.wants shelf.new input.new output.new) }
    ensures unread { input.new ≡ input.old }
{
    let mut files = open_names(alloc, shelf, asked.names.as_slice())?;
    let done = put_joined(alloc, files.as_mut_slice(), output, asked.raw);
    close_files(shelf, files);
    done?;
    Ok(())
}
