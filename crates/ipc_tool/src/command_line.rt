//! A run over the words of a process, a shelf, an input and two outputs, and the texts of help and of the version.
ghost use Rattle.std.specs.Prelude.{◌≡◌, ◌⊎◌, ◌≤◌, IfOk, IfErr, ℕ, map, string_bytes};
ghost use Rattle.arrow_spec.specs.declared.error.IpcError.TheVariants.{Memory};
ghost use Rattle.ipc_words.specs.Views.{texts};
ghost use Rattle.ipc_tool.specs.CommandLine.{IsAnswer, IsShown, IsStatus};
ghost use Rattle.ipc_tool.specs.Notes.{IsNotedAs, noted_of};
ghost use Rattle.ipc_tool.specs.Outside.{outside_of};
ghost use Rattle.ipc_tool.specs.declared.refusal.Refusal.TheVariants.{Ipc, Words};

use crate::note::note_refusal;
use crate::program::run;
use crate::refusal::Refusal;
use arrow_spec::IpcError;
use ipc_io::{Feed, Sink};
use ipc_log_disk::VaultShelf;
use ipc_system::{FolderShelf, InputFeed, OutputSink};
use ipc_words::help_text;
use std::alloc::{AllocError, Global};
use std::env;
use std::io::ErrorKind;

// The words, lent.
fn views<'a>(alloc: Global, words: &'a [String]) -> Result<Vec<&'a str>, AllocError>
    ensures { IfOk result (λ v. texts v.items ≡ map string_bytes words.now) }
{
    let mut all = Vec::new(alloc);
    for word in words {
        all.push(word.as_str())?;
    }
    Ok(all)
}

// Notes a refusal, and gives its status.
fn refuse<N: Sink>(refusal: Refusal, notes: &mut N) -> u8
    ensures { IsNotedAs result refusal
        (noted_of N.written N.faults N.wants notes.old)
        (noted_of N.written N.faults N.wants notes.new) }
{
    note_refusal(notes, &refusal);
    refusal.status()
}

// Puts a text of help or of the version.
fn show<W: Sink, N: Sink>(text: &str, output: &mut W, notes: &mut N) -> u8
    ensures { IsShown result text.now (W.written output.old) (W.written output.new) (W.faults output.old) (W.faults output.new)
        (noted_of N.written N.faults N.wants notes.old)
        (noted_of N.written N.faults N.wants notes.new) }
{
    match output.put(text.as_bytes()) {
        Ok(()) => 0,
        Err(error) => refuse(Refusal::from(error), notes),
    }
}

/// Answers what the words ask for: puts the text of help or of the version, where that is asked for, and else runs. Then the status is that of `run`.
pub fn answer<H: VaultShelf, I: Feed, W: Sink, N: Sink>(
    alloc: Global,
    words: &[String],
    shelf: &mut H,
    input: &mut I,
    output: &mut W,
    notes: &mut N,
) -> u8
    ensures { IsAnswer result (map string_bytes words.now)
        (outside_of H.held H.faults I.rest I.faults W.written W.faults W.wants shelf.old input.old output.old)
        (outside_of H.held H.faults I.rest I.faults W.written W.faults W.wants shelf.new input.new output.new)
        (noted_of N.written N.faults N.wants notes.old)
        (noted_of N.written N.faults N.wants notes.new) }
{
    let asked = match views(alloc, words) {
        Ok(asked) => asked,
        Err(error) => return refuse(Refusal::from(error), notes),
    };
    match help_text(alloc, &asked) {
        Ok(Some(text)) => show(&text, output, notes),
        Ok(None) => run(alloc, &asked, shelf, input, output, notes),
        Err(error) => refuse(Refusal::from(error), notes),
    }
}

// The words behind the program's name.
fn words(rt: &HostRuntime) -> Result<Vec<String>, Refusal>
    ensures { IfErr result (λ e. (e ≡ Words) ⊎ (e ≡ Ipc Memory)) }
{
    let arguments = match env::args(rt) {
        Ok(arguments) => arguments,
        Err(error) if error.kind() == ErrorKind::OutOfMemory => {
            return Err(Refusal::Ipc(IpcError::Memory));
        }
        Err(_) => return Err(Refusal::Words),
    };
    let mut all = Vec::new(rt.alloc());
    for word in arguments.skip(1) {
        all.push(word)?;
    }
    Ok(all)
}

/// The status of the process: that of the words behind its name over the current folder and the standard streams.
pub fn status_of_process(rt: &HostRuntime) -> u8
    ensures { IsStatus result }
{
    let mut notes = OutputSink::new(rt.stderr());
    match words(rt) {
        Ok(words) => answer(
            rt.alloc(),
            &words,
            &mut FolderShelf::new(rt),
            &mut InputFeed::new(rt.stdin()),
            &mut OutputSink::new(rt.stdout()),
            &mut notes,
        ),
        Err(refusal) => refuse(refusal, &mut notes),
    }
}
