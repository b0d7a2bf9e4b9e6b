//! Runs of the program.
use crate::attempts::run_each;
use crate::crashes::run_crashed;
use device_words::{Answer, Devices, NotingSink, Outside};
use ipc_tool::{FolderShelf, answer as answered, run};
use std::str::from_utf8;

/// The words, of which `''` is the empty one.
fn asked<'a>(answer: &Answer, words: &'a [&'a str]) -> Vec<&'a str> {
    let mut all = Vec::new(answer.alloc());
    for word in words {
        answer.done(all.push(if *word == "''" { "" } else { *word }));
    }
    all
}

fn owned(answer: &Answer, words: &[&str]) -> Vec<String> {
    let mut all = Vec::new(answer.alloc());
    for word in words {
        answer.done(all.push(answer.text(*word)));
    }
    all
}

/// `text`: what was put, as lines. Where the last one has no end, ` ..` stands behind it.
pub(crate) fn say_text(answer: &Answer, bytes: &[u8]) {
    let Ok(text) = from_utf8(bytes) else {
        return answer.refuse();
    };
    match text.strip_suffix('\n') {
        Some(lines) => answer.say(lines),
        None => {
            answer.say(text);
            answer.say(" ..");
        }
    }
}

/// A status, and what was noted.
pub(crate) fn say_status(answer: &Answer, status: u8, notes: &[u8]) {
    answer.tell(format!(in answer.alloc(); "{status}"));
    if !notes.is_empty() {
        answer.say(" ");
        say_text(answer, notes);
    }
}

/// A run over the files of the case.
pub(crate) fn run_words(
    answer: &Answer,
    devices: &mut Devices,
    output: &mut NotingSink,
    words: &[&str],
) -> u8 {
    let asked = asked(answer, words);
    run(
        answer.alloc(),
        &asked,
        &mut devices.shelf,
        &mut devices.input,
        output,
        &mut devices.notes,
    )
}

/// The same by the call that knows help.
fn answer_words(
    answer: &Answer,
    devices: &mut Devices,
    output: &mut NotingSink,
    words: &[&str],
) -> u8 {
    let asked = owned(answer, words);
    answered(
        answer.alloc(),
        &asked,
        &mut devices.shelf,
        &mut devices.input,
        output,
        &mut devices.notes,
    )
}

/// A run over the files of the current folder.
fn run_here(
    rt: &HostRuntime,
    answer: &Answer,
    devices: &mut Devices,
    output: &mut NotingSink,
    words: &[&str],
) -> u8 {
    let asked = asked(answer, words);
    run(
        answer.alloc(),
        &asked,
        &mut FolderShelf::new(rt),
        &mut devices.input,
        output,
        &mut devices.notes,
    )
}

/// A run by a name: its status, and what was noted.
fn run_once(
    rt: &HostRuntime,
    answer: &Answer,
    outside: &mut Outside,
    output: &mut NotingSink,
    name: &str,
    words: &[&str],
) {
    let mut devices = outside.devices(answer);
    *output = outside.output(answer);
    let status = match name {
        "answer" => answer_words(answer, &mut devices, output, words),
        "here" => run_here(rt, answer, &mut devices, output, words),
        _ => run_words(answer, &mut devices, output, words),
    };
    say_status(answer, status, devices.notes.bytes());
    outside.keep(answer, &devices.shelf);
}

/// Whether a call runs the program: `run WORD..`, `answer WORD..`, `here WORD..`, `each DEVICE WORD..` or `crash COUNT FILL SIZE WORD..`.
pub(crate) fn run_named(
    rt: &HostRuntime,
    answer: &Answer,
    outside: &mut Outside,
    output: &mut NotingSink,
    name: &str,
    words: &[&str],
) -> bool {
    match name {
        "run" | "answer" | "here" => run_once(rt, answer, outside, output, name, words),
        "each" => run_each(answer, outside, words),
        "crash" => run_crashed(answer, outside, words),
        _ => return false,
    }
    true
}
