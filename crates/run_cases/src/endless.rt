//! Calls over inputs that never end.
use crate::runs::say_status;
use crate::streams::say_states;
use device_words::{Answer, LoopFeed, Names, Outside, bytes_of, halves, rest, word};
use ipc_tool::run;

/// What the program answers on such an input as hex text.
fn run_over(answer: &Answer, outside: &Outside, input: &mut LoopFeed) {
    let mut devices = outside.devices(answer);
    let mut output = outside.output(answer);
    let status = run(
        answer.alloc(),
        &["stream"],
        &mut devices.shelf,
        input,
        &mut output,
        &mut devices.notes,
    );
    say_status(answer, status, devices.notes.bytes());
}

/// `endless run WORD.. | WORD..` or `endless stream WORD.. | WORD..`: what the program, or the first call of a stream's reader, gives of the
/// bytes in front of the bar and of those behind it over and over, and how often these were begun.
pub(crate) fn call_endless(answer: &Answer, known: &Names<u8>, outside: &Outside, words: &[&str]) {
    let (front, piece) = halves(rest(words, 1), "|");
    let mut input = LoopFeed::new(
        bytes_of(answer, known, front),
        bytes_of(answer, known, piece),
    );
    match word(words, 0) {
        "run" => run_over(answer, outside, &mut input),
        "stream" => answer.done(say_states(answer, &mut input, &["1"])),
        _ => answer.refuse(),
    }
    let begun = input.begun();
    answer.tell(format!(in answer.alloc(); "\npiece {begun}"));
}
