//! Runs that a crash cuts off while a log is open.
use crate::runs::{run_words, say_status};
use device_words::{Answer, Outside, rest, word};

/// The byte that stands wherever one was not on the disk.
fn fill(answer: &Answer, text: &str) -> u8 {
    let fill = answer.count(text);
    if fill > 255 {
        answer.refuse();
        return 0;
    }
    fill as u8
}

/// `crash COUNT FILL SIZE WORD..`: a run, how many changes it made of a log, and what a crash behind so many of them leaves of the first file: each
/// byte that was not on the disk is the second number, and there are so many bytes in all, or the nearest number that a crash may leave.
pub(crate) fn run_crashed(answer: &Answer, outside: &mut Outside, words: &[&str]) {
    let count = answer.count(word(words, 0));
    let fill = fill(answer, word(words, 1));
    let size = answer.count(word(words, 2));
    let mut devices = outside.devices(answer);
    let mut output = outside.output(answer);
    let status = run_words(answer, &mut devices, &mut output, rest(words, 3));
    say_status(answer, status, devices.notes.bytes());
    let Some(history) = devices.shelf.last() else {
        return answer.refuse();
    };
    let changes = history.len();
    answer.tell(format!(in answer.alloc(); ", {changes} changes"));
    if count > changes {
        return answer.refuse();
    }
    outside.leave(answer.list(history.crashed(answer.alloc(), count, fill, size)));
}
