//! Bytes that end early, at one place after another.
use crate::asked::bytes;
use crate::groups::{Group, add};
use crate::streams::{read_bytes, transcode_bytes};
use device_words::{Answer, Names, NotingSink, Outside, rest, word};

/// The answer on the first bytes.
fn answer_at(
    answer: &Answer,
    known: &Names<u8>,
    outside: &Outside,
    output: &mut NotingSink,
    words: &[&str],
    length: usize,
) {
    match word(words, 0) {
        "transcode" => {
            let mut bytes = bytes(answer, known, rest(words, 1));
            bytes.truncate(length);
            transcode_bytes(answer, outside, output, bytes, words);
        }
        "stream" => {
            let mut bytes = bytes(answer, known, rest(words, 2));
            bytes.truncate(length);
            read_bytes(answer, outside, bytes, rest(words, 1));
        }
        _ => answer.refuse(),
    }
}

fn say_group(answer: &Answer, group: &Group) {
    let (from, to) = (group.least, group.greatest);
    answer.tell(format!(in answer.alloc(); "{from} to {to}:"));
    for line in group.text.lines() {
        answer.tell(format!(in answer.alloc(); " {line};"));
    }
}

/// `cuts FROM TO CALL ..`: what a call gives of bytes of each of these lengths, the second among them.
pub(crate) fn cut_each(
    answer: &Answer,
    known: &Names<u8>,
    outside: &Outside,
    output: &mut NotingSink,
    words: &[&str],
) {
    let (from, to) = (answer.count(word(words, 0)), answer.count(word(words, 1)));
    let mut groups = Vec::new(answer.alloc());
    for length in from..=to {
        let at = Answer::new(answer.alloc());
        answer_at(&at, known, outside, output, rest(words, 2), length);
        add(answer, &mut groups, at, length);
    }
    let mut end = "";
    for group in &groups {
        answer.say(end);
        say_group(answer, group);
        end = "\n";
    }
}
