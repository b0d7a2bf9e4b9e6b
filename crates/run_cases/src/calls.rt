//! The calls of cases.
use crate::cuts::cut_each;
use crate::endless::call_endless;
use crate::readers::read;
use crate::runs::{run_named, say_text};
use crate::streams::{read_stream, transcode_words};
use device_words::{
    Answer, Case, Names, NotingSink, Objects, Outside, bytes_of, call_sink, rest, say_compared,
    say_sum, word,
};
use std::alloc::Global;

/// Bytes that stay known from file to file, what stands around a run to the end of a case, and what the last run put.
#[derive(Drop)]
pub(crate) struct Calls {
    known: Names<u8>,
    outside: Outside,
    output: NotingSink,
    objects: Objects,
}

/// `output WORD..`: whether the last run put these bytes.
fn compare_output(answer: &Answer, known: &Names<u8>, output: &[u8], words: &[&str]) {
    let wanted = bytes_of(answer, known, words);
    say_compared(answer, output, &wanted);
}

/// `begins WORD..`: whether what the last run put begins with these bytes.
fn compare_front(answer: &Answer, known: &Names<u8>, output: &[u8], words: &[&str]) {
    let wanted = bytes_of(answer, known, words);
    let length = wanted.len().min(output.len());
    say_compared(answer, &output[..length], &wanted);
}

/// `holds NAME WORD..`: whether a file has these bytes.
fn compare_file(answer: &Answer, known: &Names<u8>, outside: &Outside, words: &[&str]) {
    let wanted = bytes_of(answer, known, rest(words, 1));
    match outside.file(word(words, 0)) {
        Some(bytes) => say_compared(answer, bytes, &wanted),
        None => answer.say("no such file"),
    }
}

/// Reads and compares, and refuses what is no call.
fn look(
    answer: &Answer,
    known: &Names<u8>,
    outside: &Outside,
    output: &NotingSink,
    name: &str,
    words: &[&str],
) {
    match name {
        "output" => compare_output(answer, known, output.bytes(), words),
        "begins" => compare_front(answer, known, output.bytes(), words),
        "holds" => compare_file(answer, known, outside, words),
        "sum" => say_sum(answer, output.bytes()),
        "text" => say_text(answer, output.bytes()),
        "longest" => answer.tell(format!(in answer.alloc(); "{}", output.longest())),
        "stream" => read_stream(answer, known, outside, words),
        "endless" => call_endless(answer, known, outside, words),
        _ => read(answer, known, outside, name, words),
    }
}

/// Whether a call puts bytes into an output that it makes.
fn put(
    answer: &Answer,
    known: &Names<u8>,
    outside: &Outside,
    output: &mut NotingSink,
    name: &str,
    words: &[&str],
) -> bool {
    match name {
        "transcode" => transcode_words(answer, known, outside, output, words),
        "cuts" => cut_each(answer, known, outside, output, words),
        "sink" => call_sink(answer, known, outside, output, words),
        _ => return false,
    }
    true
}

impl Case for Calls {
    fn new(alloc: Global) -> Calls {
        Calls {
            known: Names::new(alloc),
            outside: Outside::new(alloc),
            output: NotingSink::empty(alloc),
            objects: Objects::new(alloc),
        }
    }

    /// The known bytes stay.
    fn forget(&mut self, alloc: Global) {
        self.outside = Outside::new(alloc);
        self.output = NotingSink::empty(alloc);
        self.objects = Objects::new(alloc);
    }

    fn answer(&mut self, rt: &HostRuntime, answer: &Answer, words: &[&str]) {
        let (name, words) = (word(words, 0), rest(words, 1));
        let Calls {
            known,
            outside,
            output,
            objects,
        } = self;
        let is_made = known.know(answer, name, words)
            || outside.prepare(answer, known, name, words)
            || objects.call(answer, known, outside, name, words)
            || run_named(rt, answer, outside, output, name, words)
            || put(answer, known, outside, output, name, words);
        if !is_made {
            look(answer, known, outside, output, name, words);
        }
    }
}
