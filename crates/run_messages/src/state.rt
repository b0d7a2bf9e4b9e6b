//! What the calls of a case leave to the next ones, and which calls there are.
use crate::made::Made;
use crate::writers::{Writing, settle};
use crate::{compared, encoded, files, made, sent, streams, writers};
use case_words::{Answer, Case, rest, word};
use ipc_append::StreamReader;
use ipc_io::MemoryFeed;
use ipc_stream_writer::DictionaryTracker;
use message_words::Names;
use std::alloc::Global;

/// What the calls of one case leave to the next ones.
#[derive(Drop)]
pub struct Messages {
    names: Names,
    made: Made,
    writing: Writing,
    /// What a sink, a disk or an encoder had last.
    bytes: Vec<u8>,
    reader: Option<StreamReader<MemoryFeed>>,
    tracker: DictionaryTracker,
}

impl Case for Messages {
    fn new(alloc: Global) -> Messages {
        Messages {
            names: Names::new(alloc),
            made: Made::new(alloc),
            writing: Writing::new(),
            bytes: Vec::new(alloc),
            reader: None,
            tracker: DictionaryTracker::new(alloc, false, false),
        }
    }

    fn forget(&mut self, alloc: Global) {
        *self = Messages::new(alloc);
    }

    fn answer(&mut self, _: &HostRuntime, answer: &Answer, words: &[&str]) {
        let name = word(words, 0);
        let words = rest(words, 1);
        let Messages {
            names,
            made,
            writing,
            bytes,
            reader,
            tracker,
        } = self;
        if made::call(answer, names, made, name, words)
            || streams::call(answer, names, reader, name, words)
            || sent::call(answer, tracker, &mut made.arrays, name, words)
            || writers::call(answer, names, made, writing, bytes, name, words)
        {
            return;
        }
        // The other calls end the writer.
        settle(answer, writing, bytes);
        if !compared::call(answer, names, bytes, name, words)
            && !files::call(answer, names, bytes, name, words)
            && !encoded::call(answer, tracker, made, bytes, name, words)
        {
            answer.refuse();
        }
    }
}
