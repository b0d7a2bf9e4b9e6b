//! A disk, a source, a feed, a shelf and a sink, whose calls are made one by one.
use crate::comparison::say_compared;
use crate::names::{Names, add, bytes_of};
use crate::outside::Outside;
use crate::sink::NotingSink;
use case_words::{Answer, halves, rest, say_bytes, word};
use ipc_disk::{Disk, DiskTail, MemoryDisk, MemoryShelf, RefusedDisk};
use ipc_io::{Feed, Got, MemoryFeed, MemorySource, Shelf, Sink, Source};
use std::alloc::Global;
use std::fmt::Display;

/// Objects over memory that a case makes.
pub struct Objects {
    disk: MemoryDisk,
    source: MemorySource,
    feed: MemoryFeed,
    shelf: MemoryShelf,
}

impl Drop for Objects {
    fn drop(self) {
        let Objects {
            disk,
            source,
            feed,
            shelf,
        } = self;
        drop(disk);
        drop(source);
        drop(feed);
        drop(shelf);
    }
}

impl Objects {
    /// No bytes anywhere.
    pub fn new(alloc: Global) -> Objects {
        Objects {
            disk: MemoryDisk::new(Vec::new(alloc), Vec::new(alloc), Vec::new(alloc)),
            source: MemorySource::new(Vec::new(alloc), Vec::new(alloc), Vec::new(alloc)),
            feed: MemoryFeed::new(Vec::new(alloc), 1, Vec::new(alloc)),
            shelf: MemoryShelf::new(alloc, Vec::new(alloc), Vec::new(alloc)),
        }
    }

    /// Whether a call is one of an object.
    pub fn call(
        &mut self,
        answer: &Answer,
        known: &Names<u8>,
        outside: &Outside,
        name: &str,
        words: &[&str],
    ) -> bool {
        match name {
            "disk" => call_disk(answer, known, outside, &mut self.disk, words),
            "source" => call_source(answer, known, outside, &mut self.source, words),
            "feed" => call_feed(answer, known, outside, &mut self.feed, words),
            "shelf" => call_shelf(answer, outside, &mut self.shelf, words),
            _ => return false,
        }
        true
    }
}

fn say_error<E: Display + Drop>(answer: &Answer, error: E) {
    answer.tell(format!(in answer.alloc(); "{error}"));
}

fn say_done<E: Display + Drop>(answer: &Answer, done: Result<(), E>) {
    match done {
        Ok(()) => answer.say("done"),
        Err(error) => say_error(answer, error),
    }
}

fn say_size<S: Source>(answer: &Answer, source: &mut S) {
    match source.size() {
        Ok(size) => answer.tell(format!(in answer.alloc(); "{size}")),
        Err(error) => say_error(answer, error),
    }
}

/// `read AT`: three bytes from a place on.
fn say_read<S: Source>(answer: &Answer, source: &mut S, words: &[&str]) {
    let at = answer.count(word(words, 0)) as u64;
    let mut out = [0; 3];
    match source.read_at(at, &mut out) {
        Ok(Got::Full) => say_bytes(answer, &out),
        Ok(Got::Short) => answer.say("short"),
        Err(error) => say_error(answer, error),
    }
}

/// `write AT WORD..`
fn write(answer: &Answer, known: &Names<u8>, disk: &mut MemoryDisk, words: &[&str]) {
    let at = answer.count(word(words, 0));
    let bytes = bytes_of(answer, known, rest(words, 1));
    if at > disk.bytes().len() {
        return answer.refuse();
    }
    say_done(answer, disk.write_at(at as u64, &bytes));
}

/// `cut COUNT`
fn cut(answer: &Answer, disk: &mut MemoryDisk, words: &[&str]) {
    let count = answer.count(word(words, 0));
    if count > disk.bytes().len() {
        return answer.refuse();
    }
    say_done(answer, disk.cut(count as u64));
}

fn put_each<D: Disk>(answer: &Answer, known: &Names<u8>, tail: &mut DiskTail<D>, words: &[&str]) {
    let mut between = "";
    for word in words {
        let mut bytes = Vec::new(answer.alloc());
        add(answer, known, &mut bytes, *word);
        answer.say(between);
        say_done(answer, tail.put(&bytes));
        between = ", ";
    }
}

/// What is put behind a disk, each word by itself. Behind `off` the disk is cut off where the tail ends.
fn follow<D: Disk + Drop>(
    answer: &Answer,
    known: &Names<u8>,
    made: Result<DiskTail<D>, RefusedDisk<D>>,
    words: &[&str],
) {
    let (puts, _) = halves(words, "off");
    match made {
        Ok(mut tail) => {
            put_each(answer, known, &mut tail, puts);
            if puts.len() < words.len() {
                answer.say(if puts.is_empty() { "" } else { ", " });
                match tail.cut_off() {
                    Ok(_) => answer.say("done"),
                    Err(refused) => say_error(answer, refused.error),
                }
            }
        }
        Err(refused) => say_error(answer, refused.error),
    }
}

/// `tail_at COUNT WORD..`
fn tail_at(answer: &Answer, known: &Names<u8>, disk: &mut MemoryDisk, words: &[&str]) {
    let count = answer.count(word(words, 0));
    if count > disk.bytes().len() {
        return answer.refuse();
    }
    follow(
        answer,
        known,
        DiskTail::cut_to(disk, count as u64),
        rest(words, 1),
    );
}

/// `holds WORD..`
fn holds(answer: &Answer, known: &Names<u8>, disk: &MemoryDisk, words: &[&str]) {
    let wanted = bytes_of(answer, known, words);
    say_compared(answer, disk.bytes(), &wanted);
}

/// `sink new`, `sink put WORD..`: the sink is that of the last run.
pub fn call_sink(
    answer: &Answer,
    known: &Names<u8>,
    outside: &Outside,
    sink: &mut NotingSink,
    words: &[&str],
) {
    match word(words, 0) {
        "new" => *sink = outside.output(answer),
        "put" => {
            let bytes = bytes_of(answer, known, rest(words, 1));
            say_done(answer, sink.put(&bytes));
        }
        _ => answer.refuse(),
    }
}

/// `disk new WORD..`: a disk of these bytes, which fails as a file does. Its calls are `disk CALL ..`.
fn call_disk(
    answer: &Answer,
    known: &Names<u8>,
    outside: &Outside,
    disk: &mut MemoryDisk,
    words: &[&str],
) {
    let (name, words) = (word(words, 0), rest(words, 1));
    match name {
        "new" => {
            let bytes = bytes_of(answer, known, words);
            *disk = outside.disk(answer, bytes);
        }
        "size" => say_size(answer, disk),
        "read" => say_read(answer, disk, words),
        "write" => write(answer, known, disk, words),
        "cut" => cut(answer, disk, words),
        "tail" => follow(answer, known, DiskTail::new(disk), words),
        "tail_at" => tail_at(answer, known, disk, words),
        "holds" => holds(answer, known, disk, words),
        _ => answer.refuse(),
    }
}

/// `source new WORD..`: a source of these bytes, which fails as a file does. Its calls are `source CALL ..`.
fn call_source(
    answer: &Answer,
    known: &Names<u8>,
    outside: &Outside,
    source: &mut MemorySource,
    words: &[&str],
) {
    let (name, words) = (word(words, 0), rest(words, 1));
    match name {
        "new" => {
            let bytes = bytes_of(answer, known, words);
            *source = outside.source(answer, bytes);
        }
        "size" => say_size(answer, source),
        "read" => say_read(answer, source, words),
        "lent" => {
            let mut lent = source;
            say_read(answer, &mut lent, words);
        }
        _ => answer.refuse(),
    }
}

/// `feed pull COUNT`: the next bytes, four at most.
fn pull(answer: &Answer, feed: &mut MemoryFeed, words: &[&str]) {
    let count = answer.count(word(words, 0)).min(4);
    let mut out = [0; 4];
    match feed.pull(&mut out[..count]) {
        Ok(count) => say_bytes(answer, &out[..count]),
        Err(error) => say_error(answer, error),
    }
}

/// `feed new WORD..`: a feed of these bytes, which fails as the input does. Its call is `feed pull COUNT`.
fn call_feed(
    answer: &Answer,
    known: &Names<u8>,
    outside: &Outside,
    feed: &mut MemoryFeed,
    words: &[&str],
) {
    match word(words, 0) {
        "new" => {
            let bytes = bytes_of(answer, known, rest(words, 1));
            *feed = outside.feed(answer, bytes);
        }
        "pull" => pull(answer, feed, rest(words, 1)),
        _ => answer.refuse(),
    }
}

/// The first three bytes of a file that is opened and closed.
fn open(answer: &Answer, shelf: &mut MemoryShelf, name: &str) {
    match shelf.open_file(name) {
        Ok(mut file) => {
            say_read(answer, &mut file, &["0"]);
            shelf.close_file(file);
        }
        Err(error) => say_error(answer, error),
    }
}

/// `shelf new`: a shelf of the files. Its call is `shelf open NAME`.
fn call_shelf(answer: &Answer, outside: &Outside, shelf: &mut MemoryShelf, words: &[&str]) {
    match word(words, 0) {
        "new" => *shelf = outside.shelf(answer),
        "open" => open(answer, shelf, word(words, 1)),
        _ => answer.refuse(),
    }
}
