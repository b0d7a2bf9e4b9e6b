//! What a run is lent: objects over memory that fail where a case says so.
use crate::comparison::same_front;
use crate::names::{Named, Names, bytes_of};
use crate::sink::NotingSink;
use case_words::{Answer, rest, word};
use ipc_disk::{Entry, MemoryDisk, MemoryShelf};
use ipc_io::{MemoryFeed, MemorySink, MemorySource};
use ipc_log_disk::MemoryVaultShelf;
use std::alloc::Global;

/// What stands around a run to the end of a case.
pub struct Outside {
    files: Names<u8>,
    /// The input's text.
    input: Vec<u8>,
    /// The numbers of the calls of each device that fail, which count from 0.
    failing: Names<u64>,
    /// The places of files that cannot be read.
    places: Vec<u64>,
    /// The greatest number of bytes of the output, of the notes, and of a pull of the input.
    room: Option<usize>,
    notes_room: Option<usize>,
    most: usize,
}

impl Drop for Outside {
    fn drop(self) {
        let Outside {
            files,
            input,
            failing,
            places,
            room: _,
            notes_room: _,
            most: _,
        } = self;
        drop(files);
        drop(input);
        drop(failing);
        drop(places);
    }
}

/// What a run is lent beside its output.
pub struct Devices {
    /// The files.
    pub shelf: MemoryVaultShelf,
    /// The text that is read.
    pub input: MemoryFeed,
    /// What is noted.
    pub notes: MemorySink,
}

impl Drop for Devices {
    fn drop(self) {
        let Devices {
            shelf,
            input,
            notes,
        } = self;
        drop(shelf);
        drop(input);
        drop(notes);
    }
}

/// The numbers of calls, which count from 1 in words.
fn calls(answer: &Answer, words: &[&str]) -> Vec<u64> {
    let mut calls = Vec::new(answer.alloc());
    for word in words {
        match answer.count(*word) {
            0 => answer.refuse(),
            call => answer.done(calls.push(call as u64 - 1)),
        }
    }
    calls
}

impl Outside {
    /// Nothing stands anywhere, and no device fails.
    pub fn new(alloc: Global) -> Outside {
        Outside {
            files: Names::new(alloc),
            input: Vec::new(alloc),
            failing: Names::new(alloc),
            places: Vec::new(alloc),
            room: None,
            notes_room: None,
            most: 100,
        }
    }

    /// The bytes of a file.
    pub fn file(&self, name: &str) -> Option<&[u8]> {
        self.files.get(name)
    }

    /// `file NAME WORD..`
    fn stand(&mut self, answer: &Answer, known: &Names<u8>, words: &[&str]) {
        let bytes = bytes_of(answer, known, rest(words, 1));
        self.files.put(answer, word(words, 0), bytes);
    }

    /// `input WORD..`
    fn give(&mut self, answer: &Answer, known: &Names<u8>, words: &[&str]) {
        self.input = bytes_of(answer, known, words);
    }

    /// The calls of a device that fail, from 0 on; of memory the puts of the output that want memory.
    pub fn fail_at(&mut self, answer: &Answer, device: &str, calls: Vec<u64>) {
        match device {
            "input" | "output" | "notes" | "file" | "shelf" | "memory" => {
                self.failing.put(answer, device, calls)
            }
            _ => answer.refuse(),
        }
    }

    /// `fails DEVICE N..`, whose calls count from 1.
    fn fail(&mut self, answer: &Answer, words: &[&str]) {
        let calls = calls(answer, rest(words, 1));
        self.fail_at(answer, word(words, 0), calls);
    }

    /// `room DEVICE N`
    fn limit(&mut self, answer: &Answer, words: &[&str]) {
        let count = answer.count(word(words, 1));
        match word(words, 0) {
            "output" => self.room = Some(count),
            "notes" => self.notes_room = Some(count),
            "pull" => self.most = count.max(1),
            _ => answer.refuse(),
        }
    }

    /// `unreadable FROM TO`, up to the place before the second.
    fn damage(&mut self, answer: &Answer, words: &[&str]) {
        let from = answer.count(word(words, 0));
        for place in from..answer.count(word(words, 1)) {
            answer.done(self.places.push(place as u64));
        }
    }

    /// Whether a call sets what stands around runs.
    pub fn prepare(
        &mut self,
        answer: &Answer,
        known: &Names<u8>,
        name: &str,
        words: &[&str],
    ) -> bool {
        match name {
            "file" => self.stand(answer, known, words),
            "input" => self.give(answer, known, words),
            "fails" => self.fail(answer, words),
            "room" => self.limit(answer, words),
            "unreadable" => self.damage(answer, words),
            _ => return false,
        }
        true
    }

    fn calls_of(&self, device: &str) -> &[u64] {
        self.failing.get(device).unwrap_or(&[])
    }

    fn failing_of(&self, answer: &Answer, device: &str) -> Vec<u64> {
        answer.list(self.calls_of(device).to_vec(answer.alloc()))
    }

    fn entry(&self, answer: &Answer, file: &Named<u8>) -> Entry {
        Entry {
            name: answer.text(&file.name),
            bytes: answer.list(file.items.to_vec(answer.alloc())),
            failing: self.failing_of(answer, "file"),
            places: answer.list(self.places.to_vec(answer.alloc())),
        }
    }

    /// The files. Of two of one name the one that came last stands first.
    pub(crate) fn shelf(&self, answer: &Answer) -> MemoryShelf {
        let mut entries = Vec::new(answer.alloc());
        for file in &self.files.held {
            let entry = self.entry(answer, file);
            answer.done(entries.push(entry));
        }
        MemoryShelf::new(answer.alloc(), entries, self.failing_of(answer, "shelf"))
    }

    /// What a run is lent.
    pub fn devices(&self, answer: &Answer) -> Devices {
        let text = answer.list(self.input.to_vec(answer.alloc()));
        Devices {
            shelf: MemoryVaultShelf::new(answer.alloc(), self.shelf(answer)),
            input: self.feed(answer, text),
            notes: MemorySink::new(
                answer.alloc(),
                self.notes_room,
                self.failing_of(answer, "notes"),
            ),
        }
    }

    /// An output.
    pub fn output(&self, answer: &Answer) -> NotingSink {
        let failing = self.failing_of(answer, "output");
        let sink = MemorySink::new(answer.alloc(), self.room, failing);
        NotingSink::new(sink, self.failing_of(answer, "memory"))
    }

    /// An input of these bytes.
    pub fn feed(&self, answer: &Answer, bytes: Vec<u8>) -> MemoryFeed {
        MemoryFeed::new(bytes, self.most.max(1), self.failing_of(answer, "input"))
    }

    /// A disk of these bytes.
    pub(crate) fn disk(&self, answer: &Answer, bytes: Vec<u8>) -> MemoryDisk {
        let places = answer.list(self.places.to_vec(answer.alloc()));
        MemoryDisk::new(bytes, self.failing_of(answer, "file"), places)
    }

    /// A file of these bytes.
    pub fn source(&self, answer: &Answer, bytes: Vec<u8>) -> MemorySource {
        let places = answer.list(self.places.to_vec(answer.alloc()));
        MemorySource::new(bytes, self.failing_of(answer, "file"), places)
    }

    /// The files are as a run left them.
    pub fn keep(&mut self, answer: &Answer, shelf: &MemoryVaultShelf) {
        for file in self.files.held.iter_mut() {
            if let Some(bytes) = shelf.bytes(&file.name) {
                file.items.clear();
                answer.done(file.items.extend_from_slice(bytes));
            }
        }
    }

    /// The first file has these bytes from now on.
    pub fn leave(&mut self, bytes: Vec<u8>) {
        match self.files.held.first_mut() {
            Some(file) => file.items = bytes,
            None => drop(bytes),
        }
    }

    /// How many bytes the first file has from its front as before a run.
    pub fn kept(&self, shelf: &MemoryVaultShelf) -> usize {
        let Some(file) = self.files.held.first() else {
            return 0;
        };
        match shelf.bytes(&file.name) {
            Some(bytes) => same_front(bytes, &file.items),
            None => 0,
        }
    }
}
