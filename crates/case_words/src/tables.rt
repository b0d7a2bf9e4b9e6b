//! The tables of a column and its body, as words.
ghost use Rattle.std.specs.Prelude.{◌≡◌, []};

use crate::shown::{front, say_bytes};
use arrow_spec::{FieldNode, IpcBuffer};
use case_types::{Answer, add_bytes, pair};
use std::alloc::Global;

/// What columns are written as, or read from.
#[derive(Drop)]
pub struct Tables {
    /// Rows and nulls.
    pub nodes: Vec<FieldNode>,
    /// Places and lengths.
    pub buffers: Vec<IpcBuffer>,
    /// How many buffers each column of views has.
    pub views: Vec<i64>,
    /// The body.
    pub body: Vec<u8>,
}

/// Rows and nulls of each node.
fn say_nodes(answer: &Answer, nodes: &[FieldNode]) {
    answer.say("nodes");
    for node in nodes {
        let (rows, nulls) = (node.length, node.null_count);
        answer.tell(format!(in answer.alloc(); " {rows}/{nulls}"));
    }
}

/// The line `buffers PLACE+LENGTH ..`.
pub fn say_buffers(answer: &Answer, buffers: &[IpcBuffer]) {
    answer.say("buffers");
    for buffer in buffers {
        let (place, length) = (buffer.offset, buffer.length);
        answer.tell(format!(in answer.alloc(); " {place}+{length}"));
    }
}

fn say_views(answer: &Answer, views: &[i64]) {
    answer.say("views");
    for count in views {
        answer.tell(format!(in answer.alloc(); " {count}"));
    }
}

/// The line `body LENGTH HEX ..`: a body's length, and what each 64 bytes of it hold, but for the zeros at their end.
pub fn say_body(answer: &Answer, body: &[u8]) {
    let length = body.len();
    answer.tell(format!(in answer.alloc(); "body {length}"));
    for chunk in body.chunks(64) {
        answer.say(" ");
        say_bytes(answer, front(chunk));
    }
}

impl Tables {
    /// Nothing of any column.
    pub fn new(alloc: Global) -> Tables
        ensures { result.body.items ≡ [] }
    {
        Tables {
            nodes: Vec::new(alloc),
            buffers: Vec::new(alloc),
            views: Vec::new(alloc),
            body: Vec::new(alloc),
        }
    }

    /// The three lines `nodes ROWS/NULLS ..`, `buffers PLACE+LENGTH ..` and `views COUNT ..`.
    pub fn say_without_body(&self, answer: &Answer) {
        say_nodes(answer, &self.nodes);
        answer.say("\n");
        say_buffers(answer, &self.buffers);
        answer.say("\n");
        say_views(answer, &self.views);
    }

    /// The same, and the line `body LENGTH HEX ..`.
    pub fn say(&self, answer: &Answer) {
        self.say_without_body(answer);
        answer.say("\n");
        say_body(answer, &self.body);
    }

    fn put_word(&mut self, answer: &Answer, name: &str, word: &str) {
        match name {
            "nodes" => {
                let (length, null_count) = pair(answer, word, '/');
                answer.done(self.nodes.push(FieldNode { length, null_count }));
            }
            "buffers" => {
                let (offset, length) = pair(answer, word, '+');
                answer.done(self.buffers.push(IpcBuffer { offset, length }));
            }
            "views" => {
                let count = answer.long(word);
                answer.done(self.views.push(count));
            }
            "body" => add_bytes(answer, &mut self.body, word),
            _ => answer.refuse(),
        }
    }

    /// Adds what a line says: of the body its bytes, of the others the same words as those of `say`.
    pub fn put(&mut self, answer: &Answer, name: &str, words: &[&str]) {
        for word in words {
            self.put_word(answer, name, *word);
        }
    }
}
