//! What the calls of a case leave to the next ones, and which calls there are.
use crate::columns::Queues;
use crate::{columns, dictionaries, messages, written};
use arrow_arrays::{Array, RecordBatch};
use arrow_types::ArrowSchema;
use case_words::{Answer, Case, Tables, rest, word};
use ipc_bodies::BodyBuffer;
use ipc_read::Dictionaries;
use std::alloc::Global;
use value_calls::{arrays, batches, bodies, buffers, flatbuffers, headers, schemas, types};

/// What the calls of one case leave to the next ones.
#[derive(Drop)]
pub struct Values {
    /// Arrays, the last made last.
    arrays: Vec<Array>,
    /// Batches in the same order.
    batches: Vec<RecordBatch>,
    /// The schema that was said last.
    schema: ArrowSchema,
    /// What was written last, or is said to be.
    tables: Tables,
    /// What is left of it behind the columns that were read.
    queues: Queues,
    /// What batches of values gave.
    dictionaries: Dictionaries,
    /// Buffers of a body.
    buffers: Vec<BodyBuffer>,
    /// The bytes of a flatbuffer.
    bytes: Vec<u8>,
}

impl Case for Values {
    fn new(alloc: Global) -> Values {
        Values {
            arrays: Vec::new(alloc),
            batches: Vec::new(alloc),
            schema: ArrowSchema::new(alloc),
            tables: Tables::new(alloc),
            queues: Queues::new(alloc),
            dictionaries: Dictionaries::new(alloc),
            buffers: Vec::new(alloc),
            bytes: Vec::new(alloc),
        }
    }

    fn forget(&mut self, alloc: Global) {
        *self = Values::new(alloc);
    }

    fn answer(&mut self, _rt: &HostRuntime, answer: &Answer, words: &[&str]) {
        let (name, words) = (word(words, 0), rest(words, 1));
        let is_known = arrays::call(answer, &mut self.arrays, name, words)
            || types::call(answer, &mut self.schema, name, words)
            || buffers::call(answer, name, words)
            || bodies::call(answer, &mut self.buffers, name, words)
            || batches::call(answer, &mut self.arrays, &mut self.batches, name, words)
            || flatbuffers::call(answer, &mut self.bytes, name, words)
            || headers::call(answer, &self.bytes, name, words)
            || schemas::call(answer, &self.bytes, name, words)
            || messages::call(answer, &self.arrays, name, words)
            || written::call(answer, &self.arrays, &mut self.tables, name, words)
            || dictionaries::call(answer, &self.tables, &mut self.dictionaries, name, words)
            || columns::call(
                answer,
                &mut self.tables,
                &mut self.queues,
                &self.dictionaries,
                &mut self.arrays,
                name,
                words,
            );
        if !is_known {
            answer.refuse();
        }
    }
}
