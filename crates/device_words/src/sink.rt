//! A sink over memory that notes its longest put.
use ipc_io::{MemorySink, PutError, Sink};
use std::alloc::Global;

/// A sink over memory that notes its longest put, and wants memory where it is told to.
pub struct NotingSink {
    sink: MemorySink,
    longest: usize,
    wanting: Vec<u64>,
    calls: u64,
    wants: u64,
}

impl Drop for NotingSink {
    fn drop(self) {
        let NotingSink {
            sink,
            longest: _,
            wanting,
            calls: _,
            wants: _,
        } = self;
        drop(sink);
        drop(wanting);
    }
}

impl NotingSink {
    /// Has no bytes yet. The numbers are those of the puts that want memory.
    pub(crate) fn new(sink: MemorySink, wanting: Vec<u64>) -> Self {
        NotingSink {
            sink,
            longest: 0,
            wanting,
            calls: 0,
            wants: 0,
        }
    }

    /// Takes all that is put.
    pub fn empty(alloc: Global) -> Self {
        let sink = MemorySink::new(alloc, None, Vec::new(alloc));
        NotingSink::new(sink, Vec::new(alloc))
    }

    /// The bytes so far.
    pub fn bytes(&self) -> &[u8] {
        self.sink.bytes()
    }

    /// The length of the longest put.
    pub fn longest(&self) -> usize {
        self.longest
    }
}

impl Sink for NotingSink {
    ghost use Rattle.std.specs.Prelude.{Some, ◌+◌};

    ghost written = { λ s. Some s.sink.written };

    ghost faults = { λ s. s.sink.calls.faults };

    ghost wants = { λ s. s.sink.wants + s.wants };

    ghost longest = { λ s. s.longest };

    fn put(&mut self, bytes: &[u8]) -> Result<(), PutError> {
        self.longest = self.longest.max(bytes.len());
        let call = self.calls;
        self.calls = call.saturating_add(1);
        if self.wanting.contains(&call) && self.wants < u64::MAX {
            self.wants += 1;
            return Err(PutError::Memory);
        }
        self.sink.put(bytes)
    }
}
