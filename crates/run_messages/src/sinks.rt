//! A sink of cases.
use arrow_spec::IpcError;
use case_words::Answer;
use ipc_io::{MemorySink, PutError, Sink};
use message_words::{numbers_of, optional_count};
use std::cell::Cell;
use std::rc::Rc;

/// How many bytes a sink has, seen from outside.
pub(crate) type Tally = Rc<Cell<usize>>;

/// A sink over memory that wants memory at the put of a number.
#[derive(Drop)]
pub(crate) struct CaseSink {
    sink: MemorySink,
    wanting: Option<usize>,
    puts: usize,
    wants: u64,
    tally: Tally,
}

impl CaseSink {
    /// A copy of the bytes so far.
    pub(crate) fn copied(&self, answer: &Answer) -> Vec<u8> {
        answer.list(self.sink.bytes().to_vec(answer.alloc()))
    }
}

impl Sink for CaseSink {
    ghost use Rattle.std.specs.Prelude.{◌+◌, Some};

    ghost written = { λ s. Some s.sink.written };

    ghost faults = { λ s. s.sink.calls.faults };

    ghost wants = { λ s. s.wants + s.sink.wants };

    fn put(&mut self, bytes: &[u8]) -> Result<(), PutError> {
        let number = self.puts;
        self.puts = number.saturating_add(1);
        if self.wanting == Some(number) && self.wants < 1000 {
            self.wants += 1;
            return Err(PutError::Memory);
        }
        let answer = self.sink.put(bytes);
        self.tally.set(self.sink.bytes().len());
        answer
    }
}

/// A sink with `room N`, which wants memory at the put `wants N` and fails at the puts `fails N,..`, and whose tally is kept.
pub(crate) fn sink_of(
    answer: &Answer,
    kept: &mut Option<Tally>,
    words: &[&str],
) -> Result<CaseSink, IpcError> {
    let room = optional_count(answer, words, "room");
    let wanting = optional_count(answer, words, "wants");
    let failing = numbers_of(answer, words, "fails");
    let tally = Rc::new(answer.alloc(), Cell::new(0))?;
    *kept = Some(tally.clone()?);
    Ok(CaseSink {
        sink: MemorySink::new(answer.alloc(), room, failing),
        wanting,
        puts: 0,
        wants: 0,
        tally,
    })
}
