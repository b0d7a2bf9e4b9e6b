//! What a reader of a stream answers.
ghost use Rattle.std.specs.Prelude.{◌≡◌};
ghost use Rattle.ipc_streams.specs.States.{IsBatch};

use arrow_arrays::RecordBatch;

/// The next record batch, or that the feed has too few bytes for a message to begin.
#[derive(Drop)]
pub enum StreamState {
    /// The feed has too few bytes for a message to begin.
    Waiting,
    /// The next record batch.
    Some(RecordBatch),
}

impl StreamState {
    /// The record batch of a state that has one. Of `Waiting` the call may not be made.
    pub fn unwrap(self) -> RecordBatch
        requires { IsBatch self }
        ensures { self ≡ StreamState.Some result }
    {
        match self {
            StreamState::Some(batch) => batch,
            StreamState::Waiting => unreachable!(),
        }
    }
}
