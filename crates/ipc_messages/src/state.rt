//! What calls a writer takes.
ghost use Rattle.std.specs.Prelude.{◌≡◌};
ghost use Rattle.ipc_messages.specs.States.{is_new, is_started, state_behind};

/// What a writer has done.
#[derive(Clone, Copy, Debug, PartialEq, Eq)]
pub enum WriterState {
    /// Nothing yet.
    New,
    /// The schema was put.
    Started,
    /// The end was put.
    Finished,
    /// A put has failed.
    Failed,
}

impl WriterState {
    /// Nothing was put yet.
    pub fn is_new(self) -> bool
        ensures { result ≡ is_new self }
    {
        matches!(self, WriterState::New)
    }

    /// A stream or a file is begun and not ended.
    pub fn is_started(self) -> bool
        ensures { result ≡ is_started self }
    {
        matches!(self, WriterState::Started)
    }

    /// Behind a put that stopped: where a byte may have been put, the writer has failed.
    pub fn behind(self, has_begun: bool) -> WriterState
        ensures { result ≡ state_behind has_begun self }
    {
        if has_begun {
            return WriterState::Failed;
        }
        self
    }
}
