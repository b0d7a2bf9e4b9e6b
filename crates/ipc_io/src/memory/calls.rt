//! Which calls of an object over memory fail.
ghost use Rattle.std.specs.Prelude.{◌≡◌, ◌||◌, ◌↔◌, ◌<◌, IsTrue};
ghost use Rattle.ipc_io.specs.Memory.{Calls, no_calls, is_failing, after_call, counted};

use std::marker::Model;

/// The numbers of the calls that are to fail, from 0 on, how many calls there were, and how many of them failed.
#[derive(Drop)]
pub struct FailingCalls {
    failing: Vec<u64>,
    next: u64,
    faults: u64,
}

impl Model for FailingCalls {
    ghost Value = { Calls };

    ghost view = { λ s. record { failing = s.failing.items; next = s.next; faults = s.faults } };
}

impl FailingCalls {
    /// No call was made so far.
    pub fn new(failing: Vec<u64>) -> Self
        ensures { result ≡ no_calls failing.items }
    {
        FailingCalls {
            failing,
            next: 0,
            faults: 0,
        }
    }

    /// Counts a call, and says whether it fails: by its number, or since `also` says so.
    pub fn fails(&mut self, also: bool) -> bool
        ensures fails { result ≡ (also || is_failing self.old) }
        ensures after { self.new ≡ after_call self.old result }
    {
        let failed = also || self.failing.contains(&self.next);
        self.next = self.next.saturating_add(1);
        if failed {
            self.faults = self.faults.saturating_add(1);
        }
        failed
    }

    /// Counts a fault of a call that was counted.
    pub fn add_fault(&mut self)
        ensures { self.new ≡ record self.old { faults = counted self.old.faults 1 } }
    {
        self.faults = self.faults.saturating_add(1);
    }

    /// Whether a call has failed.
    pub fn any_failed(&self) -> bool
        ensures { IsTrue result ↔ (0 < self.now.faults) }
    {
        self.faults > 0
    }
}
