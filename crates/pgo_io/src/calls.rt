ghost use Rattle.std.specs.Prelude.{◌≡◌, ◌≤◌, ◌⊎◌, ◌↔◌, IsErr, IsFalse, OnOk, OnErr};
ghost use Rattle.pgo_io.specs.Calls.{IsListed, with_success, with_fault};
ghost use Rattle.pgo_io.specs.Faults.{Rose};

use crate::errors::Failed;
use std::marker::Model;

/// Calls that are counted from 1, some of which are to fail. A count is a `u64` that stands still
/// at its last value. This project's choice.
#[derive(Drop)]
pub struct Calls {
    failing: Vec<u64>,
    made: u64,
    faults: u64,
}

impl Model for Calls {
    ghost use Rattle.pgo_io.specs.Calls.{Counts};

    ghost Value = { Counts };

    ghost view = { λ c. record { failing = c.failing.items; made = c.made; faults = c.faults } };
}

impl Calls {
    /// No call so far. Those with the numbers in `failing` are to fail.
    pub fn new(failing: Vec<u64>) -> Calls
        ensures { result ≡ record { failing = failing.items; made = 0; faults = 0 } }
    {
        Calls {
            failing,
            made: 0,
            faults: 0,
        }
    }

    /// How many calls have failed.
    pub fn faults(&self) -> u64
        ensures { result ≡ self.now.faults }
    {
        self.faults
    }

    /// Counts a call.
    ///
    /// `Failed`: it is listed or it can't succeed, which is counted as a fault.
    pub fn make(&mut self, can_succeed: bool) -> Result<(), Failed>
        ensures fails { IsErr result ↔ (IsListed self.old ⊎ IsFalse can_succeed) }
        ensures ok { OnOk result (self.new ≡ with_success self.old) }
        ensures err { OnErr result (self.new ≡ with_fault self.old) }
        ensures cause { OnErr result (Rose self.old.faults self.new.faults) }
        ensures count { self.old.faults ≤ self.new.faults }
    {
        self.made = self.made.saturating_add(1);
        if can_succeed && !self.failing.contains(&self.made) {
            return Ok(());
        }
        self.faults = self.faults.saturating_add(1);
        Err(Failed)
    }
}
