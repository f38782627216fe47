//! The calls of a memory form, which fail where it was told so when it was made.
ghost use Rattle.std.specs.Prelude.{IsErr, IsTrue, [], ◌≡◌, ◌≤◌, ◌↔◌};
ghost use Rattle.sl_io.specs.Planned.{after_call, fails_next, with_fault};
ghost use Rattle.sl_io.specs.FaultCauses.{HasCause};

use crate::faults::{Failed, FaultCount};
use std::alloc::Global;
use std::marker::Model;

/// Numbers the calls of a memory form from 1 on, fails those that it was told to, and counts the faults.
#[derive(Drop)]
pub struct PlannedFaults {
    made: u64,
    failing: Vec<u64>,
    faults: FaultCount,
}

impl Model for PlannedFaults {
    ghost use Rattle.sl_io.specs.Planned.{Planned};

    ghost Value = { Planned };

    ghost view = { λ p. record { made = p.made; failing = p.failing.items; faults = p.faults } };
}

impl PlannedFaults {
    /// No call yet. The calls with these numbers will fail; the first call has number 1.
    pub fn new(failing: Vec<u64>) -> PlannedFaults
        ensures { result ≡ record { made = 0; failing = failing.items; faults = 0 } }
    {
        PlannedFaults {
            made: 0,
            failing,
            faults: FaultCount::new(),
        }
    }

    /// No call yet, and none that will fail.
    pub fn none(alloc: Global) -> PlannedFaults
        ensures { result ≡ record { made = 0; failing = []; faults = 0 } }
    {
        PlannedFaults::new(Vec::new(alloc))
    }

    /// Counts one more call; it fails exactly where its number was told.
    pub fn begin(&mut self) -> Result<(), Failed>
        ensures fails { IsErr result ↔ IsTrue (fails_next self.old) }
        ensures exact { self.new ≡ after_call self.old }
        ensures cause { HasCause self.old.faults self.new.faults result }
    {
        self.made = self.made.saturating_add(1);
        if self.failing.contains(&self.made) {
            return Err(self.faults.raise());
        }
        Ok(())
    }

    /// Counts a fault that was not told, as that of a call past the room there is.
    pub fn raise(&mut self) -> Failed
        ensures exact { self.new ≡ with_fault self.old }
        ensures later { self.old.faults ≤ self.new.faults }
    {
        self.faults.raise()
    }

    /// How many calls there were; the count stands still at 2^64 - 1.
    pub fn made(&self) -> u64
        ensures { result ≡ self.now.made }
    {
        self.made
    }

    /// How many calls have failed: those that were planned, and those that were raised beside them.
    pub fn faults(&self) -> u64
        ensures { result ≡ self.now.faults }
    {
        self.faults.get()
    }
}
