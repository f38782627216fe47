//! A failure of the outside, and the count that it rests on.
ghost use Rattle.std.specs.Prelude.{◌≡◌, ◌≤◌};
ghost use Rattle.sl_io.specs.FaultCounts.{one_more};

use std::marker::Model;
use thiserror::Error;

/// The outside failed: a read, a write, a file or a child. Whoever answers it has counted a fault in that call.
#[derive(Clone, Copy, Debug, PartialEq, Eq, Error)]
#[error("the outside failed")]
pub struct Failed;

/// How many calls of an object have failed. It never falls, and stands still at 2^64 - 1.
#[derive(Clone, Copy, Debug, PartialEq, Eq)]
pub struct FaultCount {
    count: u64,
}

impl Model for FaultCount {
    ghost use Rattle.std.specs.Prelude.{ℕ};

    ghost Value = { ℕ };

    ghost view = { λ f. f.count };

    ghost inverse = { λ n. record { count = n } };
}

impl FaultCount {
    /// A count at 0.
    pub fn new() -> FaultCount
        ensures { result ≡ 0 }
    {
        FaultCount { count: 0 }
    }

    /// How many faults were counted; it never falls.
    pub fn get(&self) -> u64
        ensures { result ≡ self.now }
    {
        self.count
    }

    /// Counts one more fault, and gives the failure that it is the cause of.
    pub fn raise(&mut self) -> Failed
        ensures exact { self.new ≡ one_more self.old }
        ensures later { self.old ≤ self.new }
    {
        self.count = self.count.saturating_add(1);
        Failed
    }
}

impl Default for FaultCount {
    ghost is_default = { λ f. f ≡ 0 };

    fn default() -> FaultCount {
        FaultCount::new()
    }
}
