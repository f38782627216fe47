//! What a machine reads the time on.
//!
//! One invariant: an answer is at least every earlier one. Without it a connection that had run out could count as live again, and
//! a span of sightings could be negative.
ghost use Rattle.std.specs.Prelude.{ℕ, ◌<◌, ◌≡◌, ◌≤◌};
ghost use Rattle.sl_words.specs.Bounds.{moments};
ghost use Rattle.sl_time.specs.Readings.{after_reading};

use std::alloc::Global;
use std::collections::VecDeque;
use std::marker::Model;

/// A clock, in milliseconds. A reading cannot fail.
pub trait Clock: Drop {
    /// The last answer, and before the first one a number that no answer is below.
    ghost last: { Self → ℕ };

    /// The time in milliseconds: at least each earlier answer, and below 10^15.
    fn now(&mut self) -> u64
        ensures later { last self.old ≤ result }
        ensures below { result < moments }
        ensures kept { last self.new ≡ result };
}

/// A clock that gives readings handed in when it is made, and then stays at the last one.
///
/// A reading that is below an earlier one, or not below 10^15, is brought into order: the clock's answer is the greatest so far, and at
/// most 10^15 - 1. So any list will do, and a list in order is given as it is.
#[derive(Drop)]
pub struct MemClock {
    readings: VecDeque<u64>,
    last: u64,
}

impl Model for MemClock {
    ghost use Rattle.std.specs.Prelude.{◌<◌};
    ghost use Rattle.sl_words.specs.Bounds.{moments};
    ghost use Rattle.sl_time.specs.Readings.{Readings};

    ghost Value = { Readings };

    ghost view = { λ c. record { rest = c.readings.items; last = c.last } };

    ghost invariant = { λ c. c.last < moments };
}

impl MemClock {
    /// What each answer is below.
    const MOMENTS: u64 = 1_000_000_000_000_000;

    /// A clock that will give these readings; before the first it stands at 0.
    pub fn new(readings: Vec<u64>) -> MemClock
        ensures { result ≡ record { rest = readings.items; last = 0 } }
    {
        MemClock {
            readings: VecDeque::from(readings),
            last: 0,
        }
    }
}

impl Clock for MemClock {
    ghost last = { λ c. c.last };

    fn now(&mut self) -> u64
        ensures later { self.old.last ≤ result }
        ensures below { result < moments }
        ensures kept { self.new.last ≡ result }
        ensures exact { self.new ≡ after_reading self.old }
    {
        if let Some(reading) = self.readings.pop_front() {
            self.last = self.last.max(reading.min(Self::MOMENTS - 1));
        }
        self.last
    }
}
