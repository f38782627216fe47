//! The clock of the system, in milliseconds since the devices were made.
ghost use Rattle.std.specs.Prelude.{IfSome, ◌<◌, ◌≡◌};
ghost use Rattle.sl_words.specs.Bounds.{moments};

use sl_time::Clock;
use std::marker::Model;
use std::time;
use std::time::Instant;

/// What each reading is below.
const MOMENTS: u64 = 1_000_000_000_000_000;

/// A clock of the system. It counts from a start that all clocks of a run share, which is 0; where the system's clock can't be read it gives
/// its last answer again. Contracts see its last answer alone, at first 0.
#[derive(Drop)]
pub struct RealClock<R> {
    rt: R,
    start: Option<Instant>,
    last: u64,
}

impl<R> Model for RealClock<R> {
    ghost use Rattle.std.specs.Prelude.{ℕ, ◌<◌};
    ghost use Rattle.sl_words.specs.Bounds.{moments};

    ghost Value = { ℕ };

    ghost view = { λ c. c.last };

    ghost invariant = { λ c. c.last < moments };
}

/// The milliseconds since the start, at most 10^15 - 1; none where the system's clock can't be read.
fn since<R: time::Clock>(rt: &R, start: Option<Instant>) -> Option<u64>
    ensures { IfSome result (λ t. t < moments) }
{
    let passed = start?.elapsed(rt).ok()?.as_millis();
    Some(passed.min(u128::from(MOMENTS - 1)) as u64)
}

impl<R: time::Clock> RealClock<R> {
    /// A clock that counts from this start. With none it stands at 0.
    pub fn new(rt: R, start: Option<Instant>) -> RealClock<R>
        ensures { result ≡ 0 }
    {
        RealClock { rt, start, last: 0 }
    }
}

impl<R: time::Clock + Drop> Clock for RealClock<R> {
    ghost last = { λ c. c };

    fn now(&mut self) -> u64 {
        if let Some(reading) = since(&self.rt, self.start) {
            self.last = self.last.max(reading);
        }
        self.last
    }
}
