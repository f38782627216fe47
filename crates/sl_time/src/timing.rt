//! The four numbers that all times are made of, and the times made of them.
//!
//! A session may act until its watchdog and its last write are certainly done, and an observer waits longer than that, whatever the
//! two clocks do within their drift. All else follows from four numbers: how long a sector call may take, how fast the watchdog
//! device fires, how long a write of a dead machine may still land, and how far a clock may be off. The times are those of a delta
//! lease (Chockler and Malkhi, *Light-weight leases for storage-centric coordination*) whose timeouts are measured on drifting
//! clocks. All are rounded up, in the direction in which the others wait longer.
ghost use Rattle.std.specs.Prelude.{IfOk, IsErrOf, IsOk, ◌<◌, ◌≡◌, ◌≤◌, ◌⊎◌, ◌↔◌};
ghost use Rattle.sl_time.specs.Times.{IsTiming, dead, fail, gone, hold, join_max, life, numbers, renew, take_over};

use std::marker::Model;
use thiserror::Error;

/// The numbers of a run: `io` 1 to 600000, `fire` and `land` 0 to 600000 milliseconds, and `rho` 0 to 100 per mille of drift.
#[derive(Clone, Copy, Debug, PartialEq, Eq)]
pub struct Timing {
    io: u64,
    fire: u64,
    land: u64,
    rho: u64,
}

impl Model for Timing {
    ghost use Rattle.std.specs.Prelude.{refl};
    ghost use Rattle.sl_time.specs.Times.{TimingNumbers, IsTiming};

    ghost Value = { TimingNumbers };

    ghost view = { λ t. record { io = t.io; fire = t.fire; land = t.land; rho = t.rho } };

    ghost invariant = { λ t. IsTiming (record { io = t.io; fire = t.fire; land = t.land; rho = t.rho }) };

    ghost inverse = { λ n. record { io = n.io; fire = n.fire; land = n.land; rho = n.rho } };

    ghost inverse_ok = { λ t is. refl };
}

/// The first number of a run that is out of its range.
#[derive(Clone, Copy, Debug, PartialEq, Eq, Error)]
pub enum TimingBad {
    #[error("io is not 1 to 600000")]
    Io,
    #[error("fire is above 600000")]
    Fire,
    #[error("land is above 600000")]
    Land,
    #[error("rho is above 100")]
    Rho,
}

impl Timing {
    /// The longest `io`, `fire` and `land`, in milliseconds.
    const LONGEST: u64 = 600_000;

    /// The most drift, in per mille.
    const MOST_DRIFT: u64 = 100;

    /// The times of these numbers: milliseconds, and per mille for `rho`.
    pub fn new(io: u64, fire: u64, land: u64, rho: u64) -> Result<Timing, TimingBad>
        ensures ok { IsOk result ↔ IsTiming (numbers io fire land rho) }
        ensures value { IfOk result (λ t. t ≡ numbers io fire land rho) }
        ensures io { IsErrOf result TimingBad.Io ↔ ((io ≡ 0) ⊎ (600000 < io)) }
        ensures fire { IsErrOf result TimingBad.Fire ↔ ((1 ≤ io) × (io ≤ 600000) × (600000 < fire)) }
        ensures land { IsErrOf result TimingBad.Land ↔ ((1 ≤ io) × (io ≤ 600000) × (fire ≤ 600000) × (600000 < land)) }
        ensures rho { IsErrOf result TimingBad.Rho
            ↔ ((1 ≤ io) × (io ≤ 600000) × (fire ≤ 600000) × (land ≤ 600000) × (100 < rho)) }
    {
        if io < 1 || io > Self::LONGEST {
            return Err(TimingBad::Io);
        }
        if fire > Self::LONGEST {
            return Err(TimingBad::Fire);
        }
        if land > Self::LONGEST {
            return Err(TimingBad::Land);
        }
        if rho > Self::MOST_DRIFT {
            return Err(TimingBad::Rho);
        }
        Ok(Timing {
            io,
            fire,
            land,
            rho,
        })
    }

    /// The longest that a sector call of a job may take.
    pub fn io(&self) -> u64
        ensures { result ≡ self.now.io }
    {
        self.io
    }

    /// The watchdog device resets its machine at most so long after the test on which the last keepalive rests.
    pub fn fire(&self) -> u64
        ensures { result ≡ self.now.fire }
    {
        self.fire
    }

    /// A write of a machine that was reset lands within so long, or never.
    pub fn land(&self) -> u64
        ensures { result ≡ self.now.land }
    {
        self.land
    }

    /// By how many per mille a clock may be fast or slow.
    pub fn rho(&self) -> u64
        ensures exact { result ≡ self.now.rho }
        ensures most { result ≤ 100 }
    {
        self.rho
    }

    /// How often a session writes its sector.
    pub fn renew(&self) -> u64
        ensures exact { result ≡ renew self.now }
        ensures most { result ≤ 1200000 }
    {
        2 * self.io
    }

    /// How long a session goes on after the submission of its last renewal, by its own clock.
    pub fn fail(&self) -> u64
        ensures exact { result ≡ fail self.now }
        ensures most { result ≤ 4800000 }
    {
        8 * self.io
    }

    /// How long, in real time, a session can act after the submission of its last renewal: until its connection runs out on the
    /// slowest clock, the device resets its machine, and the last write has landed.
    pub fn gone(&self) -> u64
        ensures exact { result ≡ gone self.now }
        ensures most { result ≤ 6533334 }
    {
        self.life() + self.fire + self.land
    }

    /// How long an observer sees no change before a session counts as over: more than `gone` on the fastest clock.
    pub fn dead(&self) -> u64
        ensures exact { result ≡ dead self.now }
        ensures most { result ≤ 7186669 }
    {
        1 + (self.gone() * (1000 + self.rho)).div_ceil(1000)
    }

    /// How long after its claim a joining may still verify it.
    pub fn join_max(&self) -> u64
        ensures exact { result ≡ join_max self.now }
        ensures most { result ≤ 11986669 }
    {
        self.dead() + self.fail()
    }

    /// How long a record that isn't free is watched before its id is taken: its writer may verify a claim until `join_max` after it
    /// on the slowest clock, and act for `gone` from there on.
    pub fn take(&self) -> u64
        ensures exact { result ≡ take_over self.now }
        ensures most { result ≤ 21837044 }
    {
        1 + ((self.hold() + self.gone()) * (1000 + self.rho)).div_ceil(1000)
    }

    /// The longest that `fail` lasts, in real time.
    fn life(&self) -> u64
        ensures exact { result ≡ life self.now }
        ensures most { result ≤ 5333334 }
    {
        (1000 * self.fail()).div_ceil(1000 - self.rho)
    }

    /// The longest that `join_max` lasts, in real time.
    fn hold(&self) -> u64
        ensures exact { result ≡ hold self.now }
        ensures most { result ≤ 13318523 }
    {
        (1000 * (self.join_max() + 1)).div_ceil(1000 - self.rho)
    }
}
