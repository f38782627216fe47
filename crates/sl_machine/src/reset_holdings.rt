//! What a machine held when it was reset.
//!
//! A write of its process that was in flight then may land for `land` longer, so till then what it held is used still. At a reset what lingers
//! no more is dropped, so that a machine keeps no more than it held within the last `land`, however often it is reset.

ghost use Rattle.sl_run.specs.Worlds.{lingers};
ghost use Rattle.std.specs.Prelude.{IfOk, filter, map, ◌++◌, ◌≡◌};

use sl_trace::Grant;
use std::alloc::{AllocError, Global};
use std::marker::Model;

/// What a machine held when it was reset.
#[derive(Clone, Copy)]
pub struct Lingering {
    pub held: Grant,
    /// The moment of the reset, in milliseconds.
    pub reset: u64,
}

impl Model for Lingering {
    ghost use Rattle.sl_run.specs.Worlds.{Lingering as LingeringState};
    ghost use Rattle.std.specs.Prelude.{refl};

    ghost Value = { LingeringState };

    ghost view = { λ l. record { held = l.held; reset = l.reset } };

    ghost inverse = { λ s. record { held = s.held; reset = s.reset } };

    ghost inverse_ok = { λ l is. refl };
}

impl Lingering {
    /// Whether a write that was in flight at the reset may land still.
    pub fn lingers(&self, land: u64, moment: u64) -> bool
        ensures { result ≡ lingers land moment self.now }
    {
        moment.saturating_sub(self.reset) <= land
    }
}

/// What lingers from a reset on at which this is held. An `Err` is want of memory.
pub fn lingering_after(
    alloc: Global,
    held: &[Grant],
    older: &[Lingering],
    land: u64,
    moment: u64,
) -> Result<Vec<Lingering>, AllocError>
    ensures { IfOk result (λ ls. ls.items ≡ map (λ g. record { held = g; reset = moment }) held.now ++ filter (lingers land moment) older.now) }
{
    let new = held.iter().map(|grant| Lingering {
        held: *grant,
        reset: moment,
    });
    let left = older
        .iter()
        .copied()
        .filter(|lingering| lingering.lingers(land, moment));
    new.chain(left).collect(alloc)
}
