//! What a conversion does first: to shared the own block's mode is written while the leader stands; to exclusive the area is read while the
//! mode stands.

ghost use Rattle.sl_host_state.specs.HostStands.{LeaseStands};
ghost use Rattle.sl_lease.specs.Bounds.{IsSession};
ghost use Rattle.sl_lease.specs.Side.{known_with, layout_in, place_of};
ghost use Rattle.sl_lease.specs.Steps.{IsFitNext};
ghost use Rattle.sl_lease.specs.declared.outer_facts.Held.{Held};
ghost use Rattle.sl_trace.specs.LeaseDecisions.{within_turn};
ghost use Rattle.sl_trace.specs.Conversions.{convert_next};
ghost use Rattle.sl_trace.specs.declared.lease.Aim.TheVariants.{Converts};
ghost use Rattle.sl_trace.specs.Leases.{known_of};
ghost use Rattle.sl_sector.specs.declared.sector.Block.{Block};
ghost use Rattle.sl_trace.specs.Traces.{Submitted};
ghost use Rattle.std.specs.Prelude.{Bool, List, Option, ℕ, ◌≡◌};

use crate::lease::Lease;
use crate::outer_facts::Held;
use crate::side::Side;
use sl_sector::Block;
use sl_text::Name;
use sl_trace::{Aim, LeaseNext, LeaseStep, Mode};

impl Lease {
    /// What a conversion to this mode does first, of a resource of this name: to shared it writes the own block's mode, while the leader
    /// still stands; to exclusive it reads the area, while the mode still stands.
    pub fn convert(&self, side: &Side, mode: Mode, resource: Name) -> LeaseNext
        requires { IsSession side.now.geometry side.now.me }
        ensures exact { (held : Held) (over : ℕ → ℕ → Bool) (read : List (Option Block))
            → result ≡ within_turn (place_of side.now) (known_with side.now self.now held over read) (Converts mode)
            (convert_next (known_with side.now self.now held over read) mode resource) }
        ensures decides { (held : Held) (over : ℕ → ℕ → Bool) (ms : List Submitted) → LeaseStands (layout_in side.now) side.now.lockspace side.now.me self.now ms
            → result ≡ within_turn (place_of side.now) (known_of (layout_in side.now) side.now.lockspace side.now.me held.shared held.exclusive over ms) (Converts mode)
            (convert_next (known_of (layout_in side.now) side.now.lockspace side.now.me held.shared held.exclusive over ms) mode resource) }
        ensures fit { IsFitNext result }
    {
        let next = self.convert_known(side, mode, resource);
        self.within_turn(side, Aim::Converts(mode), next)
    }

    /// The same, by what is kept of the lease.
    fn convert_known(&self, side: &Side, mode: Mode, resource: Name) -> LeaseNext
        requires { IsSession side.now.geometry side.now.me }
        ensures exact { (held : Held) (over : ℕ → ℕ → Bool) (read : List (Option Block))
            → result ≡ convert_next (known_with side.now self.now held over read) mode resource }
        ensures fit { IsFitNext result }
    {
        match mode {
            Mode::Shared => self.set_mode(side),
            Mode::Exclusive => LeaseNext::ReadFor(LeaseStep::ReadArea { resource }),
        }
    }
}
