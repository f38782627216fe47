//! An area as the key of a map.

ghost use Rattle.sl_tables.specs.SpotsCompare.{respects_base, spot_equiv};
ghost use Rattle.sl_trace.specs.Traces.{same_spot};
ghost use Rattle.std.specs.Cmp.{partial_equiv_from_equiv};
ghost use Rattle.std.specs.Hash as fed;
ghost use Rattle.std.specs.Prelude.{◌≡◌};

use sl_trace::Spot;
use std::hash::{Hash, Hasher};
use std::marker::Model;

/// An area, seen as its place. What is hashed is where it begins: at most eight disks have an area there.
#[derive(Clone, Copy)]
pub(crate) struct Area {
    spot: Spot,
}

impl Model for Area {
    ghost use Rattle.sl_trace.specs.declared.effects.Spot.{Spot as SpotOf};

    ghost Value = { SpotOf };

    ghost view = { λ area. area.spot };

    ghost inverse = { λ spot. record { spot = spot } };
}

impl Area {
    /// The area at this place, as a key that is compared in few steps.
    pub(crate) fn at(spot: Spot) -> Area
        ensures { result ≡ spot }
    {
        Area { spot }
    }
}

impl PartialEq for Area {
    ghost eq = { same_spot };

    ghost laws = { partial_equiv_from_equiv spot_equiv };

    fn eq(&self, other: &Area) -> bool {
        self.spot.base == other.spot.base && self.spot.path == other.spot.path
    }
}

impl Eq for Area {
    ghost laws = { spot_equiv };
}

impl Hash for Area {
    ghost hash_input = { λ spot. fed.u64 spot.base };

    ghost respects_eq = { respects_base };

    fn hash<H: Hasher>(&self, state: &mut H) {
        self.spot.base.hash(state);
    }
}
