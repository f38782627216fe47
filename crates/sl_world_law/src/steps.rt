//! What a step leaves.

ghost use Rattle.sl_world_law.specs.Steps.{OwnIsKept, StepsAreKept};

/// A step of a daemon leaves what is kept as it leaves the world.
#[tactic(auto, using(crate::proofs::StepsAreKept::steps_are_kept))]
pub fn steps_are_kept()
    ensures { StepsAreKept }
{}

/// So does what a machine does itself.
pub fn own_is_kept()
    ensures { OwnIsKept }
{}
