//! The world of a header.

ghost use Rattle.sl_world_law.specs.FirstWorlds.{FirstWorldsAreSane};

/// What is asked of a world holds at moment 0.
#[tactic(auto, using(crate::proofs::FirstMachines::first_worlds_are_sane))]
pub fn first_worlds_are_sane()
    ensures { FirstWorldsAreSane }
{}
