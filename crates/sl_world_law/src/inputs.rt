//! What an event gives a daemon.

ghost use Rattle.sl_world_law.specs.Inputs.{InputsAreKept, OwnEffectsAreKept};

/// The input of an event that may happen.
#[tactic(auto, using(crate::proofs::GivenInputs::inputs_are_kept))]
pub fn inputs_are_kept()
    ensures { InputsAreKept }
{}

/// What the machine itself does, at an exit without a daemon or a reset, is told by what is kept of it.
pub fn own_effects_are_kept()
    ensures { OwnEffectsAreKept }
{}
