//! What is refused by what is kept, whatever the commands; and that a machine takes of an input all that its step asks of it.

ghost use Rattle.sl_machine.specs.HeardInputs.{LocksHearTheirPart};
ghost use Rattle.sl_machine.specs.StepsHearParts.{StepsHearTheirPart};
ghost use Rattle.sl_machine.specs.EventTests.{RefusalsAreThose};

/// The refusal of an event is that of what is kept.
pub fn refusals_are_those()
    ensures { RefusalsAreThose }
{}

/// The locks take of an input all that their step asks of it.
pub fn locks_hear_their_part()
    ensures { LocksHearTheirPart }
{}

/// A machine takes of an input all that its step asks of it.
pub fn steps_hear_their_part()
    ensures { StepsHearTheirPart }
{}
