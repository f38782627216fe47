//! Decisions by what a host keeps: what a command comes to is the same as by the steps that the host stands for.

ghost use Rattle.sl_host_law.specs.Decisions.DecisionLaws.{CommandsAreDecided, FallingIsEnough};

/// A command comes to what the kept state says.
pub fn commands_are_decided()
    ensures { CommandsAreDecided }
{}

/// Where the versions of values fall, the last value tells the next seq.
pub fn falling_is_enough()
    ensures { FallingIsEnough }
{}
