//! What a delta lease keeps to.

ghost use Rattle.sl_alone.specs.DeltaLaws.{StepsAreSafe};

/// What no step of a lease does.
pub fn steps_are_safe()
    ensures { StepsAreSafe }
{}
