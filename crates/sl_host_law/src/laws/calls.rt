//! Calls, starts, a step's beginning and the inputs that bring no answer: what each makes of the steps that a host stands for.

ghost use Rattle.sl_host_law.specs.Calls.Beginnings.{StepsBegin};
ghost use Rattle.sl_host_law.specs.Calls.MemberCalls.{CallsAreTaken};
ghost use Rattle.sl_host_law.specs.Calls.Inputs.{InputsAreHeard};
ghost use Rattle.sl_host_law.specs.Calls.Joinings.{JoiningsAreTaken};
ghost use Rattle.sl_host_law.specs.Calls.Starts.{StartsAreTaken};

/// A call that a member may make is taken.
pub fn calls_are_taken()
    ensures { CallsAreTaken }
{}

/// The first read of a joining is taken: its session begins with it.
pub fn joinings_are_taken()
    ensures { JoiningsAreTaken }
{}

/// A step begins; below the reading kept nothing is due before its input.
pub fn steps_begin()
    ensures { StepsBegin }
{}

/// The host after a start of a child stands for the step with it.
pub fn starts_are_taken()
    ensures { StartsAreTaken }
{}

/// The inputs that answer no call are heard.
pub fn inputs_are_heard()
    ensures { InputsAreHeard }
{}
