//! A step of a host as one function of states: it begins, what is due before its input is done, the input is heard and done, on a wake the
//! three passes are made, and what comes last is done. A pass goes by the numbers of the members that it begins with, and finds each again
//! when its turn comes, since a part may take members out.
//!
//! The law on the whole asks of an input what `MayTake` says (specs/Steps/StepsFollow): that open calls are their members', that a conversion which an
//! answer ends may be, that a line's calls fit their lease. `sl_step_law` shows it of each input that may come.

ghost use Rattle.sl_host_law.specs.Steps.Beginnings.{BeginningsFollow};
ghost use Rattle.sl_host_law.specs.Steps.Endings.{EndingsFollow};
ghost use Rattle.sl_host_law.specs.Steps.LinesFollow.{LinesFollow};
ghost use Rattle.sl_host_law.specs.Steps.NewHosts.{NewHostsAreSound};
ghost use Rattle.sl_host_law.specs.Steps.InputsFollow.{InputsAreSound, InputsFollow};
ghost use Rattle.sl_host_law.specs.Steps.WakesFollow.{WakesFollow};
ghost use Rattle.sl_host_law.specs.Steps.StepsFollow.{StepsFollow};

/// A host that stands for the steps so far, and whose members have names of their own, has at the next step's input done what is due before
/// it.
pub fn beginnings_follow()
    ensures { BeginningsFollow }
{}

/// Renewals on a wake, and what comes last in a step, follow what is due.
pub fn endings_follow()
    ensures { EndingsFollow }
{}

/// The three passes of a wake follow what is due, for a host that is sound, and leave it so.
pub fn wakes_follow()
    ensures { WakesFollow }
{}

/// What an input makes due, but for a line: the state follows the step.
pub fn inputs_follow()
    ensures { InputsFollow }
{}

/// Numbers, exits and starts leave a host sound.
pub fn inputs_are_sound()
    ensures { InputsAreSound }
{}

/// What a line makes due: the state follows the step.
pub fn lines_follow()
    ensures { LinesFollow }
{}

/// The whole of a step: a host that stands for the steps so far, and is sound, takes an input that may come by the effects that are due, and
/// stands for the longer trace.
pub fn steps_follow()
    ensures { StepsFollow }
{}

/// A new host is sound: nothing that it keeps is out of its bounds.
pub fn new_hosts_are_sound()
    ensures { NewHostsAreSound }
{}
