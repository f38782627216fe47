//! What the signals keep to, whatever is called.

ghost use Rattle.sl_alone.specs.SignalLaws.{AllTold, EachOnce, InOrder, KillsWait, LeftAreThere, NoneBefore, OnlyHolders, StepsGive};

/// Each step gives the signal that is due then, or none, and no other call gives one.
pub fn steps_give()
    ensures { StepsGive }
{}

/// No process is ever given the same signal twice.
pub fn each_once()
    ensures { EachOnce }
{}

/// Before the beginning no signal is due.
pub fn none_before()
    ensures { NoneBefore }
{}

/// No kill is due before the grace is over, nor to a process that was not given term.
pub fn kills_wait()
    ensures { KillsWait }
{}

/// No signal is due to a process that did not hold at the beginning, nor to one that has exited since.
pub fn only_holders()
    ensures { OnlyHolders }
{}

/// A signal goes to the first holder left that was not given it.
pub fn in_order()
    ensures { InOrder }
{}

/// Where no signal is due, each holder that is left was given term; and where the grace is over, kill too.
pub fn all_told()
    ensures { AllTold }
{}

/// Those are left that held at the beginning and have not exited since.
pub fn left_are_there()
    ensures { LeftAreThere }
{}
