//! What is due of a daemon that has nothing to do.

ghost use Rattle.sl_due.specs.DueLaws.{IdleWakesDoNothing};

/// A daemon without sessions does nothing on its first wake.
#[tactic(auto, unfolding(crate::specs::Due::due, crate::specs::Due::due_step, crate::specs::Due::before_input, crate::specs::Due::after_input, crate::specs::DueRecovery::begin_recoveries, crate::specs::DueRecovery::kills, crate::specs::DueTimeOuts::time_outs, crate::specs::DueInputs::take_input, crate::specs::DueWake::on_wake, crate::specs::DueWake::finish))]
pub fn idle_wakes_do_nothing()
    ensures { IdleWakesDoNothing }
{}
