//! What is known of holdings is kept by each act of a step, and holds once a step has begun.
//!
//! Each holding is of a joined session of its lockspace; at one place an exclusive one is alone, and a process has one. An exclusive holding
//! has its ballot behind it as long as it is held: nothing but its lease's own calls could take that away, and while it is held these only
//! clear a mode or free what lies below (`Holdings::LeaseBeside`). Where a job's call is answered by a grant, what was held there is what
//! may be held beside the job's work; where a command grants at once, it is what its line found (`Holdings::DecisionGrounds`).
//!
//! The facts go on effect by effect: ends, signals, starts and moves (`Holdings::HoldingsByEffects`), calls (`Holdings::HoldingsByCalls`), grants
//! (`Holdings::HoldingsByGrants`), the input (`Holdings::HoldingsByInputs`); then act by act.

ghost use Rattle.sl_due_leases.specs.Holdings.DecisionGrounds.{DecisionsHaveGrounds};
ghost use Rattle.sl_due_leases.specs.Holdings.HoldingLaws.{HoldingFactsAreKept, HoldingFactsBegin, MomentsAreKept, MomentsBegin};

/// What a command came to has its grounds: none of its refusals held.
pub fn decisions_have_grounds()
    ensures { DecisionsHaveGrounds }
{}

/// On a wake nothing is granted or ended, and the answer to a start makes no call but the free of a leaving.
pub fn moments_are_kept()
    ensures { MomentsAreKept }
{}

/// So it is once a step has begun, which counts as a wake.
pub fn moments_begin()
    ensures { MomentsBegin }
{}

/// Each act keeps what is known of holdings.
pub fn holding_facts_are_kept()
    ensures { HoldingFactsAreKept }
{}

/// It holds once a step has begun.
pub fn holding_facts_begin()
    ensures { HoldingFactsBegin }
{}
