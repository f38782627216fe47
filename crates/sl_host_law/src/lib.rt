//! What a host does is what is due: each part of a step, as a function of what the host keeps, follows the definitions, and so does the
//! whole step.
//!
//! There are no bodies here. A law compares a function of states, which is what the code of `sl_host_*` makes, with a function of steps
//! of `sl_due`: a host that stands for the step before the part stands, changed so, for the step behind it, with the same effects. A
//! folder a part, in the order in which they stand on one another: plain facts (`shared_facts`), calls, replies, decisions, questions,
//! parts of a step (`step_parts`), answers, and the step (`steps`).
//!
//! 1. A *question* that a part asks of the trace is answered by what is kept.
//! 2. An *effect* that it makes, and an *input* that it hears, are taken (`calls`, `replies`).
//! 3. A *pass* goes by the numbers of the members that it begins with; a session that is gone meanwhile does nothing in it.
//! 4. `steps_follow`: a host that stands for the steps so far, and is sound, takes an input that may come by the effects that are due,
//!    and stands for the longer trace. `new_hosts_are_sound` begins it.
#![tactic(auto)]

pub mod laws;
