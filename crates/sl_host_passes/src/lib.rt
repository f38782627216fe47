//! Passes of a step of a host, as code: each function here is one of the functions of `sl_host_law` on a host's state, over its effects.
//!
//! `step_beginning` begins a step: below the reading up to which the host is quiet nothing is due before its input, else `due_before_input` does what is: recoveries that
//! begin, kills, refusals of jobs whose calls are overdue. `processes` has an exit and the answer of a start. `wakes` has what a wake makes due by time,
//! `session_finish` what comes last in a step, `quiet_until` works out how long the host is quiet from here on.
//!
//! A pass over members or jobs goes by their numbers, noted as it begins, in memory that the caller has taken. How many effects and calls a pass makes at
//! most is a sum of the lengths of tables as it begins: no clause counts more.
//!
//! | function | effects | calls |
//! |---|---|---|
//! | `begin_step` | 3 a job, 2 a holding | none |
//! | `exit` | 1 a job, 2 a holding | none |
//! | `spawned` | 1 a holding, and 2 | none |
//! | `wake` | 2 a member, 3 a lease | 2 a member, 1 a lease |
//! | `finish` | 2 a member | 1 a member |
//! | `calm` | none | none |
//!
//! What a pass asks of what is kept (`specs/PassPremises`) are facts that hold of each host that stands for a step.
#![tactic(auto)]

mod due_before_input;
mod processes;
mod quiet_until;
mod session_finish;
mod step_beginning;
mod wakes;

pub use due_before_input::{before_input, recover_all, time_out_all};
pub use processes::{exit, spawned};
pub use quiet_until::calm;
pub use session_finish::finish;
pub use step_beginning::begin_step;
pub use wakes::wake;
