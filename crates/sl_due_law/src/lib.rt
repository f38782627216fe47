//! What is due is lawful: what every daemon that does what is due keeps to, put together over whole traces.
//!
//! What is known at each moment of a step stands in `sl_due_facts`, leases in `sl_due_leases`. Here are, a folder each, in the order in
//! which they stand on one another:
//!
//! 1. `laws::recovery`: where a recovery or a leaving begins holders are told to stop and jobs are refused; kills come once the grace has
//!    passed; a session ends only in recovery or at its free's answer.
//! 2. `laws::causes`: each reply is of a running job, one for a job, and has its cause in the trace.
//! 3. `laws::lawful_traces`, `laws::idle_jobs`: so each trace of such steps is lawful, and none of its jobs is idle at an entry's end.
//! 4. `laws::due`: all of it in one sentence, `due_is_lawful`, for any setting that a daemon may be made of, and whatever comes.
#![tactic(auto)]

pub mod laws;
