//! The executed world of many machines, whichever daemons run in it.
//!
//! A `World` is what is kept of the machines (`sl_machine`) with the daemons that run on them (`Hosts`). A machine is in one of three states,
//! and most events are for a machine in one of them:
//!
//! ```text
//! up, no daemon --start--> up, a daemon --crash--> up, no daemon
//!      |                        |
//!      +--------reset-----------+--> down --restart--> up, no daemon
//! ```
//!
//! What a world stands for (`WorldStands`): each world of the definitions, with its whole history, such that
//!
//! 1. tells: what is kept is what its history comes to. Of machines: clocks, connections, holdings, children, calls in flight; of disks: what stands.
//! 2. sane: numbers rise, calls lie at whole sectors and write records, and what is in flight was submitted and has no answer.
//! 3. reads: its daemons read the commands of its layout.
//! 4. counted, runs: just where a machine's daemon runs one is kept, and it stands for that daemon's trace.
//! 5. stood: for the trace of each daemon, of one that has ended too, a daemon of this kind stood.
//!
//! So it is when a world is new, for the header's world, and after each event that was applied, for the world after it. An event that may not
//! happen is refused by the first refusal that fits; for want of memory, or of numbers, nothing that is seen has changed. It asks nothing of
//! what the daemons do but that they number their calls in turn and write records: whether what they do is due is a question that is not put
//! here.
#![tactic(auto)]

mod apply;
mod conflicts;
mod done_calls;
mod ends;
mod first_world;
mod given_inputs;
mod hosts;
pub mod laws;
mod machine_events;
mod questions;
mod sites;
mod start;
mod torn_writes;
mod untold;
mod world;

pub use apply::ApplyError;
pub use conflicts::Conflicts;
pub use hosts::Hosts;
pub use sites::{first_site, session_of};
pub use untold::is_untold;
pub use world::World;
