//! What a host does with what was decided, as code: each function here is one of the functions of `sl_host_law` on a host's state, over
//! its effects. Room for these was taken before, so none of it can fail; each clause tells how much room it uses at most.
//!
//! - `delta`: what the holder of an id's sector is to do (`DeltaNext`): a call, a move of its connection, a reply.
//! - `asked_lease`: what a lease does next (`LeaseNext`); `lease_work` carries it out, with the grants and conversions of `grants`.
//! - `wakings`: what time makes due to one session: its joining, its renewal, its settlings, its end.
//! - `recoveries`, `signals`, `refusals`, `ends`: recoveries and kills, who is told to stop, which jobs are refused, which holdings end.
#![tactic(auto)]

mod asked_lease;
mod delta;
mod ends;
mod grants;
pub mod laws;
mod lease_work;
mod recoveries;
mod refusals;
mod signals;
mod wakings;

pub use asked_lease::{
    converting_next, next_after_failure, next_after_read, next_after_write, releasing_next,
    settling_next,
};
pub use delta::carry;
pub use ends::{end_holdings, leave_holdings, remove_connection};
pub use grants::{grant_for, process_named};
pub use lease_work::carry_lease;
pub use recoveries::{Stopped, kill_all, overdue};
pub use refusals::{Refusal, recover, refuse, refuse_chosen, refuse_of_process, stop, time_out};
pub use signals::{send, signal_holders, tell};
pub use wakings::{join_by_time, renew, settle};
