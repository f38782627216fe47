//! What an answer makes due once the host has heard it, as code: each function here is one of the functions of `sl_host_law` on a host's state.
//!
//! `answers` is the whole of an answer: it is heard, and then acted on. `own_sectors` has the calls on ids' own sectors, `surveys` the reads of all ids, `leases`
//! the work on leases. `requests` has the calls on requests and values, `looks` a holder's look at a request, `jobs` what a job is told where its call is at
//! its end. `answer_owners` says of which session and area a call is.
//!
//! Each part goes by the number of the session that made the call, and does nothing where that is gone. It comes by kind of answer: what a read gave,
//! that a write is done, that the call failed. A read takes no memory: the leader and the blocks of an area are handed in, as the host heard them. What a
//! part relies on is one record (`specs/Facts.antt`), each field of which holds by a law.
#![tactic(auto)]

mod answer_owners;
mod answers;
mod jobs;
mod leases;
mod looks;
mod own_sectors;
mod requests;
mod surveys;

pub use answers::{Heard, answer};
pub use jobs::{answer_failed, answer_requested, answer_set};
pub use leases::{answer_lease_failed, answer_lease_read, answer_lease_written};
pub use looks::answer_look;
pub use own_sectors::{
    JoinAnswer, answer_free_failed, answer_freed, answer_joining, answer_renewed, decide_joining,
};
pub use requests::{answer_request, answer_value};
pub use surveys::{Shown, answer_survey};
