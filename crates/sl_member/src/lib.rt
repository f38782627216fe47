//! What a host keeps of its sessions whose lockspaces are in use, and what each call and answer makes of it.
//!
//! A `Member` is one session, put together of machines of a fixed size: its id's sector (`sl_delta`), what it has seen of other ids
//! (`sl_watch`), whom it has asked (`Asked`), and its leases by place (`Leases`, of `sl_lease`). `Members` are those of a host, by lockspace
//! name. They make no call, give no reply and know no job: a host tells them of each call and its answer, and asks what is known.
//!
//! ```text
//! line add_lockspace --> put --> joins ----------> recovers or leaves --> remove_joined
//!                         |                                                    ^
//!                         +--> refuses, a write unanswered --> remove ---------+
//! ```
//!
//! Memory is asked for in `new` and `reserve` alone. The rest changes in place: a lease is found by bisection, a member by number.
//!
//! Each method says what it makes of the kept state as an equation with a state function; `laws` says that these functions are those by
//! which a host's state follows what is due. Two of them need to be told what a host knows of all its calls: that of a session's calls on
//! delta sectors one is unanswered at a time, and that a call is awaited by the lease on its area and by no other (`IsAwaited`).
#![tactic(auto)]

mod asked_requests;
mod calls;
pub mod laws;
mod leases;
mod lookups;
mod member;
mod members;
mod seen_hosts;
mod surveys;

pub use asked_requests::Asked;
pub use leases::Leases;
pub use member::Member;
pub use members::{Members, is_session_arg};
pub use seen_hosts::{Seen, evidence_of, tell_all};
