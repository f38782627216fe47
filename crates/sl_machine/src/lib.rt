//! What is kept of a world's machines, and what each event makes of it.
//!
//! An event goes one of three ways:
//!
//! ```text
//! event --> refusal --> (refused, by the first test that fails: machine, daemon, call, premise)
//!              |
//!              +--> its machine's own: pass, test, crash, reset, restart, drop, sample, land, tear, exit without a daemon
//!              |
//!              +--> an input of its daemon: what it is given (`hear`, `images`), room (`reserve`), the daemon's step, then `step`
//! ```
//!
//! `Kept` keeps of the world's past only what its next event asks for: of a machine its clock, last keepalive, connections, holdings, what lingers
//! of those that a reset ended, children
//! whose start has no answer, lvmlockd's locks, and the calls in flight; of the disks what stands there; the names that were given. Its value is the
//! record of `sl_world_state`, so each clause here is an equation between two such records, and no world occurs in any. Room is taken before the
//! daemon steps, since a step that was made can't be taken back: what comes behind it can't fail. Calls are found by number, disks by place,
//! names by hash.
#![tactic(auto)]

mod calls;
mod children;
mod event_refusals;
mod first_world;
mod flight;
mod flights;
mod heard_inputs;
mod kept_world;
pub mod laws;
mod locks;
mod machine;
mod machine_effects;
mod machine_holdings;
mod machine_refusals;
mod names;
mod reads;
mod report_questions;
mod reset_holdings;
mod room;
mod time_passes;
mod time_refusals;
mod torn_bytes;

pub use calls::Landing;
pub use event_refusals::machine_of;
pub use flight::{Flight, Outcome};
pub use flights::Flights;
pub use heard_inputs::{Heard, hear, hear_read};
pub use kept_world::Kept;
pub use locks::{LockTable, lock_input_of};
pub use machine::Machine;
pub use machine_effects::no_effects;
pub use reset_holdings::Lingering;
