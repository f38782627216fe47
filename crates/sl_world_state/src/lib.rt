//! What a world asks of the daemons that run in it, whatever they do (`Daemon`), and what is kept of a world while a schedule is replayed.
//!
//! A daemon is begun with a site and stands for the list of its entries: the readings, inputs and effects of its steps. Of the effects
//! is asked what a world needs to go on at all: calls and children are numbered on, calls lie at whole sectors and write records, and
//! there are no more of a kind than was said before the step, so that the room for them can be taken first. Nothing is asked of what is
//! due, and no law of safety.
//!
//! The definitions' world keeps the whole history: all calls, landings and resets of the past, and each daemon's trace. What the next
//! event asks of it is less: per machine its clock, its connections and holdings, the numbers that come next and the calls that are
//! still in flight; per sector what stands there. `shown` takes this from a machine, and `Tells` says of which world something is kept.
//! `refusal_in` and `stepped_kept` say the rules over again, of what is kept; that they are the rules is shown by `sl_world_law`.
#![tactic(auto)]

mod daemon;

pub use daemon::{Daemon, Most, Site};
