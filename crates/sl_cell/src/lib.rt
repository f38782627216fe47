//! A machine's daemon under one lock, and seats that say who gave what.
//!
//! The machine's history is nowhere: it is a list in the proofs alone (`sl_book`). Under the lock lie the daemon with the front of its history, the
//! watchdog connections, the calls that nobody took, and the entries that were not handed out yet. A thread has a seat: its number, how many entries
//! it gave, how many calls of its part were taken, and how much of the history it has seen. What a call tells a thread is said of that front, so it is
//! true of the one history, whoever else has seen more of it. At the end the counts are added up: where they make up the history's length, each seat
//! has counted exactly the entries of its number.
#![tactic(auto)]

mod cell;
mod closing;
mod copies;
mod kept;
mod lead;
mod part;
mod queue;
mod reply_copies;
mod rest;
mod station;
mod step_copies;
mod teller;

pub use cell::HostCell;
pub use closing::Differ;
pub use lead::{Broken, NotApplied};
pub use part::Part;
pub use station::{Book, Front, Opened, Seat, Signed, Station};
pub use teller::Teller;
