//! A live machine: the threads over one daemon's cell, what they tell one another, and the history that is closed when they have ended.
//!
//! A thread is a loop that waits, makes a turn and notes what came of it. What a turn does is a step of its own module of laws, with a
//! whole contract; what a thread has done is its seat, whose shape is the thread's contract. Nothing is claimed of waiting.
//!
//! | thread | what it gives, turn by turn |
//! |---|---|
//! | `ticker` | wakes |
//! | `line_thread` | the script's lines, and what lvmlockd's locks ask |
//! | `worker`, one for ids and one for resources | the answers to its part's sector calls |
//! | `starter_thread` | programs are started, with no lock held; what became of each start |
//! | `child_thread` | exits of children |
//! | `device_thread` | nothing: it tests the connections, and keeps the device alive |
//!
//! They tell one another what they need under one lock, a `Board`, and wake one another by bells. A machine `Runs` until all is done
//! (`Over`) or memory was wanting (`Failed`, where it has no whole history). A printer beside them puts out what is told, in the order of
//! the history.
#![tactic(auto)]

mod bell;
mod board;
mod children;
mod device;
mod lines;
mod machine;
mod mail;
mod printer;
mod room;
mod script_waits;
mod starter;
mod thread_numbers;
mod thread_roll;
mod threads;
mod ticker;
mod turn;
mod worker;

pub use machine::{CloseError, Parts, Ran, Spawners, run_machine};
pub use mail::Mail;
pub use printer::Desk;
pub use script_waits::{Post, fail_all};
pub use thread_roll::Roll;
pub use threads::{Clocks, Stand};
