//! A live script played: its header read from a source, its machines run beside each other and beside the script, and what they reply put out as it
//! comes.
//!
//! What is put out are pieces: each machine's are what is told of its history, in its order, the script's are the lines that were refused where it
//! goes on behind them, in their order, and between these they stand as they came. Behind them stands a last line by how the script ended; where
//! records of a machine differ, the case. The clause of `play_live` is `Owes` in
//! specs/LiveOwed.antt: what is due by what was read, and how much of it was put out.
//!
//! A host runs in it as the daemon of a cell (`LiveHost`). A cell writes each step down twice, so before a step it asks its daemon how long a
//! list in the step's replies may be. A host's step has one reply with a list at most: what its own line is answered at once. That is the
//! states of an area's hosts, or the joined sessions, of which there are no more than the host has members. Both are read off the causes of
//! replies, which each daemon has that does what is due.
#![tactic(auto)]

mod difference_lines;
mod final_lines;
mod live_host;
mod play;

pub use final_lines::{put, put_refusal};
pub use live_host::LiveHost;
pub use play::{Lived, Manner, play_live, put_run};
