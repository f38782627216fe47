//! Machines and calls that stand alone: no program has them.
//!
//! Each is a part of the lock manager as it is told in the field, whole and by itself: with its own state, for a caller who has just that part.
//! The daemon has none of them, since it keeps the same within what it keeps anyway, once for all of its sessions, and is made of the single
//! steps that stand below (`sl_delta`, `sl_ballot`, `sl_watch`, `sl_value`, `sl_command`). What is said here is said of these machines alone.
//! `cases` runs them over texts; nothing else stands on this crate, and nothing here is on the way to the program.
//!
//! - `DeltaLease` (`delta_lease`): an `OwnSector` that makes its calls. The call without an answer, how the session stands, its last renewal that
//!   counts, its connection and whether it recovers are kept beside it. What comes (a wake, an answer, a refused job, a leave) is one `step`,
//!   which gives the call, the connection's move and the outcome that are due (`after_step`, `out_of_step`). `laws::deltas`: in recovery it
//!   makes no call, nor after a refusal or an end, and a free is written beside no other.
//! - `Ballot` (`whole_ballot`), `ballot_run`: one ballot from its begin to its end, on blocks that are all whole (`whole_blocks`). `laws::ballots`:
//!   what stops it, that it ends with a value only after its second read, and how a whole ballot ends.
//! - `Recovery` (`recovery`): term to each holder, and kill after a grace (sanlock(8)). It says which signal is due at a reading; to send it is
//!   its caller's part. It stands for every list of calls that led to it (specs/Calls), and which signal is due is a function of the list
//!   (specs/DueSignals). `laws::signals`: no process is given a signal twice, and none before the beginning; no kill before the grace is over, nor
//!   without term; a signal goes to the first of the holders left that was not given it; where none is due, each was given all.
//! - `saw`, `unchanged_for` (`watch_looks`): a watch that is told a sector's bytes, and how long an id stands still.
//! - `push_command_text` (`command_texts`): a command's one text, which `sl_command` reads.
//! - `set`, `get` (`values`): a value's record as its writer makes it, and as a holder reads it. `laws::values`: what is set is what is read.
#![tactic(auto)]

mod command_texts;
mod delta_answers;
mod delta_decisions;
mod delta_lease;
mod delta_purposes;
mod delta_reads;
mod delta_stages;
mod delta_steps;
mod delta_told;
mod holder;
pub mod laws;
pub mod recovery;
mod values;
mod watch_looks;
mod whole_ballot;
mod whole_blocks;

pub use command_texts::push_command_text;
pub use delta_lease::{DeltaLease, OpenDelta, Standing};
pub use delta_steps::{DeltaCall, DeltaIn, DeltaOut, Outcome};
pub use recovery::Recovery;
pub use values::{Value, get, set};
pub use watch_looks::{saw, unchanged_for};
pub use whole_ballot::{Ballot, BallotStep, Phase, ballot_run};
pub use whole_blocks::{next_mbal, phase2_block, value_to_write};
