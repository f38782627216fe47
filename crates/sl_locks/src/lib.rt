//! lvmlockd's locks on a machine: lines read, asks of the host, replies told.
//!
//! A line becomes a few asks of the host, one after another; the host's reply to each decides what comes next, until the line is answered. What
//! is kept between is which locks are held, which value of a group was last seen, and how far the line that runs has come (`LockTable`). It is
//! the machine of `lvm_turn`, and its place in a daemon's steps is that of `locks_after`.
//!
//! Whatever a turn takes is taken before: `reserve` makes room for one more lock and one more value, so a turn can't fail. A host's reply that is told or kept
//! is moved, not copied; texts are made where they are printed.
#![tactic(auto)]

mod ask;
mod ends;
mod line;
mod line_steps;
mod line_turns;
mod lock;
mod reply;
mod table;

pub use ask::{Ask, push_ask_text};
pub use line::{Kind, LockLine, read_line};
pub use line_steps::{LockInput, StepTold};
pub use lock::{HeldLock, Lock, SeenValue};
pub use reply::{LineReply, push_line_reply};
pub use table::{Answer, LvmLocks};
