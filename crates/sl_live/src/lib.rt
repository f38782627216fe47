//! Hosts that run live: what the threads of a machine do in one turn, over the machine's cell, its disks and its children.
//!
//! A thread is a loop of turns (`sl_live_machine` has the loops). A turn gives the daemon one input, in a cell under its lock
//! (`sl_cell`), and hands out what its step asks; what a thread gave is kept nowhere, but its seat counts it.
//!
//! 1. `steps`: one turn a kind of thread: `Gives` and `MakesTurn` say what it gave and what came of it.
//! 2. `carried`: the effects of a step are carried out entry by entry, in the order of the history, whoever takes the turn (`Carried`,
//!    `AreCarried`): signals are sent, starts are ordered.
//! 3. `children`: the child programs by their numbers. A start is made with no lock held, and told in a turn of its own; a child that was
//!    signalled meanwhile is killed as it comes, or is not started.
//! 4. `disks`, `records`, `read_before`: a worker's calls on the disks that are lent to it, with what it read and wrote (`Works`).
//!
//! Nothing is claimed of waiting, nor of when anything happens.
#![tactic(auto)]

mod carried;
mod children;
mod disks;
pub mod laws;
mod read_before;
mod records;
mod steps;

pub use carried::{Carried, Due};
pub use children::{Awaited, Children};
pub use disks::Disk;
pub use read_before::ReadBefore;
