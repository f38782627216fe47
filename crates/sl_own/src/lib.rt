//! One machine of a header, in a process of its own, on areas that stand.
//!
//! The script's header is the same for all processes: it tells all hosts, disks, lockspaces and resources, and the times that they have in common.
//! Each process runs the machine whose number it is given, and no other: a script's line for another machine is refused. Its machine begins without a
//! session, under a name that was drawn for it, and joins lockspaces by its own commands. So a header that has session lines is refused too.
//!
//! Nothing is made: the disks stand, with the sizes that the header gives them, and on them the areas, each with what the header says of it
//! (`ground`). Where one does not, it is told which and how, before anything is written. What is written then is what the machine's daemon writes:
//! the areas that come back are made of those that were handed out by just the calls of its history.
//!
//! The machine runs as one of a live run does, with a post and a mail of its own (`run`). Those of machines before it are there as well, and
//! nobody listens at them: so the machine has its own number in all that it tells. When all threads have ended, counts tell that what was put out is
//! told of one history that a daemon stood for (`ends`). What is then put out is what a live run puts out (`play`).
#![tactic(auto)]

mod begun;
mod ends;
mod ground;
mod lending;
mod no_place;
mod place;
mod play;
mod run;

pub use no_place::NoPlace;
pub use play::{OwnManner, play_own};
