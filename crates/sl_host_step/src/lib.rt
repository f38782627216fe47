//! A host as a daemon of a world (`HostDaemon`): whether an input may come to it, and its whole step.
//!
//! A step does its work in one order: memory is taken and numbers are looked at, what is due before the input is done (`start`), the
//! input is taken, on a wake what time makes due, and what comes last (`conclude`). An `Err` is want of memory or of numbers, and has
//! changed nothing; behind the taking of memory nothing can fail.
//!
//! | input | function | memory for |
//! |---|---|---|
//! | a line that takes a number alone | `step_number` | few things |
//! | a line | `step_line` | few things; all, where it leaves a lockspace |
//! | the answer to a call | `step_answer`, `step_images` | few things; all, for a read of all ids |
//! | a wake, an exit, the answer to a start | `step_wake`, `step_exit`, `step_start` | all that the host holds |
//!
//! Where something may be due by time in the step it is memory for all, whatever the input.
//!
//! What holds, under the names of specs/:
//!
//! 1. `Serves`: between two steps a host stands for the list of its steps so far, and is sound. It is all that a world knows of it.
//! 2. `ExpectedIs`: an input may come exactly where the trace expects it, which is asked of what is kept.
//! 3. `AtInput`, `AtEnd`, `AllDone` (`Moments`): where a part of a step begins, the host has come so far from what was kept first.
//! 4. `HasStepped`: a step makes the effects that are due, no more of them than was said before, and leaves no step in progress.
//! 5. `Rests` (`SpareRoom`): between two steps nothing stands by, or the room of any one step, which `stand_by` takes ahead: so a host
//!    can kill whom it must, though no memory is left.
#![tactic(auto)]

mod answer;
mod bytes;
mod daemon;
mod expected_inputs;
mod input_steps;
pub mod laws;
mod line;
mod step;
mod step_memory;

pub use daemon::HostDaemon;
