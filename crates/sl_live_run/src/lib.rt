//! The machines of a live run beside each other, and the script beside them: what it begins with, and what is left of it once all threads
//! have ended.
//!
//! A script's header tells the world at its moment 0, as a schedule's does. Two things of it are made and not told: a machine's first reading
//! is one of its clock, and a machine without a session has a name that was drawn for it. So what a run begins with is a header too, the
//! given one with the clocks' readings in place of its `clock` lines (`Ground`), and each machine's daemon begins as one of that header's world
//! does: `laws` says that its site is good to begin with. First the folder is taken, and no disk may stand there unless it is to be made anew
//! (`folder`). Disks are made next (`disks`), then the clocks are read (`clocks`). Then each
//! machine is given its parts (`machine_sites`), its areas among them; the areas of machine 1 are the ones through which the sectors of moment 0
//! are written (`initial`), so that they stand before any thread runs. An area that was handed out goes back to the devices if the run can't
//! begin: that is how a fault of it is counted. At the end all that machines leave goes back, their spawners too (`remains`); so where devices tell what they
//! handed out and what came back, they tell that their own areas and spawners served the histories.
//!
//! Each machine is a closed unit: it makes its cell, runs its threads over it and closes it, and no other thread sees the cell. So each run of a
//! machine picks the setting that its cell is of, and its history is one of that setting. The script reaches a machine through its post. A
//! post stands under a lock, of which nothing is known afterwards; so the script also writes each line that it gives into a log, and what the
//! machine's printer has met of its own lines is told by that log (`sl_book`'s mail). The printer compares the lines of the history with them as
//! the entries come, and puts what it tells of them out, so that nobody keeps a history. What is left at the end (`ends`) are counts: how each
//! machine ended, how much of its lines its printer has met, and how many pieces it put out. From them it is told (`compare`) that there are
//! histories that daemons stood for, whose lines are the script's, of which nothing is unanswered, and of which just the pieces that were put out
//! are told; or a case in which that fails, for some machine; or want of memory. The script's thread puts out pieces too, which are the refusals of
//! the lines that the script goes on behind: its number in the output is the one behind the machines' places.
#![tactic(auto)]

mod begun;
mod beside;
mod clocks;
mod compare;
mod disks;
mod ends;
mod folder;
mod ground;
mod initial;
pub mod laws;
mod machine_runs;
mod machine_sites;
mod remains;
mod run;
mod script;
mod script_lines;

pub use beside::beside_script;
pub use clocks::{TICKS, read_once, with_readings};
pub use compare::{LiveDiffer, LiveStop, Settled, are_pieces, settle_early, settle_one};
pub use disks::{give_back, take_back, worker_of};
pub use folder::{NoEntry, enter};
pub use ground::{Ground, NoGround, Prepared, prepare};
pub use machine_runs::{Machine, Shared, Work};
pub use machine_sites::{clocks_of, site_of};
pub use remains::give_all_back;
pub use run::{LiveRun, MACHINE_THREADS, Remains, ended_early, run_machines};
pub use script::Ways;
