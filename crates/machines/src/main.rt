//! Runs live machines and cells over forms in memory of the outside, and prints of each case what does not depend on the schedule.
//!
//! A line of standard input is a case. What comes of it is printed behind it.
//!
//! `cell STEPS` makes a cell of a machine's daemon and two seats that it is closed with, `a` and `b`, and one that is left out, `c`. Steps are
//! divided by `, `; each is `SEAT READING ACT`, and says what its seat does. Behind what each step gave stands what came of the close (`cells`).
//!
//! `host STEPS` makes such a cell over a disk in memory, and tells what each step gives, in the lines of a report (`hosts`). A step is `READING ACT`;
//! an act may also tell that memory is refused from here on (`host_acts`).
//!
//! Any other line is a live script `NAME.script` that is played, with what is peculiar to the outside told in front of its name (`outside`). How it
//! ended is printed, then its output; of replies only the machine, the number of the job and the first word.
#![tactic(auto)]

mod cell_starts;
mod cells;
mod host_acts;
mod host_disks;
mod hosts;
mod outside;
mod played_scripts;
mod steps;

use outside::read_case;
use std::io;
use std::rt::Files;
use std::sync::Wait;
use std::thread::Threads;
use std::time::Clock;

/// What comes of a case.
fn told<R: Files + Clock + Wait + Threads + Eprint + AllocGlobal + Copy + Drop + Send + Sync>(
    rt: R,
    line: &str,
) -> io::Result<String> {
    if let Some(steps) = line.strip_prefix("cell ") {
        return cells::told(rt, steps);
    }
    match line.strip_prefix("host ") {
        Some(steps) => hosts::told(rt, steps),
        None => played_scripts::told(rt, &read_case(line)),
    }
}

fn main(rt: HostRuntime) -> io::Result<()> {
    for line in rt.lines(rt.alloc()) {
        let line = line?;
        let text = told(rt, line.as_str())?;
        println!(rt; "{line}: {text}")?;
    }
    Ok(())
}
