//! Runs cases that stand in files, through the top call, and prints of each its line, the status that it ends with, and what it puts out.
//!
//! A line of standard input is a case: the words of a command line, but that
//!
//! - `schedule NAME` has the schedule `NAME.schedule` for its source; where it puts out what stands in `NAME.report`, `as due` is printed in
//!   place of it;
//! - `words TEXT` has these words, which may begin as another case;
//! - `told SEED HOSTS EVENTS` replays the schedule that is told of them, and with a 2 behind it that of areas with pairs;
//! - `behind COUNT NAME TEXT` replays so many lines of that schedule, and behind them the line `TEXT`;
//! - `lives NAME WORDS` runs live machines by the script `NAME.script`, with these words behind `live`: the folder below which their disks are
//!   files, and the flags, as `--anew` where those that stand there are made anew.
//!
//! `scripted` in front of a schedule has it played by daemons that follow a script (`scripted`), and not by the top call.
//!
//! What goes wrong on the outside is told in front, in this order: `reads N`, where the source gives 30 bytes a read and its Nth read fails;
//! `writes N`, where the sink takes 16 bytes a write and its Nth write fails; `memory N`, where the disks `/f` and `/g` are zeros in memory,
//! and the Nth call of each fails (with 0 none). Else the disks are files; `used FOLDER`, where another program has that folder.
#![tactic(auto)]

mod case;
mod outcome;
mod scripted;

use case::{Case, read_case};
use outcome::{Outcome, push_outcome, run_case};
use scripted::play_scripted;
use sl_io::{WriteSink, write_all};
use sl_outside::{AreaPlan, FileDevices, LiveDevices, SharedDevices, SharedPlan};
use sl_place::{MadeDevices, SystemDevices};
use std::alloc::{AllocError, Global};
use std::fs::{File, Files};
use std::io;
use std::io::ErrorKind;
use std::process::{Processes, SystemProcess};
use std::sync::Wait;
use std::time::Clock;

/// Bytes of a disk in memory.
const AREA: u64 = 1_048_576;

/// Disks of zeros in memory, of each of which this call fails.
fn disks<R: Wait + Clock + Copy + Drop + Send + Sync>(
    rt: R,
    alloc: Global,
    call: u64,
) -> Result<MadeDevices<R>, AllocError> {
    let plan = AreaPlan {
        machine: 1,
        worker: 1,
        failing: vec![in alloc; call]?,
    };
    let plan = SharedPlan {
        areas: vec![in alloc; plan]?,
        spawners: Vec::new(alloc),
        slow: None,
        census: None,
        makes: Vec::new(alloc),
        gate: None,
    };
    let mut devices = MadeDevices::new(alloc, SharedDevices::new(rt, alloc, plan));
    for path in ["/f", "/g"] {
        devices.make("", path, AREA, false).map_err(|_| AllocError)?;
    }
    Ok(devices)
}

/// The devices of another program, which has the folder that is told.
fn others<
    R: Files<File = File>
        + Processes<Started = SystemProcess>
        + Clock
        + Eprint
        + Copy
        + Drop
        + Send,
>(rt: R, alloc: Global, case: &Case) -> FileDevices<R> {
    let mut others = FileDevices::new(rt, alloc);
    if let Some(folder) = &case.used {
        let _taken = others.take(folder.as_str());
    }
    others
}

/// What is printed of a case with this outcome.
fn told(alloc: Global, line: &str, case: &Case, outcome: &Outcome) -> Result<Vec<u8>, AllocError> {
    let mut out = Vec::new(alloc);
    push_outcome(&mut out, line, case, outcome)?;
    Ok(out)
}

fn main(rt: HostRuntime) -> io::Result<()> {
    let alloc = rt.alloc();
    let mut sink = WriteSink::new(rt.stdout());
    for line in rt.lines(alloc) {
        let line = line?;
        let case = read_case(&rt, line.as_str())?;
        let outcome = match (case.scripted, case.memory) {
            (true, _) => play_scripted(alloc, &case.source)?,
            (false, Some(call)) => run_case(&rt, alloc, &case, disks(rt, alloc, call)?)?,
            (false, None) => {
                let _others = others(rt, alloc, &case);
                run_case(&rt, alloc, &case, SystemDevices::new(rt, alloc))?
            }
        };
        let text = told(alloc, line.as_str(), &case, &outcome)?;
        if write_all(&mut sink, &text).is_err() {
            return Err(io::Error::from(ErrorKind::Other));
        }
    }
    Ok(())
}
