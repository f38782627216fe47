//! A host's cell over a disk in memory, and what it does where memory is wanting.
//!
//! While memory is refused nothing but the cell's own call may want any: steps are read before the first is made, what comes of them is kept in
//! places that were taken before, and told when all are made.

ghost use Rattle.sl_run.specs.Headers.{IsHeader};
ghost use Rattle.sl_run.specs.Lawful.{IsSetting};
ghost use Rattle.sl_world_state.specs.Daemons.{begun_with};
ghost use Rattle.std.specs.Prelude.{◌≡◌};

use crate::cell_starts::{Begun, begin_cell};
use crate::host_acts::{Act, HostStep, mark, read_steps};
use crate::host_disks::{HostDisk, first_disk};
use sl_cell::{Broken, Front, HostCell, NotApplied, Opened, Part, Seat, Station, Teller};
use sl_command::push_effect_lines;
use sl_live_play::LiveHost;
use sl_trace::{Call, Effects, Input};
use std::alloc::{AllocError, Global};
use std::io;
use std::marker::Brand;
use std::rt::Files;
use std::sync::Wait;

/// The seats on a cell: that of each part takes the part's calls. Inputs are given by the second.
#[derive(Drop)]
struct Seats<J: Station> {
    delta: Seat<J>,
    resource: Seat<J>,
}

/// What comes of a step: what the daemon did, or a word, or nothing to tell.
#[derive(Drop)]
enum Came {
    Told(Effects),
    Word(&'static str),
    Marked,
}

/// What comes of an input.
fn give<D: Teller, J: Station, R: Wait>(
    rt: &R,
    cell: &HostCell<D, J>,
    seat: &mut Seat<J>,
    reading: u32,
    input: Input,
) -> Came {
    match cell.apply(rt, seat, u64::from(reading), input, None) {
        Ok(effects) => Came::Told(effects),
        Err(NotApplied::Unasked) => Came::Word("unasked"),
        Err(NotApplied::NoMemory) => Came::Word("no memory"),
        Err(NotApplied::Broken) => Came::Word("broken"),
    }
}

/// Takes the first call that nobody took: of leases, and where there is none of sessions.
fn take<D: Teller, J: Station, R: Wait>(
    rt: &R,
    cell: &HostCell<D, J>,
    seats: &mut Seats<J>,
) -> Result<Option<Call>, Broken> {
    match cell.take(rt, &mut seats.resource, Part::Resource) {
        Ok(None) => cell.take(rt, &mut seats.delta, Part::Delta),
        taken => taken,
    }
}

/// The first call that nobody took is made, and its answer comes to the daemon.
fn serve<D: Teller, J: Station, R: Wait>(
    rt: &R,
    alloc: Global,
    cell: &HostCell<D, J>,
    seats: &mut Seats<J>,
    disk: &mut HostDisk,
    reading: u32,
) -> Result<Came, AllocError> {
    match take(rt, cell, seats) {
        Ok(Some(call)) => {
            let answer = disk.answer(alloc, &call)?;
            let call = call.number;
            let input = Input::Answer { call, answer };
            Ok(give(rt, cell, &mut seats.resource, reading, input))
        }
        Ok(None) => Ok(Came::Word("no call")),
        Err(_) => Ok(Came::Word("broken")),
    }
}

/// What comes of a step.
fn make<D: Teller, J: Station, R: Wait>(
    rt: &R,
    alloc: Global,
    cell: &HostCell<D, J>,
    seats: &mut Seats<J>,
    disk: &mut HostDisk,
    step: HostStep,
) -> Result<Came, AllocError> {
    let HostStep { reading, act } = step;
    match act {
        Act::Give(input) => Ok(give(rt, cell, &mut seats.resource, reading, input)),
        Act::Serve => serve(rt, alloc, cell, seats, disk, reading),
        Act::Mark(bytes) => {
            mark(alloc, bytes);
            Ok(Came::Marked)
        }
    }
}

/// What comes of all steps, in places that are taken before the first.
fn make_all<D: Teller, J: Station, R: Wait>(
    rt: &R,
    alloc: Global,
    cell: &HostCell<D, J>,
    seats: &mut Seats<J>,
    disk: &mut HostDisk,
    steps: Vec<HostStep>,
) -> Result<Vec<Came>, AllocError> {
    let mut came = Vec::with_capacity(alloc, steps.len())?;
    for step in steps {
        let one = make(rt, alloc, cell, seats, disk, step)?;
        came.push(one)?;
    }
    Ok(came)
}

/// Adds what came of a step, in lines.
fn push_came(out: &mut Vec<u8>, came: &Came) -> Result<(), AllocError> {
    match came {
        Came::Told(effects) => push_effect_lines(out, 1, effects),
        Came::Word(word) => {
            out.extend_from_slice(word.as_bytes())?;
            out.push(b'\n')?;
            Ok(())
        }
        Came::Marked => Ok(()),
    }
}

/// The lines of all steps, with semicolons between them.
fn text_of(alloc: Global, came: &[Came]) -> Result<String, AllocError> {
    let mut out = Vec::new(alloc);
    for one in came {
        push_came(&mut out, one)?;
    }
    let lines = std::str::from_utf8(&out).unwrap_or("no text");
    lines.trim_end().replace(alloc, "\n", "; ")
}

/// What comes of steps on a cell to which nothing came yet, and on this disk.
fn told_by<D: Teller, J: Station, R: Wait>(
    rt: &R,
    alloc: Global,
    cell: HostCell<D, J>,
    front: Front<J>,
    mut disk: HostDisk,
    steps: Vec<HostStep>,
) -> Result<String, AllocError> {
    let mut seats = Seats {
        delta: cell.seat(0, &front),
        resource: cell.seat(1, &front),
    };
    let came = make_all(rt, alloc, &cell, &mut seats, &mut disk, steps)?;
    text_of(alloc, &came)
}

/// The same, where the cell is still to be made.
fn told_of<D: Teller, J: Station, R: Wait>(
    rt: &R,
    alloc: Global,
    begun: Begun,
    opened: Opened,
    disk: HostDisk,
    steps: Vec<HostStep>,
) -> Result<String, AllocError>
    requires header { IsHeader begun.header }
    requires setting { IsSetting J.setting }
    requires site { J.setting ≡ begun_with D.Daemon.commands begun.header begun.site }
    requires book { opened.seen.book ≡ J.book }
{
    let Begun { header, site } = begun;
    let (cell, front) = HostCell::<D, J>::new(alloc, &header, site, opened)?;
    told_by(rt, alloc, cell, front, disk, steps)
}

/// What comes of steps on a cell of the daemon of the script `cell`, whose calls are made on a disk.
pub fn told<R: Files + Wait + AllocGlobal + Drop>(rt: R, steps: &str) -> io::Result<String> {
    let alloc = rt.alloc();
    let steps = read_steps(alloc, steps)?;
    let begun = begin_cell(&rt)?;
    let disk = first_disk(alloc, &begun.header)?;
    let text = told_of::<LiveHost, Brand, R>(&rt, alloc, begun, Opened::new(), disk, steps)?;
    Ok(text)
}
