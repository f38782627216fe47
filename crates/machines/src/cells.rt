//! A cell of one machine's daemon, and seats on it.

ghost use Rattle.sl_run.specs.Headers.{IsHeader};
ghost use Rattle.sl_run.specs.Lawful.{IsSetting};
ghost use Rattle.sl_world_state.specs.Daemons.{begun_with};
ghost use Rattle.std.specs.Prelude.{◌≡◌};

use crate::cell_starts::{Begun, begin_cell};
use crate::steps::{Fronts, Outcome, act, read_step};
use sl_cell::{Differ, Front, HostCell, Opened, Seat, Station, Teller};
use sl_live_play::LiveHost;
use std::alloc::{AllocError, Global};
use std::io;
use std::marker::Brand;
use std::rt::Files;
use std::sync::Wait;

/// What comes of a cell's close with these seats, once what waits is handed out to this front.
fn closed<D: Teller, J: Station, R: Wait>(
    rt: &R,
    cell: HostCell<D, J>,
    seats: &[Seat<J>],
    mine: Front<J>,
) -> Outcome {
    if seats.len() > u32::MAX as usize {
        return Outcome::word("too many seats");
    }
    let mut mine = mine;
    let _last = cell.hand_out(rt, &mut mine);
    let entries = mine.len();
    match cell.close(seats, &mine) {
        Ok(()) => Outcome::counted("agrees ", entries),
        Err(Differ::Entry { entries, .. }) => Outcome::counted("entry ", entries),
        Err(Differ::Broken { entries }) => Outcome::counted("broken ", entries),
    }
}

/// Adds what a step or a close gave.
fn push_outcome(alloc: Global, outcome: Outcome, text: &mut String) -> Result<(), AllocError> {
    text.push_str(outcome.word)?;
    if let Some(number) = outcome.number {
        let digits = format!(in alloc; "{number}")?;
        text.push_str(digits.as_str())?;
    }
    Ok(())
}

/// What a step gives.
fn step<D: Teller, J: Station, R: Wait>(
    rt: &R,
    alloc: Global,
    cell: &HostCell<D, J>,
    seats: &mut [Seat<J>],
    fronts: &mut Fronts<J>,
    text: &str,
) -> Result<Outcome, AllocError> {
    let Some(step) = read_step(text) else {
        return Ok(Outcome::word("no step"));
    };
    match seats.get_mut(step.seat) {
        Some(seat) => act(rt, alloc, cell, seat, fronts, step),
        None => Ok(Outcome::word("no seat")),
    }
}

/// Three seats, of the threads 0, 1 and 2.
fn seats_of<D: Teller, J: Station>(
    alloc: Global,
    cell: &HostCell<D, J>,
    front: &Front<J>,
) -> Result<Vec<Seat<J>>, AllocError> {
    let mut seats = Vec::new(alloc);
    for number in 0..3 {
        seats.push(cell.seat(number, front))?;
    }
    Ok(seats)
}

/// Adds what steps give on a cell.
fn push_given<D: Teller, J: Station, R: Wait>(
    rt: &R,
    alloc: Global,
    cell: &HostCell<D, J>,
    seats: &mut [Seat<J>],
    fronts: &mut Fronts<J>,
    steps: &str,
    text: &mut String,
) -> Result<(), AllocError> {
    for part in steps.split(", ") {
        let outcome = step(rt, alloc, cell, seats, fronts, part)?;
        push_outcome(alloc, outcome, text)?;
        text.push_str(", ")?;
    }
    Ok(())
}

/// Adds what steps give on a cell, and what comes of its close with all seats but the last.
fn push_told<D: Teller, J: Station, R: Wait>(
    rt: &R,
    alloc: Global,
    cell: HostCell<D, J>,
    front: Front<J>,
    steps: &str,
    text: &mut String,
) -> Result<(), AllocError> {
    let mut seats = seats_of(alloc, &cell, &front)?;
    let mut fronts = Fronts {
        other: front.again(),
        mine: front,
    };
    push_given(rt, alloc, &cell, &mut seats, &mut fronts, steps, text)?;
    let _left_out = seats.pop();
    let Fronts { mine, other: _ } = fronts;
    push_outcome(alloc, closed(rt, cell, &seats, mine), text)
}

/// The same, where the cell is still to be made.
fn push_told_of<D: Teller, J: Station, R: Wait>(
    rt: &R,
    alloc: Global,
    begun: Begun,
    opened: Opened,
    steps: &String,
    text: &mut String,
) -> Result<(), AllocError>
    requires header { IsHeader begun.header }
    requires setting { IsSetting J.setting }
    requires site { J.setting ≡ begun_with D.Daemon.commands begun.header begun.site }
    requires book { opened.seen.book ≡ J.book }
{
    let Begun { header, site } = begun;
    let (cell, front) = HostCell::<D, J>::new(alloc, &header, site, opened)?;
    push_told(rt, alloc, cell, front, steps.as_str(), text)
}

/// What comes of steps on a cell of the daemon of the script `cell`.
pub fn told<R: Files + Wait + AllocGlobal + Drop>(rt: R, steps: &str) -> io::Result<String> {
    let alloc = rt.alloc();
    let steps = String::from_str(alloc, steps)?;
    let begun = begin_cell(&rt)?;
    let mut text = String::new(alloc);
    push_told_of::<LiveHost, Brand, R>(&rt, alloc, begun, Opened::new(), &steps, &mut text)?;
    Ok(text)
}
