//! What comes next: acts, each of which gives the lines that may be told then.

use crate::cast::{Cast, FIRE, Flight, Machine};
use crate::commands::{command, join};
use crate::draws::Draws;
use crate::header::SPARE_IDS;
use crate::lvm_lines::lvm_line;
use crate::mishaps::{comeback, fates, mishap};
use std::alloc::{AllocError, Global};
use std::collections::VecDeque;

/// What is done next, and on which machine.
#[derive(Clone, Copy)]
pub(crate) enum Act {
    /// Time passes.
    Pass,
    /// The watchdog daemon tests, where that is due.
    Test(u32),
    Wake(u32),
    /// A call is carried out.
    Call(u32),
    /// A write of an ended daemon lands or never does.
    Ended(u32),
    /// A child's start is answered, or a process ends.
    Process(u32),
    /// A command line is given.
    Command(u32),
    Lvm(u32),
    /// A lockspace is joined, of which there are two.
    Join(u32, u32),
    Comeback(u32),
    Mishap(u32),
}

/// Behind how many milliseconds without a test the watchdog daemon tests.
const TESTED: u64 = 250;

/// The lines that may be told at an act, in the order in which they are tried.
pub(crate) type Lines = VecDeque<String>;

/// One line.
fn only(alloc: Global, line: String) -> Result<Lines, AllocError> {
    let mut lines = Lines::new(alloc);
    lines.push_back(line)?;
    Ok(lines)
}

/// So many milliseconds, in which each clock may grow by some more or fewer.
fn pass_line(
    alloc: Global,
    cast: &Cast,
    draws: &mut Draws,
    time: u32,
) -> Result<String, AllocError> {
    let mut line = format!(in alloc; "pass {time}")?;
    if draws.once_in(4) {
        for _ in 0..cast.count() {
            let growth = u64::from(time) * 990
                + u64::from(draws.below(time.saturating_mul(20).saturating_add(1).max(1)));
            let word = format!(in alloc; " {growth}")?;
            line.push_str(&word)?;
        }
    }
    Ok(line)
}

/// Adds what must come before time can pass, on a machine: a test that holds, or a reset.
fn push_overdue(
    alloc: Global,
    lines: &mut Lines,
    machine: &Machine,
    number: u32,
    until: u64,
) -> Result<(), AllocError> {
    if machine.up && machine.tested.saturating_add(FIRE) < until {
        lines.push_back(format!(in alloc; "reset {number}")?)?;
    }
    if !machine.daemon {
        if let Some(flight) = machine.flights.front() {
            let call = flight.number;
            lines.push_back(format!(in alloc; "drop {number} {call}")?)?;
        }
    }
    Ok(())
}

/// Time that passes, or else what must come before it.
fn pass(alloc: Global, cast: &Cast, draws: &mut Draws) -> Result<Lines, AllocError> {
    let time = draws.one_of(&[10, 20, 20, 30, 30, 40, 40, 50, 50, 50, 60, 150], 50);
    let mut lines = only(alloc, pass_line(alloc, cast, draws, time)?)?;
    let until = cast.moment.saturating_add(u64::from(time));
    for (index, machine) in cast.machines.iter().enumerate() {
        let number = u32::try_from(index).unwrap_or(0).saturating_add(1);
        push_overdue(alloc, &mut lines, machine, number, until)?;
    }
    Ok(lines)
}

/// A call that is carried out, whole or in part, or fails.
fn call_lines(
    alloc: Global,
    draws: &mut Draws,
    number: u32,
    flight: Flight,
) -> Result<Lines, AllocError> {
    let call = flight.number;
    let mut lines = Lines::new(alloc);
    match draws.below(60) {
        0 => lines.push_back(format!(in alloc; "answer {number} {call} failed")?)?,
        1 if flight.writes => {
            let kept = 100 + draws.below(300);
            lines.push_back(format!(in alloc; "tear {number} {call} {kept} 00")?)?;
        }
        1 | 2 | 3 => {
            if flight.writes {
                lines.push_back(format!(in alloc; "land {number} {call}")?)?;
            } else {
                lines.push_back(format!(in alloc; "sample {number} {call} 1")?)?;
            }
        }
        4..=11 => lines.push_back(format!(in alloc; "answer {number} {call} ok")?)?,
        _ => {}
    }
    lines.push_back(format!(in alloc; "do {number} {call}")?)?;
    lines.push_back(format!(in alloc; "answer {number} {call} failed")?)?;
    Ok(lines)
}

/// The call of a machine that is carried out next: mostly the first.
fn next_flight(machine: &Machine, draws: &mut Draws) -> Option<Flight> {
    let count = u32::try_from(machine.flights.len()).ok()?;
    if count > 1 && draws.once_in(4) {
        let at = draws.below(count);
        machine.flights.get(at as usize).copied()
    } else {
        machine.flights.front().copied()
    }
}

/// What a process of a machine does: a child starts or doesn't, or one ends.
fn process_lines(
    alloc: Global,
    draws: &mut Draws,
    machine: &Machine,
    number: u32,
) -> Result<Lines, AllocError> {
    if let Some(child) = machine.starts.front().copied() {
        let how = if draws.once_in(6) { "failed" } else { "ok" };
        return only(alloc, format!(in alloc; "spawned {number} {child} {how}")?);
    }
    if draws.once_in(2) {
        if let Some(child) = machine.children.front().copied() {
            return only(alloc, format!(in alloc; "exit {number} {child}")?);
        }
    }
    let process = 1 + draws.below(5);
    only(alloc, format!(in alloc; "exit {number} {process}")?)
}

/// The lines of an act on a machine that acts, or answers.
fn of_machine(
    alloc: Global,
    cast: &Cast,
    draws: &mut Draws,
    act: Act,
) -> Result<Option<Lines>, AllocError> {
    let moment = cast.moment;
    match act {
        Act::Test(number) => match cast.machine(number) {
            Some(machine) if machine.up && machine.tested.saturating_add(TESTED) <= moment => {
                Ok(Some(only(alloc, format!(in alloc; "test {number}")?)?))
            }
            _ => Ok(None),
        },
        Act::Call(number) => match cast.machine(number) {
            Some(machine) if machine.answers(moment) => match next_flight(machine, draws) {
                Some(flight) => Ok(Some(call_lines(alloc, draws, number, flight)?)),
                None => Ok(None),
            },
            _ => Ok(None),
        },
        Act::Process(number) => match cast.machine(number) {
            Some(machine) if machine.up => Ok(Some(process_lines(alloc, draws, machine, number)?)),
            _ => Ok(None),
        },
        _ => Ok(None),
    }
}

/// These lines, as a queue.
fn queue(alloc: Global, lines: Vec<String>) -> Result<Lines, AllocError> {
    let mut queue = Lines::new(alloc);
    for line in lines {
        queue.push_back(line)?;
    }
    Ok(queue)
}

/// What becomes of the next write of a machine on which no daemon runs, if there is one: it is thought of no more.
fn ended_lines(
    alloc: Global,
    cast: &mut Cast,
    draws: &mut Draws,
    number: u32,
) -> Result<Lines, AllocError> {
    let flight = match cast.machine_mut(number) {
        Some(machine) if !machine.daemon => machine.flights.pop_front(),
        _ => None,
    };
    match flight {
        Some(flight) => queue(alloc, fates(alloc, draws, number, flight.number)?),
        None => Ok(Lines::new(alloc)),
    }
}

/// Whether the daemon of a machine acts.
fn acts(cast: &Cast, number: u32) -> bool {
    match cast.machine(number) {
        Some(machine) => machine.acts(cast.moment),
        None => false,
    }
}

/// The lines that may be told at an act.
pub(crate) fn lines_of(
    alloc: Global,
    cast: &mut Cast,
    draws: &mut Draws,
    act: Act,
) -> Result<Lines, AllocError> {
    match act {
        Act::Pass => pass(alloc, cast, draws),
        Act::Wake(number) if acts(cast, number) => only(alloc, format!(in alloc; "wake {number}")?),
        Act::Command(number) if acts(cast, number) => {
            only(alloc, command(alloc, cast, draws, number)?)
        }
        Act::Lvm(number) if acts(cast, number) => only(alloc, lvm_line(alloc, draws, number)?),
        Act::Join(number, lockspace) if acts(cast, number) => {
            only(alloc, join_line(alloc, cast, draws, number, lockspace)?)
        }
        Act::Ended(number) => ended_lines(alloc, cast, draws, number),
        Act::Comeback(number) => queue(alloc, comeback(alloc, cast, number)?),
        Act::Mishap(number) => match mishap(alloc, cast, draws, number)? {
            Some(line) => only(alloc, line),
            None => Ok(Lines::new(alloc)),
        },
        act => match of_machine(alloc, cast, draws, act)? {
            Some(lines) => Ok(lines),
            None => Ok(Lines::new(alloc)),
        },
    }
}

/// A joining, mostly under the machine's own number.
fn join_line(
    alloc: Global,
    cast: &mut Cast,
    draws: &mut Draws,
    number: u32,
    lockspace: u32,
) -> Result<String, AllocError> {
    let most = cast.count().saturating_add(SPARE_IDS).max(1);
    let id = if draws.once_in(4) {
        draws.below(most).saturating_add(1)
    } else {
        number
    };
    if lockspace == 0 {
        if let Some(machine) = cast.machine_mut(number) {
            machine.id = id;
        }
    }
    let text = join(alloc, lockspace, id)?;
    format!(in alloc; "command {number} {text}")
}

/// The joinings of a machine that has no session, now and then.
fn plan_joining(
    agenda: &mut VecDeque<Act>,
    machine: &Machine,
    draws: &mut Draws,
    number: u32,
) -> Result<(), AllocError> {
    if machine.daemon && !machine.joined && draws.once_in(25) {
        agenda.push_back(Act::Join(number, 0))?;
    }
    if machine.daemon && !machine.in_group && draws.once_in(50) {
        agenda.push_back(Act::Join(number, 1))?;
    }
    Ok(())
}

/// The acts of a machine in a round.
fn plan_machine(
    agenda: &mut VecDeque<Act>,
    cast: &Cast,
    draws: &mut Draws,
    number: u32,
) -> Result<(), AllocError> {
    agenda.push_back(Act::Test(number))?;
    if draws.once_in(4) {
        agenda.push_back(Act::Wake(number))?;
    }
    agenda.push_back(Act::Call(number))?;
    if draws.once_in(4) {
        agenda.push_back(Act::Command(number))?;
        agenda.push_back(Act::Call(number))?;
    }
    if draws.once_in(20) {
        agenda.push_back(Act::Lvm(number))?;
        agenda.push_back(Act::Call(number))?;
    }
    if let Some(machine) = cast.machine(number) {
        plan_joining(agenda, machine, draws, number)?;
    }
    match cast.machine(number) {
        Some(machine) if !machine.daemon => {
            agenda.push_back(Act::Ended(number))?;
            if draws.once_in(12) {
                agenda.push_back(Act::Comeback(number))?;
            }
        }
        Some(machine) if !machine.starts.is_empty() => agenda.push_back(Act::Process(number))?,
        _ => {
            if draws.once_in(25) {
                agenda.push_back(Act::Process(number))?;
            }
        }
    }
    Ok(())
}

/// The acts of a round: time passes, and each machine has its turn.
pub(crate) fn plan(
    agenda: &mut VecDeque<Act>,
    cast: &Cast,
    draws: &mut Draws,
) -> Result<(), AllocError> {
    agenda.push_back(Act::Pass)?;
    for number in 0..cast.count() {
        plan_machine(agenda, cast, draws, number.saturating_add(1))?;
    }
    if draws.once_in(25) {
        let number = 1 + draws.below(cast.count().max(1));
        agenda.push_back(Act::Mishap(number))?;
    }
    Ok(())
}

/// What an act at which a line was told leaves to be done at once.
pub(crate) fn go_on(
    agenda: &mut VecDeque<Act>,
    draws: &mut Draws,
    act: Act,
    line: &[u8],
) -> Result<(), AllocError> {
    match act {
        Act::Pass if !line.starts_with(b"pass") => agenda.push_front(Act::Pass)?,
        Act::Call(number) if !draws.once_in(5) => agenda.push_front(Act::Call(number))?,
        Act::Ended(number) => agenda.push_front(Act::Ended(number))?,
        Act::Comeback(number) if line.starts_with(b"start ") => {
            agenda.push_front(Act::Join(number, 1))?;
            agenda.push_front(Act::Join(number, 0))?;
        }
        _ => {}
    }
    Ok(())
}
