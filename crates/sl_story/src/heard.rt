//! What a line and its report tell of the machines.

use crate::cast::{Cast, Flight, Holding, Machine};
use sl_text::line::split_line;
use sl_text::words::{Words, split_piece};
use std::alloc::AllocError;

/// The resource of a word, if it is one of those that are numbered.
fn resource_in(word: &[u8]) -> Option<u32> {
    let (_, name) = split_piece(b':', word);
    let (first, number) = name?.split_first()?;
    if *first == b'r' {
        sl_text::number::read_short_number(number)
    } else {
        None
    }
}

/// A call was made.
fn hear_call(machine: &mut Machine, words: &mut Words<'_>) -> Result<(), AllocError> {
    let Ok(number) = words.number() else {
        return Ok(());
    };
    let writes = words.skip(b"write");
    machine.flights.push_back(Flight { number, writes })?;
    Ok(())
}

/// A lease was granted.
fn hear_grant(machine: &mut Machine, words: &mut Words<'_>) -> Result<(), AllocError> {
    let Ok(process) = words.number() else {
        return Ok(());
    };
    let Ok(process) = u32::try_from(process) else {
        return Ok(());
    };
    let resource = words.next_piece().and_then(|word| resource_in(word));
    let shared = words.skip(b"sh");
    if let Some(resource) = resource {
        machine.holdings.push(Holding {
            process,
            resource,
            shared,
        })?;
    }
    Ok(())
}

/// A holding has ended.
fn hear_end(machine: &mut Machine, words: &mut Words<'_>) {
    let Ok(process) = words.number() else {
        return;
    };
    let resource = words.next_piece().and_then(|word| resource_in(word));
    if let Some(resource) = resource {
        machine.holdings.retain(|holding| u64::from(holding.process) != process
            || holding.resource != resource);
    }
}

/// A connection to the watchdog daemon was renewed, or is no more: so its session is known to stand, or not to.
fn hear_connection(machine: &mut Machine, words: &mut Words<'_>) {
    let stands = words.skip(b"renew");
    if !stands && !words.skip(b"unregister") {
        return;
    }
    if words.skip(b"ls") {
        machine.joined = stands;
    } else {
        machine.in_group = stands;
    }
}

/// A child is to be started.
fn hear_start(machine: &mut Machine, words: &mut Words<'_>) -> Result<(), AllocError> {
    let Ok(process) = words.number() else {
        return Ok(());
    };
    if let Ok(process) = u32::try_from(process) {
        machine.starts.push_back(process)?;
    }
    Ok(())
}

/// A line of a report, of a machine at a moment.
fn hear_report(cast: &mut Cast, line: &[u8]) -> Result<(), AllocError> {
    let moment = cast.moment;
    let mut words = Words::new(line);
    let Ok(number) = words.positive_short_number() else {
        return Ok(());
    };
    let Some(machine) = cast.machine_mut(number) else {
        return Ok(());
    };
    if words.skip(b"call") {
        hear_call(machine, &mut words)
    } else if words.skip(b"grant") {
        hear_grant(machine, &mut words)
    } else if words.skip(b"end") {
        hear_end(machine, &mut words);
        Ok(())
    } else if words.skip(b"start") {
        hear_start(machine, &mut words)
    } else if words.skip(b"wdmd") {
        hear_connection(machine, &mut words);
        Ok(())
    } else {
        if words.skip(b"test") && words.skip(b"ok") {
            machine.tested = moment;
        }
        Ok(())
    }
}

/// The lines of a report.
pub(crate) fn hear_reports(cast: &mut Cast, report: &[u8]) -> Result<(), AllocError> {
    let mut rest = report;
    while let Some((line, behind)) = split_line(rest) {
        hear_report(cast, line)?;
        rest = behind;
    }
    Ok(())
}

/// A call is answered, or dropped.
fn close_call(machine: &mut Machine, words: &mut Words<'_>) {
    if let Ok(call) = words.number() {
        machine.flights.retain(|flight| flight.number != call);
    }
}

/// A child's start is answered.
fn close_start(machine: &mut Machine, words: &mut Words<'_>) -> Result<(), AllocError> {
    let Ok(child) = words.positive_short_number() else {
        return Ok(());
    };
    machine.starts.retain(|process| *process != child);
    if words.skip(b"ok") {
        machine.children.push_back(child)?;
    }
    Ok(())
}

/// A process has ended.
fn close_process(machine: &mut Machine, words: &mut Words<'_>) {
    if let Ok(child) = words.positive_short_number() {
        machine.children.retain(|process| *process != child);
    }
}

/// A machine has come up at a moment.
fn come_up(machine: &mut Machine, moment: u64) {
    machine.up = true;
    machine.tested = moment;
    machine.away = 0;
    machine.hung = 0;
}

/// Time has passed.
fn hear_pass(cast: &mut Cast, words: &mut Words<'_>) {
    if let Ok(time) = words.number() {
        cast.moment = cast.moment.saturating_add(time);
    }
}

/// What happened on a machine.
fn hear_happening(
    machine: &mut Machine,
    moment: u64,
    word: &[u8],
    words: &mut Words<'_>,
) -> Result<(), AllocError> {
    match word {
        b"do" | b"answer" | b"drop" => close_call(machine, words),
        b"spawned" => close_start(machine, words)?,
        b"exit" => close_process(machine, words),
        b"crash" => machine.end(),
        b"reset" => machine.fall(),
        b"restart" => come_up(machine, moment),
        b"start" => machine.daemon = true,
        _ => {}
    }
    Ok(())
}

/// A line of the schedule.
pub(crate) fn hear_line(cast: &mut Cast, line: &[u8]) -> Result<(), AllocError> {
    let moment = cast.moment;
    let mut words = Words::new(line);
    let Some(word) = words.next_piece() else {
        return Ok(());
    };
    if word == b"pass".as_slice() {
        hear_pass(cast, &mut words);
        return Ok(());
    }
    let Ok(number) = words.positive_short_number() else {
        return Ok(());
    };
    match cast.machine_mut(number) {
        Some(machine) => hear_happening(machine, moment, word, &mut words),
        None => Ok(()),
    }
}
