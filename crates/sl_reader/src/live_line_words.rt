//! What a line says, or why it is refused.

ghost use Rattle.sl_reader.specs.LiveLines.{
  checked,
  command_of,
  exits_of,
  has_verb,
  is_of_locks,
  is_of_script,
  live_line,
  live_line_in,
  live_refusal,
  machine_refusal,
  post_of,
  process_in,
  text_refusal,
  with_verb,
};
ghost use Rattle.sl_report.specs.Languages.{whole_language};
ghost use Rattle.sl_report.specs.ReadLines.{event_in};
ghost use Rattle.sl_schedule.specs.Lines.{line_seen};
ghost use Rattle.std.specs.Prelude.{option_map, IfOk, IsTrue, codes, length, ◌<◌, ◌≡◌};

use crate::live_lines::LiveLine;
use crate::scope::Scope;
use sl_command::parse_command;
use sl_run::{Event, Refusal};
use sl_schedule::{Line, next_event};
use sl_trace::Command;
use std::alloc::{AllocError, Global};

/// The number of lvmlockd's process.
const LOCK_PROCESS: u32 = 1_000_000;

/// A line's number, and what it says or why it is refused.
pub type LiveRead = (u64, Result<LiveLine, Refusal>);

/// Whether the line begins with this verb and a space.
fn has_verb(verb: &[u8], line: &[u8]) -> bool
    ensures exact { result ≡ has_verb verb.now line.now }
    ensures within { IsTrue result → length verb.now < length line.now }
{
    let len = verb.len();
    len < line.len() && &line[..len] == verb && line[len] == b' '
}

/// The line with another verb in place of this one, if it has this one. An `Err` is want of memory.
fn with_verb(
    alloc: Global,
    verb: &[u8],
    other: &[u8],
    line: &[u8],
) -> Result<Option<Vec<u8>>, AllocError>
    ensures { IfOk result (λ text. option_map (λ t. t.items) text ≡ with_verb verb.now other.now line.now) }
{
    if !has_verb(verb, line) {
        return Ok(None);
    }
    let mut text = Vec::from_slice(alloc, other)?;
    text.extend_from_slice(&line[verb.len()..])?;
    Ok(Some(text))
}

/// What an event of `command` is in a live script.
fn command_of(event: Event) -> Option<LiveLine>
    ensures { result ≡ command_of event }
{
    match event {
        Event::GiveCommand { machine, text } => Some(LiveLine::Command { machine, text }),
        Event::GiveLvm { machine, line } => Some(LiveLine::Locks { machine, line }),
        _ => None,
    }
}

/// What it is behind `post`.
fn post_of(event: Event) -> Option<LiveLine>
    ensures { result ≡ post_of event }
{
    match event {
        Event::GiveCommand { machine, text } => Some(LiveLine::Post { machine, text }),
        _ => None,
    }
}

/// What an event of `exit` is behind `exits`.
fn exits_of(event: Event) -> Option<LiveLine>
    ensures { result ≡ exits_of event }
{
    match event {
        Event::ExitOf { machine, process } => Some(LiveLine::Exits { machine, process }),
        _ => None,
    }
}

/// The event that a line spells. An `Err` is want of memory.
fn event_in(alloc: Global, scope: &Scope, line: &[u8]) -> Result<Option<Event>, AllocError>
    ensures { IfOk result (λ event. event ≡ event_in whole_language scope.now.machines scope.now.geometry.sector line.now) }
{
    next_event(alloc, scope.machines, scope.geometry.sector(), line)
}

/// The live line that a line spells, if it does. An `Err` is want of memory.
fn live_line_in(alloc: Global, scope: &Scope, line: &[u8]) -> Result<Option<LiveLine>, AllocError>
    ensures { IfOk result (λ live. live ≡ live_line_in scope.now line.now) }
{
    if let Some(text) = with_verb(alloc, b"post", b"command", line)? {
        return Ok(event_in(alloc, scope, &text)?.and_then(post_of));
    }
    if let Some(text) = with_verb(alloc, b"exits", b"exit", line)? {
        return Ok(event_in(alloc, scope, &text)?.and_then(exits_of));
    }
    Ok(event_in(alloc, scope, line)?.and_then(command_of))
}

/// The process that a text names, if it is a command that names one.
fn process_named(scope: &Scope, text: &[u8]) -> Option<u32>
    ensures { result ≡ process_in scope.now text.now }
{
    match parse_command(text, &scope.geometry) {
        Ok(Command::Acquire { process, .. })
        | Ok(Command::TakeOver { process, .. })
        | Ok(Command::Release { process, .. })
        | Ok(Command::Convert { process, .. })
        | Ok(Command::GetLvb { process, .. })
        | Ok(Command::SetLvb { process, .. })
        | Ok(Command::SetKillpath { process, .. }) => Some(process),
        Ok(_) => None,
        Err(_) => None,
    }
}

/// Whether the text is a command of a script's process: of none of the run's children, and not of lvmlockd.
fn is_of_script(scope: &Scope, text: &[u8]) -> bool
    ensures { result ≡ is_of_script scope.now text.now }
{
    match process_named(scope, text) {
        Some(process) => process < LOCK_PROCESS,
        None => false,
    }
}

/// Whether the text is a command for lvmlockd's process, which acts by lines of its own alone. Its kill program may be set.
fn is_of_locks(scope: &Scope, text: &[u8]) -> bool
    ensures { result ≡ is_of_locks scope.now text.now }
{
    match parse_command(text, &scope.geometry) {
        Ok(Command::SetKillpath { .. }) => false,
        Ok(_) => process_named(scope, text) == Some(LOCK_PROCESS),
        Err(_) => false,
    }
}

/// Why a text may not be given to a machine, if it may not.
fn text_refusal(scope: &Scope, machine: u32, text: &[u8]) -> Option<Refusal>
    ensures { result ≡ text_refusal scope.now machine text.now }
{
    if is_of_script(scope, text) {
        return Some(Refusal::Syntax);
    }
    if scope.is_elsewhere(machine) {
        return Some(Refusal::MissingMachine);
    }
    if is_of_locks(scope, text) {
        return Some(Refusal::MissingLvm);
    }
    None
}

/// Why a line may not be where it is, if it may not.
fn machine_refusal(scope: &Scope, machine: u32) -> Option<Refusal>
    ensures { result ≡ machine_refusal scope.now machine }
{
    if scope.is_elsewhere(machine) {
        Some(Refusal::MissingMachine)
    } else {
        None
    }
}

/// Why a live line is refused, if it is.
fn live_refusal(scope: &Scope, live: &LiveLine) -> Option<Refusal>
    ensures { result ≡ live_refusal scope.now live.now }
{
    match live {
        LiveLine::Command { machine, text } => text_refusal(scope, *machine, text.as_slice()),
        LiveLine::Post { machine, text } => text_refusal(scope, *machine, text.as_slice()),
        LiveLine::Locks { machine, line: _ } => machine_refusal(scope, *machine),
        LiveLine::Exits {
            machine,
            process: _,
        } => machine_refusal(scope, *machine),
        LiveLine::Refused { number: _, why } => Some(*why),
    }
}

/// What was read of a line, or why it is refused.
fn checked(scope: &Scope, live: Option<LiveLine>) -> Result<LiveLine, Refusal>
    ensures { result ≡ checked scope.now live }
{
    let Some(live) = live else {
        return Err(Refusal::Syntax);
    };
    match live_refusal(scope, &live) {
        Some(why) => Err(why),
        None => Ok(live),
    }
}

/// Whether a line says nothing: it is empty, or begins with `#`.
fn is_skipped(line: &[u8]) -> bool
    ensures { result ≡ whole_language.skips line.now }
{
    match line.first() {
        Some(byte) => *byte == b'#',
        None => true,
    }
}

/// What a line behind `begin` says, or why it is refused; None where it is empty or a comment. An `Err` is want of memory.
pub fn live_line(alloc: Global, scope: &Scope, line: &Line) -> Result<Option<LiveRead>, AllocError>
    ensures { IfOk result (λ read. read ≡ live_line scope.now (line_seen line.now)) }
{
    if let Some(why) = line.refusal() {
        return Ok(Some((line.number, Err(why))));
    }
    if is_skipped(line.text) {
        return Ok(None);
    }
    let live = live_line_in(alloc, scope, line.text)?;
    Ok(Some((line.number, checked(scope, live))))
}
