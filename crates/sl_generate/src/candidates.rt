//! The candidates of an event, from its draws and from what the world answers.
//!
//! A list of candidates is made from its end, so each comes to stand in front of those before which it is to be tried.

ghost use Rattle.sl_generate.specs.Candidates.{call_candidates, due_resets, first_with, life_candidates, rare_event, time_candidates, useful_tests, work_event};
ghost use Rattle.sl_play.specs.Plays.{state_of};
ghost use Rattle.sl_report.specs.GeneratedSchedules.{gen_host_name};
ghost use Rattle.sl_world_law.specs.DrawnCandidates.{candidates_in, least_ended_in};
ghost use Rattle.std.specs.Prelude.{IfOk, OnOk, [], codes, decimal, length, ◌++◌, ◌∷◌, ◌≡◌, ◌≤◌};

use crate::draws::Draws;
use crate::texts::{acquire_text, join_text, release_text};
use sl_machine::LockTable;
use sl_play::Play;
use sl_run::Event;
use sl_text::Name;
use sl_world_state::Daemon;
use std::alloc::{AllocError, Global};
use std::collections::VecDeque;

/// How long the time that passes is, in milliseconds.
const TIME: u64 = 50;

/// Adds resets of the machines whose last keepalive is soon too old, in front.
fn add_resets<D: Daemon, L: LockTable>(
    events: &mut VecDeque<Event>,
    play: &Play<D, L>,
    hosts: u32,
) -> Result<(), AllocError>
    ensures { OnOk result (events.new.items ≡ due_resets (state_of L.locks play.now).kept hosts ++ events.old.items) }
{
    let mut machine = hosts;
    while machine > 0 {
        if play.world().is_starving(machine) {
            events.push_front(Event::Reset { machine })?;
        }
        machine -= 1;
    }
    Ok(())
}

/// Adds tests that would hold and move a keepalive, in front.
fn add_tests<D: Daemon, L: LockTable>(
    events: &mut VecDeque<Event>,
    play: &Play<D, L>,
    hosts: u32,
) -> Result<(), AllocError>
    ensures { OnOk result (events.new.items ≡ useful_tests (state_of L.locks play.now).kept hosts ++ events.old.items) }
{
    let mut machine = hosts;
    while machine > 0 {
        if play.world().is_useful(machine) {
            events.push_front(Event::Test { machine })?;
        }
        machine -= 1;
    }
    Ok(())
}

/// The call of a machine, with it, if there is one; else what was found behind.
fn least_with(machine: u32, call: Option<u64>, behind: Option<(u32, u64)>) -> Option<(u32, u64)>
    ensures { result ≡ first_with machine call behind }
{
    match call {
        Some(call) => Some((machine, call)),
        None => behind,
    }
}

/// The least machine with a call in flight of an ended daemon, and the least such call.
fn least_ended<D: Daemon, L: LockTable>(play: &Play<D, L>, hosts: u32) -> Option<(u32, u64)>
    requires { length (state_of L.locks play.now).kept.machines ≡ hosts }
    ensures { result ≡ least_ended_in (state_of L.locks play.now).kept }
{
    let mut least = None;
    let mut machine = hosts;
    while machine > 0 {
        least = least_with(machine, play.world().least_ended_on(machine), least);
        machine -= 1;
    }
    least
}

/// Time that passes, and what may then be due.
fn of_time<D: Daemon, L: LockTable>(
    alloc: Global,
    play: &Play<D, L>,
    hosts: u32,
) -> Result<VecDeque<Event>, AllocError>
    requires { length (state_of L.locks play.now).kept.machines ≡ hosts }
    ensures { IfOk result (λ events. events.items ≡ time_candidates (state_of L.locks play.now).kept hosts) }
{
    let mut events = VecDeque::new(alloc);
    add_resets(&mut events, play, hosts)?;
    if let Some((machine, call)) = least_ended(play, hosts) {
        events.push_front(Event::DropWrite { machine, call })?;
    }
    add_tests(&mut events, play, hosts)?;
    events.push_front(Event::Pass {
        time: TIME,
        growths: None,
    })?;
    Ok(events)
}

/// The name of a daemon that begins at the event of this number.
fn daemon_name(alloc: Global, machine: u32, number: u64) -> Result<Name, AllocError>
    requires { machine ≤ 16 }
    ensures { IfOk result (λ name. name ≡ gen_host_name machine ++ codes "_" ++ decimal number) }
{
    let text = format!(in alloc; "h{machine}_{number}")?;
    match Name::new(text.as_bytes()) {
        Some(name) => Ok(name),
        None => unreachable!(),
    }
}

/// A daemon that is woken, a machine that comes up, or a daemon that begins.
fn of_life(alloc: Global, machine: u32, number: u64) -> Result<VecDeque<Event>, AllocError>
    requires { machine ≤ 16 }
    ensures { IfOk result (λ events. events.items ≡ life_candidates machine number) }
{
    let name = daemon_name(alloc, machine, number)?;
    let mut events = VecDeque::new(alloc);
    events.push_front(Event::StartDaemon { machine, name })?;
    events.push_front(Event::Restart { machine })?;
    events.push_front(Event::WakeUp { machine })?;
    Ok(events)
}

/// A call that is done or that fails, or else a write that is dropped.
fn of_call(
    alloc: Global,
    machine: u32,
    call: Option<u64>,
    ok: bool,
) -> Result<VecDeque<Event>, AllocError>
    ensures { IfOk result (λ events. events.items ≡ call_candidates machine call ok) }
{
    let mut events = VecDeque::new(alloc);
    if let Some(call) = call {
        events.push_front(Event::DropWrite { machine, call })?;
        events.push_front(if ok {
            Event::Do { machine, call }
        } else {
            Event::AnswerCall {
                machine,
                call,
                ok: false,
            }
        })?;
    }
    Ok(events)
}

/// One event alone.
fn only(alloc: Global, event: Event) -> Result<VecDeque<Event>, AllocError>
    ensures { IfOk result (λ events. events.items ≡ event ∷ []) }
{
    let mut events = VecDeque::new(alloc);
    events.push_front(event)?;
    Ok(events)
}

/// A machine that goes down, a daemon that ends or joins, or else one that is woken.
fn of_chance(alloc: Global, machine: u32, chance: u64) -> Result<Event, AllocError>
    ensures { IfOk result (λ event. event ≡ rare_event machine chance) }
{
    if chance == 0 {
        Ok(Event::Reset { machine })
    } else if chance == 1 {
        Ok(Event::Crash { machine })
    } else if chance == 2 {
        let text = join_text(alloc, machine)?;
        Ok(Event::GiveCommand { machine, text })
    } else {
        Ok(Event::WakeUp { machine })
    }
}

/// What a process asks for or gives up, or its end, or what seldom happens.
fn of_work(alloc: Global, machine: u32, kind: u64, c: u64) -> Result<Event, AllocError>
    ensures { IfOk result (λ event. event ≡ work_event machine kind c) }
{
    let resource = 1 + c % 4;
    let process = 1 + c % 3;
    if kind == 12 {
        let text = acquire_text(alloc, resource, c % 5 == 0, process)?;
        Ok(Event::GiveCommand { machine, text })
    } else if kind == 13 {
        let text = release_text(alloc, resource, process)?;
        Ok(Event::GiveCommand { machine, text })
    } else if kind == 14 {
        Ok(Event::ExitOf {
            machine,
            process: process as u32,
        })
    } else {
        of_chance(alloc, machine, c % 32)
    }
}

/// The candidates of the event of this number, from its draws, in the order in which they are to be tried.
pub(crate) fn candidates<D: Daemon, L: LockTable>(
    alloc: Global,
    play: &Play<D, L>,
    draw: Draws,
    number: u64,
) -> Result<VecDeque<Event>, AllocError>
    requires { let k = (state_of L.locks play.now).kept in (length k.machines ≡ k.header.machines) × (1 ≤ k.header.machines) × (k.header.machines ≤ 16) }
    ensures { let k = (state_of L.locks play.now).kept in IfOk result (λ events. events.items ≡ candidates_in k k.header.machines draw.a draw.b draw.c number) }
{
    let hosts = play.world().header().machines;
    let machine = 1 + (draw.a % u64::from(hosts)) as u32;
    let kind = draw.b % 16;
    if kind < 2 {
        of_time(alloc, play, hosts)
    } else if kind < 4 {
        of_life(alloc, machine, number)
    } else if kind == 4 {
        only(alloc, Event::Test { machine })
    } else if kind < 12 {
        of_call(alloc, machine, play.world().least_call(machine), kind < 11)
    } else {
        only(alloc, of_work(alloc, machine, kind, draw.c)?)
    }
}
