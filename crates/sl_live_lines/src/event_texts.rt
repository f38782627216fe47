//! What is told of a machine beside its replies, where an administrator asks for it.
//!
//! By these lines he sees how a machine fares whose script does something else, or waits. A recovery of a lockspace is told by the first entry whose
//! reading is at or behind the expiry that was last told to the watchdog daemon: so when its renewals have failed for `fail`. From there on the
//! daemon is to stop whoever holds something in that lockspace, before the device fires: the signals that it sends and each holding that ends are
//! told as they come, and so is the exit of each child that it started. A lockspace that is left, or whose renewals come in time, has no such line.
//!
//! What goes along the history for it are the connections to the watchdog daemon and the last reading; where no events are told, nothing is kept.

ghost use Rattle.sl_command.specs.OutputLines.{class_text, line_text};
ghost use Rattle.sl_live_lines.specs.EventTexts.{event_words, exit_words, exited, expires_between, first_telling, recovery_text, recovery_words, telling_after, told_events};
ghost use Rattle.sl_trace.specs.EffectTexts.{end_words, sent_words, signal_word};
ghost use Rattle.sl_words.specs.Bounds.{moments};
ghost use Rattle.std.specs.Option.{option_to_list};
ghost use Rattle.std.specs.Prelude.{All, IfOk, OnOk, flat_map, ◌++◌, ◌<◌, ◌≡◌};

use sl_text::write::push_line;
use sl_time::Timing;
use sl_trace::{End, Entry, Given, Input, Sent, Signal};
use sl_wdmd::{Connection, Wdmd};
use std::alloc::{AllocError, Global};
use std::marker::Model;

/// Whether it expires behind the first reading, and not behind the second.
fn expires_between(connection: &Connection, before: u64, now: u64) -> bool
    ensures { result ≡ expires_between before now connection.now }
{
    before < connection.expiry && connection.expiry <= now
}

/// Adds the line of a recovery.
fn push_recovery(
    out: &mut Vec<u8>,
    machine: usize,
    connection: &Connection,
) -> Result<(), AllocError>
    ensures { OnOk result (out.new.items ≡ out.old.items ++ line_text machine (recovery_words connection.now)) }
{
    let line = format!(in *out.allocator(); "{machine} recovery {}", connection.name)?;
    push_line(out, line.as_bytes())
}

/// Adds it if the connection, where there is one, expires between these readings.
fn push_if_expired(
    out: &mut Vec<u8>,
    machine: usize,
    before: u64,
    now: u64,
    connection: Option<Connection>,
) -> Result<(), AllocError>
    ensures { OnOk result (out.new.items ≡ out.old.items ++ flat_map (recovery_text machine before now) (option_to_list connection)) }
{
    let Some(connection) = connection else {
        return Ok(());
    };
    if expires_between(&connection, before, now) {
        push_recovery(out, machine, &connection)
    } else {
        Ok(())
    }
}

/// Adds the lines of the recoveries of the connections that expire between these readings.
fn push_recoveries(
    out: &mut Vec<u8>,
    machine: usize,
    before: u64,
    now: u64,
    connections: &Wdmd,
) -> Result<(), AllocError>
    ensures { OnOk result (out.new.items ≡ out.old.items ++ flat_map (recovery_text machine before now) connections.now.connections) }
{
    for place in 0..connections.len() {
        push_if_expired(out, machine, before, now, connections.get(place))?;
    }
    Ok(())
}

/// Adds the line of a child's exit, if the input is one.
fn push_exit(out: &mut Vec<u8>, machine: usize, input: &Input) -> Result<(), AllocError>
    ensures { OnOk result (out.new.items ≡ out.old.items ++ class_text machine exit_words (option_to_list (exited input.now))) }
{
    match input {
        Input::Exit { process } => {
            let line = format!(in *out.allocator(); "{machine} exit {process}")?;
            push_line(out, line.as_bytes())
        }
        Input::Line(_) => Ok(()),
        Input::Number(_) => Ok(()),
        Input::Answer { .. } => Ok(()),
        Input::Wake => Ok(()),
        Input::Spawned { .. } => Ok(()),
    }
}

/// Adds the line of an end.
fn push_end(out: &mut Vec<u8>, machine: usize, end: &End) -> Result<(), AllocError>
    ensures { OnOk result (out.new.items ≡ out.old.items ++ line_text machine (end_words end.now)) }
{
    let line = format!(in *out.allocator();
        "{machine} end {} {}:{}",
        end.process, end.lockspace, end.resource
    )?;
    push_line(out, line.as_bytes())
}

/// Adds the lines of ends.
fn push_ends(out: &mut Vec<u8>, machine: usize, ends: &[End]) -> Result<(), AllocError>
    ensures { OnOk result (out.new.items ≡ out.old.items ++ class_text machine (λ e. end_words e) ends.now) }
{
    for end in ends {
        push_end(out, machine, end)?;
    }
    Ok(())
}

/// The word of a signal.
fn signal_word(signal: Signal) -> &'static str
    ensures { result.now ≡ signal_word signal }
{
    match signal {
        Signal::Term => "term",
        Signal::Kill => "kill",
    }
}

/// Adds the line of a signal.
fn push_signal(out: &mut Vec<u8>, machine: usize, sent: &Sent) -> Result<(), AllocError>
    ensures { OnOk result (out.new.items ≡ out.old.items ++ line_text machine (sent_words sent.now)) }
{
    let word = signal_word(sent.signal);
    let line = format!(in *out.allocator(); "{machine} signal {} {word}", sent.process)?;
    push_line(out, line.as_bytes())
}

/// Adds the lines of signals.
fn push_signals(out: &mut Vec<u8>, machine: usize, signals: &[Sent]) -> Result<(), AllocError>
    ensures { OnOk result (out.new.items ≡ out.old.items ++ class_text machine (λ s. sent_words s) signals.now) }
{
    for sent in signals {
        push_signal(out, machine, sent)?;
    }
    Ok(())
}

/// What goes along a history so that its events are told: whether they are; the connections to the watchdog daemon, and the last reading.
#[derive(Drop)]
pub(crate) struct Events {
    events: bool,
    connections: Wdmd,
    reading: u64,
}

impl Model for Events {
    ghost use Rattle.sl_live_lines.specs.EventTexts.{Telling};

    ghost Value = { Telling };

    ghost view = { λ k. record { events = k.events; connections = k.connections.connections; reading = k.reading } };
}

/// The connections to begin with: none where no events are told, which takes no memory.
fn first_connections(
    alloc: Global,
    timing: &Timing,
    given: &[Given],
    events: bool,
) -> Result<Wdmd, AllocError>
    requires { All (λ g. g.renewed < moments) given.now }
    ensures { IfOk result (λ w. w.connections ≡ (first_telling events timing.now given.now).connections) }
{
    if events {
        Wdmd::given(alloc, timing, given)
    } else {
        Ok(Wdmd::new(alloc))
    }
}

impl Events {
    /// Before the first entry of a daemon with these sessions. An `Err` is want of memory; where no events are told it takes none.
    pub(crate) fn new(
        alloc: Global,
        timing: &Timing,
        given: &[Given],
        events: bool,
    ) -> Result<Events, AllocError>
        requires { All (λ g. g.renewed < moments) given.now }
        ensures { IfOk result (λ k. k ≡ first_telling events timing.now given.now) }
    {
        Ok(Events {
            events,
            connections: first_connections(alloc, timing, given, events)?,
            reading: 0,
        })
    }

    /// Adds the lines of an entry's events.
    fn push_all(&self, out: &mut Vec<u8>, machine: usize, entry: &Entry) -> Result<(), AllocError>
        ensures { OnOk result (out.new.items ≡ out.old.items ++ flat_map (line_text machine) (event_words self.now entry.now)) }
    {
        push_recoveries(out, machine, self.reading, entry.reading, &self.connections)?;
        push_exit(out, machine, &entry.input)?;
        push_ends(out, machine, entry.effects.ends.as_slice())?;
        push_signals(out, machine, entry.effects.signals.as_slice())?;
        Ok(())
    }

    /// Adds them, if they are told. An `Err` is want of memory.
    pub(crate) fn push(
        &self,
        out: &mut Vec<u8>,
        machine: usize,
        entry: &Entry,
    ) -> Result<(), AllocError>
        ensures { OnOk result (out.new.items ≡ out.old.items ++ told_events machine self.now entry.now) }
    {
        if self.events {
            self.push_all(out, machine, entry)
        } else {
            Ok(())
        }
    }

    /// Goes on by an entry. An `Err` is want of memory.
    pub(crate) fn step(&mut self, entry: &Entry) -> Result<(), AllocError>
        ensures { OnOk result (self.new ≡ telling_after self.old entry.now) }
    {
        if self.events {
            let moves = entry.effects.moves.as_slice();
            self.connections.reserve(moves.len())?;
            self.connections.make_moves(moves);
            self.reading = entry.reading;
        }
        Ok(())
    }
}
