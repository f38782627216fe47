//! The schedule of a seed, played as it is drawn.

ghost use Rattle.sl_world_state.specs.Daemons.{program_of};
ghost use Rattle.sl_generate.specs.DrawnRuns.{IsDrawn};
ghost use Rattle.sl_generate.specs.GeneratorPlay.{DrawsAll, Generates, IsDrawing, MayGenerate, TakesDrawn, TakesFirst};
ghost use Rattle.sl_play.specs.PlayIsOwed.{EachStood};
ghost use Rattle.sl_play.specs.Plays.{state_of};
ghost use Rattle.sl_report.specs.GeneratedSchedules.{gen_header, gen_line};
ghost use Rattle.sl_report.specs.Reports as reports;
ghost use Rattle.sl_run.specs.Worlds.{world_with};
ghost use Rattle.sl_text.specs.Forms.{as_bytes};
ghost use Rattle.std.specs.Prelude.{IfOk, OnOk, [], ◌∷◌, ◌≡◌};

use crate::candidates::candidates;
use crate::draws::{Draws, draw_event};
use crate::header::header;
use sl_io::{Sink, write_all};
use sl_machine::LockTable;
use sl_play::{Play, PlayError};
use sl_run::Event;
use sl_schedule::{Counts, push_end_line};
use sl_world_state::Daemon;
use std::alloc::{AllocError, Global};
use std::collections::VecDeque;

/// How a generation ended.
#[derive(Clone, Copy, Debug, PartialEq, Eq)]
pub enum Generated {
    /// Each event happened; both lines are written.
    Done,
    /// A write failed. What is written begins the two lines.
    WriteFault,
    /// There was no memory, or no number for a call, a job or a count. Nothing is written.
    NoMemory,
}

/// The first of the candidates that nothing refuses comes to pass; where each is refused, time that does not pass. Its lines are written behind
/// `out`. A candidate that is refused changes nothing, so each is tried by letting it happen.
fn take_first<D: Daemon, L: LockTable>(
    play: &mut Play<D, L>,
    out: &mut Vec<u8>,
    candidates: VecDeque<Event>,
) -> Result<(), PlayError>
    requires { IsDrawing D.commands D.stands (state_of L.locks play.old) }
    ensures { OnOk result (TakesFirst D.commands D.stands (state_of L.locks play.old) candidates.items (state_of L.locks play.new)) }
{
    let mut candidates = candidates;
    while let Some(event) = candidates.pop_front() {
        match play.happen(out, event)? {
            None => return Ok(()),
            Some(_) => {}
        }
    }
    let still = Event::Pass {
        time: 0,
        growths: None,
    };
    match play.happen(out, still)? {
        None => Ok(()),
        Some(_) => unreachable!(),
    }
}

/// The event of these draws comes to pass; its lines are written into `out`.
fn take_event<D: Daemon, L: LockTable>(
    alloc: Global,
    play: &mut Play<D, L>,
    out: &mut Vec<u8>,
    draw: Draws,
    number: u64,
) -> Result<(), PlayError>
    requires { IsDrawing D.commands D.stands (state_of L.locks play.old) }
    ensures { OnOk result (TakesDrawn D.commands D.stands (state_of L.locks play.old) draw.a draw.b draw.c number (state_of L.locks play.new)) }
{
    let candidates = candidates(alloc, play, draw, number)?;
    out.clear();
    take_first(play, out, candidates)
}

/// So many events of a seed come to pass, one after another.
fn take_events<D: Daemon, L: LockTable>(
    alloc: Global,
    play: &mut Play<D, L>,
    seed: u64,
    events: u64,
) -> Result<(), PlayError>
    requires { IsDrawing D.commands D.stands (state_of L.locks play.old) }
    ensures { OnOk result (DrawsAll D.commands D.stands (state_of L.locks play.old) seed events (state_of L.locks play.new)) }
{
    let mut state = seed;
    let mut out = Vec::new(alloc);
    let mut number = 0;
    while number < events {
        let draw = draw_event(&mut state);
        number += 1;
        take_event(alloc, play, &mut out, draw, number)?;
    }
    Ok(())
}

/// Plays the schedule of a seed, from its header on; the answer is what its last line counts.
fn play_seed<D: Daemon, L: LockTable>(
    alloc: Global,
    seed: u64,
    hosts: u32,
    events: u64,
    paired: bool,
) -> Result<Counts, PlayError>
    requires { MayGenerate D.commands hosts paired }
    ensures { IfOk result (λ counts. IsDrawn (EachStood D.stands) hosts events 1 (world_with (program_of D.commands) (gen_header hosts paired)) seed reports.no_counts counts) }
{
    let header = header(alloc, hosts, paired)?;
    let mut play = Play::<D, L>::new(alloc, header)?;
    take_events(alloc, &mut play, seed, events)?;
    Ok(*play.counts())
}

/// The first line: what was generated. An `Err` is want of memory.
fn first_line(
    alloc: Global,
    seed: u64,
    hosts: u32,
    events: u64,
    paired: bool,
) -> Result<String, AllocError>
    ensures { IfOk result (λ line. line.bytes.items ≡ as_bytes (gen_line seed hosts events paired ∷ [])) }
{
    if paired {
        Ok(format!(in alloc; "gen {seed} {hosts} {events} 2\n")?)
    } else {
        Ok(format!(in alloc; "gen {seed} {hosts} {events}\n")?)
    }
}

/// The two lines: what was generated, and what the last line of its report counts. An `Err` is want of memory.
fn both_lines(
    alloc: Global,
    seed: u64,
    hosts: u32,
    events: u64,
    paired: bool,
    counts: &Counts,
) -> Result<Vec<u8>, AllocError>
    ensures { IfOk result (λ text. text.items ≡ as_bytes (gen_line seed hosts events paired ∷ reports.end_line counts.now ∷ [])) }
{
    let line = first_line(alloc, seed, hosts, events, paired)?;
    let mut text = Vec::from_slice(alloc, line.as_bytes())?;
    push_end_line(&mut text, counts)?;
    Ok(text)
}

/// Draws a schedule of so many events for 1 to 16 hosts from the seed, with pairs or without, plays it as it is drawn, and puts out the line
/// `gen SEED HOSTS EVENTS`, with a 2 behind it where there are pairs, and the last line of its report.
pub fn generate<K: Sink, D: Daemon, L: LockTable>(
    alloc: Global,
    seed: u64,
    hosts: u32,
    events: u64,
    paired: bool,
    sink: &mut K,
) -> Generated
    requires { MayGenerate D.commands hosts paired }
    ensures { Generates D.commands D.stands seed hosts events paired (K.taken sink.old) (K.taken sink.new) (K.faults sink.old) (K.faults sink.new) result }
{
    let Ok(counts) = play_seed::<D, L>(alloc, seed, hosts, events, paired) else {
        return Generated::NoMemory;
    };
    let Ok(text) = both_lines(alloc, seed, hosts, events, paired, &counts) else {
        return Generated::NoMemory;
    };
    match write_all(sink, &text) {
        Ok(()) => Generated::Done,
        Err(_) => Generated::WriteFault,
    }
}
