//! A story that is told line by line.
//!
//! At each act the teller gives the lines that may stand next. The first that the play takes is told: its event comes to pass, with the asks
//! behind it, what it and its report tell is heard, and it is put out. A line that is refused changes nothing, so each is tried by playing it.
//! Where many acts have come to nothing, the spare lines are tried instead, one of which always may stand: so all events are told that a
//! schedule has room for.

ghost use Rattle.sl_play.specs.Plays.{IsPlaying, PlaysOn, state_of};
ghost use Rattle.sl_play.specs.Replays.{MayPlay};
ghost use Rattle.sl_run.specs.Headers.{IsHeader};
ghost use Rattle.sl_run.specs.Worlds.{World};
ghost use Rattle.sl_story.specs.StoryPlays.{GoesOn, IsTelling, MayStand, MovesOn, Opens, PutsLine, TakesFirst, TakesText, TellsOne, fed, left_behind};
ghost use Rattle.sl_story.specs.ToldSchedules.{Tells};
ghost use Rattle.sl_world_state.specs.SaneWorlds.{ReadsCommands};
ghost use Rattle.std.specs.Io.KnownBytes.{Appends};
ghost use Rattle.std.specs.Prelude.{Bool, IfOk, IfSome, List, None, Ok, OnOk, Option, string_bytes, ℕ, ◌+◌, ◌<◌, ◌≡◌, ◌≤◌};

use crate::acts::{Act, Lines, go_on, lines_of, plan};
use crate::cast::Cast;
use crate::draws::Draws;
use crate::header::{Opening, first_lines};
use crate::heard::{hear_line, hear_reports};
use crate::place::Place;
use sl_io::{Sink, write_all};
use sl_machine::LockTable;
use sl_play::{Play, PlayError};
use sl_schedule::Line;
use sl_world_state::Daemon;
use std::alloc::{AllocError, Global};
use std::collections::VecDeque;

/// How a story ended.
#[derive(Clone, Copy, Debug, PartialEq, Eq)]
pub enum Told {
    /// So many events are told.
    Done,
    /// Fewer are: of the 1,000,000,000 bytes that a schedule may have, fewer than ten are left. What is written is a schedule.
    Short,
    /// A write failed. What is written begins a schedule.
    WriteFault,
    /// There was no memory, or no number for a call, a job or a count. Nothing is written, or a schedule of fewer events.
    NoMemory,
}

/// How one act ended.
enum One {
    /// A line was told, and this is the place behind it.
    Line(Place),
    Nothing,
    /// There is no room for a spare line.
    Full,
    WriteFault,
    NoMemory,
}

/// How many acts there are at most for each event before the spare lines are tried.
const ACTS: u64 = 16;

/// What tells a story: its machines, its draws, and the acts that are to come.
#[derive(Drop)]
struct Teller {
    cast: Cast,
    draws: Draws,
    agenda: VecDeque<Act>,
}

impl Teller {
    /// The next act, and the lines that may be told at it.
    fn next(&mut self, alloc: Global) -> Result<(Act, Lines), AllocError> {
        if self.agenda.is_empty() {
            plan(&mut self.agenda, &self.cast, &mut self.draws)?;
        }
        let act = self.agenda.pop_front().unwrap_or(Act::Pass);
        let lines = lines_of(alloc, &mut self.cast, &mut self.draws, act)?;
        Ok((act, lines))
    }

    /// What was told at an act is heard.
    fn hear(&mut self, act: Act, line: &str, report: &[u8]) -> Result<(), AllocError> {
        hear_line(&mut self.cast, line.as_bytes())?;
        hear_reports(&mut self.cast, report)?;
        go_on(&mut self.agenda, &mut self.draws, act, line.as_bytes())
    }
}

/// A line that was told, and the place behind it.
#[derive(Drop)]
struct Taken {
    line: String,
    place: Place,
}

/// The play takes this text as the line at a place, and what is answered is the place behind it, with its report in `report`; or nothing has
/// changed, and None is.
fn take_text<D: Daemon, L: LockTable>(
    play: &mut Play<D, L>,
    report: &mut Vec<u8>,
    place: Place,
    text: &[u8],
) -> Result<Option<Place>, PlayError>
    requires { IsPlaying D.commands D.stands (state_of L.locks play.old) }
    ensures takes { IfOk result (TakesText D.commands D.stands place text.now (state_of L.locks play.old) (state_of L.locks play.new)) }
    ensures plays { OnOk result (IsPlaying D.commands D.stands (state_of L.locks play.new)) }
    ensures stands { result ≡ Ok None → (w : World) → PlaysOn D.commands D.stands (state_of L.locks play.old) w → MayStand (state_of L.locks play.old).kept.header w place text.now → ⊥ }
{
    let Some(behind) = place.behind(text) else {
        return Ok(None);
    };
    report.clear();
    let line = Line {
        number: behind.lines,
        start: place.bytes,
        text,
        is_past: false,
    };
    match play.take_line(report, &line)? {
        None => Ok(Some(behind)),
        Some(_) => Ok(None),
    }
}

/// The same of a line.
fn take_line<D: Daemon, L: LockTable>(
    play: &mut Play<D, L>,
    report: &mut Vec<u8>,
    place: Place,
    line: String,
) -> Result<Option<Taken>, PlayError>
    requires { IsPlaying D.commands D.stands (state_of L.locks play.old) }
    ensures takes { IfOk result (TakesFirst D.commands D.stands place (state_of L.locks play.old) (state_of L.locks play.new)) }
    ensures plays { OnOk result (IsPlaying D.commands D.stands (state_of L.locks play.new)) }
    ensures stands { result ≡ Ok None → (w : World) → PlaysOn D.commands D.stands (state_of L.locks play.old) w → MayStand (state_of L.locks play.old).kept.header w place (string_bytes line) → ⊥ }
{
    match take_text(play, report, place, line.as_bytes())? {
        Some(place) => Ok(Some(Taken { line, place })),
        None => Ok(None),
    }
}

/// The first of these lines that the play takes; its report is in `report`.
fn take_first<D: Daemon, L: LockTable>(
    play: &mut Play<D, L>,
    report: &mut Vec<u8>,
    place: Place,
    lines: Lines,
) -> Result<Option<Taken>, PlayError>
    requires { IsPlaying D.commands D.stands (state_of L.locks play.old) }
    ensures takes { IfOk result (TakesFirst D.commands D.stands place (state_of L.locks play.old) (state_of L.locks play.new)) }
    ensures plays { OnOk result (IsPlaying D.commands D.stands (state_of L.locks play.new)) }
{
    let mut lines = lines;
    while let Some(line) = lines.pop_front() {
        match take_line(play, report, place, line)? {
            Some(taken) => return Ok(Some(taken)),
            None => {}
        }
    }
    Ok(None)
}

/// One of the spare lines, that the play takes wherever there is room for both: the first machine is down, so it comes up, or it is up, so its
/// watchdog daemon tests.
fn take_spare<D: Daemon, L: LockTable>(
    play: &mut Play<D, L>,
    report: &mut Vec<u8>,
    place: Place,
) -> Result<Option<Taken>, PlayError>
    requires { IsPlaying D.commands D.stands (state_of L.locks play.old) }
    ensures takes { IfOk result (TakesFirst D.commands D.stands place (state_of L.locks play.old) (state_of L.locks play.new)) }
    ensures plays { OnOk result (IsPlaying D.commands D.stands (state_of L.locks play.new)) }
    ensures room { result ≡ Ok None → 1000000000 < place.bytes + 10 }
{
    let alloc = *report.allocator();
    let restart = format!(in alloc; "restart 1")?;
    match take_line(play, report, place, restart)? {
        Some(taken) => Ok(Some(taken)),
        None => {
            let test = format!(in alloc; "test 1")?;
            take_line(play, report, place, test)
        }
    }
}

/// A line with its line feed; None where there is no memory.
fn with_feed(line: String) -> Option<String>
    ensures { IfSome result (λ text. string_bytes text ≡ fed (string_bytes line)) }
{
    let mut text = line;
    match text.push_str("\n") {
        Ok(()) => Some(text),
        Err(_) => None,
    }
}

/// Puts out a line that was told.
fn put_line<K: Sink>(sink: &mut K, taken: Taken) -> One
    ensures puts { PutsLine (string_bytes taken.line) taken.place (K.taken sink.old) (K.taken sink.new) (K.faults sink.old) (K.faults sink.new) result }
    ensures later { K.faults sink.old ≤ K.faults sink.new }
{
    let Taken { line, place } = taken;
    let Some(text) = with_feed(line) else {
        return One::NoMemory;
    };
    match write_all(sink, text.as_bytes()) {
        Ok(()) => One::Line(place),
        Err(_) => One::WriteFault,
    }
}

/// A line that was told at an act is heard with its report, and put out.
fn hear_and_put<K: Sink>(
    teller: &mut Teller,
    act: Act,
    taken: Taken,
    report: &[u8],
    sink: &mut K,
) -> One
    ensures puts { PutsLine (string_bytes taken.line) taken.place (K.taken sink.old) (K.taken sink.new) (K.faults sink.old) (K.faults sink.new) result }
    ensures later { K.faults sink.old ≤ K.faults sink.new }
{
    match teller.hear(act, taken.line.as_str(), report) {
        Err(_) => One::NoMemory,
        Ok(()) => put_line(sink, taken),
    }
}

/// What is told at the next act.
fn tell_one<K: Sink, D: Daemon, L: LockTable>(
    play: &mut Play<D, L>,
    teller: &mut Teller,
    report: &mut Vec<u8>,
    place: Place,
    sink: &mut K,
) -> One
    requires { IsPlaying D.commands D.stands (state_of L.locks play.old) }
    ensures tells { TellsOne D.commands D.stands place (K.taken sink.old) (K.taken sink.new) (K.faults sink.old) (K.faults sink.new)
        (state_of L.locks play.old) (state_of L.locks play.new) result }
    ensures later { K.faults sink.old ≤ K.faults sink.new }
    ensures plays { GoesOn result (IsPlaying D.commands D.stands (state_of L.locks play.new)) }
{
    let Ok((act, lines)) = teller.next(*report.allocator()) else {
        return One::NoMemory;
    };
    let Ok(taken) = take_first(play, report, place, lines) else {
        return One::NoMemory;
    };
    match taken {
        None => One::Nothing,
        Some(taken) => hear_and_put(teller, act, taken, report, sink),
    }
}

/// A spare line is told.
fn tell_spare<K: Sink, D: Daemon, L: LockTable>(
    play: &mut Play<D, L>,
    teller: &mut Teller,
    report: &mut Vec<u8>,
    place: Place,
    sink: &mut K,
) -> One
    requires { IsPlaying D.commands D.stands (state_of L.locks play.old) }
    ensures tells { TellsOne D.commands D.stands place (K.taken sink.old) (K.taken sink.new) (K.faults sink.old) (K.faults sink.new)
        (state_of L.locks play.old) (state_of L.locks play.new) result }
    ensures later { K.faults sink.old ≤ K.faults sink.new }
    ensures plays { GoesOn result (IsPlaying D.commands D.stands (state_of L.locks play.new)) }
    ensures moves { (acts : ℕ) → MovesOn acts result }
{
    let Ok(taken) = take_spare(play, report, place) else {
        return One::NoMemory;
    };
    match taken {
        None => One::Full,
        Some(taken) => hear_and_put(teller, Act::Test(1), taken, report, sink),
    }
}

/// How many lines are left to be told, how many acts before the spare lines are tried, and where the next line stands.
#[derive(Clone, Copy)]
struct Left {
    lines: u64,
    acts: u64,
    place: Place,
}

/// What is told next: at an act, or where none is left, a spare line.
fn tell_next<K: Sink, D: Daemon, L: LockTable>(
    play: &mut Play<D, L>,
    teller: &mut Teller,
    report: &mut Vec<u8>,
    at: Left,
    sink: &mut K,
) -> One
    requires { IsPlaying D.commands D.stands (state_of L.locks play.old) }
    ensures tells { TellsOne D.commands D.stands at.place (K.taken sink.old) (K.taken sink.new) (K.faults sink.old) (K.faults sink.new)
        (state_of L.locks play.old) (state_of L.locks play.new) result }
    ensures later { K.faults sink.old ≤ K.faults sink.new }
    ensures plays { GoesOn result (IsPlaying D.commands D.stands (state_of L.locks play.new)) }
    ensures moves { MovesOn at.acts result }
{
    if at.acts > 0 {
        tell_one(play, teller, report, at.place, sink)
    } else {
        tell_spare(play, teller, report, at.place, sink)
    }
}

/// What is left behind an act; or how the story ended at it.
fn left_behind(at: Left, one: One) -> Result<Left, Told>
    requires { 0 < at.lines }
    ensures { result ≡ left_behind at one }
{
    let acts = at.acts.saturating_sub(1);
    match one {
        One::Line(place) => Ok(Left {
            lines: at.lines - 1,
            acts,
            place,
        }),
        One::Nothing => Ok(Left {
            lines: at.lines,
            acts,
            place: at.place,
        }),
        One::Full => Err(Told::Short),
        One::WriteFault => Err(Told::WriteFault),
        One::NoMemory => Err(Told::NoMemory),
    }
}

/// Tells so many lines, if there is room for so many.
fn tell_lines<K: Sink, D: Daemon, L: LockTable>(
    alloc: Global,
    play: &mut Play<D, L>,
    teller: &mut Teller,
    place: Place,
    events: u64,
    sink: &mut K,
) -> Told
    requires { IsPlaying D.commands D.stands (state_of L.locks play.old) }
    ensures { (hosts : ℕ) → (paired : Bool) → (written : List ℕ) → (before : Option (List ℕ)) → (faults : ℕ)
        → IsTelling D.commands D.stands hosts paired 0 place.lines place.bytes written (state_of L.locks play.old)
        → Appends before (K.taken sink.old) written → faults ≤ K.faults sink.old
        → Tells D.commands D.stands hosts events paired before (K.taken sink.new) faults (K.faults sink.new) result }
{
    let mut at = Left {
        lines: events,
        acts: events.saturating_mul(ACTS),
        place,
    };
    let mut report = Vec::new(alloc);
    while at.lines > 0 {
        let one = tell_next(play, teller, &mut report, at, sink);
        match left_behind(at, one) {
            Err(told) => return told,
            Ok(next) => at = next,
        }
    }
    Told::Done
}

/// The machines of a story, and what is drawn from a seed. An `Err` is want of memory.
fn new_teller(alloc: Global, seed: u64, hosts: u32) -> Result<Teller, AllocError> {
    Ok(Teller {
        cast: Cast::new(alloc, hosts)?,
        draws: Draws::new(seed),
        agenda: VecDeque::new(alloc),
    })
}

/// Puts out the first lines, and tells the story behind them.
fn tell_behind<K: Sink, D: Daemon, L: LockTable>(
    alloc: Global,
    opening: Opening,
    teller: Teller,
    events: u64,
    sink: &mut K,
) -> Told
    requires { IsHeader opening.header × ReadsCommands D.commands opening.header }
    ensures { (hosts : ℕ) → (paired : Bool) → Opens hosts paired opening
        → Tells D.commands D.stands hosts events paired (K.taken sink.old) (K.taken sink.new) (K.faults sink.old) (K.faults sink.new) result }
{
    let Opening {
        text,
        header,
        place,
    } = opening;
    let mut teller = teller;
    let Ok(mut play) = Play::<D, L>::new(alloc, header) else {
        return Told::NoMemory;
    };
    match write_all(sink, &text) {
        Ok(()) => tell_lines(alloc, &mut play, &mut teller, place, events, sink),
        Err(_) => Told::WriteFault,
    }
}

/// Tells a schedule of so many events for 1 to 16 hosts, whose areas have pairs or not, drawn from a seed, and puts it out line by line, each
/// once its event has come to pass: so what is written is accepted to its end, and has so many events, or as many as there is room for.
pub fn tell_schedule<K: Sink, D: Daemon, L: LockTable>(
    alloc: Global,
    seed: u64,
    hosts: u32,
    events: u64,
    paired: bool,
    sink: &mut K,
) -> Told
    requires hosts { (1 ≤ hosts) × (hosts ≤ 16) }
    requires may { MayPlay D.commands }
    ensures { Tells D.commands D.stands hosts events paired (K.taken sink.old) (K.taken sink.new) (K.faults sink.old) (K.faults sink.new) result }
{
    let Ok(opening) = first_lines(alloc, hosts, paired) else {
        return Told::NoMemory;
    };
    match new_teller(alloc, seed, hosts) {
        Err(_) => Told::NoMemory,
        Ok(teller) => tell_behind::<K, D, L>(alloc, opening, teller, events, sink),
    }
}
