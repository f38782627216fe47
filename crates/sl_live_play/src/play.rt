//! The play of a live script.

ghost use Rattle.sl_world_state.specs.Daemons.{begun_with};
ghost use Rattle.sl_world_state.specs.SaneWorlds.{ReadsCommands};
ghost use Rattle.sl_live_run.specs.Folders.{Asked, IsVacant};
ghost use Rattle.sl_live_run.specs.Grounds.{IsGroundOf};
ghost use Rattle.sl_live_run.specs.Lent.{AreAllHad};
ghost use Rattle.sl_live_run.specs.Runs.{disks_in};
ghost use Rattle.sl_reader.specs.Scopes.{scope_of};
ghost use Rattle.sl_live_play.specs.LiveOwed.{Owes, PutsEnded, PutsNoEntry, PutsNoGround, PutsStop};
ghost use Rattle.sl_run.specs.Headers.{IsHeader};
ghost use Rattle.sl_run.specs.Lawful.{IsSetting};
ghost use Rattle.sl_outside.specs.Acts.{Tells};
ghost use Rattle.sl_outside.specs.Lendings.{Lending};
ghost use Rattle.sl_output.specs.Outputs.{IsPut};
ghost use Rattle.sl_output.specs.Pieces.{Piece};
ghost use Rattle.sl_run.specs.declared.header.Header.{Header as HeaderOf};
ghost use Rattle.sl_reader.specs.HeaderBegins.{HeaderBegins};
ghost use Rattle.sl_reader.specs.LineReads.{EndStands};
ghost use Rattle.sl_report.specs.OwedReports.{HeadersAreGood};
ghost use Rattle.sl_report.specs.Languages.{whole_language};
ghost use Rattle.std.specs.Prelude.{All, IfErr, IfOk, List, Option, [], map, ℕ, ◌≡◌};

use crate::final_lines::{
    put_area_fault, put_differ, put_disk_there, put_in_use, put_last, put_refusal,
};
use sl_cell::Teller;
use sl_io::{Sink, Source};
use sl_live_lines::Ending;
use sl_live_run::{
    Ground, LiveRun, LiveStop, NoEntry, NoGround, enter, give_all_back, prepare, run_machines,
};
use sl_outside::LiveDevices;
use sl_reader::{LineReader, Origin, ReadError, Scope, ScriptEnd, ScriptLines, read_header};
use sl_run::Header;
use std::alloc::Global;
use std::marker::Brand;
use std::sync::Wait;
use std::thread::Threads;
use std::time;

/// How a live script is to be played.
#[derive(Clone, Copy)]
pub struct Manner {
    /// Disks that stand in the folder are made anew.
    pub anew: bool,
    /// A line that is refused is told, and the script goes on behind it.
    pub keeps: bool,
    /// Beside replies the exits, signals and ends of children and the connections that run out are told.
    pub events: bool,
}

/// How a live script ended; each goes with a status of its own.
#[derive(Clone, Copy, Debug, PartialEq, Eq)]
pub enum Lived {
    /// It was read to its end; all that is told and the last line are put out.
    Done,
    /// A line was refused; the refusal stands at the end.
    Refused,
    /// A read failed.
    ReadFault,
    /// A write failed. What is put out begins what was to be.
    WriteFault,
    /// There was no memory. What was put out stays.
    NoMemory,
    /// Another program has the folder, or a disk stands there already; or a disk can't be made, or a sector of an area can't be written before
    /// the threads begin. Which it is is put out.
    AreaFault,
    /// Records of a machine differ; the case is put out behind what machines replied.
    Differs,
}

/// Puts out how a run of so many machines ended whose script ended so, behind what they told, with so many replies.
fn put_ended<K: Sink>(
    alloc: Global,
    sink: &mut K,
    cut: bool,
    machines: usize,
    replies: u64,
    end: Option<ScriptEnd>,
) -> Lived
    ensures { (taken : Option (List ℕ)) → (faults : ℕ) → (pieces : List Piece)
        → IsPut taken (K.taken sink.old) faults (K.faults sink.old) pieces cut
        → PutsEnded taken (K.taken sink.new) faults (K.faults sink.new) pieces machines replies end result }
{
    match end {
        Some(ScriptEnd::End) => {
            put_last(
                alloc,
                sink,
                cut,
                machines,
                replies,
                Ending::Whole,
                Lived::Done,
            )
        }
        Some(ScriptEnd::Refused { number, why }) => put_last(
            alloc,
            sink,
            cut,
            machines,
            replies,
            Ending::Refused { number, why },
            Lived::Refused,
        ),
        Some(ScriptEnd::ReadFault) => {
            put_last(
                alloc,
                sink,
                cut,
                machines,
                replies,
                Ending::Cut,
                Lived::ReadFault,
            )
        }
        Some(ScriptEnd::NoMemory) => Lived::NoMemory,
        None => Lived::NoMemory,
    }
}

/// Puts out why a folder can't be entered.
fn put_no_entry<K: Sink>(alloc: Global, sink: &mut K, why: NoEntry) -> Lived
    ensures { PutsNoEntry (K.taken sink.old) (K.taken sink.new) (K.faults sink.old) (K.faults sink.new) why result }
{
    match why {
        NoEntry::AreaFault => put_area_fault(sink),
        NoEntry::InUse => put_in_use(sink),
        NoEntry::DiskThere { path } => put_disk_there(alloc, sink, path),
        NoEntry::NoMemory => Lived::NoMemory,
    }
}

/// Puts out why a run can't begin.
fn put_no_ground<K: Sink>(sink: &mut K, why: NoGround) -> Lived
    ensures { PutsNoGround (K.taken sink.old) (K.taken sink.new) (K.faults sink.old) (K.faults sink.new) why result }
{
    match why {
        NoGround::AreaFault => put_area_fault(sink),
        NoGround::NoMemory => Lived::NoMemory,
    }
}

/// Puts out what came of a run whose script ended so, behind what its machines told.
pub fn put_run<K: Sink>(
    alloc: Global,
    sink: &mut K,
    cut: bool,
    machines: usize,
    replies: Result<u64, LiveStop>,
    end: Option<ScriptEnd>,
) -> Lived
    ensures ok { (taken : Option (List ℕ)) → (faults : ℕ) → (pieces : List Piece)
        → IsPut taken (K.taken sink.old) faults (K.faults sink.old) pieces cut
        → IfOk replies (λ n. PutsEnded taken (K.taken sink.new) faults (K.faults sink.new) pieces machines n end result) }
    ensures stop { (taken : Option (List ℕ)) → (faults : ℕ) → (pieces : List Piece)
        → IsPut taken (K.taken sink.old) faults (K.faults sink.old) pieces cut
        → IfErr replies (λ why. PutsStop taken (K.taken sink.new) faults (K.faults sink.new) pieces why result) }
{
    match replies {
        Ok(replies) => put_ended(alloc, sink, cut, machines, replies, end),
        Err(LiveStop::Differ { machine, differ }) => {
            put_differ(alloc, sink, cut, machine, &differ)
        }
        Err(LiveStop::NoMemory) => Lived::NoMemory,
    }
}

/// Runs the machines of this ground, beside the lines that are still to be read, as a script of this origin.
fn play_as<
    D: Teller + Send,
    J: Origin + Send + Sync,
    S: Source + Send,
    K: Sink + Send,
    V: LiveDevices,
    R: Threads + Wait + time::Clock + Eprint + Sync,
>(
    rt: &R,
    alloc: Global,
    ground: Ground<V>,
    manner: Manner,
    source: S,
    reader: LineReader,
    sink: K,
    devices: &mut V,
) -> (Lived, S, K)
where
    V::Area: Send,
    requires header { IsHeader ground.header }
    requires settings { All (λ s. IsSetting (begun_with D.Daemon.commands ground.header s)) (map (λ p. p.site) ground.machines.items) }
    requires unasked { All (λ p. Tells (V.Spawner.acts p.parts.spawner) []) ground.machines.items }
    requires ends { EndStands (S.left source) reader }
    requires left { S.left source ≡ J.left }
    requires faults { S.faults source ≡ J.faults }
    requires began { reader ≡ J.began }
    requires scope { scope_of ground.header ≡ J.scope }
    requires keeps { manner.keeps ≡ J.keeps }
    ensures { (f : Asked) (lent : Option (List Lending)) (first : Option (List ℕ)) (h : HeaderOf) → IsGroundOf V.Clock.last V.Spawner.running V.Spawner.acts V.Device.last V.Device.fire h ground
        → AreAllHad V.Area.content f.path ground.header 1 (map (λ p. disks_in p.parts) ground.machines.items) lent (V.Devices.lendings devices.old)
        → HeaderBegins first (S.left source) reader h → IsVacant f h
        → Owes D.Daemon.stands D.Daemon.commands (record { content = V.Area.content; faults = V.Area.faults; acts = V.Spawner.acts }) f manner first (S.left result.1) (K.taken sink) (K.taken result.2) (S.faults source) (S.faults result.1)
        (K.faults sink) (K.faults result.2) (V.Devices.faults devices.old) (V.Devices.faults devices.new) lent (V.Devices.lendings devices.new) result.0 }
{
    let mut lines: ScriptLines<S, J> = ScriptLines::new(
        alloc,
        source,
        reader,
        Scope::of(&ground.header),
        manner.keeps,
    );
    let (run, _header) = run_machines::<D, V, ScriptLines<S, J>, K, R>(
        rt,
        alloc,
        ground,
        manner.events,
        sink,
        &mut lines,
    );
    let LiveRun {
        replies,
        machines,
        sink,
        cut,
        remains,
        ended: _,
    } = run;
    let mut sink = sink;
    give_all_back::<V>(remains, devices);
    let (source, end) = lines.close();
    let lived = put_run(alloc, &mut sink, cut, machines, replies, end);
    (lived, source, sink)
}

/// Runs the machines of this ground, beside the lines that are still to be read.
fn play_ground<
    D: Teller + Send,
    S: Source + Send,
    K: Sink + Send,
    V: LiveDevices,
    R: Threads + Wait + time::Clock + Eprint + Sync,
>(
    rt: &R,
    alloc: Global,
    ground: Ground<V>,
    manner: Manner,
    source: S,
    reader: LineReader,
    sink: K,
    devices: &mut V,
) -> (Lived, S, K)
where
    V::Area: Send,
    requires header { IsHeader ground.header }
    requires settings { All (λ s. IsSetting (begun_with D.Daemon.commands ground.header s)) (map (λ p. p.site) ground.machines.items) }
    requires unasked { All (λ p. Tells (V.Spawner.acts p.parts.spawner) []) ground.machines.items }
    requires ends { EndStands (S.left source) reader }
    ensures { (f : Asked) (lent : Option (List Lending)) (first : Option (List ℕ)) (h : HeaderOf) → IsGroundOf V.Clock.last V.Spawner.running V.Spawner.acts V.Device.last V.Device.fire h ground
        → AreAllHad V.Area.content f.path ground.header 1 (map (λ p. disks_in p.parts) ground.machines.items) lent (V.Devices.lendings devices.old)
        → HeaderBegins first (S.left source) reader h → IsVacant f h
        → Owes D.Daemon.stands D.Daemon.commands (record { content = V.Area.content; faults = V.Area.faults; acts = V.Spawner.acts }) f manner first (S.left result.1) (K.taken sink) (K.taken result.2) (S.faults source) (S.faults result.1)
        (K.faults sink) (K.faults result.2) (V.Devices.faults devices.old) (V.Devices.faults devices.new) lent (V.Devices.lendings devices.new) result.0 }
{
    play_as::<D, Brand, S, K, V, R>(rt, alloc, ground, manner, source, reader, sink, devices)
}

/// Runs the machines of a header in a folder that was entered.
fn play_entered<
    D: Teller + Send,
    S: Source + Send,
    K: Sink + Send,
    V: LiveDevices,
    R: Threads + Wait + time::Clock + Eprint + Sync,
>(
    rt: &R,
    alloc: Global,
    folder: &str,
    manner: Manner,
    source: S,
    reader: LineReader,
    header: Header,
    sink: K,
    devices: &mut V,
) -> (Lived, S, K)
where
    V::Area: Send,
    requires header { IsHeader header }
    requires reads { (h : HeaderOf) → IsHeader h → ReadsCommands D.Daemon.commands h }
    requires ends { EndStands (S.left source) reader }
    ensures { (f : Asked) (first : Option (List ℕ)) → f.path ≡ folder.now → HeaderBegins first (S.left source) reader header → IsVacant f header
        → Owes D.Daemon.stands D.Daemon.commands (record { content = V.Area.content; faults = V.Area.faults; acts = V.Spawner.acts }) f manner first (S.left result.1) (K.taken sink) (K.taken result.2) (S.faults source) (S.faults result.1)
        (K.faults sink) (K.faults result.2) (V.Devices.faults devices.old) (V.Devices.faults devices.new) (V.Devices.lendings devices.old) (V.Devices.lendings devices.new) result.0 }
{
    match prepare::<V>(alloc, header, folder, manner.anew, devices) {
        Ok(ground) => {
            play_ground::<D, S, K, V, R>(rt, alloc, ground, manner, source, reader, sink, devices)
        }
        Err(why) => {
            let mut sink = sink;
            (put_no_ground(&mut sink, why), source, sink)
        }
    }
}

/// Runs the machines of a header that was read, where the folder can be entered.
fn play_header<
    D: Teller + Send,
    S: Source + Send,
    K: Sink + Send,
    V: LiveDevices,
    R: Threads + Wait + time::Clock + Eprint + Sync,
>(
    rt: &R,
    alloc: Global,
    folder: &str,
    manner: Manner,
    source: S,
    reader: LineReader,
    header: Header,
    sink: K,
    devices: &mut V,
) -> (Lived, S, K)
where
    V::Area: Send,
    requires header { IsHeader header }
    requires reads { (h : HeaderOf) → IsHeader h → ReadsCommands D.Daemon.commands h }
    requires ends { EndStands (S.left source) reader }
    ensures { (first : Option (List ℕ)) → HeaderBegins first (S.left source) reader header
        → Owes D.Daemon.stands D.Daemon.commands (record { content = V.Area.content; faults = V.Area.faults; acts = V.Spawner.acts }) (record { path = folder.now; anew = manner.anew; disks = V.Devices.disks devices.old }) manner first (S.left result.1) (K.taken sink) (K.taken result.2) (S.faults source) (S.faults result.1)
        (K.faults sink) (K.faults result.2) (V.Devices.faults devices.old) (V.Devices.faults devices.new) (V.Devices.lendings devices.old) (V.Devices.lendings devices.new) result.0 }
{
    match enter::<V>(alloc, &header, folder, manner.anew, devices) {
        Ok(()) => play_entered::<D, S, K, V, R>(
            rt, alloc, folder, manner, source, reader, header, sink, devices,
        ),
        Err(why) => {
            let mut sink = sink;
            (put_no_entry(alloc, &mut sink, why), source, sink)
        }
    }
}

/// Plays a live script: reads its header from the source, takes the folder, makes its disks there, runs its machines beside each other, gives
/// them the script's lines as they are read, and puts out what the machines reply, as it comes.
///
/// Disks that stand there are made anew if the manner says so; else the first of them is put out, and nothing is done. So it is where another program
/// has the folder. If the manner says so, a line that is refused is put out as it comes, and the script goes on behind it, but where the line is too
/// long or the source is; and what becomes of children and of connections is put out beside the replies.
///
/// A machine ends when the script has ended, no child of it runs and nothing of it is unanswered. What its areas and its spawner then tell of
/// themselves, where they tell it, is what its history says; they are those that the devices handed out for it, and so they come back to the devices,
/// with nothing else. The source and the sink come back.
pub fn play_live<
    D: Teller + Send,
    S: Source + Send,
    K: Sink + Send,
    V: LiveDevices,
    R: Threads + Wait + time::Clock + Eprint + Sync,
>(
    rt: &R,
    alloc: Global,
    folder: &str,
    manner: Manner,
    source: S,
    sink: K,
    devices: &mut V,
) -> (Lived, S, K)
where
    V::Area: Send,
    requires reads { (h : HeaderOf) → IsHeader h → ReadsCommands D.Daemon.commands h }
    requires headers { HeadersAreGood whole_language }
    ensures { Owes D.Daemon.stands D.Daemon.commands (record { content = V.Area.content; faults = V.Area.faults; acts = V.Spawner.acts }) (record { path = folder.now; anew = manner.anew; disks = V.Devices.disks devices.old }) manner (S.left source) (S.left result.1) (K.taken sink) (K.taken result.2) (S.faults source) (S.faults result.1)
        (K.faults sink) (K.faults result.2) (V.Devices.faults devices.old) (V.Devices.faults devices.new) (V.Devices.lendings devices.old) (V.Devices.lendings devices.new) result.0 }
{
    let mut source = source;
    let mut reader = match LineReader::new(alloc) {
        Ok(reader) => reader,
        Err(_) => return (Lived::NoMemory, source, sink),
    };
    match read_header(alloc, &mut source, &mut reader) {
        Err(ReadError::Failed) => (Lived::ReadFault, source, sink),
        Err(ReadError::NoMemory) => (Lived::NoMemory, source, sink),
        Ok(Err((number, why))) => {
            let mut sink = sink;
            (put_refusal(alloc, &mut sink, number, why), source, sink)
        }
        Ok(Ok(header)) => play_header::<D, S, K, V, R>(
            rt, alloc, folder, manner, source, reader, header, sink, devices,
        ),
    }
}
