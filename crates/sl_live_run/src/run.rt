//! A whole run: what the ground hands out, run and compared, and what its machines told put out as it came.

ghost use Rattle.sl_live_run.specs.Runs.{AreFresh, AreGiven, Both, CanRun, HasPutOut, HasRunAll, disks_in, disks_of, site_of};
ghost use Rattle.sl_live_run.specs.declared.compare.LiveStop.TheVariants.{NoMemory as NoMemoryStop};
ghost use Rattle.sl_outside.specs.Acts.{Tells};
ghost use Rattle.sl_output.specs.Outputs.{IsPut};
ghost use Rattle.sl_output.specs.Pieces.{Piece};
ghost use Rattle.sl_run.specs.Headers.{IsHeader};
ghost use Rattle.sl_run.specs.Lawful.{IsSetting};
ghost use Rattle.sl_world_state.specs.Daemons.{begun_with};
ghost use Rattle.sl_world_state.specs.declared.daemon.Site.{Site as SiteOf};
ghost use Rattle.std.specs.Prelude.{All, Err, IfOk, IsOk, List, Some, [], false, length, map, ◌≡◌};

use crate::begun::{Begun, begin, place_of};
use crate::beside::run_list;
use crate::compare::LiveStop;
use crate::ends::leave;
use crate::machine_runs::Shared;
use crate::script::has_failed;
use crate::{Ground, Prepared};
use sl_area::Area;
use sl_book::{Book, Ledger, Opened, Shelf};
use sl_cell::Teller;
use sl_io::Sink;
use sl_live::Disk;
use sl_live_lines::GivenLine;
use sl_live_machine::{Post, Roll, Spawners};
use sl_output::{Front as Pieces, Output, Press, Put, Seat as Writer};
use sl_outside::{Device, Gate, LiveDevices, Spawner};
use sl_reader::{LiveLines, NoLine};
use sl_run::Header;
use sl_text::Bytes;
use sl_time::Clock;
use std::alloc::{AllocError, Global};
use std::marker::Brand;
use std::sync::Wait;
use std::thread::Threads;
use std::time;

/// The threads of a machine.
pub const MACHINE_THREADS: u64 = 8;

/// What a machine leaves: the disks of its workers, to be given back, and its spawners.
#[derive(Drop)]
pub struct Remains<A: Area, P: Spawner> {
    pub delta: Vec<Disk<A>>,
    pub resource: Vec<Disk<A>>,
    pub spawners: Spawners<P>,
}

/// What is left of a run: how many replies its machines were given, or why they have no histories; the sink with what was put out, and whether a write
/// failed; what each machine leaves; and why the script ended, if it was not at its end.
#[derive(Drop)]
pub struct LiveRun<K: Sink, A: Area, P: Spawner> {
    pub replies: Result<u64, LiveStop>,
    pub machines: usize,
    pub sink: K,
    pub cut: bool,
    pub remains: Vec<Remains<A, P>>,
    pub ended: Option<NoLine>,
}

/// The roll of the threads of so many machines, and of the script's.
fn roll_of(machines: usize) -> Roll {
    Roll::new(
        (machines as u64)
            .saturating_mul(MACHINE_THREADS)
            .saturating_add(1),
    )
}

/// Whether threads of the run ended too soon: the script's, or one that had no memory or met a line that was not due.
pub fn ended_early<R: Wait>(
    rt: &R,
    told: &Result<Option<NoLine>, AllocError>,
    posts: &[Post],
) -> bool
    ensures { result ≡ false → IsOk told.now }
{
    match told {
        Ok(_) => has_failed(rt, posts),
        Err(_) => true,
    }
}

/// Runs machines that have begun, whose pieces go to this output.
fn run_begun<
    D: Teller + Send,
    L: LiveLines + Send,
    K: Sink + Send,
    O: Press + Send + Sync,
    T: Shelf + Send + Sync,
    R: Threads + Wait + time::Clock + Eprint + Sync,
    C: Clock + Send,
    P: Spawner + Send,
    V: Device + Send,
    A: Area + Send,
    G: Gate + Sync,
>(
    rt: &R,
    alloc: Global,
    header: &Header,
    gate: &G,
    begun: Begun<C, P, V, A, O, T>,
    book: &Book<T, GivenLine>,
    ledger: Ledger<T, GivenLine>,
    writer: Writer<O>,
    output: Output<K, O>,
    events: bool,
    lines: &mut L,
) -> LiveRun<K, A, P>
    requires settings { All (CanRun P.acts D.Daemon.commands header.now) begun.machines.items }
    requires fresh { AreFresh begun.machines.items }
    requires given { AreGiven ledger (length begun.machines.items) [] }
    requires writer { HasPutOut writer [] }
    ensures { (sites : List SiteOf) → map site_of begun.machines.items ≡ map (λ s. Some s) sites
        → (disks : List (Both A)) → map disks_of begun.machines.items ≡ map (λ d. Some d) disks
        → HasRunAll A.content A.faults P.acts events D.Daemon.stands D.Daemon.commands header.now sites disks (L.has_given lines.old) (L.has_given lines.new) O.taken (K.taken result.sink) O.faults (K.faults result.sink) result }
{
    let Begun {
        machines,
        posts,
        mails,
    } = begun;
    let (mut machines, mut ledger, mut writer) = (machines, ledger, writer);
    let roll = roll_of(machines.len());
    let shared = Shared {
        header,
        roll: &roll,
        posts: &posts,
        mails: &mails,
        output: &output,
        events,
    };
    let told = run_list::<D, L, K, O, T, R, C, P, V, A, G>(
        rt,
        alloc,
        gate,
        &shared,
        book,
        lines,
        &mut ledger,
        &mut writer,
        &mut machines,
    );
    let early = ended_early(rt, &told, &posts);
    leave(
        alloc,
        early,
        told.unwrap_or(None),
        &ledger,
        writer,
        output,
        machines,
    )
}

/// A run without memory, into whose output nothing more comes.
fn no_run<K: Sink, O: Press, A: Area, P: Spawner>(
    alloc: Global,
    output: Output<K, O>,
) -> LiveRun<K, A, P>
    ensures replies { result.replies ≡ Err NoMemoryStop }
    ensures put { (ps : List Piece) × IsPut O.taken (K.taken result.sink) O.faults (K.faults result.sink) ps result.cut }
{
    let Put {
        sink,
        front: _,
        cut,
    } = output.into_parts();
    LiveRun {
        replies: Err(LiveStop::NoMemory),
        machines: 0,
        sink,
        cut,
        remains: Vec::new(alloc),
        ended: None,
    }
}

/// Who puts out which lines of the script are refused, beside so many machines: the one behind their places, who has put nothing out. An `Err` says
/// that there are too many.
fn script_writer<O: Press>(machines: usize, pieces: &Pieces<O>) -> Result<Writer<O>, AllocError>
    ensures { IfOk result (λ w. HasPutOut w []) }
{
    let place = place_of(machines)?;
    Ok(Writer::new(place, pieces.again()))
}

/// Runs machines, with a book of what the script gives and one of what is put out.
fn run_ready<
    D: Teller + Send,
    V: LiveDevices,
    L: LiveLines + Send,
    K: Sink + Send,
    O: Press + Send + Sync,
    T: Shelf + Send + Sync,
    R: Threads + Wait + time::Clock + Eprint + Sync,
>(
    rt: &R,
    alloc: Global,
    header: &Header,
    gate: &V::Gate,
    prepared: Vec<Prepared<V>>,
    given: Opened<GivenLine>,
    told: Opened<Bytes>,
    events: bool,
    sink: K,
    lines: &mut L,
) -> LiveRun<K, V::Area, V::Spawner>
where
    V::Area: Send,
    requires header { IsHeader header.now }
    requires settings { All (λ s. IsSetting (begun_with D.Daemon.commands header.now s)) (map (λ p. p.site) prepared.items) }
    requires unasked { All (λ p. Tells (V.Spawner.acts p.parts.spawner) []) prepared.items }
    requires given { given.seen.book ≡ T.book }
    requires told { told.seen.book ≡ O.book }
    requires taken { K.taken sink ≡ O.taken }
    requires faults { K.faults sink ≡ O.faults }
    ensures { HasRunAll V.Area.content V.Area.faults V.Spawner.acts events D.Daemon.stands D.Daemon.commands header.now (map (λ p. p.site) prepared.items)
        (map (λ p. disks_in p.parts) prepared.items) (L.has_given lines.old) (L.has_given lines.new) O.taken (K.taken result.sink) O.faults (K.faults result.sink) result }
{
    let (book, unread) = given.named::<T>();
    let (output, pieces) = Output::<K, O>::new(sink, told);
    let Ok(ledger) = Ledger::new(alloc, unread.again(), prepared.len()) else {
        return no_run(alloc, output);
    };
    let Ok(begun) = begin::<V, O, T>(alloc, prepared, &unread, &pieces, events) else {
        return no_run(alloc, output);
    };
    let Ok(writer) = script_writer(begun.machines.len(), &pieces) else {
        return no_run(alloc, output);
    };
    run_begun::<D, L, K, O, T, R, V::Clock, V::Spawner, V::Device, V::Area, V::Gate>(
        rt, alloc, header, gate, begun, &book, ledger, writer, output, events, lines,
    )
}

/// Runs machines, with a book of what is put out: of what the script gives there is a new one.
fn run_put<
    D: Teller + Send,
    V: LiveDevices,
    L: LiveLines + Send,
    K: Sink + Send,
    O: Press + Send + Sync,
    R: Threads + Wait + time::Clock + Eprint + Sync,
>(
    rt: &R,
    alloc: Global,
    header: &Header,
    gate: &V::Gate,
    prepared: Vec<Prepared<V>>,
    told: Opened<Bytes>,
    events: bool,
    sink: K,
    lines: &mut L,
) -> LiveRun<K, V::Area, V::Spawner>
where
    V::Area: Send,
    requires header { IsHeader header.now }
    requires settings { All (λ s. IsSetting (begun_with D.Daemon.commands header.now s)) (map (λ p. p.site) prepared.items) }
    requires unasked { All (λ p. Tells (V.Spawner.acts p.parts.spawner) []) prepared.items }
    requires told { told.seen.book ≡ O.book }
    requires taken { K.taken sink ≡ O.taken }
    requires faults { K.faults sink ≡ O.faults }
    ensures { HasRunAll V.Area.content V.Area.faults V.Spawner.acts events D.Daemon.stands D.Daemon.commands header.now (map (λ p. p.site) prepared.items)
        (map (λ p. disks_in p.parts) prepared.items) (L.has_given lines.old) (L.has_given lines.new) O.taken (K.taken result.sink) O.faults (K.faults result.sink) result }
{
    run_ready::<D, V, L, K, O, Brand, R>(
        rt,
        alloc,
        header,
        gate,
        prepared,
        Opened::new(),
        told,
        events,
        sink,
        lines,
    )
}

/// Runs the machines of a ground beside each other, and the script beside them, until all threads have ended; what they tell is put out as it comes. A
/// line for no machine of the ground gives nothing.
///
/// An `Ok` has for each machine, in order, a history: a daemon of its site stood for it, its entries are exactly what its threads applied, its lines are
/// exactly those that the script gave it in this run, in order, each for lvmlockd with its asks and answered, and no call and no start of it is
/// unanswered; and what was put out are pieces, of which each machine's are what is told of its history, with its events or without them, and of which
/// the script's are the refusals of the lines that it went on behind. The disks that come back are, machine by machine, made of those of the ground by
/// just the calls of that machine's history, with the answers that stand there; and the spawners that come back were asked, where they tell what they were
/// asked for, for just the signals and the starts of that history, beside the kills that are counted with them. Else a case that holds of a machine; or want of
/// memory, which ends all machines. The header and the sink come back.
pub fn run_machines<
    D: Teller + Send,
    V: LiveDevices,
    L: LiveLines + Send,
    K: Sink + Send,
    R: Threads + Wait + time::Clock + Eprint + Sync,
>(
    rt: &R,
    alloc: Global,
    ground: Ground<V>,
    events: bool,
    sink: K,
    lines: &mut L,
) -> (LiveRun<K, V::Area, V::Spawner>, Header)
where
    V::Area: Send,
    requires header { IsHeader ground.header }
    requires settings { All (λ s. IsSetting (begun_with D.Daemon.commands ground.header s)) (map (λ p. p.site) ground.machines.items) }
    requires unasked { All (λ p. Tells (V.Spawner.acts p.parts.spawner) []) ground.machines.items }
    ensures header { result.1 ≡ ground.header }
    ensures run { HasRunAll V.Area.content V.Area.faults V.Spawner.acts events D.Daemon.stands D.Daemon.commands ground.header (map (λ p. p.site) ground.machines.items)
        (map (λ p. disks_in p.parts) ground.machines.items) (L.has_given lines.old) (L.has_given lines.new)
        (K.taken sink) (K.taken result.0.sink) (K.faults sink) (K.faults result.0.sink) result.0 }
{
    let Ground {
        header,
        machines,
        gate,
    } = ground;
    let run = run_put::<D, V, L, K, Brand, R>(
        rt,
        alloc,
        &header,
        &gate,
        machines,
        Opened::new(),
        events,
        sink,
        lines,
    );
    (run, header)
}
