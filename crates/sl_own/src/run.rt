//! One machine, run beside its script, and what it tells put out as it comes.

ghost use Rattle.sl_live_run.specs.Runs.{AreGiven, CanRun, HasPutOut, HasTold, IsFresh, Runs, disks_in};
ghost use Rattle.sl_live_run.specs.declared.compare.LiveStop.TheVariants.{NoMemory as NoMemoryStop};
ghost use Rattle.sl_live_run.specs.declared.machine_runs.Work.{Work as WorkOf};
ghost use Rattle.sl_outside.specs.Acts.{Tells};
ghost use Rattle.sl_output.specs.Outputs.{IsPut};
ghost use Rattle.sl_output.specs.Pieces.{Piece};
ghost use Rattle.sl_own.specs.OwnRuns.{HasRunOwn};
ghost use Rattle.sl_run.specs.Headers.{IsHeader};
ghost use Rattle.sl_run.specs.Lawful.{IsSetting};
ghost use Rattle.sl_world_state.specs.Daemons.{begun_with};
ghost use Rattle.std.specs.Fork.{AcceptsAt, ChangesAt};
ghost use Rattle.std.specs.Prelude.{Err, List, Some, [], ℕ, ◌+◌, ◌<◌, ◌^◌, ◌≡◌, ◌≤◌};

use crate::begun::{THREADS, open_posts, work_of};
use crate::ends::leave;
use crate::ground::OwnGround;
use sl_area::Area;
use sl_book::{Book, Ledger, Opened, Shelf};
use sl_cell::Teller;
use sl_io::Sink;
use sl_live_lines::GivenLine;
use sl_live_machine::{Mail, Post, Roll};
use sl_live_run::{
    LiveRun, LiveStop, Machine, Prepared, Shared, Ways, Work, beside_script, ended_early,
};
use sl_output::{Front as Pieces, Output, Press, Put, Seat as Writer};
use sl_outside::{Device, Gate, Spawner};
use sl_place::StandingDevices;
use sl_reader::{LiveLines, NoLine};
use sl_run::Header;
use sl_text::Bytes;
use sl_time::Clock;
use std::alloc::{AllocError, Global};
use std::marker::Brand;
use std::sync::Wait;
use std::thread::Threads;
use std::time;

/// A run without memory, into whose output nothing more comes.
fn no_run<K: Sink, O: Press, A: Area, P: Spawner>(
    alloc: Global,
    output: Output<K, O>,
) -> LiveRun<K, A, P>
    ensures replies { result.replies ≡ Err NoMemoryStop }
    ensures put { (ps : List Piece) × IsPut O.taken (K.taken result.sink) O.faults (K.faults result.sink) ps result.cut }
{
    let Put {
        sink,
        front: _,
        cut,
    } = output.into_parts();
    LiveRun {
        replies: Err(LiveStop::NoMemory),
        machines: 0,
        sink,
        cut,
        remains: Vec::new(alloc),
        ended: None,
    }
}

/// Does this to the machine at this place.
fn run_one<M, F: Fn(usize, &mut M)>(run: &F, place: usize, machine: &mut M)
    requires { AcceptsAt F.Fn run.now place machine.old }
    ensures { ChangesAt F.Fn run.now place machine.old machine.new }
{
    run(place, machine);
}

/// .. and gives the script beside it, until all threads have ended: how the script ended.
fn beside_one<
    L: LiveLines + Send,
    M: Send,
    K: Sink + Send,
    O: Press + Send + Sync,
    T: Shelf + Send + Sync,
    R: Threads + Wait + time::Clock + Eprint + Sync,
    F: Fn(usize, &mut M) + Sync,
>(
    rt: &R,
    alloc: Global,
    roll: &Roll,
    ways: &Ways<'_, K, O, T>,
    lines: &mut L,
    ledger: &mut Ledger<T, GivenLine>,
    writer: &mut Writer<O>,
    run: &F,
    place: usize,
    machine: &mut M,
) -> Result<Option<NoLine>, AllocError>
    requires { AcceptsAt F.Fn run.now place machine.old }
    ensures ran { ChangesAt F.Fn run.now place machine.old machine.new }
    ensures told { (count : ℕ) → AreGiven ledger.old count [] → HasPutOut writer.old []
        → HasTold count (L.has_given lines.old) (L.has_given lines.new) ledger.new writer.new result }
{
    beside_script(
        rt,
        alloc,
        roll,
        ways,
        lines,
        ledger,
        writer,
        &mut ||
            requires { AcceptsAt F.Fn run.now place machine.now }
            ensures { ChangesAt F.Fn run.entry.now place machine.entry.now machine.exit.now }
        { run_one(run, place, machine) },
    )
}

/// Runs the machine at this place and the script beside it, until all threads have ended: how the script ended.
fn run_beside<
    'a,
    D: Teller + Send,
    L: LiveLines + Send,
    K: Sink + Send,
    O: Press + Send + Sync,
    T: Shelf + Send + Sync,
    R: Threads + Wait + time::Clock + Eprint + Sync,
    C: Clock + Send,
    P: Spawner + Send,
    V: Device + Send,
    A: Area + Send,
    G: Gate + Sync,
>(
    rt: &R,
    alloc: Global,
    header: &'a Header,
    gate: &G,
    roll: &'a Roll,
    posts: &'a [Post],
    mails: &'a [Mail<T>],
    book: &'a Book<T, GivenLine>,
    output: &'a Output<K, O>,
    events: bool,
    place: usize,
    lines: &mut L,
    ledger: &mut Ledger<T, GivenLine>,
    writer: &mut Writer<O>,
    machine: &mut Machine<C, P, V, A, O, T>,
) -> Result<Option<NoLine>, AllocError>
    requires { CanRun P.acts D.Daemon.commands header.now machine.old }
    ensures ran { Runs A.content A.faults P.acts events D.Daemon.commands D.Daemon.stands header.now machine.old machine.new }
    ensures told { (count : ℕ) → AreGiven ledger.old count [] → HasPutOut writer.old []
        → HasTold count (L.has_given lines.old) (L.has_given lines.new) ledger.new writer.new result }
{
    let ways = Ways {
        posts,
        mails,
        book,
        output,
    };
    beside_one(
        rt,
        alloc,
        roll,
        &ways,
        lines,
        ledger,
        writer,
        &|place: usize, machine: &mut Machine<C, P, V, A, O, T>|
            requires { CanRun P.acts D.Daemon.commands header.now machine.now }
            ensures { Runs A.content A.faults P.acts events D.Daemon.commands D.Daemon.stands header.entry.now machine.entry.now machine.exit.now }
        {
            let shared = Shared {
                header,
                roll,
                posts,
                mails,
                output,
                events,
            };
            machine.run::<D, K, R, G>(rt, alloc, gate, &shared, place)
        },
        place,
        machine,
    )
}

/// The machine that is to run.
fn machine_of<D: Teller, C: Clock, P: Spawner, V: Device, A: Area, O: Press, T: Shelf>(
    _header: &Header,
    work: Work<C, P, V, A, O, T>,
) -> Machine<C, P, V, A, O, T>
    requires header { IsHeader _header.now }
    requires setting { IsSetting (begun_with D.Daemon.commands _header.now work.site) }
    requires unasked { Tells (P.acts work.parts.spawner) [] }
    requires fresh { IsFresh work }
    ensures work { result.work ≡ Some work }
    ensures can { CanRun P.acts D.Daemon.commands _header.now result }
{
    Machine::new(work)
}

/// Runs a machine that has a post and a mail at this place, with a book of what the script gives and one of what is put out.
fn run_with<
    'a,
    D: Teller + Send,
    L: LiveLines + Send,
    K: Sink + Send,
    O: Press + Send + Sync,
    T: Shelf + Send + Sync,
    R: Threads + Wait + time::Clock + Eprint + Sync,
    C: Clock + Send,
    P: Spawner + Send,
    V: Device + Send,
    A: Area + Send,
    G: Gate + Sync,
>(
    rt: &R,
    alloc: Global,
    header: &'a Header,
    gate: &G,
    place: u32,
    posts: &'a [Post],
    mails: &'a [Mail<T>],
    book: &'a Book<T, GivenLine>,
    ledger: Ledger<T, GivenLine>,
    writer: Writer<O>,
    unwritten: &Pieces<O>,
    output: Output<K, O>,
    events: bool,
    work: Work<C, P, V, A, O, T>,
    lines: &mut L,
) -> LiveRun<K, A, P>
    requires place { place + 1 < 2 ^ 32 }
    requires header { IsHeader header.now }
    requires setting { IsSetting (begun_with D.Daemon.commands header.now work.site) }
    requires unasked { Tells (P.acts work.parts.spawner) [] }
    requires by { work.reader.by ≡ place }
    requires fresh { IsFresh work }
    requires given { AreGiven ledger (place + 1) [] }
    requires writer { HasPutOut writer [] }
    ensures { HasRunOwn A.content A.faults P.acts events D.Daemon.stands D.Daemon.commands header.now place work.site (disks_in work.parts)
        (L.has_given lines.old) (L.has_given lines.new) O.taken (K.taken result.sink) O.faults (K.faults result.sink) result }
{
    let (mut machine, mut ledger, mut writer) = (
        machine_of::<D, C, P, V, A, O, T>(header, work),
        ledger,
        writer,
    );
    let roll = Roll::new(THREADS);
    let told = run_beside::<D, L, K, O, T, R, C, P, V, A, G>(
        rt,
        alloc,
        header,
        gate,
        &roll,
        posts,
        mails,
        book,
        &output,
        events,
        place as usize,
        lines,
        &mut ledger,
        &mut writer,
        &mut machine,
    );
    let early = ended_early(rt, &told, posts);
    leave(
        alloc,
        early,
        told.unwrap_or(None),
        place,
        &ledger,
        writer,
        unwritten,
        output,
        machine,
    )
}

/// Who puts out which lines of the script are refused: the one behind the machine's place, who has put nothing out.
fn script_writer<O: Press>(number: u32, pieces: &Pieces<O>) -> Writer<O>
    ensures { HasPutOut result [] }
{
    Writer::new(number, pieces.again())
}

/// Runs the machine of a ground, with a book of what the script gives and one of what is put out.
fn run_ready<
    D: Teller + Send,
    L: LiveLines + Send,
    K: Sink + Send,
    O: Press + Send + Sync,
    T: Shelf + Send + Sync,
    R: Threads + Wait + time::Clock + Eprint + Sync,
    V: StandingDevices,
>(
    rt: &R,
    alloc: Global,
    header: &Header,
    gate: &V::Gate,
    place: u32,
    ready: Prepared<V>,
    given: Opened<GivenLine>,
    told: Opened<Bytes>,
    events: bool,
    sink: K,
    lines: &mut L,
) -> LiveRun<K, V::Area, V::Spawner>
where
    V::Area: Send,
    requires place { place + 1 < 2 ^ 32 }
    requires header { IsHeader header.now }
    requires setting { IsSetting (begun_with D.Daemon.commands header.now ready.site) }
    requires unasked { Tells (V.Spawner.acts ready.parts.spawner) [] }
    requires given { given.seen.book ≡ T.book }
    requires told { told.seen.book ≡ O.book }
    requires taken { K.taken sink ≡ O.taken }
    requires faults { K.faults sink ≡ O.faults }
    ensures { HasRunOwn V.Area.content V.Area.faults V.Spawner.acts events D.Daemon.stands D.Daemon.commands header.now place ready.site (disks_in ready.parts)
        (L.has_given lines.old) (L.has_given lines.new) O.taken (K.taken result.sink) O.faults (K.faults result.sink) result }
{
    let (book, unread) = given.named::<T>();
    let (output, pieces) = Output::<K, O>::new(sink, told);
    let number = place + 1;
    let Ok(ledger) = Ledger::new(alloc, unread.again(), number as usize) else {
        return no_run(alloc, output);
    };
    let Ok((posts, mails)) = open_posts::<T>(alloc, number, ready.site.first.job, events) else {
        return no_run(alloc, output);
    };
    let writer = script_writer(number, &pieces);
    let work = work_of::<V, O, T>(ready, place, &unread, &pieces);
    run_with::<D, L, K, O, T, R, V::Clock, V::Spawner, V::Device, V::Area, V::Gate>(
        rt, alloc, header, gate, place, &posts, &mails, &book, ledger, writer, &pieces, output,
        events, work, lines,
    )
}

/// .. with a book of what is put out: of what the script gives there is a new one.
fn run_put<
    D: Teller + Send,
    L: LiveLines + Send,
    K: Sink + Send,
    O: Press + Send + Sync,
    R: Threads + Wait + time::Clock + Eprint + Sync,
    V: StandingDevices,
>(
    rt: &R,
    alloc: Global,
    header: &Header,
    gate: &V::Gate,
    place: u32,
    ready: Prepared<V>,
    told: Opened<Bytes>,
    events: bool,
    sink: K,
    lines: &mut L,
) -> LiveRun<K, V::Area, V::Spawner>
where
    V::Area: Send,
    requires place { place + 1 < 2 ^ 32 }
    requires header { IsHeader header.now }
    requires setting { IsSetting (begun_with D.Daemon.commands header.now ready.site) }
    requires unasked { Tells (V.Spawner.acts ready.parts.spawner) [] }
    requires told { told.seen.book ≡ O.book }
    requires taken { K.taken sink ≡ O.taken }
    requires faults { K.faults sink ≡ O.faults }
    ensures { HasRunOwn V.Area.content V.Area.faults V.Spawner.acts events D.Daemon.stands D.Daemon.commands header.now place ready.site (disks_in ready.parts)
        (L.has_given lines.old) (L.has_given lines.new) O.taken (K.taken result.sink) O.faults (K.faults result.sink) result }
{
    run_ready::<D, L, K, O, Brand, R, V>(
        rt,
        alloc,
        header,
        gate,
        place,
        ready,
        Opened::new(),
        told,
        events,
        sink,
        lines,
    )
}

/// Runs the machine of a ground and the script beside it, until all threads have ended; what it tells is put out as it comes. A line for another
/// machine gives nothing.
///
/// An `Ok` has a history: a daemon of the machine's site stood for it, its entries are exactly what the machine's threads applied, its lines are exactly
/// those that the script gave it in this run, in order, each for lvmlockd with its asks and answered, and no call and no start of it is unanswered; and what was
/// put out are pieces, of which the machine's are what is told of it, and of which the script's are the refusals of the lines that it went on behind. The
/// disks that come back are made of those of the ground by just the calls of this history, with the answers that stand there; and the spawners were
/// asked for just its signals and its starts. Else a case that holds of the machine; or want of memory. The sink comes back.
pub(crate) fn run_own<
    D: Teller + Send,
    L: LiveLines + Send,
    K: Sink + Send,
    R: Threads + Wait + time::Clock + Eprint + Sync,
    V: StandingDevices,
>(
    rt: &R,
    alloc: Global,
    ground: OwnGround<V>,
    events: bool,
    sink: K,
    lines: &mut L,
) -> LiveRun<K, V::Area, V::Spawner>
where
    V::Area: Send,
    requires place { ground.place + 1 < 2 ^ 32 }
    requires header { IsHeader ground.header }
    requires setting { IsSetting (begun_with D.Daemon.commands ground.header ground.ready.site) }
    requires unasked { Tells (V.Spawner.acts ground.ready.parts.spawner) [] }
    ensures { HasRunOwn V.Area.content V.Area.faults V.Spawner.acts events D.Daemon.stands D.Daemon.commands ground.header ground.place ground.ready.site (disks_in ground.ready.parts)
        (L.has_given lines.old) (L.has_given lines.new) (K.taken sink) (K.taken result.sink) (K.faults sink) (K.faults result.sink) result }
{
    let OwnGround {
        header,
        place,
        ready,
        gate,
    } = ground;
    run_put::<D, L, K, Brand, R, V>(
        rt,
        alloc,
        &header,
        &gate,
        place,
        ready,
        Opened::new(),
        events,
        sink,
        lines,
    )
}
