//! A machine's threads beside each other, by nested joins.
//!
//! None begins before all threads of the run are there. One that ends for want of memory ends all of them, on every machine.

ghost use Rattle.sl_live.specs.Turns.{IsChildThread, IsDeviceThread, IsLineThread, IsStarterThread, IsTicker, Works};
ghost use Rattle.sl_book.specs.Logs.{entries};
ghost use Rattle.sl_live_lines.specs.EventTexts.{Telling};
ghost use Rattle.sl_live_lines.specs.LocksAlong.{AlongState};
ghost use Rattle.sl_live_machine.specs.Printing.{IsPrinting};
ghost use Rattle.sl_live_machine.specs.ServedActs.{StartsOn};
ghost use Rattle.sl_live_machine.specs.ServedDisks.{AreGathered, AreServing};
ghost use Rattle.sl_live_machine.specs.ThreadTurns.{WorksOn};
ghost use Rattle.std.specs.Prelude.{IfOk, Ok, OnOk, ◌+◌, ◌≡◌};
ghost use Rattle.sl_cell.specs.declared.part.Part.TheVariants.{Delta as DeltaPart, Resource as ResourcePart};
ghost use denote.Param.Send.{IsSend, IsSync};

use crate::children::tell_exits;
use crate::device::keep_alive;
use crate::lines::give_lines;
use crate::printer::{Desk, Printer, print_replies};
use crate::room::Room;
use crate::script_waits::{Post, fail_all};
use crate::starter::{Starter, start_programs};
use crate::thread_roll::Roll;
use crate::ticker::tick;
use crate::worker::work;
use sl_area::Area;
use sl_book::Shelf;
use sl_cell::{Part, Seat, Station, Teller};
use sl_io::Sink;
use sl_live::Disk;
use sl_output::Press;
use sl_outside::{Device, Gate, Spawner};
use sl_time::Clock;
use std::alloc::{AllocError, Global};
use std::sync::Wait;
use std::thread::{Threads, join};
use std::time;

/// The clocks of a machine's threads: each reads its own.
#[derive(Drop)]
pub struct Clocks<C: Clock> {
    pub ticks: C,
    pub delta: C,
    pub resource: C,
    pub exits: C,
    pub starts: C,
    pub tests: C,
    pub lines: C,
}

/// Where a machine stands in its run: the roll of all threads, the posts of all machines, and its own post.
#[derive(Clone, Copy)]
pub struct Stand<'a> {
    pub roll: &'a Roll,
    pub posts: &'a [Post],
    pub post: &'a Post,
}

impl<'a> Stand<'a> {
    /// Waits for all threads. An `Err` is for threads that can't be made: then all are to end.
    fn enter<R: Wait + time::Clock>(&self, rt: &R) -> Result<(), AllocError> {
        if self.roll.enter(rt) {
            Ok(())
        } else {
            self.give_up(rt);
            Err(AllocError)
        }
    }

    /// The machine's threads won't come: all are to end.
    pub fn give_up<R: Wait>(&self, rt: &R) {
        self.roll.give_up(rt);
        fail_all(rt, self.posts);
    }

    /// What a thread ended with. Where there was no memory, all threads are to end.
    fn ended<S, R: Wait>(&self, rt: &R, end: Result<S, AllocError>) -> Result<S, AllocError>
        ensures { result ≡ end }
    {
        if end.is_err() {
            fail_all(rt, self.posts);
        }
        end
    }
}

/// The thread that wakes the daemon, again and again.
fn ticker<D: Teller, J: Station, R: Wait + time::Clock, C: Clock, P: Spawner>(
    rt: &R,
    room: &Room<D, J, P>,
    stand: &Stand<'_>,
    clock: C,
) -> Result<Seat<J>, AllocError>
    ensures { IfOk result (λ s. IsTicker s) }
{
    stand.enter(rt)?;
    stand.ended(rt, tick(rt, room, stand.post, clock))
}

/// The thread that gives the script's lines, and what lvmlockd's locks ask.
fn line_thread<D: Teller, J: Station, R: Wait + time::Clock, C: Clock, P: Spawner>(
    rt: &R,
    room: &Room<D, J, P>,
    stand: &Stand<'_>,
    clock: C,
) -> Result<Seat<J>, AllocError>
    ensures { IfOk result (λ s. IsLineThread s) }
{
    stand.enter(rt)?;
    stand.ended(rt, give_lines(rt, room, stand.post, clock))
}

/// The child thread. Where there was no memory, it kills the children that run.
fn child_thread<D: Teller, J: Station, R: Wait + time::Clock, C: Clock, P: Spawner>(
    rt: &R,
    room: &Room<D, J, P>,
    stand: &Stand<'_>,
    clock: C,
) -> Result<Seat<J>, AllocError>
    ensures { IfOk result (λ s. IsChildThread s) }
{
    stand.enter(rt)?;
    let seat = stand.ended(rt, tell_exits(rt, room, stand.post, clock));
    if stand.post.has_failed(rt) {
        room.children.lock(rt).kill();
    }
    seat
}

/// The starter's seat, and what it made the starts with.
#[derive(Drop)]
pub(crate) struct StarterEnd<J: Station, P: Spawner> {
    pub seat: Result<Seat<J>, AllocError>,
    pub starter: Starter<P>,
}

/// What the thread that starts programs ends with.
fn starter_seat<D: Teller, J: Station, R: Wait + time::Clock, C: Clock, P: Spawner>(
    rt: &R,
    room: &Room<D, J, P>,
    stand: &Stand<'_>,
    clock: C,
    starter: &mut Starter<P>,
) -> Result<Seat<J>, AllocError>
    ensures thread { IfOk result (λ s. IsStarterThread s) }
    ensures starts { IfOk result (λ s. StartsOn J.setting starter.new.killed (P.acts starter.old.spawner) (P.acts starter.new.spawner) s) }
{
    stand.enter(rt)?;
    stand.ended(rt, start_programs(rt, room, stand.post, clock, starter))
}

/// The thread that starts programs.
fn starter_thread<D: Teller, J: Station, R: Wait + time::Clock, C: Clock, P: Spawner>(
    rt: &R,
    room: &Room<D, J, P>,
    stand: &Stand<'_>,
    clock: C,
    starter: Starter<P>,
) -> StarterEnd<J, P>
    ensures thread { IfOk result.seat (λ s. IsStarterThread s) }
    ensures starts { IfOk result.seat (λ s. StartsOn J.setting result.starter.killed (P.acts starter.spawner) (P.acts result.starter.spawner) s) }
{
    let mut starter = starter;
    let seat = starter_seat(rt, room, stand, clock, &mut starter);
    StarterEnd { seat, starter }
}

/// The thread that tests the connections and keeps the device alive.
fn device_thread<D: Teller, J: Station, R: Wait + time::Clock, C: Clock, P: Spawner, V: Device>(
    rt: &R,
    room: &Room<D, J, P>,
    stand: &Stand<'_>,
    clock: C,
    device: V,
) -> Result<Seat<J>, AllocError>
    ensures { IfOk result (λ s. IsDeviceThread s) }
{
    stand.enter(rt)?;
    stand.ended(rt, keep_alive(rt, room, stand.post, clock, device))
}

/// A worker's seat, and its disks back.
#[derive(Drop)]
pub(crate) struct Worked<J: Station, A: Area> {
    pub seat: Result<Seat<J>, AllocError>,
    pub disks: Vec<Disk<A>>,
}

/// A worker of a part, with its clock and its disks.
#[derive(Drop)]
pub(crate) struct Tools<C: Clock, A: Area> {
    pub part: Part,
    pub clock: C,
    pub disks: Vec<Disk<A>>,
}

/// What a worker ends with.
fn worker_seat<
    D: Teller,
    J: Station,
    R: Wait + time::Clock,
    C: Clock,
    P: Spawner,
    A: Area,
    G: Gate,
>(
    rt: &R,
    room: &Room<D, J, P>,
    stand: &Stand<'_>,
    gate: &G,
    part: Part,
    clock: C,
    disks: &mut [Disk<A>],
) -> Result<Seat<J>, AllocError>
    ensures works { IfOk result (λ s. Works J.setting part s) }
    ensures made { IfOk result (λ s. WorksOn A.content A.faults room.now.geometry.sector J.setting part disks.old disks.new s) }
{
    stand.enter(rt)?;
    stand.ended(rt, work(rt, room, stand.post, gate, part, clock, disks))
}

/// The thread that makes the sector calls of its part, and gives their answers.
fn worker<D: Teller, J: Station, R: Wait + time::Clock, C: Clock, P: Spawner, A: Area, G: Gate>(
    rt: &R,
    room: &Room<D, J, P>,
    stand: &Stand<'_>,
    gate: &G,
    tools: Tools<C, A>,
) -> Worked<J, A>
    ensures works { IfOk result.seat (λ s. Works J.setting tools.part s) }
    ensures made { IfOk result.seat (λ s. WorksOn A.content A.faults room.now.geometry.sector J.setting tools.part tools.disks.items result.disks.items s) }
{
    let Tools {
        part,
        clock,
        mut disks,
    } = tools;
    let seat = worker_seat(rt, room, stand, gate, part, clock, &mut disks);
    Worked { seat, disks }
}

/// Runs both workers, each in a thread of its own.
fn workers<
    D: Teller + Send,
    J: Station + Send + Sync,
    R: Threads + Wait + time::Clock + Sync,
    C: Clock + Send,
    P: Spawner + Send,
    A: Area + Send,
    G: Gate + Sync,
>(
    rt: &R,
    room: &Room<D, J, P>,
    stand: &Stand<'_>,
    gate: &G,
    delta: Tools<C, A>,
    resource: Tools<C, A>,
) -> (Worked<J, A>, Worked<J, A>)
    ensures delta { IfOk result.0.seat (λ s. Works J.setting delta.part s) }
    ensures resource { IfOk result.1.seat (λ s. Works J.setting resource.part s) }
    ensures delta_made { IfOk result.0.seat (λ s. WorksOn A.content A.faults room.now.geometry.sector J.setting delta.part
        delta.disks.items result.0.disks.items s) }
    ensures resource_made { IfOk result.1.seat (λ s. WorksOn A.content A.faults room.now.geometry.sector J.setting resource.part
        resource.disks.items result.1.disks.items s) }
{
    join(
        rt,
        || worker(rt, room, stand, gate, delta),
        || worker(rt, room, stand, gate, resource),
    )
}

/// The threads that give what the clock and the script give.
fn givers<
    D: Teller + Send,
    J: Station + Send + Sync,
    R: Threads + Wait + time::Clock + Sync,
    C: Clock + Send,
    P: Spawner + Send,
>(
    rt: &R,
    room: &Room<D, J, P>,
    stand: &Stand<'_>,
    ticks: C,
    lines: C,
) -> (Result<Seat<J>, AllocError>, Result<Seat<J>, AllocError>)
    ensures ticks { IfOk result.0 (λ s. IsTicker s) }
    ensures lines { IfOk result.1 (λ s. IsLineThread s) }
{
    join(
        rt,
        || ticker(rt, room, stand, ticks),
        || line_thread(rt, room, stand, lines),
    )
}

/// What a thread that is no worker ends with.
type Ending<J> = Result<Seat<J>, AllocError>;

/// The threads that start children and look after them.
fn keepers<
    D: Teller + Send,
    J: Station + Send + Sync,
    R: Threads + Wait + time::Clock + Sync,
    C: Clock + Send,
    P: Spawner + Send,
>(
    rt: &R,
    room: &Room<D, J, P>,
    stand: &Stand<'_>,
    exits: C,
    starts: C,
    starter: Starter<P>,
) -> (Ending<J>, StarterEnd<J, P>)
    ensures exits { IfOk result.0 (λ s. IsChildThread s) }
    ensures starts { IfOk result.1.seat (λ s. IsStarterThread s) }
    ensures made { IfOk result.1.seat (λ s. StartsOn J.setting result.1.starter.killed (P.acts starter.spawner) (P.acts result.1.starter.spawner) s) }
{
    join(
        rt,
        || child_thread(rt, room, stand, exits),
        || starter_thread(rt, room, stand, starts, starter),
    )
}

/// The threads that have to do with the children.
fn watchers<
    D: Teller + Send,
    J: Station + Send + Sync,
    R: Threads + Wait + time::Clock + Sync,
    C: Clock + Send,
    P: Spawner + Send,
    V: Device + Send,
>(
    rt: &R,
    room: &Room<D, J, P>,
    stand: &Stand<'_>,
    exits: C,
    starts: C,
    tests: C,
    starter: Starter<P>,
    device: V,
) -> (Ending<J>, StarterEnd<J, P>, Ending<J>)
    ensures exits { IfOk result.0 (λ s. IsChildThread s) }
    ensures starts { IfOk result.1.seat (λ s. IsStarterThread s) }
    ensures made { IfOk result.1.seat (λ s. StartsOn J.setting result.1.starter.killed (P.acts starter.spawner) (P.acts result.1.starter.spawner) s) }
    ensures tests { IfOk result.2 (λ s. IsDeviceThread s) }
{
    let ((exits, starts), tests) = join(
        rt,
        || keepers(rt, room, stand, exits, starts, starter),
        || device_thread(rt, room, stand, tests, device),
    );
    (exits, starts, tests)
}

/// What all threads but the workers end with.
#[derive(Drop)]
struct OtherEndings<J: Station, P: Spawner> {
    ticks: Ending<J>,
    lines: Ending<J>,
    exits: Ending<J>,
    starts: StarterEnd<J, P>,
    tests: Ending<J>,
}

/// All threads but the workers.
fn others<
    D: Teller + Send,
    J: Station + Send + Sync,
    R: Threads + Wait + time::Clock + Sync,
    C: Clock + Send,
    P: Spawner + Send,
    V: Device + Send,
>(
    rt: &R,
    room: &Room<D, J, P>,
    stand: &Stand<'_>,
    ticks: C,
    lines: C,
    exits: C,
    starts: C,
    tests: C,
    starter: Starter<P>,
    device: V,
) -> OtherEndings<J, P>
    ensures ticks { IfOk result.ticks (λ s. IsTicker s) }
    ensures lines { IfOk result.lines (λ s. IsLineThread s) }
    ensures exits { IfOk result.exits (λ s. IsChildThread s) }
    ensures starts { IfOk result.starts.seat (λ s. IsStarterThread s) }
    ensures made { IfOk result.starts.seat (λ s. StartsOn J.setting result.starts.starter.killed (P.acts starter.spawner) (P.acts result.starts.starter.spawner) s) }
    ensures tests { IfOk result.tests (λ s. IsDeviceThread s) }
{
    let ((ticks, lines), (exits, starts, tests)) = join(
        rt,
        || givers(rt, room, stand, ticks, lines),
        ||
            requires teller { IsSend D.row }
            requires station { IsSend J.row }
            requires station_shared { IsSync J.row }
            requires runtime { IsSync R.row }
            requires clock { IsSend C.row }
            requires spawner { IsSend P.row }
            requires device { IsSend V.row }
        { watchers(rt, room, stand, exits, starts, tests, starter, device) },
    );
    OtherEndings {
        ticks,
        lines,
        exits,
        starts,
        tests,
    }
}

/// The seats of three threads, if none ended for want of memory.
fn three<J: Station>(
    first: Ending<J>,
    second: Ending<J>,
    third: Ending<J>,
) -> Result<(Seat<J>, Seat<J>, Seat<J>), AllocError>
    ensures first { IfOk result (λ s. first ≡ Ok s.0) }
    ensures second { IfOk result (λ s. second ≡ Ok s.1) }
    ensures third { IfOk result (λ s. third ≡ Ok s.2) }
{
    Ok((first?, second?, third?))
}

/// The seats of all threads, if none ended for want of memory, and there is memory for the list.
fn gather<J: Station>(
    alloc: Global,
    ticks: Ending<J>,
    delta: Ending<J>,
    resource: Ending<J>,
    exits: Ending<J>,
    starts: Ending<J>,
    tests: Ending<J>,
    lines: Ending<J>,
) -> Result<Vec<Seat<J>>, AllocError>
    requires delta { IfOk delta (λ s. Works J.setting DeltaPart s) }
    requires resource { IfOk resource (λ s. Works J.setting ResourcePart s) }
    requires ticks { IfOk ticks (λ s. IsTicker s) }
    requires lines { IfOk lines (λ s. IsLineThread s) }
    requires exits { IfOk exits (λ s. IsChildThread s) }
    requires starts { IfOk starts (λ s. IsStarterThread s) }
    requires tests { IfOk tests (λ s. IsDeviceThread s) }
    ensures { IfOk result (λ v. AreGathered J.setting delta resource starts v.items) }
{
    let (ticks, delta, resource) = three(ticks, delta, resource)?;
    let (exits, starts, tests) = three(exits, starts, tests)?;
    let lines = lines?;
    Ok(vec![in alloc; ticks, delta, resource, exits, starts, tests, lines]?)
}

/// What the threads of a machine have left: their seats, the workers' disks, and what made the starts.
#[derive(Drop)]
pub(crate) struct Threaded<J: Station, P: Spawner, A: Area> {
    pub seats: Result<Vec<Seat<J>>, AllocError>,
    pub delta: Vec<Disk<A>>,
    pub resource: Vec<Disk<A>>,
    pub starter: Starter<P>,
}

/// What the threads have left, by what each has ended with.
fn gather_threads<J: Station, P: Spawner, A: Area>(
    alloc: Global,
    delta: Worked<J, A>,
    resource: Worked<J, A>,
    others: OtherEndings<J, P>,
) -> Threaded<J, P, A>
    requires delta { IfOk delta.seat (λ s. Works J.setting DeltaPart s) }
    requires resource { IfOk resource.seat (λ s. Works J.setting ResourcePart s) }
    requires ticks { IfOk others.ticks (λ s. IsTicker s) }
    requires lines { IfOk others.lines (λ s. IsLineThread s) }
    requires exits { IfOk others.exits (λ s. IsChildThread s) }
    requires starts { IfOk others.starts.seat (λ s. IsStarterThread s) }
    requires tests { IfOk others.tests (λ s. IsDeviceThread s) }
    ensures seats { IfOk result.seats (λ v. AreGathered J.setting delta.seat resource.seat others.starts.seat v.items) }
    ensures delta_disks { result.delta ≡ delta.disks }
    ensures resource_disks { result.resource ≡ resource.disks }
    ensures starter { result.starter ≡ others.starts.starter }
{
    let Worked {
        seat: delta,
        disks: delta_disks,
    } = delta;
    let Worked {
        seat: resource,
        disks: resource_disks,
    } = resource;
    let OtherEndings {
        ticks,
        lines,
        exits,
        starts,
        tests,
    } = others;
    let StarterEnd {
        seat: starts,
        starter,
    } = starts;
    Threaded {
        seats: gather(alloc, ticks, delta, resource, exits, starts, tests, lines),
        delta: delta_disks,
        resource: resource_disks,
        starter,
    }
}

/// The printer with what it ended with.
#[derive(Drop)]
pub(crate) struct Printed<J: Station, O: Press, T: Shelf> {
    pub printer: Printer<J, O, T>,
    pub end: Result<(), AllocError>,
}

/// What the printer ends with, which is lent.
fn printer_end<
    D: Teller,
    J: Station,
    K: Sink,
    O: Press,
    T: Shelf,
    R: Wait + time::Clock,
    P: Spawner,
>(
    rt: &R,
    room: &Room<D, J, P>,
    stand: &Stand<'_>,
    desk: &Desk<'_, K, O, T>,
    printer: &mut Printer<J, O, T>,
) -> Result<(), AllocError>
    ensures goes { (t : Telling) → (a : AlongState) → IsPrinting t a (entries printer.old.mine) printer.old → OnOk result (IsPrinting t a (entries printer.new.mine) printer.new) }
    ensures by { printer.new.reader.by ≡ printer.old.reader.by }
    ensures seat { printer.new.writer.by ≡ printer.old.writer.by }
{
    stand.enter(rt)?;
    stand.ended(rt, print_replies(rt, room, stand.post, desk, printer))
}

/// The printer. Where a line is not the one due, all threads are to end.
pub(crate) fn printer_thread<
    D: Teller,
    J: Station,
    K: Sink,
    O: Press,
    T: Shelf,
    R: Wait + time::Clock,
    P: Spawner,
>(
    rt: &R,
    room: &Room<D, J, P>,
    stand: &Stand<'_>,
    desk: &Desk<'_, K, O, T>,
    printer: Printer<J, O, T>,
) -> Printed<J, O, T>
    ensures goes { (t : Telling) → (a : AlongState) → IsPrinting t a (entries printer.mine) printer → OnOk result.end (IsPrinting t a (entries result.printer.mine) result.printer) }
    ensures by { result.printer.reader.by ≡ printer.reader.by }
    ensures seat { result.printer.writer.by ≡ printer.writer.by }
{
    let mut printer = printer;
    let end = printer_end(rt, room, stand, desk, &mut printer);
    if printer.wrong.is_some() {
        fail_all(rt, stand.posts);
    }
    Printed { printer, end }
}

/// Runs the threads of a machine but its printer until all have ended.
pub(crate) fn run_threads<
    D: Teller + Send,
    J: Station + Send + Sync,
    R: Threads + Wait + time::Clock + Sync,
    C: Clock + Send,
    P: Spawner + Send,
    V: Device + Send,
    A: Area + Send,
    G: Gate + Sync,
>(
    rt: &R,
    room: &Room<D, J, P>,
    stand: &Stand<'_>,
    gate: &G,
    clocks: Clocks<C>,
    starter: Starter<P>,
    device: V,
    delta: Vec<Disk<A>>,
    resource: Vec<Disk<A>>,
) -> Threaded<J, P, A>
    ensures { IfOk result.seats (λ v. AreServing A.content A.faults P.acts room.now.geometry.sector J.setting delta.items result.delta.items
        resource.items result.resource.items starter.spawner result.starter v.items) }
{
    let Clocks {
        ticks,
        delta: delta_clock,
        resource: resource_clock,
        exits,
        starts,
        tests,
        lines,
    } = clocks;
    let delta = Tools {
        part: Part::Delta,
        clock: delta_clock,
        disks: delta,
    };
    let resource = Tools {
        part: Part::Resource,
        clock: resource_clock,
        disks: resource,
    };
    let ((delta, resource), rest) = join(
        rt,
        ||
            requires teller { IsSend D.row }
            requires station { IsSend J.row }
            requires station_shared { IsSync J.row }
            requires runtime { IsSync R.row }
            requires clock { IsSend C.row }
            requires spawner { IsSend P.row }
            requires area { IsSend A.row }
            requires gate { IsSync G.row }
        { workers(rt, room, stand, gate, delta, resource) },
        ||
            requires teller { IsSend D.row }
            requires station { IsSend J.row }
            requires station_shared { IsSync J.row }
            requires runtime { IsSync R.row }
            requires clock { IsSend C.row }
            requires spawner { IsSend P.row }
            requires device { IsSend V.row }
        {
            others(
                rt, room, stand, ticks, lines, exits, starts, tests, starter, device,
            )
        },
    );
    gather_threads(room.alloc, delta, resource, rest)
}

/// Runs all threads of a machine until they have ended.
pub(crate) fn run_beside<
    D: Teller + Send,
    J: Station + Send + Sync,
    K: Sink + Send,
    O: Press + Send + Sync,
    T: Shelf + Send + Sync,
    R: Threads + Wait + time::Clock + Sync,
    C: Clock + Send,
    P: Spawner + Send,
    V: Device + Send,
    A: Area + Send,
    G: Gate + Sync,
>(
    rt: &R,
    room: &Room<D, J, P>,
    stand: &Stand<'_>,
    gate: &G,
    desk: &Desk<'_, K, O, T>,
    clocks: Clocks<C>,
    starter: Starter<P>,
    device: V,
    printer: Printer<J, O, T>,
    delta: Vec<Disk<A>>,
    resource: Vec<Disk<A>>,
) -> (Threaded<J, P, A>, Printed<J, O, T>)
    ensures seats { IfOk result.0.seats (λ v. AreServing A.content A.faults P.acts room.now.geometry.sector J.setting delta.items result.0.delta.items
        resource.items result.0.resource.items starter.spawner result.0.starter v.items) }
    ensures printer { (t : Telling) → (a : AlongState) → IsPrinting t a (entries printer.mine) printer → OnOk result.1.end (IsPrinting t a (entries result.1.printer.mine) result.1.printer) }
    ensures by { result.1.printer.reader.by ≡ printer.reader.by }
    ensures seat { result.1.printer.writer.by ≡ printer.writer.by }
{
    join(
        rt,
        ||
            requires teller { IsSend D.row }
            requires station { IsSend J.row }
            requires station_shared { IsSync J.row }
            requires runtime { IsSync R.row }
            requires clock { IsSend C.row }
            requires spawner { IsSend P.row }
            requires device { IsSend V.row }
            requires area { IsSend A.row }
            requires gate { IsSync G.row }
            ensures { IfOk result.seats (λ v. AreServing A.content A.faults P.acts room.entry.now.geometry.sector J.setting delta.items result.delta.items
                resource.items result.resource.items starter.spawner result.starter v.items) }
        {
            run_threads(
                rt, room, stand, gate, clocks, starter, device, delta, resource,
            )
        },
        ||
            ensures goes { (t : Telling) → (a : AlongState) → IsPrinting t a (entries printer.mine) printer
                → OnOk result.end (IsPrinting t a (entries result.printer.mine) result.printer) }
            ensures by { result.printer.reader.by ≡ printer.reader.by }
            ensures seat { result.printer.writer.by ≡ printer.writer.by }
        { printer_thread(rt, room, stand, desk, printer) },
    )
}
