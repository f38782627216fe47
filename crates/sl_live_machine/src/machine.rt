//! A machine's run: its cell is made, its threads run beside each other, and the cell is closed with their seats. It ends where no line, no call
//! and no child is left (`board`).

ghost use Rattle.sl_book.specs.Logs.{entries};
ghost use Rattle.sl_cell.specs.Histories.{trace_of};
ghost use Rattle.sl_live.specs.CarriedOut.{HasSignalled};
ghost use Rattle.sl_live_lines.specs.AuditedHistory.{IsAudit};
ghost use Rattle.sl_live_lines.specs.EventTexts.{Telling, first_telling};
ghost use Rattle.sl_live_lines.specs.LocksAlong.{AlongState, begun_along};
ghost use Rattle.sl_live_machine.specs.MachineEnds.{Checks, EndsEarly, EndsSo, HasRun, OnWhole, broken_end};
ghost use Rattle.sl_live_machine.specs.Printing.{IsPrinting, lines_read};
ghost use Rattle.sl_live_machine.specs.ServedDisks.{AreOf};
ghost use Rattle.sl_live_machine.specs.ThreadSeats.{AreSeats, IsCaseOfRun, IsRun};
ghost use Rattle.sl_live_machine.specs.declared.machine.CloseError.TheVariants.{NoMemory as NoMemoryClose};
ghost use Rattle.sl_trace.specs.declared.effects.Entry.{Entry as EntryOf};
ghost use Rattle.sl_outside.specs.Acts.{Tells};
ghost use Rattle.sl_run.specs.Headers.{IsHeader};
ghost use Rattle.sl_run.specs.Lawful.{IsSetting};
ghost use Rattle.sl_world_state.specs.Daemons.{Stood, begun_with};
ghost use Rattle.std.specs.Prelude.{Err, IfErr, IfOk, IsOk, IsOkAnd, IsTrue, List, None, Ok, OnOk, [], if◌then◌else◌, true, ◌&&◌, ◌+◌, ◌≡◌, ◌⊎◌};

use crate::printer::{Desk, Printer};
use crate::room::{Pace, Room};
use crate::script_waits::Post;
use crate::starter::Starter;
use crate::threads::{Clocks, Printed, Stand, Threaded, run_beside};
use sl_area::Area;
use sl_book::{Reader, Shelf};
use sl_cell::{Differ, Front, HostCell, Opened, Seat, Station, Teller};
use sl_io::Sink;
use sl_live::{Carried, Disk};
use sl_live_lines::{Audit, GivenLine, Left};
use sl_locks::LvmLocks;
use sl_output::{Press, Seat as Writer};
use sl_outside::{Device, Gate, Spawner};
use sl_run::Header;
use sl_time::Clock;
use sl_world_state::Site;
use std::alloc::{AllocError, Global};
use std::sync::{Mutex, Wait};
use std::thread::Threads;
use std::time;
use std::time::Duration;

/// What a machine runs on. Each worker has an area of its own of each disk.
#[derive(Drop)]
pub struct Parts<C: Clock, P: Spawner, V: Device, A: Area> {
    pub clocks: Clocks<C>,
    pub spawner: P,
    pub device: V,
    pub delta: Vec<Disk<A>>,
    pub resource: Vec<Disk<A>>,
}

/// Why a machine has no whole history.
#[derive(Clone, Copy)]
pub enum CloseError {
    /// A case in which what its threads counted differs from a history that the daemon could have.
    Differ(Differ),
    /// The line of the entry of this number, counted from 1, is not the one that was due.
    Line { number: u64 },
    /// A line for lvmlockd still runs at the end, or a call or a start is not answered.
    Left(Left),
    NoMemory,
}

/// The spawners of a machine: the one that sent its signals, and the one that made its starts; and whether all its children were killed at some time.
#[derive(Drop)]
pub struct Spawners<P: Spawner> {
    pub signals: P,
    pub starts: P,
    pub killed: bool,
}

/// What is left of a machine's run: whether its history is whole, or why it is not; the script's lines that its printer met, the pieces that it put out
/// and how many replies are in them; how many entries the history has; the workers' disks; and the spawners.
#[derive(Drop)]
pub struct Ran<O: Press, T: Shelf, A: Area, P: Spawner> {
    pub end: Result<(), CloseError>,
    pub reader: Reader<T, GivenLine>,
    pub writer: Writer<O>,
    pub replies: u64,
    pub entries: u64,
    pub delta: Vec<Disk<A>>,
    pub resource: Vec<Disk<A>>,
    pub spawners: Spawners<P>,
}

/// How often the threads of a machine look by themselves: at least a millisecond lies between.
fn pace_of(header: &Header) -> Pace {
    let wake = (header.timing.io() / 4).max(1);
    let test = (header.timing.fire() / 6).max(1);
    Pace {
        wake: Duration::from_millis(wake),
        test: Duration::from_millis(test),
    }
}

/// Closes a cell with the seats of all threads, for a printer that has seen all that was handed out.
fn close_with<D: Teller, J: Station>(
    cell: HostCell<D, J>,
    seats: Vec<Seat<J>>,
    mine: &Front<J>,
) -> Result<(), Differ>
    requires setting { IsSetting J.setting }
    requires seats { AreSeats J.setting seats.items }
    ensures stood { OnOk result (Stood D.Daemon.stands J.setting (trace_of mine.now)) }
    ensures ok { OnOk result (IsRun J.setting (entries mine.now)) }
    ensures counts { OnOk result (AreOf J.setting mine.now seats.items) }
    ensures differ { IfErr result (IsCaseOfRun J.setting) }
{
    cell.close(&seats, mine)
}

/// Closes the cell of threads of which one has ended too soon, for a printer that may have left off before them: want of memory, if the daemon stands
/// for its history.
fn close_early<D: Teller, J: Station, R: Wait>(
    rt: &R,
    alloc: Global,
    cell: HostCell<D, J>,
    mine: &Front<J>,
) -> CloseError
    ensures { EndsEarly J.setting result }
{
    let none: Vec<Seat<J>> = Vec::new(alloc);
    let mut all = mine.again();
    // entries that the printer never met are no sign of another writer, so they are handed out first
    let _rest = cell.hand_out(rt, &mut all);
    match cell.close(&none, &all) {
        Ok(()) => CloseError::NoMemory,
        Err(Differ::Entry { .. }) => CloseError::NoMemory,
        Err(Differ::Broken { entries }) => CloseError::Differ(Differ::Broken { entries }),
    }
}

/// Whether what the printer found along a whole history is as it should be.
fn check_lines<J: Station, O: Press, T: Shelf>(printer: &Printer<J, O, T>) -> Result<(), CloseError>
    ensures goes { (t : Telling) → (a : AlongState) → (h : List EntryOf) → IsPrinting t a h printer.now → Checks a h printer.now result }
    ensures right { OnOk result (printer.now.wrong ≡ None) }
{
    if let Some(number) = printer.wrong {
        return Err(CloseError::Line { number });
    }
    match printer.audit.left() {
        None => Ok(()),
        Some(left) => Err(CloseError::Left(left)),
    }
}

/// How a machine ends whose threads have all ended, and whose printer has put out all.
fn close_whole<D: Teller, J: Station, O: Press, T: Shelf>(
    cell: HostCell<D, J>,
    seats: Vec<Seat<J>>,
    printer: &Printer<J, O, T>,
) -> Result<(), CloseError>
    requires setting { IsSetting J.setting }
    requires seats { AreSeats J.setting seats.items }
    ensures goes { (t : Telling) → (a : AlongState) → IsPrinting t a (entries printer.now.mine) printer.now → EndsSo D.Daemon.stands J.setting a printer.now result }
    ensures counts { OnWhole result (AreOf J.setting printer.now.mine seats.items) }
    ensures right { OnOk result (printer.now.wrong ≡ None) }
{
    match close_with(cell, seats, &printer.mine) {
        Ok(()) => check_lines(printer),
        Err(differ) => Err(CloseError::Differ(differ)),
    }
}

/// The seats of threads that have ended, where the printer has put out all that is told of the history. An `Err` is want of memory.
fn print_last<D: Teller, J: Station, K: Sink, O: Press, T: Shelf, R: Wait, P: Spawner>(
    rt: &R,
    room: &Room<D, J, P>,
    post: &Post,
    desk: &Desk<'_, K, O, T>,
    printed: &mut Printed<J, O, T>,
    seats: Result<Vec<Seat<J>>, AllocError>,
) -> Result<Vec<Seat<J>>, AllocError>
    ensures seats { IfOk result (λ v. seats ≡ Ok v) }
    ensures goes { (t : Telling) → (a : AlongState) → OnOk printed.old.end (IsPrinting t a (entries printed.old.printer.mine) printed.old.printer)
        → OnOk result (IsPrinting t a (entries printed.new.printer.mine) printed.new.printer × (printed.new.printer.text.items ≡ [])) }
    ensures by { printed.new.printer.reader.by ≡ printed.old.printer.reader.by }
    ensures seat { printed.new.printer.writer.by ≡ printed.old.printer.writer.by }
{
    let seats = seats?;
    printed.end?;
    printed.printer.print(rt, room, post, desk)?;
    Ok(seats)
}

/// A machine's spawner at the end, whether all children were killed at some time, and whether it has sent just the signals of the history.
#[derive(Drop)]
struct ChildrenEnd<P: Spawner> {
    spawner: P,
    killed: bool,
    whole: bool,
}

/// Whether all children were killed, where one saw that they were.
fn is_known(killed: bool, saw_killed: bool) -> bool
    ensures { IsTrue result → saw_killed ≡ true → killed ≡ true }
{
    killed || !saw_killed
}

/// Whether both are so.
fn both(one: bool, other: bool) -> bool
    ensures { result ≡ (one && other) }
{
    one && other
}

/// What is left of the children, where this is the whole history, and the starter knows that all were killed, or does not. Where there was no memory, no
/// child goes on: one may have been started behind the kill of the child thread.
fn end_children<J: Station, P: Spawner>(
    children: Carried<P, J>,
    failed: bool,
    saw_killed: bool,
    mine: &Front<J>,
) -> ChildrenEnd<P>
    ensures signals { result.whole ≡ true → HasSignalled (entries mine.now) result.killed (P.acts result.spawner) }
    ensures killed { result.whole ≡ true → saw_killed ≡ true → result.killed ≡ true }
{
    let mut children = children;
    if failed {
        children.kill();
    }
    let killed = children.has_killed();
    let follows = children.is_whole(mine);
    let known = is_known(killed, saw_killed);
    let whole = both(follows, known);
    ChildrenEnd {
        spawner: children.into_spawner(),
        killed,
        whole,
    }
}

/// How a machine ends whose children were found to follow its history, or not, which can't be: then it has none, as for want of memory.
fn end_with(end: Result<(), CloseError>, whole: bool) -> Result<(), CloseError>
    ensures same { (result ≡ end) ⊎ (result ≡ Err NoMemoryClose) }
    ensures is { result ≡ (if whole then end else broken_end end) }
    ensures whole { OnWhole result (whole ≡ true) }
{
    if whole {
        return end;
    }
    match end {
        Err(CloseError::Differ(differ)) => Err(CloseError::Differ(differ)),
        _ => Err(CloseError::NoMemory),
    }
}

/// How a machine ends whose threads have ended, by its cell alone.
fn close_cell<D: Teller, J: Station, O: Press, T: Shelf, R: Wait>(
    rt: &R,
    alloc: Global,
    cell: HostCell<D, J>,
    printer: &Printer<J, O, T>,
    seats: Result<Vec<Seat<J>>, AllocError>,
) -> Result<(), CloseError>
    requires setting { IsSetting J.setting }
    requires seats { IfOk seats (λ v. AreSeats J.setting v.items) }
    ensures goes { (t : Telling) → (a : AlongState) → OnOk seats (IsPrinting t a (entries printer.now.mine) printer.now) → EndsSo D.Daemon.stands J.setting a printer.now result }
    ensures counts { OnWhole result (IsOkAnd seats (λ v. AreOf J.setting printer.now.mine v.items)) }
    ensures right { OnOk result ((printer.now.wrong ≡ None) × IsOk seats) }
{
    match seats {
        Ok(seats) => close_whole(cell, seats, printer),
        Err(_) => Err(close_early(rt, alloc, cell, &printer.mine)),
    }
}

/// How a machine has ended, its spawner, and whether all its children were killed at some time.
#[derive(Drop)]
struct Closed<P: Spawner> {
    end: Result<(), CloseError>,
    spawner: P,
    killed: bool,
}

/// How a machine ends whose threads have ended.
fn close<D: Teller, J: Station, O: Press, T: Shelf, R: Wait, P: Spawner>(
    rt: &R,
    room: Room<D, J, P>,
    failed: bool,
    saw_killed: bool,
    printer: &Printer<J, O, T>,
    seats: Result<Vec<Seat<J>>, AllocError>,
) -> Closed<P>
    requires setting { IsSetting J.setting }
    requires seats { IfOk seats (λ v. AreSeats J.setting v.items) }
    ensures goes { (t : Telling) → (a : AlongState) → OnOk seats (IsPrinting t a (entries printer.now.mine) printer.now) → EndsSo D.Daemon.stands J.setting a printer.now result.end }
    ensures counts { OnWhole result.end (IsOkAnd seats (λ v. AreOf J.setting printer.now.mine v.items)) }
    ensures right { OnOk result.end ((printer.now.wrong ≡ None) × IsOk seats) }
    ensures signals { OnWhole result.end (HasSignalled (entries printer.now.mine) result.killed (P.acts result.spawner)) }
    ensures killed { OnWhole result.end (saw_killed ≡ true → result.killed ≡ true) }
{
    let Room {
        alloc,
        machine: _,
        geometry: _,
        pace: _,
        cell,
        front: _,
        children,
        locks: _,
    } = room;
    let ChildrenEnd {
        spawner,
        killed,
        whole,
    } = end_children(children.into_inner(), failed, saw_killed, &printer.mine);
    let end = close_cell(rt, alloc, cell, printer, seats);
    Closed {
        end: end_with(end, whole),
        spawner,
        killed,
    }
}

/// What is left of a machine that did not run.
fn not_run<O: Press, T: Shelf, A: Area, P: Spawner>(
    reader: Reader<T, GivenLine>,
    writer: Writer<O>,
    delta: Vec<Disk<A>>,
    resource: Vec<Disk<A>>,
    signals: P,
    starter: Starter<P>,
) -> Ran<O, T, A, P>
    ensures end { result.end ≡ Err NoMemoryClose }
    ensures reader { result.reader ≡ reader }
    ensures writer { result.writer ≡ writer }
{
    let Starter {
        spawner: starts,
        killed,
    } = starter;
    Ran {
        end: Err(CloseError::NoMemory),
        reader,
        writer,
        replies: 0,
        entries: 0,
        delta,
        resource,
        spawners: Spawners {
            signals,
            starts,
            killed,
        },
    }
}

/// Runs the threads of a machine, its printer beside the others, until all have ended.
fn run_room<
    D: Teller + Send,
    J: Station + Send + Sync,
    K: Sink + Send,
    O: Press + Send + Sync,
    T: Shelf + Send + Sync,
    R: Threads + Wait + time::Clock + Sync,
    C: Clock + Send,
    P: Spawner + Send,
    V: Device + Send,
    A: Area + Send,
    G: Gate + Sync,
>(
    rt: &R,
    room: Room<D, J, P>,
    stand: &Stand<'_>,
    gate: &G,
    desk: &Desk<'_, K, O, T>,
    clocks: Clocks<C>,
    starter: Starter<P>,
    device: V,
    printer: Printer<J, O, T>,
    delta: Vec<Disk<A>>,
    resource: Vec<Disk<A>>,
) -> Ran<O, T, A, P>
    requires setting { IsSetting J.setting }
    requires starter { Tells (P.acts starter.spawner) [] }
    ensures goes { (t : Telling) → (a : AlongState) → IsPrinting t a (entries printer.mine) printer
        → HasRun A.content A.faults P.acts room.geometry.sector D.Daemon.stands J.setting t a delta.items resource.items result }
    ensures by { result.reader.by ≡ printer.reader.by }
{
    let (threaded, mut printed) = run_beside(
        rt, &room, stand, gate, desk, clocks, starter, device, printer, delta, resource,
    );
    let Threaded {
        seats,
        delta,
        resource,
        starter,
    } = threaded;
    let Starter {
        spawner: starts,
        killed: saw_killed,
    } = starter;
    let seats = print_last(rt, &room, stand.post, desk, &mut printed, seats);
    let failed = stand.post.has_failed(rt);
    let Printed { printer, end: _ } = printed;
    let Closed {
        end,
        spawner: signals,
        killed,
    } = close(rt, room, failed, saw_killed, &printer, seats);
    let (replies, entries) = (printer.audit.replies(), printer.mine.len());
    let (reader, writer) = printer.into_parts();
    Ran {
        end,
        reader,
        writer,
        replies,
        entries,
        delta,
        resource,
        spawners: Spawners {
            signals,
            starts,
            killed,
        },
    }
}

/// A machine's cell with the front of one who has seen nothing, and what goes along its history. An `Err` is want of memory.
#[tactic(auto, using(sl_cell::proofs::LeadLaws::given_below))]
fn begin_cell<D: Teller, J: Station>(
    alloc: Global,
    header: &Header,
    site: Site,
    opened: Opened,
    events: bool,
) -> Result<(HostCell<D, J>, Front<J>, Audit), AllocError>
    requires header { IsHeader header.now }
    requires setting { IsSetting J.setting }
    requires site { J.setting ≡ begun_with D.Daemon.commands header.now site }
    requires book { opened.seen.book ≡ J.book }
    ensures front { IfOk result (λ b. b.1 ≡ []) }
    ensures audit { IfOk result (λ b. IsAudit (first_telling events header.now.timing site.given) (begun_along header.now site.first.job) [] b.2) }
{
    let audit = Audit::new(alloc, header, site.first.job, site.given.as_slice(), events)?;
    let (cell, front) = HostCell::<D, J>::new(alloc, header, site, opened)?;
    Ok((cell, front, audit))
}

/// Runs a machine until its script's end: eight threads over one cell, which are all joined before the cell is closed.
///
/// An `Ok` end is a history of the daemon of this setting, which stood for it: its entries are exactly what the machine's threads gave, each once; its
/// lines are those that the reader has met, each for lvmlockd with its asks and answered; no call and no start is unanswered; and the pieces of the
/// writer are what is told of it, with its events where the desk tells them. The disks of a worker that come back are made of those that it was given, by
/// just the calls of its part of the history, one after another, with the answers that stand there. The spawners that come back were asked, where they
/// tell what they were asked for, for just the signals and the starts of the history, in its order; beside the kills that `Spawners` counts: of all children,
/// where its watchdog device has fired or the run has failed, and of a child that came when a signal had been sent to its process. Else a case that holds
/// of it, or want of memory: there, and where threads can't be made, all machines end.
pub fn run_machine<
    D: Teller + Send,
    J: Station + Send + Sync,
    K: Sink + Send,
    O: Press + Send + Sync,
    T: Shelf + Send + Sync,
    R: Threads + Wait + time::Clock + Sync,
    C: Clock + Send,
    P: Spawner + Send,
    V: Device + Send,
    A: Area + Send,
    G: Gate + Sync,
>(
    rt: &R,
    alloc: Global,
    header: &Header,
    site: Site,
    opened: Opened,
    parts: Parts<C, P, V, A>,
    gate: &G,
    stand: &Stand<'_>,
    desk: &Desk<'_, K, O, T>,
    reader: Reader<T, GivenLine>,
    writer: Writer<O>,
) -> Ran<O, T, A, P>
    requires header { IsHeader header.now }
    requires setting { IsSetting J.setting }
    requires site { J.setting ≡ begun_with D.Daemon.commands header.now site }
    requires book { opened.seen.book ≡ J.book }
    requires reader { lines_read reader ≡ [] }
    requires writer { (writer.by ≡ reader.by) × (writer.count ≡ 0) }
    requires spawner { Tells (P.acts parts.spawner) [] }
    ensures goes { HasRun A.content A.faults P.acts header.now.geometry.sector D.Daemon.stands J.setting
        (first_telling desk.now.events header.now.timing site.given) (begun_along header.now site.first.job) parts.delta.items parts.resource.items result }
    ensures by { result.reader.by ≡ reader.by }
{
    let Parts {
        clocks,
        spawner,
        device,
        delta,
        resource,
    } = parts;
    let machine = site.machine;
    let mut spawner = spawner;
    let starter = Starter::new(spawner.starter());
    let (cell, front, audit) = match begin_cell::<D, J>(alloc, header, site, opened, desk.events) {
        Ok(begun) => begun,
        Err(_) => {
            stand.give_up(rt);
            return not_run(reader, writer, delta, resource, spawner, starter);
        }
    };
    let printer = Printer::new(alloc, front.again(), audit, reader, writer);
    let carried = Carried::new(alloc, spawner, front.again());
    let room = Room {
        alloc,
        machine,
        geometry: header.geometry,
        pace: pace_of(header),
        cell,
        front,
        children: Mutex::new(carried),
        locks: Mutex::new(LvmLocks::fresh(alloc, header)),
    };
    run_room(
        rt, room, stand, gate, desk, clocks, starter, device, printer, delta, resource,
    )
}
