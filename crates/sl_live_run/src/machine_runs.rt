//! A machine among those of a run: what it is to run on, and then what is left of its run.

ghost use Rattle.sl_live_lines.specs.EventTexts.{first_telling};
ghost use Rattle.sl_live_lines.specs.LocksAlong.{begun_along};
ghost use Rattle.sl_live_machine.specs.MachineEnds.{HasRun};
ghost use Rattle.sl_live_machine.specs.Printing.{lines_read};
ghost use Rattle.sl_live_machine.specs.declared.machine.CloseError.TheVariants.{NoMemory as NoMemoryClose};
ghost use Rattle.sl_world_state.specs.Daemons.{begun_with};
ghost use Rattle.sl_live_run.specs.Runs.{CanRun, IsFresh, Runs};
ghost use Rattle.sl_outside.specs.Acts.{Tells};
ghost use Rattle.sl_run.specs.Headers.{IsHeader};
ghost use Rattle.sl_run.specs.Lawful.{IsSetting};
ghost use Rattle.std.specs.Prelude.{Err, None, Some, [], ◌+◌, ◌≡◌};

use sl_area::Area;
use sl_book::{Reader, Shelf};
use sl_cell::{Opened, Station, Teller};
use sl_io::Sink;
use sl_live_lines::GivenLine;
use sl_live_machine::{
    CloseError, Desk, Mail, Parts, Post, Ran, Roll, Spawners, Stand, fail_all, run_machine,
};
use sl_output::{Output, Press, Seat as Writer};
use sl_outside::{Device, Gate, Spawner};
use sl_run::Header;
use sl_time::Clock;
use sl_world_state::Site;
use std::alloc::Global;
use std::marker::Brand;
use std::sync::Wait;
use std::thread::Threads;
use std::time;

/// What a machine is to run on, with its site; who reads the lines that the script gives it, and who puts out what it tells.
#[derive(Drop)]
pub struct Work<C: Clock, P: Spawner, V: Device, A: Area, O: Press, T: Shelf> {
    pub site: Site,
    pub parts: Parts<C, P, V, A>,
    pub reader: Reader<T, GivenLine>,
    pub writer: Writer<O>,
}

/// A machine: what it is to run on, until it runs; and what is left of its run, once it has run.
#[derive(Drop)]
pub struct Machine<C: Clock, P: Spawner, V: Device, A: Area, O: Press, T: Shelf> {
    pub work: Option<Work<C, P, V, A, O, T>>,
    pub ran: Option<Ran<O, T, A, P>>,
}

/// What all machines of a run share: its header, the roll of all threads, a post and a mail for each machine, the output, and whether beside replies
/// events are told.
#[derive(Clone, Copy)]
pub struct Shared<'a, K: Sink, O: Press, T: Shelf> {
    pub header: &'a Header,
    pub roll: &'a Roll,
    pub posts: &'a [Post],
    pub mails: &'a [Mail<T>],
    pub output: &'a Output<K, O>,
    pub events: bool,
}

/// What is left of a machine that did not run.
fn not_run<C: Clock, P: Spawner, V: Device, A: Area, O: Press, T: Shelf>(
    work: Work<C, P, V, A, O, T>,
) -> Ran<O, T, A, P>
    ensures end { result.end ≡ Err NoMemoryClose }
    ensures reader { result.reader ≡ work.reader }
    ensures writer { result.writer ≡ work.writer }
{
    let Work {
        site: _,
        parts,
        reader,
        writer,
    } = work;
    let Parts {
        clocks: _,
        spawner,
        device: _,
        delta,
        resource,
    } = parts;
    let mut spawner = spawner;
    let starts = spawner.starter();
    Ran {
        end: Err(CloseError::NoMemory),
        reader,
        writer,
        replies: 0,
        entries: 0,
        delta,
        resource,
        spawners: Spawners {
            signals: spawner,
            starts,
            killed: false,
        },
    }
}

/// Runs a machine, as one of this setting and this book. Where it has no post or no mail, all machines end.
fn run_as<
    D: Teller + Send,
    J: Station + Send + Sync,
    K: Sink + Send,
    O: Press + Send + Sync,
    T: Shelf + Send + Sync,
    R: Threads + Wait + time::Clock + Sync,
    C: Clock + Send,
    P: Spawner + Send,
    V: Device + Send,
    A: Area + Send,
    G: Gate + Sync,
>(
    rt: &R,
    alloc: Global,
    gate: &G,
    shared: &Shared<'_, K, O, T>,
    place: usize,
    opened: Opened,
    work: Work<C, P, V, A, O, T>,
) -> Ran<O, T, A, P>
    requires header { IsHeader shared.now.header.now }
    requires setting { IsSetting J.setting }
    requires site { J.setting ≡ begun_with D.Daemon.commands shared.now.header.now work.site }
    requires book { opened.seen.book ≡ J.book }
    requires fresh { IsFresh work }
    requires unasked { Tells (P.acts work.parts.spawner) [] }
    ensures goes { HasRun A.content A.faults P.acts shared.now.header.now.geometry.sector D.Daemon.stands J.setting
        (first_telling shared.now.events shared.now.header.now.timing work.site.given) (begun_along shared.now.header.now work.site.first.job)
        work.parts.delta.items work.parts.resource.items result }
    ensures by { result.reader.by ≡ work.reader.by }
{
    let (Some(post), Some(mail)) = (shared.posts.get(place), shared.mails.get(place)) else {
        shared.roll.give_up(rt);
        fail_all(rt, shared.posts);
        return not_run(work);
    };
    let stand = Stand {
        roll: shared.roll,
        posts: shared.posts,
        post,
    };
    let desk = Desk {
        mail,
        output: shared.output,
        events: shared.events,
    };
    let Work {
        site,
        parts,
        reader,
        writer,
    } = work;
    run_machine::<D, J, K, O, T, R, C, P, V, A, G>(
        rt,
        alloc,
        shared.header,
        site,
        opened,
        parts,
        gate,
        &stand,
        &desk,
        reader,
        writer,
    )
}

/// Runs a machine, as one of the setting that its site and the header make, and of a new book.
fn run_work<
    D: Teller + Send,
    K: Sink + Send,
    O: Press + Send + Sync,
    T: Shelf + Send + Sync,
    R: Threads + Wait + time::Clock + Sync,
    C: Clock + Send,
    P: Spawner + Send,
    V: Device + Send,
    A: Area + Send,
    G: Gate + Sync,
>(
    rt: &R,
    alloc: Global,
    gate: &G,
    shared: &Shared<'_, K, O, T>,
    place: usize,
    work: Work<C, P, V, A, O, T>,
) -> Ran<O, T, A, P>
    requires header { IsHeader shared.now.header.now }
    requires setting { IsSetting (begun_with D.Daemon.commands shared.now.header.now work.site) }
    requires fresh { IsFresh work }
    requires unasked { Tells (P.acts work.parts.spawner) [] }
    ensures goes { HasRun A.content A.faults P.acts shared.now.header.now.geometry.sector D.Daemon.stands (begun_with D.Daemon.commands shared.now.header.now work.site)
        (first_telling shared.now.events shared.now.header.now.timing work.site.given) (begun_along shared.now.header.now work.site.first.job)
        work.parts.delta.items work.parts.resource.items result }
    ensures by { result.reader.by ≡ work.reader.by }
{
    run_as::<D, Brand, K, O, T, R, C, P, V, A, G>(
        rt,
        alloc,
        gate,
        shared,
        place,
        Opened::new(),
        work,
    )
}

impl<C: Clock, P: Spawner, V: Device, A: Area, O: Press, T: Shelf> Machine<C, P, V, A, O, T> {
    /// A machine that is to run.
    pub fn new(work: Work<C, P, V, A, O, T>) -> Machine<C, P, V, A, O, T>
        ensures { result.work ≡ Some work }
    {
        Machine {
            work: Some(work),
            ran: None,
        }
    }
}

impl<
    C: Clock + Send,
    P: Spawner + Send,
    V: Device + Send,
    A: Area + Send,
    O: Press + Send + Sync,
    T: Shelf + Send + Sync,
> Machine<C, P, V, A, O, T> {
    /// Runs the machine, if it has not run.
    pub fn run<
        D: Teller + Send,
        K: Sink + Send,
        R: Threads + Wait + time::Clock + Sync,
        G: Gate + Sync,
    >(&mut self, rt: &R, alloc: Global, gate: &G, shared: &Shared<'_, K, O, T>, place: usize)
        requires { CanRun P.acts D.Daemon.commands shared.now.header.now self.old }
        ensures { Runs A.content A.faults P.acts shared.now.events D.Daemon.commands D.Daemon.stands shared.now.header.now self.old self.new }
    {
        if let Some(work) = self.work.take() {
            self.ran = Some(run_work::<D, K, O, T, R, C, P, V, A, G>(
                rt, alloc, gate, shared, place, work,
            ));
        }
    }
}
