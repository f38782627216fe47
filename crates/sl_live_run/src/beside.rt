//! The threads of a run beside each other: those of its machines, and the script's.

ghost use Rattle.sl_live_run.specs.Runs.{AreGiven, CanRun, HasPutOut, HasTold, Runs};
ghost use Rattle.sl_live_run.specs.declared.machine_runs.Machine.{Machine as MachineOf};
ghost use Rattle.std.specs.Fork.{AcceptsEach, ChangesEach};
ghost use Rattle.std.specs.Prelude.{All, [], length, slice_index_or, ◌<◌, ◌≡◌, ℕ};

use crate::machine_runs::{Machine, Shared};
use crate::script::{Ways, tell};
use sl_area::Area;
use sl_book::{Book, Ledger, Shelf};
use sl_cell::Teller;
use sl_io::Sink;
use sl_live_lines::GivenLine;
use sl_live_machine::Roll;
use sl_output::{Press, Seat as Writer};
use sl_outside::{Device, Gate, Spawner};
use sl_reader::{LiveLines, NoLine};
use sl_time::Clock;
use std::alloc::{AllocError, Global};
use std::sync::Wait;
use std::thread::{Threads, for_each_mut, join_mut};
use std::time;

/// Does the rest of a run beside the script, which begins once all threads of the run are there: how the script ended.
pub fn beside_script<
    F: FnMut() + Send,
    L: LiveLines + Send,
    K: Sink + Send,
    O: Press + Send + Sync,
    T: Shelf + Send + Sync,
    R: Threads + Wait + time::Clock + Eprint + Sync,
>(
    rt: &R,
    alloc: Global,
    roll: &Roll,
    ways: &Ways<'_, K, O, T>,
    lines: &mut L,
    ledger: &mut Ledger<T, GivenLine>,
    writer: &mut Writer<O>,
    rest: &mut F,
) -> Result<Option<NoLine>, AllocError>
    requires { F.pre rest.old }
    ensures rest { F.step rest.old tt rest.new }
    ensures told { (count : ℕ) → AreGiven ledger.old count [] → HasPutOut writer.old []
        → HasTold count (L.has_given lines.old) (L.has_given lines.new) ledger.new writer.new result }
{
    let ((), told) = join_mut(
        rt,
        rest,
        &mut ||
            ensures { (count : ℕ) → AreGiven ledger.entry.now count [] → HasPutOut writer.entry.now []
                → HasTold count (L.has_given lines.entry.now) (L.has_given lines.exit.now) ledger.exit.now writer.exit.now result }
        { tell(rt, alloc, roll, ways, lines, ledger, writer) },
    );
    told
}

/// Does this to each of these, beside each other.
fn run_each<M: Send, R: Threads + Sync, F: Fn(usize, &mut M) + Sync>(
    rt: &R,
    run: &F,
    machines: &mut [M],
)
    requires { AcceptsEach F.Fn run.now machines.old }
    ensures len { length machines.new ≡ length machines.old }
    ensures each { ChangesEach F.Fn run.now machines.old machines.new }
{
    if machines.is_empty() {
        return;
    }
    let count = machines.len();
    for_each_mut(rt, machines, count, run);
}

/// Does this to each of these, beside each other, and gives the script beside them, until all threads have ended: how the script ended.
fn run_beside<
    L: LiveLines + Send,
    M: Send,
    K: Sink + Send,
    O: Press + Send + Sync,
    T: Shelf + Send + Sync,
    R: Threads + Wait + time::Clock + Eprint + Sync,
    F: Fn(usize, &mut M) + Sync,
>(
    rt: &R,
    alloc: Global,
    roll: &Roll,
    ways: &Ways<'_, K, O, T>,
    lines: &mut L,
    ledger: &mut Ledger<T, GivenLine>,
    writer: &mut Writer<O>,
    run: &F,
    machines: &mut [M],
) -> Result<Option<NoLine>, AllocError>
    requires { AcceptsEach F.Fn run.now machines.old }
    ensures len { length machines.new ≡ length machines.old }
    ensures each { ChangesEach F.Fn run.now machines.old machines.new }
    ensures told { (count : ℕ) → AreGiven ledger.old count [] → HasPutOut writer.old []
        → HasTold count (L.has_given lines.old) (L.has_given lines.new) ledger.new writer.new result }
{
    beside_script(
        rt,
        alloc,
        roll,
        ways,
        lines,
        ledger,
        writer,
        &mut ||
            requires { AcceptsEach F.Fn run.now machines.now }
            ensures { (length machines.exit.now ≡ length machines.entry.now)
                × ChangesEach F.Fn run.entry.now machines.entry.now machines.exit.now }
        { run_each(rt, run, machines) },
    )
}

/// Runs machines beside each other and the script beside them, until all threads have ended: how the script ended.
fn run_all<
    D: Teller + Send,
    L: LiveLines + Send,
    K: Sink + Send,
    O: Press + Send + Sync,
    T: Shelf + Send + Sync,
    R: Threads + Wait + time::Clock + Eprint + Sync,
    C: Clock + Send,
    P: Spawner + Send,
    V: Device + Send,
    A: Area + Send,
    G: Gate + Sync,
>(
    rt: &R,
    alloc: Global,
    gate: &G,
    shared: &Shared<'_, K, O, T>,
    book: &Book<T, GivenLine>,
    lines: &mut L,
    ledger: &mut Ledger<T, GivenLine>,
    writer: &mut Writer<O>,
    machines: &mut [Machine<C, P, V, A, O, T>],
) -> Result<Option<NoLine>, AllocError>
    requires { All (CanRun P.acts D.Daemon.commands shared.now.header.now) machines.old }
    ensures len { length machines.new ≡ length machines.old }
    ensures each { (k : ℕ) → (d : MachineOf C P V A O T) → k < length machines.old
        → Runs A.content A.faults P.acts shared.now.events D.Daemon.commands D.Daemon.stands shared.now.header.now (slice_index_or machines.old k d) (slice_index_or machines.new k d) }
    ensures told { (count : ℕ) → AreGiven ledger.old count [] → HasPutOut writer.old []
        → HasTold count (L.has_given lines.old) (L.has_given lines.new) ledger.new writer.new result }
{
    let ways = Ways {
        posts: shared.posts,
        mails: shared.mails,
        book,
        output: shared.output,
    };
    run_beside(
        rt,
        alloc,
        shared.roll,
        &ways,
        lines,
        ledger,
        writer,
        &|place: usize, machine: &mut Machine<C, P, V, A, O, T>|
            requires { CanRun P.acts D.Daemon.commands shared.now.header.now machine.now }
            ensures { Runs A.content A.faults P.acts shared.entry.now.events D.Daemon.commands D.Daemon.stands shared.entry.now.header.now machine.entry.now machine.exit.now }
        { machine.run::<D, K, R, G>(rt, alloc, gate, shared, place) },
        machines,
    )
}

/// .. those of a list.
pub(crate) fn run_list<
    D: Teller + Send,
    L: LiveLines + Send,
    K: Sink + Send,
    O: Press + Send + Sync,
    T: Shelf + Send + Sync,
    R: Threads + Wait + time::Clock + Eprint + Sync,
    C: Clock + Send,
    P: Spawner + Send,
    V: Device + Send,
    A: Area + Send,
    G: Gate + Sync,
>(
    rt: &R,
    alloc: Global,
    gate: &G,
    shared: &Shared<'_, K, O, T>,
    book: &Book<T, GivenLine>,
    lines: &mut L,
    ledger: &mut Ledger<T, GivenLine>,
    writer: &mut Writer<O>,
    machines: &mut Vec<Machine<C, P, V, A, O, T>>,
) -> Result<Option<NoLine>, AllocError>
    requires { All (CanRun P.acts D.Daemon.commands shared.now.header.now) machines.old.items }
    ensures len { length machines.new.items ≡ length machines.old.items }
    ensures each { (k : ℕ) → (d : MachineOf C P V A O T) → k < length machines.old.items
        → Runs A.content A.faults P.acts shared.now.events D.Daemon.commands D.Daemon.stands shared.now.header.now (slice_index_or machines.old.items k d) (slice_index_or machines.new.items k d) }
    ensures told { (count : ℕ) → AreGiven ledger.old count [] → HasPutOut writer.old []
        → HasTold count (L.has_given lines.old) (L.has_given lines.new) ledger.new writer.new result }
{
    run_all::<D, L, K, O, T, R, C, P, V, A, G>(
        rt,
        alloc,
        gate,
        shared,
        book,
        lines,
        ledger,
        writer,
        machines.as_mut_slice(),
    )
}
