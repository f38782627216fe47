//! What is left of a run once all its threads have ended.

ghost use Rattle.sl_live_run.specs.Settling.{AreAllWhole, AreRansOf, AreSettled, AreWhole, HasLeft, StopsOne, StopsSome, remains_after};
ghost use Rattle.sl_live_run.specs.Runs.{remains_of};
ghost use Rattle.sl_live_run.specs.declared.compare.LiveStop.TheVariants.{NoMemory as NoMemoryStop};
ghost use Rattle.std.specs.Prelude.{IfErr, IfOk, [], false, map, ◌++◌, ◌∷◌, ◌≡◌, ◌⊎◌};

use crate::compare::{LiveStop, are_pieces, settle_all, stop_early};
use crate::machine_runs::Machine;
use crate::run::{LiveRun, Remains};
use sl_area::Area;
use sl_book::{Ledger, Shelf};
use sl_io::Sink;
use sl_live_lines::GivenLine;
use sl_live_machine::Ran;
use sl_output::{Front as Pieces, Output, Press, Put, Seat as Writer};
use sl_outside::{Device, Spawner};
use sl_reader::NoLine;
use sl_time::Clock;
use std::alloc::{AllocError, Global};

/// Takes machines that have run apart. An `Err` is want of memory.
fn take_apart<C: Clock, P: Spawner, V: Device, A: Area, O: Press, T: Shelf>(
    alloc: Global,
    machines: Vec<Machine<C, P, V, A, O, T>>,
) -> Result<Vec<Ran<O, T, A, P>>, AllocError>
    ensures { IfOk result (λ rans. AreRansOf machines.items rans.items) }
{
    let mut rans = Vec::new(alloc);
    for machine in machines {
        let Machine { work: _, ran } = machine;
        let Some(ran) = ran else {
            return Err(AllocError);
        };
        rans.push(ran)?;
    }
    Ok(rans)
}

/// Who put out the pieces of all machines, and what they leave.
#[derive(Drop)]
struct Ends<O: Press, A: Area, P: Spawner> {
    writers: Vec<Writer<O>>,
    remains: Vec<Remains<A, P>>,
}

/// Takes what machines have left apart. An `Err` is want of memory.
fn take_ends<O: Press, T: Shelf, A: Area, P: Spawner>(
    alloc: Global,
    rans: Vec<Ran<O, T, A, P>>,
) -> Result<Ends<O, A, P>, AllocError>
    ensures writers { IfOk result (λ e. e.writers.items ≡ map (λ r. r.writer) rans.items) }
    ensures remains { IfOk result (λ e. map remains_of e.remains.items ≡ map remains_after rans.items) }
{
    let mut writers = Vec::new(alloc);
    let mut remains = Vec::new(alloc);
    for ran in rans {
        let Ran {
            end: _,
            reader: _,
            writer,
            replies: _,
            entries: _,
            delta,
            resource,
            spawners,
        } = ran;
        writers.push(writer)?;
        remains.push(Remains {
            delta,
            resource,
            spawners,
        })?;
    }
    Ok(Ends { writers, remains })
}

/// .. with who put out the script's pieces behind those who put out theirs.
fn take_all_ends<O: Press, T: Shelf, A: Area, P: Spawner>(
    alloc: Global,
    rans: Vec<Ran<O, T, A, P>>,
    last: Writer<O>,
) -> Result<Ends<O, A, P>, AllocError>
    ensures writers { IfOk result (λ e. e.writers.items ≡ map (λ r. r.writer) rans.items ++ last ∷ []) }
    ensures remains { IfOk result (λ e. map remains_of e.remains.items ≡ map remains_after rans.items) }
{
    let Ends {
        mut writers,
        remains,
    } = take_ends(alloc, rans)?;
    writers.push(last)?;
    Ok(Ends { writers, remains })
}

/// How many replies machines were given that have run, or why they have no histories: where threads ended too soon, a case goes before want of memory,
/// by which all machines end.
fn settle<O: Press, T: Shelf, A: Area, P: Spawner>(
    early: bool,
    ledger: &Ledger<T, GivenLine>,
    rans: &[Ran<O, T, A, P>],
) -> Result<u64, LiveStop>
    ensures ok { IfOk result (λ n. (early ≡ false) × AreSettled ledger.now rans.now n) }
    ensures err { IfErr result (StopsSome early ledger.now rans.now) }
{
    if early {
        Err(stop_early(ledger, rans))
    } else {
        settle_all(ledger, rans)
    }
}

/// What machines came to whose threads have all ended: with the script's lines, and with the pieces that were put out, its own among them.
fn finish<O: Press, T: Shelf, A: Area, P: Spawner>(
    alloc: Global,
    early: bool,
    ledger: &Ledger<T, GivenLine>,
    writer: Writer<O>,
    pieces: &Pieces<O>,
    rans: Vec<Ran<O, T, A, P>>,
) -> (Result<u64, LiveStop>, Vec<Remains<A, P>>)
    ensures ok { IfOk result.0 (AreWhole early ledger.now writer rans.items pieces.now result.1.items) }
    ensures err { IfErr result.0 (StopsSome early ledger.now rans.items) }
{
    let settled = settle(early, ledger, &rans);
    match take_all_ends(alloc, rans, writer) {
        Ok(Ends { writers, remains }) => {
            if settled.is_ok() && !are_pieces(&writers, pieces) {
                (Err(LiveStop::NoMemory), remains)
            } else {
                (settled, remains)
            }
        }
        Err(_) => (Err(LiveStop::NoMemory), Vec::new(alloc)),
    }
}

/// What machines came to whose threads have all ended.
fn end_all<C: Clock, P: Spawner, V: Device, A: Area, O: Press, T: Shelf>(
    alloc: Global,
    early: bool,
    ledger: &Ledger<T, GivenLine>,
    writer: Writer<O>,
    pieces: &Pieces<O>,
    machines: Vec<Machine<C, P, V, A, O, T>>,
) -> (Result<u64, LiveStop>, Vec<Remains<A, P>>)
    ensures ok { IfOk result.0 (AreAllWhole early ledger.now writer machines.items pieces.now result.1.items) }
    ensures err { IfErr result.0 (λ s. (s ≡ NoMemoryStop) ⊎ StopsOne early ledger.now machines.items s) }
{
    match take_apart(alloc, machines) {
        Ok(rans) => finish(alloc, early, ledger, writer, pieces, rans),
        Err(_) => (Err(LiveStop::NoMemory), Vec::new(alloc)),
    }
}

/// What is left of a run whose threads have all ended: too soon, or not; and whose script ended so.
pub(crate) fn leave<K: Sink, C: Clock, P: Spawner, V: Device, A: Area, O: Press, T: Shelf>(
    alloc: Global,
    early: bool,
    ended: Option<NoLine>,
    ledger: &Ledger<T, GivenLine>,
    writer: Writer<O>,
    output: Output<K, O>,
    machines: Vec<Machine<C, P, V, A, O, T>>,
) -> LiveRun<K, A, P>
    ensures { HasLeft early ledger.now writer machines.items O.taken (K.taken result.sink) O.faults (K.faults result.sink) result }
{
    let count = machines.len();
    let Put { sink, front, cut } = output.into_parts();
    let (replies, remains) = end_all(alloc, early, ledger, writer, &front, machines);
    LiveRun {
        replies,
        machines: count,
        sink,
        cut,
        remains,
        ended,
    }
}
