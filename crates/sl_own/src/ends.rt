//! What is left of a machine in a process of its own, once all its threads have ended.

ghost use Rattle.sl_book.specs.Closings.{AreBelow, AreExact};
ghost use Rattle.sl_live_run.specs.Runs.{remains_of};
ghost use Rattle.sl_live_run.specs.Settling as settling;
ghost use Rattle.sl_live_run.specs.Settling.{remains_after};
ghost use Rattle.sl_live_run.specs.declared.compare.LiveStop.TheVariants.{NoMemory as NoMemoryStop};
ghost use Rattle.sl_live_machine.specs.declared.machine.Ran.{Ran as RanOf};
ghost use Rattle.sl_output.specs.Pieces.{SeatState};
ghost use Rattle.sl_own.specs.OwnSettling.{ArePieces, HasLeftOwn, IsSettled, Stops, without_pieces};
ghost use Rattle.std.specs.Prelude.{All, IfErr, IfOk, IfSome, List, Some, [], length, map, true, ◌++◌, ◌+◌, ◌<◌, ◌^◌, ◌∷◌, ◌≡◌, ◌⊎◌};

use sl_area::Area;
use sl_book::{Ledger, Reading, Shelf};
use sl_io::Sink;
use sl_live_lines::GivenLine;
use sl_live_machine::{CloseError, Ran};
use sl_live_run::{
    LiveRun, LiveStop, Machine, Remains, Settled, are_pieces, settle_early, settle_one,
};
use sl_output::{Front as Pieces, Output, Press, Put, Seat as Writer};
use sl_outside::{Device, Spawner};
use sl_reader::NoLine;
use sl_time::Clock;
use std::alloc::{AllocError, Global};

/// What a machine came to whose printer has read so far, and ended so, with the next entry of this number.
fn come_to(early: bool, reading: Reading, end: Result<(), CloseError>, next: u64) -> Settled
    ensures { result ≡ settling.come_to early reading end next }
{
    if early {
        settle_early(reading, end)
    } else {
        settle_one(reading, end, next)
    }
}

/// The number behind so many entries, if it has not too many bits.
fn number_behind(entries: u64) -> Option<u64>
    ensures { IfSome result (λ number. number ≡ entries + 1) }
{
    entries.checked_add(1)
}

/// How many replies the machine of this number was given, or why it has no history: where threads ended too soon, a case goes before want of memory.
fn settle<O: Press, T: Shelf, A: Area, P: Spawner>(
    early: bool,
    machine: u32,
    ledger: &Ledger<T, GivenLine>,
    ran: &Ran<O, T, A, P>,
) -> Result<u64, LiveStop>
    ensures ok { IfOk result (IsSettled early ledger.now ran.now) }
    ensures stop { IfErr result (Stops early machine ledger.now ran.now) }
{
    let Some(next) = number_behind(ran.entries) else {
        return Err(LiveStop::NoMemory);
    };
    match come_to(early, ledger.reading(&ran.reader), ran.end, next) {
        Settled::Whole => Ok(ran.replies),
        Settled::Case(differ) => Err(LiveStop::Differ {
            machine: machine as usize,
            differ,
        }),
        Settled::Lost => Err(LiveStop::NoMemory),
    }
}

/// Who put out nothing: one at each place before this one. An `Err` is want of memory.
fn silent<O: Press>(
    alloc: Global,
    place: u32,
    pieces: &Pieces<O>,
) -> Result<Vec<Writer<O>>, AllocError>
    ensures { IfOk result (λ ws. (length ws.items ≡ place) × All (λ s. s.count ≡ 0) ws.items) }
{
    let mut writers = Vec::new(alloc);
    for by in 0..place {
        writers.reserve(1)?;
        writers.push_reserved(Writer::new(by, pieces.again()));
    }
    Ok(writers)
}

/// Who put out pieces: nobody at the places before the machine's, the machine's printer, and behind it the script's thread. An `Err` is want of memory.
fn writers_of<O: Press>(
    alloc: Global,
    place: u32,
    pieces: &Pieces<O>,
    own: Writer<O>,
    script: Writer<O>,
) -> Result<Vec<Writer<O>>, AllocError>
    ensures { IfOk result (λ ws. (before : List SeatState) × (length before ≡ place) × All (λ s. s.count ≡ 0) before
        × (ws.items ≡ before ++ own ∷ script ∷ [])) }
{
    let mut writers = silent(alloc, place, pieces)?;
    writers.reserve(2)?;
    writers.push_reserved(own);
    writers.push_reserved(script);
    Ok(writers)
}

/// Who put out pieces, and what the machine leaves.
fn take_apart<O: Press, T: Shelf, A: Area, P: Spawner>(
    ran: Ran<O, T, A, P>,
) -> (Writer<O>, Remains<A, P>)
    ensures writer { result.0 ≡ ran.writer }
    ensures remains { remains_of result.1 ≡ remains_after ran }
{
    let Ran {
        end: _,
        reader: _,
        writer,
        replies: _,
        entries: _,
        delta,
        resource,
        spawners,
    } = ran;
    (
        writer,
        Remains {
            delta,
            resource,
            spawners,
        },
    )
}

/// Whether the pieces that were put out are just those that these put.
fn have_put<O: Press>(writers: &Vec<Writer<O>>, pieces: &Pieces<O>) -> bool
    ensures exact { result ≡ true → AreExact 0 writers.now.items pieces.now }
    ensures below { result ≡ true → AreBelow (length writers.now.items) pieces.now }
{
    are_pieces(writers, pieces)
}

/// Whether the pieces that were put out are just those that the machine's printer put, and the script's thread.
fn are_own_pieces<O: Press>(
    alloc: Global,
    place: u32,
    own: Writer<O>,
    script: Writer<O>,
    pieces: &Pieces<O>,
    unwritten: &Pieces<O>,
) -> bool
    ensures { result ≡ true → (before : List SeatState) × (length before ≡ place) × All (λ s. s.count ≡ 0) before
        × AreExact 0 (before ++ own ∷ script ∷ []) pieces.now × AreBelow (place + 2) pieces.now }
{
    match writers_of(alloc, place, unwritten, own, script) {
        Ok(writers) => have_put(&writers, pieces),
        Err(_) => false,
    }
}

/// What the machine came to whose threads have all ended: with the script's lines, and with the pieces that were put out.
fn finish<O: Press, T: Shelf, A: Area, P: Spawner>(
    alloc: Global,
    early: bool,
    place: u32,
    ledger: &Ledger<T, GivenLine>,
    script: Writer<O>,
    pieces: &Pieces<O>,
    unwritten: &Pieces<O>,
    ran: Ran<O, T, A, P>,
) -> (Result<u64, LiveStop>, Remains<A, P>)
    requires { place + 1 < 2 ^ 32 }
    ensures ok { IfOk result.0 (λ n. IsSettled early ledger.now ran n × ArePieces script place ran pieces.now) }
    ensures stop { IfErr result.0 (Stops early (place + 1) ledger.now ran) }
    ensures remains { remains_of result.1 ≡ remains_after ran }
{
    let settled = settle(early, place + 1, ledger, &ran);
    let (writer, remains) = take_apart(ran);
    if are_own_pieces(alloc, place, writer, script, pieces, unwritten) {
        (settled, remains)
    } else {
        (unpieced(settled), remains)
    }
}

/// What a machine came to of which not all pieces are known: want of memory, in place of a whole history.
fn unpieced(settled: Result<u64, LiveStop>) -> Result<u64, LiveStop>
    ensures { result ≡ without_pieces settled }
{
    match settled {
        Ok(_) => Err(LiveStop::NoMemory),
        Err(stop) => Err(stop),
    }
}

/// .. if it has run. An `Err` of a machine that has not is want of memory.
fn end<C: Clock, P: Spawner, V: Device, A: Area, O: Press, T: Shelf>(
    alloc: Global,
    early: bool,
    place: u32,
    ledger: &Ledger<T, GivenLine>,
    script: Writer<O>,
    pieces: &Pieces<O>,
    unwritten: &Pieces<O>,
    machine: Machine<C, P, V, A, O, T>,
) -> (Result<u64, LiveStop>, Vec<Remains<A, P>>)
    requires { place + 1 < 2 ^ 32 }
    ensures ok { IfOk result.0 (λ n. (ran : RanOf O T A P) × (machine.ran ≡ Some ran) × IsSettled early ledger.now ran n × ArePieces script place ran pieces.now
        × (map remains_of result.1.items ≡ remains_after ran ∷ [])) }
    ensures stop { IfErr result.0 (λ s. (s ≡ NoMemoryStop) ⊎ ((ran : RanOf O T A P) × (machine.ran ≡ Some ran) × Stops early (place + 1) ledger.now ran s)) }
{
    let Machine { work: _, ran } = machine;
    let mut all = Vec::new(alloc);
    let Some(ran) = ran else {
        return (Err(LiveStop::NoMemory), all);
    };
    let (settled, remains) = finish(alloc, early, place, ledger, script, pieces, unwritten, ran);
    match all.push(remains) {
        Ok(()) => (settled, all),
        Err(_) => (Err(LiveStop::NoMemory), all),
    }
}

/// What is left of the machine at this place whose threads have all ended: too soon, or not; and whose script ended so.
pub(crate) fn leave<K: Sink, C: Clock, P: Spawner, V: Device, A: Area, O: Press, T: Shelf>(
    alloc: Global,
    early: bool,
    ended: Option<NoLine>,
    place: u32,
    ledger: &Ledger<T, GivenLine>,
    script: Writer<O>,
    unwritten: &Pieces<O>,
    output: Output<K, O>,
    machine: Machine<C, P, V, A, O, T>,
) -> LiveRun<K, A, P>
    requires { place + 1 < 2 ^ 32 }
    ensures { HasLeftOwn early (place + 1) place ledger.now script machine O.taken (K.taken result.sink) O.faults (K.faults result.sink) result }
{
    let Put { sink, front, cut } = output.into_parts();
    let (replies, remains) = end(
        alloc, early, place, ledger, script, &front, unwritten, machine,
    );
    LiveRun {
        replies,
        machines: 1,
        sink,
        cut,
        remains,
        ended,
    }
}
