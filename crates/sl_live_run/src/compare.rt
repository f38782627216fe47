//! What machines came to, compared with what the script gave them, and what they put out.

ghost use Rattle.sl_book.specs.Closings.{AreBelow, AreExact};
ghost use Rattle.sl_live_run.specs.Settling.{AreSettled, StopsSome, left_case, settled, settled_early};
ghost use Rattle.std.specs.Prelude.{IfErr, IfOk, IsTrue, false, length, true, ◌+◌, ◌≡◌};

use sl_area::Area;
use sl_book::{Ledger, Reading, Shelf, check};
use sl_cell::Differ;
use sl_live_lines::{GivenLine, Left};
use sl_live_machine::{CloseError, Ran};
use sl_output::{Front as Pieces, Press, Seat as Writer};
use sl_outside::Spawner;
use std::alloc::AllocError;

/// How a machine's threads, its history and the script differ.
#[derive(Clone, Copy)]
pub enum LiveDiffer {
    /// What the threads counted and the history.
    Cell(Differ),
    /// The line of the entry of this number, counted from 1, is not the one that was due there: the script's next, or the next ask of a line for
    /// lvmlockd; or the history has no such entry, and one was due.
    Line { number: u64 },
    /// A call of the entry of this number is not answered.
    Left { number: u64, call: u64 },
    /// The start of a child, by its number, of the entry of this number is not answered.
    Untold { number: u64, process: u64 },
}

/// Why a live run has no histories.
#[derive(Clone, Copy)]
pub enum LiveStop {
    /// A case that holds of the machine of this number, counted from 1.
    Differ { machine: usize, differ: LiveDiffer },
    NoMemory,
}

impl From<AllocError> for LiveStop {
    ghost use Rattle.sl_live_run.specs.declared.compare.LiveStop.{LiveStop};
    ghost use Rattle.std.specs.Prelude.{◌≡◌};

    ghost from_gives = { λ _ r. r ≡ LiveStop.NoMemory };

    fn from(_: AllocError) -> LiveStop {
        LiveStop::NoMemory
    }
}

/// What a machine's run comes to, compared with the script.
#[derive(Clone, Copy)]
pub enum Settled {
    /// Its history is whole, and its lines are the script's.
    Whole,
    /// A case holds.
    Case(LiveDiffer),
    /// There was no memory.
    Lost,
}

/// The case of what is left at the end of a history, behind whose last entry this number comes.
fn left_case(left: Left, next: u64) -> LiveDiffer
    ensures { result ≡ left_case left next }
{
    match left {
        Left::Line => LiveDiffer::Line { number: next },
        Left::Call { number, call } => LiveDiffer::Left { number, call },
        Left::Start { number, process } => LiveDiffer::Untold { number, process },
    }
}

/// What a machine comes to that ended so, whose printer has met all of the script's lines, or the first ones; where the history is whole and a line is
/// left, it is due behind the last entry.
pub fn settle_one(reading: Reading, end: Result<(), CloseError>, next: u64) -> Settled
    ensures { result ≡ settled reading end next }
{
    match end {
        Err(CloseError::Differ(differ)) => Settled::Case(LiveDiffer::Cell(differ)),
        Err(CloseError::NoMemory) => Settled::Lost,
        Err(CloseError::Line { number }) => match reading {
            Reading::All => Settled::Case(LiveDiffer::Line { number }),
            Reading::Part => Settled::Case(LiveDiffer::Line { number }),
            Reading::Apart => Settled::Lost,
        },
        Err(CloseError::Left(left)) => match reading {
            Reading::All => Settled::Case(left_case(left, next)),
            Reading::Part => Settled::Case(LiveDiffer::Line { number: next }),
            Reading::Apart => Settled::Lost,
        },
        Ok(()) => match reading {
            Reading::All => Settled::Whole,
            Reading::Part => Settled::Case(LiveDiffer::Line { number: next }),
            Reading::Apart => Settled::Lost,
        },
    }
}

/// .. that ended too soon, since another machine had no memory or a line that was not due: what is left open then is no case.
pub fn settle_early(reading: Reading, end: Result<(), CloseError>) -> Settled
    ensures { result ≡ settled_early reading end }
{
    match end {
        Err(CloseError::Differ(differ)) => Settled::Case(LiveDiffer::Cell(differ)),
        Err(CloseError::Line { number }) => match reading {
            Reading::All => Settled::Case(LiveDiffer::Line { number }),
            Reading::Part => Settled::Case(LiveDiffer::Line { number }),
            Reading::Apart => Settled::Lost,
        },
        Err(CloseError::NoMemory) => Settled::Lost,
        Err(CloseError::Left(_)) => Settled::Lost,
        Ok(()) => Settled::Lost,
    }
}

/// The sum. An `Err` says that it has too many bits.
fn plus(count: u64, more: u64) -> Result<u64, AllocError>
    ensures { IfOk result (λ all. all ≡ count + more) }
{
    match count.checked_add(more) {
        Some(sum) => Ok(sum),
        None => Err(AllocError),
    }
}

/// How many replies all machines were given, the first of which has this place, where all have whole histories. Else the first case, or want of memory.
pub(crate) fn settle_all<O: Press, T: Shelf, A: Area, P: Spawner>(
    ledger: &Ledger<T, GivenLine>,
    rans: &[Ran<O, T, A, P>],
) -> Result<u64, LiveStop>
    ensures ok { IfOk result (AreSettled ledger.now rans.now) }
    ensures err { IfErr result (StopsSome false ledger.now rans.now) }
{
    let mut replies = 0u64;
    for place in 0..rans.len() {
        let ran = &rans[place];
        let next = plus(ran.entries, 1)?;
        match settle_one(ledger.reading(&ran.reader), ran.end, next) {
            Settled::Whole => replies = plus(replies, ran.replies)?,
            Settled::Case(differ) => {
                return Err(LiveStop::Differ {
                    machine: place + 1,
                    differ,
                });
            }
            Settled::Lost => return Err(LiveStop::NoMemory),
        }
    }
    Ok(replies)
}

/// Why there are no histories, where threads ended too soon: the first case, or want of memory.
pub(crate) fn stop_early<O: Press, T: Shelf, A: Area, P: Spawner>(
    ledger: &Ledger<T, GivenLine>,
    rans: &[Ran<O, T, A, P>],
) -> LiveStop
    ensures { StopsSome true ledger.now rans.now result }
{
    for place in 0..rans.len() {
        let ran = &rans[place];
        if let Settled::Case(differ) = settle_early(ledger.reading(&ran.reader), ran.end) {
            return LiveStop::Differ {
                machine: place + 1,
                differ,
            };
        }
    }
    LiveStop::NoMemory
}

/// Whether the pieces that were put out are just those that these put, which are the machines' printers and the script's thread.
pub fn are_pieces<O: Press>(writers: &[Writer<O>], pieces: &Pieces<O>) -> bool
    ensures exact { IsTrue result → AreExact 0 writers.now pieces.now }
    ensures below { IsTrue result → AreBelow (length writers.now) pieces.now }
{
    writers.len() <= u32::MAX as usize && check(writers, pieces).is_ok()
}
