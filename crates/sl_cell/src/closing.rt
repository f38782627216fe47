//! The end: the counts of all threads make up the history.

ghost use Rattle.sl_book.specs.Closings.{AreBelow, AreExact};
ghost use Rattle.sl_cell.specs.Closings.{DiffersSo, IsTorn};
ghost use Rattle.std.specs.Prelude.{IfErr, IsFalse, IsTrue, OnOk, length, true, ◌<◌, ◌^◌, ◌≡◌};

use crate::station::{Front, Seat, Station};
use sl_book::{Miscount, check};

/// Why seats and a history don't agree.
#[derive(Clone, Copy)]
pub enum Differ {
    /// The seats counted another number of entries than the history has. None are counted where a seat has not its place as its number, or has seen
    /// more than the history.
    Entry { entries: u64, counted: u64 },
    /// The daemon does not stand for the history of so many entries, or not all of it was handed out to the one who has this front.
    Broken { entries: u64 },
}

/// Whether the daemon does not stand for the history, or not all of it was handed out to the one who has this front.
pub(crate) fn is_torn<J: Station>(
    whole: bool,
    all: &Front<J>,
    handed: &Front<J>,
    mine: &Front<J>,
) -> bool
    ensures torn { IsTrue result → IsTorn whole all.now handed.now mine.now }
    ensures whole { IsFalse result → (whole ≡ true) × (handed.now ≡ mine.now) × (all.now ≡ mine.now) }
{
    !whole || !handed.is_same(mine) || !all.is_same(mine)
}

/// Whether the seats' counts make up the history: then each entry has the number of a seat, and each seat counted just the entries of its number.
pub(crate) fn check_seats<J: Station>(seats: &[Seat<J>], all: &Front<J>) -> Result<(), Differ>
    requires { length seats.now < 2 ^ 32 }
    ensures exact { OnOk result (AreExact 0 seats.now all.now) }
    ensures below { OnOk result (AreBelow (length seats.now) all.now) }
    ensures differ { IfErr result (DiffersSo seats.now all.now) }
{
    match check(seats, all) {
        Ok(()) => Ok(()),
        Err(Miscount { entries, counted }) => Err(Differ::Entry { entries, counted }),
    }
}
