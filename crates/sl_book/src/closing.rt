//! The end: the counts of all seats make up the log.

ghost use Rattle.sl_book.specs.Closings.{AreBelow, AreExact, AreSeen, EntriesDiffer, IsSomeApart, counts};
ghost use Rattle.std.specs.Prelude.{IfErr, IfNone, IfSome, OnOk, length, ◌+◌, ◌<◌, ◌^◌, ◌≡◌};

use crate::book::Front;
use crate::seat::Seat;
use crate::shelf::Shelf;

/// The seats counted another number of elements than the log has. None are counted where a seat has not its place as its number, or has seen more than
/// the log.
#[derive(Clone, Copy)]
pub struct Miscount {
    pub entries: u64,
    pub counted: u64,
}

/// How many entries they gave, where the seats have their places as numbers, and have seen beginnings of this.
#[tactic(auto, using(crate::proofs::Counts::seen_cons))]
fn counted<J: Shelf, E>(seats: &[Seat<J, E>], by: u32, all: &Front<J, E>) -> Option<u64>
    requires { by + length seats.now < 2 ^ 32 }
    ensures seen { IfSome result (λ n. AreSeen by seats.now all.now) }
    ensures count { IfSome result (λ n. n ≡ counts seats.now) }
    ensures apart { IfNone result (IsSomeApart by seats.now all.now) }
{
    let Some((seat, rest)) = seats.split_first() else {
        return Some(0);
    };
    if !seat.fits(by, all) {
        return None;
    }
    let _most = all.len();
    let more = counted(rest, by + 1, all)?;
    Some(seat.count() + more)
}

/// Whether the seats' counts make up the history: then each entry has the number of a seat, and each seat counted just the entries of its number.
#[tactic(auto, using(crate::proofs::Counts::exact, crate::proofs::Counts::all_below))]
pub fn check<J: Shelf, E>(seats: &[Seat<J, E>], all: &Front<J, E>) -> Result<(), Miscount>
    requires { length seats.now < 2 ^ 32 }
    ensures exact { OnOk result (AreExact 0 seats.now all.now) }
    ensures below { OnOk result (AreBelow (length seats.now) all.now) }
    ensures differ { IfErr result (λ m. (m.entries ≡ length all.now) × EntriesDiffer seats.now all.now m.counted) }
{
    let entries = all.len();
    let Some(count) = counted(seats, 0, all) else {
        return Err(Miscount {
            entries,
            counted: 0,
        });
    };
    if count == entries {
        Ok(())
    } else {
        Err(Miscount {
            entries,
            counted: count,
        })
    }
}
