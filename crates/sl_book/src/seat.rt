//! A thread's seat: some words, however long the run is.

ghost use Rattle.sl_book.specs.Closings.{IsSeatOf};
ghost use Rattle.sl_book.specs.Logs.{given_by};
ghost use Rattle.sl_book.specs.declared.signed.Signed.{Signed as SignedOf};
ghost use Rattle.std.specs.Prelude.{IsFalse, IsTrue, List, length, [], ◌++◌, ◌+◌, ◌<◌, ◌∷◌, ◌≡◌, ◌≤◌};
ghost use mathlib.Core.List.{IsPrefix};

use crate::book::Front;
use crate::shelf::Shelf;
use crate::signed::Signed;
use std::marker::Model;

/// What one thread did on a cell: how many elements it gave, how many calls of its part were taken when it last took one, and how much of the
/// history it has seen. Only a cell's calls change it.
#[derive(Drop)]
pub struct Seat<J: Shelf, E> {
    by: u32,
    count: u64,
    taken: u64,
    front: Front<J, E>,
}

impl<J: Shelf, E> Model for Seat<J, E> {
    ghost use Rattle.sl_book.specs.Seats.{SeatState};
    ghost use Rattle.sl_book.specs.Logs.{given_by};
    ghost use Rattle.std.specs.Prelude.{length, ◌≤◌};

    ghost Value = { SeatState E };

    ghost view = { λ s. record { by = s.by; count = s.count; taken = s.taken; front = s.front } };

    ghost invariant = { λ s. s.count ≤ length (given_by s.by s.front) };
}

impl<J: Shelf, E> Seat<J, E> {
    /// A thread with this number that gave nothing, and has seen this. It takes no memory.
    pub fn new(by: u32, front: Front<J, E>) -> Seat<J, E>
        ensures { result ≡ record { by = by; count = 0; taken = 0; front = front } }
    {
        Seat {
            by,
            count: 0,
            taken: 0,
            front,
        }
    }

    /// The number of the seat, which each element that it gives bears.
    pub fn by(&self) -> u32
        ensures { result ≡ self.now.by }
    {
        self.by
    }

    /// How many elements it gave. No fewer have its number in what it has seen.
    pub fn count(&self) -> u64
        ensures count { result ≡ self.now.count }
        ensures most { result ≤ length (given_by self.now.by self.now.front) }
    {
        self.count
    }

    /// How many calls of its part were taken when it last took one.
    pub fn taken(&self) -> u64
        ensures { result ≡ self.now.taken }
    {
        self.taken
    }

    /// How much of the history it has seen.
    pub fn front(&self) -> &Front<J, E>
        ensures { result.now ≡ self.now.front }
    {
        &self.front
    }

    /// Whether it has this number, and has seen a beginning of this.
    pub fn fits(&self, by: u32, front: &Front<J, E>) -> bool
        ensures by { IsTrue result → self.now.by ≡ by }
        ensures behind { IsTrue result → IsPrefix self.now.front front.now }
        ensures apart { IsFalse result → IsSeatOf by self.now front.now → ⊥ }
    {
        self.by == by && self.front.is_behind(front)
    }

    /// Whether it has seen a beginning of this.
    pub fn is_behind(&self, front: &Front<J, E>) -> bool
        ensures behind { IsTrue result → IsPrefix self.now.front front.now }
        ensures longer { IsFalse result → length front.now < length self.now.front }
    {
        self.front.is_behind(front)
    }

    /// It has seen this, when so many calls of its part were taken, and gave nothing.
    #[tactic(auto, using(crate::proofs::SeatLaws::seen_on))]
    pub fn see(&mut self, front: &Front<J, E>, taken: u64)
        requires { IsPrefix self.old.front front.now }
        ensures { self.new ≡ record { by = self.old.by; count = self.old.count; taken = taken; front = front.now } }
    {
        self.front = front.again();
        self.taken = taken;
    }

    /// It gave the last element of this.
    #[tactic(auto, using(crate::proofs::SeatLaws::given_on))]
    pub fn gave(&mut self, front: &Front<J, E>, signed: &Signed<E>)
        requires by { signed.now.by ≡ self.old.by }
        requires last { (past : List (SignedOf E)) × IsPrefix self.old.front past × (front.now ≡ past ++ signed.now ∷ []) }
        ensures { self.new ≡ record { by = self.old.by; count = self.old.count + 1; taken = self.old.taken; front = front.now } }
    {
        let _most = front.len();
        self.front = front.again();
        self.count += 1;
    }
}
