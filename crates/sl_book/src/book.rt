//! A log as a book that exists in the proofs alone: threads share its length.

ghost use Rattle.sl_book.specs.Books.{IsLonger, head_of};
ghost use Rattle.std.specs.Prelude.{IsFalse, IsTrue, MatchBool, length, [], ◌++◌, ◌<◌, ◌^◌, ◌∷◌, ◌≡◌};
ghost use mathlib.Core.List.{IsPrefix};

use crate::shelf::Shelf;
use crate::signed::Signed;
use logbook::{Gain, Offer, Plain, Play, Rule, Seen, Start, Word};
use std::marker::{Model, PhantomData};

/// The rule of the book: its word is the length of the log.
pub struct Law;

impl<E> Rule<Signed<E>, u64> for Law {
    ghost use Rattle.sl_book.specs.Books.{IsCounted};
    ghost use Rattle.std.specs.Prelude.{[]};
    ghost use base.Fml.{ftrue};

    ghost holds = { λ cells log. IsCounted cells log };

    ghost first = { [] };

    ghost hinted = { λ n log. Unit {0} };

    ghost shows = { λ log. [] };

    ghost keeps = { λ names log. ftrue };

    ghost moves = { λ ask before after answer. Unit {0} };
}

/// What a caller trades as it takes a step of the book: nothing.
pub struct Nothing;

impl<E> Gain<Signed<E>, u64> for Nothing {
    ghost use base.Fml.{ftrue};

    ghost after = { λ names about answer. ftrue };
}

/// The one step of a book: an element is added at its end.
pub struct Add;

impl<E> Play<Signed<E>, u64> for Add {
    ghost use Rattle.sl_book.specs.Books.{Adds};

    ghost then = { Adds };
}

/// What a step asks for: the element.
impl<E> Plain<Signed<E>, Signed<E>, u64> for Add {
    ghost use Rattle.std.specs.Prelude.{None};

    ghost ask = { λ signed. signed };

    ghost state = { λ signed. None };
}

/// A book with an empty log, which has no name yet.
#[derive(Drop)]
pub struct Opened<E> {
    head: Word<Signed<E>, u64, Law>,
    seen: Seen<Signed<E>, u64, Law>,
    pub ghost empty: { seen.log ≡ [] },
    pub ghost head_is: { head ≡ head_of seen.book },
}

impl<E> Opened<E> {
    /// A new book with an empty log, to be named.
    pub fn new() -> Opened<E> {
        let (seen, mut first, _second) = Seen::open(Start::alone(), 0, 0);
        Opened {
            head: Word::tracked(0, &mut first),
            seen,
        }
    }

    /// The book under its name, and the front of one who has seen nothing.
    pub fn named<J: Shelf>(self) -> (Book<J, E>, Front<J, E>)
        requires { self.seen.book ≡ J.book }
        ensures { result.1 ≡ [] }
    {
        let Opened { head, seen } = self;
        (
            Book {
                head,
                of: PhantomData,
            },
            Front {
                count: 0,
                seen,
                of: PhantomData,
            },
        )
    }
}

/// The word that all threads share: the length of the log.
#[derive(Drop)]
pub struct Book<J: Shelf, E> {
    head: Word<Signed<E>, u64, Law>,
    of: PhantomData<J>,
    ghost head_is: { head ≡ head_of J.book },
}

/// A beginning of the log, which was seen. Contracts see it as its elements; it takes the bytes of their count.
#[derive(Drop)]
pub struct Front<J: Shelf, E> {
    count: u64,
    seen: Seen<Signed<E>, u64, Law>,
    of: PhantomData<J>,
}

impl<J: Shelf, E> Model for Front<J, E> {
    ghost use Rattle.sl_book.specs.declared.signed.Signed.{Signed};
    ghost use Rattle.std.specs.Prelude.{List, length, ◌≡◌};

    ghost Value = { List (Signed E) };

    ghost view = { λ f. f.seen.log };

    ghost invariant = { λ f. (f.count ≡ length f.seen.log) × (f.seen.book ≡ J.book) };
}

impl<J: Shelf, E> Front<J, E> {
    /// How many elements the front has: so much of the book somebody has seen.
    pub fn len(&self) -> u64
        ensures { result ≡ length self.now }
    {
        self.count
    }

    /// The same front once more, to be kept elsewhere. It takes no memory.
    pub fn again(&self) -> Front<J, E>
        ensures { result ≡ self.now }
    {
        Front {
            count: self.count,
            seen: self.seen.again(),
            of: PhantomData,
        }
    }

    /// Whether they are one: they are where they have as many elements.
    pub fn is_same(&self, other: &Front<J, E>) -> bool
        ensures same { IsTrue result → self.now ≡ other.now }
        ensures apart { IsFalse result → self.now ≡ other.now → ⊥ }
    {
        let mut both = self.seen.again();
        both.learn(&other.seen);
        self.count == other.count
    }

    /// Whether the other begins with this one: it does where it is no shorter.
    pub fn is_behind(&self, other: &Front<J, E>) -> bool
        ensures behind { IsTrue result → IsPrefix self.now other.now }
        ensures longer { IsFalse result → length other.now < length self.now }
    {
        let mut both = self.seen.again();
        both.learn(&other.seen);
        self.count <= other.count
    }

    /// Adds an element to all that was seen, and says whether it did. It did not where the log is longer: then all of it is seen.
    pub fn add(&mut self, book: &Book<J, E>, signed: &Signed<E>) -> bool
        requires { length self.old < 2 ^ 62 }
        ensures { MatchBool result (self.new ≡ self.old ++ signed.now ∷ []) (IsLonger self.old self.new) }
    {
        let mut offer: Offer<Signed<E>, u64, Law, Nothing> = self
            .seen
            .plain::<Nothing, Signed<E>, Add>(signed);
        let mut pen = self.seen.no_pen();
        let count = self.count;
        let found = book
            .head
            .compare_exchange::<Add, Nothing>(
                count,
                count + 1,
                &mut self.seen,
                &mut offer,
                &mut pen,
            );
        self.count = if found == count { count + 1 } else { found };
        found == count
    }
}
