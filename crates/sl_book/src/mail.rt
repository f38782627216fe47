//! Mail: a log that one writes, and others read their own elements of.
//!
//! A `Ledger` is who writes: it has seen the whole log, and counts the elements of each number. What it hands on is `Posted`: an element with the
//! beginning of the log that it ends, and how many of its number came before it. A `Reader` takes only the next element of its number, so that what it
//! has read are the first so many of them, whatever way they came. Whether that is all of them is told by the counts.

ghost use Rattle.sl_book.specs.Logs.{entries, given_by};
ghost use Rattle.sl_book.specs.Mails.{IsNext, IsReading};
ghost use Rattle.std.specs.Prelude.{IfOk, IsFalse, IsTrue, OnErr, OnOk, length, replicate, slice_get, slice_set, [], ◌++◌, ◌+◌, ◌<◌, ◌^◌, ◌∷◌, ◌≡◌, ◌≤◌, ◌⊎◌};

use crate::book::{Book, Front};
use crate::shelf::Shelf;
use crate::signed::Signed;
use std::alloc::{AllocError, Global};
use std::marker::Model;

/// The log is longer than what was seen of it, or there is no place for more.
#[derive(Clone, Copy)]
pub struct Broken;

/// How much of the elements of its number a reader has read.
#[derive(Clone, Copy)]
pub enum Reading {
    /// All elements of its number that were posted.
    All,
    /// The first of them, and not all.
    Part,
    /// They are not counted, or the reader has seen more of the log than the ledger.
    Apart,
}

/// A ledger posts no more behind so many elements.
const MOST_POSTED: u64 = 1 << 60;

/// How many elements of each number there are.
#[derive(Drop)]
struct Counts {
    counts: Vec<u64>,
}

impl Model for Counts {
    ghost use Rattle.std.specs.Prelude.{List, ℕ};

    ghost Value = { List ℕ };

    ghost view = { λ c. c.counts.items };
}

impl Counts {
    /// None of any number. An `Err` is want of memory.
    fn new(alloc: Global, places: usize) -> Result<Counts, AllocError>
        ensures { IfOk result (λ c. c ≡ replicate places 0) }
    {
        Ok(Counts {
            counts: vec![in alloc; 0; places]?,
        })
    }

    /// How many of this number, if they are counted.
    fn get(&self, by: u32) -> Option<u64>
        ensures { result ≡ slice_get self.now by }
    {
        self.counts.get(by as usize).copied()
    }

    /// How many numbers are counted.
    fn len(&self) -> usize
        ensures { result ≡ length self.now }
    {
        self.counts.len()
    }

    /// There are so many of this number now.
    fn set(&mut self, by: u32, count: u64)
        requires { by < length self.old }
        ensures { self.new ≡ slice_set self.old by count }
    {
        self.counts[by as usize] = count;
    }
}

/// Who posts: the whole log, and how many elements of each number below some bound it has. It takes memory when it is made, and none later.
#[derive(Drop)]
pub struct Ledger<J: Shelf, E> {
    front: Front<J, E>,
    counts: Counts,
}

impl<J: Shelf, E> Model for Ledger<J, E> {
    ghost use Rattle.sl_book.specs.Mails.{AreCounts, LedgerState};
    ghost use Rattle.std.specs.Prelude.{length};

    ghost Value = { LedgerState E };

    ghost view = { λ l. record { front = l.front; places = length l.counts } };

    ghost invariant = { λ l. AreCounts 0 l.counts l.front };
}

/// An element with the beginning of the log that it ends, and how many of its number came before it. Only a ledger makes one.
#[derive(Drop)]
pub struct Posted<J: Shelf, E> {
    index: u64,
    signed: Signed<E>,
    front: Front<J, E>,
}

impl<J: Shelf, E> Model for Posted<J, E> {
    ghost use Rattle.sl_book.specs.Mails.{IsLast, PostedState};

    ghost Value = { PostedState E };

    ghost view = { λ p. record { by = p.signed.by; element = p.signed.entry; front = p.front } };

    ghost invariant = { λ p. IsLast p.index p.signed p.front };
}

/// Who reads the elements of one number: how many it has read, and how much of the log it has seen. It takes no memory.
#[derive(Drop)]
pub struct Reader<J: Shelf, E> {
    by: u32,
    count: u64,
    front: Front<J, E>,
}

impl<J: Shelf, E> Model for Reader<J, E> {
    ghost use Rattle.sl_book.specs.Logs.{given_by};
    ghost use Rattle.sl_book.specs.Mails.{ReaderState};
    ghost use Rattle.std.specs.Prelude.{length, ◌≡◌};

    ghost Value = { ReaderState E };

    ghost view = { λ r. record { by = r.by; count = r.count; front = r.front } };

    ghost invariant = { λ r. r.count ≡ length (given_by r.by r.front) };
}

impl<J: Shelf, E> Ledger<J, E> {
    /// A ledger of a log that is empty, for the numbers below `places`. An `Err` is want of memory.
    #[tactic(auto, using(crate::proofs::MailLaws::counts_none))]
    pub fn new(alloc: Global, front: Front<J, E>, places: usize) -> Result<Ledger<J, E>, AllocError>
        requires { front ≡ [] }
        ensures { IfOk result (λ l. l ≡ record { front = []; places = places }) }
    {
        Ok(Ledger {
            front,
            counts: Counts::new(alloc, places)?,
        })
    }

    /// How many elements of this number there are, if there is a place for one more.
    fn index(&self, by: u32) -> Result<u64, Broken>
        ensures count { IfOk result (λ n. n ≡ length (given_by by self.now.front)) }
        ensures place { OnOk result (by < self.now.places) }
        ensures few { OnOk result (length self.now.front < 2 ^ 60) }
        ensures full { OnErr result ((self.now.places ≤ by) ⊎ (2 ^ 60 ≤ length self.now.front)) }
    {
        let Some(count) = self.counts.get(by) else {
            return Err(Broken);
        };
        if self.front.len() < MOST_POSTED {
            Ok(count)
        } else {
            Err(Broken)
        }
    }

    /// Adds an element of this number, and gives what its reader is to have. `Broken` says that the number is not below the ledger's places, or that
    /// the log is longer than the ledger has seen, or has 2^60 elements. The ledger is as it was then, and the log has got no element of it.
    pub fn post(&mut self, book: &Book<J, E>, by: u32, element: E) -> Result<Posted<J, E>, Broken>
    where
        E: Drop,
        ensures posted { IfOk result (λ p. p
            ≡ record { by = by; element = element; front = self.old.front ++ record { by = by; entry = element } ∷ [] }) }
        ensures front { IfOk result (λ p. self.new ≡ record { front = p.front; places = self.old.places }) }
        ensures place { OnOk result (by < self.old.places) }
        ensures broken { OnErr result (self.new ≡ self.old) }
    {
        let index = self.index(by)?;
        let signed = Signed { by, entry: element };
        let mut front = self.front.again();
        if !front.add(book, &signed) {
            return Err(Broken);
        }
        self.counts.set(by, index + 1);
        self.front = front.again();
        Ok(Posted {
            index,
            signed,
            front,
        })
    }

    /// For how many numbers it counts: those below this one.
    pub fn places(&self) -> usize
        ensures { result ≡ self.now.places }
    {
        self.counts.len()
    }

    /// How much of the elements of its number a reader has read.
    pub fn reading(&self, reader: &Reader<J, E>) -> Reading
        ensures { IsReading result reader.now self.now }
    {
        let Some(count) = self.counts.get(reader.by) else {
            return Reading::Apart;
        };
        if !reader.front.is_behind(&self.front) {
            return Reading::Apart;
        }
        if reader.count == count {
            Reading::All
        } else {
            Reading::Part
        }
    }
}

impl<J: Shelf, E> Posted<J, E> {
    /// The element that was posted, to be read.
    pub fn element(&self) -> &E
        ensures { result.now ≡ self.now.element }
    {
        &self.signed.entry
    }
}

impl<J: Shelf, E> Reader<J, E> {
    /// A reader of this number that has read nothing. It takes no memory.
    pub fn new(by: u32, front: &Front<J, E>) -> Reader<J, E>
        requires { front.now ≡ [] }
        ensures { result ≡ record { by = by; count = 0; front = [] } }
    {
        Reader {
            by,
            count: 0,
            front: front.again(),
        }
    }

    /// The number whose elements it reads.
    pub fn by(&self) -> u32
        ensures { result ≡ self.now.by }
    {
        self.by
    }

    /// How many elements it has read: the first so many of its number.
    pub fn count(&self) -> u64
        ensures count { result ≡ self.now.count }
        ensures read { result ≡ length (given_by self.now.by self.now.front) }
    {
        self.count
    }

    /// Whether this is the next element of its number.
    fn is_next(&self, posted: &Posted<J, E>) -> bool
        ensures next { IsTrue result → IsNext self.now posted.now }
        ensures apart { IsFalse result → IsNext self.now posted.now → ⊥ }
    {
        if posted.signed.by != self.by {
            return false;
        }
        if posted.index != self.count {
            return false;
        }
        self.front.is_behind(&posted.front) && self.front.len() < posted.front.len()
    }

    /// Takes an element, if it is the next one of its number, and says whether it did. Else it is as it was.
    pub fn take(&mut self, posted: &Posted<J, E>) -> bool
        ensures next { IsTrue result → IsNext self.old posted.now }
        ensures on { IsTrue result → self.new ≡ record { by = self.old.by; count = self.old.count + 1; front = posted.now.front } }
        ensures read { IsTrue result → entries (given_by self.old.by self.new.front) ≡ entries (given_by self.old.by self.old.front) ++ posted.now.element ∷ [] }
        ensures not { IsFalse result → (self.new ≡ self.old) × (IsNext self.old posted.now → ⊥) }
    {
        if !self.is_next(posted) {
            return false;
        }
        let _most = posted.front.len();
        self.front = posted.front.again();
        self.count += 1;
        true
    }
}
