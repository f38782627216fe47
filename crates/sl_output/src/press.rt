//! Which output it is.

use sl_book::Shelf;
use sl_text::Bytes;
use std::marker::Brand;

/// Which output it is: the book of its pieces, and the bytes that its sink had taken and the faults that it had at the beginning. Each run picks them.
pub trait Press: Shelf {
    ghost use Rattle.std.specs.Prelude.{List, Option, ℕ};

    ghost taken: { Option (List ℕ) };

    ghost faults: { ℕ };
}

impl Press for Brand {
    ghost use Rattle.std.specs.Prelude.{None};

    ghost taken = { None };

    ghost faults = { 0 };
}

/// A piece, with the number of the thread that put it.
pub type Signed = sl_book::Signed<Bytes>;

/// The book of the pieces that were put, which is kept nowhere: it is a list in the proofs alone.
pub type Book<O> = sl_book::Book<O, Bytes>;

/// A book without pieces, which is of no output yet.
pub type Opened = sl_book::Opened<Bytes>;

/// The first pieces of an output, which somebody has seen.
pub type Front<O> = sl_book::Front<O, Bytes>;

/// How many pieces one thread put, and how many pieces of the output it has seen.
pub type Seat<O> = sl_book::Seat<O, Bytes>;
