//! Which machine it is.

use sl_book::Shelf;
use sl_trace::Entry;
use std::marker::Brand;

/// Which machine it is: what its daemon is begun with, and the book of its history. Each run of a machine picks both.
pub trait Station: Shelf {
    ghost use Rattle.sl_trace.specs.Traces.{Setting};

    ghost setting: { Setting };
}

impl Station for Brand {
    ghost use Rattle.sl_cell.specs.Stations.{any_setting};

    ghost setting = { any_setting };
}

/// An entry of a history, with the number of the thread that gave its input.
pub type Signed = sl_book::Signed<Entry>;

/// The book of a machine's history, which is kept nowhere: it is a list in the proofs alone.
pub type Book<J> = sl_book::Book<J, Entry>;

/// A book with an empty history, which is of no machine yet.
pub type Opened = sl_book::Opened<Entry>;

/// A beginning of a history, which somebody has seen.
pub type Front<J> = sl_book::Front<J, Entry>;

/// What one thread did on a cell: how many entries it gave, how many calls of its part were taken when it last took one, and how much of the history
/// it has seen.
pub type Seat<J> = sl_book::Seat<J, Entry>;
