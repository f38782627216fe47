//! Which book it is.

use std::marker::Brand;

/// Which book it is. Each run picks its own.
pub trait Shelf {
    ghost use Rattle.logbook.specs.Pages.{Book};

    ghost book: { Book };
}

impl Shelf for Brand {
    ghost use Rattle.sl_book.specs.Shelves.{any_book};

    ghost book = { any_book };
}
