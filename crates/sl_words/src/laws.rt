//! Laws of the words.

ghost use Rattle.sl_words.specs.Laws.{GreatestIsMost};

/// The greatest of numbers is at least each of them.
pub fn greatest_is_most()
    ensures { GreatestIsMost }
{}
