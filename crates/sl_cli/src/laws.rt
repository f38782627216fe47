//! What the words of the command line are: laws that need no run.

ghost use Rattle.sl_cli.specs.Spellings.{ActionsHaveOneText, FlagsStandAnywhere, FlagsStandOnce, OnlyItsWordsAskForAnAction, OptionsComeInAnyOrder};

/// What is given to `direct` asks for an action exactly where it is what the action needs: each word in its one spelling, and no other.
/// Only the word of sizes may be left out, of sectors of 512 bytes in areas of one mebibyte.
pub fn actions_have_one_text()
    ensures { ActionsHaveOneText }
{}

/// The words that give what an action needs ask for it, in whatever order.
pub fn options_come_in_any_order()
    ensures { OptionsComeInAnyOrder }
{}

/// No other words ask for an action.
pub fn only_its_words_ask_for_an_action()
    ensures { OnlyItsWordsAskForAnAction }
{}

/// The flags of `live` may stand before and behind its folder, any of them and in any order.
pub fn flags_stand_anywhere()
    ensures { FlagsStandAnywhere }
{}

/// None of them stands twice before a `--`.
pub fn flags_stand_once()
    ensures { FlagsStandOnce }
{}
