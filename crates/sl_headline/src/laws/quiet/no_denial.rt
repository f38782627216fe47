//! Replies that a quiet acquire can't have.

ghost use Rattle.sl_headline.specs.Quiet.NoDenial.NothingIsCaused.{NothingIsCaused};

/// Where the entry answers no call of the acquire's job, no reply has a cause; and none of before an input has one, whatever it answers.
pub fn nothing_is_caused()
    ensures { NothingIsCaused }
{}
