//! Headers that are read, and the commands of the whole language.

ghost use Rattle.sl_play.specs.Headers.HeaderLaw.{CommandsAreRead, EachHeaderIsGood, SomeHeadersAreRead, WholeLanguageMayPlay};

/// Each header that is read is one that a world may begin with, whatever commands its daemons read.
pub fn headers_are_good()
    ensures { EachHeaderIsGood }
{}

/// A header with some of each kind of lines is read, and so is one with no more than must be.
pub fn some_headers_are_read()
    ensures { SomeHeadersAreRead }
{}

/// With such a header, each text that is read is a command of its layout.
pub fn commands_are_read()
    ensures { CommandsAreRead }
{}

/// The whole language may be played, with daemons that read its commands.
pub fn whole_language_may_play()
    ensures { WholeLanguageMayPlay }
{}
