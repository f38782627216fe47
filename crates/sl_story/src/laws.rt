//! What stories begin with: a law of the definitions that `tell_schedule` cites.

ghost use Rattle.sl_story.specs.StoryHeaders.{StoryHeadersAreRead};

/// The lines that a story begins with are read as its header.
pub fn story_headers_are_read()
    ensures { StoryHeadersAreRead }
{}
