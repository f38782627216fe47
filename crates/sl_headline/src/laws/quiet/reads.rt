//! From what the disk has to what a read gives.

ghost use Rattle.sl_headline.specs.Quiet.Reads.ReadsShowArea.{ReadsGiveWhatStands, ReadsShowTheArea};

/// A read gives what stands there, where nothing has landed since it was made.
pub fn reads_give_what_stands()
    ensures { ReadsGiveWhatStands }
{}

/// So a read of an area where nothing has landed since shows the leader and the blocks that stand there.
pub fn reads_show_the_area()
    ensures { ReadsShowTheArea }
{}
