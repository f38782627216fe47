//! That what is written is a picture; what the lines of a report make of the open bars of holdings, and that nothing else touches these.

ghost use Rattle.sl_picture.specs.HeldBars.{BarsBegin, LinesMoveBars};
ghost use Rattle.sl_picture.specs.WellFormed.{KeptPicturesAreWellFormed};

/// What is written of what is kept is a well-formed picture: a front, the head, elements whose texts are escaped, and a tail.
pub fn kept_pictures_are_well_formed()
    ensures { KeptPicturesAreWellFormed }
{}

/// At first no bar of a holding is open.
pub fn bars_begin()
    ensures { BarsBegin }
{}

/// A line of a schedule makes of the bars of holdings what its lines of the report say.
pub fn lines_move_bars()
    ensures { LinesMoveBars }
{}
