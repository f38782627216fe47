//! What moves do to connections.

ghost use Rattle.sl_wdmd.specs.Moves.{NamesStay, OthersStay, OwnMoves, StayApart};

/// A move leaves every connection of another name as it was, and in its order.
pub fn others_stay()
    ensures { OthersStay }
{}

/// No name changes its place among the others.
pub fn names_stay()
    ensures { NamesStay }
{}

/// A move does to the connection of its own name what it says.
pub fn own_moves()
    ensures { OwnMoves }
{}

/// Where no two connections have one name, no two have after a move.
pub fn stay_apart()
    ensures { StayApart }
{}
