//! Writes in flight on an area, and places where none is.
//!
//! What is in flight after an event was so before, or is made by it. On a resource's area only the daemon that runs on the acquire's machine
//! writes, and of it one call at a time: so the write in flight there, if one is, is the acquire's own.

ghost use Rattle.sl_headline.specs.Quiet.Area.PlacesStay.{PlacesStay};
ghost use Rattle.sl_headline.specs.Quiet.Area.CalmAreas.{CalmGoesOn, OneWriteInFlight, OpenCallsGoOn, WritesAreWork};

/// An event leaves what stands at a place to which no write is in flight.
pub fn places_stay()
    ensures { PlacesStay }
{}

/// What is in flight after an event was in flight before it, or is made by it.
pub fn open_calls_go_on()
    ensures { OpenCallsGoOn }
{}

/// Whoever writes on a resource's area works there, as a session of the resource's lockspace.
pub fn writes_are_work()
    ensures { WritesAreWork }
{}

/// An event that disturbs nothing leaves the area calm.
pub fn calm_goes_on()
    ensures { CalmGoesOn }
{}

/// On a calm area the daemon's one open call is the only write in flight.
pub fn one_write_in_flight()
    ensures { OneWriteInFlight }
{}
