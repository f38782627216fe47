//! What code makes of a member is what a host's state functions make of it.

ghost use Rattle.sl_member.specs.Laws.{HostsKeepTheSame, PartsHear};

/// A call and an answer change of a member what they change of a host's state; so do a step's beginning and that of a leaving.
pub fn hosts_keep_the_same()
    ensures { HostsKeepTheSame }
{}

/// An answer to a call for each purpose is told to a member part by part, as its methods tell it.
pub fn parts_hear()
    ensures { PartsHear }
{}
