//! What is kept of an id's sector is enough, and is what a host keeps.

ghost use Rattle.sl_delta.specs.Laws.{HostsKeepTheSame, KeptIsEnough};

/// What is kept decides as the definitions do on every list of calls for which it stands.
pub fn kept_is_enough()
    ensures { KeptIsEnough }
{}

/// A call and an answer change of what is kept what they change of a host's state.
pub fn hosts_keep_the_same()
    ensures { HostsKeepTheSame }
{}
