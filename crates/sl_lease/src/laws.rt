//! What is kept of a lease is what a host keeps of it.

ghost use Rattle.sl_lease.specs.Laws.{HostsKeepTheSame};

/// Calls and answers change of what is kept of a lease what they change of a host's state.
pub fn hosts_keep_the_same()
    ensures { HostsKeepTheSame }
{}
