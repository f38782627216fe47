//! Entries that do not answer a lease's call.

ghost use Rattle.sl_headline.specs.Quiet.Leases.CallsStay.{LeasesStay};

/// They leave the lease's calls as they are.
pub fn leases_stay()
    ensures { LeasesStay }
{}
