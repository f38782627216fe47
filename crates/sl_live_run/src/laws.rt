//! What a live run begins with is good to begin with.

ghost use Rattle.sl_live_run.specs.Laws.{SitesAreSettings};

/// The site of each machine makes a setting of a daemon, for daemons whose commands are those of the header's layout.
pub fn sites_are_settings()
    ensures { SitesAreSettings }
{}
