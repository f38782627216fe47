//! Where a daemon does what is due, its calls on areas keep the laws of areas, blocks and leaders.

ghost use Rattle.sl_due_leases.specs.Leases.LeaseLaws.{BlocksAreLawful, LeadersAreLawful, LeaseLawsAreKept, ReadsAreLawful};

/// A read that a lease makes is lawful.
pub fn reads_are_lawful()
    ensures { ReadsAreLawful }
{}

/// So is a block that it writes.
pub fn blocks_are_lawful()
    ensures { BlocksAreLawful }
{}

/// A leader that a lease writes is lawful: its ballot ended with the session, or it frees what the session won.
pub fn leaders_are_lawful()
    ensures { LeadersAreLawful }
{}

/// Each act keeps the laws of areas, blocks and leaders.
pub fn lease_laws_are_kept()
    ensures { LeaseLawsAreKept }
{}
