//! What ends holdings is lawful: releases, conversions, take-overs, exits, failed starts.

ghost use Rattle.sl_due_leases.specs.Grants.GrantLaws.{EndsAreLawful, EndsBegin};

/// Each act leaves only lawful ends: of what was held before, for its reason.
pub fn ends_are_lawful()
    ensures { EndsAreLawful }
{}

/// So it is once a step has begun: nothing has ended yet.
pub fn ends_begin()
    ensures { EndsBegin }
{}
