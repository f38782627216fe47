//! What becomes of a holding that ends.

ghost use Rattle.sl_trace.specs.Traces as traces;
ghost use Rattle.std.specs.Prelude.{◌≡◌};

use crate::effects::{End, Grant};

/// The end of a holding.
pub fn end_of(grant: &Grant) -> End
    ensures { result ≡ traces.end_of grant.now }
{
    End {
        process: grant.process,
        lockspace: grant.lockspace,
        resource: grant.resource,
        path: grant.path,
        offset: grant.offset,
    }
}

/// The machine's orphan that a persistent holding becomes when its process exits: of process 0.
pub fn orphan_of(grant: &Grant) -> Grant
    ensures { result ≡ traces.orphan_of grant.now }
{
    Grant {
        process: 0,
        session: grant.session,
        lockspace: grant.lockspace,
        resource: grant.resource,
        path: grant.path,
        offset: grant.offset,
        mode: grant.mode,
        lver: grant.lver,
        persistent: grant.persistent,
    }
}
