//! A step begins: what is due before its input is done. Below the reading up to which the host is quiet, nothing is.

ghost use Rattle.sl_host_law.specs.Steps.StepFunction.{before_taking};
ghost use Rattle.sl_host_passes.specs.PassesLessen.{IsNoMore};
ghost use Rattle.sl_host_passes.specs.PassPremises.{BeginKnown};
ghost use Rattle.sl_host_state.specs.HeardInputs.{begun};
ghost use Rattle.sl_host.specs.Host.{Becomes, SameMost, Spends};
ghost use Rattle.std.specs.Prelude.{length, ◌*◌, ◌+◌, ◌<◌, ◌≡◌, ◌≤◌};

use crate::due_before_input::before_input;
use sl_host::{Host, Notes};

/// The step at the reading `now` begins, and what is due before its input is done. Where the host is quiet that takes no pass, and no room.
pub fn begin_step(host: &mut Host, members: &mut Notes<u64>, numbers: &mut Notes<u64>, now: u64)
    requires known { BeginKnown now host.old.kept }
    requires members { length host.old.kept.members ≤ members.old.most }
    requires room { length host.old.kept.jobs ≤ numbers.old.most }
    requires left { host.old.kept.quiet_until ≤ now → 3 * length host.old.kept.jobs + 2 * length host.old.kept.holdings ≤ host.old.left }
    ensures state { Becomes host.old host.new (λ h. before_taking (begun now h)) }
    ensures left { Spends host.old host.new (3 * length host.old.kept.jobs + 2 * length host.old.kept.holdings) 0 }
    ensures quiet { now < host.old.kept.quiet_until → Spends host.old host.new 0 0 }
    ensures run { (host.new.kept.config ≡ host.old.kept.config) × (host.new.kept.reading ≡ now) }
    ensures most { SameMost host.old host.new }
    ensures members { members.new.most ≡ members.old.most }
    ensures notes { numbers.new.most ≡ numbers.old.most }
    ensures fewer { IsNoMore host.old.kept host.new.kept }
{
    let quiet = now < host.quiet_until();
    host.begin(now);
    if !quiet {
        before_input(host, members, numbers);
    }
}
