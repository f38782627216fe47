//! Ends: connections that are removed, what comes last of a session, processes that exit or are not started.

ghost use Rattle.sl_host_law.specs.StepParts.Ends.{removing};
ghost use Rattle.sl_host_law.specs.StepParts.Exits.{ending, leaving};
ghost use Rattle.sl_host_law.specs.StepParts.Signals.{over};
ghost use Rattle.sl_host_state.specs.MadeEffects.{with_grant};
ghost use Rattle.sl_host_work.specs.ProcessHoldings.{HoldsOnce, held_by, leaves_at, with_orphan};
ghost use Rattle.sl_trace.specs.Traces.{end_of, no_process, orphan_of, orphans_left};
ghost use Rattle.sl_host.specs.Host.{Becomes, SameRun, Spends};
ghost use Rattle.std.specs.Prelude.{false, length, ◌+◌, ◌<◌, ◌==◌, ◌≡◌, ◌≤◌};

use sl_host::{Host, Notes};
use sl_text::Name;
use sl_trace::{Grant, Move, Spot, end_of, orphan_of};

/// The lockspace's connection is removed, if it stands.
pub fn remove_connection(host: &mut Host, lockspace: &Name)
    requires { 1 ≤ host.old.left }
    ensures state { Becomes host.old host.new (removing lockspace.now) }
    ensures left { Spends host.old host.new 1 0 }
    ensures run { SameRun host.old host.new }
{
    if host.is_connected(lockspace) {
        host.move_on(Move::Unregister {
            lockspace: *lockspace,
        });
    }
}

/// Whether a holding becomes an orphan with its process's exit: it is persistent, and its area has none yet.
#[tactic(auto, using(crate::proofs::OrphansStand::orphan_sought))]
fn leaves_orphan(host: &Host, grant: &Grant) -> bool
    ensures { result ≡ leaves_at host.now.kept.holdings grant.now }
{
    grant.persistent
        && !host.has_orphan_on(Spot {
            path: grant.path,
            base: grant.offset,
        })
}

/// Notes what the holding becomes.
fn note_orphan(host: &Host, grant: &Grant, orphans: &mut Notes<Grant>)
    requires { length orphans.old.items < orphans.old.most }
    ensures { orphans.new ≡ record orphans.old { items = with_orphan host.now.kept.holdings grant.now orphans.old.items } }
{
    if leaves_orphan(host, grant) {
        orphans.put(orphan_of(grant));
    }
}

/// All holdings of the process end, and what they leave is noted. It holds no place twice, and is none.
pub fn end_holdings(host: &mut Host, process: u32, orphans: &mut Notes<Grant>)
    requires once { HoldsOnce process host.old.kept.holdings }
    requires some { (process == no_process) ≡ false }
    requires left { length (held_by process host.old.kept.holdings) ≤ host.old.left }
    requires room { length (held_by process host.old.kept.holdings) ≤ orphans.old.most }
    ensures state { Becomes host.old host.new (ending process) }
    ensures left { Spends host.old host.new (length (held_by process host.old.kept.holdings)) 0 }
    ensures run { SameRun host.old host.new }
    ensures orphans { orphans.new ≡ record orphans.old { items = orphans_left process host.old.kept.holdings } }
{
    orphans.clear();
    while let Some(grant) = host.first_of(process).copied() {
        note_orphan(host, &grant, orphans);
        host.end(end_of(&grant));
    }
}

/// All of these are held.
fn grant_noted(host: &mut Host, grants: &Notes<Grant>)
    requires { length grants.now.items ≤ host.old.left }
    ensures state { Becomes host.old host.new (λ h. over grants.now.items with_grant h) }
    ensures left { Spends host.old host.new (length grants.now.items) 0 }
    ensures run { SameRun host.old host.new }
{
    for place in 0..grants.len() {
        host.grant(*grants.nth(place));
    }
}

/// The holdings of a process that exits end, and the persistent ones are the machine's orphans from here on. It holds no place twice, and is none.
pub fn leave_holdings(host: &mut Host, process: u32, orphans: &mut Notes<Grant>)
    requires once { HoldsOnce process host.old.kept.holdings }
    requires some { (process == no_process) ≡ false }
    requires left { length (held_by process host.old.kept.holdings) + length (orphans_left process host.old.kept.holdings) ≤ host.old.left }
    requires room { length (held_by process host.old.kept.holdings) ≤ orphans.old.most }
    ensures state { Becomes host.old host.new (leaving process) }
    ensures left { Spends host.old host.new (length (held_by process host.old.kept.holdings) + length (orphans_left process host.old.kept.holdings)) 0 }
    ensures run { SameRun host.old host.new }
    ensures notes { orphans.new.most ≡ orphans.old.most }
{
    end_holdings(host, process, orphans);
    grant_noted(host, orphans);
}
