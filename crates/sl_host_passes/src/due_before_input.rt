//! What is due before an input: recoveries that begin, kills, jobs whose calls are overdue. A pass over members or jobs goes by their numbers, noted
//! as it begins.
//!
//! How many effects that makes: each holder is told once to stop and killed once at most, a job that is refused as a recovery begins has left the
//! table, and one that is refused for an overdue call makes at most a reply and a move.

ghost use Rattle.sl_host_law.specs.Answers.RefusalsFollow.{timing_out};
ghost use Rattle.sl_host_law.specs.StepParts.Recoveries.{recovering_in};
ghost use Rattle.sl_host_law.specs.StepParts.Signals.{over};
ghost use Rattle.sl_host_law.specs.Steps.Passes.{at_job, at_member, for_jobs, for_members};
ghost use Rattle.sl_host_law.specs.Steps.StepFunction.{before_taking};
ghost use Rattle.sl_host_passes.specs.PassesLessen.{IsNoMore, holders_among};
ghost use Rattle.sl_host_work.specs.KilledMembers.{holders_of_all};
ghost use Rattle.sl_host.specs.Host.{Becomes, SameRun, Spends};
ghost use Rattle.std.specs.Prelude.{length, ◌*◌, ◌+◌, ◌≡◌, ◌≤◌};

use sl_host::{Chosen, Host, Notes};
use sl_host_work::laws::holders_are_few;
use sl_host_work::{kill_all, recover, time_out};

/// The jobs of these numbers are refused where their calls are overdue.
fn time_out_noted(host: &mut Host, numbers: &Notes<u64>)
    requires { 2 * length numbers.now.items ≤ host.old.left }
    ensures state { Becomes host.old host.new (λ h. over numbers.now.items (λ n. at_job n timing_out) h) }
    ensures left { Spends host.old host.new (2 * length numbers.now.items) 0 }
    ensures run { SameRun host.old host.new }
{
    for place in 0..numbers.len() {
        time_out(host, *numbers.nth(place));
    }
}

/// All jobs are refused whose calls are overdue: each makes at most a reply and a move.
#[tactic(auto, using(crate::proofs::WholePasses::all_chosen, crate::proofs::WholePasses::all_many))]
pub fn time_out_all(host: &mut Host, numbers: &mut Notes<u64>)
    requires room { length host.old.kept.jobs ≤ numbers.old.most }
    requires left { 2 * length host.old.kept.jobs ≤ host.old.left }
    ensures state { Becomes host.old host.new (for_jobs timing_out) }
    ensures left { Spends host.old host.new (2 * length host.old.kept.jobs) 0 }
    ensures run { SameRun host.old host.new }
    ensures notes { numbers.new.most ≡ numbers.old.most }
{
    host.note_jobs(&Chosen::All, numbers);
    time_out_noted(host, numbers);
}

/// Members have numbers of their own, so they have no more holders together than there are holdings.
fn few_holders(host: &Host)
    ensures { holders_of_all host.now.kept.members host.now.kept.holdings ≤ length host.now.kept.holdings }
{
    let _joining = host.members().joining_by(0);
    holders_are_few();
}

/// The recoveries of the members of these numbers begin, where they do in this step.
fn recover_noted(host: &mut Host, members: &Notes<u64>, numbers: &mut Notes<u64>)
    requires room { length host.old.kept.jobs ≤ numbers.old.most }
    requires left { holders_among members.now.items host.old.kept.holdings + length host.old.kept.jobs ≤ host.old.left }
    ensures state { Becomes host.old host.new (λ h. over members.now.items (λ n. at_member n recovering_in) h) }
    ensures left { Spends host.old host.new (holders_among members.now.items host.old.kept.holdings + length host.old.kept.jobs) 0 }
    ensures run { SameRun host.old host.new }
    ensures notes { numbers.new.most ≡ numbers.old.most }
{
    for place in 0..members.len() {
        recover(host, numbers, *members.nth(place));
    }
}

/// All recoveries begin that do in this step: holders are told to stop, jobs are refused.
pub fn recover_all(host: &mut Host, members: &mut Notes<u64>, numbers: &mut Notes<u64>)
    requires members { length host.old.kept.members ≤ members.old.most }
    requires room { length host.old.kept.jobs ≤ numbers.old.most }
    requires left { length host.old.kept.holdings + length host.old.kept.jobs ≤ host.old.left }
    ensures state { Becomes host.old host.new (for_members recovering_in) }
    ensures left { Spends host.old host.new (length host.old.kept.holdings + length host.old.kept.jobs) 0 }
    ensures run { SameRun host.old host.new }
    ensures members { members.new.most ≡ members.old.most }
    ensures notes { numbers.new.most ≡ numbers.old.most }
    ensures fewer { IsNoMore host.old.kept host.new.kept }
{
    few_holders(host);
    host.note_members(members);
    recover_noted(host, members, numbers);
}

/// What is due before the input: recoveries that begin, kills, and refusals of jobs whose calls are overdue.
pub fn before_input(host: &mut Host, members: &mut Notes<u64>, numbers: &mut Notes<u64>)
    requires members { length host.old.kept.members ≤ members.old.most }
    requires room { length host.old.kept.jobs ≤ numbers.old.most }
    requires left { 3 * length host.old.kept.jobs + 2 * length host.old.kept.holdings ≤ host.old.left }
    ensures state { Becomes host.old host.new before_taking }
    ensures left { Spends host.old host.new (3 * length host.old.kept.jobs + 2 * length host.old.kept.holdings) 0 }
    ensures run { SameRun host.old host.new }
    ensures members { members.new.most ≡ members.old.most }
    ensures notes { numbers.new.most ≡ numbers.old.most }
    ensures fewer { IsNoMore host.old.kept host.new.kept }
{
    recover_all(host, members, numbers);
    few_holders(host);
    kill_all(host);
    time_out_all(host, numbers);
}
