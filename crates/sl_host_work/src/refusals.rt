//! Refused jobs: a joining that is refused loses its connection, unless a write of it is unanswered.

ghost use Rattle.sl_host_law.specs.Answers.RefusalsFollow.{refusing, timing_out};
ghost use Rattle.sl_host_law.specs.StepParts.Refusals.{replying_to};
ghost use Rattle.sl_host_law.specs.Steps.Passes.{at_job, at_member};
ghost use Rattle.sl_host_law.specs.StepParts.Recoveries.{recovering_in};
ghost use Rattle.sl_host_work.specs.Holders.{holders_under};
ghost use Rattle.sl_host_work.specs.KilledMembers.{unread};
ghost use Rattle.sl_host_work.specs.Stops.{parted_with, recovering_of, refusing_by, stopping, stopping_cost};
ghost use Rattle.sl_host_law.specs.StepParts.Exits.{refusing_of};
ghost use Rattle.sl_member.specs.HostMembers.{member_with};
ghost use Rattle.sl_host_work.specs.RefusalReplies.{reply_of};
ghost use Rattle.sl_trace.specs.Sessions.{is_join_done};
ghost use Rattle.sl_host.specs.ChosenJobs.{chosen_among};
ghost use Rattle.sl_host.specs.Host.{Becomes, SameRun, Spends};
ghost use Rattle.sl_host.specs.declared.passes.Chosen.TheVariants.{OfLockspace, OfProcess};
ghost use Rattle.sl_words.specs.Words.{some_is};
ghost use Rattle.std.specs.Prelude.{Some, false, find, length, ◌+◌, ◌==◌, ◌≡◌, ◌≤◌};

use crate::ends::remove_connection;
use crate::recoveries::{Stopped, overdue, recovering_numbered};
use crate::signals::signal_holders;
use sl_host::{Chosen, Host, Notes};
use sl_member::Member;
use sl_text::Name;
use sl_trace::{Reply, Signal};

/// Why jobs are refused together: their session is in recovery or leaves, with this last renewal, or their process has exited.
#[derive(Clone, Copy)]
pub enum Refusal {
    Late { renewed: u64 },
    Gone { process: u32 },
}

impl Refusal {
    /// The reply to each.
    fn reply(self) -> Reply
        ensures exact { result ≡ reply_of self }
        ensures plain { is_join_done result ≡ false }
    {
        match self {
            Refusal::Late { renewed } => Reply::Recovering { renewed },
            Refusal::Gone { process } => Reply::NoProcess { process },
        }
    }
}

/// The jobs of these numbers are refused.
fn refuse_noted(host: &mut Host, numbers: &Notes<u64>, refusal: Refusal)
    requires { length numbers.now.items ≤ host.old.left }
    ensures state { Becomes host.old host.new (replying_to numbers.now.items (reply_of refusal)) }
    ensures left { Spends host.old host.new (length numbers.now.items) 0 }
    ensures run { SameRun host.old host.new }
{
    for place in 0..numbers.len() {
        host.reply(*numbers.nth(place), refusal.reply());
    }
}

/// The running jobs that were chosen are refused, by number, each with this refusal's reply.
pub fn refuse_chosen(host: &mut Host, numbers: &mut Notes<u64>, chosen: &Chosen, refusal: Refusal)
    requires room { length host.old.kept.jobs ≤ numbers.old.most }
    requires left { length (chosen_among chosen.now host.old.kept.jobs) ≤ host.old.left }
    ensures state { Becomes host.old host.new (refusing_by chosen.now (reply_of refusal)) }
    ensures left { Spends host.old host.new (length (chosen_among chosen.now host.old.kept.jobs)) 0 }
    ensures run { SameRun host.old host.new }
    ensures notes { numbers.new.most ≡ numbers.old.most }
{
    host.note_jobs(chosen, numbers);
    refuse_noted(host, numbers, refusal);
}

/// The holders of a session are told to stop, and the jobs that name its lockspace are refused, but one.
pub fn stop(host: &mut Host, numbers: &mut Notes<u64>, stopped: Stopped, but: Option<u64>)
    requires room { length host.old.kept.jobs ≤ numbers.old.most }
    requires left { length (holders_under stopped.session host.old.kept.holdings) + length (chosen_among (OfLockspace stopped.lockspace but) host.old.kept.jobs) ≤ host.old.left }
    ensures state { Becomes host.old host.new (stopping stopped but) }
    ensures left { Spends host.old host.new (length (holders_under stopped.session host.old.kept.holdings) + length (chosen_among (OfLockspace stopped.lockspace but) host.old.kept.jobs)) 0 }
    ensures run { SameRun host.old host.new }
    ensures notes { numbers.new.most ≡ numbers.old.most }
{
    signal_holders(host, stopped.session, Signal::Term);
    let chosen = Chosen::OfLockspace {
        name: stopped.lockspace,
        but,
    };
    let refusal = Refusal::Late {
        renewed: stopped.renewed,
    };
    refuse_chosen(host, numbers, &chosen, refusal);
}

/// The lockspace of a joining, where no write of it is unanswered.
fn without_write(host: &Host, member: &Member) -> Option<Name>
    ensures { result ≡ parted_with (unread host.now.kept) (Some member.now.state) }
{
    if host.has_write_open(member.who().number) {
        None
    } else {
        Some(member.who().lockspace)
    }
}

/// The lockspace of the joining that the job is, where no write of it is unanswered.
#[tactic(auto, using(crate::proofs::RefusalsStand::parted_some, crate::proofs::RefusalsStand::parted_none))]
fn parted(host: &Host, job: u64) -> Option<Name>
    ensures { result ≡ parted_with (unread host.now.kept) (find (λ s. some_is (λ j. j == job) s.who.job) host.now.kept.members) }
{
    match host.members().joining(job) {
        Some(member) => without_write(host, member),
        None => None,
    }
}

/// The job is refused, and a joining that it is loses its connection, unless a write of it is unanswered.
pub fn refuse(host: &mut Host, job: u64, reply: Reply)
    requires left { 2 ≤ host.old.left }
    requires plain { is_join_done reply ≡ false }
    ensures state { Becomes host.old host.new (refusing job reply) }
    ensures left { Spends host.old host.new 2 0 }
    ensures run { SameRun host.old host.new }
{
    let parted = parted(host, job);
    host.reply(job, reply);
    if let Some(lockspace) = parted {
        remove_connection(host, &lockspace);
    }
}

/// The recovery of the member of this number begins, where it does in this step: its holders are told to stop, its jobs are refused.
pub fn recover(host: &mut Host, numbers: &mut Notes<u64>, number: u64)
    requires room { length host.old.kept.jobs ≤ numbers.old.most }
    requires left { stopping_cost host.old.kept (recovering_of (unread host.old.kept) (member_with number host.old.kept.members)) ≤ host.old.left }
    ensures state { Becomes host.old host.new (at_member number recovering_in) }
    ensures left { Spends host.old host.new (stopping_cost host.old.kept (recovering_of (unread host.old.kept) (member_with number host.old.kept.members))) 0 }
    ensures run { SameRun host.old host.new }
    ensures notes { numbers.new.most ≡ numbers.old.most }
{
    match recovering_numbered(host, number) {
        Some(stopped) => stop(host, numbers, stopped, None),
        None => {}
    }
}

/// The jobs that are for a process that has exited, or wait for it, are refused.
pub fn refuse_of_process(host: &mut Host, numbers: &mut Notes<u64>, process: u32)
    requires room { length host.old.kept.jobs ≤ numbers.old.most }
    requires left { length (chosen_among (OfProcess process) host.old.kept.jobs) ≤ host.old.left }
    ensures state { Becomes host.old host.new (refusing_of process) }
    ensures left { Spends host.old host.new (length (chosen_among (OfProcess process) host.old.kept.jobs)) 0 }
    ensures run { SameRun host.old host.new }
    ensures notes { numbers.new.most ≡ numbers.old.most }
{
    let chosen = Chosen::OfProcess { process };
    refuse_chosen(host, numbers, &chosen, Refusal::Gone { process });
}

/// The job of this number is refused where its call is overdue.
pub fn time_out(host: &mut Host, number: u64)
    requires { 2 ≤ host.old.left }
    ensures state { Becomes host.old host.new (at_job number timing_out) }
    ensures left { Spends host.old host.new 2 0 }
    ensures run { SameRun host.old host.new }
{
    if let Some(call) = overdue(host, number) {
        let reply = Reply::IoTimeout {
            call: call.number,
            from: call.reading,
            to: host.reading(),
        };
        refuse(host, number, reply);
    }
}
