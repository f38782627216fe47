//! Replies: a job is over, and a joining with it.

ghost use Rattle.sl_host_state.specs.MadeEffects.{with_reply};
ghost use Rattle.sl_member.specs.HostMembers.{AreApart, is_joining_by};
ghost use Rattle.sl_trace.specs.Sessions.{is_join_done};
ghost use Rattle.sl_trace.specs.declared.reply.Reply.TheVariants.{Generation};
ghost use Rattle.sl_host.specs.Host.{Becomes, SameRun};
ghost use Rattle.sl_host.specs.ReplyJoinings.{HasClaims, joined_by, moments_by, refused_at, refused_by, writes_in};
ghost use Rattle.sl_words.specs.Words.{some_is};
ghost use Rattle.std.specs.List.{flat_map};
ghost use Rattle.std.specs.Prelude.{cond, false, find, fold, map, min, option_map, ◌+◌, ◌-◌, ◌<◌, ◌==◌, ◌≡◌};

use crate::host::Host;
use sl_member::{Member, Members};
use sl_tables::OpenCalls;
use sl_time::Timing;
use sl_trace::Reply;

/// The number of the first member that is joining by this job. All numbers are apart.
fn joining_number(members: &Members, job: u64) -> Option<u64>
    ensures found { result ≡ option_map (λ s. s.who.number) (find (is_joining_by job) members.now.members) }
    ensures apart { AreApart (map (λ s. s.who.number) members.now.members) }
{
    match members.joining_by(job) {
        Some(member) => Some(member.who().number),
        None => None,
    }
}

/// The joining of the member of this number is refused: it is there while a write of it is unanswered.
#[tactic(auto, using(crate::proofs::RepliesStand::changed_is, crate::proofs::RepliesStand::removed_is))]
fn refuse(members: &mut Members, unanswered: &OpenCalls, number: u64)
    ensures members { members.new.members ≡ flat_map (refused_at unanswered.now.calls number) members.old.members }
    ensures run { (members.new.run ≡ members.old.run) × (members.new.room ≡ members.old.room) × (members.new.most ≡ members.old.most) }
{
    if unanswered.has_write(number) {
        members.refuses(number);
    } else {
        members.remove(number);
    }
}

/// The joinings by this job are refused.
fn refuse_joinings(members: &mut Members, unanswered: &OpenCalls, job: u64)
    ensures members { members.new.members ≡ flat_map (refused_by unanswered.now.calls job) members.old.members }
    ensures run { (members.new.run ≡ members.old.run) × (members.new.room ≡ members.old.room) × (members.new.most ≡ members.old.most) }
{
    while let Some(number) = joining_number(members, job) {
        refuse(members, unanswered, number);
    }
}

/// The joinings by this job are done.
#[tactic(auto, using(crate::proofs::RepliesStand::claimed_at, crate::proofs::RepliesStand::claims_stay))]
fn finish_joinings(members: &mut Members, job: u64)
    requires { HasClaims job members.old.members }
    ensures members { members.new.members ≡ flat_map (joined_by job) members.old.members }
    ensures run { (members.new.run ≡ members.old.run) × (members.new.room ≡ members.old.room) × (members.new.most ≡ members.old.most) }
{
    while let Some(number) = joining_number(members, job) {
        members.joins(number);
    }
}

/// The lesser of a moment and one that is so long after another.
pub(crate) fn lowered_after(moment: u64, since: u64, time: u64) -> u64
    ensures { result ≡ min moment (since + time) }
{
    if since <= moment && time < moment - since {
        since + time
    } else {
        moment
    }
}

/// A moment lowered to that of a member's recovery, where it is of this job.
fn lowered_for(member: &Member, job: u64, fail: u64, moment: u64) -> u64
    ensures { result ≡ cond (some_is (λ j. j == job) member.now.state.who.job) (min moment (member.now.state.renewing.last + fail)) moment }
{
    match member.who().job {
        Some(number) if number == job => lowered_after(moment, member.renewing().last, fail),
        _ => moment,
    }
}

/// A moment lowered to those of recovery of the members of this job.
#[tactic(auto)]
fn lowered_by(members: &Members, timing: &Timing, job: u64, moment: u64) -> u64
    ensures { result ≡ fold (λ q now. min q now) moment (moments_by timing.now job members.now.members) }
{
    let mut lowest = moment;
    for place in 0..members.len() {
        lowest = lowered_for(members.nth(place), job, timing.fail(), lowest);
    }
    lowest
}

impl Host {
    /// Whether a write of the session is unanswered.
    pub fn has_write_open(&self, session: u64) -> bool
        ensures { result ≡ writes_in self.now.kept.unanswered session }
    {
        self.books.unanswered.has_write(session)
    }

    /// One more reply, to a job that is over by it. A joining of it is refused.
    pub fn reply(&mut self, job: u64, reply: Reply)
        requires left { 0 < self.old.left }
        requires plain { is_join_done reply ≡ false }
        ensures state { Becomes self.old self.new (with_reply job reply) }
        ensures left { (self.new.left ≡ self.old.left - 1) × (self.new.calls ≡ self.old.calls) }
        ensures run { SameRun self.old self.new }
    {
        refuse_joinings(&mut self.members, &self.books.unanswered, job);
        self.books.reply(job, reply);
    }

    /// The reply to a joining that is done: its session is joined, under this generation.
    pub fn join_done(&mut self, job: u64, generation: u64)
        requires left { 0 < self.old.left }
        requires claimed { HasClaims job self.old.kept.members }
        ensures state { Becomes self.old self.new (with_reply job (Generation generation)) }
        ensures left { (self.new.left ≡ self.old.left - 1) × (self.new.calls ≡ self.old.calls) }
        ensures run { SameRun self.old self.new }
    {
        let quiet_until = lowered_by(
            &self.members,
            &self.books.config.timing,
            job,
            self.books.quiet_until,
        );
        finish_joinings(&mut self.members, job);
        self.books.reply(job, Reply::Generation { generation });
        self.books.quiet_until = quiet_until;
    }
}
