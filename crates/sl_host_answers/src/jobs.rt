//! The job that made a call is answered by the call's end: a request or a value is written, a value is read, or the call failed. Where the
//! session is gone that made the call, nothing is told.

ghost use Rattle.sl_due.specs.DueRequests.{value_reply};
ghost use Rattle.sl_host_law.specs.Answers.Requests.{answering_job};
ghost use Rattle.sl_host_law.specs.Questions.Answers.{set_reply_in};
ghost use Rattle.sl_host_law.specs.Steps.Passes.{at_member};
ghost use Rattle.sl_host_state.specs.MadeEffects.{with_reply};
ghost use Rattle.sl_member.specs.HostMembers.{member_with};
ghost use Rattle.sl_trace.specs.Sessions.{is_join_done};
ghost use Rattle.sl_trace.specs.declared.input.Answer.TheVariants.{Failed, Read, Written};
ghost use Rattle.sl_trace.specs.declared.reply.Reply.TheVariants.{Done};
ghost use Rattle.sl_host.specs.Host.{Becomes, SameRun, Spends};
ghost use Rattle.std.specs.Prelude.{IsTrue, false, is_some, length, ◌≡◌, ◌≤◌};

use crate::requests::answer_value;
use sl_host::Host;
use sl_host_state::OpenCall;
use sl_lease::Sectors;
use sl_trace::Reply;

/// The call of a job failed: the job is answered so, if it runs.
pub fn answer_failed(host: &mut Host, call: &OpenCall, job: u64)
    requires left { 1 ≤ host.old.left }
    ensures state { Becomes host.old host.new (answering_job job call.now Failed (λ bytes g. g) (λ g. g)) }
    ensures left { Spends host.old host.new 1 0 }
    ensures run { SameRun host.old host.new }
{
    if host.runs(job) {
        host.reply(job, Reply::IoFault { call: call.number });
    }
}

/// A request is written: its job is done, if it runs.
pub fn answer_requested(host: &mut Host, call: &OpenCall, job: u64)
    requires left { 1 ≤ host.old.left }
    ensures state { Becomes host.old host.new (answering_job job call.now Written (λ bytes g. g) (with_reply job Done)) }
    ensures left { Spends host.old host.new 1 0 }
    ensures run { SameRun host.old host.new }
{
    if host.runs(job) {
        host.reply(job, Reply::Done);
    }
}

/// The reply to a write of a value: the version that it has.
fn set_reply(call: &OpenCall) -> Reply
    ensures exact { result ≡ set_reply_in call.now }
    ensures plain { is_join_done result ≡ false }
{
    match call.value {
        Some(value) => Reply::ValueSet {
            lver: value.lver,
            seq: value.seq,
        },
        None => Reply::Done,
    }
}

/// A value is written: its job is told the version, if it runs.
pub fn answer_set(host: &mut Host, call: &OpenCall, job: u64)
    requires left { 1 ≤ host.old.left }
    ensures state { Becomes host.old host.new (answering_job job call.now Written (λ bytes g. g) (with_reply job (set_reply_in call.now))) }
    ensures left { Spends host.old host.new 1 0 }
    ensures run { SameRun host.old host.new }
{
    if host.runs(job) {
        host.reply(job, set_reply(call));
    }
}

// ---- jobs, while the session is there that made the call

/// Whether a member has this number.
fn is_member(host: &Host, number: u64) -> bool
    ensures { result ≡ is_some (member_with number host.now.kept.members) }
{
    match host.members().numbered(number) {
        Some(_) => true,
        None => false,
    }
}

/// The call was answered failed: its job is refused so, if it still runs.
pub(crate) fn job_failed(host: &mut Host, call: &OpenCall, job: u64)
    requires { 1 ≤ host.old.left }
    ensures state { Becomes host.old host.new (at_member call.now.session (λ m. answering_job job call.now Failed (λ bytes x. x) (λ x. x))) }
    ensures left { Spends host.old host.new 1 0 }
    ensures run { SameRun host.old host.new }
{
    if is_member(host, call.session) {
        answer_failed(host, call, job);
    }
}

/// The job's request was written: it is done, if it still runs.
pub(crate) fn job_requested(host: &mut Host, call: &OpenCall, job: u64)
    requires { 1 ≤ host.old.left }
    ensures state { Becomes host.old host.new (at_member call.now.session (λ m. answering_job job call.now Written (λ bytes x. x) (with_reply job Done))) }
    ensures left { Spends host.old host.new 1 0 }
    ensures run { SameRun host.old host.new }
{
    if is_member(host, call.session) {
        answer_requested(host, call, job);
    }
}

/// The job's value was written: it is done, if it still runs.
pub(crate) fn job_set(host: &mut Host, call: &OpenCall, job: u64)
    requires { 1 ≤ host.old.left }
    ensures state { Becomes host.old host.new (at_member call.now.session (λ m. answering_job job call.now Written (λ bytes x. x) (with_reply job (set_reply_in call.now)))) }
    ensures left { Spends host.old host.new 1 0 }
    ensures run { SameRun host.old host.new }
{
    if is_member(host, call.session) {
        answer_set(host, call, job);
    }
}

/// The job's value was read: it is told, or that its sector is torn, if the job still runs.
pub(crate) fn job_value<S: Sectors>(host: &mut Host, call: &OpenCall, job: u64, sectors: &S)
    requires left { 1 ≤ host.old.left }
    requires cut { IsTrue (S.is_cut sectors.now host.old.kept.config.sizes.sector) }
    requires one { length (S.bytes sectors.now) ≡ host.old.kept.config.sizes.sector }
    ensures state { Becomes host.old host.new (at_member call.now.session (λ m. answering_job job call.now (Read (S.bytes sectors.now)) (λ bytes x. with_reply job (value_reply x.config.layout bytes) x) (λ x. x))) }
    ensures left { Spends host.old host.new 1 0 }
    ensures run { SameRun host.old host.new }
{
    if is_member(host, call.session) {
        answer_value(host, call, job, sectors);
    }
}
