//! Calls on ids' own sectors, answered: a joining goes on, a renewal counts, a leaving ends.
//!
//! What a joining does next is decided before the host hears the answer, since hearing may take its member out; it is done once the host has.

ghost use Rattle.sl_delta.specs.DeltaDecisions.{IsFitNext};
ghost use Rattle.sl_delta.specs.OwnSector.{answer_in};
ghost use Rattle.sl_host_answers.specs.Facts.{JoinKnown};
ghost use Rattle.sl_host_answers.specs.JoiningAnswers.{join_answer, joining_by, parting};
ghost use Rattle.sl_host_law.specs.Answers.CarriedDecisions.{carrying};
ghost use Rattle.sl_host_law.specs.Steps.Passes.{at_member};
ghost use Rattle.sl_host_work.specs.NextDecisions.{IsPlain};
ghost use Rattle.sl_host_work.specs.SectorPlaces.{IsPlaced};
ghost use Rattle.sl_host_work.specs.TimedWork.{ArePlaced};
ghost use Rattle.sl_member.specs.HostMembers.{member_with};
ghost use Rattle.sl_trace.specs.DeltaDecisions.{next_after_free, next_after_renewal};
ghost use Rattle.sl_trace.specs.Sessions.{is_join_done};
ghost use Rattle.sl_trace.specs.declared.delta.DeltaNext.TheVariants.{EndLeaving};
ghost use Rattle.sl_trace.specs.declared.input.Answer.TheVariants.{Failed, Written};
ghost use Rattle.sl_host.specs.BookQuestions.{state_in};
ghost use Rattle.sl_host.specs.Host.{Becomes, SameRun, Spends};
ghost use Rattle.sl_words.specs.Bounds.{moments};
ghost use Rattle.std.specs.Prelude.{IfSome, Some, false, is_some, option_map, ◌<◌, ◌≡◌, ◌≤◌};

use sl_delta::SectorAnswer;
use sl_host::Host;
use sl_host_state::OpenCall;
use sl_host_work::{carry, remove_connection};
use sl_member::Member;
use sl_trace::{DeltaNext, JoinStep, Reply, Session};

// ---- joinings

/// What an answer of a joining comes to: its session, whether the joining was refused before, and what it does next, while its job runs.
#[derive(Drop)]
pub struct JoinAnswer {
    pub who: Session,
    pub refused: bool,
    pub next: DeltaNext,
}

/// That of a member. It has not heard the answer.
#[tactic(auto, using(sl_host_work::proofs::PlainLaws::deltas_are_plain))]
fn join_answer(
    host: &Host,
    member: &Member,
    call: &OpenCall,
    step: JoinStep,
    answer: &SectorAnswer,
) -> JoinAnswer
    requires run { member.now.run ≡ record { timing = host.now.kept.config.timing; sizes = host.now.kept.config.sizes; host = host.now.kept.config.name } }
    requires moments { (host.now.kept.reading < moments) × (call.now.reading < moments) }
    ensures exact { result ≡ join_answer (state_in host.now.kept) call.now step (answer_in answer.now) member.now.state }
    ensures fit { IsFitNext result.next × IsPlain result.next }
{
    JoinAnswer {
        who: *member.who(),
        refused: member.is_refused(),
        next: member.after_join(host.reading(), call.number, call.reading, step, answer),
    }
}

/// That of the session of the call, if it is a member. The host has not heard the answer.
pub fn decide_joining(
    host: &Host,
    call: &OpenCall,
    step: JoinStep,
    answer: &SectorAnswer,
) -> Option<JoinAnswer>
    requires moments { (host.now.kept.reading < moments) × (call.now.reading < moments) }
    ensures exact { result ≡ option_map (join_answer (state_in host.now.kept) call.now step (answer_in answer.now)) (member_with call.now.session host.now.kept.members) }
    ensures fit { IfSome result (λ f. IsFitNext f.next × IsPlain f.next) }
{
    match host.members().numbered(call.session) {
        Some(member) => Some(join_answer(host, member, call, step, answer)),
        None => None,
    }
}

/// A joining that was refused loses its connection with its last write.
fn part(host: &mut Host, who: &Session, refused: bool)
    requires { 1 ≤ host.old.left }
    ensures state { Becomes host.old host.new (parting who.now refused) }
    ensures left { Spends host.old host.new 1 0 }
    ensures run { SameRun host.old host.new }
{
    if refused && !host.has_write_open(who.number) {
        remove_connection(host, &who.lockspace);
    }
}

/// A joining goes on by what was decided, while its job runs.
pub fn answer_joining(host: &mut Host, found: JoinAnswer, job: u64)
    requires left { 2 ≤ host.old.left }
    requires calls { 1 ≤ host.old.calls }
    requires known { JoinKnown host.old.kept found }
    requires fit { IsFitNext found.next × IsPlain found.next }
    ensures state { Becomes host.old host.new (joining_by found job) }
    ensures left { Spends host.old host.new 2 1 }
    ensures run { SameRun host.old host.new }
{
    let JoinAnswer { who, refused, next } = found;
    if host.runs(job) {
        carry(host, &who, next);
    } else {
        part(host, &who, refused);
    }
}

// ---- renewals and leavings

/// The session of this number, if a member is, and whether it is in recovery.
fn renewing_of(host: &Host, number: u64) -> Option<(Session, bool)>
    requires { ArePlaced host.now.kept }
    ensures exact { result ≡ option_map (λ m. (m.who, is_some m.renewing.recovery)) (member_with number host.now.kept.members) }
    ensures placed { IfSome result (λ r. IsPlaced host.now.kept.config.sizes r.0) }
{
    match host.members().numbered(number) {
        Some(member) => Some((*member.who(), member.renewing().recovery.is_some())),
        None => None,
    }
}

/// The connection moves after a renewal that is written, unless the session is in recovery, and all ids are read.
fn move_renewed(host: &mut Host, who: &Session, recovering: bool, renewed: u64)
    requires left { 2 ≤ host.old.left }
    requires calls { 1 ≤ host.old.calls }
    requires moments { (host.old.kept.reading < moments) × (renewed < moments) }
    requires placed { IsPlaced host.old.kept.config.sizes who.now }
    ensures state { Becomes host.old host.new (carrying who.now (next_after_renewal recovering renewed Written)) }
    ensures left { Spends host.old host.new 2 1 }
    ensures run { SameRun host.old host.new }
{
    if !recovering {
        carry(host, who, DeltaNext::MoveConnection { renewed });
    }
}

/// A renewal of the session of a call is written: its connection moves, unless it is in recovery, and all ids are read.
pub fn answer_renewed(host: &mut Host, call: &OpenCall)
    requires left { 2 ≤ host.old.left }
    requires calls { 1 ≤ host.old.calls }
    requires moments { (host.old.kept.reading < moments) × (call.now.reading < moments) }
    requires placed { ArePlaced host.old.kept }
    ensures state { Becomes host.old host.new (at_member call.now.session (λ m. carrying m.who (next_after_renewal (is_some m.renewing.recovery) call.now.reading Written))) }
    ensures left { Spends host.old host.new 2 1 }
    ensures run { SameRun host.old host.new }
{
    match renewing_of(host, call.session) {
        Some((who, recovering)) => move_renewed(host, &who, recovering, call.reading),
        None => {}
    }
}

/// The leaving of the session of this number is over: its job has this reply.
fn end_leaving(host: &mut Host, number: u64, job: u64, reply: Reply)
    requires left { 2 ≤ host.old.left }
    requires calls { 1 ≤ host.old.calls }
    requires moment { host.old.kept.reading < moments }
    requires placed { ArePlaced host.old.kept }
    requires plain { is_join_done reply ≡ false }
    ensures state { Becomes host.old host.new (at_member number (λ m. carrying m.who (EndLeaving job reply))) }
    ensures left { Spends host.old host.new 2 1 }
    ensures run { SameRun host.old host.new }
{
    match renewing_of(host, number) {
        Some((who, _)) => carry(host, &who, DeltaNext::EndLeaving { job, reply }),
        None => {}
    }
}

/// The free of the session of a call is written, for the job of its leaving.
pub fn answer_freed(host: &mut Host, call: &OpenCall, job: u64)
    requires left { 2 ≤ host.old.left }
    requires calls { 1 ≤ host.old.calls }
    requires moment { host.old.kept.reading < moments }
    requires placed { ArePlaced host.old.kept }
    ensures state { Becomes host.old host.new (at_member call.now.session (λ m. carrying m.who (next_after_free job call.now.number Written))) }
    ensures left { Spends host.old host.new 2 1 }
    ensures run { SameRun host.old host.new }
{
    end_leaving(host, call.session, job, Reply::Done);
}

/// The write of the free has failed.
pub fn answer_free_failed(host: &mut Host, call: &OpenCall, job: u64)
    requires left { 2 ≤ host.old.left }
    requires calls { 1 ≤ host.old.calls }
    requires moment { host.old.kept.reading < moments }
    requires placed { ArePlaced host.old.kept }
    ensures state { Becomes host.old host.new (at_member call.now.session (λ m. carrying m.who (next_after_free job call.now.number Failed))) }
    ensures left { Spends host.old host.new 2 1 }
    ensures run { SameRun host.old host.new }
{
    let reply = Reply::IoFault { call: call.number };
    end_leaving(host, call.session, job, reply);
}
