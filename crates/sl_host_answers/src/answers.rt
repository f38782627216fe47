//! The whole of an answer: the host hears it, and what the purpose of its call makes due is done.
//!
//! An answer comes as it is at hand (`Heard`): a joining's read by its sector, which the session shares with whoever read it, any other read by its
//! sectors. What a joining does next is decided before the host hears it; all else is asked of the host that has heard. The session of a call may be
//! gone: then the answer is heard, and does nothing.

ghost use Rattle.sl_delta.specs.OwnSector.{answer_in};
ghost use Rattle.sl_host_answers.specs.WholeAnswers.{CanAnswer, FitsHeard, FitsSectors, MayAnswer, answer_of, calls_for, calls_of, effects_for, effects_of, is_job_call, is_joining_purpose, is_writing, joined_on};
ghost use Rattle.sl_trace.specs.Sessions.{is_survey_purpose};
ghost use Rattle.sl_host_answers.specs.Facts.{JoinKnown};
ghost use Rattle.sl_host_answers.specs.Surveys.{leases_of};
ghost use Rattle.sl_host_answers.specs.declared.own_sectors.JoinAnswer.{JoinAnswer as JoinAnswerOf};
ghost use Rattle.sl_delta.specs.DeltaDecisions.{IsFitNext};
ghost use Rattle.sl_host_law.specs.Replies.Answers.{IsOpen};
ghost use Rattle.sl_host_law.specs.Steps.Answers.{answering};
ghost use Rattle.sl_host_state.specs.declared.kept_parts.OpenCall.{OpenCall as OpenCallOf};
ghost use Rattle.sl_host_work.specs.NextDecisions.{IsPlain};
ghost use Rattle.sl_lease.specs.Reads.{CanRead, HasPlaces};
ghost use Rattle.sl_trace.specs.declared.effects.Purpose.TheVariants.{Joining, Lease as LeaseWork, Leaving, Renewal, RequestRead, RequestWrite, SeeRequest, Survey, ValueRead, ValueWrite};
ghost use Rattle.sl_trace.specs.declared.input.Answer.TheVariants.{Failed, Read, Written};
ghost use Rattle.sl_host.specs.BookQuestions.{state_in};
ghost use Rattle.sl_host.specs.Host.{Becomes, SameRun, Spends};
ghost use Rattle.std.specs.Arc.{arc_value};
ghost use Rattle.std.specs.Prelude.{IfSome, IsTrue, Some, false, find, is_some, length, true, ◌*◌, ◌+◌, ◌==◌, ◌≡◌, ◌≤◌};

use crate::jobs::{job_failed, job_requested, job_set, job_value};
use crate::leases::{answer_lease_failed, answer_lease_read, answer_lease_written};
use crate::looks::answer_look;
use crate::own_sectors::{
    JoinAnswer, answer_free_failed, answer_freed, answer_joining, answer_renewed, decide_joining,
};
use crate::requests::answer_request;
use crate::surveys::answer_survey;
use sl_delta::SectorAnswer;
use sl_host::{Host, Notes};
use sl_host_state::OpenCall;
use sl_lease::{Blocks, Sectors};
use sl_sector::Image;
use sl_trace::{JoinStep, LeaseStep, Purpose, Spot, Work};
use std::sync::Arc;

/// An answer: the one sector that a joining's call read, the sectors that another one read, that the call is written, or that it failed.
#[derive(Drop)]
pub enum Heard<'a, S> {
    Sector(Arc<Image>),
    Sectors(&'a S),
    Written,
    Failed,
}

// ---- calls on own sectors

/// A joining goes on as it was decided, if its session was there.
fn go_on(host: &mut Host, found: Option<JoinAnswer>, job: u64)
    requires left { 2 ≤ host.old.left }
    requires calls { 1 ≤ host.old.calls }
    requires known { (f : JoinAnswerOf) → found ≡ Some f → JoinKnown host.old.kept f }
    requires fit { IfSome found (λ f. IsFitNext f.next × IsPlain f.next) }
    ensures state { Becomes host.old host.new (joined_on job found) }
    ensures left { Spends host.old host.new 2 1 }
    ensures run { SameRun host.old host.new }
{
    match found {
        Some(found) => answer_joining(host, found, job),
        None => {}
    }
}

/// A call of a joining is answered.
fn hear_joining(host: &mut Host, call: &OpenCall, job: u64, step: JoinStep, answer: SectorAnswer)
    requires may { MayAnswer host.old.kept call.now (answer_in answer) }
    requires purpose { call.now.purpose ≡ Joining job step }
    requires left { 2 ≤ host.old.left }
    requires calls { 1 ≤ host.old.calls }
    ensures state { Becomes host.old host.new (answering call.now.number (answer_in answer)) }
    ensures left { Spends host.old host.new 2 1 }
    ensures run { SameRun host.old host.new }
{
    let found = decide_joining(host, call, step, &answer);
    host.hear_own(call, answer);
    go_on(host, found, job);
}

/// A renewal is written.
fn hear_renewed(host: &mut Host, call: &OpenCall)
    requires may { MayAnswer host.old.kept call.now Written }
    requires purpose { call.now.purpose ≡ Renewal }
    requires left { 2 ≤ host.old.left }
    requires calls { 1 ≤ host.old.calls }
    ensures state { Becomes host.old host.new (answering call.now.number Written) }
    ensures left { Spends host.old host.new 2 1 }
    ensures run { SameRun host.old host.new }
{
    host.hear_own(call, SectorAnswer::Written);
    answer_renewed(host, call);
}

/// The write of a renewal was answered failed: it counts for nothing.
fn hear_not_renewed(host: &mut Host, call: &OpenCall)
    requires may { MayAnswer host.old.kept call.now Failed }
    requires purpose { call.now.purpose ≡ Renewal }
    ensures state { Becomes host.old host.new (answering call.now.number Failed) }
    ensures left { Spends host.old host.new 0 0 }
    ensures run { SameRun host.old host.new }
{
    host.hear_own(call, SectorAnswer::Failed);
}

/// The free of a leaving is written.
fn hear_freed(host: &mut Host, call: &OpenCall, job: u64)
    requires may { MayAnswer host.old.kept call.now Written }
    requires purpose { call.now.purpose ≡ Leaving job }
    requires left { 2 ≤ host.old.left }
    requires calls { 1 ≤ host.old.calls }
    ensures state { Becomes host.old host.new (answering call.now.number Written) }
    ensures left { Spends host.old host.new 2 1 }
    ensures run { SameRun host.old host.new }
{
    host.hear_own(call, SectorAnswer::Written);
    answer_freed(host, call, job);
}

/// The free of a leaving was answered failed: the leaving is over all the same.
fn hear_not_freed(host: &mut Host, call: &OpenCall, job: u64)
    requires may { MayAnswer host.old.kept call.now Failed }
    requires purpose { call.now.purpose ≡ Leaving job }
    requires left { 2 ≤ host.old.left }
    requires calls { 1 ≤ host.old.calls }
    ensures state { Becomes host.old host.new (answering call.now.number Failed) }
    ensures left { Spends host.old host.new 2 1 }
    ensures run { SameRun host.old host.new }
{
    host.hear_own(call, SectorAnswer::Failed);
    answer_free_failed(host, call, job);
}

// ---- reads of all ids

/// All ids are read.
fn hear_survey<S: Sectors>(
    host: &mut Host,
    numbers: &mut Notes<u64>,
    spots: &mut Notes<Spot>,
    call: &OpenCall,
    sectors: &S,
)
    requires may { MayAnswer host.old.kept call.now (Read (S.bytes sectors.now)) }
    requires purpose { call.now.purpose ≡ Survey }
    requires room { length host.old.kept.jobs ≤ numbers.old.most }
    requires places { leases_of call.now.session host.old.kept ≤ spots.old.most }
    requires left { length host.old.kept.holdings + length host.old.kept.jobs ≤ host.old.left }
    requires calls { leases_of call.now.session host.old.kept ≤ host.old.calls }
    requires cut { IsTrue (S.is_cut sectors.now host.old.kept.config.sizes.sector) }
    requires all { length (S.bytes sectors.now) ≡ host.old.kept.config.sizes.hosts * host.old.kept.config.sizes.sector }
    ensures state { Becomes host.old host.new (answering call.now.number (Read (S.bytes sectors.now))) }
    ensures left { Spends host.old host.new (length host.old.kept.holdings + length host.old.kept.jobs) (leases_of call.now.session host.old.kept) }
    ensures run { SameRun host.old host.new }
    ensures notes { (numbers.new.most ≡ numbers.old.most) × (spots.new.most ≡ spots.old.most) }
{
    host.hear_survey(call, sectors);
    answer_survey(host, numbers, spots, call, sectors);
}

/// They could not be read.
fn hear_no_survey(host: &mut Host, call: &OpenCall)
    requires may { MayAnswer host.old.kept call.now Failed }
    requires purpose { call.now.purpose ≡ Survey }
    ensures state { Becomes host.old host.new (answering call.now.number Failed) }
    ensures left { Spends host.old host.new 0 0 }
    ensures run { SameRun host.old host.new }
{
    host.hear_no_survey(call);
}

// ---- work on leases

/// A read of a lease's work is answered.
fn hear_lease_read<S: Sectors>(
    host: &mut Host,
    blocks: &mut Blocks,
    call: &OpenCall,
    work: Work,
    step: LeaseStep,
    sectors: &S,
)
    requires may { MayAnswer host.old.kept call.now (Read (S.bytes sectors.now)) }
    requires purpose { call.now.purpose ≡ LeaseWork work step }
    requires fits { FitsSectors host.old.kept.config.sizes call.now (length (S.bytes sectors.now)) }
    requires cut { IsTrue (S.is_cut sectors.now host.old.kept.config.sizes.sector) }
    requires can { CanRead host.old.kept.config.sizes blocks.old }
    requires left { 3 ≤ host.old.left }
    requires calls { 1 ≤ host.old.calls }
    ensures state { Becomes host.old host.new (answering call.now.number (Read (S.bytes sectors.now))) }
    ensures left { Spends host.old host.new 3 1 }
    ensures run { SameRun host.old host.new }
    ensures places { HasPlaces host.old.kept.config.sizes blocks.new }
{
    let same_work = work;
    let same_step = step;
    let told = host.hear_lease_read(call, same_work, same_step, sectors, blocks);
    answer_lease_read(host, call, work, step, &told, blocks.as_slice());
}

/// A write of it is done.
fn hear_lease_written(host: &mut Host, call: &OpenCall, work: Work, step: LeaseStep)
    requires may { MayAnswer host.old.kept call.now Written }
    requires purpose { call.now.purpose ≡ LeaseWork work step }
    requires left { 3 ≤ host.old.left }
    requires calls { 1 ≤ host.old.calls }
    ensures state { Becomes host.old host.new (answering call.now.number Written) }
    ensures left { Spends host.old host.new 3 1 }
    ensures run { SameRun host.old host.new }
{
    let same_work = work;
    let same_step = step;
    host.hear_lease_written(call, same_work, same_step);
    answer_lease_written(host, call, work, step);
}

/// A call of it failed.
fn hear_lease_failed(host: &mut Host, call: &OpenCall, work: Work, step: LeaseStep)
    requires may { MayAnswer host.old.kept call.now Failed }
    requires purpose { call.now.purpose ≡ LeaseWork work step }
    requires left { 3 ≤ host.old.left }
    requires calls { 1 ≤ host.old.calls }
    ensures state { Becomes host.old host.new (answering call.now.number Failed) }
    ensures left { Spends host.old host.new 3 1 }
    ensures run { SameRun host.old host.new }
{
    let same_work = work;
    let same_step = step;
    host.hear_lease_failed(call, same_work, same_step);
    answer_lease_failed(host, call, work, step);
}

// ---- requests and values

/// Leader and request are read for a job.
fn hear_request<S: Sectors>(host: &mut Host, call: &OpenCall, job: u64, sectors: &S)
    requires may { MayAnswer host.old.kept call.now (Read (S.bytes sectors.now)) }
    requires purpose { call.now.purpose ≡ RequestRead job }
    requires cut { IsTrue (S.is_cut sectors.now host.old.kept.config.sizes.sector) }
    requires two { length (S.bytes sectors.now) ≡ 2 * host.old.kept.config.sizes.sector }
    requires left { 1 ≤ host.old.left }
    requires calls { 1 ≤ host.old.calls }
    ensures state { Becomes host.old host.new (answering call.now.number (Read (S.bytes sectors.now))) }
    ensures left { Spends host.old host.new 1 1 }
    ensures run { SameRun host.old host.new }
{
    host.hear_untold(call);
    answer_request(host, call, job, sectors);
}

/// Its request is written.
fn hear_requested(host: &mut Host, call: &OpenCall, job: u64, owner: Option<u32>)
    requires may { MayAnswer host.old.kept call.now Written }
    requires purpose { call.now.purpose ≡ RequestWrite job owner }
    requires left { 1 ≤ host.old.left }
    ensures state { Becomes host.old host.new (answering call.now.number Written) }
    ensures left { Spends host.old host.new 1 0 }
    ensures run { SameRun host.old host.new }
{
    host.hear_request_written(call, job, owner);
    job_requested(host, call, job);
}

/// A holder has looked at a request.
fn hear_look<S: Sectors>(host: &mut Host, call: &OpenCall, sectors: &S)
    requires may { MayAnswer host.old.kept call.now (Read (S.bytes sectors.now)) }
    requires purpose { call.now.purpose ≡ SeeRequest }
    requires cut { IsTrue (S.is_cut sectors.now host.old.kept.config.sizes.sector) }
    requires one { length (S.bytes sectors.now) ≡ host.old.kept.config.sizes.sector }
    requires left { 1 ≤ host.old.left }
    ensures state { Becomes host.old host.new (answering call.now.number (Read (S.bytes sectors.now))) }
    ensures left { Spends host.old host.new 1 0 }
    ensures run { SameRun host.old host.new }
{
    host.hear_untold(call);
    answer_look(host, call, sectors);
}

/// A holder's look at a request failed: nothing comes of it.
fn hear_no_look(host: &mut Host, call: &OpenCall)
    requires may { MayAnswer host.old.kept call.now Failed }
    requires purpose { call.now.purpose ≡ SeeRequest }
    ensures state { Becomes host.old host.new (answering call.now.number Failed) }
    ensures left { Spends host.old host.new 0 0 }
    ensures run { SameRun host.old host.new }
{
    host.hear_untold(call);
}

/// A value is written.
fn hear_set(host: &mut Host, call: &OpenCall, job: u64)
    requires may { MayAnswer host.old.kept call.now Written }
    requires purpose { call.now.purpose ≡ ValueWrite job }
    requires left { 1 ≤ host.old.left }
    ensures state { Becomes host.old host.new (answering call.now.number Written) }
    ensures left { Spends host.old host.new 1 0 }
    ensures run { SameRun host.old host.new }
{
    host.hear_untold(call);
    job_set(host, call, job);
}

/// A value is read.
fn hear_value<S: Sectors>(host: &mut Host, call: &OpenCall, job: u64, sectors: &S)
    requires may { MayAnswer host.old.kept call.now (Read (S.bytes sectors.now)) }
    requires purpose { call.now.purpose ≡ ValueRead job }
    requires cut { IsTrue (S.is_cut sectors.now host.old.kept.config.sizes.sector) }
    requires one { length (S.bytes sectors.now) ≡ host.old.kept.config.sizes.sector }
    requires left { 1 ≤ host.old.left }
    ensures state { Becomes host.old host.new (answering call.now.number (Read (S.bytes sectors.now))) }
    ensures left { Spends host.old host.new 1 0 }
    ensures run { SameRun host.old host.new }
{
    host.hear_untold(call);
    job_value(host, call, job, sectors);
}

/// The call of a job on a request or a value failed.
fn hear_job_failed(host: &mut Host, call: &OpenCall, job: u64)
    requires may { MayAnswer host.old.kept call.now Failed }
    requires purpose { is_job_call job call.now.purpose ≡ true }
    requires left { 1 ≤ host.old.left }
    ensures state { Becomes host.old host.new (answering call.now.number Failed) }
    ensures left { Spends host.old host.new 1 0 }
    ensures run { SameRun host.old host.new }
{
    host.hear_untold(call);
    job_failed(host, call, job);
}

// ---- the whole, by how the answer comes

/// A call that reads no ids is answered by its sectors.
fn hear_others<S: Sectors>(host: &mut Host, blocks: &mut Blocks, call: &OpenCall, sectors: &S)
    requires may { MayAnswer host.old.kept call.now (Read (S.bytes sectors.now)) }
    requires fits { FitsSectors host.old.kept.config.sizes call.now (length (S.bytes sectors.now)) }
    requires other { is_survey_purpose call.now.purpose ≡ false }
    requires cut { IsTrue (S.is_cut sectors.now host.old.kept.config.sizes.sector) }
    requires blocks { CanRead host.old.kept.config.sizes blocks.old }
    requires left { 3 ≤ host.old.left }
    requires calls { 1 ≤ host.old.calls }
    ensures state { Becomes host.old host.new (answering call.now.number (Read (S.bytes sectors.now))) }
    ensures left { Spends host.old host.new 3 1 }
    ensures run { SameRun host.old host.new }
    ensures blocks { HasPlaces host.old.kept.config.sizes blocks.new }
{
    match call.purpose {
        Purpose::Joining { job: _, step: _ } => unreachable!(),
        Purpose::Renewal => unreachable!(),
        Purpose::Survey => unreachable!(),
        Purpose::Leaving { job: _ } => unreachable!(),
        Purpose::Lease { work, step } => hear_lease_read(host, blocks, call, work, step, sectors),
        Purpose::RequestRead { job } => hear_request(host, call, job, sectors),
        Purpose::RequestWrite { job: _, owner: _ } => unreachable!(),
        Purpose::SeeRequest => hear_look(host, call, sectors),
        Purpose::ValueWrite { job: _ } => unreachable!(),
        Purpose::ValueRead { job } => hear_value(host, call, job, sectors),
    }
}

/// Whether a call reads all ids.
fn is_survey(purpose: &Purpose) -> bool
    ensures { result ≡ is_survey_purpose purpose.now }
{
    matches!(purpose, Purpose::Survey)
}

/// A call is answered by its sectors.
fn hear_sectors<S: Sectors>(
    host: &mut Host,
    numbers: &mut Notes<u64>,
    spots: &mut Notes<Spot>,
    blocks: &mut Blocks,
    call: &OpenCall,
    sectors: &S,
)
    requires can { CanAnswer host.old.kept call.now (Read (S.bytes sectors.now)) host.old.left host.old.calls numbers.old.most spots.old.most }
    requires fits { FitsSectors host.old.kept.config.sizes call.now (length (S.bytes sectors.now)) }
    requires cut { IsTrue (S.is_cut sectors.now host.old.kept.config.sizes.sector) }
    requires blocks { CanRead host.old.kept.config.sizes blocks.old }
    ensures state { Becomes host.old host.new (answering call.now.number (Read (S.bytes sectors.now))) }
    ensures left { Spends host.old host.new (effects_for host.old.kept call.now.purpose) (calls_for host.old.kept call.now.session call.now.purpose) }
    ensures run { SameRun host.old host.new }
    ensures notes { (numbers.new.most ≡ numbers.old.most) × (spots.new.most ≡ spots.old.most) }
    ensures blocks { HasPlaces host.old.kept.config.sizes blocks.new }
{
    if is_survey(&call.purpose) {
        hear_survey(host, numbers, spots, call, sectors);
    } else {
        hear_others(host, blocks, call, sectors);
    }
}

/// Job and step of a joining's call.
fn joining_of(purpose: &Purpose) -> Option<(u64, JoinStep)>
    ensures is { IfSome result (λ r. purpose.now ≡ Joining r.0 r.1) }
    ensures has { is_some result ≡ is_joining_purpose purpose.now }
{
    match purpose {
        Purpose::Joining { job, step } => Some((*job, *step)),
        _ => None,
    }
}

/// A joining's read is answered.
fn hear_sector(host: &mut Host, call: &OpenCall, image: Arc<Image>)
    requires may { MayAnswer host.old.kept call.now (Read (arc_value image)) }
    requires fits { is_joining_purpose call.now.purpose ≡ true }
    requires left { 3 ≤ host.old.left }
    requires calls { 1 ≤ host.old.calls }
    ensures state { Becomes host.old host.new (answering call.now.number (Read (arc_value image))) }
    ensures left { Spends host.old host.new 3 1 }
    ensures run { SameRun host.old host.new }
{
    match joining_of(&call.purpose) {
        Some((job, step)) => hear_joining(host, call, job, step, SectorAnswer::Read(image)),
        None => unreachable!(),
    }
}

/// A call is written.
fn hear_written(host: &mut Host, call: &OpenCall)
    requires may { MayAnswer host.old.kept call.now Written }
    requires fits { is_writing call.now.purpose ≡ true }
    requires left { 3 ≤ host.old.left }
    requires calls { 1 ≤ host.old.calls }
    ensures state { Becomes host.old host.new (answering call.now.number Written) }
    ensures left { Spends host.old host.new 3 1 }
    ensures run { SameRun host.old host.new }
{
    match call.purpose {
        Purpose::Joining { job, step } => {
            hear_joining(host, call, job, step, SectorAnswer::Written)
        }
        Purpose::Renewal => hear_renewed(host, call),
        Purpose::Survey => unreachable!(),
        Purpose::Leaving { job } => hear_freed(host, call, job),
        Purpose::Lease { work, step } => hear_lease_written(host, call, work, step),
        Purpose::RequestRead { job: _ } => unreachable!(),
        Purpose::RequestWrite { job, owner } => hear_requested(host, call, job, owner),
        Purpose::SeeRequest => unreachable!(),
        Purpose::ValueWrite { job } => hear_set(host, call, job),
        Purpose::ValueRead { job: _ } => unreachable!(),
    }
}

/// A call was answered failed, whatever it was for.
fn hear_failed(host: &mut Host, call: &OpenCall)
    requires may { MayAnswer host.old.kept call.now Failed }
    requires left { 3 ≤ host.old.left }
    requires calls { 1 ≤ host.old.calls }
    ensures state { Becomes host.old host.new (answering call.now.number Failed) }
    ensures left { Spends host.old host.new 3 1 }
    ensures run { SameRun host.old host.new }
{
    match call.purpose {
        Purpose::Joining { job, step } => {
            hear_joining(host, call, job, step, SectorAnswer::Failed)
        }
        Purpose::Renewal => hear_not_renewed(host, call),
        Purpose::Survey => hear_no_survey(host, call),
        Purpose::Leaving { job } => hear_not_freed(host, call, job),
        Purpose::Lease { work, step } => hear_lease_failed(host, call, work, step),
        Purpose::RequestRead { job } => hear_job_failed(host, call, job),
        Purpose::RequestWrite { job, owner: _ } => hear_job_failed(host, call, job),
        Purpose::SeeRequest => hear_no_look(host, call),
        Purpose::ValueWrite { job } => hear_job_failed(host, call, job),
        Purpose::ValueRead { job } => hear_job_failed(host, call, job),
    }
}

/// An open call is answered.
fn hear_call<S: Sectors>(
    host: &mut Host,
    numbers: &mut Notes<u64>,
    spots: &mut Notes<Spot>,
    blocks: &mut Blocks,
    call: &OpenCall,
    heard: Heard<'_, S>,
)
    requires can { CanAnswer host.old.kept call.now (answer_of S.bytes heard) host.old.left host.old.calls numbers.old.most spots.old.most }
    requires fits { FitsHeard S.bytes S.is_cut host.old.kept.config.sizes call.now heard }
    requires blocks { CanRead host.old.kept.config.sizes blocks.old }
    ensures state { Becomes host.old host.new (answering call.now.number (answer_of S.bytes heard.entry)) }
    ensures left { Spends host.old host.new (effects_for host.old.kept call.now.purpose) (calls_for host.old.kept call.now.session call.now.purpose) }
    ensures run { SameRun host.old host.new }
    ensures notes { (numbers.new.most ≡ numbers.old.most) × (spots.new.most ≡ spots.old.most) }
    ensures blocks { HasPlaces host.old.kept.config.sizes blocks.new }
{
    match heard {
        Heard::Sector(image) => hear_sector(host, call, image),
        Heard::Sectors(sectors) => hear_sectors(host, numbers, spots, blocks, call, sectors),
        Heard::Written => hear_written(host, call),
        Heard::Failed => hear_failed(host, call),
    }
}

/// The open call of this number.
fn open_call(host: &Host, number: u64) -> Option<OpenCall>
    ensures { result ≡ find (λ c. c.number == number) host.now.kept.unanswered }
{
    match host.open_call(number) {
        Some(call) => Some(*call),
        None => None,
    }
}

/// The call of this number, if it is open, is answered so: the host hears it, and what it makes due is done.
pub fn answer<S: Sectors>(
    host: &mut Host,
    numbers: &mut Notes<u64>,
    spots: &mut Notes<Spot>,
    blocks: &mut Blocks,
    number: u64,
    heard: Heard<'_, S>,
)
    requires can { (c : OpenCallOf) → IsOpen (state_in host.old.kept) number c → CanAnswer host.old.kept c (answer_of S.bytes heard) host.old.left host.old.calls numbers.old.most spots.old.most }
    requires fits { (c : OpenCallOf) → IsOpen (state_in host.old.kept) number c → FitsHeard S.bytes S.is_cut host.old.kept.config.sizes c heard }
    requires blocks { CanRead host.old.kept.config.sizes blocks.old }
    ensures state { Becomes host.old host.new (answering number (answer_of S.bytes heard.entry)) }
    ensures left { Spends host.old host.new (effects_of host.old.kept number) (calls_of host.old.kept number) }
    ensures run { SameRun host.old host.new }
    ensures notes { (numbers.new.most ≡ numbers.old.most) × (spots.new.most ≡ spots.old.most) }
    ensures blocks { HasPlaces host.old.kept.config.sizes blocks.new }
{
    match open_call(host, number) {
        Some(call) => hear_call(host, numbers, spots, blocks, &call, heard),
        None => {}
    }
}
