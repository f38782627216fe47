//! An answer, heard: its call leaves the open calls, its job waits no more, and its member keeps what it tells.
//!
//! Each method takes an open call and is for calls of some purposes: those on a session's own sector, a read of all ids, a lease's calls, requests, and
//! calls of which a member keeps nothing. A member that has gone keeps nothing any more: then the tables alone change. With the answer to its last write
//! a refused member goes.

ghost use Rattle.sl_area.specs.AreaSizes.{layout_of};
ghost use Rattle.sl_delta.specs.OwnSector.{answer_in};
ghost use Rattle.sl_host_state.specs.HeardInputs.{heard_answer, job_hearing};
ghost use Rattle.sl_host_law.specs.Steps.Leases.{lease_at};
ghost use Rattle.sl_host_state.specs.KeptState.{MemberState};
ghost use Rattle.sl_lease.specs.Laws.{first_by};
ghost use Rattle.sl_lease.specs.Reads.{CanRead, HasPlaces, sectors_read};
ghost use Rattle.sl_member.specs.HostMembers.{member_with};
ghost use Rattle.sl_host.specs.declared.told_answers.Told.TheVariants.{Gave};
ghost use Rattle.sl_sector.specs.declared.sector.Leader.{Leader as LeaderOf};
ghost use Rattle.sl_sector.specs.Records.{IsLeader};
ghost use Rattle.sl_trace.specs.Sessions.{is_renewal};
ghost use Rattle.sl_time.specs.Times.{fail};
ghost use Rattle.sl_trace.specs.Traces.{job_of};
ghost use Rattle.sl_member.specs.Laws.{area_of_call};
ghost use Rattle.sl_trace.specs.declared.effects.Purpose.TheVariants.{Lease as LeaseWork, RequestWrite, Survey};
ghost use Rattle.sl_trace.specs.declared.input.Answer.TheVariants.{Failed, Read, Written};
ghost use Rattle.sl_trace.specs.declared.input.Answer.{Answer};
ghost use Rattle.sl_host.specs.Books.{books_hearing};
ghost use Rattle.sl_host.specs.HeardAnswers.{AreWaiting, IsTold, MayHear, begun_at, is_over_in, is_own_purpose, is_untold, others_in};
ghost use Rattle.sl_host.specs.Host.{Becomes, SameRun};
ghost use Rattle.sl_words.specs.Bounds.{moments};
ghost use Rattle.std.specs.List.{list_any};
ghost use Rattle.std.specs.Option.{option_map_or};
ghost use Rattle.std.specs.Prelude.{IfSome, IsTrue, Option, cond, filter, find, is_some, length, map, min, not, option_map, true, ◌*◌, ◌+◌, ◌<◌, ◌==◌, ◌^◌, ◌≡◌};

use crate::books::{Books, job_of};
use crate::host::{Host, WithinCall};
use crate::replies::lowered_after;
use crate::told_answers::{
    Told, is_renewal, order, remove_over, shows_any, tell_lease_read, tell_no_survey, tell_own,
    tell_request, tell_survey,
};
use sl_delta::SectorAnswer;
use sl_host_state::OpenCall;
use sl_lease::{Blocks, Sectors};
use sl_member::Members;
use sl_tables::Jobs;
use sl_trace::{Begun, LeaseStep, Purpose, Spot, Work};

/// The job of a call waits no more.
fn let_go(jobs: &mut Jobs, call: &OpenCall)
    requires { AreWaiting call.now jobs.old.jobs }
    ensures { jobs.new ≡ record jobs.old { jobs = map (job_hearing call.now.number) jobs.old.jobs } }
{
    match job_of(&call.purpose) {
        Some(job) => jobs.set_waits(job, None),
        None => {}
    }
}

impl Books {
    /// A call has its answer, which its member has heard: it leaves the open calls, and its job waits no more. Refused members go that are over.
    fn hear(&mut self, members: &mut Members, call: &OpenCall)
        requires { AreWaiting call.now self.old.jobs }
        ensures books { self.new ≡ books_hearing call.now.number self.old }
        ensures members { members.new ≡ record members.old { members = filter (λ s. not (is_over_in (others_in call.now.number self.old.unanswered) s)) members.old.members } }
    {
        let _within: Option<WithinCall> = None;
        let _answered = self.unanswered.answered(call.number);
        let_go(&mut self.jobs, call);
        remove_over(members, &self.unanswered);
    }

    /// Below which reading nothing is due after an answer, where no recovery begins by it.
    fn quiet_after(&self, call: &OpenCall) -> u64
        ensures { result ≡ cond (is_renewal call.now.purpose) (min self.now.quiet_until (call.now.reading + fail self.now.config.timing)) self.now.quiet_until }
    {
        if is_renewal(&call.purpose) {
            lowered_after(self.quiet_until, call.reading, self.config.timing.fail())
        } else {
            self.quiet_until
        }
    }

    /// The same after a read of all ids, by which one may.
    fn quiet_where(&self, shows: bool) -> u64
        ensures { result ≡ cond shows (min self.now.quiet_until (self.now.reading + self.now.config.grace)) self.now.quiet_until }
    {
        if shows {
            lowered_after(self.quiet_until, self.reading, self.config.grace)
        } else {
            self.quiet_until
        }
    }

    /// Nothing is due below this reading.
    fn rest_until(&mut self, moment: u64)
        ensures { self.new ≡ record self.old { quiet_until = moment } }
    {
        self.quiet_until = moment;
    }

    /// How a recovery begins by a read, in the step that is in progress.
    fn begun(&self) -> Begun
        ensures { result ≡ begun_at self.now.reading self.now.entries }
    {
        Begun {
            at: self.entries.saturating_sub(1),
            reading: self.reading,
            kills_from: self.entries,
        }
    }

    /// The area of an open call.
    fn area_of(&self, call: &OpenCall) -> Spot
        ensures { result ≡ area_of_call (layout_of self.now.config.sizes) call.now }
    {
        let area = self.config.geometry.area();
        Spot {
            path: call.path,
            base: call.offset - call.offset % area,
        }
    }
}

impl Host {
    /// The call of this number, if it has no answer yet.
    pub fn open_call(&self, number: u64) -> Option<&OpenCall>
        ensures { option_map (λ c. c.now) result ≡ find (λ c. c.number == number) self.now.kept.unanswered }
    {
        self.books.unanswered.get(number)
    }

    /// Whether a call of the session is open.
    pub fn has_call_open(&self, session: u64) -> bool
        ensures { result ≡ list_any (λ c. c.session == session) self.now.kept.unanswered }
    {
        self.books.unanswered.has_call(session)
    }

    /// Whether the work of a call goes on: its job, if it has one, runs.
    fn heeds(&self, purpose: &Purpose) -> bool
        ensures { result ≡ option_map_or (λ n. list_any (λ j. j.number == n) self.now.kept.jobs) (job_of purpose.now) true }
    {
        match job_of(purpose) {
            Some(job) => self.runs(job),
            None => true,
        }
    }

    /// The answer to a call on its session's own sector.
    pub fn hear_own(&mut self, call: &OpenCall, answer: SectorAnswer)
        requires may { MayHear self.old.kept call.now }
        requires own { is_own_purpose call.now.purpose ≡ true }
        requires moment { self.old.kept.reading < moments }
        ensures state { Becomes self.old self.new (heard_answer call.now.number (answer_in answer)) }
        ensures left { (self.new.left ≡ self.old.left) × (self.new.calls ≡ self.old.calls) }
        ensures run { SameRun self.old self.new }
    {
        let _within: Option<WithinCall> = None;
        let quiet_until = self.books.quiet_after(call);
        let begun = self.books.begun();
        let now = self.books.reading();
        tell_own(&mut self.members, call, begun, now, answer);
        self.books.hear(&mut self.members, call);
        self.books.rest_until(quiet_until);
    }

    /// A read of all ids gave these sectors. Where they show another in its place, its session's recovery begins.
    pub fn hear_survey<S: Sectors>(&mut self, call: &OpenCall, sectors: &S)
        requires may { MayHear self.old.kept call.now }
        requires purpose { call.now.purpose ≡ Survey }
        requires moment { self.old.kept.reading < moments }
        requires cut { IsTrue (S.is_cut sectors.now self.old.kept.config.sizes.sector) }
        requires many { length (S.bytes sectors.now) ≡ self.old.kept.config.sizes.hosts * self.old.kept.config.sizes.sector }
        ensures state { Becomes self.old self.new (heard_answer call.now.number (Read (S.bytes sectors.now))) }
        ensures left { (self.new.left ≡ self.old.left) × (self.new.calls ≡ self.old.calls) }
        ensures run { SameRun self.old self.new }
    {
        let _within: Option<WithinCall> = None;
        let begun = self.books.begun();
        let now = self.books.reading();
        let shows = shows_any(&self.members, sectors);
        let quiet_until = self.books.quiet_where(shows);
        tell_survey(&mut self.members, call, begun, now, sectors);
        self.books.hear(&mut self.members, call);
        self.books.rest_until(quiet_until);
    }

    /// A read of all ids was answered failed: nothing was seen.
    pub fn hear_no_survey(&mut self, call: &OpenCall)
        requires may { MayHear self.old.kept call.now }
        requires purpose { call.now.purpose ≡ Survey }
        requires moment { self.old.kept.reading < moments }
        ensures state { Becomes self.old self.new (heard_answer call.now.number Failed) }
        ensures left { (self.new.left ≡ self.old.left) × (self.new.calls ≡ self.old.calls) }
        ensures run { SameRun self.old self.new }
    {
        let _within: Option<WithinCall> = None;
        let now = self.books.reading();
        tell_no_survey(&mut self.members, call, now);
        self.books.hear(&mut self.members, call);
    }

    /// A read of a lease's work gave these sectors: what it gave is told, and its blocks are put into their places.
    pub fn hear_lease_read<S: Sectors>(
        &mut self,
        call: &OpenCall,
        work: Work,
        step: LeaseStep,
        sectors: &S,
        blocks: &mut Blocks,
    ) -> Told
        requires may { MayHear self.old.kept call.now }
        requires purpose { call.now.purpose ≡ LeaseWork work step }
        requires reads { is_some call.now.sectors ≡ true }
        requires cut { IsTrue (S.is_cut sectors.now self.old.kept.config.sizes.sector) }
        requires many { length (S.bytes sectors.now) ≡ sectors_read self.old.kept.config.sizes step * self.old.kept.config.sizes.sector }
        requires can { CanRead self.old.kept.config.sizes blocks.old }
        ensures state { Becomes self.old self.new (heard_answer call.now.number (Read (S.bytes sectors.now))) }
        ensures left { (self.new.left ≡ self.old.left) × (self.new.calls ≡ self.old.calls) }
        ensures run { SameRun self.old self.new }
        ensures told { (m : MemberState) → member_with call.now.session self.new.kept.members ≡ Some m
            → IsTold self.old.kept.config.sizes (first_by (lease_at m (area_of_call (layout_of self.old.kept.config.sizes) call.now)).pair step) step (S.bytes sectors.now) result blocks.new.blocks }
        ensures rules { (leader : Option LeaderOf) → result ≡ Gave leader → IfSome leader IsLeader }
        ensures places { HasPlaces self.old.kept.config.sizes blocks.new }
        ensures few { length blocks.new.blocks < 2 ^ 32 }
    {
        let _within: Option<WithinCall> = None;
        let _work = work;
        let heeded = self.heeds(&call.purpose);
        let at = self.books.area_of(call);
        order(&self.members, call.session);
        let told = tell_lease_read(
            &mut self.members,
            call.session,
            &at,
            &step,
            sectors,
            blocks,
            heeded,
        );
        self.books.hear(&mut self.members, call);
        told
    }

    /// A write of a lease's work is done.
    pub fn hear_lease_written(&mut self, call: &OpenCall, work: Work, step: LeaseStep)
        requires may { MayHear self.old.kept call.now }
        requires purpose { call.now.purpose ≡ LeaseWork work step }
        ensures state { Becomes self.old self.new (heard_answer call.now.number Written) }
        ensures left { (self.new.left ≡ self.old.left) × (self.new.calls ≡ self.old.calls) }
        ensures run { SameRun self.old self.new }
    {
        let _within: Option<WithinCall> = None;
        let _of = (work, step);
        let at = self.books.area_of(call);
        order(&self.members, call.session);
        self.members.lease_written(call.session, &at);
        self.books.hear(&mut self.members, call);
    }

    /// A call of a lease's work failed.
    pub fn hear_lease_failed(&mut self, call: &OpenCall, work: Work, step: LeaseStep)
        requires may { MayHear self.old.kept call.now }
        requires purpose { call.now.purpose ≡ LeaseWork work step }
        ensures state { Becomes self.old self.new (heard_answer call.now.number Failed) }
        ensures left { (self.new.left ≡ self.old.left) × (self.new.calls ≡ self.old.calls) }
        ensures run { SameRun self.old self.new }
    {
        let _within: Option<WithinCall> = None;
        let _of = (work, step);
        let at = self.books.area_of(call);
        order(&self.members, call.session);
        self.members.lease_failed(call.session, &at);
        self.books.hear(&mut self.members, call);
    }

    /// A request to this owner, if it is to one, is written.
    pub fn hear_request_written(&mut self, call: &OpenCall, job: u64, owner: Option<u32>)
        requires may { MayHear self.old.kept call.now }
        requires purpose { call.now.purpose ≡ RequestWrite job owner }
        ensures state { Becomes self.old self.new (heard_answer call.now.number Written) }
        ensures left { (self.new.left ≡ self.old.left) × (self.new.calls ≡ self.old.calls) }
        ensures run { SameRun self.old self.new }
    {
        let _within: Option<WithinCall> = None;
        let _job = job;
        let now = self.books.reading();
        tell_request(&mut self.members, call, now, owner);
        self.books.hear(&mut self.members, call);
    }

    /// An answer of which its member keeps nothing.
    pub fn hear_untold(&mut self, call: &OpenCall)
        requires may { MayHear self.old.kept call.now }
        ensures state { (a : Answer) → is_untold call.now.purpose a ≡ true → Becomes self.old self.new (heard_answer call.now.number a) }
        ensures left { (self.new.left ≡ self.old.left) × (self.new.calls ≡ self.old.calls) }
        ensures run { SameRun self.old self.new }
    {
        self.books.hear(&mut self.members, call);
    }
}
