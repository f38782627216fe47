//! A session whose lockspace is in use, as a host keeps it.
//!
//! Each part answers for its own: `own` for the calls on the id's sector, `watch` for what was seen of other ids, `asked` for the requests,
//! `leases` for the resources. Beside them stand three stories:
//!
//! - joined, refused: a joining ends by one of both. A refused one stays while a write of it is unanswered, since that may land yet.
//! - renewing: the submission reading of the last renewal that counts, and how recovery began. In recovery nothing counts any more.
//! - leaving: how it began, and for which job.
//!
//! It makes no call and decides nothing on jobs: it is told of calls (`calling`) and of their answers, by purpose, and is asked what is
//! known and what its own sector does next. What is known of a lease is asked of the lease (`lease`), with `side` and `seen`.

ghost use Rattle.sl_area.specs.AreaSizes.{layout_of};
ghost use Rattle.sl_delta.specs.DeltaDecisions.{IsFitNext, after_join, on_wake};
ghost use Rattle.sl_delta.specs.OwnSector.{answer_in, without_calls};
ghost use Rattle.sl_host_state.specs.HeardInputs.{asked_at};
ghost use Rattle.sl_host_state.specs.MadeEffects.{is_lease_on};
ghost use Rattle.sl_lease.specs.Bounds.{IsSession};
ghost use Rattle.sl_lease.specs.Changes.{after_failure, after_write};
ghost use Rattle.sl_member.specs.AskedRequests.{bits_within};
ghost use Rattle.sl_member.specs.Leases.{begins_lease, first_among, kept_shown, read_shown};
ghost use Rattle.sl_member.specs.Members.{IsKnown, IsOwnCall, blank_member, delta_lease, kept_called, leaving_begun, lease_changed, own_of, own_told, owner_in, recovery_begun, renewal_counted, renewing_after, renewing_told, seen_in, side_in};
ghost use Rattle.sl_member.specs.SeenSessions.{is_asked_by, shows_other_by};
ghost use Rattle.sl_member.specs.HostMembers.{late_by};
ghost use Rattle.sl_sector.specs.Records.{Fits};
ghost use Rattle.sl_trace.specs.DeltaDecisions.{next_free, next_renewal};
ghost use Rattle.sl_trace.specs.Sessions.{given_number, is_join_call};
ghost use Rattle.sl_text.specs.Names.{is_name};
ghost use Rattle.sl_trace.specs.Traces.{new_call};
ghost use Rattle.sl_trace.specs.declared.effects.JoinStep.TheVariants.{FirstRead};
ghost use Rattle.sl_trace.specs.declared.effects.Purpose.TheVariants.{Joining};
ghost use Rattle.sl_trace.specs.declared.input.Answer.{Answer};
ghost use Rattle.sl_watch.specs.Summaries.{bare, state_by};
ghost use Rattle.sl_watch.specs.ToldLooks.{told_all};
ghost use Rattle.sl_watch.specs.Watches.{kept_at};
ghost use Rattle.sl_words.specs.Bounds.{moments};
ghost use Rattle.std.specs.Prelude.{IfOk, IfSome, IsTrue, None, OnErr, OnOk, Some, bytes_eq, false, find, is_none, is_some, length, max, nat_le, option_map, true, ℕ, ◌&&◌, ◌*◌, ◌+◌, ◌<◌, ◌==◌, ◌^◌, ◌≡◌, ◌≤◌};

use crate::asked_requests::Asked;
use crate::calls::delta_of;
use crate::leases::Leases;
use crate::seen_hosts::{Seen, tell_all};
use crate::surveys::{is_asked, shows_other};
use sl_area::Geometry;
use sl_delta::{OwnSector, SectorAnswer};
use sl_lease::{Lease, Pairs, Sectors, Side};
use sl_request::Bitmap;
use sl_sector::{Block, HostId, Leader, Owner};
use sl_text::Name;
use sl_time::Timing;
use sl_trace::{
    Begun, Call, DeltaKnown, DeltaNext, HostState, JoinStep, LeaseStep, Purpose, Renewing, Session,
    Spot,
};
use sl_watch::Watch;
use std::alloc::{AllocError, Global};
use std::marker::Model;

/// A session whose lockspace is in use.
#[derive(Drop)]
pub struct Member {
    timing: Timing,
    geometry: Geometry,
    host: Name,
    who: Session,
    joined: bool,
    refused: bool,
    own: OwnSector,
    renewing: Renewing,
    leaving: Option<Begun>,
    leaves_for: Option<u64>,
    asked: Asked,
    watch: Watch,
    leases: Leases,
}

impl Model for Member {
    ghost use Rattle.sl_delta.specs.OwnSector.{known_with};
    ghost use Rattle.sl_member.specs.Members.{IsMember, MemberKept};
    ghost use Rattle.std.specs.Prelude.{is_some};

    ghost Value = { MemberKept };

    ghost view = { λ m. record {
      run = record { timing = m.timing; sizes = m.geometry; host = m.host };
      state = record {
        who = m.who;
        joined = m.joined;
        refused = m.refused;
        known = known_with m.own (is_some m.renewing.recovery) m.leaves_for;
        joining = m.own.joining;
        renewing = m.renewing;
        leaving = m.leaving;
        asked = m.asked;
        watch = m.watch;
        leases = m.leases.leases;
      };
      room = m.leases.room;
    } };

    ghost invariant = { λ m. IsMember m.timing m.geometry m.host m.who m.joined m.own m.watch };
}

/// The own sector of a session without a call: one that is given is joined under generation 1.
fn own_sector(timing: &Timing, geometry: &Geometry, host: Name, who: &Session) -> OwnSector
    requires id { (1 ≤ who.now.id) × (who.now.id ≤ geometry.now.hosts) }
    requires named { IsTrue (is_name host) × IsTrue (is_name who.now.lockspace) }
    requires renewed { (who.now.renewed < moments) × (is_some who.now.job ≡ true → who.now.renewed ≡ 0) }
    ensures { result ≡ without_calls timing.now geometry.now host who.now.lockspace who.now.id (given_number who.now) who.now.renewed }
{
    match who.job {
        Some(_) => OwnSector::new(timing, geometry, host, who.lockspace, who.id),
        None => OwnSector::given(timing, geometry, host, who.lockspace, who.id, who.renewed),
    }
}

/// How a session stands with its renewals after an answer.
fn renewing_after(
    renewing: Renewing,
    joined: bool,
    counts: Option<u64>,
    shows: bool,
    begun: Begun,
) -> Renewing
    ensures { result ≡ renewing_after counts shows begun joined renewing }
{
    match renewing.recovery {
        Some(_) => renewing,
        None => {
            if joined && shows {
                Renewing {
                    last: renewing.last,
                    recovery: Some(begun),
                }
            } else {
                Renewing {
                    last: counts.unwrap_or(renewing.last),
                    recovery: None,
                }
            }
        }
    }
}

/// Whether so much has passed since a reading.
fn has_passed(since: u64, time: u64, now: u64) -> bool
    ensures { result ≡ nat_le (since + time) now }
{
    since <= now && time <= now - since
}

impl Member {
    /// A session without a call: one that is given (it has no job) is joined, under generation 1. It takes all memory that it will need but
    /// that for leases; an `Err` is want of it.
    pub fn new(
        alloc: Global,
        timing: &Timing,
        geometry: &Geometry,
        host: Name,
        who: Session,
    ) -> Result<Member, AllocError>
        requires id { (1 ≤ who.id) × (who.id ≤ geometry.now.hosts) }
        requires named { IsTrue (is_name host) × IsTrue (is_name who.lockspace) }
        requires renewed { (who.renewed < moments) × (is_some who.job ≡ true → who.renewed ≡ 0) }
        ensures { IfOk result (λ m. m ≡ record {
          run = record { timing = timing.now; sizes = geometry.now; host = host };
          state = blank_member (record { timing = timing.now; sizes = geometry.now; host = host }) who;
          room = 0;
        }) }
    {
        let asked = Asked::new(alloc, geometry.hosts())?;
        let watch = Watch::new(alloc, timing, geometry)?;
        let own = own_sector(timing, geometry, host, &who);
        Ok(Member {
            timing: *timing,
            geometry: *geometry,
            host,
            who,
            joined: who.job.is_none(),
            refused: false,
            own,
            renewing: Renewing {
                last: who.renewed,
                recovery: None,
            },
            leaving: None,
            leaves_for: None,
            asked,
            watch,
            leases: Leases::new(alloc),
        })
    }

    /// Sees that there is memory for so many more leases. An `Err` is want of memory, and changes nothing.
    pub fn reserve(&mut self, room: usize) -> Result<(), AllocError>
        ensures ok { OnOk result (self.new ≡ record self.old { room = max self.old.room room }) }
        ensures err { OnErr result (self.new ≡ self.old) }
    {
        self.leases.reserve(room)
    }

    /// For how many more leases there is memory.
    pub fn room(&self) -> usize
        ensures { result ≡ self.now.room }
    {
        self.leases.room()
    }

    // ---- what it is

    /// Which session the member is: its number, lockspace, id and place.
    pub fn who(&self) -> &Session
        ensures { result.now ≡ self.now.state.who }
    {
        &self.who
    }

    /// Whether it is of this lockspace.
    pub fn is_named(&self, lockspace: &Name) -> bool
        ensures { result ≡ bytes_eq self.now.state.who.lockspace lockspace.now }
    {
        self.who.lockspace.as_slice() == lockspace.as_slice()
    }

    /// Whether it has joined, and has not ended.
    pub fn is_joined(&self) -> bool
        ensures { result ≡ self.now.state.joined }
    {
        self.joined
    }

    /// Whether its joining was refused: then it is a member only until its last write is answered.
    pub fn is_refused(&self) -> bool
        ensures { result ≡ self.now.state.refused }
    {
        self.refused
    }

    /// Whether it is joined and neither in recovery nor leaving: only then do its leases go on.
    pub fn is_active(&self) -> bool
        ensures { result ≡ (self.now.state.joined && is_none self.now.state.renewing.recovery && is_none self.now.state.leaving) }
    {
        self.joined && self.renewing.recovery.is_none() && self.leaving.is_none()
    }

    /// The submission reading of the last renewal that counts, and how recovery began.
    pub fn renewing(&self) -> Renewing
        ensures exact { result ≡ self.now.state.renewing }
        ensures known { IsKnown self.now.state }
    {
        self.renewing
    }

    /// Whether its recovery begins by time at the reading `now`: `fail` after the last renewal that counts.
    pub fn is_late(&self, now: u64) -> bool
        ensures { result ≡ late_by self.now.run.timing now self.now.state }
    {
        match self.renewing.recovery {
            Some(_) => false,
            None => self.joined && has_passed(self.renewing.last, self.timing.fail(), now),
        }
    }

    /// How its leaving began; none where it does not leave.
    pub fn leaving(&self) -> Option<Begun>
        ensures { result ≡ self.now.state.leaving }
    {
        self.leaving
    }

    /// What is known of its own sector.
    pub fn known(&self) -> DeltaKnown
        ensures exact { result ≡ self.now.state.known }
        ensures bounds { Fits result.generation × Fits result.seq × (result.renewed < moments) }
        ensures claimed { self.now.state.joined ≡ true → 1 ≤ result.generation }
        ensures place { (1 ≤ self.now.state.who.id) × (self.now.state.who.id ≤ self.now.run.sizes.hosts) }
    {
        self.own
            .known(self.renewing.recovery.is_some(), self.leaves_for)
    }

    /// The session as ballots name it.
    fn owner(&self) -> Owner
        ensures exact { result ≡ owner_in self.now.state }
        ensures session { self.now.state.joined ≡ true → IsSession self.now.run.sizes result }
    {
        Owner {
            id: self.who.id,
            generation: self.known().generation,
        }
    }

    /// The sizes, the lockspace and the session, by its generation, for which its leases decide.
    pub fn side(&self) -> Side
        ensures exact { result ≡ side_in self.now }
        ensures session { self.now.state.joined ≡ true → IsSession self.now.run.sizes result.me }
    {
        Side {
            geometry: self.geometry,
            lockspace: self.who.lockspace,
            me: self.owner(),
        }
    }

    /// What it has seen of other hosts: whom it counts as over.
    pub fn seen(&self) -> Seen<'_>
        ensures { result ≡ seen_in self.now.state }
    {
        Seen::by(
            &self.watch,
            self.geometry.hosts(),
            self.who.id,
            self.known().generation,
            self.joined,
        )
    }

    /// What it has seen, to be read.
    pub fn watch(&self) -> &Watch
        ensures { result.now ≡ self.now.state.watch }
    {
        &self.watch
    }

    /// What an id, 1 to the number of hosts, looks like to it at the reading `now`, in milliseconds.
    pub fn status(&self, id: HostId, now: u64) -> HostState
        requires { (1 ≤ id) × (id ≤ self.now.run.sizes.hosts) }
        ensures { result ≡ state_by self.now.state.watch.timing (bare (kept_at self.now.state.watch id)).run now }
    {
        self.watch.status(id, now)
    }

    /// Whether a read of all ids shows another in its place: under its id, another host's name or another generation.
    pub fn shows_other<S: Sectors>(&self, sectors: &S) -> bool
        requires cut { IsTrue (S.is_cut sectors.now self.now.run.sizes.sector) }
        requires many { length (S.bytes sectors.now) ≡ self.now.run.sizes.hosts * self.now.run.sizes.sector }
        ensures { result ≡ shows_other_by (layout_of self.now.run.sizes) self.now.run.host self.now.state.who.id self.now.state.known.generation (S.bytes sectors.now) }
    {
        let known = self.known();
        shows_other(
            &self.geometry,
            &self.host,
            self.who.id,
            known.generation,
            sectors,
        )
    }

    /// Whether it shows that another asks for what it holds.
    pub fn is_asked<S: Sectors>(&self, sectors: &S) -> bool
        requires cut { IsTrue (S.is_cut sectors.now self.now.run.sizes.sector) }
        requires many { length (S.bytes sectors.now) ≡ self.now.run.sizes.hosts * self.now.run.sizes.sector }
        ensures { result ≡ is_asked_by (layout_of self.now.run.sizes) self.now.state.who.id (S.bytes sectors.now) }
    {
        let _known = self.known();
        is_asked(&self.geometry, self.who.id, sectors)
    }

    /// Its leases, by their areas; with room for those that may come in this step.
    pub fn leases(&self) -> &Leases
        ensures { result.now ≡ record { leases = self.now.state.leases; room = self.now.room } }
    {
        &self.leases
    }

    /// Its lease on an area, if there is one.
    pub fn lease(&self, at: &Spot) -> Option<&Lease>
        ensures { option_map (λ l. l.now) result ≡ find (is_lease_on at.now) self.now.state.leases }
    {
        self.leases.get(at)
    }

    // ---- what its own sector does next

    /// After an answer of its joining, which goes on: of the call with this number, at this step, submitted at the reading `made`.
    pub fn after_join(
        &self,
        now: u64,
        call: u64,
        made: u64,
        step: JoinStep,
        answer: &SectorAnswer,
    ) -> DeltaNext
        requires { (now < moments) × (made < moments) }
        ensures exact { result ≡ after_join (own_of self.now) now call made step (answer_in answer.now) }
        ensures fit { IsFitNext result }
    {
        self.own.after_join(now, call, made, step, answer)
    }

    /// What is due of its joining by time.
    pub fn on_wake(&self, now: u64) -> DeltaNext
        ensures exact { result ≡ on_wake (own_of self.now) now }
        ensures fit { IsFitNext result }
    {
        self.own.on_wake(now)
    }

    /// The bits of a renewal at the reading `now`.
    fn bits(&self, now: u64) -> Bitmap
        ensures { result ≡ bits_within self.now.run.timing self.now.run.sizes.hosts self.now.state.asked now }
    {
        self.asked.bits(&self.timing, self.geometry.hosts(), now)
    }

    /// The renewal that is due of it on a wake, once it is joined.
    pub fn renewal(&self, now: u64) -> DeltaNext
        requires { now < moments }
        ensures exact { result ≡ next_renewal (delta_lease self.now) now self.now.state.known (bits_within self.now.run.timing self.now.run.sizes.hosts self.now.state.asked now) }
        ensures fit { self.now.state.joined ≡ true → IsFitNext result }
    {
        let recovering = self.renewing.recovery.is_some();
        let bits = self.bits(now);
        self.own.renewal(now, recovering, self.leaves_for, &bits)
    }

    /// The free that its leaving writes. A seq is left for it.
    pub fn free(&self, now: u64) -> DeltaNext
        requires moment { now < moments }
        requires left { Fits (self.now.state.known.seq + 1) }
        ensures exact { result ≡ next_free (delta_lease self.now) now self.now.state.known }
        ensures fit { self.now.state.joined ≡ true → IsFitNext result }
    {
        self.own.free(now, self.leaves_for)
    }

    // ---- what a call makes of it

    /// Whether a call of it is the first of a lease.
    pub fn begins_lease(&self, call: &Call) -> bool
        ensures { result ≡ begins_lease (layout_of self.now.run.sizes) (new_call 0 0 call.now) self.now.state.leases }
    {
        self.leases.begins(&self.geometry, call)
    }

    /// A call of it is submitted at the reading `now`. It counts from here on, whatever comes of it. The first call of a lease takes a
    /// place.
    pub fn calling(&mut self, now: u64, call: &Call)
        requires moment { now < moments }
        requires own { IsOwnCall (new_call 0 now call.now) }
        requires room { begins_lease (layout_of self.old.run.sizes) (new_call 0 now call.now) self.old.state.leases ≡ true → 0 < self.old.room }
        ensures { (at : ℕ) → self.new ≡ kept_called (new_call at now call.now) self.old }
    {
        self.own.called(now, &call.purpose, delta_of(&call.op));
        self.leases.calling(&self.geometry, call);
    }

    // ---- what answers make of it

    /// Its joining's first read was answered so.
    pub fn first_answered(&mut self, now: u64, answer: SectorAnswer)
        requires { now < moments }
        ensures { (j : ℕ) → self.new ≡ record self.old { state = own_told (Joining j FirstRead) (answer_in answer) now self.old.state } }
    {
        self.own.first_answered(now, answer);
    }

    /// A call of it was answered at this reading, by whatever answer: so much of it the member keeps. (A joining's first read is kept
    /// with its sector.)
    pub fn own_answered(&mut self, now: u64, purpose: &Purpose)
        requires moment { now < moments }
        requires later { is_join_call FirstRead purpose.now ≡ false }
        ensures { (a : Answer) → self.new ≡ record self.old { state = own_told purpose.now a now self.old.state } }
    {
        self.own.answered(now, purpose);
    }

    /// Its read of all ids, submitted at the reading `before` and answered at `after`, gave these sectors.
    pub fn surveyed<S: Sectors>(&mut self, before: u64, after: u64, sectors: &S)
        requires cut { IsTrue (S.is_cut sectors.now self.old.run.sizes.sector) }
        requires many { length (S.bytes sectors.now) ≡ self.old.run.sizes.hosts * self.old.run.sizes.sector }
        ensures { self.new ≡ record self.old { state = record self.old.state { watch = told_all before after (layout_of self.old.run.sizes) (S.bytes sectors.now) self.old.state.watch } } }
    {
        tell_all(&mut self.watch, &self.geometry, before, after, sectors);
    }

    /// A request to the host of an id was answered ok.
    pub fn asked_answered(&mut self, now: u64, owner: HostId)
        requires { 1 ≤ owner }
        ensures { self.new ≡ record self.old { state = record self.old.state { asked = asked_at now owner self.old.state.asked } } }
    {
        self.asked.answered(now, owner);
    }

    /// A renewal that was submitted at this reading counts.
    pub fn renewed(&mut self, reading: u64)
        ensures { self.new ≡ record self.old { state = renewal_counted reading self.old.state } }
    {
        self.renewing.last = reading;
    }

    /// An answer tells of its renewals: whether it shows another in its place, which begins recovery so, and else which renewal counts. In
    /// recovery nothing counts.
    pub fn renewing_told(&mut self, counts: Option<u64>, shows: bool, begun: Begun)
        ensures { self.new ≡ record self.old { state = renewing_told counts shows begun self.old.state } }
    {
        self.renewing = renewing_after(self.renewing, self.joined, counts, shows, begun);
    }

    /// Its recovery begins: its leases go on no more.
    pub fn recovers(&mut self, begun: Begun)
        ensures { self.new ≡ record self.old { state = recovery_begun begun self.old.state } }
    {
        self.renewing.recovery = Some(begun);
    }

    /// Its leaving begins, for this job: its leases go on no more.
    pub fn leaves(&mut self, begun: Begun, job: u64)
        ensures { self.new ≡ record self.old { state = leaving_begun begun job self.old.state } }
    {
        self.leaving = Some(begun);
        self.leaves_for = Some(job);
    }

    /// Its joining is done: it has written its claim.
    pub fn joins(&mut self)
        requires { 1 ≤ self.old.state.known.generation }
        ensures { self.new ≡ record self.old { state = record self.old.state { joined = true } } }
    {
        self.joined = true;
    }

    /// Its joining is refused; nothing of it goes on.
    pub fn refuses(&mut self)
        ensures { self.new ≡ record self.old { state = record self.old.state { refused = true } } }
    {
        self.refused = true;
    }

    /// What is kept of the first read for its lease on an area, where a read at this step is the second one.
    pub fn first_for(&self, at: &Spot, step: &LeaseStep) -> Option<&Pairs>
        ensures { option_map (λ p. p.now) result ≡ first_among at.now step.now self.now.state.leases }
    {
        self.leases.first_for(at, step)
    }

    /// The read for which its lease on an area waits showed this turn, is to be made once more, and this is kept of it.
    pub fn lease_kept(&mut self, at: &Spot, turn: Option<u64>, pairs: Pairs)
        requires { IfSome turn (λ t. (1 ≤ t) × Fits t) }
        ensures { self.new ≡ record self.old { state = lease_changed at.now (kept_shown turn pairs) self.old.state } }
    {
        self.leases.read_kept(at, turn, pairs);
    }

    /// The read for which its lease on an area waits showed this turn and gave these; it is heeded while its work goes on.
    pub fn lease_read(
        &mut self,
        at: &Spot,
        turn: Option<u64>,
        leader: &Option<Leader>,
        blocks: &[Option<Block>],
        heeded: bool,
    )
        requires turn { IfSome turn (λ t. (1 ≤ t) × Fits t) }
        requires few { length blocks.now < 2 ^ 32 }
        ensures { self.new ≡ record self.old { state = lease_changed at.now (read_shown (side_in self.old) turn heeded leader.now blocks.now) self.old.state } }
    {
        let side = self.side();
        self.leases
            .read_answered(at, &side, turn, leader, blocks, heeded);
    }

    /// The write for which its lease on an area waits is done.
    pub fn lease_written(&mut self, at: &Spot)
        ensures { self.new ≡ record self.old { state = lease_changed at.now after_write self.old.state } }
    {
        self.leases.write_answered(at);
    }

    /// The call for which its lease on an area waits has failed.
    pub fn lease_failed(&mut self, at: &Spot)
        ensures { self.new ≡ record self.old { state = lease_changed at.now after_failure self.old.state } }
    {
        self.leases.failed(at);
    }
}
