//! A delta lease by itself: it makes its calls, and is told what comes.
//!
//! A joining that has made no call reads its sector at the next wake; then it goes the way of its stages. Recovery begins by time at the
//! head of a step, or by a read of all ids that shows another in the session's place; from then on nothing is written and the connection
//! stands still. What else ends a session, what is held and which jobs wait, its daemon knows and the lease doesn't.

ghost use Rattle.sl_delta.specs.DeltaDecisions.{IsFitNext};
ghost use Rattle.sl_delta.specs.OwnSector.{without_calls};
ghost use Rattle.sl_alone.specs.DeltaSteps.{IsFitAnswer, IsFitInput, after_step, after_told, begun, ended, ending, given_from, given_told, has_open_write, is_late, joined_lease, last_told, may_leave, new_lease, nothing_given, out_of_step, refused_move, refused_now, refusing, stage_told, step_from, wake_next, with_recovery};
ghost use Rattle.sl_alone.specs.declared.delta_lease.Standing.TheVariants.{Holds};
ghost use Rattle.sl_alone.specs.declared.delta_steps.DeltaIn.TheVariants.{Answered as Told, Leave, Wake};
ghost use Rattle.sl_sector.specs.Records.{Fits};
ghost use Rattle.sl_text.specs.Names.{is_name};
ghost use Rattle.sl_trace.specs.declared.effects.Move.TheVariants.{Unregister};
ghost use Rattle.sl_words.specs.Bounds.{moments};
ghost use Rattle.std.specs.Prelude.{IfOk, IfSome, IsTrue, OnErr, OnOk, false, ◌+◌, ◌<◌, ◌≡◌, ◌≤◌};

use crate::delta_purposes::{is_survey, writes_own};
use crate::delta_reads::fits_answer;
use crate::delta_stages::{first_or_on_wake, stage_of, standing_of};
use crate::delta_steps::{DeltaIn, DeltaOut};
use crate::delta_told::sector_answer;
use sl_area::Geometry;
use sl_delta::{OwnSector, has_next, has_passed};
use sl_request::Bitmap;
use sl_text::Name;
use sl_time::Timing;
use sl_trace::{Answer, DeltaNext, Move, Purpose, Stage};
use std::alloc::{AllocError, Global};
use std::marker::Model;

/// How a session stands: before, in, or behind the time in which it is joined.
#[derive(Clone, Copy)]
pub enum Standing {
    /// Its joining goes on.
    Joins,
    /// It is joined, and has not ended; it may be in recovery, or leave.
    Holds,
    /// Its joining was refused, and it makes no further call.
    Declined,
    /// It was joined, and has ended: it left, or its recovery is over.
    Gone,
}

/// A call without an answer: its purpose, and the reading of its submission.
#[derive(Clone, Copy)]
pub struct OpenDelta {
    pub purpose: Purpose,
    pub made: u64,
}

/// A session's lease on an id, in a fixed size: what of all its calls and answers its next step depends on.
#[derive(Drop)]
pub struct DeltaLease {
    pub(crate) own: OwnSector,
    pub(crate) standing: Standing,
    pub(crate) last: u64,
    pub(crate) recovering: bool,
    pub(crate) registered: bool,
    pub(crate) waits: Option<OpenDelta>,
}

impl Model for DeltaLease {
    ghost use Rattle.sl_alone.specs.DeltaSteps.{LeaseState, IsWithinStep};

    ghost Value = { LeaseState };

    ghost view = { λ l. record {
      own = l.own;
      standing = l.standing;
      last = l.last;
      recovering = l.recovering;
      registered = l.registered;
      waits = l.waits;
    } };

    ghost invariant = { λ l. IsWithinStep l.own l.standing l.last l.waits };
}

/// What is given where recovery has begun by time, or not.
fn with_recovery(late: bool, out: DeltaOut) -> DeltaOut
    ensures { result ≡ with_recovery late out }
{
    DeltaOut {
        recovers: late || out.recovers,
        moved: out.moved,
        call: out.call,
        outcome: out.outcome,
    }
}

impl DeltaLease {
    /// The lease of a session that joins: on this id, 1 to the run's number of hosts, of this lockspace, for the daemon of this name.
    pub fn start(
        timing: &Timing,
        geometry: &Geometry,
        lockspace: Name,
        id: u32,
        host: Name,
    ) -> DeltaLease
        requires id { (1 ≤ id) × (id ≤ geometry.now.hosts) }
        requires named { IsTrue (is_name host) × IsTrue (is_name lockspace) }
        ensures { result ≡ new_lease (without_calls timing.now geometry.now host lockspace id 0 0) }
    {
        DeltaLease {
            own: OwnSector::new(timing, geometry, host, lockspace, id),
            standing: Standing::Joins,
            last: 0,
            recovering: false,
            registered: false,
            waits: None,
        }
    }

    /// The lease of a session that its daemon begins with: joined under generation 1, by a renewal submitted at the reading `renewed`.
    pub fn joined(
        timing: &Timing,
        geometry: &Geometry,
        lockspace: Name,
        id: u32,
        host: Name,
        renewed: u64,
    ) -> DeltaLease
        requires id { (1 ≤ id) × (id ≤ geometry.now.hosts) }
        requires named { IsTrue (is_name host) × IsTrue (is_name lockspace) }
        requires moment { renewed < moments }
        ensures { result ≡ joined_lease (without_calls timing.now geometry.now host lockspace id 1 renewed) renewed }
    {
        DeltaLease {
            own: OwnSector::given(timing, geometry, host, lockspace, id, renewed),
            standing: Standing::Holds,
            last: renewed,
            recovering: false,
            registered: true,
            waits: None,
        }
    }

    /// The submission reading of the last renewal that was answered ok outside recovery; None exactly before it is joined, and after its
    /// end.
    pub fn last_renewal(&self) -> Option<u64>
        ensures { result ≡ last_told self.now }
    {
        match self.standing {
            Standing::Joins => None,
            Standing::Holds => Some(self.last),
            Standing::Declined => None,
            Standing::Gone => None,
        }
    }

    /// The stage: while it joins by its newest call, then joined, freeing, refused or gone.
    pub fn state(&self) -> Stage
        ensures { result ≡ stage_told self.now }
    {
        match self.standing {
            Standing::Joins => stage_of(&self.own),
            Standing::Holds => standing_of(&self.own),
            Standing::Declined => Stage::Refused,
            Standing::Gone => Stage::Ended,
        }
    }

    /// Recovery begins by time, where it does.
    fn begin(&mut self, now: u64) -> bool
        ensures late { result ≡ is_late now self.old }
        ensures state { self.new ≡ begun now self.old }
    {
        let late = self.is_late(now);
        self.recovering = late || self.recovering;
        late
    }

    /// Whether recovery begins at this reading by time: `fail` has passed since the last renewal's submission.
    fn is_late(&self, now: u64) -> bool
        ensures { result ≡ is_late now self.now }
    {
        match self.standing {
            Standing::Holds => !self.recovering
                && has_passed(self.last, self.own.timing.fail(), now),
            Standing::Joins => false,
            Standing::Declined => false,
            Standing::Gone => false,
        }
    }

    /// What a wake makes due.
    fn wake_next(&self, now: u64, bits: &Bitmap) -> DeltaNext
        requires { now < moments }
        ensures exact { result ≡ wake_next now bits.now self.now }
        ensures fit { IsFitNext result }
    {
        match self.standing {
            Standing::Joins => first_or_on_wake(&self.own, now),
            Standing::Holds => self.own.renewal(now, self.recovering, None, bits),
            Standing::Declined => DeltaNext::Nothing,
            Standing::Gone => DeltaNext::Nothing,
        }
    }

    /// A wake, at this reading; a renewal would have these bits.
    fn wake(&mut self, now: u64, bits: &Bitmap) -> DeltaOut
        requires { now < moments }
        ensures state { self.new ≡ step_from now (Wake bits.now) self.old }
        ensures out { result ≡ given_from now (Wake bits.now) self.old }
    {
        let next = self.wake_next(now, bits);
        self.carry(now, next)
    }

    /// The joining's job was refused.
    fn refuse(&mut self) -> DeltaOut
        ensures state { self.new ≡ refused_now self.old }
        ensures out { result ≡ refusing self.old }
    {
        let moved = self.refused_move();
        if matches!(self.standing, Standing::Joins) {
            self.registered = self.registered && self.has_open_write();
            self.standing = Standing::Declined;
        }
        DeltaOut {
            recovers: false,
            moved,
            call: None,
            outcome: None,
        }
    }

    /// Whether a write is unanswered.
    fn has_open_write(&self) -> bool
        ensures { result ≡ has_open_write self.now }
    {
        match &self.waits {
            Some(waiting) => writes_own(&waiting.purpose),
            None => false,
        }
    }

    /// The move of a joining that is refused.
    fn refused_move(&self) -> Option<Move>
        ensures { result ≡ refused_move self.now }
    {
        match self.standing {
            Standing::Joins => {
                if self.registered && !self.has_open_write() {
                    Some(Move::Unregister {
                        lockspace: self.own.lockspace,
                    })
                } else {
                    None
                }
            }
            Standing::Holds => None,
            Standing::Declined => None,
            Standing::Gone => None,
        }
    }

    /// Whether it may end, or free its sector.
    fn may_leave(&self) -> bool
        ensures { result ≡ may_leave self.now }
    {
        match self.standing {
            Standing::Holds => {
                if self.recovering {
                    !self.has_open_write()
                } else {
                    self.waits.is_none() && has_next(self.own.seq) && 1 <= self.own.generation
                }
            }
            Standing::Joins => false,
            Standing::Declined => false,
            Standing::Gone => false,
        }
    }

    /// It ends in recovery, and its connection goes.
    fn end(&mut self) -> DeltaOut
        ensures state { self.new ≡ ended self.old }
        ensures out { result ≡ ending self.old }
    {
        self.standing = Standing::Gone;
        self.registered = false;
        DeltaOut {
            recovers: false,
            moved: Some(Move::Unregister {
                lockspace: self.own.lockspace,
            }),
            call: None,
            outcome: None,
        }
    }

    /// The free is written, or it ends.
    fn leave(&mut self, now: u64) -> DeltaOut
        requires moment { now < moments }
        requires left { (self.old.recovering ≡ false) → (Fits (self.old.own.seq + 1) × (1 ≤ self.old.own.generation)) }
        ensures state { self.new ≡ step_from now Leave self.old }
        ensures out { result ≡ given_from now Leave self.old }
    {
        if self.recovering {
            return self.end();
        }
        let next = self.own.free(now, Some(0));
        self.carry(now, next)
    }

    /// The call that waited is answered: an own sector's answer has its sector read.
    fn answer(
        &mut self,
        alloc: Global,
        now: u64,
        call: u64,
        waiting: &OpenDelta,
        answer: Answer,
    ) -> Result<DeltaOut, AllocError>
        requires moments { (now < moments) × (waiting.now.made < moments) }
        requires fit { IsFitAnswer self.old.own answer waiting.now.purpose }
        ensures state { OnOk result (self.new ≡ after_told now call waiting.now.purpose waiting.now.made answer (begun now self.old)) }
        ensures out { IfOk result (λ out. out ≡ with_recovery (is_late now self.old) (given_told now call waiting.now.purpose waiting.now.made answer (begun now self.old))) }
        ensures err { OnErr result (self.new ≡ self.old) }
    {
        let _sizes = self.own.geometry.sector();
        if is_survey(&waiting.purpose) {
            let late = self.begin(now);
            return Ok(with_recovery(late, self.hear_survey(now, &answer)));
        }
        let answer = sector_answer(alloc, answer)?;
        let late = self.begin(now);
        Ok(with_recovery(late, self.hear(now, call, waiting, answer)))
    }

    /// The answer of this number came.
    fn hear_answer(
        &mut self,
        alloc: Global,
        now: u64,
        call: u64,
        answer: Answer,
    ) -> Result<DeltaOut, AllocError>
        requires moment { now < moments }
        requires fit { IfSome self.old.waits (λ w. IsFitAnswer self.old.own answer w.purpose) }
        ensures state { OnOk result (self.new ≡ after_step now (Told call answer) self.old) }
        ensures out { IfOk result (λ out. out ≡ out_of_step now (Told call answer) self.old) }
        ensures err { OnErr result (self.new ≡ self.old) }
    {
        match self.waits {
            Some(waiting) => self.answer(alloc, now, call, &waiting, answer),
            None => {
                let late = self.begin(now);
                Ok(with_recovery(late, nothing_given()))
            }
        }
    }

    /// One step, at the reading `now`, of what comes: it gives exactly what is due. The answer that comes is that of the call without an
    /// answer, a read's as long as it asks; a lease that frees is joined, outside recovery and without a call of its own, and its seq is
    /// below 2^63 - 1. An `Err` is want of memory for the sector of an answer, and changes nothing.
    pub fn step(&mut self, alloc: Global, now: u64, input: DeltaIn) -> Result<DeltaOut, AllocError>
        requires moment { now < moments }
        requires fit { IsFitInput self.old input }
        ensures state { OnOk result (self.new ≡ after_step now input self.old) }
        ensures out { IfOk result (λ out. out ≡ out_of_step now input self.old) }
        ensures err { OnErr result (self.new ≡ self.old) }
    {
        match input {
            DeltaIn::Answered { call, answer } => self.hear_answer(alloc, now, call, answer),
            DeltaIn::Wake(bits) => {
                let late = self.begin(now);
                Ok(with_recovery(late, self.wake(now, &bits)))
            }
            DeltaIn::Refused => {
                let late = self.begin(now);
                Ok(with_recovery(late, self.refuse()))
            }
            DeltaIn::Leave => {
                let late = self.begin(now);
                Ok(with_recovery(late, self.leave(now)))
            }
        }
    }

    /// Whether this may come: an answer fits the call that waits, if one does; a lease that frees is joined and has a seq left.
    pub fn fits(&self, input: &DeltaIn) -> bool
        ensures { IsTrue result → IsFitInput self.now input.now }
    {
        match input {
            DeltaIn::Wake(_) => true,
            DeltaIn::Answered { call: _, answer } => self.fits_answer(answer),
            DeltaIn::Refused => true,
            DeltaIn::Leave => self.may_leave(),
        }
    }

    /// Whether an answer fits the call that waits, if one does.
    fn fits_answer(&self, answer: &Answer) -> bool
        ensures { IsTrue result → IfSome self.now.waits (λ w. IsFitAnswer self.now.own answer.now w.purpose) }
    {
        match &self.waits {
            Some(waiting) => fits_answer(&self.own, is_survey(&waiting.purpose), answer),
            None => true,
        }
    }
}

/// What a step gives that makes nothing due.
fn nothing_given() -> DeltaOut
    ensures { result ≡ nothing_given }
{
    DeltaOut {
        recovers: false,
        moved: None,
        call: None,
        outcome: None,
    }
}
