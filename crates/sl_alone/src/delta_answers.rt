//! What an answer makes of a delta lease.
//!
//! What it makes due is decided on what was kept before it; that it is told first changes nothing of it.

ghost use Rattle.sl_delta.specs.DeltaDecisions.{IsFitNext};
ghost use Rattle.sl_delta.specs.OwnSector.{answer_in};
ghost use Rattle.sl_alone.specs.DeltaSteps.{IsWholeRead, after_told, answer_next, followed, given_following, given_told, is_over, join_next, survey_shows};
ghost use Rattle.sl_alone.specs.declared.delta_lease.Standing.TheVariants.{Holds};
ghost use Rattle.sl_trace.specs.Sessions.{is_survey_purpose};
ghost use Rattle.sl_trace.specs.declared.effects.Purpose.TheVariants.{Survey};
ghost use Rattle.sl_words.specs.Bounds.{moments};
ghost use Rattle.std.specs.Prelude.{ℕ, false, ◌<◌, ◌≡◌};

use crate::delta_lease::{DeltaLease, OpenDelta, Standing};
use crate::delta_reads::shows_other;
use crate::delta_steps::DeltaOut;
use crate::delta_told::{after_free, after_renewal, surveyed, told};
use sl_delta::SectorAnswer;
use sl_trace::{Answer, DeltaNext, JoinStep, Purpose};

impl DeltaLease {
    /// What an answer makes due, to the call of this number, for this purpose, submitted at the reading `made`.
    pub(crate) fn answer_next(
        &self,
        now: u64,
        call: u64,
        purpose: &Purpose,
        made: u64,
        answer: &SectorAnswer,
    ) -> DeltaNext
        requires { (now < moments) × (made < moments) }
        ensures exact { result ≡ answer_next now call purpose.now made (answer_in answer.now) self.now }
        ensures fit { IsFitNext result }
    {
        match purpose {
            Purpose::Joining { job: _, step } => self.join_next(now, call, made, *step, answer),
            Purpose::Renewal => after_renewal(self.recovering, made, answer),
            Purpose::Leaving { job: _ } => after_free(0, call, answer),
            _ => DeltaNext::Nothing,
        }
    }

    /// The same at a step of the joining.
    pub(crate) fn join_next(
        &self,
        now: u64,
        call: u64,
        made: u64,
        step: JoinStep,
        answer: &SectorAnswer,
    ) -> DeltaNext
        requires { (now < moments) × (made < moments) }
        ensures exact { result ≡ join_next now call step made (answer_in answer.now) self.now }
        ensures fit { IsFitNext result }
    {
        match self.standing {
            Standing::Joins => self.own.after_join(now, call, made, step, answer),
            Standing::Holds => DeltaNext::Nothing,
            Standing::Declined => DeltaNext::Nothing,
            Standing::Gone => DeltaNext::Nothing,
        }
    }

    /// Whether the session has ended: refused, or gone.
    pub(crate) fn is_over(&self) -> bool
        ensures { result ≡ is_over self.now.standing }
    {
        match self.standing {
            Standing::Joins => false,
            Standing::Holds => false,
            Standing::Declined => true,
            Standing::Gone => true,
        }
    }

    /// What follows an answer: a decision is done, or a session that has ended parts with its connection.
    pub(crate) fn follow(&mut self, now: u64, over: bool, next: DeltaNext) -> DeltaOut
        requires moment { now < moments }
        requires fit { IsFitNext next }
        ensures state { self.new ≡ followed now over next self.old }
        ensures out { result ≡ given_following now over next self.old }
    {
        if !over {
            return self.carry(now, next);
        }
        let moved = self.unregistering();
        self.registered = false;
        DeltaOut {
            recovers: false,
            moved,
            call: None,
            outcome: None,
        }
    }

    /// The call that waited, on the own sector, is answered.
    pub(crate) fn hear(
        &mut self,
        now: u64,
        call: u64,
        waiting: &OpenDelta,
        answer: SectorAnswer,
    ) -> DeltaOut
        requires moments { (now < moments) × (waiting.now.made < moments) }
        requires own { is_survey_purpose waiting.now.purpose ≡ false }
        ensures state { self.new ≡ after_told now call waiting.now.purpose waiting.now.made (answer_in answer) self.old }
        ensures out { result ≡ given_told now call waiting.now.purpose waiting.now.made (answer_in answer) self.old }
    {
        let over = self.is_over();
        let next = self.answer_next(now, call, &waiting.purpose, waiting.made, &answer);
        told(&mut self.own, now, &waiting.purpose, answer);
        self.waits = None;
        self.follow(now, over, next)
    }

    /// Whether a read of all ids begins recovery.
    pub(crate) fn survey_shows(&self, answer: &Answer) -> bool
        requires { IsWholeRead self.now.own answer.now }
        ensures { result ≡ survey_shows answer.now self.now }
    {
        match self.standing {
            Standing::Holds => !self.recovering && shows_other(&self.own, answer),
            Standing::Joins => false,
            Standing::Declined => false,
            Standing::Gone => false,
        }
    }

    /// The read of all ids is answered.
    pub(crate) fn hear_survey(&mut self, now: u64, answer: &Answer) -> DeltaOut
        requires moment { now < moments }
        requires whole { IsWholeRead self.old.own answer.now }
        ensures state { (call made : ℕ) → self.new ≡ after_told now call Survey made answer.now self.old }
        ensures out { (call made : ℕ) → result ≡ given_told now call Survey made answer.now self.old }
    {
        let over = self.is_over();
        let shows = self.survey_shows(answer);
        surveyed(&mut self.own, now);
        self.waits = None;
        self.recovering = shows || self.recovering;
        let mut out = self.follow(now, over, DeltaNext::Nothing);
        out.recovers = shows;
        out
    }
}
