//! What a joining does next.
//!
//! The watched sector is the one that the first read gave. Every later read of the watch, and the deciding read, must give the same bytes:
//! a record that changed has a writer that lives. The verify read must give the own claim: another's may have landed over it.

ghost use Rattle.sl_area.specs.AreaSizes.{layout_of, sector_with};
ghost use Rattle.sl_delta.specs.DeltaDecisions.{IsFitNext, after_deciding, after_join, after_join_read, after_join_write, after_verify, after_watch, claim_waited, first_renewal, first_spelled, is_over_since, on_wake, time_next, watch_next, watched_in};
ghost use Rattle.sl_delta.specs.OwnSector.{IsOwnRecord, answer_in, lease_of};
ghost use Rattle.sl_trace.specs.DeltaDecisions.{claim_on, id_held, id_lost, next_after_first};
ghost use Rattle.sl_words.specs.Bounds.{moments};
ghost use Rattle.sl_sector.specs.declared.sector.Rec.TheVariants.{DeltaIs};
ghost use Rattle.sl_trace.specs.declared.delta.DeltaNext.TheVariants.{RefuseJoin};
ghost use Rattle.sl_trace.specs.declared.reply.Reply.TheVariants.{Limit as LimitReached};
ghost use Rattle.std.specs.Prelude.{bytes_eq, ◌<◌, ◌≡◌};

use crate::answer::SectorAnswer;
use crate::numbers::{has_next, has_passed};
use crate::own_sector::OwnSector;
use crate::reads::{delta_of, is_free, owner_in, version_in};
use sl_request::Bitmap;
use sl_sector::{DeltaRec, DeltaState, Image, Rec};
use sl_text::Name;
use sl_time::Timing;
use sl_trace::{DeltaNext, DeltaOwner, DeltaVersion, JoinStep, Limited, Reply};

/// The refusal for want of a further number.
fn limit(which: Limited) -> DeltaNext
    ensures exact { result ≡ RefuseJoin (LimitReached which) }
    ensures fit { IsFitNext result }
{
    DeltaNext::RefuseJoin(Reply::Limit { which })
}

/// After the first read of an id of this lockspace, where the sector spells this record.
fn after_first_record(lockspace: &Name, id: u32, record: &DeltaRec) -> DeltaNext
    ensures exact { result ≡ first_spelled lockspace.now id «record».now }
    ensures fit { IsFitNext result }
{
    if record.lockspace.as_slice() != lockspace.as_slice() || record.id != id {
        return DeltaNext::RefuseJoin(Reply::WrongDelta {
            lockspace: record.lockspace,
            id: record.id,
        });
    }
    if is_free(record.state) {
        DeltaNext::RegisterAndRead(JoinStep::DecidingRead)
    } else {
        DeltaNext::Nothing
    }
}

/// After a read of a watch: it is read again once `renew` has passed.
fn in_watch(timing: &Timing, now: u64, answered: u64) -> DeltaNext
    requires { answered < moments }
    ensures exact { result ≡ watch_next timing.now now answered }
    ensures fit { IsFitNext result }
{
    if has_passed(answered, timing.renew(), now) {
        DeltaNext::ReadOwn(JoinStep::WatchRead)
    } else {
        DeltaNext::Nothing
    }
}

/// After the claim's answer: the verify read once `dead` has passed, unless more than `join_max` has since the claim.
fn after_claim(timing: &Timing, now: u64, claimed: u64, answered: u64) -> DeltaNext
    requires { (claimed < moments) × (answered < moments) }
    ensures exact { result ≡ claim_waited timing.now now claimed answered }
    ensures fit { IsFitNext result }
{
    if now < answered + timing.dead() {
        return DeltaNext::Nothing;
    }
    if claimed + timing.join_max() < now {
        DeltaNext::RefuseJoin(Reply::IdLate { claimed, now })
    } else {
        DeltaNext::RegisterAndRead(JoinStep::VerifyRead)
    }
}

/// By the step of the newest call, submitted and answered at these readings.
fn by_time(timing: &Timing, now: u64, made: u64, answered: u64, step: JoinStep) -> DeltaNext
    requires { (made < moments) × (answered < moments) }
    ensures exact { result ≡ time_next timing.now now made answered step }
    ensures fit { IsFitNext result }
{
    match step {
        JoinStep::FirstRead => in_watch(timing, now, answered),
        JoinStep::WatchRead => in_watch(timing, now, answered),
        JoinStep::DecidingRead => DeltaNext::Nothing,
        JoinStep::ClaimWrite => after_claim(timing, now, made, answered),
        JoinStep::VerifyRead => DeltaNext::Nothing,
        JoinStep::FirstRenewal => DeltaNext::Nothing,
    }
}

impl OwnSector {
    /// After the first read: a torn sector or another lockspace's refuses; a free record needs no watch.
    #[tactic(auto, unfolding(sl_trace::specs::DeltaDecisions::next_after_first))]
    fn after_first(&self, sector: &Image) -> DeltaNext
        ensures exact { result ≡ next_after_first (lease_of self.now) sector.now }
        ensures fit { IsFitNext result }
    {
        match delta_of(sector) {
            None => DeltaNext::RefuseJoin(Reply::TornDelta),
            Some(record) => after_first_record(&self.lockspace, self.id, &record),
        }
    }

    /// The refusal by two reads that differ.
    fn id_held(&self, sector: &Image) -> Reply
        ensures { result ≡ id_held (layout_of self.now.sizes) (watched_in self.now) sector.now }
    {
        let none = DeltaVersion {
            generation: 0,
            seq: 0,
        };
        Reply::IdHeld {
            first: self.watched_version().unwrap_or(none),
            later: version_in(sector),
        }
    }

    /// Whether a read submitted at this reading ends the watch.
    fn is_watched_out(&self, read_at: u64) -> bool
        ensures { result ≡ is_over_since self.now.timing self.now.joining.since read_at }
    {
        match self.since {
            Some(answered) => answered + self.timing.take() <= read_at,
            None => false,
        }
    }

    /// After a further read, submitted at this reading.
    fn after_watch(&self, read_at: u64, sector: &Image) -> DeltaNext
        ensures exact { result ≡ after_watch self.now read_at sector.now }
        ensures fit { IsFitNext result }
    {
        if !self.is_watched(sector) {
            return DeltaNext::RefuseJoin(self.id_held(sector));
        }
        if self.is_watched_out(read_at) {
            DeltaNext::RegisterAndRead(JoinStep::DecidingRead)
        } else {
            DeltaNext::Nothing
        }
    }

    /// The claim on this record: one generation and one seq higher.
    fn claim_on(&self, now: u64, record: &DeltaRec) -> DeltaNext
        requires { now < moments }
        ensures exact { result ≡ claim_on (lease_of self.now) now «record».now }
        ensures fit { IsFitNext result }
    {
        if !has_next(record.generation) {
            return limit(Limited::Gen);
        }
        if !has_next(record.seq) {
            return limit(Limited::Seq);
        }
        DeltaNext::WriteClaim(self.record(
            DeltaState::Claimed,
            record.generation + 1,
            record.seq + 1,
            now,
            &Bitmap::none(),
        ))
    }

    /// After the deciding read.
    fn after_deciding(&self, now: u64, sector: &Image) -> DeltaNext
        requires { now < moments }
        ensures exact { result ≡ after_deciding self.now now sector.now }
        ensures fit { IsFitNext result }
    {
        if !self.is_watched(sector) {
            return DeltaNext::RefuseJoin(self.id_held(sector));
        }
        match delta_of(sector) {
            Some(record) => self.claim_on(now, &record),
            None => DeltaNext::Nothing,
        }
    }

    /// The refusal by a read that isn't the own claim.
    fn id_lost(&self, claim: &DeltaRec, sector: &Image) -> Reply
        ensures { result ≡ id_lost (lease_of self.now) claim.now sector.now }
    {
        Reply::IdLost {
            own: DeltaOwner {
                generation: claim.generation,
                name: self.host,
            },
            found: owner_in(sector),
        }
    }

    /// Whether the sector is the one that spells the claim.
    fn is_claimed(&self, claim: &DeltaRec, sector: &Image) -> bool
        requires { IsOwnRecord claim.now }
        ensures { result ≡ bytes_eq sector.now (sector_with (layout_of self.now.sizes) (DeltaIs claim.now)) }
    {
        let own = Image::of_record(self.geometry.sector(), Rec::DeltaIs(*claim));
        sector.is_same(&own)
    }

    /// The first renewal of this claim.
    fn first_renewal(&self, now: u64, claim: &DeltaRec) -> DeltaNext
        requires moment { now < moments }
        requires rules { IsOwnRecord claim.now }
        ensures exact { result ≡ first_renewal self.now now claim.now }
        ensures fit { IsFitNext result }
    {
        if !has_next(claim.seq) {
            return limit(Limited::Seq);
        }
        DeltaNext::WriteFirst(self.record(
            DeltaState::Live,
            claim.generation,
            claim.seq + 1,
            now,
            &Bitmap::none(),
        ))
    }

    /// After the verify read.
    fn after_verify(&self, now: u64, sector: &Image) -> DeltaNext
        requires { now < moments }
        ensures exact { result ≡ after_verify self.now now sector.now }
        ensures fit { IsFitNext result }
    {
        match &self.claim {
            None => DeltaNext::Nothing,
            Some(claim) => {
                if self.is_claimed(claim, sector) {
                    self.first_renewal(now, claim)
                } else {
                    DeltaNext::RefuseJoin(self.id_lost(claim, sector))
                }
            }
        }
    }

    /// After a read at this step, submitted at the reading `made`.
    fn after_join_read(&self, now: u64, made: u64, sector: &Image, step: JoinStep) -> DeltaNext
        requires { now < moments }
        ensures exact { result ≡ after_join_read self.now now made sector.now step }
        ensures fit { IsFitNext result }
    {
        match step {
            JoinStep::FirstRead => self.after_first(sector),
            JoinStep::WatchRead => self.after_watch(made, sector),
            JoinStep::DecidingRead => self.after_deciding(now, sector),
            JoinStep::ClaimWrite => DeltaNext::Nothing,
            JoinStep::VerifyRead => self.after_verify(now, sector),
            JoinStep::FirstRenewal => DeltaNext::Nothing,
        }
    }

    /// After a write at this step, submitted at the reading `made`.
    fn after_join_write(&self, made: u64, step: JoinStep) -> DeltaNext
        requires { made < moments }
        ensures exact { result ≡ after_join_write self.now made step }
        ensures fit { IsFitNext result }
    {
        match step {
            JoinStep::FirstRead => DeltaNext::Nothing,
            JoinStep::WatchRead => DeltaNext::Nothing,
            JoinStep::DecidingRead => DeltaNext::Nothing,
            JoinStep::ClaimWrite => DeltaNext::Disconnect,
            JoinStep::VerifyRead => DeltaNext::Nothing,
            JoinStep::FirstRenewal => DeltaNext::Join {
                generation: self.generation,
                renewed: made,
            },
        }
    }

    /// What a joining that goes on does after an answer to its call with this number, which was at this step and was submitted at the
    /// reading `made`. It may be asked before or after that answer was told by `first_answered` or `answered`. What is written is a record.
    pub fn after_join(
        &self,
        now: u64,
        call: u64,
        made: u64,
        step: JoinStep,
        answer: &SectorAnswer,
    ) -> DeltaNext
        requires { (now < moments) × (made < moments) }
        ensures exact { result ≡ after_join self.now now call made step (answer_in answer.now) }
        ensures fit { IsFitNext result }
    {
        match answer {
            SectorAnswer::Read(sector) => self.after_join_read(now, made, sector, step),
            SectorAnswer::Written => self.after_join_write(made, step),
            SectorAnswer::Failed => DeltaNext::RefuseJoin(Reply::IoFault { call }),
        }
    }

    /// What is due of a joining on a wake.
    pub fn on_wake(&self, now: u64) -> DeltaNext
        ensures exact { result ≡ on_wake self.now now }
        ensures fit { IsFitNext result }
    {
        match &self.newest {
            Some(call) => match call.answered {
                Some(answered) => by_time(&self.timing, now, call.made, answered, call.step),
                None => DeltaNext::Nothing,
            },
            None => DeltaNext::Nothing,
        }
    }
}
