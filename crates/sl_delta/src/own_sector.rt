//! What a session keeps of its calls on its id's sector.

ghost use Rattle.sl_delta.specs.OwnSector.{HasMoments, IsMade, IsOwnRecord, IsTold, OwnStands, after_answer, after_call, answer_in, heard, known_with, newest_made, newest_told, without_calls};
ghost use Rattle.sl_host_state.specs.HeardInputs.{answered_at};
ghost use Rattle.sl_sector.specs.Records.{Fits};
ghost use Rattle.sl_trace.specs.Sessions.{is_join_call};
ghost use Rattle.sl_trace.specs.declared.session.Session.{Session};
ghost use Rattle.sl_text.specs.Names.{is_name};
ghost use Rattle.sl_trace.specs.Traces.{Answered, Submitted, bytes_given};
ghost use Rattle.sl_trace.specs.declared.effects.JoinStep.TheVariants.{FirstRead};
ghost use Rattle.sl_trace.specs.declared.input.Answer.{Answer};
ghost use Rattle.sl_words.specs.Bounds.{moments};
ghost use Rattle.std.specs.Arc.{arc_value};
ghost use Rattle.std.specs.Option.{option_copied, option_map_or};
ghost use Rattle.sl_trace.specs.declared.effects.Purpose.TheVariants.{Joining};
ghost use Rattle.std.specs.Prelude.{ℕ, cond, option_map, IfSome, IsTrue, List, None, Some, false, true, ◌<◌, ◌∷◌, ◌≡◌, ◌≤◌};

use crate::answer::SectorAnswer;
use crate::purposes::{is_claim, is_delta, is_first_read, is_free, is_renewal, join_step_of};
use sl_area::Geometry;
use sl_host_state::JoinCall;
use sl_sector::{DeltaRec, Image};
use sl_text::Name;
use sl_time::Timing;
use sl_trace::{DeltaKnown, Purpose};
use std::marker::Model;
use std::sync::Arc;

/// What a session keeps of its calls on its id's sector.
#[derive(Drop)]
pub struct OwnSector {
    pub timing: Timing,
    pub geometry: Geometry,
    pub host: Name,
    pub lockspace: Name,
    pub id: u32,
    pub watched: Option<Arc<Image>>,
    pub since: Option<u64>,
    pub claim: Option<DeltaRec>,
    pub newest: Option<JoinCall>,
    pub generation: u64,
    pub seq: u64,
    pub renewed: u64,
    pub busy: bool,
    pub freed: bool,
}

impl Model for OwnSector {
    ghost use Rattle.sl_delta.specs.OwnSector.{IsWithin, OwnState};
    ghost use Rattle.std.specs.Arc.{arc_value};
    ghost use Rattle.std.specs.Prelude.{option_map};

    ghost Value = { OwnState };

    ghost view = { λ o. record {
      timing = o.timing;
      sizes = o.geometry;
      host = o.host;
      lockspace = o.lockspace;
      id = o.id;
      joining = record {
        watched = option_map (λ w. arc_value w) o.watched;
        since = o.since;
        claim = o.claim;
        newest = o.newest;
      };
      generation = o.generation;
      seq = o.seq;
      renewed = o.renewed;
      busy = o.busy;
      freed = o.freed;
    } };

    ghost invariant = { λ o. IsWithin o.geometry o.host o.lockspace o.id o.claim o.since o.newest o.generation o.seq o.renewed };
}

impl OwnSector {
    /// Of an id that is to be joined, before the first call.
    pub fn new(
        timing: &Timing,
        geometry: &Geometry,
        host: Name,
        lockspace: Name,
        id: u32,
    ) -> OwnSector
        requires id { (1 ≤ id) × (id ≤ geometry.now.hosts) }
        requires named { IsTrue (is_name host) × IsTrue (is_name lockspace) }
        ensures { result ≡ without_calls timing.now geometry.now host lockspace id 0 0 }
    {
        OwnSector::without_calls(timing, geometry, host, lockspace, id, 0, 0)
    }

    /// Of a session that its daemon begins with: it is joined under generation 1 and seq 1 by a renewal submitted at this reading.
    pub fn given(
        timing: &Timing,
        geometry: &Geometry,
        host: Name,
        lockspace: Name,
        id: u32,
        renewed: u64,
    ) -> OwnSector
        requires id { (1 ≤ id) × (id ≤ geometry.now.hosts) }
        requires named { IsTrue (is_name host) × IsTrue (is_name lockspace) }
        requires moment { renewed < moments }
        ensures { result ≡ without_calls timing.now geometry.now host lockspace id 1 renewed }
    {
        OwnSector::without_calls(timing, geometry, host, lockspace, id, 1, renewed)
    }

    /// Before the first call.
    fn without_calls(
        timing: &Timing,
        geometry: &Geometry,
        host: Name,
        lockspace: Name,
        id: u32,
        number: u64,
        renewed: u64,
    ) -> OwnSector
        requires id { (1 ≤ id) × (id ≤ geometry.now.hosts) }
        requires named { IsTrue (is_name host) × IsTrue (is_name lockspace) }
        requires number { number ≤ 1 }
        requires moment { renewed < moments }
        ensures { result ≡ without_calls timing.now geometry.now host lockspace id number renewed }
    {
        OwnSector {
            timing: *timing,
            geometry: *geometry,
            host,
            lockspace,
            id,
            watched: None,
            since: None,
            claim: None,
            newest: None,
            generation: number,
            seq: number,
            renewed,
            busy: false,
            freed: false,
        }
    }

    /// What is known of the session; `recovering` says whether recovery has begun, `leaving` for which job it leaves.
    pub fn known(&self, recovering: bool, leaving: Option<u64>) -> DeltaKnown
        ensures exact { result ≡ known_with self.now recovering leaving }
        ensures bounds { Fits result.generation × Fits result.seq × (result.renewed < moments) }
        ensures place { (1 ≤ self.now.id) × (self.now.id ≤ self.now.sizes.hosts) }
    {
        DeltaKnown {
            generation: self.generation,
            seq: self.seq,
            renewed: self.renewed,
            busy: self.busy,
            recovering,
            leaving,
            freed: self.freed,
        }
    }

    /// A call of the session for this purpose is submitted, which writes this delta record, if any. It counts from here on, whatever comes
    /// of it. What is kept stands for the list with that call, where it is on a delta sector and no other such call waits for its answer.
    pub fn called(&mut self, now: u64, purpose: &Purpose, written: Option<&DeltaRec>)
        requires moment { now < moments }
        requires rules { IfSome (option_copied written) IsOwnRecord }
        ensures state { self.new ≡ after_call purpose.now (option_copied written.entry) now self.old }
        ensures stands { (s : Session) (m : Submitted) (ms : List Submitted) → OwnStands s self.old ms → IsMade purpose.now (option_copied written.entry) now m
            → self.old.busy ≡ false → OwnStands s self.new (m ∷ ms) }
    {
        self.take_call(now, purpose, written);
    }

    /// The call is submitted.
    fn take_call(&mut self, now: u64, purpose: &Purpose, written: Option<&DeltaRec>)
        requires moment { now < moments }
        requires rules { IfSome (option_copied written) IsOwnRecord }
        ensures { self.new ≡ after_call purpose.now (option_copied written.entry) now self.old }
    {
        let first = is_first_read(purpose);
        if first {
            self.watched = None;
        }
        self.since = unless(first, self.since);
        note_claim(&mut self.claim, is_claim(purpose), written);
        self.newest = newest_of(now, purpose);
        self.generation = generation_after(written, self.generation);
        self.seq = seq_after(written, self.seq);
        self.renewed = renewed_after(is_renewal(purpose), now, self.renewed);
        self.busy = is_delta(purpose) || self.busy;
        self.freed = is_free(purpose) || self.freed;
    }

    /// The joining's first read was answered so.
    pub fn first_answered(&mut self, now: u64, answer: SectorAnswer)
        requires { now < moments }
        ensures state { (j : ℕ) → self.new ≡ after_answer (Joining j FirstRead) (answer_in answer) now self.old }
        ensures stands { (s : Session) (j : ℕ) (m : Submitted) (ms : List Submitted) (a : Answered) → OwnStands s self.old (m ∷ ms)
            → IsTold (Joining j FirstRead) (answer_in answer) now m a → OwnStands s self.new (record m { answer = Some a } ∷ ms) }
    {
        self.take_first(now, answer);
    }

    /// The first read is answered.
    fn take_first(&mut self, now: u64, answer: SectorAnswer)
        requires { now < moments }
        ensures { (j : ℕ) → self.new ≡ after_answer (Joining j FirstRead) (answer_in answer) now self.old }
    {
        self.watched = sector_in(answer);
        self.since = Some(now);
        self.heard(now, true, true);
    }

    /// Another call of the session than a joining's first read was answered.
    pub fn answered(&mut self, now: u64, purpose: &Purpose)
        requires moment { now < moments }
        requires later { is_join_call FirstRead purpose.now ≡ false }
        ensures state { (a : Answer) → self.new ≡ after_answer purpose.now a now self.old }
        ensures stands { (s : Session) (m : Submitted) (ms : List Submitted) (a : Answered) → OwnStands s self.old (m ∷ ms)
            → IsTold purpose.now a.answer now m a → OwnStands s self.new (record m { answer = Some a } ∷ ms) }
    {
        self.take_answer(now, purpose);
    }

    /// The call is answered.
    fn take_answer(&mut self, now: u64, purpose: &Purpose)
        requires moment { now < moments }
        requires later { is_join_call FirstRead purpose.now ≡ false }
        ensures { (a : Answer) → self.new ≡ after_answer purpose.now a now self.old }
    {
        self.heard(now, is_delta(purpose), join_step_of(purpose).is_some());
    }

    /// What each answer changes.
    fn heard(&mut self, now: u64, on_delta: bool, joins: bool)
        requires { now < moments }
        ensures { self.new ≡ heard now on_delta joins self.old }
    {
        self.newest = newest_told(joins, now, self.newest);
        self.busy = !on_delta && self.busy;
    }
}

/// The reading, unless the first read is made anew.
fn unless(anew: bool, since: Option<u64>) -> Option<u64>
    ensures exact { result ≡ cond anew None since }
    ensures bounds { IfSome since (λ t. t < moments) → IfSome result (λ t. t < moments) }
{
    if anew { None } else { since }
}

/// The claim after a call that writes this record, if any, and is a claim or not. Few are, and a record is large.
fn note_claim(claim: &mut Option<DeltaRec>, claims: bool, written: Option<&DeltaRec>)
    ensures exact { claim.new ≡ cond claims (option_copied written.entry) claim.old }
    ensures bounds { IfSome (option_copied written.entry) IsOwnRecord → IfSome claim.old IsOwnRecord → IfSome claim.new IsOwnRecord }
{
    if claims {
        *claim = written.copied();
    }
}

/// The reading of the last renewal's submission.
fn renewed_after(renews: bool, now: u64, before: u64) -> u64
    ensures { result ≡ cond renews now before }
{
    if renews { now } else { before }
}

/// The newest call of a joining, where it is one of its steps.
fn newest_of(now: u64, purpose: &Purpose) -> Option<JoinCall>
    ensures exact { result ≡ newest_made purpose.now now }
    ensures bounds { now < moments → IfSome result HasMoments }
{
    match join_step_of(purpose) {
        Some(step) => Some(JoinCall {
            step,
            made: now,
            answered: None,
        }),
        None => None,
    }
}

/// The same with its answer at this reading, if it had none.
fn answered_at(now: u64, newest: Option<JoinCall>) -> Option<JoinCall>
    ensures exact { result ≡ option_map (answered_at now) newest }
    ensures bounds { now < moments → IfSome newest HasMoments → IfSome result HasMoments }
{
    match newest {
        Some(call) => Some(JoinCall {
            step: call.step,
            made: call.made,
            answered: call.answered.or(Some(now)),
        }),
        None => None,
    }
}

/// The newest call after an answer, to a step of the joining or to another call.
fn newest_told(joins: bool, now: u64, newest: Option<JoinCall>) -> Option<JoinCall>
    ensures exact { result ≡ newest_told joins now newest }
    ensures bounds { now < moments → IfSome newest HasMoments → IfSome result HasMoments }
{
    if joins {
        answered_at(now, newest)
    } else {
        newest
    }
}

/// The generation after a record was submitted, if any was.
fn generation_after(written: Option<&DeltaRec>, before: u64) -> u64
    ensures exact { result ≡ option_map_or (λ d. d.generation) (option_copied written.entry) before }
    ensures bounds { IfSome (option_copied written.entry) IsOwnRecord → Fits before → Fits result }
{
    match written {
        Some(record) => record.generation,
        None => before,
    }
}

/// The seq after a record was submitted, if any was.
fn seq_after(written: Option<&DeltaRec>, before: u64) -> u64
    ensures exact { result ≡ option_map_or (λ d. d.seq) (option_copied written.entry) before }
    ensures bounds { IfSome (option_copied written.entry) IsOwnRecord → Fits before → Fits result }
{
    match written {
        Some(record) => record.seq,
        None => before,
    }
}

/// The sector that was read, if one was.
fn sector_in(answer: SectorAnswer) -> Option<Arc<Image>>
    ensures { option_map (λ w. arc_value w) result ≡ bytes_given (answer_in answer) }
{
    match answer {
        SectorAnswer::Read(sector) => Some(sector),
        SectorAnswer::Written => None,
        SectorAnswer::Failed => None,
    }
}
