//! The run of an id: the longest end of its sightings whose bytes are equal and spell a record of it.
//!
//! A read gives the bytes of some moment between its submission and its answer. So what a run shows is that nothing was written from
//! the answer of its first sighting to the submission of its last; that is its span, and no more is counted. Counted from the first
//! submission, the time before a renewal that landed during that read would be held against its writer, and he would be taken for dead
//! while he may act.
//!
//! Two sectors of one size that each spell a record have the same bytes exactly where the records are the same. So the record is kept in
//! place of the bytes, and nothing is hashed.
ghost use Rattle.std.specs.Prelude.{IsTrue, Option, Some, ℕ, ◌≡◌, ◌⊎◌, ◌↔◌};
ghost use Rattle.sl_trace.specs.Sightings.{is_free_state, is_live_state, is_silent, run_with, silence, span, state_of_run};
ghost use Rattle.sl_trace.specs.declared.sighting.Run.{Run};
ghost use Rattle.sl_trace.specs.declared.sighting.Sighting.{Sighting};
ghost use Rattle.sl_watch.specs.Summaries.{IsKeptRun, IsSeen, RunStands, bare_run};
ghost use Rattle.sl_watch.specs.ToldLooks.{kept_run_with, same_delta};

use sl_sector::{DeltaRec, DeltaState, Gen, Rec, same_record};
use sl_time::Timing;
use sl_trace::{Evidence, HostState};

/// The record that stands, the reading after the run's first sighting and the one before its last, and whether a sighting came before
/// the run.
#[derive(Clone, Copy)]
pub struct KeptRun {
    pub(crate) spelled: DeltaRec,
    pub(crate) since: u64,
    pub(crate) latest: u64,
    pub(crate) changed: bool,
}

/// Whether the state is free.
pub(crate) fn is_free(state: DeltaState) -> bool
    ensures { result ≡ is_free_state state }
{
    matches!(state, DeltaState::Free)
}

/// Whether the state is live.
fn is_live(state: DeltaState) -> bool
    ensures { result ≡ is_live_state state }
{
    matches!(state, DeltaState::Live)
}

/// Whether two records are one.
fn is_same(a: &DeltaRec, b: &DeltaRec) -> bool
    ensures truth { IsTrue result ↔ (a.now ≡ b.now) }
    ensures exact { result ≡ same_delta a.now b.now }
{
    same_record(&Rec::DeltaIs(*a), &Rec::DeltaIs(*b))
}

impl KeptRun {
    /// The run after a sighting between these readings that spells this record: the one before goes on where it has the same record, else
    /// a new one begins. `changed` says whether there was a sighting before.
    pub(crate) fn with(
        run: &Option<KeptRun>,
        before: u64,
        after: u64,
        spelled: &DeltaRec,
        changed: bool,
    ) -> KeptRun
        ensures stands { (size : ℕ) (r : Option Run) (s : Sighting) → RunStands size run.now r → s.before ≡ before → s.after ≡ after → IsSeen size s.bytes (Some spelled.now)
            → IsKeptRun size result (run_with r s spelled.now changed) }
        ensures exact { result ≡ kept_run_with run.now before after spelled.now changed }
    {
        match run {
            Some(run) => run.going_on(before, after, spelled, changed),
            None => KeptRun::begin(before, after, spelled, changed),
        }
    }

    /// The run of a sighting alone.
    fn begin(before: u64, after: u64, spelled: &DeltaRec, changed: bool) -> KeptRun
        ensures { result ≡ record { spelled = spelled.now; since = after; latest = before; changed = changed } }
    {
        KeptRun {
            spelled: *spelled,
            since: after,
            latest: before,
            changed,
        }
    }

    /// This run after a sighting.
    fn going_on(&self, before: u64, after: u64, spelled: &DeltaRec, changed: bool) -> KeptRun
        ensures same { self.now.spelled ≡ spelled.now → result ≡ record self.now { latest = before } }
        ensures other { (self.now.spelled ≡ spelled.now → ⊥) → result ≡ record { spelled = spelled.now; since = after; latest = before; changed = changed } }
        ensures exact { result ≡ kept_run_with (Some self.now) before after spelled.now changed }
        ensures either { (self.now.spelled ≡ spelled.now) ⊎ (self.now.spelled ≡ spelled.now → ⊥) }
    {
        if is_same(&self.spelled, spelled) {
            KeptRun {
                spelled: self.spelled,
                since: self.since,
                latest: before,
                changed: self.changed,
            }
        } else {
            KeptRun::begin(before, after, spelled, changed)
        }
    }

    /// How long nothing was written, in milliseconds: 0 where the last sighting was submitted before the first was answered.
    pub fn span(&self) -> u64
        ensures { result ≡ span (bare_run self.now) }
    {
        self.latest.saturating_sub(self.since)
    }

    /// Whether a live record of this generation stood still for `dead`.
    fn is_silent(&self, timing: &Timing, generation: Gen) -> bool
        ensures { result ≡ is_silent timing.now generation (bare_run self.now) }
    {
        self.span() >= timing.dead()
            && is_live(self.spelled.state)
            && self.spelled.generation == generation
    }

    /// The silence of this generation, if its live record stood still for `dead`.
    pub(crate) fn silence(&self, timing: &Timing, generation: Gen) -> Option<Evidence>
        ensures { result ≡ silence timing.now generation (Some (bare_run self.now)) }
    {
        if self.is_silent(timing, generation) {
            Some(Evidence::Silent {
                from: self.since,
                to: self.latest,
            })
        } else {
            None
        }
    }

    /// What the id looks like at a reading.
    pub(crate) fn state(&self, timing: &Timing, now: u64) -> HostState
        ensures { result ≡ state_of_run timing.now (bare_run self.now) now }
    {
        if is_free(self.spelled.state) {
            HostState::Free
        } else if self.span() >= timing.dead() {
            HostState::Dead
        } else if now.saturating_sub(self.since) >= timing.fail() {
            HostState::Failing
        } else if self.changed {
            HostState::Live
        } else {
            HostState::Unknown
        }
    }
}
