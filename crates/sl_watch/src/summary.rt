//! What the sightings of an id come to: enough for every question about it, and changed by one step for each sighting.
//!
//! Of the records that were seen, it has the greatest generation and whether that one was seen free. Of a smaller generation no more is
//! asked, since a newer one was seen; of a greater one nothing was seen.
ghost use Rattle.std.specs.Prelude.{ℕ, ◌≡◌};
ghost use Rattle.sl_trace.specs.declared.sighting.Sighting.{Sighting};
ghost use Rattle.sl_watch.specs.Summaries.{IsKept, IsSeen, Summary as Contents, evidence_by, freed_with, nothing_seen, state_by, summary_with, bare};
ghost use Rattle.sl_watch.specs.ToldLooks.{kept_with};

use crate::run::{KeptRun, is_free};
use sl_sector::{DeltaRec, Gen};
use sl_time::Timing;
use sl_trace::{Evidence, HostState};

/// The greatest generation that was seen (0 where none was) and whether it was seen free, whether there was any sighting, and the run.
#[derive(Clone, Copy)]
pub struct Summary {
    pub(crate) newest: Gen,
    pub(crate) freed: bool,
    pub(crate) any: bool,
    pub run: Option<KeptRun>,
}

/// Whether the greatest generation was seen free, with one more record.
fn freed_with(newest: Gen, freed: bool, delta: &DeltaRec) -> bool
    ensures { result ≡ freed_with newest freed delta.now }
{
    if newest < delta.generation {
        is_free(delta.state)
    } else if newest == delta.generation {
        is_free(delta.state) || freed
    } else {
        freed
    }
}

impl Summary {
    /// The summary of an id that nobody has looked at.
    pub(crate) fn blank() -> Summary
        ensures { result ≡ nothing_seen }
    {
        Summary {
            newest: 0,
            freed: false,
            any: false,
            run: None,
        }
    }

    /// The summary after a sighting between these readings, which spells this record of the id, if any.
    pub(crate) fn with(&self, before: u64, after: u64, delta: &Option<DeltaRec>) -> Summary
        ensures stands { (size : ℕ) (m : Contents) (s : Sighting) → IsKept size self.now m → s.before ≡ before → s.after ≡ after → IsSeen size s.bytes delta.now
            → IsKept size result (summary_with m s delta.now) }
        ensures exact { result ≡ kept_with self.now before after delta.now }
    {
        match delta {
            Some(delta) => Summary {
                newest: delta.generation.max(self.newest),
                freed: freed_with(self.newest, self.freed, delta),
                any: true,
                run: Some(KeptRun::with(&self.run, before, after, delta, self.any)),
            },
            None => Summary {
                newest: self.newest,
                freed: self.freed,
                any: true,
                run: None,
            },
        }
    }

    /// Why this generation counts as over, the first reason that holds.
    pub(crate) fn evidence(&self, timing: &Timing, generation: Gen) -> Option<Evidence>
        ensures { result ≡ evidence_by timing.now generation (bare self.now) }
    {
        if generation < self.newest {
            return Some(Evidence::Newer {
                generation: self.newest,
            });
        }
        if self.newest == generation && self.freed {
            return Some(Evidence::Freed { generation });
        }
        match &self.run {
            Some(run) => run.silence(timing, generation),
            None => None,
        }
    }

    /// What the id looks like at a reading.
    pub(crate) fn state(&self, timing: &Timing, now: u64) -> HostState
        ensures { result ≡ state_by timing.now (bare self.now).run now }
    {
        match &self.run {
            Some(run) => run.state(timing, now),
            None => HostState::Unknown,
        }
    }
}
