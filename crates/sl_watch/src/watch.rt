//! All that a session has seen of other ids' sectors, and what it shows.
//!
//! Who holds an id writes its sector anew at each renewal. So a sector that stays as it is tells an observer that its holder renews no
//! more, and long enough after the last renewal that he can no longer act (Chockler and Malkhi, *Light-weight leases for
//! storage-centric coordination*; the states of an id are those that `host_status` of sanlock(8) tells).
//!
//! Of each id a watch keeps what its sightings come to, and its last record while that stands still. It stands for all that was seen
//! (`WatchStands`): each question is answered as the whole list of sightings answers it. What makes an answer evidence:
//!
//! - A newer generation, or this one's free, is evidence once it was seen, and stays so: an id is claimed anew only where the one before
//!   is over, and a free is a session's last write.
//! - Silence is that of a *live* record. A claim stands still while its writer waits, and he may join yet.
//! - Only equal bytes go on with a run. A sighting that spells no record of the id ends it, since somebody was writing; a look at another
//!   id says nothing.
//! - Time is counted from the answer of a run's first sighting to the submission of its last (`run` says why).
ghost use Rattle.std.specs.Prelude.{IfOk, IfSome, IsSome, List, length, [], ◌≡◌, ◌≤◌, ◌⊎◌, ◌↔◌, ℕ, replicate, slice_set, ◌-◌};
ghost use Rattle.sl_area.specs.AreaSizes.{layout_of, program_digest};
ghost use Rattle.sl_sector.specs.SectorLayouts.{decoded};
ghost use Rattle.sl_trace.specs.Sightings.{evidence, host_state};
ghost use Rattle.sl_trace.specs.declared.sighting.Sighting.{Sighting};
ghost use Rattle.sl_watch.specs.Reasons.{IsFirstReason, SawFree, SawNewer, StoodStill};
ghost use Rattle.sl_watch.specs.SeenLooks.{seen_with, spelled_for};
ghost use Rattle.sl_watch.specs.Summaries.{bare, evidence_by, nothing_seen, state_by};
ghost use Rattle.sl_watch.specs.ToldLooks.{delta_found, told_at};
ghost use Rattle.sl_watch.specs.Watches.{IsReadTrue, WatchStands, kept_at};

use crate::run::KeptRun;
use crate::summary::Summary;
use sl_area::Geometry;
use sl_sector::{Bad, DeltaRec, Gen, HostId, Rec, delta_in};
use sl_text::Name;
use sl_time::Timing;
use sl_trace::{Evidence, HostState};
use std::alloc::{AllocError, Global};
use std::marker::Model;

/// What a session has seen of other ids.
#[derive(Drop)]
pub struct Watch {
    timing: Timing,
    geometry: Geometry,
    pub ids: Vec<Summary>,
}

impl Model for Watch {
    ghost use Rattle.sl_watch.specs.ToldLooks.{delta_found, told_at};
    ghost use Rattle.sl_watch.specs.Watches.{Watched};
    ghost use Rattle.std.specs.Prelude.{length, ◌≡◌};

    ghost Value = { Watched };

    ghost view = { λ w. record { timing = w.timing; sizes = w.geometry; ids = w.ids.items } };

    ghost invariant = { λ w. length w.ids.items ≡ w.geometry.hosts };
}

/// The delta record of the id that was read; None where the sector is torn, or spells another.
fn delta_for(id: HostId, found: Result<Rec, Bad>) -> Option<DeltaRec>
    ensures exact { result ≡ delta_found id found }
    ensures spelled { (bytes : List ℕ) → found ≡ decoded program_digest bytes → result ≡ spelled_for id bytes }
{
    let delta = delta_in(found)?;
    if delta.id == id { Some(delta) } else { None }
}

/// What is kept of so many ids of which nothing was seen.
fn blanks(alloc: Global, hosts: u32) -> Result<Vec<Summary>, AllocError>
    ensures { IfOk result (λ ids. ids.items ≡ replicate hosts nothing_seen) }
{
    let _run: Option<KeptRun> = None;
    let _record: Option<DeltaRec> = None;
    let _name: Option<Name> = None;
    vec![in alloc; Summary::blank(); hosts as usize]
}

impl Watch {
    /// A watch that has seen nothing. It takes all the memory that the watch will ever need; an `Err` is want of it.
    pub fn new(alloc: Global, timing: &Timing, geometry: &Geometry) -> Result<Watch, AllocError>
        ensures kept { IfOk result (λ w. w ≡ record { timing = timing.now; sizes = geometry.now; ids = replicate geometry.now.hosts nothing_seen }) }
        ensures stands { IfOk result (λ w. WatchStands w (λ id. [])) }
    {
        Ok(Watch {
            timing: *timing,
            geometry: *geometry,
            ids: blanks(alloc, geometry.hosts())?,
        })
    }

    /// What is kept of an id.
    fn kept(&self, id: HostId) -> &Summary
        requires { (1 ≤ id) × (id ≤ self.now.sizes.hosts) }
        ensures exact { result.now ≡ kept_at self.now id }
        ensures count { length self.now.ids ≡ self.now.sizes.hosts }
    {
        &self.ids[id as usize - 1]
    }

    /// Why this generation of an id, 1 to the number of hosts, counts as over, the first reason that holds: `Newer` with the greatest
    /// generation that was seen, where that is above this one; `Freed` where this one was seen free; `Silent` from the answer of the run's
    /// first sighting to the submission of its last, where a live record of this generation stood still for `dead`. None where none of
    /// these was seen.
    pub fn over(&self, id: HostId, generation: Gen) -> Option<Evidence>
        requires { (1 ≤ id) × (id ≤ self.now.sizes.hosts) }
        ensures kept { result ≡ evidence_by self.now.timing generation (bare (kept_at self.now id)) }
        ensures exact { (seen : ℕ → List Sighting) → WatchStands self.now seen → result ≡ evidence self.now.timing (layout_of self.now.sizes) id generation (seen id) }
        // there is evidence exactly where one of the three was seen
        ensures some { (seen : ℕ → List Sighting) → WatchStands self.now seen → IsSome result
            ↔ (SawNewer self.now.sizes id generation (seen id) ⊎ SawFree self.now.sizes id generation (seen id) ⊎ StoodStill self.now.timing self.now.sizes id generation (seen id)) }
        // .. and the first of them is told
        ensures first { (seen : ℕ → List Sighting) → WatchStands self.now seen → IfSome result (IsFirstReason self.now.timing self.now.sizes id generation (seen id)) }
    {
        self.evidence_kept(id, generation)
    }

    /// The same by what is kept.
    fn evidence_kept(&self, id: HostId, generation: Gen) -> Option<Evidence>
        requires { (1 ≤ id) × (id ≤ self.now.sizes.hosts) }
        ensures { result ≡ evidence_by self.now.timing generation (bare (kept_at self.now id)) }
    {
        self.kept(id).evidence(&self.timing, generation)
    }

    /// What an id, 1 to the number of hosts, looks like at the reading `now`, in milliseconds: `Unknown` with no sighting or where the
    /// last one is torn; `Free` where its record is free; `Dead` where it stood still for `dead`; `Failing` where its run began `fail` ago;
    /// `Live` where another sighting came before the run; else `Unknown`.
    pub fn status(&self, id: HostId, now: u64) -> HostState
        requires { (1 ≤ id) × (id ≤ self.now.sizes.hosts) }
        ensures kept { result ≡ state_by self.now.timing (bare (kept_at self.now id)).run now }
        ensures exact { (seen : ℕ → List Sighting) → WatchStands self.now seen → result ≡ host_state self.now.timing (layout_of self.now.sizes) id (seen id) now }
    {
        self.state_kept(id, now)
    }

    /// The same by what is kept.
    fn state_kept(&self, id: HostId, now: u64) -> HostState
        requires { (1 ≤ id) × (id ≤ self.now.sizes.hosts) }
        ensures { result ≡ state_by self.now.timing (bare (kept_at self.now id)).run now }
    {
        self.kept(id).state(&self.timing, now)
    }

    /// Takes one more look at the sector of an id, 1 to the number of hosts: its read was submitted at the reading `before` and answered
    /// at `after`, in milliseconds, and gave a sector that spells this: what `decode` gives of its bytes. It takes no memory, and nothing is
    /// hashed.
    pub fn told(&mut self, before: u64, after: u64, id: HostId, found: Result<Rec, Bad>)
        requires { (1 ≤ id) × (id ≤ self.old.sizes.hosts) }
        ensures exact { self.new ≡ told_at before after id found self.old }
        ensures run { (self.new.timing ≡ self.old.timing) × (self.new.sizes ≡ self.old.sizes) }
        ensures stands { (seen : ℕ → List Sighting) (bytes : List ℕ) → WatchStands self.old seen → found ≡ decoded program_digest bytes
            → length bytes ≡ self.old.sizes.sector → IsReadTrue bytes
            → WatchStands self.new (seen_with id (record { before = before; after = after; bytes = bytes }) seen) }
    {
        let delta = delta_for(id, found);
        let next = self.kept(id).with(before, after, &delta);
        self.put(id, next);
    }

    /// This is kept of an id from here on.
    fn put(&mut self, id: HostId, next: Summary)
        requires { (1 ≤ id) × (id ≤ self.old.sizes.hosts) }
        ensures { self.new ≡ record self.old { ids = slice_set self.old.ids (id - 1) next } }
    {
        self.ids[id as usize - 1] = next;
    }
}
