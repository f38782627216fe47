//! What a watch is told of a sector by its bytes, and how long an id stands still.

ghost use Rattle.sl_area.specs.AreaSizes.{layout_of};
ghost use Rattle.sl_trace.specs.Sightings.{span, unchanged};
ghost use Rattle.sl_trace.specs.declared.sighting.Sighting.{Sighting};
ghost use Rattle.sl_watch.specs.SeenLooks.{Seen, seen_at, seen_with};
ghost use Rattle.sl_watch.specs.Summaries.{bare};
ghost use Rattle.sl_watch.specs.Watches.{IsReadTrue, StandsFor, WatchStands, kept_at};
ghost use Rattle.std.specs.Option.{option_map_or};
ghost use Rattle.std.specs.Prelude.{List, length, ◌∷◌, ◌≡◌, ◌≤◌, ℕ};

use sl_sector::{HostId, Image};
use sl_watch::{Summary, Watch};

/// What is kept of an id.
fn kept(watch: &Watch, id: HostId) -> &Summary
    requires { (1 ≤ id) × (id ≤ watch.now.sizes.hosts) }
    ensures { result.now ≡ kept_at watch.now id }
{
    &watch.ids[id as usize - 1]
}

/// The span of an id's run, and 0 where there is none.
fn span_kept(watch: &Watch, id: HostId) -> u64
    requires { (1 ≤ id) × (id ≤ watch.now.sizes.hosts) }
    ensures { result ≡ option_map_or span (bare (kept_at watch.now id)).run 0 }
{
    match &kept(watch, id).run {
        Some(run) => run.span(),
        None => 0,
    }
}

/// How long an id, 1 to the number of hosts, is known to have stood still, in milliseconds: the span of its run, and 0 where there is
/// none.
#[tactic(auto, using(sl_watch::proofs::SummaryLaws::span_read))]
pub fn unchanged_for(watch: &Watch, id: HostId) -> u64
    requires { (1 ≤ id) × (id ≤ watch.now.sizes.hosts) }
    ensures kept { result ≡ option_map_or span (bare (kept_at watch.now id)).run 0 }
    ensures exact { (seen : ℕ → List Sighting) → WatchStands watch.now seen → result ≡ unchanged (layout_of watch.now.sizes) id (seen id) }
{
    span_kept(watch, id)
}

/// Takes one more look at the sector of an id, 1 to the number of hosts: its read was submitted at the reading `before` and answered
/// at `after`, in milliseconds, and gave this sector. It takes no memory, and nothing is hashed.
pub fn saw(watch: &mut Watch, before: u64, after: u64, id: HostId, sector: &Image)
    requires sector { length sector.now ≡ watch.old.sizes.sector }
    requires id { (1 ≤ id) × (id ≤ watch.old.sizes.hosts) }
    ensures run { (watch.new.timing ≡ watch.old.timing) × (watch.new.sizes ≡ watch.old.sizes) }
    ensures stands { (seen : ℕ → List Sighting) → WatchStands watch.old seen → IsReadTrue sector.now
        → WatchStands watch.new (seen_with id (record { before = before; after = after; bytes = sector.now }) seen) }
    ensures looks { (looks : List Seen) → StandsFor watch.old looks → IsReadTrue sector.now
        → StandsFor watch.new (seen_at id before after sector.now ∷ looks) }
{
    watch.told(before, after, id, sector.record());
}
