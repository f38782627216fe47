//! What a session has seen of other hosts, and whom it counts as over.

ghost use Rattle.sl_member.specs.SeenSessions.{evidence_of, over_by};
ghost use Rattle.sl_area.specs.AreaSizes.{layout_of};
ghost use Rattle.sl_area.specs.AreaLayout.{read_at};
ghost use Rattle.sl_watch.specs.ToldLooks.{told_all, told_at};
ghost use Rattle.std.specs.Prelude.{IsTrue, length, ◌&&◌, ◌*◌, ◌+◌, ◌-◌, ◌<◌, ◌≡◌, ◌≤◌};

use sl_area::Geometry;
use sl_lease::{Evidence, Sectors};
use sl_sector::{Gen, HostId};
use sl_trace::Evidence as Reason;
use sl_watch::Watch;
use std::marker::Model;

/// What a session has seen, with who it is: its id, generation, and whether it is joined.
#[derive(Drop)]
pub struct Seen<'a> {
    watch: &'a Watch,
    hosts: u32,
    id: HostId,
    generation: Gen,
    joined: bool,
}

impl<'a> Model for Seen<'a> {
    ghost use Rattle.sl_member.specs.SeenSessions.{SeenBy};
    ghost use Rattle.std.specs.Prelude.{◌≡◌};

    ghost Value = { SeenBy };

    ghost view = { λ s. record { watch = s.watch.now; id = s.id; generation = s.generation; joined = s.joined } };

    ghost invariant = { λ s. s.hosts ≡ s.watch.now.sizes.hosts };
}

/// Why a generation of an id counts as over by what was seen of it, where so many hosts are watched; of no other id anything is seen.
pub fn evidence_of(watch: &Watch, hosts: u32, id: HostId, generation: Gen) -> Option<Reason>
    requires { hosts ≡ watch.now.sizes.hosts }
    ensures { result ≡ evidence_of watch.now id generation }
{
    if 1 <= id && id <= hosts {
        watch.over(id, generation)
    } else {
        None
    }
}

impl<'a> Seen<'a> {
    /// What the session of this id and generation has seen.
    pub fn by(watch: &'a Watch, hosts: u32, id: HostId, generation: Gen, joined: bool) -> Seen<'a>
        requires { hosts ≡ watch.now.sizes.hosts }
        ensures { result ≡ record { watch = watch.now; id = id; generation = generation; joined = joined } }
    {
        Seen {
            watch,
            hosts,
            id,
            generation,
            joined,
        }
    }
}

impl<'a> Evidence for Seen<'a> {
    ghost over = { over_by };

    fn is_over(&self, id: u32, generation: u64) -> bool {
        evidence_of(self.watch, self.hosts, id, generation).is_some()
            || id == self.id && generation < self.generation && self.joined
    }
}

/// The watch is told of an id, whose sector is in what a read of all gave.
fn tell<S: Sectors>(
    watch: &mut Watch,
    geometry: &Geometry,
    before: u64,
    after: u64,
    id: HostId,
    sectors: &S,
)
    requires watched { geometry.now ≡ watch.old.sizes }
    requires id { (1 ≤ id) × (id ≤ geometry.now.hosts) }
    requires cut { IsTrue (S.is_cut sectors.now geometry.now.sector) }
    requires many { length (S.bytes sectors.now) ≡ geometry.now.hosts * geometry.now.sector }
    ensures exact { watch.new ≡ told_at before after id (read_at (layout_of geometry.now) (S.bytes sectors.now) (id - 1)) watch.old }
    ensures run { (watch.new.sizes ≡ watch.old.sizes) × (watch.new.timing ≡ watch.old.timing) }
{
    watch.told(before, after, id, sectors.record(geometry.sector(), id - 1));
}

/// The watch is told of all ids: their sectors were read by a call submitted at the reading `before` and answered at `after`.
pub fn tell_all<S: Sectors>(
    watch: &mut Watch,
    geometry: &Geometry,
    before: u64,
    after: u64,
    sectors: &S,
)
    requires watched { geometry.now ≡ watch.old.sizes }
    requires cut { IsTrue (S.is_cut sectors.now geometry.now.sector) }
    requires many { length (S.bytes sectors.now) ≡ geometry.now.hosts * geometry.now.sector }
    ensures exact { watch.new ≡ told_all before after (layout_of geometry.now) (S.bytes sectors.now) watch.old }
    ensures run { (watch.new.sizes ≡ watch.old.sizes) × (watch.new.timing ≡ watch.old.timing) }
{
    for skipped in 0..geometry.hosts() {
        tell(watch, geometry, before, after, skipped + 1, sectors);
    }
}
