//! What a read of all ids' sectors shows of a session's own id, and whether another asks for what it holds.

ghost use Rattle.sl_area.specs.AreaSizes.{layout_of};
ghost use Rattle.sl_area.specs.AreaLayout.{delta_of};
ghost use Rattle.sl_member.specs.SeenSessions.{asks_by, is_asked_by, shows_other_by};
ghost use Rattle.sl_words.specs.Words.{some_is};
ghost use Rattle.std.specs.Prelude.{IsTrue, bytes_eq, length, ◌*◌, ◌≡◌, ◌≤◌};

use sl_area::Geometry;
use sl_lease::Sectors;
use sl_request::Bitmap;
use sl_sector::{DeltaRec, HostId, delta_in};
use sl_text::Name;

/// The delta record in an id's sector, if it spells one.
fn delta_of<S: Sectors>(geometry: &Geometry, sectors: &S, id: HostId) -> Option<DeltaRec>
    requires id { (1 ≤ id) × (id ≤ geometry.now.hosts) }
    requires cut { IsTrue (S.is_cut sectors.now geometry.now.sector) }
    requires many { length (S.bytes sectors.now) ≡ geometry.now.hosts * geometry.now.sector }
    ensures { result ≡ delta_of (layout_of geometry.now) (S.bytes sectors.now) id }
{
    delta_in(sectors.record(geometry.sector(), id - 1))
}

/// Whether a record names this host.
fn is_of(host: &Option<Name>, name: &Name) -> bool
    ensures { result ≡ some_is (λ n. bytes_eq n name.now) host.now }
{
    match host {
        Some(host) => host.as_slice() == name.as_slice(),
        None => false,
    }
}

/// Whether they show an id under another host's name or another generation.
pub(crate) fn shows_other<S: Sectors>(
    geometry: &Geometry,
    name: &Name,
    id: HostId,
    generation: u64,
    sectors: &S,
) -> bool
    requires id { (1 ≤ id) × (id ≤ geometry.now.hosts) }
    requires cut { IsTrue (S.is_cut sectors.now geometry.now.sector) }
    requires many { length (S.bytes sectors.now) ≡ geometry.now.hosts * geometry.now.sector }
    ensures { result ≡ shows_other_by (layout_of geometry.now) name.now id generation (S.bytes sectors.now) }
{
    match delta_of(geometry, sectors, id) {
        Some(delta) => delta.id == id
            && !(delta.generation == generation && is_of(&delta.host, name)),
        None => false,
    }
}

/// Whether the sector of another id has the bit of this one.
fn asks<S: Sectors>(geometry: &Geometry, id: HostId, sectors: &S, from: HostId) -> bool
    requires id { (1 ≤ id) × (id ≤ geometry.now.hosts) }
    requires from { (1 ≤ from) × (from ≤ geometry.now.hosts) }
    requires cut { IsTrue (S.is_cut sectors.now geometry.now.sector) }
    requires many { length (S.bytes sectors.now) ≡ geometry.now.hosts * geometry.now.sector }
    ensures { result ≡ asks_by (layout_of geometry.now) id (S.bytes sectors.now) from }
{
    let _hosts = geometry.hosts();
    match delta_of(geometry, sectors, from) {
        Some(delta) => Bitmap::from_bytes(delta.bitmap).test(id),
        None => false,
    }
}

/// Whether some host's delta record among these sectors has the bit of this id: it asks for something that the id holds.
pub(crate) fn is_asked<S: Sectors>(geometry: &Geometry, id: HostId, sectors: &S) -> bool
    requires id { (1 ≤ id) × (id ≤ geometry.now.hosts) }
    requires cut { IsTrue (S.is_cut sectors.now geometry.now.sector) }
    requires many { length (S.bytes sectors.now) ≡ geometry.now.hosts * geometry.now.sector }
    ensures { result ≡ is_asked_by (layout_of geometry.now) id (S.bytes sectors.now) }
{
    for skipped in 0..geometry.hosts() {
        if asks(geometry, id, sectors, skipped + 1) {
            return true;
        }
    }
    false
}
