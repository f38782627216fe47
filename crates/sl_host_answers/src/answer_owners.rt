//! Of which session, area and sectors an answer is.

ghost use Rattle.sl_area.specs.AreaSizes.{layout_of, record_in};
ghost use Rattle.sl_area.specs.AreaLayout.{request_offset};
ghost use Rattle.sl_host_answers.specs.Looks.{exclusive_under};
ghost use Rattle.sl_host_law.specs.Questions.Answers.{spot_in};
ghost use Rattle.sl_host_work.specs.SectorPlaces.{IsArea};
ghost use Rattle.sl_member.specs.HostMembers.{member_with};
ghost use Rattle.std.specs.Prelude.{Contains, IfSome, IsTrue, length, option_map, ◌*◌, ◌≡◌};

use sl_area::Geometry;
use sl_host::Host;
use sl_host_state::OpenCall;
use sl_lease::Sectors;
use sl_sector::{Bad, Rec};
use sl_tables::Holder;
use sl_trace::{Grant, Mode, Session, Spot};

/// The session of this number, if a member is.
pub(crate) fn session_of(host: &Host, number: u64) -> Option<Session>
    ensures { result ≡ option_map (λ m. m.who) (member_with number host.now.kept.members) }
{
    match host.members().numbered(number) {
        Some(member) => Some(*member.who()),
        None => None,
    }
}

/// The resource's area on which the call is.
pub(crate) fn area_of(host: &Host, call: &OpenCall) -> Spot
    ensures { result ≡ spot_in (layout_of host.now.kept.config.sizes) call.now }
{
    let area = host.config().geometry.area();
    Spot {
        path: call.path,
        base: call.offset - call.offset % area,
    }
}

/// Where the request stands, in the resource's area at this base.
pub(crate) fn request_place(host: &Host, base: u64) -> u64
    requires { IsArea host.now.kept.config.sizes base }
    ensures { result ≡ request_offset (layout_of host.now.kept.config.sizes) base }
{
    host.config().geometry.request_place(base).offset()
}

/// What the only sector spells that was read.
pub(crate) fn only_record<S: Sectors>(geometry: &Geometry, sectors: &S) -> Result<Rec, Bad>
    requires cut { IsTrue (S.is_cut sectors.now geometry.now.sector) }
    requires one { length (S.bytes sectors.now) ≡ geometry.now.sector }
    ensures { result ≡ record_in (layout_of geometry.now) (S.bytes sectors.now) }
{
    sectors.record(geometry.sector(), 0)
}

/// The exclusive holding of a session on an area.
pub(crate) fn exclusive_under(host: &Host, session: u64, at: &Spot) -> Option<Grant>
    ensures exact { result ≡ exclusive_under session at.now host.now.kept.holdings }
    ensures inside { IfSome result (λ g. Contains host.now.kept.holdings g) }
{
    let mode = Some(Mode::Exclusive);
    match host.held(session, at, Holder::Anyone, mode) {
        Some(held) => Some(*held),
        None => None,
    }
}
