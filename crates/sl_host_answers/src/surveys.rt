//! A read of all ids, answered: the session's recovery may have begun by what it showed, and where others ask for what the session holds, the requests
//! under its exclusive leases are read.

ghost use Rattle.sl_area.specs.AreaSizes.{layout_of};
ghost use Rattle.sl_host_answers.specs.Facts.{SurveyKnown};
ghost use Rattle.sl_host_answers.specs.Surveys.{SameHoldings, acting, leases_of, member_shown, reading_asked, shown_of, spots_of, stopping_by};
ghost use Rattle.sl_host_law.specs.Answers.Surveys.{is_asked_by, reading_request, reading_request_on, surveyed_in};
ghost use Rattle.sl_host_law.specs.StepParts.Signals.{over};
ghost use Rattle.sl_host_law.specs.Questions.Members.{begins_by_read_in};
ghost use Rattle.sl_host_law.specs.Steps.Passes.{at_member, member_numbered};
ghost use Rattle.sl_host_work.specs.SectorPlaces.{IsArea};
ghost use Rattle.sl_host_work.specs.Stops.{stopping_cost};
ghost use Rattle.sl_member.specs.HostMembers.{member_with};
ghost use Rattle.sl_host.specs.BookQuestions.{state_in};
ghost use Rattle.sl_host.specs.Host.{Becomes, SameRun, Spends};
ghost use Rattle.sl_words.specs.Bounds.{moments};
ghost use Rattle.std.specs.Prelude.{IsTrue, Some, [], length, map, ◌*◌, ◌+◌, ◌<◌, ◌≡◌, ◌≤◌};

use crate::answer_owners::{exclusive_under, request_place};
use sl_host::{Host, Notes};
use sl_host_state::OpenCall;
use sl_host_work::{Stopped, stop};
use sl_lease::Sectors;
use sl_member::{Leases, Member};
use sl_trace::{Begun, Grant, Op, Purpose, Session, Spot};

// ---- what it shows

/// What a read of all ids shows a joined session: what of it is stopped where its recovery begins by the read, and the session where others ask for
/// what it holds.
#[derive(Clone, Copy)]
pub struct Shown {
    pub stopped: Option<Stopped>,
    pub asked: Option<Session>,
}

/// Whether a recovery began by the read that this step brings.
fn begins_by_read(host: &Host, begun: Option<Begun>) -> bool
    ensures { result ≡ begins_by_read_in (state_in host.now.kept) begun }
{
    match begun {
        Some(begun) => begun.kills_from == host.entries(),
        None => false,
    }
}

/// What of a member is stopped by the read.
fn stopped_by_read(host: &Host, member: &Member) -> Option<Stopped>
    ensures { result ≡ (shown_of (state_in host.now.kept) [] member.now.state).stopped }
{
    let renewing = member.renewing();
    if begins_by_read(host, renewing.recovery) {
        let who = member.who();
        Some(Stopped {
            session: who.number,
            lockspace: who.lockspace,
            renewed: renewing.last,
        })
    } else {
        None
    }
}

/// Whether others ask for what a member holds.
fn is_asked<S: Sectors>(host: &Host, member: &Member, sectors: &S) -> bool
    requires run { member.now.run.sizes ≡ host.now.kept.config.sizes }
    requires cut { IsTrue (S.is_cut sectors.now member.now.run.sizes.sector) }
    requires all { length (S.bytes sectors.now) ≡ member.now.run.sizes.hosts * member.now.run.sizes.sector }
    ensures { result ≡ is_asked_by (layout_of host.now.kept.config.sizes) member.now.state.who (S.bytes sectors.now) }
{
    member.is_asked(sectors)
}

/// The session of a member, where others ask for what it holds.
fn asked_by_read<S: Sectors>(host: &Host, member: &Member, sectors: &S) -> Option<Session>
    requires run { member.now.run.sizes ≡ host.now.kept.config.sizes }
    requires cut { IsTrue (S.is_cut sectors.now member.now.run.sizes.sector) }
    requires all { length (S.bytes sectors.now) ≡ member.now.run.sizes.hosts * member.now.run.sizes.sector }
    ensures { result ≡ (shown_of (state_in host.now.kept) (S.bytes sectors.now) member.now.state).asked }
{
    if is_asked(host, member, sectors) {
        Some(*member.who())
    } else {
        None
    }
}

/// What the read shows a member, where it is joined.
fn shown_to<S: Sectors>(host: &Host, member: &Member, sectors: &S) -> Option<Shown>
    requires run { member.now.run.sizes ≡ host.now.kept.config.sizes }
    requires cut { IsTrue (S.is_cut sectors.now member.now.run.sizes.sector) }
    requires all { length (S.bytes sectors.now) ≡ member.now.run.sizes.hosts * member.now.run.sizes.sector }
    ensures { result ≡ member_shown (state_in host.now.kept) (S.bytes sectors.now) (Some member.now.state) }
{
    if member.is_joined() {
        Some(Shown {
            stopped: stopped_by_read(host, member),
            asked: asked_by_read(host, member, sectors),
        })
    } else {
        None
    }
}

/// What it shows the member of this number.
fn shown_by<S: Sectors>(host: &Host, number: u64, sectors: &S) -> Option<Shown>
    requires cut { IsTrue (S.is_cut sectors.now host.now.kept.config.sizes.sector) }
    requires all { length (S.bytes sectors.now) ≡ host.now.kept.config.sizes.hosts * host.now.kept.config.sizes.sector }
    ensures { result ≡ member_shown (state_in host.now.kept) (S.bytes sectors.now) (member_numbered (state_in host.now.kept) number) }
{
    match host.members().numbered(number) {
        Some(member) => shown_to(host, member, sectors),
        None => None,
    }
}

// ---- the areas of its leases

/// Notes the areas of leases.
#[tactic(auto, using(crate::proofs::SurveysStand::spots_more, crate::proofs::SurveysStand::spots_all))]
fn note_areas(leases: &Leases, spots: &mut Notes<Spot>)
    requires { length leases.now.leases ≤ spots.old.most }
    ensures { spots.new ≡ record spots.old { items = map (λ l. l.spot) leases.now.leases } }
{
    spots.clear();
    for place in 0..leases.len() {
        spots.put(leases.nth(place).spot());
    }
}

/// Notes the areas of the leases of the member of this number.
fn note_spots(host: &Host, number: u64, spots: &mut Notes<Spot>)
    requires { leases_of number host.now.kept ≤ spots.old.most }
    ensures { spots.new ≡ record spots.old { items = spots_of (member_with number host.now.kept.members) } }
{
    match host.members().numbered(number) {
        Some(member) => note_areas(member.leases(), spots),
        None => spots.clear(),
    }
}

// ---- requests

/// The request under a holding of the session is read.
fn read_request(host: &mut Host, who: &Session, held: &Grant)
    requires calls { 1 ≤ host.old.calls }
    requires moment { host.old.kept.reading < moments }
    requires area { IsArea host.old.kept.config.sizes held.now.offset }
    ensures state { Becomes host.old host.new (reading_request who.now held.now) }
    ensures left { Spends host.old host.new 0 1 }
    ensures run { SameRun host.old host.new }
    ensures stays { SameHoldings host.old host.new }
{
    let offset = request_place(host, held.offset);
    host.call(
        who.number,
        held.path,
        Purpose::SeeRequest,
        offset,
        Op::ReadSectors { sectors: 1 },
    );
}

/// That under the session's exclusive lease on an area is read.
fn read_request_on(host: &mut Host, who: &Session, at: &Spot)
    requires calls { 1 ≤ host.old.calls }
    requires known { SurveyKnown host.old.kept }
    ensures state { Becomes host.old host.new (reading_request_on who.now at.now) }
    ensures left { Spends host.old host.new 0 1 }
    ensures run { SameRun host.old host.new }
    ensures stays { SameHoldings host.old host.new }
{
    match exclusive_under(host, who.number, at) {
        Some(held) => read_request(host, who, &held),
        None => {}
    }
}

/// Those on all of these areas are read.
fn read_requests(host: &mut Host, who: &Session, spots: &Notes<Spot>)
    requires calls { length spots.now.items ≤ host.old.calls }
    requires known { SurveyKnown host.old.kept }
    ensures state { Becomes host.old host.new (λ h. over spots.now.items (reading_request_on who.now) h) }
    ensures left { Spends host.old host.new 0 (length spots.now.items) }
    ensures run { SameRun host.old host.new }
{
    for place in 0..spots.len() {
        read_request_on(host, who, spots.nth(place));
    }
}

// ---- what is done

/// A recovery begins, where it does: the holders are told to stop, the jobs are refused.
fn stop_shown(host: &mut Host, numbers: &mut Notes<u64>, stopped: Option<Stopped>)
    requires room { length host.old.kept.jobs ≤ numbers.old.most }
    requires left { stopping_cost host.old.kept stopped ≤ host.old.left }
    ensures state { Becomes host.old host.new (stopping_by stopped) }
    ensures left { Spends host.old host.new (stopping_cost host.old.kept stopped) 0 }
    ensures run { SameRun host.old host.new }
    ensures stays { SameHoldings host.old host.new }
    ensures notes { numbers.new.most ≡ numbers.old.most }
{
    match stopped {
        Some(stopped) => stop(host, numbers, stopped, None),
        None => {}
    }
}

/// The requests on these areas are read, where others ask.
fn read_asked(host: &mut Host, asked: Option<Session>, spots: &Notes<Spot>)
    requires calls { length spots.now.items ≤ host.old.calls }
    requires known { SurveyKnown host.old.kept }
    ensures state { Becomes host.old host.new (reading_asked asked spots.now.items) }
    ensures left { Spends host.old host.new 0 (length spots.now.items) }
    ensures run { SameRun host.old host.new }
{
    match asked {
        Some(who) => read_requests(host, &who, spots),
        None => {}
    }
}

/// Both, one after the other.
fn act(host: &mut Host, numbers: &mut Notes<u64>, spots: &Notes<Spot>, shown: &Shown)
    requires room { length host.old.kept.jobs ≤ numbers.old.most }
    requires left { stopping_cost host.old.kept shown.now.stopped ≤ host.old.left }
    requires calls { length spots.now.items ≤ host.old.calls }
    requires known { SurveyKnown host.old.kept }
    ensures state { Becomes host.old host.new (acting (Some shown.now) spots.now.items) }
    ensures left { Spends host.old host.new (stopping_cost host.old.kept shown.now.stopped) (length spots.now.items) }
    ensures run { SameRun host.old host.new }
    ensures notes { numbers.new.most ≡ numbers.old.most }
{
    stop_shown(host, numbers, shown.stopped);
    read_asked(host, shown.asked, spots);
}

/// All ids are read for the session of a call: its recovery begins, where it does by what the read shows; where others ask for what it holds, the
/// requests under its exclusive leases are read.
pub fn answer_survey<S: Sectors>(
    host: &mut Host,
    numbers: &mut Notes<u64>,
    spots: &mut Notes<Spot>,
    call: &OpenCall,
    sectors: &S,
)
    requires room { length host.old.kept.jobs ≤ numbers.old.most }
    requires places { leases_of call.now.session host.old.kept ≤ spots.old.most }
    requires left { length host.old.kept.holdings + length host.old.kept.jobs ≤ host.old.left }
    requires calls { leases_of call.now.session host.old.kept ≤ host.old.calls }
    requires known { SurveyKnown host.old.kept }
    requires cut { IsTrue (S.is_cut sectors.now host.old.kept.config.sizes.sector) }
    requires all { length (S.bytes sectors.now) ≡ host.old.kept.config.sizes.hosts * host.old.kept.config.sizes.sector }
    ensures state { Becomes host.old host.new (at_member call.now.session (λ m. surveyed_in m (S.bytes sectors.now))) }
    ensures left { Spends host.old host.new (length host.old.kept.holdings + length host.old.kept.jobs) (leases_of call.now.session host.old.kept) }
    ensures run { SameRun host.old host.new }
    ensures notes { (numbers.new.most ≡ numbers.old.most) × (spots.new.most ≡ spots.old.most) }
{
    note_spots(host, call.session, spots);
    match shown_by(host, call.session, sectors) {
        Some(shown) => act(host, numbers, spots, &shown),
        None => {}
    }
}
