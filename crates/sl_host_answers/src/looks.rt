//! A holder's look at a request, answered: its process is told of one that asks for more.

ghost use Rattle.sl_area.specs.AreaSizes.{layout_of};
ghost use Rattle.sl_due.specs.DueRequests.{signal_of_force, signal_of_request};
ghost use Rattle.sl_host_answers.specs.Looks.{look_of, member_look, signal_by};
ghost use Rattle.sl_host_law.specs.Answers.Requests.{seeing_request};
ghost use Rattle.sl_host_law.specs.Questions.Members.{exclusive_at};
ghost use Rattle.sl_host_law.specs.Steps.Passes.{at_member, member_numbered};
ghost use Rattle.sl_host_law.specs.Questions.Answers.{spot_in};
ghost use Rattle.sl_host.specs.BookQuestions.{state_in};
ghost use Rattle.sl_host.specs.Host.{Becomes, SameRun, Spends};
ghost use Rattle.std.specs.Prelude.{IsTrue, Some, length, ◌<◌, ◌==◌, ◌≡◌, ◌≤◌};

use crate::answer_owners::{area_of, exclusive_under, only_record};
use sl_area::Geometry;
use sl_host::Host;
use sl_host_state::OpenCall;
use sl_host_work::send;
use sl_lease::Sectors;
use sl_member::Member;
use sl_sector::{Request, request_in};
use sl_trace::{Grant, Signal, Spot};

/// The signal of a request's force: 1 kills.
fn signal_of_force(force: u32) -> Signal
    ensures { result ≡ signal_of_force force }
{
    if force == 1 {
        Signal::Kill
    } else {
        Signal::Term
    }
}

/// The signal to a holding of this instance by a request, if it asks for more.
fn signal_by(held: u64, request: &Option<Request>) -> Option<Signal>
    ensures { result ≡ signal_by held request.now }
{
    match request {
        Some(request) => {
            if held < request.lver {
                Some(signal_of_force(request.force))
            } else {
                None
            }
        }
        None => None,
    }
}

/// The request that was read, if its sector spells one.
fn signal_read<S: Sectors>(geometry: &Geometry, sectors: &S, held: &Grant) -> Option<Signal>
    requires cut { IsTrue (S.is_cut sectors.now geometry.now.sector) }
    requires one { length (S.bytes sectors.now) ≡ geometry.now.sector }
    ensures { result ≡ signal_of_request (layout_of geometry.now) (S.bytes sectors.now) held.now }
{
    signal_by(held.lver, &request_in(only_record(geometry, sectors)))
}

/// To which process of a holding which signal goes. Nothing goes to an orphan.
fn look_at<S: Sectors>(geometry: &Geometry, sectors: &S, held: &Grant) -> Option<(u32, Signal)>
    requires cut { IsTrue (S.is_cut sectors.now geometry.now.sector) }
    requires one { length (S.bytes sectors.now) ≡ geometry.now.sector }
    ensures { result ≡ look_of (layout_of geometry.now) (S.bytes sectors.now) (Some held.now) }
{
    if held.process == 0 {
        return None;
    }
    match signal_read(geometry, sectors, held) {
        Some(signal) => Some((held.process, signal)),
        None => None,
    }
}

/// The exclusive holding under a member's lease on an area.
fn exclusive_at(host: &Host, member: &Member, at: &Spot) -> Option<Grant>
    ensures { result ≡ exclusive_at (state_in host.now.kept) member.now.state at.now }
{
    exclusive_under(host, member.who().number, at)
}

/// To which process under the exclusive lease of a member on an area which signal goes.
fn member_look<S: Sectors>(
    host: &Host,
    member: &Member,
    at: &Spot,
    sectors: &S,
) -> Option<(u32, Signal)>
    requires cut { IsTrue (S.is_cut sectors.now host.now.kept.config.sizes.sector) }
    requires one { length (S.bytes sectors.now) ≡ host.now.kept.config.sizes.sector }
    ensures { result ≡ member_look (state_in host.now.kept) at.now (S.bytes sectors.now) (Some member.now.state) }
{
    match exclusive_at(host, member, at) {
        Some(held) => look_at(&host.config().geometry, sectors, &held),
        None => None,
    }
}

/// The same of the session of a call, on its area.
fn look_of<S: Sectors>(host: &Host, call: &OpenCall, sectors: &S) -> Option<(u32, Signal)>
    requires cut { IsTrue (S.is_cut sectors.now host.now.kept.config.sizes.sector) }
    requires one { length (S.bytes sectors.now) ≡ host.now.kept.config.sizes.sector }
    ensures { result ≡ member_look (state_in host.now.kept) (spot_in (layout_of host.now.kept.config.sizes) call.now) (S.bytes sectors.now)
        (member_numbered (state_in host.now.kept) call.now.session) }
{
    let at = area_of(host, call);
    match host.members().numbered(call.session) {
        Some(member) => member_look(host, member, &at, sectors),
        None => None,
    }
}

/// A request is read for the session of a call: its process that holds exclusive is told of one that asks for more.
pub fn answer_look<S: Sectors>(host: &mut Host, call: &OpenCall, sectors: &S)
    requires left { 1 ≤ host.old.left }
    requires cut { IsTrue (S.is_cut sectors.now host.old.kept.config.sizes.sector) }
    requires one { length (S.bytes sectors.now) ≡ host.old.kept.config.sizes.sector }
    ensures state { Becomes host.old host.new (at_member call.now.session (λ m. seeing_request m call.now (S.bytes sectors.now))) }
    ensures left { Spends host.old host.new 1 0 }
    ensures run { SameRun host.old host.new }
{
    if let Some((process, signal)) = look_of(host, call, sectors) {
        send(host, process, signal);
    }
}
