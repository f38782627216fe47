//! What a member holds on an area.

ghost use Rattle.sl_host_law.specs.Decisions.CommandDecisions.{held_on, serving_holding};
ghost use Rattle.sl_tables.specs.Holdings.{fits};
ghost use Rattle.sl_trace.specs.Traces.{is_orphan, is_shared};
ghost use Rattle.sl_host.specs.BookQuestions.{sought_on, state_in};
ghost use Rattle.std.specs.Prelude.{find, not, true, ◌≡◌};

use sl_host::Host;
use sl_member::Member;
use sl_tables::Holder;
use sl_trace::{Grant, Mode, Spot};

/// The first holding of a member on an area, of these processes, in this mode.
fn first_held(
    host: &Host,
    member: &Member,
    at: &Spot,
    holder: Holder,
    mode: Option<Mode>,
) -> Option<Grant>
    ensures { result ≡ find (fits (sought_on holder member.now.state.who.number at.now mode)) host.now.kept.holdings }
{
    match host.held(member.who().number, at, holder, mode) {
        Some(grant) => Some(*grant),
        None => None,
    }
}

/// The process's holding on an area, in whatever mode.
#[tactic(auto, using(crate::proofs::HoldingsAreFound::any_of_process))]
pub(crate) fn holding(host: &Host, member: &Member, at: &Spot, process: u32) -> Option<Grant>
    ensures { result ≡ serving_holding (state_in host.now.kept) member.now.state at.now process (λ g. true) }
{
    first_held(host, member, at, Holder::Is(process), None)
}

/// The process's exclusive holding on an area.
#[tactic(auto, using(crate::proofs::HoldingsAreFound::exclusive_of_process))]
pub(crate) fn exclusive_holding(
    host: &Host,
    member: &Member,
    at: &Spot,
    process: u32,
) -> Option<Grant>
    ensures { result ≡ serving_holding (state_in host.now.kept) member.now.state at.now process (λ g. not (is_shared g.mode)) }
{
    first_held(host, member, at, Holder::Is(process), Some(Mode::Exclusive))
}

/// The member's first shared holding on an area.
#[tactic(auto, using(crate::proofs::HoldingsAreFound::shared_on))]
pub(crate) fn shared_holding(host: &Host, member: &Member, at: &Spot) -> Option<Grant>
    ensures { result ≡ find (λ g. is_shared g.mode) (held_on (state_in host.now.kept) member.now.state at.now) }
{
    first_held(host, member, at, Holder::Anyone, Some(Mode::Shared))
}

/// The orphan of the area, in whatever mode.
#[tactic(auto, using(crate::proofs::HoldingsAreFound::any_orphan))]
pub(crate) fn orphan(host: &Host, member: &Member, at: &Spot) -> Option<Grant>
    ensures { result ≡ find is_orphan (held_on (state_in host.now.kept) member.now.state at.now) }
{
    first_held(host, member, at, Holder::Is(0), None)
}
