//! What comes last in a step: the connection of a session in recovery goes once it holds nothing and no write of it is unanswered, and a session that
//! leaves writes its free once it holds nothing and no call of it is.

ghost use Rattle.sl_delta.specs.DeltaDecisions.{IsFitNext};
ghost use Rattle.sl_host_law.specs.StepParts.Ends.{finishing};
ghost use Rattle.sl_host_law.specs.StepParts.Signals.{over};
ghost use Rattle.sl_host_law.specs.StepParts.Wakes.{delta_in};
ghost use Rattle.sl_host_law.specs.Steps.Passes.{at_member, for_members, member_numbered};
ghost use Rattle.sl_host_passes.specs.SessionFinish.{IsLast, ending_next, freeing_next, last_next, last_of, may_end, may_end_at};
ghost use Rattle.sl_host_passes.specs.PassPremises.{FinishKnown};
ghost use Rattle.sl_host_work.specs.SectorPlaces.{IsPlaced};
ghost use Rattle.sl_sector.specs.Records.{Fits};
ghost use Rattle.sl_trace.specs.DeltaDecisions.{next_free};
ghost use Rattle.sl_host.specs.BookQuestions.{held_under, state_in};
ghost use Rattle.sl_host.specs.Host.{Becomes, SameRun, Spends};
ghost use Rattle.sl_words.specs.Bounds.{moments};
ghost use Rattle.sl_words.specs.Words.{is_empty};
ghost use Rattle.std.specs.Prelude.{IfSome, Some, false, length, true, ℕ, ◌*◌, ◌+◌, ◌<◌, ◌≡◌, ◌≤◌};

use sl_host::{Host, Notes};
use sl_host_work::carry;
use sl_member::Member;
use sl_trace::{DeltaNext, Session};

/// Whether nothing is held under the session: by no process, and no orphan.
#[tactic(auto, using(crate::proofs::LastActs::nothing_held))]
fn holds_nothing(host: &Host, session: u64) -> bool
    ensures { result ≡ is_empty (held_under session host.now.kept.holdings) }
{
    let orphan = host.books().has_orphan(session);
    let held = host.holder_above(session, 0).is_some();
    !orphan && !held
}

/// What comes last of a session in recovery.
fn ending(host: &Host, member: &Member) -> DeltaNext
    ensures exact { result ≡ ending_next (state_in host.now.kept) member.now.state }
    ensures last { IsFitNext result × IsLast result }
{
    let number = member.who().number;
    if holds_nothing(host, number) && !host.has_write_open(number) {
        DeltaNext::Disconnect
    } else {
        DeltaNext::Nothing
    }
}

/// The free of a leaving, unless it was written.
fn free_of(host: &Host, member: &Member) -> DeltaNext
    requires run { member.now.run ≡ record { timing = host.now.kept.config.timing; sizes = host.now.kept.config.sizes; host = host.now.kept.config.name } }
    requires moment { host.now.kept.reading < moments }
    requires joined { member.now.state.joined ≡ true }
    requires left { (j : ℕ) → member.now.state.known.leaving ≡ Some j → member.now.state.known.freed ≡ false → Fits (member.now.state.known.seq + 1) }
    ensures exact { result ≡ next_free (delta_in (state_in host.now.kept) member.now.state) host.now.kept.reading member.now.state.known }
    ensures last { IsFitNext result × IsLast result }
{
    let known = member.known();
    match known.leaving {
        Some(_job) if !known.freed => member.free(host.reading()),
        _ => DeltaNext::Nothing,
    }
}

/// What comes last of a session that is not in recovery. What it holds is looked at only where it leaves, so that a step costs the same however much
/// is held.
#[tactic(auto, using(crate::proofs::LastActs::nothing_either))]
fn freeing(host: &Host, member: &Member) -> DeltaNext
    requires run { member.now.run ≡ record { timing = host.now.kept.config.timing; sizes = host.now.kept.config.sizes; host = host.now.kept.config.name } }
    requires moment { host.now.kept.reading < moments }
    requires joined { member.now.state.joined ≡ true }
    requires left { (j : ℕ) → member.now.state.known.leaving ≡ Some j → member.now.state.known.freed ≡ false → Fits (member.now.state.known.seq + 1) }
    ensures exact { result ≡ freeing_next (state_in host.now.kept) member.now.state }
    ensures last { IsFitNext result × IsLast result }
{
    let next = free_of(host, member);
    if let DeltaNext::Nothing = next {
        return DeltaNext::Nothing;
    }
    let number = member.who().number;
    if holds_nothing(host, number) && !host.has_call_open(number) {
        next
    } else {
        DeltaNext::Nothing
    }
}

/// What comes last of a member.
fn member_last(host: &Host, member: &Member) -> DeltaNext
    requires run { member.now.run ≡ record { timing = host.now.kept.config.timing; sizes = host.now.kept.config.sizes; host = host.now.kept.config.name } }
    requires moment { host.now.kept.reading < moments }
    requires left { (j : ℕ) → member.now.state.joined ≡ true → member.now.state.known.leaving ≡ Some j → member.now.state.known.freed ≡ false → Fits (member.now.state.known.seq + 1) }
    ensures exact { result ≡ last_next (state_in host.now.kept) member.now.state }
    ensures last { IsFitNext result × IsLast result }
{
    if !member.is_joined() {
        return DeltaNext::Nothing;
    }
    match member.renewing().recovery {
        Some(_) => ending(host, member),
        None => freeing(host, member),
    }
}

/// The same of the member of this number, with its session, if it is there.
fn last_of(host: &Host, number: u64) -> Option<(Session, DeltaNext)>
    requires { FinishKnown host.now.kept }
    ensures exact { result ≡ last_of (state_in host.now.kept) (member_numbered (state_in host.now.kept) number) }
    ensures fit { IfSome result (λ r. IsFitNext r.1 × IsLast r.1 × IsPlaced host.now.kept.config.sizes r.0) }
{
    match host.members().numbered(number) {
        Some(member) => Some((*member.who(), member_last(host, member))),
        None => None,
    }
}

/// Whether anything may come last of a member: it is in recovery, or it is left.
fn may_end(member: &Member) -> bool
    ensures { result ≡ may_end member.now.state }
{
    member.is_joined() && (member.renewing().recovery.is_some() || member.known().leaving.is_some())
}

/// The same of the member of this number, if it is there.
fn may_end_at(host: &Host, number: u64) -> bool
    ensures { result ≡ may_end_at (member_numbered (state_in host.now.kept) number) }
{
    match host.members().numbered(number) {
        Some(member) => may_end(member),
        None => false,
    }
}

/// What comes last of the member of this number, of which something may, is done.
fn end_member(host: &mut Host, number: u64)
    requires known { FinishKnown host.old.kept }
    requires left { 2 ≤ host.old.left }
    requires calls { 1 ≤ host.old.calls }
    ensures state { Becomes host.old host.new (at_member number finishing) }
    ensures left { Spends host.old host.new 2 1 }
    ensures run { SameRun host.old host.new }
{
    if let Some((who, next)) = last_of(host, number) {
        carry(host, &who, next);
    }
}

/// What comes last of the member of this number is done. Of most nothing does: they are passed over here, where nothing of a session is copied.
fn finish_member(host: &mut Host, number: u64)
    requires known { FinishKnown host.old.kept }
    requires left { 2 ≤ host.old.left }
    requires calls { 1 ≤ host.old.calls }
    ensures state { Becomes host.old host.new (at_member number finishing) }
    ensures left { Spends host.old host.new 2 1 }
    ensures run { SameRun host.old host.new }
{
    if may_end_at(host, number) {
        end_member(host, number);
    }
}

/// The same of the members of these numbers.
fn finish_noted(host: &mut Host, members: &Notes<u64>)
    requires known { FinishKnown host.old.kept }
    requires left { 2 * length members.now.items ≤ host.old.left }
    requires calls { length members.now.items ≤ host.old.calls }
    ensures state { Becomes host.old host.new (λ h. over members.now.items (λ n. at_member n finishing) h) }
    ensures left { Spends host.old host.new (2 * length members.now.items) (length members.now.items) }
    ensures run { SameRun host.old host.new }
{
    for place in 0..members.len() {
        finish_member(host, *members.nth(place));
    }
}

/// What comes last in a step: for each member at most its connection goes, or its free is written.
pub fn finish(host: &mut Host, members: &mut Notes<u64>)
    requires known { FinishKnown host.old.kept }
    requires members { length host.old.kept.members ≤ members.old.most }
    requires left { 2 * length host.old.kept.members ≤ host.old.left }
    requires calls { length host.old.kept.members ≤ host.old.calls }
    ensures state { Becomes host.old host.new (for_members finishing) }
    ensures left { Spends host.old host.new (2 * length host.old.kept.members) (length host.old.kept.members) }
    ensures run { SameRun host.old host.new }
    ensures members { members.new.most ≡ members.old.most }
{
    host.note_members(members);
    finish_noted(host, members);
}
