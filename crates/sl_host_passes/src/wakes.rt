//! A wake: what is due by time. Joinings go on, sessions renew, leases are settled, in three passes over the members by their numbers. What is settled
//! of a member are the areas of its leases, noted as its turn comes.
//!
//! What is known of members, leases and holdings as a wake begins (`WakeKnown`) is known at each moment of it: a part of a pass takes members away,
//! or makes a call, and a settling grants nothing.

ghost use Rattle.sl_host_law.specs.Answers.WakingsFollow.{joining_by_time};
ghost use Rattle.sl_host_law.specs.StepParts.Ends.{renewing_in};
ghost use Rattle.sl_host_law.specs.StepParts.Signals.{over};
ghost use Rattle.sl_host_law.specs.Steps.Passes.{at_member, for_members};
ghost use Rattle.sl_host_law.specs.Steps.WakePasses.{settling_all, settling_here, waking};
ghost use Rattle.sl_host_passes.specs.PassesLessen.{IsNoMore, SameLeases, leases_among, leases_at, leases_in};
ghost use Rattle.sl_host_passes.specs.PassPremises.{AreAreas, HasLeases, WakeKnown, spots_of};
ghost use Rattle.sl_member.specs.HostMembers.{AreApart, member_with};
ghost use Rattle.sl_host.specs.Host.{Becomes, SameRun, Spends};
ghost use Rattle.std.specs.Prelude.{Some, length, map, ◌*◌, ◌+◌, ◌≡◌, ◌≤◌};

use sl_host::{Host, Notes};
use sl_host_work::{join_by_time, renew, settle};
use sl_member::{Leases, Member};
use sl_trace::Spot;

/// The joinings of the members of these numbers go on, where their time has come.
fn join_noted(host: &mut Host, members: &Notes<u64>)
    requires known { WakeKnown host.old.kept }
    requires left { 2 * length members.now.items ≤ host.old.left }
    requires calls { length members.now.items ≤ host.old.calls }
    ensures state { Becomes host.old host.new (λ h. over members.now.items (λ n. at_member n joining_by_time) h) }
    ensures left { Spends host.old host.new (2 * length members.now.items) (length members.now.items) }
    ensures run { SameRun host.old host.new }
    ensures known { WakeKnown host.new.kept }
{
    for place in 0..members.len() {
        join_by_time(host, *members.nth(place));
    }
}

/// All joinings go on whose time has come.
fn join_all(host: &mut Host, members: &mut Notes<u64>)
    requires known { WakeKnown host.old.kept }
    requires members { length host.old.kept.members ≤ members.old.most }
    requires left { 2 * length host.old.kept.members ≤ host.old.left }
    requires calls { length host.old.kept.members ≤ host.old.calls }
    ensures state { Becomes host.old host.new (for_members joining_by_time) }
    ensures left { Spends host.old host.new (2 * length host.old.kept.members) (length host.old.kept.members) }
    ensures run { SameRun host.old host.new }
    ensures known { WakeKnown host.new.kept }
    ensures fewer { IsNoMore host.old.kept host.new.kept }
    ensures members { members.new.most ≡ members.old.most }
{
    host.note_members(members);
    join_noted(host, members);
}

/// The members of these numbers renew, where that is due.
fn renew_noted(host: &mut Host, members: &Notes<u64>)
    requires known { WakeKnown host.old.kept }
    requires calls { length members.now.items ≤ host.old.calls }
    ensures state { Becomes host.old host.new (λ h. over members.now.items (λ n. at_member n renewing_in) h) }
    ensures left { Spends host.old host.new 0 (length members.now.items) }
    ensures run { SameRun host.old host.new }
    ensures known { WakeKnown host.new.kept }
{
    for place in 0..members.len() {
        renew(host, *members.nth(place));
    }
}

/// All members renew that are to.
fn renew_all(host: &mut Host, members: &mut Notes<u64>)
    requires known { WakeKnown host.old.kept }
    requires members { length host.old.kept.members ≤ members.old.most }
    requires calls { length host.old.kept.members ≤ host.old.calls }
    ensures state { Becomes host.old host.new (for_members renewing_in) }
    ensures left { Spends host.old host.new 0 (length host.old.kept.members) }
    ensures run { SameRun host.old host.new }
    ensures known { WakeKnown host.new.kept }
    ensures fewer { IsNoMore host.old.kept host.new.kept }
    ensures members { members.new.most ≡ members.old.most }
{
    host.note_members(members);
    renew_noted(host, members);
}

/// Notes the areas of leases.
#[tactic(auto, using(crate::proofs::Spots::spots_more, crate::proofs::Spots::spots_all))]
fn note_leases(leases: &Leases, spots: &mut Notes<Spot>)
    requires { length leases.now.leases ≤ spots.old.most }
    ensures { spots.new ≡ record spots.old { items = map (λ l. l.spot) leases.now.leases } }
{
    spots.clear();
    for place in 0..leases.len() {
        spots.put(leases.nth(place).spot());
    }
}

/// Notes the areas of a member's leases, if it is active.
fn note_active(member: &Member, spots: &mut Notes<Spot>)
    requires { length member.now.state.leases ≤ spots.old.most }
    ensures { spots.new ≡ record spots.old { items = spots_of (Some member.now.state) } }
{
    if member.is_active() {
        note_leases(member.leases(), spots);
    } else {
        spots.clear();
    }
}

/// Notes the areas of the leases of the member of this number, if it is there, and active.
fn note_spots(host: &Host, number: u64, spots: &mut Notes<Spot>)
    requires { leases_at number host.now.kept.members ≤ spots.old.most }
    ensures { spots.new ≡ record spots.old { items = spots_of (member_with number host.now.kept.members) } }
{
    match host.members().numbered(number) {
        Some(member) => note_active(member, spots),
        None => spots.clear(),
    }
}

/// Members have numbers of their own.
fn apart(host: &Host)
    ensures { AreApart (map (λ m. m.who.number) host.now.kept.members) }
{
    let _joining = host.members().joining_by(0);
}

/// The leases on these areas of the member of this number are settled.
fn settle_noted(host: &mut Host, number: u64, spots: &Notes<Spot>)
    requires known { WakeKnown host.old.kept }
    requires has { HasLeases number spots.now.items host.old.kept.members }
    requires areas { AreAreas host.old.kept.config.sizes spots.now.items }
    requires left { 3 * length spots.now.items ≤ host.old.left }
    requires calls { length spots.now.items ≤ host.old.calls }
    ensures state { Becomes host.old host.new (λ h. over spots.now.items (λ at. at_member number (settling_here at)) h) }
    ensures left { Spends host.old host.new (3 * length spots.now.items) (length spots.now.items) }
    ensures run { SameRun host.old host.new }
    ensures known { WakeKnown host.new.kept }
    ensures leases { SameLeases host.old.kept.members host.new.kept.members }
{
    apart(host);
    for place in 0..spots.len() {
        settle(host, number, spots.nth(place));
    }
}

/// All leases of the member of this number are settled, if it is there, and active.
fn settle_member(host: &mut Host, number: u64, spots: &mut Notes<Spot>)
    requires known { WakeKnown host.old.kept }
    requires room { leases_at number host.old.kept.members ≤ spots.old.most }
    requires left { 3 * leases_at number host.old.kept.members ≤ host.old.left }
    requires calls { leases_at number host.old.kept.members ≤ host.old.calls }
    ensures state { Becomes host.old host.new (at_member number settling_all) }
    ensures left { Spends host.old host.new (3 * leases_at number host.old.kept.members) (leases_at number host.old.kept.members) }
    ensures run { SameRun host.old host.new }
    ensures known { WakeKnown host.new.kept }
    ensures leases { SameLeases host.old.kept.members host.new.kept.members }
    ensures spots { spots.new.most ≡ spots.old.most }
{
    note_spots(host, number, spots);
    settle_noted(host, number, spots);
}

/// All leases of the members of these numbers are settled.
fn settle_members(host: &mut Host, members: &Notes<u64>, spots: &mut Notes<Spot>)
    requires known { WakeKnown host.old.kept }
    requires room { leases_in host.old.kept.members ≤ spots.old.most }
    requires left { 3 * leases_among members.now.items host.old.kept.members ≤ host.old.left }
    requires calls { leases_among members.now.items host.old.kept.members ≤ host.old.calls }
    ensures state { Becomes host.old host.new (λ h. over members.now.items (λ n. at_member n settling_all) h) }
    ensures left { Spends host.old host.new (3 * leases_among members.now.items host.old.kept.members) (leases_among members.now.items host.old.kept.members) }
    ensures run { SameRun host.old host.new }
    ensures spots { spots.new.most ≡ spots.old.most }
{
    for place in 0..members.len() {
        settle_member(host, *members.nth(place), spots);
    }
}

/// Members have numbers of their own, so that the leases of all numbers are those of all members.
fn few_leases(host: &Host)
    ensures { leases_among (map (λ m. m.who.number) host.now.kept.members) host.now.kept.members ≤ leases_in host.now.kept.members }
{
    apart(host);
}

/// All leases of active members are settled, by place.
fn settle_all(host: &mut Host, members: &mut Notes<u64>, spots: &mut Notes<Spot>)
    requires known { WakeKnown host.old.kept }
    requires members { length host.old.kept.members ≤ members.old.most }
    requires room { leases_in host.old.kept.members ≤ spots.old.most }
    requires left { 3 * leases_in host.old.kept.members ≤ host.old.left }
    requires calls { leases_in host.old.kept.members ≤ host.old.calls }
    ensures state { Becomes host.old host.new (for_members settling_all) }
    ensures left { Spends host.old host.new (3 * leases_in host.old.kept.members) (leases_in host.old.kept.members) }
    ensures run { SameRun host.old host.new }
    ensures members { members.new.most ≡ members.old.most }
    ensures spots { spots.new.most ≡ spots.old.most }
{
    few_leases(host);
    host.note_members(members);
    settle_members(host, members, spots);
}

/// What a wake makes due: joinings go on, members renew, leases are settled.
pub fn wake(host: &mut Host, members: &mut Notes<u64>, spots: &mut Notes<Spot>)
    requires known { WakeKnown host.old.kept }
    requires members { length host.old.kept.members ≤ members.old.most }
    requires room { leases_in host.old.kept.members ≤ spots.old.most }
    requires left { 2 * length host.old.kept.members + 3 * leases_in host.old.kept.members ≤ host.old.left }
    requires calls { 2 * length host.old.kept.members + leases_in host.old.kept.members ≤ host.old.calls }
    ensures state { Becomes host.old host.new waking }
    ensures left { Spends host.old host.new (2 * length host.old.kept.members + 3 * leases_in host.old.kept.members) (2 * length host.old.kept.members + leases_in host.old.kept.members) }
    ensures run { SameRun host.old host.new }
    ensures members { members.new.most ≡ members.old.most }
    ensures spots { spots.new.most ≡ spots.old.most }
{
    join_all(host, members);
    renew_all(host, members);
    settle_all(host, members, spots);
}
