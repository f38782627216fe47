//! How many grants of a step left a conflict.
//!
//! It is asked when the step is done: the grants of a step are the last that its machine holds, and the other machines' uses are what they were:
//! what they hold, and what lingers of what they held when they were reset. A grant conflicts with a use before it or adds no conflict, so
//! where it is known that no two uses conflicted before the step, each grant costs one test of each use; what lingers on its own machine
//! conflicts with nothing there. Whether none do is known again behind it. Only where it isn't known each two uses are tested, once a step;
//! and where nothing is granted nothing is looked at. Nothing is allocated.

ghost use Rattle.sl_machine.specs.KeptParts.{kept_state};
ghost use Rattle.sl_machine.specs.Machines.{machine_state};
ghost use Rattle.sl_report.specs.Reports.{conflicts_after};
ghost use Rattle.sl_run.specs.Conflicts as conflicts;
ghost use Rattle.sl_trace.specs.Traces as traces;
ghost use Rattle.sl_world.specs.ConflictCounts.{all_with, any_beside, any_held, any_lingering, any_there, conflicts_left, conflicts_with, lingering_in, others_from, uses_before, uses_with};
ghost use Rattle.sl_world_law.specs.ToldEvents.{held_in};
ghost use Rattle.std.specs.Prelude.{drop, false, if◌then◌else◌, length, map, not, take, true, ◌&&◌, ◌+◌, ◌<◌, ◌==◌, ◌≡◌, ◌≤◌, ◌||◌};

use crate::world::World;
use sl_machine::{Lingering, LockTable, Machine};
use sl_trace::{Grant, Mode};
use sl_world_state::Daemon;
use std::marker::Model;

/// Whether a mode is shared.
fn is_shared(mode: Mode) -> bool
    ensures { result ≡ traces.is_shared mode }
{
    match mode {
        Mode::Exclusive => false,
        Mode::Shared => true,
    }
}

/// A use of a resource: what a machine holds, or what lingers of it.
#[derive(Drop)]
struct Use<'a> {
    machine: usize,
    held: &'a Grant,
    lingers: bool,
}

impl<'a> Model for Use<'a> {
    ghost use Rattle.sl_run.specs.Conflicts.{Holding};

    ghost Value = { Holding };

    ghost view = { λ u. record { machine = u.machine; held = u.held.now; lingers = u.lingers } };
}

impl<'a> Use<'a> {
    /// What a machine holds.
    fn held(machine: usize, held: &'a Grant) -> Use<'a>
        ensures { result ≡ conflicts.holding machine held.now }
    {
        Use {
            machine,
            held,
            lingers: false,
        }
    }

    /// The use that a holding of a machine makes which lingers behind a reset.
    fn lingering(machine: usize, lingering: &'a Lingering) -> Use<'a>
        ensures { result ≡ conflicts.lingering_holding machine lingering.now }
    {
        Use {
            machine,
            held: &lingering.held,
            lingers: true,
        }
    }

    /// Whether both are of one process; what lingers is its machine's.
    fn is_of_one_user(&self, other: &Use) -> bool
        ensures { result ≡ conflicts.is_one_user self.now other.now }
    {
        self.machine == other.machine
            && (self.held.process == other.held.process || self.lingers || other.lingers)
    }

    /// Whether two uses conflict.
    fn conflicts(&self, other: &Use) -> bool
        ensures { result ≡ conflicts.conflicts self.now other.now }
    {
        self.held.offset == other.held.offset
            && self.held.path == other.held.path
            && !(is_shared(self.held.mode) && is_shared(other.held.mode))
            && !self.is_of_one_user(other)
    }
}

/// A moment, and how long before it a machine may have been reset for what it held to linger.
#[derive(Clone, Copy)]
struct Lately {
    moment: u64,
    land: u64,
}

/// Whether a use conflicts with one of what a machine holds.
fn conflicts_with_held(with: &Use, machine: usize, theirs: &[Grant]) -> bool
    ensures { result ≡ any_held (conflicts.conflicts with.now) machine theirs.now }
{
    theirs
        .iter()
        .any(|held| with.conflicts(&Use::held(machine, held)))
}

/// Whether a use conflicts with one of what lingers on a machine.
fn conflicts_with_lingering(
    with: &Use,
    machine: usize,
    lately: Lately,
    theirs: &[Lingering],
) -> bool
    ensures { result ≡ any_lingering (conflicts.conflicts with.now) lately.land lately.moment machine theirs.now }
{
    theirs.iter().any(|lingering| {
        lingering.lingers(lately.land, lately.moment)
            && with.conflicts(&Use::lingering(machine, lingering))
    })
}

/// Whether a use conflicts with one of those of a machine.
fn conflicts_there<L: LockTable>(
    with: &Use,
    number: usize,
    lately: Lately,
    machine: &Machine<L>,
) -> bool
    ensures { result ≡ any_there (conflicts.conflicts with.now) lately.land lately.moment number machine.now }
{
    conflicts_with_held(with, number, &machine.held)
        || conflicts_with_lingering(with, number, lately, &machine.lingering)
}

/// Whether a use conflicts with one of another machine than this.
fn conflicts_beside<L: LockTable>(
    machines: &[Machine<L>],
    lately: Lately,
    beside: usize,
    with: &Use,
) -> bool
    ensures { result ≡ any_beside (conflicts.conflicts with.now) lately.land lately.moment beside machines.now }
{
    machines.iter().enumerate().any(|(index, machine)| {
        index + 1 != beside && conflicts_there(with, index + 1, lately, machine)
    })
}

/// Whether a use conflicts with one of the other machines, or of what one machine holds, where it holds this.
#[tactic(auto, using(crate::proofs::HeldThere::any_all))]
fn conflicts_with_any<L: LockTable>(
    machines: &[Machine<L>],
    lately: Lately,
    owner: usize,
    mine: &[Grant],
    with: &Use,
) -> bool
    ensures { result ≡ conflicts_with lately.land lately.moment owner (map (machine_state L.locks) machines.now) mine.now with.now }
{
    conflicts_beside(machines, lately, owner, with) || conflicts_with_held(with, owner, mine)
}

/// Whether one of what a machine holds conflicts with one of the other machines, or of what one machine holds, where it holds this.
fn some_held<L: LockTable>(
    machines: &[Machine<L>],
    lately: Lately,
    owner: usize,
    mine: &[Grant],
    machine: usize,
    theirs: &[Grant],
) -> bool
    ensures { result ≡ any_held (conflicts_with lately.land lately.moment owner (map (machine_state L.locks) machines.now) mine.now) machine theirs.now }
{
    theirs.iter().any(|held| {
        conflicts_with_any(machines, lately, owner, mine, &Use::held(machine, held))
    })
}

/// Whether one of what lingers on a machine does.
fn some_lingering<L: LockTable>(
    machines: &[Machine<L>],
    lately: Lately,
    owner: usize,
    mine: &[Grant],
    machine: usize,
    theirs: &[Lingering],
) -> bool
    ensures { result ≡ any_lingering (conflicts_with lately.land lately.moment owner (map (machine_state L.locks) machines.now) mine.now) lately.land lately.moment machine theirs.now }
{
    theirs.iter().any(|lingering| {
        lingering.lingers(lately.land, lately.moment)
            && conflicts_with_any(
                machines,
                lately,
                owner,
                mine,
                &Use::lingering(machine, lingering),
            )
    })
}

/// Whether one of the uses of another machine does.
fn some_beside<L: LockTable>(
    machines: &[Machine<L>],
    lately: Lately,
    owner: usize,
    mine: &[Grant],
) -> bool
    ensures { result ≡ any_beside (conflicts_with lately.land lately.moment owner (map (machine_state L.locks) machines.now) mine.now) lately.land lately.moment owner machines.now }
{
    machines.iter().enumerate().any(|(index, machine)| {
        index + 1 != owner
            && (some_held(machines, lately, owner, mine, index + 1, &machine.held)
                || some_lingering(machines, lately, owner, mine, index + 1, &machine.lingering))
    })
}

/// Whether two uses of the other machines, or of what one machine holds, conflict, where it holds this.
#[tactic(auto, using(crate::proofs::HeldThere::any_all))]
fn has_conflict<L: LockTable>(
    machines: &[Machine<L>],
    lately: Lately,
    owner: usize,
    mine: &[Grant],
) -> bool
    ensures { result ≡ conflicts.has_conflict (all_with lately.land lately.moment owner (map (machine_state L.locks) machines.now) mine.now) }
{
    some_beside(machines, lately, owner, mine)
        || some_held(machines, lately, owner, mine, owner, mine)
}

/// What the grants of a step left of conflicts.
#[derive(Clone, Copy, Debug, PartialEq, Eq)]
pub struct Conflicts {
    /// How many of the grants left one.
    pub count: u64,
    /// Whether it is known that no two uses conflict then.
    pub calm: bool,
}

/// Whether two uses of the other machines, or of what one machine holds, conflict, where it holds this, and it may be known that none do.
fn are_in_conflict<L: LockTable>(
    machines: &[Machine<L>],
    lately: Lately,
    owner: usize,
    mine: &[Grant],
    calm: bool,
) -> bool
    requires { calm ≡ true → conflicts.has_conflict (all_with lately.land lately.moment owner (map (machine_state L.locks) machines.now) mine.now) ≡ false }
    ensures { result ≡ conflicts.has_conflict (all_with lately.land lately.moment owner (map (machine_state L.locks) machines.now) mine.now) }
{
    if calm {
        return false;
    }
    has_conflict(machines, lately, owner, mine)
}

/// Whether two of them conflict, where the machine holds the first of this, and one more of it than those of which it is said.
fn has_one_more<L: LockTable>(
    machines: &[Machine<L>],
    lately: Lately,
    owner: usize,
    held: &[Grant],
    at: usize,
    before: bool,
) -> bool
    requires there { at < length held.now }
    requires known { before ≡ conflicts.has_conflict (all_with lately.land lately.moment owner (map (machine_state L.locks) machines.now) (take at held.now)) }
    ensures { result ≡ conflicts.has_conflict (all_with lately.land lately.moment owner (map (machine_state L.locks) machines.now) (take (at + 1) held.now)) }
{
    before
        || conflicts_with_any(
            machines,
            lately,
            owner,
            &held[..at],
            &Use::held(owner, &held[at]),
        )
}

/// How many of the last grants of a machine left a conflict, given in turn behind the first, and whether none is left; where it is said
/// whether there was one before.
fn count_conflicts<L: LockTable>(
    machines: &[Machine<L>],
    lately: Lately,
    owner: usize,
    held: &[Grant],
    first: usize,
    before: bool,
) -> Conflicts
    requires there { first ≤ length held.now }
    requires known { before ≡ conflicts.has_conflict (all_with lately.land lately.moment owner (map (machine_state L.locks) machines.now) (take first held.now)) }
    ensures count { result.count
        ≡ conflicts_after (others_from lately.land lately.moment owner (map (machine_state L.locks) machines.now)) owner (take first held.now) (drop first held.now) }
    ensures calm { result.calm ≡ not (conflicts.has_conflict (all_with lately.land lately.moment owner (map (machine_state L.locks) machines.now) held.now)) }
{
    let mut count: u64 = 0;
    let mut clash = before;
    let mut at = first;
    while at < held.len() {
        clash = has_one_more(machines, lately, owner, held, at, clash);
        at += 1;
        if clash {
            count += 1;
        }
    }
    Conflicts {
        count,
        calm: !clash,
    }
}

/// Whether one of what lingers on a machine conflicts with a use of another.
fn lingers_in_conflict<L: LockTable>(
    machines: &[Machine<L>],
    lately: Lately,
    owner: usize,
    lingering: &[Lingering],
) -> bool
    ensures { result ≡ any_lingering (λ a. any_beside (conflicts.conflicts a) lately.land lately.moment owner machines.now) lately.land lately.moment owner lingering.now }
{
    lingering.iter().any(|left| {
        left.lingers(lately.land, lately.moment)
            && conflicts_beside(machines, lately, owner, &Use::lingering(owner, left))
    })
}

/// Whether no two uses conflict: where it is said whether none did before the grants, and whether none do now but for what lingers on their machine.
fn stays_calm<L: LockTable>(
    machines: &[Machine<L>],
    lately: Lately,
    owner: usize,
    lingering: &[Lingering],
    before: bool,
    held: bool,
) -> bool
    ensures { result ≡ (held && (before || not (any_lingering (λ a. any_beside (conflicts.conflicts a) lately.land lately.moment owner machines.now) lately.land lately.moment owner lingering.now))) }
{
    held && (before || !lingers_in_conflict(machines, lately, owner, lingering))
}

impl<D: Daemon, L: LockTable> World<D, L> {
    /// What a machine holds; nothing where there is none.
    #[tactic(auto, using(crate::proofs::HeldThere::held_on))]
    fn held_on(&self, machine: u32) -> &[Grant]
        ensures { result.now ≡ held_in (kept_state L.locks self.now.kept) machine }
    {
        match self.kept.machine(machine) {
            None => &[],
            Some(found) => found.held.as_slice(),
        }
    }

    /// What it held when it was reset.
    #[tactic(auto, using(crate::proofs::HeldThere::lingering_on))]
    fn lingering_on(&self, machine: u32) -> &[Lingering]
        ensures { result.now ≡ lingering_in (kept_state L.locks self.now.kept) machine }
    {
        match self.kept.machine(machine) {
            None => &[],
            Some(found) => found.lingering.as_slice(),
        }
    }

    /// The moment and `land`, by which it is told what lingers still.
    #[tactic(auto, unfolding(sl_machine::specs::KeptParts::kept_state))]
    fn lately(&self) -> Lately
        ensures moment { result.moment ≡ (kept_state L.locks self.now.kept).moment }
        ensures land { result.land ≡ (kept_state L.locks self.now.kept).header.timing.land }
    {
        Lately {
            moment: self.kept.moment,
            land: self.kept.header().timing.land(),
        }
    }

    /// How many of the last `granted` holdings of a machine left a conflict when they were granted, one behind the other; where `calm` says
    /// that no two uses conflicted before them.
    pub fn conflicts_left(&self, machine: u32, granted: usize, calm: bool) -> Conflicts
        requires { calm ≡ true → conflicts.has_conflict (uses_before (kept_state L.locks self.now.kept) machine granted) ≡ false }
        ensures count { result.count ≡ conflicts_left (kept_state L.locks self.now.kept) machine granted }
        ensures calm { result.calm ≡ (if granted == 0 then calm else not (conflicts.has_conflict (uses_with (kept_state L.locks self.now.kept) machine))) }
    {
        if granted == 0 {
            return Conflicts { count: 0, calm };
        }
        let held = self.held_on(machine);
        let first = held.len().saturating_sub(granted);
        let machines = self.kept.machines.as_slice();
        let lately = self.lately();
        let owner = machine as usize;
        let before = are_in_conflict(machines, lately, owner, &held[..first], calm);
        let left = count_conflicts(machines, lately, owner, held, first, before);
        let lingering = self.lingering_on(machine);
        Conflicts {
            count: left.count,
            calm: stays_calm(machines, lately, owner, lingering, calm, left.calm),
        }
    }
}
