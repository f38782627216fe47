//! Ballots on the blocks of a resource, the order of instances, and exclusive and shared holdings.
//!
//! There is no code here, and no world: each function is a law of all histories that keep the rules of `specs/`. A history is a record of
//! functions of step numbers; the world has to supply one for each resource, and the rules from what hosts do. The ballots are those of
//! *Disk Paxos* (Gafni and Lamport) on one disk, with an instance for each time that the resource changes hands.
//!
//! The argument, in sentences:
//!
//! - A host's blocks grow, so a number names one ballot, and what a block has accepted is the value of one ballot.
//! - Of two ballots of an instance one was answered before the other read: so all that end, end with one session.
//! - An instance begins only where the one before is closed: its winner is over or has freed it.
//! - So one exclusive grant stands at a time; and a shared holder's mark stands in its block before anyone can go past its instance.
//!
//! Nothing of this asks that a read is fresh, that a write lands soon, or that a leader lands at all.

pub mod holdings;
pub mod pair_logs;
pub mod pairs;

ghost use Rattle.sl_ballot_law.specs.Residues.{RemaindersNameHosts};
ghost use Rattle.sl_ballot_law.specs.Theorems.{ActiveIsOpen, Agreement, BallotsFollow, BlocksGrow, HoldingsAreActive, InstancesClose, LeadersAreWinners, MarksAreShown, MarksComeFirst, MarksStay, NoConflict, NoneShares, NumbersNameBallots, OneExclusive, OneWinner, ValuesAreOfBallots};

// ---- blocks and numbers

/// A ballot's number names its host by its remainder.
pub fn remainders_name_hosts()
    ensures { RemaindersNameHosts }
{}

/// The blocks of a host grow: an answered one is never below an earlier one, nor are two of one session.
pub fn blocks_grow()
    ensures { BlocksGrow }
{}

/// A number of an instance names one ballot.
pub fn numbers_name_ballots()
    ensures { NumbersNameBallots }
{}

/// An accepted value is that of its ballot.
pub fn values_are_of_ballots()
    ensures { ValuesAreOfBallots }
{}

// ---- agreement

/// A ballot of a greater number has the value of one that ended.
pub fn ballots_follow()
    ensures { BallotsFollow }
{}

/// The ballots of an instance that end, end with one session.
pub fn agreement()
    ensures { Agreement }
{}

/// At most one session ends a ballot of an instance with itself.
pub fn one_winner()
    ensures { OneWinner }
{}

// ---- instances

/// A leader names the session with which the ballots of its instance end.
pub fn leaders_are_winners()
    ensures { LeadersAreWinners }
{}

/// An instance begins only where each one below it is closed.
pub fn instances_close()
    ensures { InstancesClose }
{}

// ---- exclusive holdings

/// An exclusive holding is an exclusive grant that stands.
pub fn holdings_are_active()
    ensures { HoldingsAreActive }
{}

/// The instance of an exclusive grant that stands is open.
pub fn active_is_open()
    ensures { ActiveIsOpen }
{}

/// At most one exclusive grant stands, so all that stand at a step are of one session and one instance.
pub fn one_exclusive()
    ensures { OneExclusive }
{}

// ---- shared holdings

/// The mark of a shared holder comes before the blocks of greater instances.
pub fn marks_come_first()
    ensures { MarksComeFirst }
{}

/// From the mark on the blocks of the host are marks.
pub fn marks_stay()
    ensures { MarksStay }
{}

/// Reads show the mark of a shared holder.
pub fn marks_are_shown()
    ensures { MarksAreShown }
{}

// ---- no conflict

/// Where an exclusive grant stands, no other session holds shared.
pub fn none_shares()
    ensures { NoneShares }
{}

/// Of two holdings that stand, one of them exclusive, both are of one session.
pub fn no_conflict()
    ensures { NoConflict }
{}
