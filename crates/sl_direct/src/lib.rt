//! What is done to an area by hand: it is initialised or upgraded, its leader is read, its sectors are told.
//!
//! A disk of zeros spells no record, so to every host it is torn: nobody can join a lockspace or take a resource there before somebody has
//! initialised its area. `run_direct` does that, and lets a person look at what a disk has. It takes the area and a sink, and no file:
//! what it leaves and prints can so be said byte by byte, for sectors and areas of any size that there is. That no session runs on an area
//! that is initialised is the caller's to see to: nothing on the disk tells it.
//!
//! An initialising writes each sector of the area once: of a lockspace the record of each id, of a resource the request, the blocks,
//! the value and last the leader. Every host reads the leader before it asks for the resource. So on a disk where none stood, an area
//! that was left half-written has no leader, and is refused as torn. Where an old leader stood it stands still, before blocks that may
//! be new: an initialising that broke off has to be made again before a host works there. Sectors between these and the area's end stay as
//! they were. A look at a leader or at a stretch of sectors reads a sector at a time, and writes none.
//!
//! An upgrade makes an area in which each block has one sector one with pairs, and keeps its leader, its blocks, its request and its value.
//! It reads all before it writes. Then it takes the leader away first and puts it back last, as the record that only an area with pairs
//! has: an upgrade that broke off leaves no leader, and so no half of it is taken for an area of either kind.
//!
//! What an action tells is kept until it has ended, and is then put out. So it may end in six ways:
//!
//! | answer | the area | the output |
//! |---|---|---|
//! | `Done` | every write stands; after a look it is as it was | all lines |
//! | `NotTheLeader` | as it was | what the sector holds in place of the resource's leader |
//! | `TornBlock` | as it was | whose block an upgrade found torn |
//! | `AreaFault` | the writes before the one that failed stand, and that sector may be torn; after a look it is as it was | the lines of the sectors that were read, then `area fault` |
//! | `NoMemory` | as it was | the lines of the sectors that were told before |
//! | `WriteFault` | as one of these left it | a front of its output |
//!
//! A lockspace may be given a label: what all its hosts must have in common, in the area's last sector, which is written behind all others. An initialising
//! without one leaves that sector as it was.
//!
//! `fresh_areas` writes, with the records of `fresh_records`; `labelled` writes the label; `upgrade` reads and writes; `looks` reads; `lines` has the lines; `direct` puts them out. The clause of `run_direct` is
//! the table (`Directs` in specs/Actions.antt), and `laws` says what it comes to: which records stand, that the leader stands last, that a
//! leader is told exactly where it is the resource's, and that what was initialised is found.
#![tactic(auto)]

pub mod action;
mod direct;
mod fresh_areas;
mod fresh_records;
mod labelled;
pub mod laws;
mod lines;
mod looks;
mod upgrade;

pub use action::{Action, Directed};
pub use direct::run_direct;
pub use fresh_areas::{write_record, write_resource};

/// Bytes of the longest sector.
const LONGEST_SECTOR: usize = 4096;
