//! A session's work on one resource's lease: from the read with which an acquire begins to the last thing that it owes.
//!
//! A resource is granted in instances, one after another. Each is decided by a ballot over the blocks of all hosts (Gafni and Lamport,
//! *Disk Paxos*, on one disk); the leader record tells which instance was granted last, to whom, and whether it is free again. A shared
//! lease stands in the block of each host that has it, beside the ballot, while the leader is free.
//!
//! ```text
//! acquire     ReadArea -> Phase1Write -> Phase1Read -> Phase2Write -> Phase2Read -> TakeLeader -> (granted)
//!   shared                                                                              .. -> SetMode -> FreeLeader -> (granted)
//! release     FreeLeader, or ClearMode where it was shared
//! conversion  to shared SetMode -> (shared) FreeLeader; to exclusive as an acquire up to TakeLeader -> (exclusive) ClearMode
//! settling    an open ballot from Phase1Write on, then ClearMode, then ReadBeforeFree -> FreeLeader
//! with pairs  each read whose answer has some host's second sector torn -> ReadAgain; a settling that writes a block begins with
//!             ReadBeforeBlock
//! ```
//!
//! A `Lease` makes no call itself. It is told of each that is submitted (`reads`, `writes_block`, `writes_leader`) and of its answer
//! (`read_answered`, `write_answered`, `failed`), and is asked what comes next: `after_read`, `after_write` and `after_failure` behind an
//! answer, `release`, `convert` and `settle` where no call waits. It takes no memory: of a read's blocks it keeps one number, and what a read
//! makes due is decided over the blocks in hand, which `Blocks` holds for all leases of a host. With pairs it is handed a list (`keeps`) with
//! what a first read gave, and lets it go with the next call but its second read; `shows_turn` tells it of the own pair's turn, and
//! `after_first` is asked behind such an answer.
//!
//! For whom it is kept, the `Side`, and what is held under it and whom the session counts as over, `Held` and `Evidence`, it is told each
//! time. What it decides is what the definitions decide on the list of its calls (`decides`), and what a call and an answer change of it is
//! what they change of a host's state (`laws`).
#![tactic(auto)]

mod area_read;
mod ballots;
mod block_reads;
mod conversions;
mod kept_answers;
mod kept_changes;
pub mod laws;
mod lease;
mod next;
mod outer_facts;
mod owed;
mod pairs;
mod side;
mod torn_leader;

pub use block_reads::{Blocks, SectorBytes, Sectors, leader_of, reads_area, sectors_read};
pub use lease::Lease;
pub use next::{after_failure, after_first};
pub use outer_facts::{Evidence, Held};
pub use pairs::Pairs;
pub use side::Side;
