//! A ballot on blocks alone: which number it takes, what it writes, what stops it and with what value it ends.
//!
//! This is *Disk Paxos* (Gafni and Lamport) on one disk. Each host has a block of its own, which it alone writes and all read. In
//! phase 1 a host writes a number, `mbal`, that is its own and above all that it knows; a read of all blocks then tells whether
//! another has a greater one, and which value was accepted under the greatest `bal`. In phase 2 it writes that value, or itself where
//! there is none, with `bal` = `mbal`; if a second read again shows no greater number, the value is chosen for good. Instances,
//! `lver`, follow one another, each with a ballot of its own; a block of a later instance ends every ballot of an earlier one.
//!
//! Nothing here reads, writes, waits or takes memory: blocks go in and blocks come out. Each function is a single step, on a read of all hosts'
//! blocks in which a torn one is absent; whoever has a ballot keeps its phase.
#![tactic(auto)]

mod blocks;
mod instance;
pub mod laws;
mod number;
mod phases;
mod reads;

pub use blocks::{greater_bal, is_ahead, is_rival, same_owner, value_of, value_or};
pub use instance::{instance_of, owner_of};
pub use number::{Limit, number_above, within_limit};
pub use phases::{moded_block, phase1_after_read, phase1_block, phase2_after_read, proposing};
pub use reads::{stop_of, value_after_read};
