//! One resource: why of two sessions that hold it, one of them exclusively, there is but one.
//!
//! A *history* (`History`) is what hosts did with the blocks and the leader of a resource, as functions of step numbers. It knows no
//! world: a run has to give one for each resource (`sl_safety`). Ballots are those of *Disk Paxos* (Gafni and Lamport) on one disk, one
//! instance (`lver`) after another. A *mark* is a block that tells of a shared holding.
//!
//! What is asked of a history: its blocks are registers, which need not be atomic (`IsRegister`, and `ShowsNewest`, the register lemma);
//! blocks and leaders keep the rules (`Ballots`, `Instances`); of two joined sessions of an id one is over (`Sessions`); grants come as
//! they should (`Grants`). Then, in the order of the argument (`laws`):
//!
//! 1. `numbers_name_ballots`, `ballots_follow`, `agreement`, `one_winner`: the ballots of an instance that end, end with one session.
//! 2. `instances_close`: an instance begins only where each one below it is closed, by a winner that is over or has freed it.
//! 3. `active_is_open`, `one_exclusive`: at most one exclusive grant stands.
//! 4. `marks_come_first`, `marks_stay`, `marks_are_shown`, `none_shares`: where an exclusive grant stands no other session holds shared.
//! 5. `no_conflict`: of two holdings that stand, one of them exclusive, both are of one session; `laws::holdings` says it of two grants.
//!
//! Where a host's block is a pair of sectors, `laws::pairs` shows that the pair is such a register, though writes may be torn, with
//! counterexamples for each rule left out; `laws::pair_logs` says it of what a run tells of a pair.
#![tactic(auto)]

pub mod laws;
