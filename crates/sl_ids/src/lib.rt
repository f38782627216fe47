//! One id of one lockspace: why at most one of its sessions is alive, whatever clocks, disks and daemons do within their premises.
//!
//! The state of an id (`State`) is what landed in its sector and where each session of it stands; it knows no world and no calls. What
//! may happen is a relation a kind of step (`Steps`): time passes, a deciding read is sampled, a claim lands, is torn or lost, a verify
//! read is sampled, a session joins, renews, frees, is over. The times are those of Chockler and Malkhi, on one disk.
//!
//! 1. `Invariant`: claims that may still land have one base; beside a verified session that is not over no claim may land; above its
//!    claim it alone has written; no two landings spell the same. `start_holds`, `step_keeps`.
//! 2. `one_acts`, `one_is_over`: of two joined sessions of an id one is over. `over_is_final`: it stays so.
//! 3. `evidence_means_over`: a newer generation, a free, or a record that stood still for long enough is evidence against a session that
//!    is over. `silent_claim_fails`: the silence of a claim is none.
//! 4. `generation_names_one`, `generations_rise`, `earlier_are_over`, `nobody_else_writes`.
//! 5. `watchdogs_bound`, `waits_suffice`: a session acts for less than `gone` after it was renewed, and the waits are longer, on the
//!    fastest clock against the slowest (`laws::waits`).
//!
//! `some_id_is_taken_over` shows that it says something of some run; the counterexamples, that no wait can be shorter by one.
#![tactic(auto)]

pub mod laws;
