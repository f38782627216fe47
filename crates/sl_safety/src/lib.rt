//! Lawful runs are safe: after every event of every lawful run no two holdings conflict, nor does one conflict with what lingers of another
//! machine's since a reset.
//!
//! The history of a resource is read off a run of many machines: its registers (`laws::resources`), whose they are (`laws::sessions`), and
//! a host's pair of sectors (`laws::host_pairs`). Here the two halves meet. `sl_id_safety` says of each id, and the histories of resources
//! say of each resource, what the argument over ballots asks for; so of two uses, one of them exclusive, both are of one session.
#![tactic(auto)]

pub mod laws;
