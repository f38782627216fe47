//! What is due is lawful of leases: the ways of their work, what they hold, and what is granted, act by act.

pub mod ends;
pub mod grants;
pub mod holdings;
pub mod leases;
pub mod ways;
