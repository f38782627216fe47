//! What a daemon that does what is due keeps to at each moment of a step: the facts that its laws rest on, and those of jobs and sessions.

pub mod acts;
pub mod added_effects;
pub mod connections;
pub mod jobs;
pub mod sessions;
