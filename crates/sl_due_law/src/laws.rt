//! What is due is lawful: what every daemon that does what is due keeps to, put together over whole traces.

pub mod causes;
pub mod due;
pub mod idle_jobs;
pub mod lawful_traces;
pub mod recovery;
