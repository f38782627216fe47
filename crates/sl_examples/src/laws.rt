//! Laws.

pub mod ballots;
pub mod quiet_premises;
pub mod witness;
