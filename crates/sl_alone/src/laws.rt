//! What the machines that stand alone keep to: a law is a function without a body, and its contract is the theorem.

pub mod ballots;
pub mod deltas;
pub mod signals;
pub mod values;
