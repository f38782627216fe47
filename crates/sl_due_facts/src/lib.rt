//! What a daemon that does what is due keeps to at each moment of a step: the facts that its laws rest on, and those of jobs and sessions.
//!
//! A folder a question, in the order in which they stand on one another: acts of a step, its parts, facts that are known at each moment,
//! jobs, sessions, and their connections.
//!
//! `Acts` has one field for each act that a step may be made of, with all that `due` has tested before it: kills and calls that took too
//! long, the input, what an answer makes due, what a wake makes due, removals and frees at the end. A step keeps whatever each of its acts
//! keeps (`proofs::Acts::StepsKeep`), and so does each trace of such steps (`proofs::Acts::TracesKeep`): who shows that something is lawful
//! shows it of the acts, and opens `due` no more. What each single effect keeps is kept by all acts (`proofs::Acts::PlainActs`), and what is
//! shown of the acts part by part is put together (`proofs::Acts::ActsTogether`).
//!
//! What an answer makes due is still to come when it has been heard. What is false in between, as that no running job is idle, is shown from
//! what holds there to what holds afterwards (`AnswerActs`, `proofs::Acts::AnswersAreHeeded`), and nothing is left out: where nothing is due,
//! that is a field too. The one thing that is no act is the beginning: time has passed, and the recoveries that this makes due have begun.
#![tactic(auto)]

pub mod laws;
