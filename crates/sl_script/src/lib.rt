//! A daemon that does what its command lines tell it: for a world that is tried without a host.
//!
//! The text of a command is a script. It says what the step does that takes the command, and what the steps behind it do, until the next command;
//! `;` stands between steps, `,` between the effects of one. So a schedule has the whole run in it, and a world can be tried on what hosts would
//! do, and on what none would.
//!
//! A world asks little of a daemon: calls and children are numbered on, calls lie at whole sectors and write records, no step makes more than was said, and
//! it is known what waits for an answer. What a script says is held to this word by word; of the rest nothing is said. An effect that no word of it allows
//! is left out.
#![tactic(auto)]

mod answered_inputs;
mod calls;
mod daemon;
mod draft;
mod effect;
mod records;
mod replies;
mod script;
mod starts;

pub use script::Script;
