//! What a host does is what is due: each part of a step, as a function of what the host keeps, follows the definitions, and so does the whole step.
//!
//! A folder a part: plain facts, calls, replies, decisions, questions, parts of a step, answers, and the step.

pub mod answers;
pub mod calls;
pub mod decisions;
pub mod questions;
pub mod replies;
pub mod shared_facts;
pub mod step_parts;
pub mod steps;
